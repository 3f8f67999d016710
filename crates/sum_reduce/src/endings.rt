//! What is answered for a settled sum.
ghost use Rattle.std.specs.Prelude.{◌≡◌, ◌≤◌};
ghost use Rattle.calc_terms.specs.Trees.{count, append, is_add};
ghost use Rattle.number_forms.specs.Sums.{removed};
ghost use Rattle.sum_reduce.specs.Sums.{IsSum, Changes, terms_in};
ghost use Rattle.sum_reduce.specs.Terms.{AreFormed, terms_of_number, sum_tree, leads_number, written_tree};
ghost use Rattle.tree_handles.specs.Expressions.{IsExpression, plain, nth};
ghost use Rattle.tree_handles.specs.Handed.{Gives};
ghost use Rattle.tree_handles.specs.Inside.{tree_at};
ghost use Rattle.tree_handles.specs.Roots.{without_root};
ghost use Rattle.tree_handles.specs.Standing.{Stands, forest, KeepsRefusals};

use crate::terms::{term, term_count};
use calc_terms::Kind;
use node_pool::{Id, Pool};
use number_forms::{is_reduced_number, is_zero};
use tree_handles::{Handle, kind, merge_children, move_last, release, take_child};

fn is_sum(pool: &Pool, id: Id) -> bool
    requires stands { Stands pool.now }
    requires expression { IsExpression id (forest pool.now) }
    ensures { result ≡ is_add (plain (tree_at id (forest pool.now))) }
{
    matches!(kind(pool, id), Kind::Add)
}

/// A Number that stands first is released where it is 0, and stands as its terms where it has two or more.
#[tactic(auto, using(crate::proofs::Sums::sum_within, crate::proofs::Sums::sum_once, crate::proofs::Sums::merged, crate::proofs::Sums::changes_same, crate::proofs::Written::spread_one))]
fn spread_number(pool: &mut Pool, sum: &Handle)
    requires stands { Stands pool.old }
    requires sum { IsSum sum.now (forest pool.old) }
    requires some { 1 ≤ count (terms_in sum.now (forest pool.old)) }
    ensures changes { Changes sum.now (forest pool.old) (forest pool.new) }
    ensures terms { let ts = terms_in sum.now (forest pool.old) in
        terms_in sum.now (forest pool.new) ≡ append (terms_of_number (nth 0 ts)) (removed 0 ts) }
    ensures kept { KeepsRefusals pool.old pool.new }
    ensures stands { Stands pool.new }
{
    let first = term(pool, sum, 0);
    if is_zero(pool, first) {
        let zero = take_child(pool, sum, 0);
        release(pool, zero);
    } else if is_sum(pool, first) {
        merge_children(pool, sum, 0);
    }
}

/// Whether a Number stands before other terms.
#[tactic(auto, using(crate::proofs::Sorted::formed_nth, crate::proofs::Written::leads_two, crate::proofs::Written::leads_few))]
fn leads_number(pool: &Pool, sum: &Handle) -> bool
    requires stands { Stands pool.now }
    requires sum { IsSum sum.now (forest pool.now) }
    requires formed { AreFormed (terms_in sum.now (forest pool.now)) }
    ensures { result ≡ leads_number (terms_in sum.now (forest pool.now)) }
{
    term_count(pool, sum) > 1 && is_reduced_number(pool, term(pool, sum, 0))
}

/// A Number before other terms stands as its terms.
#[tactic(auto, using(crate::proofs::Written::spread_some, crate::proofs::Written::written_led, crate::proofs::Sums::changes_same, crate::proofs::Written::written_unled))]
fn spread(pool: &mut Pool, sum: &Handle)
    requires stands { Stands pool.old }
    requires sum { IsSum sum.now (forest pool.old) }
    requires formed { AreFormed (terms_in sum.now (forest pool.old)) }
    requires some { 1 ≤ count (terms_in sum.now (forest pool.old)) }
    ensures changes { Changes sum.now (forest pool.old) (forest pool.new) }
    ensures some { 1 ≤ count (terms_in sum.now (forest pool.new)) }
    ensures tree { sum_tree (terms_in sum.now (forest pool.new)) ≡ written_tree (terms_in sum.now (forest pool.old)) }
    ensures kept { KeepsRefusals pool.old pool.new }
    ensures stands { Stands pool.new }
{
    if leads_number(pool, sum) {
        spread_number(pool, sum);
    }
}

/// The only term of a sum of one, and any other sum itself.
#[tactic(auto, using(crate::proofs::Sums::sum_within, tree_handles::proofs::Given::represents_handed, crate::proofs::Written::other_sum))]
fn unwrapped(pool: &mut Pool, sum: Handle) -> Handle
    requires stands { Stands pool.old }
    requires sum { IsSum sum (forest pool.old) }
    requires some { 1 ≤ count (terms_in sum (forest pool.old)) }
    ensures tree { Gives (without_root sum (forest pool.old)) (forest pool.new) result (λ t. t ≡ sum_tree (terms_in sum (forest pool.old))) }
    ensures kept { KeepsRefusals pool.old pool.new }
    ensures stands { Stands pool.new }
{
    if term_count(pool, &sum) == 1 {
        let only = take_child(pool, &sum, 0);
        release(pool, sum);
        only
    } else {
        move_last(pool, &sum);
        sum
    }
}

/// The tree of settled terms: a Number alone, or the terms of a Number before the others.
pub fn written(pool: &mut Pool, sum: Handle) -> Handle
    requires stands { Stands pool.old }
    requires sum { IsSum sum (forest pool.old) }
    requires formed { AreFormed (terms_in sum (forest pool.old)) }
    requires some { 1 ≤ count (terms_in sum (forest pool.old)) }
    ensures tree { Gives (without_root sum (forest pool.old)) (forest pool.new) result (λ t. t ≡ written_tree (terms_in sum (forest pool.old))) }
    ensures kept { KeepsRefusals pool.old pool.new }
    ensures stands { Stands pool.new }
{
    spread(pool, &sum);
    unwrapped(pool, sum)
}
