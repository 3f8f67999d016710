//! Squares of Numbers.
ghost use Rattle.std.specs.Prelude.{ℕ, List, ◌+◌, ◌≡◌, ◌↔◌, ◌<◌, ◌^◌, ◌∷◌, ◌++◌, [], true, IsErr, IfOk, IfErr, OnOk};
ghost use Rattle.calc_algebra.specs.Numbers.{is_number, value};
ghost use Rattle.calc_algebra.specs.Surds.{surd_times};
ghost use Rattle.calc_room.specs.Spans.{IsSpanned, Spans, SpansTree};
ghost use Rattle.calc_terms.specs.Rat.{value_of};
ghost use Rattle.calc_terms.specs.Trees.{size};
ghost use Rattle.node_pool.specs.State.{free_of};
ghost use Rattle.child_lists.specs.Lists.{Lists};
ghost use Rattle.number_forms.specs.Answers.{IsNumberOver};
ghost use Rattle.number_forms.specs.Overflows.{terms_from, SquareRowOverflows, SquareOverflows};
ghost use Rattle.number_forms.specs.Rooms.{LacksRoom, joining_need};
ghost use Rattle.number_forms.specs.Squares.{twice, square_row, square_terms};
ghost use Rattle.number_forms.specs.Sums.{IsSum, IsSumOf};
ghost use Rattle.number_forms.specs.Safety.{IsSafe};
ghost use Rattle.rational128.specs.Refusals.{DoesNotFit};
ghost use Rattle.surd_terms.specs.Terms.{term_of};
ghost use Rattle.tree_handles.specs.Faults.{OfOverflow};
ghost use Rattle.tree_handles.specs.Handed.{tree_of, IsHanded, Gives};
ghost use Rattle.tree_handles.specs.Roots.{without_root};
ghost use Rattle.tree_handles.specs.Standing.{Stands, forest};

use crate::adding::number_of;
use crate::joining::{NOWHERE, join_term};
use crate::multiplying::join_products;
use crate::read::term_count;
use crate::roots;
use crate::term::listed_term;
use calc_terms::Kind;
use child_lists::{ChildList, FEW, MANY, MOST, NONE};
use node_pool::{Id, Pool};
use rational128::{Op, Overflow, add};
use surd_terms::{Term, product};
use tree_handles::{Handle, NumberFault, node};

/// A new last tree that is the square of a Number, which stays. Each product of two terms is made once and counts twice.
pub(crate) fn square_of(pool: &mut Pool, a: &Handle) -> Result<Handle, NumberFault>
    requires stands { Stands pool.old }
    requires handed { IsHanded a.now (forest pool.old) }
    requires number { is_number (tree_of a.now pool.old) ≡ true }
    ensures ok { IfOk result (λ h. Gives (forest pool.old) (forest pool.new) h (IsNumberOver (surd_times (value (tree_of a.now pool.old)) (value (tree_of a.now pool.old))))) }
    ensures overflow { IfErr result (OfOverflow (SquareOverflows (value (tree_of a.now pool.old)))) }
    ensures room { (gs : List ℕ) → SpansTree gs (tree_of a.now pool.old) → IfErr result (LacksRoom joining_need (free_of pool.old) gs) }
    ensures safe { IsSafe [] pool.old pool.new result }
{
    let terms = roots::term_count(pool, a);
    let pairs = usize::from(terms.saturating_mul(terms) / 2);
    if pairs == 0 {
        square_within::<NONE>(pool, a)
    } else if pairs <= FEW {
        square_within::<FEW>(pool, a)
    } else if pairs <= MANY {
        square_within::<MANY>(pool, a)
    } else {
        square_within::<MOST>(pool, a)
    }
}

/// The same with lists that have room for so many terms.
#[inline(never)]
fn square_within<const N: usize>(pool: &mut Pool, a: &Handle) -> Result<Handle, NumberFault>
    requires few { N < 2 ^ 16 }
    requires stands { Stands pool.old }
    requires handed { IsHanded a.now (forest pool.old) }
    requires number { is_number (tree_of a.now pool.old) ≡ true }
    ensures ok { IfOk result (λ h. Gives (forest pool.old) (forest pool.new) h (IsNumberOver (surd_times (value (tree_of a.now pool.old)) (value (tree_of a.now pool.old))))) }
    ensures overflow { IfErr result (OfOverflow (SquareOverflows (value (tree_of a.now pool.old)))) }
    ensures room { (gs : List ℕ) → SpansTree gs (tree_of a.now pool.old) → IfErr result (LacksRoom joining_need (free_of pool.old) gs) }
    ensures safe { IsSafe [] pool.old pool.new result }
{
    let sum = node(pool, Kind::Add)?;
    let mut list: ChildList<N> = ChildList::new();
    let terms: ChildList<N> = ChildList::of(pool, a.id());
    join_squares(pool, &sum, &mut list, a.id(), &terms)?;
    Ok(number_of(pool, sum)?)
}

/// Joins the square of a Number, another root, to a sum.
fn join_squares<const N: usize>(
    pool: &mut Pool,
    sum: &Handle,
    list: &mut ChildList<N>,
    number: Id,
    terms: &ChildList<N>,
) -> Result<(), NumberFault>
    requires stands { Stands pool.old }
    requires sum { Gives (without_root sum.now (forest pool.old)) (forest pool.old) sum.now IsSum }
    requires lists { Lists list.old sum.now (forest pool.old) }
    requires handed { IsHanded number (without_root sum.now (forest pool.old)) }
    requires number { is_number (tree_of number pool.old) ≡ true }
    requires terms { Lists terms.now number (forest pool.old) }
    ensures ok { OnOk result (Gives (without_root sum.now (forest pool.old)) (forest pool.new) sum.now (IsSumOf (value (tree_of sum.now pool.old) ++ square_terms (value (tree_of number pool.old))))) }
    ensures lists { OnOk result (Lists list.new sum.now (forest pool.new)) }
    ensures overflow { value (tree_of sum.now pool.old) ≡ [] → IfErr result (OfOverflow (SquareOverflows (value (tree_of number pool.old)))) }
    ensures room { (gs : List ℕ) → Spans gs (value (tree_of sum.now pool.old)) → Spans gs (value (tree_of number pool.old)) → IfErr result (LacksRoom joining_need (free_of pool.old + size (tree_of sum.now pool.old)) gs) }
    ensures safe { IsSafe (sum.now ∷ []) pool.old pool.new result }
{
    for at in 0..term_count(pool, number) {
        let term = listed_term(pool, number, terms, at);
        join_square_row(pool, sum, list, term, number, terms, at + 1)?;
    }
    Ok(())
}

/// Joins the square of a term, and twice its product with each term of a Number, another root, from a place on to a
/// sum.
fn join_square_row<const N: usize>(
    pool: &mut Pool,
    sum: &Handle,
    list: &mut ChildList<N>,
    term: Term,
    number: Id,
    terms: &ChildList<N>,
    from: u16,
) -> Result<(), NumberFault>
    requires stands { Stands pool.old }
    requires sum { Gives (without_root sum.now (forest pool.old)) (forest pool.old) sum.now IsSum }
    requires lists { Lists list.old sum.now (forest pool.old) }
    requires handed { IsHanded number (without_root sum.now (forest pool.old)) }
    requires number { is_number (tree_of number pool.old) ≡ true }
    requires terms { Lists terms.now number (forest pool.old) }
    ensures ok { OnOk result (Gives (without_root sum.now (forest pool.old)) (forest pool.new) sum.now (IsSumOf (value (tree_of sum.now pool.old) ++ square_row (term_of term) (terms_from from (value (tree_of number pool.old)))))) }
    ensures lists { OnOk result (Lists list.new sum.now (forest pool.new)) }
    ensures overflow { IfErr result (OfOverflow (SquareRowOverflows (tree_of sum.now pool.old) (term_of term) (terms_from from (value (tree_of number pool.old))))) }
    ensures room { (gs : List ℕ) → Spans gs (value (tree_of sum.now pool.old)) → IsSpanned gs (term_of term).radicand → Spans gs (value (tree_of number pool.old)) → IfErr result (LacksRoom joining_need (free_of pool.old + size (tree_of sum.now pool.old)) gs) }
    ensures safe { IsSafe (sum.now ∷ []) pool.old pool.new result }
{
    let square = product(term, term)?;
    join_term(pool, sum, list, square, NOWHERE)?;
    // It fits, since the square does.
    let double = twice(term)?;
    join_products(pool, sum, list, double, number, terms, from)?;
    Ok(())
}

/// The term added to itself.
fn twice(term: Term) -> Result<Term, Overflow>
    ensures sum { IfOk result (λ t. term_of t ≡ twice (term_of term)) }
    ensures refused { IsErr result ↔ DoesNotFit Op.Add (term_of term).coefficient (term_of term).coefficient }
    ensures caused { IfErr result (λ e. DoesNotFit e.op (value_of e.a) (value_of e.b)) }
{
    let coefficient = add(term.coefficient(), term.coefficient())?;
    Ok(Term::new(coefficient, term.radicand()))
}
