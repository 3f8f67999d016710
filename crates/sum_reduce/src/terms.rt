//! The terms of a sum by their places; sums among them are opened.
ghost use Rattle.std.specs.Prelude.{◌≡◌, ◌<◌, true};
ghost use Rattle.calc_terms.specs.Trees.{count, has_undef};
ghost use Rattle.sum_reduce.specs.Sums.{IsSum, Changes, terms_in};
ghost use Rattle.sum_reduce.specs.Terms.{AreFormed, is_loose, opened};
ghost use Rattle.calc_algebra.specs.Reduced.{is_reduced};
ghost use Rattle.tree_handles.specs.Expressions.{IsExpression, plain, nth};
ghost use Rattle.tree_handles.specs.Inside.{tree_at};
ghost use Rattle.tree_handles.specs.Standing.{Stands, forest, KeepsRefusals};

use calc_terms::Kind;
use like_children::{Opens, open_children};
use node_pool::{Id, Pool};
use number_forms::is_reduced_number;
use tree_handles::{Handle, child_id, children, has_undefined_child, kind};

/// How many terms a sum has.
#[tactic(auto, using(crate::proofs::Sums::sum_live, crate::proofs::Sums::sum_expression, crate::proofs::Sums::sum_seen))]
pub fn term_count(pool: &Pool, sum: &Handle) -> u16
    requires stands { Stands pool.now }
    requires sum { IsSum sum.now (forest pool.now) }
    ensures { result ≡ count (terms_in sum.now (forest pool.now)) }
{
    children(pool, sum.id())
}

/// The term at a place.
#[tactic(auto, using(crate::proofs::Sums::sum_expression, crate::proofs::Sums::sum_seen))]
pub fn term(pool: &Pool, sum: &Handle, at: u16) -> Id
    requires stands { Stands pool.now }
    requires sum { IsSum sum.now (forest pool.now) }
    requires within { at < count (terms_in sum.now (forest pool.now)) }
    ensures expression { IsExpression result (forest pool.now) }
    ensures tree { plain (tree_at result (forest pool.now)) ≡ nth at (terms_in sum.now (forest pool.now)) }
{
    child_id(pool, sum.id(), at)
}

/// Whether some term is Undef.
#[tactic(auto, using(crate::proofs::Sums::sum_expression, crate::proofs::Sums::sum_seen))]
pub fn has_undef_term(pool: &Pool, sum: &Handle) -> bool
    requires stands { Stands pool.now }
    requires sum { IsSum sum.now (forest pool.now) }
    ensures { result ≡ has_undef (terms_in sum.now (forest pool.now)) }
{
    has_undefined_child(pool, sum.id())
}

/// Whether a reduced tree is a sum, and no Number.
pub fn is_loose(pool: &Pool, id: Id) -> bool
    requires stands { Stands pool.now }
    requires expression { IsExpression id (forest pool.now) }
    requires reduced { is_reduced (plain (tree_at id (forest pool.now))) ≡ true }
    ensures { result ≡ is_loose (plain (tree_at id (forest pool.now))) }
{
    match kind(pool, id) {
        Kind::Add => !is_reduced_number(pool, id),
        _ => false,
    }
}

/// Sums that are no Numbers give way to their terms.
struct Loose;

impl Opens for Loose {
    ghost use Rattle.std.specs.Prelude.{◌≡◌, true};
    ghost use Rattle.calc_algebra.specs.Reduced.{is_reduced};
    ghost use Rattle.sum_reduce.specs.Terms.{terms_of_loose};

    ghost parts = { terms_of_loose };

    ghost can_tell = { λ t. is_reduced t ≡ true };

    #[tactic(auto, using(crate::proofs::Opened::loose_opens))]
    fn opens(&self, pool: &Pool, id: Id) -> bool {
        is_loose(pool, id)
    }
}

/// The terms of each sum in a sum take its place. A Number stays as it is.
#[tactic(auto, using(crate::proofs::Sorted::formed_nth))]
pub fn open_sums(pool: &mut Pool, sum: &Handle)
    requires stands { Stands pool.old }
    requires sum { IsSum sum.now (forest pool.old) }
    requires formed { AreFormed (terms_in sum.now (forest pool.old)) }
    ensures changes { Changes sum.now (forest pool.old) (forest pool.new) }
    ensures opened { terms_in sum.now (forest pool.new) ≡ opened (terms_in sum.now (forest pool.old)) }
    ensures kept { KeepsRefusals pool.old pool.new }
    ensures stands { Stands pool.new }
{
    open_children(pool, sum, &Loose);
}
