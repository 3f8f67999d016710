//! What the readers tell of a tree, by its handle.
#![tactic(auto, using(tree_handles::proofs::Seen::seen))]

ghost use Rattle.std.specs.Prelude.{◌≡◌, ◌<◌, true, Some, slice_get};
ghost use Rattle.calc_algebra.specs.Numbers.{is_number, classes, value};
ghost use Rattle.calc_algebra.specs.Reduced.{is_num_one};
ghost use Rattle.calc_terms.specs.Trees.{is_num};
ghost use Rattle.number_forms.specs.Readers.{is_zero};
ghost use Rattle.surd_terms.specs.Terms.{term_of};
ghost use Rattle.tree_handles.specs.Handed.{tree_of, IsHanded};
ghost use Rattle.tree_handles.specs.Standing.{Stands, forest};

use crate::{rationals, read, term};
use node_pool::Pool;
use surd_terms::Term;
use tree_handles::Handle;

/// Whether a tree is a rational.
pub(crate) fn is_rational(pool: &Pool, a: &Handle) -> bool
    requires stands { Stands pool.now }
    requires handed { IsHanded a.now (forest pool.now) }
    ensures { result ≡ is_num (tree_of a.now pool.now) }
{
    rationals::is_rational(pool, a.id())
}

/// Whether a tree is the rational 0.
pub(crate) fn is_zero(pool: &Pool, a: &Handle) -> bool
    requires stands { Stands pool.now }
    requires handed { IsHanded a.now (forest pool.now) }
    ensures { result ≡ is_zero (tree_of a.now pool.now) }
{
    read::is_zero(pool, a.id())
}

/// Whether a tree is the rational 1.
pub(crate) fn is_num_one(pool: &Pool, a: &Handle) -> bool
    requires stands { Stands pool.now }
    requires handed { IsHanded a.now (forest pool.now) }
    ensures { result ≡ is_num_one (tree_of a.now pool.now) }
{
    read::is_num_one(pool, a.id())
}

/// The number of terms of a Number.
pub(crate) fn term_count(pool: &Pool, a: &Handle) -> u16
    requires stands { Stands pool.now }
    requires handed { IsHanded a.now (forest pool.now) }
    requires number { is_number (tree_of a.now pool.now) ≡ true }
    ensures { result ≡ classes (tree_of a.now pool.now) }
{
    read::term_count(pool, a.id())
}

/// A term of a Number, by its place among them.
pub(crate) fn nth_term(pool: &Pool, a: &Handle, at: u16) -> Term
    requires stands { Stands pool.now }
    requires handed { IsHanded a.now (forest pool.now) }
    requires number { is_number (tree_of a.now pool.now) ≡ true }
    requires within { at < classes (tree_of a.now pool.now) }
    ensures { slice_get (value (tree_of a.now pool.now)) at ≡ Some (term_of result) }
{
    term::nth_term(pool, a.id(), at)
}
