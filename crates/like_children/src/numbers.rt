//! The Numbers among children.
ghost use Rattle.std.specs.Prelude.{◌≡◌, ◌≤◌, ◌<◌, ℕ, true, MatchOption};
ghost use Rattle.calc_algebra.specs.Reduced.{is_reduced};
ghost use Rattle.calc_terms.specs.Trees.{count};
ghost use Rattle.like_children.specs.Numbers.{IsNextNumber, NoNumberBetween};
ghost use Rattle.tree_handles.specs.Expressions.{nth, children_of};
ghost use Rattle.tree_handles.specs.Handed.{tree_of, IsHanded};
ghost use Rattle.tree_handles.specs.Standing.{Stands, forest};

use node_pool::Pool;
use number_forms::is_reduced_number;
use tree_handles::{Handle, child_ids, children};

/// The first Number among the children of a root from a place on.
pub fn next_number(pool: &Pool, parent: &Handle, from: u16) -> Option<u16>
    requires stands { Stands pool.now }
    requires handed { IsHanded parent.now (forest pool.now) }
    requires within { from ≤ count (children_of (tree_of parent.now pool.now)) }
    requires reduced { let ts = children_of (tree_of parent.now pool.now) in (n : ℕ) → n < count ts → is_reduced (nth n ts) ≡ true }
    ensures { let ts = children_of (tree_of parent.now pool.now) in
        MatchOption result (NoNumberBetween from (count ts) ts) (λ at. IsNextNumber from at ts) }
{
    let mut ids = child_ids(pool, parent.id(), from);
    for at in from..children(pool, parent.id()) {
        if is_reduced_number(pool, ids.next()?) {
            return Some(at);
        }
    }
    None
}
