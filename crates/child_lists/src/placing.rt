//! A tree becomes a child of the one before it, at a place that is known.
ghost use Rattle.std.specs.Prelude.{◌≡◌, ◌≤◌, ℕ};
ghost use Rattle.calc_terms.specs.Trees.{count};
ghost use Rattle.child_lists.specs.Lists.{IsNextAt, Lists};
ghost use Rattle.tree_handles.specs.Expressions.{IsExpression, plain, children_of};
ghost use Rattle.tree_handles.specs.Forest.{Forest, kids, with_nth};
ghost use Rattle.tree_handles.specs.Handed.{Ends};
ghost use Rattle.tree_handles.specs.Inside.{tree_at};
ghost use Rattle.tree_handles.specs.Roots.{root_tree, put};
ghost use Rattle.tree_handles.specs.Standing.{KeepsRefusals, Stands, forest};

use crate::list::ChildList;
use node_pool::{Id, Pool};
use tree_handles::{Handle, add_before, adopt, children};

/// The child of a node at a place, none behind the last one.
pub fn next_child<const N: usize>(
    pool: &Pool,
    parent: Id,
    list: &ChildList<N>,
    at: u16,
) -> Option<Id>
    requires stands { Stands pool.now }
    requires expression { IsExpression parent (forest pool.now) }
    requires lists { Lists list.now parent (forest pool.now) }
    requires within { at ≤ count (children_of (plain (tree_at parent (forest pool.now)))) }
    ensures { IsNextAt at parent (forest pool.now) result }
{
    if at == children(pool, parent) {
        return None;
    }
    Some(list.child(pool, parent, at))
}

/// The tree that stands last, just behind another one, becomes its child before the one that is named, or its last one.
pub fn put_before(pool: &mut Pool, parent: &Handle, next: Option<Id>, child: Handle)
    requires stands { Stands pool.old }
    requires placed { (at : ℕ) × (before : Forest) × (u : Forest) × (others : Forest) × (t : Forest) × Ends parent.now u before others × Ends child t others (forest pool.old) × IsNextAt at parent.now others next }
    ensures forest { (at : ℕ) (before u others t : Forest) → Ends parent.now u before others → Ends child t others (forest pool.old) → IsNextAt at parent.now others next
        → forest pool.new ≡ put parent.now (with_nth at t (kids (root_tree parent.now others))) others }
    ensures kept { KeepsRefusals pool.old pool.new }
    ensures stands { Stands pool.new }
{
    match next {
        Some(next) => add_before(pool, parent, next, child),
        None => adopt(pool, parent, 1),
    }
}
