//! Lists whose room was taken once.
ghost use Rattle.std.specs.Prelude.{◌≡◌, ◌<◌, ◌≤◌, ◌+◌, [], ◌∷◌, ◌++◌, length, true, vec_capacity};
ghost use Rattle.tree_handles.specs.Forest.{nodes_in};
ghost use Rattle.tree_handles.specs.Inside.{holds, tree_at};
ghost use Rattle.tree_handles.specs.Standing.{Stands, forest};
ghost use Rattle.tree_handles.specs.Visits.{visits_of};

use node_pool::{Id, Pool};
use tree_handles::{Visit, nodes_of};

/// Appends an item for which there is room.
pub(crate) fn append<T: Drop>(list: &mut Vec<T>, item: T)
    requires { length list.old.items < vec_capacity list.old }
    ensures items { list.new.items ≡ list.old.items ++ item ∷ [] }
    ensures len { length list.new.items ≡ length list.old.items + 1 }
    ensures capacity { vec_capacity list.old ≤ vec_capacity list.new }
{
    list.push(item).unwrap();
}

/// Lists the nodes of a tree in prefix order, in place of those that were listed.
pub(crate) fn list_nodes(pool: &Pool, root: Id, cells: &mut Vec<Visit>)
    requires stands { Stands pool.now }
    requires live { holds root (forest pool.now) ≡ true }
    requires room { nodes_in (tree_at root (forest pool.now)) ≤ vec_capacity cells.old }
    ensures listed { cells.new.items ≡ visits_of (tree_at root (forest pool.now)) }
    ensures capacity { vec_capacity cells.old ≤ vec_capacity cells.new }
{
    cells.clear();
    for node in nodes_of(pool, root) {
        append(cells, node);
    }
}
