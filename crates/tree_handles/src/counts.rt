//! Units of counts: one more.
ghost use Rattle.std.specs.Prelude.{◌≡◌, ◌<◌, ◌+◌, ℕ, true};
ghost use Rattle.tree_handles.specs.Forest.{arity, root_id, root_count, tree_nth};
ghost use Rattle.tree_handles.specs.Inside.{holds, kids_of, count_of, with_count_in};
ghost use Rattle.tree_handles.specs.Standing.{Stands, forest, KeepsRefusals};

use crate::handle::Handle;
use crate::read::{child_id, count};
use node_pool::{Id, Pool};

/// One more handle of a node. `count` tells whether there is room.
pub fn retain(pool: &mut Pool, handle: &Handle) -> Handle
    requires stands { Stands pool.old }
    requires live { holds handle.now (forest pool.old) ≡ true }
    requires room { count_of handle.now (forest pool.old) < 65535 }
    ensures forest { forest pool.new ≡ with_count_in handle.now (count_of handle.now (forest pool.old) + 1) (forest pool.old) }
    ensures handle { result ≡ handle.now }
    ensures kept { KeepsRefusals pool.old pool.new }
    ensures stands { Stands pool.new }
{
    let id = handle.id();
    raise(pool, id);
    Handle::of(id)
}

/// A handle of a child, beside its parent's unit.
pub fn child(pool: &mut Pool, parent: &Handle, at: u16) -> Handle
    requires stands { Stands pool.old }
    requires within { at < arity (kids_of parent.now (forest pool.old)) }
    requires room { root_count (tree_nth at (kids_of parent.now (forest pool.old))) < 65535 }
    ensures forest { let child = tree_nth at (kids_of parent.now (forest pool.old)) in
        forest pool.new ≡ with_count_in (root_id child) (root_count child + 1) (forest pool.old) }
    ensures handle { result ≡ root_id (tree_nth at (kids_of parent.now (forest pool.old))) }
    ensures kept { KeepsRefusals pool.old pool.new }
    ensures stands { Stands pool.new }
{
    let id = child_id(pool, parent.id(), at);
    raise(pool, id);
    Handle::of(id)
}

/// A node's count rises by one.
fn raise(pool: &mut Pool, id: Id)
    requires stands { Stands pool.old }
    requires live { holds id (forest pool.old) ≡ true }
    requires room { count_of id (forest pool.old) < 65535 }
    ensures forest { forest pool.new ≡ with_count_in id (count_of id (forest pool.old) + 1) (forest pool.old) }
    ensures kept { KeepsRefusals pool.old pool.new }
    ensures stands { Stands pool.new }
{
    let count = count(pool, id);
    pool.set_count(id, count + 1);
}
