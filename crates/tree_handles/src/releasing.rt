//! Releasing trees.
ghost use Rattle.std.specs.Prelude.{◌≡◌, ◌<◌};
ghost use Rattle.node_pool.specs.Nodes.{used};
ghost use Rattle.node_pool.specs.Places.{since, IsBoundary};
ghost use Rattle.node_pool.specs.State.{IsPool};
ghost use Rattle.tree_handles.specs.Forest.{Forest, bytes_in, forest_of, flatten};
ghost use Rattle.tree_handles.specs.Handed.{IsOwned, Starts};
ghost use Rattle.tree_handles.specs.Inside.{released_in};
ghost use Rattle.tree_handles.specs.Roots.{IsReleasable, without_root};
ghost use Rattle.tree_handles.specs.Standing.{Stands, forest, KeepsRefusals};
ghost use Rattle.tree_handles.specs.Walks.{released_at};

use crate::handle::Handle;
use crate::walk::{behind, step};
use node_pool::{Id, Pool};

/// One unit of a node's count is released. Where none is left the node is removed, and its children are
/// released; a subtree that is still held stays as a root where it stood.
pub fn release(pool: &mut Pool, handle: Handle)
    requires stands { Stands pool.old }
    requires releasable { IsReleasable handle (forest pool.old) }
    ensures forest { forest pool.new ≡ released_in handle (forest pool.old) }
    ensures owned { IsOwned handle (forest pool.old) → forest pool.new ≡ without_root handle (forest pool.old) }
    ensures kept { KeepsRefusals pool.old pool.new }
    ensures stands { Stands pool.new }
{
    let at = pool.locate(handle.id());
    release_at(pool, at);
}

/// The trees behind the first ones are removed, whatever holds them. `bytes` is how many bytes the first ones take.
pub fn drop_behind(pool: &mut Pool, bytes: u32)
    requires stands { Stands pool.old }
    requires front { (first : Forest) × Starts first (forest pool.old) × (bytes ≡ bytes_in first) }
    ensures forest { (first : Forest) → Starts first (forest pool.old) → bytes ≡ bytes_in first → forest pool.new ≡ first }
    ensures kept { KeepsRefusals pool.old pool.new }
    ensures stands { Stands pool.new }
{
    let len = pool.used() - bytes;
    pool.remove_block(bytes, len);
}

/// The tree that begins at a place loses one unit of its count.
fn release_at(pool: &mut Pool, at: u32)
    requires boundary { IsBoundary at pool.old.nodes }
    requires inside { at < used pool.old.nodes }
    requires trees { since at pool.old.nodes ≡ flatten (forest_of (since at pool.old.nodes)) }
    requires pool { IsPool pool.old }
    ensures nodes { pool.new ≡ record pool.old { nodes = released_at at 1 pool.old.nodes } }
    ensures pool { IsPool pool.new }
{
    let mut place = at;
    let mut owed = 1u64;
    while owed > 0 {
        let (header, _) = step(pool, place);
        if header.count > 1 {
            pool.set_count(Id::of(header.id), header.count - 1);
            place = behind(pool, place, 1);
            owed -= 1;
        } else {
            owed = pool.remove_unheld(place, owed);
        }
    }
}
