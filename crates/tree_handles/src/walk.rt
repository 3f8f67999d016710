//! Steps over nodes in prefix order.
ghost use Rattle.std.specs.Prelude.{◌≡◌, ◌<◌, ◌≤◌, ◌+◌, ◌∷◌, true, drop};
ghost use Rattle.calc_terms.specs.Node.{header_of, size_of};
ghost use Rattle.node_pool.specs.Nodes.{used, has, first_of, place_of};
ghost use Rattle.node_pool.specs.Places.{since, IsBoundary};
ghost use Rattle.node_pool.specs.State.{IsPool};
ghost use Rattle.tree_handles.specs.Walks.{skip};

use calc_terms::Header;
use node_pool::{Id, Pool};

/// The header at a place, and the place behind its node. It is inlined, so that a caller decodes only the fields that it
/// uses.
#[inline(always)]
pub fn step(pool: &Pool, at: u32) -> (Header, u32)
    requires boundary { IsBoundary at pool.now.nodes }
    requires inside { at < used pool.now.nodes }
    ensures header { result.0 ≡ header_of (first_of (since at pool.now.nodes)) }
    ensures next { result.1 ≡ at + size_of (first_of (since at pool.now.nodes)) }
    ensures rest { since at pool.now.nodes ≡ first_of (since at pool.now.nodes) ∷ since result.1 pool.now.nodes }
    ensures boundary { IsBoundary result.1 pool.now.nodes }
    ensures grows { at < result.1 }
    ensures within { result.1 ≤ used pool.now.nodes }
    ensures pool { IsPool pool.now }
{
    let header = pool.header(at);
    (header, at + pool.size_at(at))
}

/// The place behind a number of trees that begin at a place.
pub fn behind(pool: &Pool, at: u32, trees: u16) -> u32
    requires boundary { IsBoundary at pool.now.nodes }
    ensures boundary { IsBoundary result pool.now.nodes }
    ensures rest { since result pool.now.nodes ≡ skip trees (since at pool.now.nodes) }
    ensures order { at ≤ result }
{
    let end = pool.used();
    let mut place = at;
    let mut owed = u64::from(trees);
    while owed > 0 && place < end {
        let (header, next) = step(pool, place);
        owed = owed - 1 + u64::from(header.children);
        place = next;
    }
    place
}

/// The place of a child, or the place behind the last child.
pub fn child_place(pool: &Pool, parent: Id, at: u16) -> u32
    requires live { has parent pool.now.nodes ≡ true }
    ensures boundary { IsBoundary result pool.now.nodes }
    ensures rest { since result pool.now.nodes ≡ skip at (drop 1 (since (place_of parent pool.now.nodes) pool.now.nodes)) }
{
    let place = pool.locate(parent);
    let (_, first) = step(pool, place);
    behind(pool, first, at)
}
