//! Whether a tree is deep, in a walk that stops at the first node that is.
ghost use Rattle.std.specs.Prelude.{◌<◌, ◌↔◌, IsTrue};
ghost use Rattle.calc_terms.specs.Limits.{depth_limit};
ghost use Rattle.calc_terms.specs.Trees.{depth};
ghost use Rattle.tree_handles.specs.Expressions.{IsExpression, plain};
ghost use Rattle.tree_handles.specs.Inside.{tree_at};
ghost use Rattle.tree_handles.specs.Standing.{Stands, forest};

use node_pool::{Id, Pool};
use tree_handles::{nodes_of, tree_nodes};

/// How deep the tree of a line may be: a leaf is 1 deep.
pub const DEPTH_LIMIT: usize = 64;

/// Whether a tree is deeper than `DEPTH_LIMIT`.
pub fn is_deeper(pool: &Pool, id: Id) -> bool
    requires stands { Stands pool.now }
    requires expression { IsExpression id (forest pool.now) }
    ensures { IsTrue result ↔ (depth_limit < depth (plain (tree_at id (forest pool.now)))) }
{
    // Each level has a node, and no node takes fewer than eight bytes.
    if pool.used() - pool.locate(id) <= 8 * DEPTH_LIMIT as u32 {
        return false;
    }
    if tree_nodes(pool, id) <= DEPTH_LIMIT as u32 {
        return false;
    }
    has_deeper_level(pool, id)
}

/// The same, level by level. It is no part of its caller, since it has a list at its entry.
#[inline(never)]
fn has_deeper_level(pool: &Pool, id: Id) -> bool
    requires stands { Stands pool.now }
    requires expression { IsExpression id (forest pool.now) }
    ensures { IsTrue result ↔ (depth_limit < depth (plain (tree_at id (forest pool.now)))) }
{
    let mut nodes = nodes_of(pool, id);
    // How many nodes are still owed on each open level.
    let mut owed = [0u16; DEPTH_LIMIT + 1];
    owed[0] = 1;
    let mut height = 1usize;
    while height > 0 {
        if owed[height - 1] == 0 {
            height -= 1;
        } else if height > DEPTH_LIMIT {
            return true;
        } else {
            let node = nodes.next().unwrap();
            owed[height - 1] -= 1;
            owed[height] = node.children;
            height += 1;
        }
    }
    false
}
