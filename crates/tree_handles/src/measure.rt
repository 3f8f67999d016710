//! The bytes, the nodes and the depth of a tree, and the trees of a pool, each in one walk over the nodes.
ghost use Rattle.std.specs.Prelude.{◌≡◌, ◌<◌, ◌≤◌, ◌+◌, ◌-◌, ℕ, true};
ghost use Rattle.calc_terms.specs.Trees.{size, nodes, depth};
ghost use Rattle.tree_handles.specs.Expressions.{IsExpression, plain};
ghost use Rattle.tree_handles.specs.Forest.{arity, bytes_in, nodes_in, depth_in};
ghost use Rattle.tree_handles.specs.Inside.{holds, tree_at};
ghost use Rattle.tree_handles.specs.Standing.{Stands, forest};

use crate::visits::nodes_of;
use crate::walk::behind;
use node_pool::{Id, Pool};

/// A pool has at most 65,535 nodes, so a walk has at most one level more than that open.
const LEVELS: usize = 65_536;

/// The bytes of a tree's nodes.
pub fn tree_bytes(pool: &Pool, id: Id) -> u32
    requires stands { Stands pool.now }
    requires live { holds id (forest pool.now) ≡ true }
    ensures value { result ≡ bytes_in (tree_at id (forest pool.now)) }
    ensures plain { IsExpression id (forest pool.now) → result ≡ size (plain (tree_at id (forest pool.now))) }
{
    let from = pool.locate(id);
    behind(pool, from, 1) - from
}

/// The number of a tree's nodes.
pub fn tree_nodes(pool: &Pool, id: Id) -> u32
    requires stands { Stands pool.now }
    requires live { holds id (forest pool.now) ≡ true }
    ensures value { result ≡ nodes_in (tree_at id (forest pool.now)) }
    ensures plain { IsExpression id (forest pool.now) → result ≡ nodes (plain (tree_at id (forest pool.now))) }
{
    nodes_of(pool, id).count() as u32
}

/// The depth of a tree: 1 for a single node, and else one more than its deepest child's.
pub fn tree_depth(pool: &Pool, id: Id) -> u32
    requires stands { Stands pool.now }
    requires live { holds id (forest pool.now) ≡ true }
    ensures value { result ≡ depth_in (tree_at id (forest pool.now)) }
    ensures plain { IsExpression id (forest pool.now) → result ≡ depth (plain (tree_at id (forest pool.now))) }
{
    let mut nodes = nodes_of(pool, id);
    // How many nodes are still owed on each open level.
    let mut owed = [0u16; LEVELS];
    owed[0] = 1;
    let mut height = 1usize;
    let mut deepest = 0u32;
    while height > 0 {
        if owed[height - 1] == 0 {
            height -= 1;
        } else {
            let node = nodes.next().unwrap();
            owed[height - 1] -= 1;
            deepest = deepest.max(height as u32);
            owed[height] = node.children;
            height += 1;
        }
    }
    deepest
}

/// The number of trees that a pool holds.
pub fn count_trees(pool: &Pool) -> u32
    requires { Stands pool.now }
    ensures { result ≡ arity (forest pool.now) }
{
    let end = pool.used();
    let mut at = 0;
    let mut trees = 0u32;
    while at < end {
        at = behind(pool, at, 1);
        trees += 1;
    }
    trees
}
