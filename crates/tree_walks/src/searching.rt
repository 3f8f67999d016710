//! Names in a tree.
ghost use Rattle.std.specs.Prelude.{◌↔◌, IsTrue, Contains};
ghost use Rattle.calc_terms.specs.Leaf.{name_of};
ghost use Rattle.calc_terms.specs.Trees.{names};
ghost use Rattle.tree_handles.specs.Expressions.{IsExpression, plain};
ghost use Rattle.tree_handles.specs.Inside.{tree_at};
ghost use Rattle.tree_handles.specs.Standing.{Stands, forest};

use crate::leaves::is_leaf_of;
use calc_terms::Name;
use node_pool::{Id, Pool};
use tree_handles::nodes_of;

/// Whether a name is one of a tree's.
pub fn holds_name(pool: &Pool, id: Id, name: Name) -> bool
    requires stands { Stands pool.now }
    requires expression { IsExpression id (forest pool.now) }
    ensures { IsTrue result ↔ Contains (names (plain (tree_at id (forest pool.now)))) (name_of name) }
{
    for node in nodes_of(pool, id) {
        if is_leaf_of(pool, node.id, node.kind, name) {
            return true;
        }
    }
    false
}
