//! What is read of a tree.
ghost use Rattle.std.specs.Prelude.{◌≡◌, ◌<◌};
ghost use Rattle.calc_terms.specs.Leaf.{name_of};
ghost use Rattle.calc_terms.specs.Trees.{count, root_kind, sizes};
ghost use Rattle.calc_terms.specs.declared.kind.Kind.TheVariants as kinds;
ghost use Rattle.dual_diff.specs.Occurring.{occurs};
ghost use Rattle.tree_handles.specs.Expressions.{IsExpression, children_of, nth, plain};
ghost use Rattle.tree_handles.specs.Inside.{tree_at};
ghost use Rattle.tree_handles.specs.Standing.{Stands, forest};

use crate::counter::node_bytes;
use calc_terms::{Kind, Name};
use node_pool::{Id, Pool};
use tree_handles::{child_id, tree_bytes};
use tree_walks::holds_name;

/// Whether a name is one of a tree's.
pub(crate) fn holds(pool: &Pool, tree: Id, name: Name) -> bool
    requires stands { Stands pool.now }
    requires expression { IsExpression tree (forest pool.now) }
    ensures { result ≡ occurs (name_of name) (plain (tree_at tree (forest pool.now))) }
{
    holds_name(pool, tree, name)
}

/// The child of a node at a place, the first having place 0.
pub(crate) fn child_of(pool: &Pool, parent: Id, at: u16) -> Id
    requires stands { Stands pool.now }
    requires expression { IsExpression parent (forest pool.now) }
    requires within { at < count (children_of (plain (tree_at parent (forest pool.now)))) }
    ensures expression { IsExpression result (forest pool.now) }
    ensures plain { plain (tree_at result (forest pool.now)) ≡ nth at (children_of (plain (tree_at parent (forest pool.now)))) }
{
    child_id(pool, parent, at)
}

/// The bytes of a product's factors.
pub(crate) fn factor_bytes(pool: &Pool, product: Id) -> u32
    requires stands { Stands pool.now }
    requires expression { IsExpression product (forest pool.now) }
    requires product { root_kind (plain (tree_at product (forest pool.now))) ≡ kinds.Mult }
    ensures { result ≡ sizes (children_of (plain (tree_at product (forest pool.now)))) }
{
    tree_bytes(pool, product) - node_bytes(Kind::Mult)
}
