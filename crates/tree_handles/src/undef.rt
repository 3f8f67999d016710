//! Undef: a tree that becomes it, and whether a node or a child is.
ghost use Rattle.std.specs.Prelude.{◌≡◌, [], ◌∷◌};
ghost use Rattle.calc_terms.specs.Trees.{undef, is_undef, has_undef};
ghost use Rattle.tree_handles.specs.Standing.{Stands, forest, KeepsRefusals};
ghost use Rattle.tree_handles.specs.Handed.{tree_of, IsHanded, Gives, KeepsFront};
ghost use Rattle.tree_handles.specs.Expressions.{IsExpression, children_of, plain};
ghost use Rattle.tree_handles.specs.Inside.{tree_at};
ghost use Rattle.tree_handles.specs.Roots.{without_root};

use crate::handle::{Handle, node};
use crate::read::kind;
use crate::releasing::release;
use crate::siblings::child_ids;
use calc_terms::Kind;
use node_pool::{Id, Pool};

/// Releases a tree, whose bytes suffice for Undef, and gives Undef as a new last tree.
pub fn undefined(pool: &mut Pool, tree: Handle) -> Handle
    requires stands { Stands pool.old }
    requires handed { IsHanded tree (forest pool.old) }
    ensures gives { Gives (without_root tree (forest pool.old)) (forest pool.new) result (λ t. t ≡ undef) }
    ensures front { KeepsFront (tree ∷ []) (forest pool.old) (forest pool.new) }
    ensures kept { KeepsRefusals pool.old pool.new }
    ensures stands { Stands pool.new }
{
    release(pool, tree);
    match node(pool, Kind::Undef) {
        Ok(undef) => undef,
        Err(_) => unreachable!(),
    }
}

/// Whether a node is Undef.
pub fn is_undefined(pool: &Pool, id: Id) -> bool
    requires stands { Stands pool.now }
    requires expression { IsExpression id (forest pool.now) }
    ensures { result ≡ is_undef (plain (tree_at id (forest pool.now))) }
{
    matches!(kind(pool, id), Kind::Undef)
}

/// Whether some child of a node is Undef.
pub fn has_undefined_child(pool: &Pool, id: Id) -> bool
    requires stands { Stands pool.now }
    requires expression { IsExpression id (forest pool.now) }
    ensures { result ≡ has_undef (children_of (plain (tree_at id (forest pool.now)))) }
{
    for child in child_ids(pool, id, 0) {
        if is_undefined(pool, child) {
            return true;
        }
    }
    false
}
