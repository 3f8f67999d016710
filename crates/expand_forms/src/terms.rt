//! The terms of an expanded tree.
ghost use Rattle.std.specs.Prelude.{◌≡◌, ◌<◌, true};
ghost use Rattle.calc_terms.specs.Trees.{count};
ghost use Rattle.child_lists.specs.Lists.{Lists};
ghost use Rattle.expansions.specs.Terms.{terms_in};
ghost use Rattle.tree_handles.specs.Expressions.{IsExpression, nth, plain};
ghost use Rattle.tree_handles.specs.Inside.{holds, tree_at};
ghost use Rattle.tree_handles.specs.Standing.{Stands, forest};

use calc_terms::Kind;
use child_lists::ChildList;
use node_pool::{Id, Pool};
use tree_handles::{children, kind, rational};

/// How many terms an expanded tree has.
pub(crate) fn term_count(pool: &Pool, tree: Id) -> u16
    requires stands { Stands pool.now }
    requires expression { IsExpression tree (forest pool.now) }
    ensures { result ≡ count (terms_in (plain (tree_at tree (forest pool.now)))) }
{
    match kind(pool, tree) {
        Kind::Add => children(pool, tree),
        Kind::Num => { if rational(pool, tree).is_zero() { 0 } else { 1 } }
        _ => 1,
    }
}

/// The term of an expanded tree at a place, counted from 0, by the list of the tree's children.
pub(crate) fn term_id<const N: usize>(pool: &Pool, tree: Id, list: &ChildList<N>, at: u16) -> Id
    requires stands { Stands pool.now }
    requires expression { IsExpression tree (forest pool.now) }
    requires lists { Lists list.now tree (forest pool.now) }
    requires within { at < count (terms_in (plain (tree_at tree (forest pool.now)))) }
    ensures expression { IsExpression result (forest pool.now) }
    ensures inside { holds result (tree_at tree (forest pool.now)) ≡ true }
    ensures tree { plain (tree_at result (forest pool.now)) ≡ nth at (terms_in (plain (tree_at tree (forest pool.now)))) }
{
    match kind(pool, tree) {
        Kind::Add => list.child(pool, tree, at),
        _ => tree,
    }
}
