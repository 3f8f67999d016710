//! Neighbours among children that have one key.
ghost use Rattle.std.specs.Prelude.{◌≡◌, ◌≤◌, ◌<◌, ◌+◌, ◌^◌, ℕ, true, false, MatchOption, IfSome};
ghost use Rattle.calc_terms.specs.Trees.{count};
ghost use Rattle.like_children.specs.Keyed.{have_one_key};
ghost use Rattle.like_children.specs.Neighbours.{are_alike, IsPairAt, IsNextPair, NoPairBetween};
ghost use Rattle.node_order.specs.Keys.{IsKey};
ghost use Rattle.tree_handles.specs.Expressions.{nth, children_of};
ghost use Rattle.tree_handles.specs.Handed.{tree_of, IsHanded};
ghost use Rattle.tree_handles.specs.Standing.{Stands, forest};

use node_order::{Key, compare_keys};
use node_pool::{Id, Pool};
use std::cmp::Ordering;
use tree_handles::{Handle, child_ids, children};

/// By what trees are alike.
pub trait Likes {
    ghost use Rattle.std.specs.Prelude.{Bool};
    ghost use Rattle.calc_terms.specs.Trees.{Tree};
    ghost use Rattle.like_children.specs.Keyed.{IsKeyOf};
    ghost use Rattle.tree_handles.specs.Expressions.{IsExpression, plain};
    ghost use Rattle.tree_handles.specs.Inside.{tree_at};
    ghost use Rattle.tree_handles.specs.Standing.{Stands, forest};

    // The key of a tree: two trees with one key are alike.
    ghost key_of: { Tree → Tree };

    // Whether a tree has a key. One that has none is like no other.
    ghost has_key: { Tree → Bool };

    // The trees of which that can be told.
    ghost can_tell: { Tree → Type 0 };

    /// The key of a tree, if it has one.
    fn key_if_any(&self, pool: &Pool, id: Id) -> Option<Key>
        requires stands { Stands pool.now }
        requires tree { IsExpression id (forest pool.now) }
        requires told { can_tell (plain (tree_at id (forest pool.now))) }
        ensures { IsKeyOf has_key key_of (plain (tree_at id (forest pool.now))) (forest pool.now) result };
}

/// Whether there are two keys, of one tree.
fn have_one_key(pool: &Pool, left: Option<Key>, right: Option<Key>) -> bool
    requires stands { Stands pool.now }
    requires first { IfSome left (λ k. IsKey k (forest pool.now)) }
    requires second { IfSome right (λ k. IsKey k (forest pool.now)) }
    ensures { result ≡ have_one_key (forest pool.now) left right }
{
    match (left, right) {
        (Some(left), Some(right)) => matches!(compare_keys(pool, left, right), Ordering::Equal),
        _ => false,
    }
}

/// The first child of a root from a place on that is like the next one.
pub fn next_pair<L: Likes>(pool: &Pool, parent: &Handle, from: u16, likes: &L) -> Option<u16>
    requires stands { Stands pool.now }
    requires handed { IsHanded parent.now (forest pool.now) }
    requires within { from ≤ count (children_of (tree_of parent.now pool.now)) }
    requires told { let ts = children_of (tree_of parent.now pool.now) in (n : ℕ) → n < count ts → L.can_tell (nth n ts) }
    ensures pair { let ts = children_of (tree_of parent.now pool.now) in
        MatchOption result (NoPairBetween (are_alike L.has_key L.key_of) from (count ts) ts) (λ at. IsNextPair (are_alike L.has_key L.key_of) from at ts) }
    ensures fits { IfSome result (λ at. at + 1 < 2 ^ 16) }
{
    let mut ids = child_ids(pool, parent.id(), from);
    let mut left = likes.key_if_any(pool, ids.next()?);
    for at in from..children(pool, parent.id()) - 1 {
        let right = likes.key_if_any(pool, ids.next()?);
        if have_one_key(pool, left, right) {
            return Some(at);
        }
        left = right;
    }
    None
}

/// Whether the child of a root at a place is like the next one.
pub fn is_pair<L: Likes>(pool: &Pool, parent: &Handle, at: u16, likes: &L) -> bool
    requires stands { Stands pool.now }
    requires handed { IsHanded parent.now (forest pool.now) }
    requires told { let ts = children_of (tree_of parent.now pool.now) in (n : ℕ) → n < count ts → L.can_tell (nth n ts) }
    requires within { at < count (children_of (tree_of parent.now pool.now)) }
    ensures pair { result ≡ true → IsPairAt (are_alike L.has_key L.key_of) at (children_of (tree_of parent.now pool.now)) }
    ensures each { IsPairAt (are_alike L.has_key L.key_of) at (children_of (tree_of parent.now pool.now)) → result ≡ true }
    ensures fits { result ≡ true → at + 1 < 2 ^ 16 }
{
    if at == children(pool, parent.id()) - 1 {
        return false;
    }
    let mut ids = child_ids(pool, parent.id(), at);
    let (Some(left), Some(right)) = (ids.next(), ids.next()) else {
        return false;
    };
    let left = likes.key_if_any(pool, left);
    let right = likes.key_if_any(pool, right);
    have_one_key(pool, left, right)
}
