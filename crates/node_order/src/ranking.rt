//! The order in which keys rise.
ghost use Rattle.std.specs.Prelude.{◌≡◌, ◌<◌, ◌≤◌, ◌^◌, All, IsPermutation, length, IsSorted};
ghost use Rattle.node_order.specs.Keys.{IsKey, key_tree};
ghost use Rattle.node_order.specs.Ranking.{key_at, place_cmp, ranked_tree};
ghost use Rattle.tree_handles.specs.Standing.{Stands, forest};

use crate::keys::{Key, compare_keys};
use node_pool::Pool;
use std::cmp::Ordering;

/// Puts the places of keys in the order in which their trees rise; of two places of one tree the first comes first.
pub fn rank(pool: &Pool, keys: &[Key], order: &mut [u16])
    requires stands { Stands pool.now }
    requires some { 0 < length keys.now }
    requires keys { All (λ k. IsKey k (forest pool.now)) keys.now }
    ensures moved { IsPermutation order.old order.new }
    ensures rising { IsSorted (place_cmp (ranked_tree keys.now (forest pool.now))) order.new }
{
    order.sort_unstable_by(
        |i: &u16, j: &u16| -> Ordering
            requires stands { Stands pool.now }
            requires some { 0 < length keys.now }
            requires keys { All (λ k. IsKey k (forest pool.now)) keys.now }
            ensures { result ≡ place_cmp (ranked_tree keys.entry.now (forest pool.entry.now)) i.now j.now }
        { compare_keys(pool, key_at(keys, *i), key_at(keys, *j)).then(i.cmp(j)) },
    );
}

/// The key at a place, the last key for a place behind it.
fn key_at(keys: &[Key], at: u16) -> Key
    requires { 0 < length keys.now }
    ensures { result ≡ key_at keys.now at }
{
    keys[usize::from(at).min(keys.len() - 1)]
}
