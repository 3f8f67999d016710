//! Children are put in order by their keys.
ghost use Rattle.std.specs.Prelude.{◌≡◌, ◌<◌, ◌≤◌, ◌+◌, ◌^◌, All, IsPermutation, IsSorted, ℕ, length, slice_index_or, true};
ghost use Rattle.std.specs.List.{range_with_len};
ghost use Rattle.calc_terms.specs.Trees.{count};
ghost use Rattle.node_order.specs.Keys.{IsKey, key_tree};
ghost use Rattle.node_order.specs.Ranking.{place_cmp};
ghost use Rattle.node_order.specs.Sorting.{SortsChildren};
ghost use Rattle.tree_handles.specs.Expressions.{IsExpression, plain, plains, nth, children_of};
ghost use Rattle.tree_handles.specs.Forest.{arity, kids};
ghost use Rattle.tree_handles.specs.Handed.{IsHanded};
ghost use Rattle.tree_handles.specs.Inside.{tree_at, kids_of};
ghost use Rattle.tree_handles.specs.Roots.{has_root, root_tree};
ghost use Rattle.tree_handles.specs.Standing.{Stands, forest, KeepsRefusals};

use crate::arranging::{arrange, list_places};
use crate::keys::Key;
use crate::ranking::rank;
use node_pool::{Id, Pool};
use tree_handles::{Handle, child_ids, children};

/// So many children are listed in the smallest lists. A function pays at its entry for the size of its lists.
const FEW: usize = 8;

/// So many are listed in small lists.
const DOZENS: usize = 64;

/// So many are listed in lists of middle size.
const SEVERAL: usize = 1_024;

/// So many are listed in long lists. A pool of 32,768 bytes holds no more.
const THOUSANDS: usize = 2_048;

/// So many are listed in longer ones. No pool holds more.
const MANY: usize = 32_768;

/// No node has more children.
const ALL: usize = 65_535;

/// What trees are put in order by.
pub trait Keys {
    ghost use Rattle.std.specs.Prelude.{◌≡◌};
    ghost use Rattle.calc_terms.specs.Trees.{Tree};
    ghost use Rattle.node_order.specs.Keys.{IsKey, key_tree};
    ghost use Rattle.tree_handles.specs.Expressions.{IsExpression, plain};
    ghost use Rattle.tree_handles.specs.Inside.{tree_at};
    ghost use Rattle.tree_handles.specs.Standing.{Stands, forest};

    // The tree by which a tree is put in order.
    ghost key_of: { Tree → Tree };

    // The trees that can be put in order by it.
    ghost has_key: { Tree → Type 0 };

    /// The key of a tree.
    fn key(&self, pool: &Pool, id: Id) -> Key
        requires stands { Stands pool.now }
        requires tree { IsExpression id (forest pool.now) }
        requires keyed { has_key (plain (tree_at id (forest pool.now))) }
        ensures valid { IsKey result (forest pool.now) }
        ensures value { key_tree result (forest pool.now) ≡ key_of (plain (tree_at id (forest pool.now))) };
}

/// Puts a root's children from a place on in order, by their keys; of two children with one key the first stays first. Nothing
/// is done for one child.
pub fn sort_children<K: Keys>(pool: &mut Pool, parent: &Handle, from: u16, keys: &K)
    requires stands { Stands pool.old }
    requires handed { IsHanded parent.now (forest pool.old) }
    requires within { from ≤ arity (kids (root_tree parent.now (forest pool.old))) }
    requires keyed { let ts = plains (kids (root_tree parent.now (forest pool.old))) in (n : ℕ) → from ≤ n → n < count ts → K.has_key (nth n ts) }
    ensures sorts { SortsChildren parent.now from K.key_of (forest pool.old) (forest pool.new) }
    ensures kept { KeepsRefusals pool.old pool.new }
    ensures stands { Stands pool.new }
{
    let len = children_from(pool, parent, from);
    if len <= 1 {
        return;
    }
    if len <= FEW {
        sort_up_to::<K, FEW>(pool, parent, from, keys);
    } else if len <= DOZENS {
        sort_up_to::<K, DOZENS>(pool, parent, from, keys);
    } else if len <= SEVERAL {
        sort_up_to::<K, SEVERAL>(pool, parent, from, keys);
    } else if len <= THOUSANDS {
        sort_up_to::<K, THOUSANDS>(pool, parent, from, keys);
    } else if len <= MANY {
        sort_up_to::<K, MANY>(pool, parent, from, keys);
    } else {
        sort_up_to::<K, ALL>(pool, parent, from, keys);
    }
}

/// The same with lists that have room for so many children.
#[inline(never)]
fn sort_up_to<K: Keys, const N: usize>(pool: &mut Pool, parent: &Handle, from: u16, keys: &K)
    requires stands { Stands pool.old }
    requires handed { IsHanded parent.now (forest pool.old) }
    requires within { from ≤ arity (kids (root_tree parent.now (forest pool.old))) }
    requires few { N < 2 ^ 16 }
    requires room { arity (kids (root_tree parent.now (forest pool.old))) ≤ from + N }
    requires keyed { let ts = plains (kids (root_tree parent.now (forest pool.old))) in (n : ℕ) → from ≤ n → n < count ts → K.has_key (nth n ts) }
    ensures sorts { SortsChildren parent.now from K.key_of (forest pool.old) (forest pool.new) }
    ensures kept { KeepsRefusals pool.old pool.new }
    ensures stands { Stands pool.new }
{
    let len = children_from(pool, parent, from);
    let mut listed = [Key::default(); N];
    let mut order = [0u16; N];
    let order = &mut order[..len];
    let mut ids = [Id::default(); N];
    let mut current = [0u16; N];
    let mut whereabouts = [0u16; N];
    rank_children(pool, parent.id(), from, keys, &mut listed[..len], order);
    arrange(
        pool,
        parent,
        from,
        order,
        &mut ids[..len],
        &mut current[..len],
        &mut whereabouts[..len],
    );
}

/// How many children a root has from a place on.
#[tactic(auto, using(tree_handles::proofs::Seen::live, crate::proofs::SortLaws::handle_kids))]
fn children_from(pool: &Pool, parent: &Handle, from: u16) -> usize
    requires stands { Stands pool.now }
    requires root { has_root parent.now (forest pool.now) ≡ true }
    requires within { from ≤ arity (kids (root_tree parent.now (forest pool.now))) }
    ensures all { from + result ≡ arity (kids (root_tree parent.now (forest pool.now))) }
    ensures few { from + result < 2 ^ 16 }
{
    usize::from(children(pool, parent.id()) - from)
}

/// The places of a node's children from a place on, in the order of their keys.
fn rank_children<K: Keys>(
    pool: &Pool,
    parent: Id,
    from: u16,
    keys: &K,
    listed: &mut [Key],
    order: &mut [u16],
)
    requires stands { Stands pool.now }
    requires parent { IsExpression parent (forest pool.now) }
    requires all { from + length listed.old ≡ arity (kids_of parent (forest pool.now)) }
    requires few { from + length listed.old < 2 ^ 16 }
    requires order { length order.old ≡ length listed.old }
    requires keyed { let ts = plains (kids_of parent (forest pool.now)) in (n : ℕ) → from ≤ n → n < count ts → K.has_key (nth n ts) }
    ensures places { IsPermutation (range_with_len 0 (length order.old)) order.new }
    ensures rising { IsSorted (place_cmp (λ i. K.key_of (nth (from + i) (plains (kids_of parent (forest pool.now)))))) order.new }
{
    if listed.is_empty() {
        return;
    }
    list_keys(pool, parent, from, keys, listed);
    list_places(order);
    rank(pool, listed, order);
}

/// Lists the keys of a node's children from a place on.
fn list_keys<K: Keys>(pool: &Pool, parent: Id, from: u16, keys: &K, listed: &mut [Key])
    requires stands { Stands pool.now }
    requires parent { IsExpression parent (forest pool.now) }
    requires all { from + length listed.old ≡ arity (kids_of parent (forest pool.now)) }
    requires few { from + length listed.old < 2 ^ 16 }
    requires keyed { let ts = plains (kids_of parent (forest pool.now)) in (n : ℕ) → from ≤ n → n < count ts → K.has_key (nth n ts) }
    ensures valid { All (λ k. IsKey k (forest pool.now)) listed.new }
    ensures trees { (n : ℕ) (d : Key) → n < length listed.new
        → key_tree (slice_index_or listed.new n d) (forest pool.now) ≡ K.key_of (nth (from + n) (plains (kids_of parent (forest pool.now)))) }
{
    for (at, id) in child_ids(pool, parent, from).enumerate() {
        listed[at] = keys.key(pool, id);
    }
}
