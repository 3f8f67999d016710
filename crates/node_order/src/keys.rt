//! What trees are put in order by.
ghost use Rattle.std.specs.Prelude.{◌≡◌};
ghost use Rattle.calc_algebra.specs.TreeOrder.{tree_cmp};
ghost use Rattle.node_order.specs.Fronts.{Shows};
ghost use Rattle.node_order.specs.Keys.{IsKey, key_tree};
ghost use Rattle.tree_handles.specs.Standing.{Stands, forest};

use crate::comparing::compare_fronts;
use crate::fronts::Front;
use node_pool::{Id, Pool};
use std::cmp::Ordering;
use tree_handles::{Visit, nodes_below};

/// The tree of a node, or for a `behind` above 0 the product of a product's factors behind the first `behind`.
#[derive(Clone, Copy, Debug, Default, PartialEq, Eq)]
pub struct Key {
    pub id: Id,
    pub behind: u16,
}

/// The order of two keys, as trees; the product of one factor is that factor.
pub fn compare_keys(pool: &Pool, a: Key, b: Key) -> Ordering
    requires stands { Stands pool.now }
    requires first { IsKey a (forest pool.now) }
    requires second { IsKey b (forest pool.now) }
    ensures { result ≡ tree_cmp (key_tree a (forest pool.now)) (key_tree b (forest pool.now)) }
{
    let left = front_of(pool, a);
    let right = front_of(pool, b);
    compare_fronts(pool, left, right)
}

/// The front of a key's tree.
fn front_of<'a>(pool: &'a Pool, key: Key) -> Front<'a>
    requires stands { Stands pool.now }
    requires key { IsKey key (forest pool.now) }
    ensures { Shows result (key_tree key (forest pool.now)) (forest pool.now) }
{
    let whole = Front::of(pool, key.id);
    if key.behind == 0 {
        return whole;
    }
    let factors = nodes_below(pool, key.id, key.behind);
    let children = whole.root.children - key.behind;
    if children == 1 {
        return Front::first(factors);
    }
    let root = Visit {
        kind: whole.root.kind,
        id: whole.root.id,
        children,
    };
    Front {
        root,
        behind: factors,
    }
}
