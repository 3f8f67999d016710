//! Factors are put in the order of their bases.
ghost use Rattle.std.specs.Prelude.{◌≡◌, ◌≤◌, true};
ghost use Rattle.calc_algebra.specs.Reduced.{are_reduced};
ghost use Rattle.calc_terms.specs.Trees.{count};
ghost use Rattle.product_reduce.specs.Products.{IsProduct, factors_in};
ghost use Rattle.product_reduce.specs.Sorting.{SortsFactors};
ghost use Rattle.tree_handles.specs.Standing.{Stands, forest, KeepsRefusals};

use crate::partners::{base, is_single};
use like_children::Likes;
use node_order::{Key, Keys, sort_children};
use node_pool::{Id, Pool};
use tree_handles::Handle;

/// Reduced factors are in the order of their bases, and alike by them where they are neither Numbers nor products.
pub struct Bases;

impl Keys for Bases {
    ghost use Rattle.std.specs.Prelude.{◌≡◌, true};
    ghost use Rattle.calc_algebra.specs.Reduced.{is_reduced, base_of};

    ghost key_of = { base_of };

    ghost has_key = { λ t. is_reduced t ≡ true };

    fn key(&self, pool: &Pool, id: Id) -> Key {
        Key {
            id: base(pool, id),
            behind: 0,
        }
    }
}

impl Likes for Bases {
    ghost use Rattle.std.specs.Prelude.{◌≡◌, true};
    ghost use Rattle.calc_algebra.specs.Reduced.{is_reduced, base_of};
    ghost use Rattle.product_reduce.specs.Neighbours.{is_single};

    ghost key_of = { base_of };

    ghost has_key = { is_single };

    ghost can_tell = { λ t. is_reduced t ≡ true };

    fn key_if_any(&self, pool: &Pool, id: Id) -> Option<Key> {
        if is_single(pool, id) {
            Some(self.key(pool, id))
        } else {
            None
        }
    }
}

/// Puts the factors of a product from a place on in the order of their bases.
#[tactic(auto, using(crate::proofs::Products::product_kids, crate::proofs::Finished::reduced_nth, crate::proofs::Products::product_arity))]
pub fn sort_factors(pool: &mut Pool, product: &Handle, from: u16)
    requires stands { Stands pool.old }
    requires product { IsProduct product.now (forest pool.old) (factors_in product.now (forest pool.old)) }
    requires reduced { are_reduced (factors_in product.now (forest pool.old)) ≡ true }
    requires within { from ≤ count (factors_in product.now (forest pool.old)) }
    ensures sorts { SortsFactors product.now from (forest pool.old) (forest pool.new) }
    ensures kept { KeepsRefusals pool.old pool.new }
    ensures stands { Stands pool.new }
{
    sort_children(pool, product, from, &Bases);
}
