//! Terms with identical parts.
use calc_terms::Kind;
use coefficients::coefficient_length;
use like_children::Likes;
use node_order::{Key, Keys};
use node_pool::{Id, Pool};
use number_forms::is_reduced_number;
use tree_handles::kind;

/// Reduced terms that are no Numbers are in the order of their parts, and alike by them.
pub struct Parts;

impl Keys for Parts {
    ghost use Rattle.std.specs.Prelude.{◌≡◌, true, false};
    ghost use Rattle.calc_algebra.specs.Numbers.{is_number};
    ghost use Rattle.calc_algebra.specs.Reduced.{is_reduced, part_of};

    ghost key_of = { part_of };

    ghost has_key = { λ t. (is_reduced t ≡ true) × (is_number t ≡ false) };

    #[tactic(auto, using(crate::proofs::Parts::product_key, tree_handles::proofs::Seen::product_kind))]
    fn key(&self, pool: &Pool, id: Id) -> Key {
        match kind(pool, id) {
            Kind::Mult => Key {
                id,
                behind: coefficient_length(pool, id),
            },
            _ => Key { id, behind: 0 },
        }
    }
}

impl Likes for Parts {
    ghost use Rattle.std.specs.Prelude.{◌≡◌, true};
    ghost use Rattle.calc_algebra.specs.Reduced.{is_reduced, part_of};
    ghost use Rattle.sum_reduce.specs.Terms.{has_part};

    ghost key_of = { part_of };

    ghost has_key = { has_part };

    ghost can_tell = { λ t. is_reduced t ≡ true };

    fn key_if_any(&self, pool: &Pool, id: Id) -> Option<Key> {
        if is_reduced_number(pool, id) {
            None
        } else {
            Some(self.key(pool, id))
        }
    }
}
