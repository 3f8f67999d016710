//! The exponent of a power, reduced in its place.
ghost use Rattle.std.specs.Prelude.{ℕ, List, length, ◌≡◌, ◌≤◌, ◌+◌, ◌^◌, IfOk, IfErr, [], ◌∷◌, true};
ghost use Rattle.calc_terms.specs.Trees.{add, count, size, power as power_tree};
ghost use Rattle.calc_room.specs.Spans.{SpansTree};
ghost use Rattle.node_bounds.specs.HandedOn.{IsSummed};
ghost use Rattle.node_pool.specs.State.{free_of};
ghost use Rattle.tree_handles.specs.Lacking.{LacksBelow};
ghost use Rattle.tree_room.specs.Handed.{sum_count};
ghost use Rattle.tree_room.specs.Needs.{sum_room};
ghost use Rattle.power_reduce.specs.PowerAnswers.{base_in, exponent_in};
ghost use Rattle.tree_bits.specs.Rows.{AreFewBits};
ghost use Rattle.tree_bits.specs.Children.{IsSumHeld, addends_of_each};
ghost use Rattle.calc_algebra.specs.Reduced.{are_reduced};
ghost use Rattle.tree_handles.specs.Handed.{tree_of, IsHanded, Gives, KeepsFront};
ghost use Rattle.tree_handles.specs.Expressions.{children_of};
ghost use Rattle.tree_handles.specs.Faults.{OfOverflow};
ghost use Rattle.tree_handles.specs.Roots.{without_root};
ghost use Rattle.product_reduce.specs.Pools.{LeavesPool};
ghost use Rattle.tree_handles.specs.Standing.{Stands, forest};

use node_pool::Pool;
use sum_reduce::reduce_sum;
use tree_handles::{Handle, NumberFault, fill, move_last, open_child};

/// The exponent of a power, a sum of reduced trees, is reduced.
#[tactic(auto, using(crate::proofs::Children::two_sides))]
pub(crate) fn sum_exponent(pool: &mut Pool, power: Handle) -> Result<Handle, NumberFault>
    requires stands { Stands pool.old }
    requires handed { IsHanded power (forest pool.old) }
    requires power { let t = tree_of power pool.old in t ≡ power_tree (base_in t) (add (children_of (exponent_in t))) }
    requires some { 1 ≤ count (children_of (exponent_in (tree_of power pool.old))) }
    requires reduced { are_reduced (children_of (exponent_in (tree_of power pool.old))) ≡ true }
    ensures ok { let t = tree_of power pool.old in
        IfOk result (λ h. Gives (without_root power (forest pool.old)) (forest pool.new) h
        (IsSummed (base_in t) (children_of (exponent_in t)))) }
    ensures front { KeepsFront (power ∷ []) (forest pool.old) (forest pool.new) }
    ensures room { (gs : List ℕ) → SpansTree gs (tree_of power pool.old)
        → let t = tree_of power pool.old in IfErr result (LacksBelow (8 + size (base_in t) + sum_room (sum_count (children_of (exponent_in t))) (2 ^ length gs)) (free_of pool.old + size t)) }
    ensures bits { (h l : ℕ) → IsSumHeld (addends_of_each (children_of (exponent_in (tree_of power pool.old)))) h l → AreFewBits h l → IfErr result (OfOverflow (λ o. ⊥)) }
    ensures leaves { LeavesPool result pool.old pool.new }
{
    let (hole, exponent) = open_child(pool, &power, 1);
    let sum = reduce_sum(pool, exponent)?;
    fill(pool, hole, sum);
    move_last(pool, &power);
    Ok(power)
}
