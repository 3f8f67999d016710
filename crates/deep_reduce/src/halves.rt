//! Powers whose exponent is half of an odd whole number: powers of the root of the base.
ghost use Rattle.std.specs.Prelude.{ℕ, ℤ, List, length, ◌+◌, ◌^◌, ◌≤◌, ◌≡◌, None, IfOk, IfErr, [], ◌∷◌, true, false};
ghost use Rattle.calc_algebra.specs.Reduced.{is_half_num, is_reduced, is_whole_num};
ghost use Rattle.calc_terms.specs.Trees.{num, is_root, is_undef, has_undef, size, power as power_tree};
ghost use Rattle.calc_room.specs.Counts.{counted};
ghost use Rattle.calc_room.specs.Spans.{SpansTree};
ghost use Rattle.node_pool.specs.State.{free_of};
ghost use Rattle.calc_terms.specs.Fractions.{whole_fraction};
ghost use Rattle.tree_bits.specs.Rows.{AreFewBits};
ghost use Rattle.node_bounds.specs.Rooms.{SpansRootOf};
ghost use Rattle.number_forms.specs.Readers.{numerator};
ghost use Rattle.power_reduce.specs.Bits.{IsHeldAsPowerOf, HasFewBitsRaised};
ghost use Rattle.product_reduce.specs.Bits.{IsFactorHeld};
ghost use Rattle.tree_handles.specs.Lacking.{LacksBelow};
ghost use Rattle.tree_room.specs.Needs.{power_room};
ghost use Rattle.node_bounds.specs.Answers.{IsReducedPower};
ghost use Rattle.deep_reduce.specs.Halves.{IsRooted};
ghost use Rattle.power_reduce.specs.PowerAnswers.{base_in, exponent_in, IsPowerAnswer};
ghost use Rattle.power_reduce.specs.PowerSteps.{rewritten};
ghost use Rattle.power_reduce.specs.Rooms.{LacksStep};
ghost use Rattle.radical_forms.specs.RootAnswers.{argument_of};
ghost use Rattle.tree_handles.specs.Handed.{tree_of, IsHanded, Gives, KeepsFront};
ghost use Rattle.tree_handles.specs.Expressions.{children_of};
ghost use Rattle.tree_handles.specs.Faults.{OfOverflow};
ghost use Rattle.tree_handles.specs.Roots.{without_root};
ghost use Rattle.product_reduce.specs.Pools.{LeavesPool};
ghost use Rattle.tree_handles.specs.Standing.{Stands, forest};

use node_pool::Pool;
use number_forms::half;
use power_reduce::power_step;
use radical_forms::reduce_root;
use reduce_port::Step;
use tree_handles::{Handle, NumberFault, child_id, fill, move_last, open_child};

/// Whether the exponent of a power is half of an odd whole number.
#[tactic(auto, using(tree_handles::proofs::Seen::expression, crate::proofs::Children::exponent_at, crate::proofs::Children::handed_within, crate::proofs::Children::two_sides))]
pub(crate) fn has_half_exponent(pool: &Pool, power: &Handle) -> bool
    requires stands { Stands pool.now }
    requires handed { IsHanded power.now (forest pool.now) }
    requires power { let t = tree_of power.now pool.now in t ≡ power_tree (base_in t) (exponent_in t) }
    ensures { result ≡ is_half_num (exponent_in (tree_of power.now pool.now)) }
{
    let exponent = child_id(pool, power.id(), 1);
    match half(pool, exponent) {
        Some(_) => true,
        None => false,
    }
}

/// A power of reduced trees whose exponent is half of an odd whole number, as a reduced tree. After one step the root
/// of its base is reduced, and the next step is the last.
pub(crate) fn reduce_half_power(pool: &mut Pool, power: Handle) -> Result<Handle, NumberFault>
    requires stands { Stands pool.old }
    requires handed { IsHanded power (forest pool.old) }
    requires power { let t = tree_of power pool.old in t ≡ power_tree (base_in t) (exponent_in t) }
    requires base { is_reduced (base_in (tree_of power pool.old)) ≡ true }
    requires exponent { is_reduced (exponent_in (tree_of power pool.old)) ≡ true }
    requires half { is_half_num (exponent_in (tree_of power pool.old)) ≡ true }
    ensures ok { let t = tree_of power pool.old in
        IfOk result (λ h. Gives (without_root power (forest pool.old)) (forest pool.new) h
        (IsReducedPower (base_in t) (exponent_in t))) }
    ensures defined { IfErr result (OfOverflow (λ o. has_undef (children_of (tree_of power pool.old)) ≡ false)) }
    ensures front { KeepsFront (power ∷ []) (forest pool.old) (forest pool.new) }
    ensures room { (gs : List ℕ) → SpansRootOf gs (base_in (tree_of power pool.old))
        → IfErr result (LacksBelow (power_room (1 + counted (base_in (tree_of power pool.old))) (2 ^ length gs)) (free_of pool.old + size (tree_of power pool.old))) }
    ensures bits { (h l : ℕ) → (h ≡ 0 → l ≡ 0) → IsFactorHeld (base_in (tree_of power pool.old)) h l → AreFewBits h l → HasFewBitsRaised (numerator (exponent_in (tree_of power pool.old))) h l
        → IfErr result (OfOverflow (λ o. ⊥)) }
    ensures leaves { LeavesPool result pool.old pool.new }
{
    match power_step(pool, power)? {
        Step::Done(answer) => Ok(answer),
        Step::Again(tree) => {
            let rooted = reduce_base(pool, tree)?;
            last_step(pool, rooted)
        }
    }
}

/// The root under a power, reduced in its place.
#[tactic(auto, using(crate::proofs::Children::two_sides))]
fn reduce_base(pool: &mut Pool, power: Handle) -> Result<Handle, NumberFault>
    requires stands { Stands pool.old }
    requires handed { IsHanded power (forest pool.old) }
    requires power { let t = tree_of power pool.old in t ≡ power_tree (base_in t) (exponent_in t) }
    requires root { is_root (base_in (tree_of power pool.old)) ≡ true }
    requires reduced { is_reduced (argument_of (base_in (tree_of power pool.old))) ≡ true }
    ensures ok { IfOk result (λ h. Gives (without_root power (forest pool.old)) (forest pool.new) h (IsRooted (tree_of power pool.old))) }
    ensures front { KeepsFront (power ∷ []) (forest pool.old) (forest pool.new) }
    ensures room { IfErr result (LacksBelow (96 + size (tree_of power pool.old)) (free_of pool.old + size (tree_of power pool.old))) }
    ensures bits { (h l : ℕ) → IsFactorHeld (argument_of (base_in (tree_of power pool.old))) h l → AreFewBits h l → IfErr result (OfOverflow (λ o. ⊥)) }
    ensures leaves { LeavesPool result pool.old pool.new }
{
    let (hole, root) = open_child(pool, &power, 0);
    let reduced = reduce_root(pool, root)?;
    fill(pool, hole, reduced);
    move_last(pool, &power);
    Ok(power)
}

/// A step on a power that no rule rewrites.
#[tactic(auto, using(crate::proofs::Arms::is_done, tree_handles::proofs::Given::given_told, crate::proofs::Arms::is_again, calc_terms::proofs::SmallLaws::passed_on, node_bounds::proofs::HeldRoots::last_fits))]
fn last_step(pool: &mut Pool, power: Handle) -> Result<Handle, NumberFault>
    requires stands { Stands pool.old }
    requires handed { IsHanded power (forest pool.old) }
    requires power { let t = tree_of power pool.old in t ≡ power_tree (base_in t) (exponent_in t) }
    requires base { is_reduced (base_in (tree_of power pool.old)) ≡ true }
    requires exponent { is_reduced (exponent_in (tree_of power pool.old)) ≡ true }
    requires last { rewritten (base_in (tree_of power pool.old)) (exponent_in (tree_of power pool.old)) ≡ None }
    ensures ok { let t = tree_of power pool.old in
        IfOk result (λ h. Gives (without_root power (forest pool.old)) (forest pool.new) h
        (IsPowerAnswer (base_in t) (exponent_in t))) }
    ensures front { KeepsFront (power ∷ []) (forest pool.old) (forest pool.new) }
    ensures room { (gs : List ℕ) → SpansTree gs (tree_of power pool.old) → is_whole_num (exponent_in (tree_of power pool.old)) ≡ true
        → IfErr result (LacksStep gs (tree_of power pool.old) (free_of pool.old)) }
    ensures held { (n : ℤ) → exponent_in (tree_of power pool.old) ≡ num (whole_fraction n) → IfOk result (λ h. IsHeldAsPowerOf n (base_in (tree_of power pool.old)) (tree_of h pool.new)) }
    ensures bits { (n : ℤ) (h l : ℕ) → exponent_in (tree_of power pool.old) ≡ num (whole_fraction n) → (is_undef (base_in (tree_of power pool.old)) ≡ false → IsFactorHeld (base_in (tree_of power pool.old)) h l) → HasFewBitsRaised n h l
        → IfErr result (OfOverflow (λ o. ⊥)) }
    ensures leaves { LeavesPool result pool.old pool.new }
{
    match power_step(pool, power)? {
        Step::Done(answer) => Ok(answer),
        Step::Again(_) => unreachable!(),
    }
}
