//! One step on a power of reduced trees, by the kinds of its base and its exponent.
ghost use Rattle.std.specs.Prelude.{ℕ, ℤ, List, ◌≡◌, ◌≤◌, ◌<◌, ◌^◌, ◌&&◌, nat_abs, None, IfOk, IfErr, IsOk, OnOk, [], ◌∷◌, true, false};
ghost use Rattle.calc_terms.specs.Fractions.{whole_fraction};
ghost use Rattle.calc_algebra.specs.Numbers.{is_number};
ghost use Rattle.calc_measures.specs.PlainValues.{plain_value};
ghost use Rattle.calc_room.specs.Counts.{counted};
ghost use Rattle.calc_room.specs.Spans.{SpansTree};
ghost use Rattle.calc_algebra.specs.Reduced.{is_reduced, is_half_num, is_whole_num};
ghost use Rattle.calc_terms.specs.Trees.{num, is_num, is_mult, is_root, is_undef};
ghost use Rattle.power_reduce.specs.Bits.{IsFactorHeld, IsHeldAsPowerOf, IsNumberPower, HasFewBitsRaised};
ghost use Rattle.power_reduce.specs.PowerAnswers.{is_power, base_in, exponent_in, HasReducedSides, IsStep};
ghost use Rattle.power_reduce.specs.PowerSteps.{goes_inside, is_zero_or_one, rewritten};
ghost use Rattle.power_reduce.specs.Rooms.{LacksStep, LacksRoot, SpansStep};
ghost use Rattle.node_pool.specs.State.{free_of};
ghost use Rattle.tree_handles.specs.Causes.{IsCaused};
ghost use Rattle.tree_handles.specs.Handed.{tree_of, IsHanded, KeepsFront};
ghost use Rattle.tree_handles.specs.Faults.{OfOverflow, Faults};
ghost use Rattle.power_reduce.specs.Misfits.{IsPowerMisfit};
ghost use Rattle.reduce_port.specs.Steps.{AnswersRationalStep, IfAgain, IfDone};
ghost use Rattle.tree_handles.specs.Expressions.{IsExpression, plain};
ghost use Rattle.tree_handles.specs.Inside.{tree_at};
ghost use Rattle.tree_handles.specs.Roots.{without_root};
ghost use Rattle.tree_handles.specs.Standing.{Stands, forest, KeepsRefusals};

use crate::numbers::{irrational_power, rational_power};
use crate::rewriting::{halve_root, join_exponents, raise_factors, root_base};
use crate::sides::{base_id, exponent_id, first_exponent_is_opaque, take_base, with_number};
use calc_terms::{Kind, Rat};
use node_pool::{Id, Pool};
use number_forms::{half, is_reduced_number, whole};
use reduce_port::Step;
use tree_handles::{Handle, NumberFault, is_undefined, kind, move_last, rational, undefined};

/// One step on a power of reduced trees: a reduced tree, or one rewriting, whose new root, powers and product are
/// not reduced yet.
pub fn power_step(pool: &mut Pool, power: Handle) -> Result<Step, NumberFault>
    requires stands { Stands pool.old }
    requires handed { IsHanded power (forest pool.old) }
    requires power { is_power (tree_of power pool.old) ≡ true }
    requires base { is_reduced (base_in (tree_of power pool.old)) ≡ true }
    requires exponent { is_reduced (exponent_in (tree_of power pool.old)) ≡ true }
    ensures ok { IfOk result (IsStep (tree_of power pool.old) (without_root power (forest pool.old)) pool.new) }
    ensures rationals { is_num (base_in (tree_of power pool.old)) ≡ true → is_num (exponent_in (tree_of power pool.old)) ≡ true
        → is_half_num (exponent_in (tree_of power pool.old)) ≡ false → AnswersRationalStep (plain_value (tree_of power pool.old)) pool.new result }
    ensures overflow { IfErr result (OfOverflow (IsPowerMisfit (base_in (tree_of power pool.old)) (exponent_in (tree_of power pool.old)))) }
    ensures front { KeepsFront (power ∷ []) (forest pool.old) (forest pool.new) }
    ensures kept { OnOk result (KeepsRefusals pool.old pool.new) }
    ensures faults { IfErr result (Faults pool.old pool.new) }
    ensures caused { IfErr result (IsCaused pool.new) }

    // For a whole power bytes are lacking only where fewer are at hand than the step needs, and for half of an odd number only where
    // fewer are than the power of the root has. Any other power is answered.
    ensures room { (gs : List ℕ) → SpansTree gs (tree_of power pool.old) → is_whole_num (exponent_in (tree_of power pool.old)) ≡ true
        → IfErr result (LacksStep gs (tree_of power pool.old) (free_of pool.old)) }
    ensures root_room { is_half_num (exponent_in (tree_of power pool.old)) ≡ true → IfErr result (LacksRoot (tree_of power pool.old) (free_of pool.old)) }
    ensures others { is_whole_num (exponent_in (tree_of power pool.old)) ≡ false → is_half_num (exponent_in (tree_of power pool.old)) ≡ false → IsOk result }

    // A reduced tree counts no more than the power. What spans the power spans the tree, unless that has a new root.
    ensures counted { IfOk result (λ s. IfDone s (λ h. counted (tree_of h pool.new) ≤ counted (tree_of power pool.old))) }
    ensures spanned { (gs : List ℕ) → SpansTree gs (tree_of power pool.old) → is_half_num (exponent_in (tree_of power pool.old)) ≡ false
        → IfOk result (SpansStep gs pool.new) }

    // What holds the base holds a reduced tree for the power n by n times its bits, or by n times those of an inverse. Nothing
    // overflows where these are few.
    ensures held { (n : ℤ) → exponent_in (tree_of power pool.old) ≡ num (whole_fraction n)
        → IfOk result (λ s. IfDone s (λ h. IsHeldAsPowerOf n (base_in (tree_of power pool.old)) (tree_of h pool.new))) }
    ensures bits { (n : ℤ) → exponent_in (tree_of power pool.old) ≡ num (whole_fraction n) → (h l : ℕ) → IsFactorHeld (base_in (tree_of power pool.old)) h l
        → HasFewBitsRaised n h l → IfErr result (OfOverflow (λ o. ⊥)) }

    ensures stands { Stands pool.new }
{
    let exponent = exponent_id(pool, &power);
    if is_undefined(pool, base_id(pool, &power)) || is_undefined(pool, exponent) {
        return Ok(Step::Done(undefined(pool, power)));
    }
    match whole(pool, exponent) {
        Some(n) => whole_power(pool, power, n),
        None => other_power(pool, power),
    }
}

/// Whether a tree is a root.
fn is_root(pool: &Pool, id: Id) -> bool
    requires stands { Stands pool.now }
    requires expression { IsExpression id (forest pool.now) }
    ensures { result ≡ is_root (plain (tree_at id (forest pool.now))) }
{
    match kind(pool, id) {
        Kind::Root => true,
        _ => false,
    }
}

/// A whole power.
fn whole_power(pool: &mut Pool, power: Handle, n: i128) -> Result<Step, NumberFault>
    requires stands { Stands pool.old }
    requires handed { IsHanded power (forest pool.old) }
    requires sides { HasReducedSides (tree_of power pool.old) }
    requires exponent { exponent_in (tree_of power pool.old) ≡ num (whole_fraction n) }
    requires fits { nat_abs n < 2 ^ 127 }
    ensures ok { IfOk result (IsStep (tree_of power pool.old) (without_root power (forest pool.old)) pool.new) }
    ensures rationals { is_num (base_in (tree_of power pool.old)) ≡ true → is_num (exponent_in (tree_of power pool.old)) ≡ true
        → AnswersRationalStep (plain_value (tree_of power pool.old)) pool.new result }
    ensures overflow { IfErr result (OfOverflow (IsPowerMisfit (base_in (tree_of power pool.old)) (exponent_in (tree_of power pool.old)))) }
    ensures front { KeepsFront (power ∷ []) (forest pool.old) (forest pool.new) }
    ensures kept { OnOk result (KeepsRefusals pool.old pool.new) }
    ensures faults { IfErr result (Faults pool.old pool.new) }
    ensures caused { IfErr result (IsCaused pool.new) }
    ensures room { (gs : List ℕ) → SpansTree gs (tree_of power pool.old) → IfErr result (LacksStep gs (tree_of power pool.old) (free_of pool.old)) }
    ensures held { is_number (base_in (tree_of power pool.old)) ≡ true → IfOk result (λ s. IfDone s (λ h. IsNumberPower n (base_in (tree_of power pool.old)) (tree_of h pool.new))) }
    ensures stands { Stands pool.new }
{
    let base = base_id(pool, &power);
    match kind(pool, base) {
        Kind::Num => {
            let q = rational(pool, base);
            let answer = rational_power(pool, power, q, n)?;
            Ok(Step::Done(answer))
        }
        _ => whole_power_of_other(pool, power, n),
    }
}

/// A whole power of a tree that is no rational.
fn whole_power_of_other(pool: &mut Pool, power: Handle, n: i128) -> Result<Step, NumberFault>
    requires stands { Stands pool.old }
    requires handed { IsHanded power (forest pool.old) }
    requires sides { HasReducedSides (tree_of power pool.old) }
    requires base { is_num (base_in (tree_of power pool.old)) ≡ false }
    requires exponent { exponent_in (tree_of power pool.old) ≡ num (whole_fraction n) }
    requires fits { nat_abs n < 2 ^ 127 }
    ensures ok { IfOk result (IsStep (tree_of power pool.old) (without_root power (forest pool.old)) pool.new) }
    ensures overflow { IfErr result (OfOverflow (IsPowerMisfit (base_in (tree_of power pool.old)) (exponent_in (tree_of power pool.old)))) }
    ensures front { KeepsFront (power ∷ []) (forest pool.old) (forest pool.new) }
    ensures kept { OnOk result (KeepsRefusals pool.old pool.new) }
    ensures faults { IfErr result (Faults pool.old pool.new) }
    ensures caused { IfErr result (IsCaused pool.new) }
    ensures room { (gs : List ℕ) → SpansTree gs (tree_of power pool.old) → IfErr result (LacksStep gs (tree_of power pool.old) (free_of pool.old)) }
    ensures held { is_number (base_in (tree_of power pool.old)) ≡ true → IfOk result (λ s. IfDone s (λ h. IsNumberPower n (base_in (tree_of power pool.old)) (tree_of h pool.new))) }
    ensures stands { Stands pool.new }
{
    let base = base_id(pool, &power);
    if is_reduced_number(pool, base) {
        let answer = irrational_power(pool, power, n)?;
        return Ok(Step::Done(answer));
    }
    if n == 0 {
        return Ok(Step::Done(with_number(pool, power, Rat::whole(1))));
    }
    if n == 1 {
        return Ok(Step::Done(take_base(pool, power)));
    }
    if n % 2 == 0 && is_root(pool, base) {
        return Ok(Step::Again(halve_root(pool, power, n)));
    }
    power_inside(pool, power)
}

/// A power whose exponent is no whole number: with half of one it is a power of a root, and any other is kept.
fn other_power(pool: &mut Pool, power: Handle) -> Result<Step, NumberFault>
    requires stands { Stands pool.old }
    requires handed { IsHanded power (forest pool.old) }
    requires sides { HasReducedSides (tree_of power pool.old) }
    requires exponent { is_whole_num (exponent_in (tree_of power pool.old)) ≡ false }
    ensures ok { IfOk result (IsStep (tree_of power pool.old) (without_root power (forest pool.old)) pool.new) }
    ensures rationals { is_num (base_in (tree_of power pool.old)) ≡ true → is_num (exponent_in (tree_of power pool.old)) ≡ true
        → is_half_num (exponent_in (tree_of power pool.old)) ≡ false → AnswersRationalStep (plain_value (tree_of power pool.old)) pool.new result }
    ensures overflow { IfErr result (OfOverflow (λ _. ⊥)) }
    ensures front { KeepsFront (power ∷ []) (forest pool.old) (forest pool.new) }
    ensures kept { OnOk result (KeepsRefusals pool.old pool.new) }
    ensures faults { IfErr result (Faults pool.old pool.new) }
    ensures caused { IfErr result (IsCaused pool.new) }
    ensures root_room { is_half_num (exponent_in (tree_of power pool.old)) ≡ true → IfErr result (LacksRoot (tree_of power pool.old) (free_of pool.old)) }
    ensures others { is_half_num (exponent_in (tree_of power pool.old)) ≡ false → IsOk result }
    ensures stands { Stands pool.new }
{
    match half(pool, exponent_id(pool, &power)) {
        Some(n) => {
            let rooted = root_base(pool, power, n)?;
            Ok(Step::Again(rooted))
        }
        None => Ok(kept_power(pool, power)),
    }
}

/// A power whose exponent is a whole number other than 0 and 1. No even power of a root.
#[tactic(auto, using(crate::proofs::Cases::power_kind, tree_handles::proofs::Seen::product_kind, crate::proofs::Cases::inside_other))]
fn power_inside(pool: &mut Pool, power: Handle) -> Result<Step, NumberFault>
    requires stands { Stands pool.old }
    requires handed { IsHanded power (forest pool.old) }
    requires sides { HasReducedSides (tree_of power pool.old) }
    requires inside { goes_inside (exponent_in (tree_of power pool.old)) ≡ true }
    requires number { (is_number (base_in (tree_of power pool.old)) && is_whole_num (exponent_in (tree_of power pool.old))) ≡ false }
    requires root { is_root (base_in (tree_of power pool.old)) ≡ true → rewritten (base_in (tree_of power pool.old)) (exponent_in (tree_of power pool.old)) ≡ None }
    ensures ok { IfOk result (IsStep (tree_of power pool.old) (without_root power (forest pool.old)) pool.new) }
    ensures overflow { IfErr result (OfOverflow (λ _. ⊥)) }
    ensures front { KeepsFront (power ∷ []) (forest pool.old) (forest pool.new) }
    ensures kept { OnOk result (KeepsRefusals pool.old pool.new) }
    ensures faults { IfErr result (Faults pool.old pool.new) }
    ensures caused { IfErr result (IsCaused pool.new) }
    ensures room { (gs : List ℕ) → SpansTree gs (tree_of power pool.old) → IfErr result (LacksStep gs (tree_of power pool.old) (free_of pool.old)) }
    ensures stands { Stands pool.new }
{
    match kind(pool, base_id(pool, &power)) {
        Kind::Pow => power_of_power(pool, power),
        Kind::Mult => power_of_product(pool, power),
        _ => Ok(kept_power(pool, power)),
    }
}

/// A power of a power: the exponents are joined where the inner power is not opaque.
fn power_of_power(pool: &mut Pool, power: Handle) -> Result<Step, NumberFault>
    requires stands { Stands pool.old }
    requires handed { IsHanded power (forest pool.old) }
    requires sides { HasReducedSides (tree_of power pool.old) }
    requires inside { goes_inside (exponent_in (tree_of power pool.old)) ≡ true }
    requires number { (is_number (base_in (tree_of power pool.old)) && is_whole_num (exponent_in (tree_of power pool.old))) ≡ false }
    requires base { is_power (base_in (tree_of power pool.old)) ≡ true }
    ensures ok { IfOk result (IsStep (tree_of power pool.old) (without_root power (forest pool.old)) pool.new) }
    ensures overflow { IfErr result (OfOverflow (λ _. ⊥)) }
    ensures front { KeepsFront (power ∷ []) (forest pool.old) (forest pool.new) }
    ensures kept { OnOk result (KeepsRefusals pool.old pool.new) }
    ensures faults { IfErr result (Faults pool.old pool.new) }
    ensures caused { IfErr result (IsCaused pool.new) }
    ensures answered { IsOk result }
    ensures stands { Stands pool.new }
{
    if first_exponent_is_opaque(pool, &power) {
        return Ok(kept_power(pool, power));
    }
    Ok(Step::Again(join_exponents(pool, power)))
}

/// A power of a product: the product of the powers of its parts, where it is no Number.
fn power_of_product(pool: &mut Pool, power: Handle) -> Result<Step, NumberFault>
    requires stands { Stands pool.old }
    requires handed { IsHanded power (forest pool.old) }
    requires sides { HasReducedSides (tree_of power pool.old) }
    requires inside { goes_inside (exponent_in (tree_of power pool.old)) ≡ true }
    requires number { (is_number (base_in (tree_of power pool.old)) && is_whole_num (exponent_in (tree_of power pool.old))) ≡ false }
    requires base { is_mult (base_in (tree_of power pool.old)) ≡ true }
    ensures ok { IfOk result (IsStep (tree_of power pool.old) (without_root power (forest pool.old)) pool.new) }
    ensures overflow { IfErr result (OfOverflow (λ _. ⊥)) }
    ensures front { KeepsFront (power ∷ []) (forest pool.old) (forest pool.new) }
    ensures kept { OnOk result (KeepsRefusals pool.old pool.new) }
    ensures faults { IfErr result (Faults pool.old pool.new) }
    ensures caused { IfErr result (IsCaused pool.new) }
    ensures room { (gs : List ℕ) → SpansTree gs (tree_of power pool.old) → IfErr result (LacksStep gs (tree_of power pool.old) (free_of pool.old)) }
    ensures stands { Stands pool.new }
{
    if is_reduced_number(pool, base_id(pool, &power)) {
        return Ok(kept_power(pool, power));
    }
    let raised = raise_factors(pool, power)?;
    Ok(Step::Again(raised))
}

/// A reduced power that no rule rewrites is its own answer.
fn kept_power(pool: &mut Pool, power: Handle) -> Step
    requires stands { Stands pool.old }
    requires handed { IsHanded power (forest pool.old) }
    requires sides { HasReducedSides (tree_of power pool.old) }
    requires exponent { is_zero_or_one (exponent_in (tree_of power pool.old)) ≡ false }
    requires number { (is_number (base_in (tree_of power pool.old)) && is_whole_num (exponent_in (tree_of power pool.old))) ≡ false }
    requires kept { rewritten (base_in (tree_of power pool.old)) (exponent_in (tree_of power pool.old)) ≡ None }
    ensures step { IsStep (tree_of power pool.old) (without_root power (forest pool.old)) pool.new result }
    ensures done { IfAgain result (λ h. ⊥) }
    ensures front { KeepsFront (power ∷ []) (forest pool.old) (forest pool.new) }
    ensures kept { KeepsRefusals pool.old pool.new }
    ensures stands { Stands pool.new }
{
    move_last(pool, &power);
    Step::Done(power)
}
