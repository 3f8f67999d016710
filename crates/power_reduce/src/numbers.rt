//! Whole powers of Numbers.
ghost use Rattle.std.specs.Prelude.{ℕ, List, ◌+◌, ◌≡◌, ◌<◌, ◌^◌, ◌≤ℤ◌, ◌<ℤ◌, pos, nat_abs, IfOk, IfErr, OnOk, [], ◌∷◌, true, false};
ghost use Rattle.calc_terms.specs.Fractions.{whole_fraction, is_zero_fraction};
ghost use Rattle.calc_algebra.specs.Numbers.{is_number};
ghost use Rattle.calc_measures.specs.PlainValues.{plain_value, powered, exactly};
ghost use Rattle.calc_terms.specs.Rat.{value_of};
ghost use Rattle.calc_terms.specs.Trees.{num, is_num, size};
ghost use Rattle.number_forms.specs.Answers.{AnswersRationals};
ghost use Rattle.calc_room.specs.Needs.{power_need};
ghost use Rattle.calc_room.specs.Spans.{SpansTree};
ghost use Rattle.node_pool.specs.State.{free_of};
ghost use Rattle.tree_handles.specs.Lacking.{OfFull};
ghost use Rattle.number_forms.specs.Rooms.{LacksRoom};
ghost use Rattle.power_reduce.specs.Bits.{IsNumberPower};
ghost use Rattle.power_reduce.specs.PowerAnswers.{base_in, exponent_in, HasReducedSides, IsPowerAnswer};
ghost use Rattle.tree_handles.specs.Causes.{IsCaused, Overflows};
ghost use Rattle.calc_measures.specs.PlainTrees.{IsPlainOverflow};
ghost use Rattle.tree_handles.specs.Faults.{OfOverflow, Faults};
ghost use Rattle.power_reduce.specs.Misfits.{IsPowerMisfit};
ghost use Rattle.tree_handles.specs.Handed.{tree_of, IsHanded, Gives, KeepsFront};
ghost use Rattle.tree_handles.specs.Roots.{without_root};
ghost use Rattle.tree_handles.specs.Standing.{Stands, forest, KeepsRefusals};

use crate::sides::{base_id, take_base, with_number};
use calc_terms::Rat;
use node_pool::Pool;
use number_forms::{Inverse, classes, invert_number, power_number};
use rational128::{Overflow, invert, pow};
use tree_handles::{Handle, NumberFault, move_last, undefined};

/// A whole power of the rational q: of 0 it is Undef where the exponent is at most 0.
pub(crate) fn rational_power(
    pool: &mut Pool,
    power: Handle,
    q: Rat,
    n: i128,
) -> Result<Handle, NumberFault>
    requires stands { Stands pool.old }
    requires handed { IsHanded power (forest pool.old) }
    requires sides { HasReducedSides (tree_of power pool.old) }
    requires base { base_in (tree_of power pool.old) ≡ num (value_of q) }
    requires exponent { exponent_in (tree_of power pool.old) ≡ num (whole_fraction n) }
    requires fits { nat_abs n < 2 ^ 127 }
    ensures ok { IfOk result (λ h. Gives (without_root power (forest pool.old)) (forest pool.new) h (IsPowerAnswer (base_in (tree_of power pool.old)) (exponent_in (tree_of power pool.old)))) }
    ensures rationals { AnswersRationals (plain_value (tree_of power pool.old)) pool.new result }
    ensures overflow { IfErr result (OfOverflow (IsPowerMisfit (base_in (tree_of power pool.old)) (exponent_in (tree_of power pool.old)))) }
    ensures front { KeepsFront (power ∷ []) (forest pool.old) (forest pool.new) }
    ensures kept { OnOk result (KeepsRefusals pool.old pool.new) }
    ensures faults { IfErr result (Faults pool.old pool.new) }
    ensures caused { IfErr result (IsCaused pool.new) }
    ensures room { IfErr result (OfFull (λ full. ⊥)) }
    ensures held { IfOk result (λ h. IsNumberPower n (base_in (tree_of power pool.old)) (tree_of h pool.new)) }
    ensures stands { Stands pool.new }
{
    if q.num() == 0 && n <= 0 {
        return Ok(undefined(pool, power));
    }
    let value = power_of(q, n)?;
    Ok(with_number(pool, power, value))
}

/// The power of a rational, which is not 0 where n is at most 0.
#[tactic(auto, using(rational128::proofs::LowestTerms::ratio_parts, crate::proofs::RationalPowers::not_above, crate::proofs::RationalPowers::zero_bits, crate::proofs::RationalPowers::powered_zero, coefficients::proofs::Steps::one_value, crate::proofs::RationalPowers::if_err, crate::proofs::RationalPowers::powered_above, crate::proofs::RationalPowers::unfit_power))]
fn power_of(q: Rat, n: i128) -> Result<Rat, Overflow>
    requires fits { nat_abs n < 2 ^ 127 }
    requires some { is_zero_fraction (value_of q) ≡ true → pos 1 ≤ℤ n }
    ensures value { IfOk result (λ r. powered (value_of q) n 1 ≡ exactly (value_of r)) }
    ensures named { IfErr result (IsPlainOverflow (powered (value_of q) n 1)) }
    ensures caused { IfErr result Overflows }
{
    if n == 0 {
        return Ok(Rat::whole(1));
    }
    if n > 0 {
        let power = pow(q, n)?;
        return Ok(power);
    }
    let power = pow(invert(q), -n)?;
    Ok(power)
}

/// A whole power of a Number that is no rational.
pub(crate) fn irrational_power(
    pool: &mut Pool,
    power: Handle,
    n: i128,
) -> Result<Handle, NumberFault>
    requires stands { Stands pool.old }
    requires handed { IsHanded power (forest pool.old) }
    requires sides { HasReducedSides (tree_of power pool.old) }
    requires base { is_num (base_in (tree_of power pool.old)) ≡ false }
    requires number { is_number (base_in (tree_of power pool.old)) ≡ true }
    requires exponent { exponent_in (tree_of power pool.old) ≡ num (whole_fraction n) }
    requires fits { nat_abs n < 2 ^ 127 }
    ensures ok { IfOk result (λ h. Gives (without_root power (forest pool.old)) (forest pool.new) h (IsPowerAnswer (base_in (tree_of power pool.old)) (exponent_in (tree_of power pool.old)))) }
    ensures overflow { IfErr result (OfOverflow (IsPowerMisfit (base_in (tree_of power pool.old)) (exponent_in (tree_of power pool.old)))) }
    ensures front { KeepsFront (power ∷ []) (forest pool.old) (forest pool.new) }
    ensures kept { OnOk result (KeepsRefusals pool.old pool.new) }
    ensures faults { IfErr result (Faults pool.old pool.new) }
    ensures caused { IfErr result (IsCaused pool.new) }
    ensures room { (gs : List ℕ) → SpansTree gs (base_in (tree_of power pool.old)) → IfErr result (LacksRoom power_need (free_of pool.old + size (tree_of power pool.old)) gs) }
    ensures held { IfOk result (λ h. IsNumberPower n (base_in (tree_of power pool.old)) (tree_of h pool.new)) }
    ensures stands { Stands pool.new }
{
    if n == 0 {
        return Ok(with_number(pool, power, Rat::whole(1)));
    }
    if n == 1 {
        return Ok(take_base(pool, power));
    }
    if n < 0 {
        return negative_power(pool, power, n);
    }
    let base = take_base(pool, power);
    power_number(pool, base, n)
}

/// A power of a Number that is no rational, with an exponent below 0: one of the inverse, where the Number has one
/// class or two.
#[tactic(auto, using(tree_handles::proofs::Given::represents_handed, crate::proofs::NumberPowers::wide_answer, crate::proofs::NumberPowers::irrational_power))]
fn negative_power(pool: &mut Pool, power: Handle, n: i128) -> Result<Handle, NumberFault>
    requires stands { Stands pool.old }
    requires handed { IsHanded power (forest pool.old) }
    requires sides { HasReducedSides (tree_of power pool.old) }
    requires base { is_num (base_in (tree_of power pool.old)) ≡ false }
    requires number { is_number (base_in (tree_of power pool.old)) ≡ true }
    requires exponent { exponent_in (tree_of power pool.old) ≡ num (whole_fraction n) }
    requires fits { nat_abs n < 2 ^ 127 }
    requires negative { n <ℤ pos 0 }
    ensures ok { IfOk result (λ h. Gives (without_root power (forest pool.old)) (forest pool.new) h (IsPowerAnswer (base_in (tree_of power pool.old)) (exponent_in (tree_of power pool.old)))) }
    ensures overflow { IfErr result (OfOverflow (IsPowerMisfit (base_in (tree_of power pool.old)) (exponent_in (tree_of power pool.old)))) }
    ensures front { KeepsFront (power ∷ []) (forest pool.old) (forest pool.new) }
    ensures kept { OnOk result (KeepsRefusals pool.old pool.new) }
    ensures faults { IfErr result (Faults pool.old pool.new) }
    ensures caused { IfErr result (IsCaused pool.new) }
    ensures room { (gs : List ℕ) → SpansTree gs (base_in (tree_of power pool.old)) → IfErr result (LacksRoom power_need (free_of pool.old + size (tree_of power pool.old)) gs) }
    ensures held { IfOk result (λ h. IsNumberPower n (base_in (tree_of power pool.old)) (tree_of h pool.new)) }
    ensures stands { Stands pool.new }
{
    if classes(pool, base_id(pool, &power)) > 2 {
        move_last(pool, &power);
        return Ok(power);
    }
    let base = take_base(pool, power);
    match invert_number(pool, base)? {
        Inverse::Value(inverse) => power_number(pool, inverse, -n),
        _ => unreachable!(),
    }
}
