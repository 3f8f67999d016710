//! Rational roots by trial.
ghost use Rattle.std.specs.Prelude.{◌≡◌, ◌≢◌, ◌<◌, ◌≤◌, ◌+◌, ◌^◌, ℕ, suc, pos, nat_abs, length, slice_index_or, IfErr, OnOk, false};
ghost use Rattle.calc_terms.specs.Fractions.{Fraction, lowest, zero_fraction};
ghost use Rattle.equation_roots.specs.Coefficients.{value};
ghost use Rattle.equation_roots.specs.Rationals.{rationals_of};
ghost use Rattle.equation_roots.specs.Refusals.{Overflows};
ghost use Rattle.equation_roots.specs.Sizes.{mass_of};
ghost use Rattle.equation_roots.specs.Told.{wholes_of};
ghost use Rattle.equation_roots.specs.Wholes.{Divides, IsCandidate, Marks, fractions};

use crate::division::divided;
use crate::operations::{opposite, whole};
use crate::rationals::Rationals;
use crate::wholes::Wholes;
use arrayvec::ArrayVec;
use calc_terms::Rat;
use rational128::{Overflow, gcd};

/// Numerators and denominators up to this one are tried.
const TRIAL_LIMIT: usize = 1_000;

/// Divides by X while the constant is 0.
pub(crate) fn divide_out_zeros(found: &mut Rationals, left: &mut Wholes)
    requires some { 1 ≤ length (wholes_of left.old) }
    requires room { length (rationals_of found.old) + length (wholes_of left.old) ≤ 33 }
    ensures divides { Divides (rationals_of found.old) (wholes_of left.old) (rationals_of found.new) (wholes_of left.new) }
    ensures lighter { mass_of (wholes_of left.new) ≤ mass_of (wholes_of left.old) }
    ensures no_zero { 2 ≤ length (wholes_of left.new) → value (fractions (wholes_of left.new)) zero_fraction ≢ zero_fraction }
{
    'zeros: while 1 < left.len() && left.get(0) == 0 {
        *left = left.without_constant();
        found.insert(Rat::whole(0));
    }
}

/// Divides by the rational roots of small numerators and denominators, while the degree is above 2.
pub(crate) fn divide_out_small(found: &mut Rationals, left: &mut Wholes) -> Result<(), Overflow>
    requires some { 4 ≤ length (wholes_of left.old) }
    requires room { length (rationals_of found.old) + length (wholes_of left.old) ≤ 33 }
    requires no_zero { value (fractions (wholes_of left.old)) zero_fraction ≢ zero_fraction }
    ensures divides { OnOk result (Divides (rationals_of found.old) (wholes_of left.old) (rationals_of found.new) (wholes_of left.new)) }
    ensures none { OnOk result (4 ≤ length (wholes_of left.new) → (r : Fraction) → nat_abs r.num ≤ 1000 → r.den ≤ 1000
        → value (fractions (wholes_of left.new)) r ≢ zero_fraction) }
    ensures overflow { IfErr result Overflows }
{
    let divisors = small_divisors(left.get(0));
    for step in 0..TRIAL_LIMIT {
        try_denominator(found, left, step as u128 + 1, divisors.as_slice())?;
    }
    Ok(())
}

/// Which numbers from 1 to the limit divide n.
fn small_divisors(n: i128) -> ArrayVec<bool, TRIAL_LIMIT>
    requires { nat_abs n < 2 ^ 127 }
    ensures { Marks result.items (nat_abs n) }
{
    let magnitude = n.unsigned_abs();
    let mut divisors = ArrayVec::new();
    for step in 0..TRIAL_LIMIT {
        divisors.push(magnitude % (step as u128 + 1) == 0);
    }
    divisors
}

/// Divides by the roots of one denominator.
fn try_denominator(
    found: &mut Rationals,
    left: &mut Wholes,
    v: u128,
    divisors: &[bool],
) -> Result<(), Overflow>
    requires room { length (rationals_of found.old) + length (wholes_of left.old) ≤ 33 }
    requires positive { 1 ≤ v }
    requires small { v ≤ 1000 }
    requires long { length divisors.now ≡ 1000 }
    requires marked { (r : Fraction) (n : ℕ) → n < 1000 → nat_abs r.num ≡ suc n → slice_index_or divisors.now n false ≡ false
        → value (fractions (wholes_of left.old)) r ≢ zero_fraction }
    requires no_zero { value (fractions (wholes_of left.old)) zero_fraction ≢ zero_fraction }
    ensures divides { OnOk result (Divides (rationals_of found.old) (wholes_of left.old) (rationals_of found.new) (wholes_of left.new)) }
    ensures none { OnOk result (4 ≤ length (wholes_of left.new) → (r : Fraction) → r.den ≡ v → nat_abs r.num ≤ 1000
        → value (fractions (wholes_of left.new)) r ≢ zero_fraction) }
    ensures overflow { IfErr result Overflows }
{
    if left.len() <= 3 || left.leading().unsigned_abs() % v != 0 {
        return Ok(());
    }
    for at in 0..TRIAL_LIMIT {
        try_signs(found, left, at as u128 + 1, v, divisors[at])?;
    }
    Ok(())
}

/// Divides by u/v and -u/v, where u is marked and shares nothing with v.
fn try_signs(
    found: &mut Rationals,
    left: &mut Wholes,
    u: u128,
    v: u128,
    marked: bool,
) -> Result<(), Overflow>
    requires room { length (rationals_of found.old) + length (wholes_of left.old) ≤ 33 }
    requires numerator { (1 ≤ u) × (u ≤ 1000) }
    requires denominator { (1 ≤ v) × (v ≤ 1000) }
    requires marked { marked ≡ false → (r : Fraction) → nat_abs r.num ≡ u → value (fractions (wholes_of left.old)) r ≢ zero_fraction }
    ensures divides { OnOk result (Divides (rationals_of found.old) (wholes_of left.old) (rationals_of found.new) (wholes_of left.new)) }
    ensures none { OnOk result (4 ≤ length (wholes_of left.new) → (r : Fraction) → r.den ≡ v → nat_abs r.num ≡ u
        → value (fractions (wholes_of left.new)) r ≢ zero_fraction) }
    ensures overflow { IfErr result Overflows }
{
    if !marked || gcd(u, v) != 1 {
        return Ok(());
    }
    let numerator = whole(u);
    let denominator = whole(v);
    divide_out(found, left, numerator, denominator)?;
    divide_out(found, left, opposite(numerator), denominator)?;
    Ok(())
}

/// Divides by vX - u as often as it leaves no rest.
fn divide_out(found: &mut Rationals, left: &mut Wholes, u: i128, v: i128) -> Result<(), Overflow>
    requires room { length (rationals_of found.old) + length (wholes_of left.old) ≤ 33 }
    requires candidate { IsCandidate u v }
    ensures divides { OnOk result (Divides (rationals_of found.old) (wholes_of left.old) (rationals_of found.new) (wholes_of left.new)) }
    ensures none { OnOk result (4 ≤ length (wholes_of left.new) → value (fractions (wholes_of left.new)) (lowest u (nat_abs v)) ≢ zero_fraction) }
    ensures overflow { IfErr result Overflows }
{
    'divisions: while 3 < left.len() {
        let Some(quotient) = divided(left, u, v)? else {
            return Ok(());
        };
        *left = quotient;
        found.insert(Rat::ratio(u, v));
    }
    Ok(())
}
