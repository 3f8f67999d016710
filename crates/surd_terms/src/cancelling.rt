//! Products of two rationals and a whole number.
ghost use Rattle.std.specs.Prelude.{◌≡◌, pos, ◌<◌, ◌≤◌, ◌^◌, IfOk, IfErr, nat_abs};
ghost use Rattle.std.specs.Int.{◌∣◌, IsGcd};
ghost use Rattle.calc_terms.specs.Fractions.{times, whole_fraction};
ghost use Rattle.calc_terms.specs.Rat.{value_of};
ghost use Rattle.rational128.specs.Refusals.{DoesNotFit};
ghost use Rattle.surd_terms.specs.Calculations.{misfit_of, IsCancelledMisfit};

use crate::whole::whole;
use calc_terms::Rat;
use rational128::{Overflow, gcd, mul};

/// c * d * n. What n shares with the denominators is divided out first.
pub(crate) fn scaled_product(c: Rat, d: Rat, n: u128) -> Result<Rat, Overflow>
    requires positive { 1 ≤ n }
    requires fits { n < 2 ^ 127 }
    ensures product { IfOk result (λ q. value_of q ≡ times (times (value_of c) (value_of d)) (whole_fraction (pos n))) }
    ensures overflow { IsCancelledMisfit (value_of c) (value_of d) n (misfit_of result) }
    ensures caused { IfErr result (λ e. DoesNotFit e.op (value_of e.a) (value_of e.b)) }
{
    let first = gcd(n, denominator(c));
    let left = n / first;
    let second = gcd(left, denominator(d));
    let product = mul(multiple(c, first), multiple(d, second))?;
    mul(product, whole(left / second))
}

/// c * n, where n divides the denominator.
fn multiple(c: Rat, n: u128) -> Rat
    requires positive { 1 ≤ n }
    requires divides { n ∣ (value_of c).den }
    ensures { value_of result ≡ times (value_of c) (whole_fraction (pos n)) }
{
    rational(c.num(), denominator(c) / n)
}

/// The denominator.
fn denominator(c: Rat) -> u128
    ensures value { result ≡ (value_of c).den }
    ensures fits { result < 2 ^ 127 }
{
    c.den().unsigned_abs()
}

/// num/den, which are in lowest terms.
fn rational(num: i128, den: u128) -> Rat
    requires in_lowest_terms { IsGcd (nat_abs num) den 1 }
    requires num_fits { nat_abs num < 2 ^ 127 }
    requires positive { 0 < den }
    requires den_fits { den < 2 ^ 127 }
    ensures num { (value_of result).num ≡ num }
    ensures den { (value_of result).den ≡ den }
{
    Rat::lowest(num, den as i128)
}
