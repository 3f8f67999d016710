//! Powers with whole exponents.
ghost use Rattle.std.specs.Prelude.{◌≡◌, ◌↔◌, ◌<◌, ◌≤◌, ◌^◌, IsErr, IfOk, IfErr, pos, ◌≤ℤ◌, nat_abs};
ghost use Rattle.std.specs.Int.{int_pow};
ghost use Rattle.std.specs.Option.{SomeIff};
ghost use Rattle.calc_terms.specs.Rat.{value_of, ratio_of};
ghost use Rattle.calc_terms.specs.Ratio.{whole};
ghost use Rattle.calc_terms.specs.Fractions.{whole_fraction};
ghost use Rattle.calc_terms.specs.Fits.{fraction_fits, fraction_power};
ghost use Rattle.rational128.specs.Refusals.{DoesNotFit, Answers};

use crate::fitting::product;
use crate::overflow::{Op, Overflow};
use crate::parts::{parts, rational};
use calc_terms::Rat;

/// The least power of 2 that does not fit, and so of each greater number.
const FIRST_UNFIT_EXPONENT: u128 = 127;

/// The power in lowest terms.
pub fn pow(a: Rat, n: i128) -> Result<Rat, Overflow>
    requires { pos 1 ≤ℤ n }
    ensures power { IfOk result (λ r. value_of r ≡ fraction_power (value_of a) (nat_abs n)) }
    ensures refused { IsErr result ↔ DoesNotFit Op.Pow (value_of a) (whole_fraction n) }
    ensures named { IfErr result (λ e. (e.op ≡ Op.Pow) × (e.a ≡ a) × (ratio_of e.b ≡ whole n)) }
{
    let b = Rat::whole(n);
    fitted_power(a, n.unsigned_abs()).ok_or(Overflow { op: Op::Pow, a, b })
}

fn fitted_power(a: Rat, exponent: u128) -> Option<Rat>
    requires { 1 ≤ exponent }
    ensures { Answers result (fraction_fits (fraction_power (value_of a) exponent)) (fraction_power (value_of a) exponent) }
{
    let (a_num, a_den) = parts(a);
    let num = signed_power(a_num, exponent)?;
    let den = whole_power(a_den, exponent)?;
    Some(rational(num, den))
}

/// base to the exponent, where it fits.
fn signed_power(base: i128, exponent: u128) -> Option<i128>
    requires { 1 ≤ exponent }
    ensures { SomeIff result (nat_abs base ^ exponent < 2 ^ 127) (int_pow base exponent) }
{
    let magnitude = whole_power(base.unsigned_abs(), exponent)? as i128;
    let negative = base < 0 && exponent % 2 == 1;
    Some(if negative { -magnitude } else { magnitude })
}

/// The same without a sign.
fn whole_power(base: u128, exponent: u128) -> Option<u128>
    requires { 1 ≤ exponent }
    ensures { SomeIff result (base ^ exponent < 2 ^ 127) (base ^ exponent) }
{
    if base <= 1 {
        Some(base)
    } else if FIRST_UNFIT_EXPONENT <= exponent {
        None
    } else {
        power_by_squares(base, exponent)
    }
}

/// The same in as many turns as the exponent has bits.
fn power_by_squares(base: u128, exponent: u128) -> Option<u128>
    requires positive { 1 ≤ base }
    requires once { 1 ≤ exponent }
    ensures { SomeIff result (base ^ exponent < 2 ^ 127) (base ^ exponent) }
{
    let mut power = 1;
    let mut square = base;
    let mut left = exponent;
    while 1 < left {
        if left % 2 == 1 {
            power = product(power, square)?;
        }
        square = product(square, square)?;
        left /= 2;
    }
    product(power, square)
}
