//! Operations on whole numbers with their sign, refused as those on rationals.
ghost use Rattle.std.specs.Prelude.{◌≡◌, ◌≢◌, ◌<◌, ◌≤◌, ◌^◌, ℤ, pos, ◌+ℤ◌, ◌*ℤ◌, neg_ℤ, nat_abs, IsErr, IfOk, IfErr, IfSome, MatchOption};
ghost use Rattle.equation_roots.specs.Refusals.{Overflows};
ghost use Rattle.std.specs.Option.{SomeIff};
ghost use Rattle.calc_terms.specs.Fractions.{over, whole_fraction};
ghost use Rattle.calc_terms.specs.Integers.{int_is_negative};
ghost use Rattle.calc_terms.specs.Rat.{value_of};

use calc_terms::Rat;
use rational128::{Op, Overflow};

/// a * b
pub(crate) fn product(a: i128, b: i128) -> Result<i128, Overflow>
    requires first { nat_abs a < 2 ^ 127 }
    requires second { nat_abs b < 2 ^ 127 }
    ensures value { IfOk result (λ n. n ≡ a *ℤ b) }
    ensures fits { IfOk result (λ n. nat_abs n < 2 ^ 127) }
    ensures overflow { IfErr result Overflows }
    ensures beyond { IsErr result → 2 ^ 127 ≤ nat_abs (a *ℤ b) }
{
    match fitted_product(a, b) {
        Some(product) => Ok(product),
        None => Err(overflow(Op::Mul, a, b)),
    }
}

/// a + b
pub(crate) fn sum(a: i128, b: i128) -> Result<i128, Overflow>
    requires first { nat_abs a < 2 ^ 127 }
    requires second { nat_abs b < 2 ^ 127 }
    ensures value { IfOk result (λ n. n ≡ a +ℤ b) }
    ensures fits { IfOk result (λ n. nat_abs n < 2 ^ 127) }
    ensures overflow { IfErr result Overflows }
    ensures beyond { IsErr result → 2 ^ 127 ≤ nat_abs (a +ℤ b) }
{
    match fitted_sum(a, b) {
        Some(sum) => Ok(sum),
        None => Err(overflow(Op::Add, a, b)),
    }
}

/// The whole number n.
pub(crate) fn whole(n: u128) -> i128
    requires { n < 2 ^ 127 }
    ensures value { result ≡ pos n }
    ensures fits { nat_abs result < 2 ^ 127 }
{
    n as i128
}

/// Whether it is below 0.
pub(crate) fn is_negative(z: i128) -> bool
    ensures { result ≡ int_is_negative z }
{
    z < 0
}

/// -a
pub(crate) fn opposite(a: i128) -> i128
    requires { nat_abs a < 2 ^ 127 }
    ensures value { result ≡ neg_ℤ a }
    ensures fits { nat_abs result < 2 ^ 127 }
{
    -a
}

/// a / divisor, rounded toward zero.
pub(crate) fn over(a: i128, divisor: u128) -> i128
    requires fits { nat_abs a < 2 ^ 127 }
    requires positive { 0 < divisor }
    ensures value { result ≡ over a divisor }
    ensures fits { nat_abs result < 2 ^ 127 }
{
    let magnitude = (a.unsigned_abs() / divisor) as i128;
    if a < 0 { -magnitude } else { magnitude }
}

/// The number whose product with b is n.
pub(crate) fn exact_quotient(n: i128, b: i128) -> Option<i128>
    requires first { nat_abs n < 2 ^ 127 }
    requires second { nat_abs b < 2 ^ 127 }
    requires not_zero { b ≢ pos 0 }
    ensures exact { MatchOption result ((x : ℤ) → b *ℤ x ≢ n) (λ x. b *ℤ x ≡ n) }
    ensures fits { IfSome result (λ x. nat_abs x < 2 ^ 127) }
{
    let divisor = b.unsigned_abs();
    if n.unsigned_abs() % divisor != 0 {
        return None;
    }
    let quotient = over(n, divisor);
    if b < 0 {
        Some(opposite(quotient))
    } else {
        Some(quotient)
    }
}

/// a * b, where it fits.
fn fitted_product(a: i128, b: i128) -> Option<i128>
    ensures { SomeIff result (nat_abs (a *ℤ b) < 2 ^ 127) (a *ℤ b) }
{
    let product = a.checked_mul(b)?;
    (product != i128::MIN).then_some(product)
}

/// a + b, where it fits.
fn fitted_sum(a: i128, b: i128) -> Option<i128>
    ensures { SomeIff result (nat_abs (a +ℤ b) < 2 ^ 127) (a +ℤ b) }
{
    let sum = a.checked_add(b)?;
    (sum != i128::MIN).then_some(sum)
}

/// The operation with whole operands.
fn overflow(op: Op, a: i128, b: i128) -> Overflow
    requires first { nat_abs a < 2 ^ 127 }
    requires second { nat_abs b < 2 ^ 127 }
    ensures operation { result.op ≡ op }
    ensures first { value_of result.a ≡ whole_fraction a }
    ensures second { value_of result.b ≡ whole_fraction b }
{
    Overflow {
        op,
        a: Rat::whole(a),
        b: Rat::whole(b),
    }
}

/// The numerator and the denominator.
pub(crate) fn parts(a: Rat) -> (i128, u128)
    ensures num { result.0 ≡ (value_of a).num }
    ensures den { result.1 ≡ (value_of a).den }
    ensures num_fits { nat_abs result.0 < 2 ^ 127 }
    ensures den_fits { result.1 < 2 ^ 127 }
    ensures den_positive { 0 < result.1 }
{
    (a.num(), a.den().unsigned_abs())
}
