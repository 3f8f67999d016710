//! Products, quotients and sums of whole numbers whose magnitude is at most 2^127 - 1.
ghost use Rattle.std.specs.Prelude.{◌≡◌, ◌*◌, ◌/◌, ◌<◌, ◌^◌, pos, ◌*ℤ◌, ◌+ℤ◌, nat_abs};
ghost use Rattle.std.specs.Option.{SomeIff};
ghost use Rattle.calc_terms.specs.Fractions.{over};

/// a * b, where it fits.
pub(crate) fn product(a: u128, b: u128) -> Option<u128>
    ensures { SomeIff result (a * b < 2 ^ 127) (a * b) }
{
    let product = a.checked_mul(b)?;
    (product <= i128::MAX as u128).then_some(product)
}

/// a * b, where it fits.
pub(crate) fn multiple(a: i128, b: u128) -> Option<i128>
    ensures { SomeIff result (nat_abs a * b < 2 ^ 127) (a *ℤ pos b) }
{
    let magnitude = product(a.unsigned_abs(), b)? as i128;
    Some(if a < 0 { -magnitude } else { magnitude })
}

/// a * b, where it fits.
pub(crate) fn signed_product(a: i128, b: i128) -> Option<i128>
    ensures { SomeIff result (nat_abs a * nat_abs b < 2 ^ 127) (a *ℤ b) }
{
    let product = multiple(a, b.unsigned_abs())?;
    Some(if b < 0 { -product } else { product })
}

/// a + b, where it fits.
pub(crate) fn sum(a: i128, b: i128) -> Option<i128>
    ensures { SomeIff result (nat_abs (a +ℤ b) < 2 ^ 127) (a +ℤ b) }
{
    let sum = a.checked_add(b)?;
    (sum != i128::MIN).then_some(sum)
}

/// a / divisor, rounded down, in 64 bits where both have no more.
pub(crate) fn divided(a: u128, divisor: u128) -> u128
    requires { 0 < divisor }
    ensures { result ≡ a / divisor }
{
    if divisor == 1 {
        a
    } else if a < 1 << 64 && divisor < 1 << 64 {
        u128::from(a as u64 / divisor as u64)
    } else {
        a / divisor
    }
}

/// a / divisor, rounded toward zero.
pub(crate) fn quotient(a: i128, divisor: u128) -> i128
    requires fits { nat_abs a < 2 ^ 127 }
    requires positive { 0 < divisor }
    ensures { result ≡ over a divisor }
{
    let magnitude = divided(a.unsigned_abs(), divisor) as i128;
    if a < 0 { -magnitude } else { magnitude }
}
