//! Euclid's algorithm, and lowest terms by it.
ghost use Rattle.std.specs.Prelude.{◌≡◌, ℕ, ◌<◌, ◌^◌};
ghost use Rattle.std.specs.Int.{IsGcd};
ghost use Rattle.calc_terms.specs.Ratio.{IsReduced, with_sign};

/// The greatest common divisor, by Euclid's algorithm.
pub fn gcd(a: u128, b: u128) -> u128
    ensures { IsGcd a b result }
{
    let mut x = a;
    let mut y = b;
    while y != 0 {
        let rest = x % y;
        x = y;
        y = rest;
    }
    x
}

/// Two numbers divided by their greatest common divisor.
pub fn reduced(a: u128, b: u128) -> (u128, u128)
    requires { 0 < b }
    ensures { IsReduced a b result.0 result.1 }
{
    let divisor = gcd(a, b);
    (a / divisor, b / divisor)
}

/// The number of that sign and magnitude.
pub fn signed(negative: bool, magnitude: u128) -> i128
    requires { magnitude < 2 ^ 127 }
    ensures { result ≡ with_sign negative magnitude }
{
    let number = magnitude as i128;
    if negative { -number } else { number }
}
