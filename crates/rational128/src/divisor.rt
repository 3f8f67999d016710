//! The greatest common divisor, by the binary algorithm.
ghost use Rattle.std.specs.Prelude.{◌≡◌, ◌<◌, ◌%◌};
ghost use Rattle.std.specs.Int.{IsGcd};

/// The greatest common divisor. That of n and 0 is n.
pub fn gcd(a: u128, b: u128) -> u128
    ensures { IsGcd a b result }
{
    if a == 1 || b == 1 {
        return 1;
    }
    if a == 0 {
        return b;
    }
    if b == 0 {
        return a;
    }
    if a < 1 << 64 && b < 1 << 64 {
        return u128::from(gcd_64(a as u64, b as u64));
    }
    let first = a.trailing_zeros();
    let second = b.trailing_zeros();
    odd_gcd(a >> first, b >> second) << first.min(second)
}

/// The same in 64 bits, where neither is 0.
fn gcd_64(a: u64, b: u64) -> u64
    requires first { 0 < a }
    requires second { 0 < b }
    ensures { IsGcd a b result }
{
    let first = a.trailing_zeros();
    let second = b.trailing_zeros();
    odd_gcd_64(a >> first, b >> second) << first.min(second)
}

/// The greatest common divisor of two odd numbers, by differences without their factors of 2.
fn odd_gcd(a: u128, b: u128) -> u128
    requires a_is_odd { a % 2 ≡ 1 }
    requires b_is_odd { b % 2 ≡ 1 }
    ensures { IsGcd a b result }
{
    let mut x = a;
    let mut y = b;
    while x != y {
        let low = x.min(y);
        let high = x.max(y);
        if high < 1 << 64 {
            return u128::from(odd_gcd_64(low as u64, high as u64));
        }
        let difference = high - low;
        x = low;
        y = difference >> difference.trailing_zeros();
    }
    x
}

/// That of two odd numbers in 64 bits.
fn odd_gcd_64(a: u64, b: u64) -> u64
    requires a_is_odd { a % 2 ≡ 1 }
    requires b_is_odd { b % 2 ≡ 1 }
    ensures { IsGcd a b result }
{
    let mut x = a;
    let mut y = b;
    while x != y {
        let low = x.min(y);
        let difference = x.max(y) - low;
        x = low;
        y = difference >> difference.trailing_zeros();
    }
    x
}
