//! Radicands of one square class.
ghost use Rattle.std.specs.Prelude.{◌≡◌, ◌↔◌, ◌*◌, ◌<◌, ◌≤◌, ◌^◌, ◌≢◌, ℕ, IsSome, IsNone, IfSome, true};
ghost use Rattle.std.specs.Int.{IsGcd};
ghost use Rattle.calc_algebra.specs.SquareClasses.{are_alike};

use rational128::{gcd, isqrt};

/// g, a and b where r = g * a * a and s = g * b * b, for radicands whose product is a square.
pub fn alike(r: u128, s: u128) -> Option<(u128, u128, u128)>
    requires r_positive { 1 ≤ r }
    requires r_fits { r < 2 ^ 127 }
    requires s_positive { 1 ≤ s }
    requires s_fits { s < 2 ^ 127 }
    ensures found { IsSome result ↔ (are_alike r s ≡ true) }
    ensures first { IfSome result (λ p. r ≡ p.0 * p.1 * p.1) }
    ensures second { IfSome result (λ p. s ≡ p.0 * p.2 * p.2) }
    ensures greatest { IfSome result (λ p. IsGcd r s p.0) }
{
    let shared = gcd(r, s);
    let a = exact_root(r / shared)?;
    let b = exact_root(s / shared)?;
    Some((shared, a, b))
}

/// The root of a square.
fn exact_root(n: u128) -> Option<u128>
    ensures square { IfSome result (λ r. r * r ≡ n) }
    ensures no_square { IsNone result → (r : ℕ) → r * r ≢ n }
{
    let root = isqrt(n);
    (root * root == n).then_some(root)
}
