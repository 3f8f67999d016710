//! Coefficients made whole, without a common factor, and with a leading coefficient above 0.
ghost use Rattle.std.specs.Prelude.{◌≡◌, ◌≢◌, ◌<◌, ◌≤◌, ◌*◌, ◌^◌, ℕ, pos, ◌*ℤ◌, nat_abs, map, length, slice_index_or, IsErr, IfOk, IfErr};
ghost use Rattle.std.specs.Int.{◌∣◌};
ghost use Rattle.calc_bits.specs.Denominators.{magnitude_over};
ghost use Rattle.calc_terms.specs.Fractions.{times, whole_fraction, zero_fraction};
ghost use Rattle.calc_terms.specs.Rat.{value_of};
ghost use Rattle.calc_terms.specs.Ratio.{with_sign};
ghost use Rattle.equation_roots.specs.Coefficients.{HasLeading};
ghost use Rattle.equation_roots.specs.Refusals.{Overflows};
ghost use Rattle.equation_roots.specs.Sizes.{HasFewBits, mass_of, mass_over};
ghost use Rattle.equation_roots.specs.Told.{dense_in, wholes_of};
ghost use Rattle.equation_roots.specs.Wholes.{IsMultiple, fractions, leading};

use crate::operations::{is_negative, opposite, over, parts, product, whole};
use crate::wholes::Wholes;
use calc_terms::Rat;
use rational128::{Overflow, gcd};

/// The primitive polynomial of which these coefficients are a multiple.
pub(crate) fn primitive(coefficients: &[Rat]) -> Result<Wholes, Overflow>
    requires degree { 1 ≤ length coefficients.now }
    requires limit { length coefficients.now ≤ 33 }
    requires leading { HasLeading (dense_in coefficients.now) }
    ensures multiple { IfOk result (λ w. IsMultiple (dense_in coefficients.now) (wholes_of w)) }
    ensures overflow { IfErr result Overflows }
    ensures light { IfOk result (λ w. HasFewBits (dense_in coefficients.now) → mass_of (wholes_of w) ≤ 2 ^ 62) }
    ensures bits { IsErr result → HasFewBits (dense_in coefficients.now) → ⊥ }
{
    let common = common_denominator(coefficients)?;
    let wholes = scaled(coefficients, common)?;
    let shared = common_factor(&wholes);
    let turned = is_negative(wholes.leading());
    Ok(reduced(&wholes, turned, shared))
}

/// The least common denominator.
fn common_denominator(coefficients: &[Rat]) -> Result<u128, Overflow>
    ensures common { IfOk result (λ d. (k : ℕ) → k < length coefficients.now → (slice_index_or (dense_in coefficients.now) k zero_fraction).den ∣ d) }
    ensures least { IfOk result (λ d. (n : ℕ) → ((k : ℕ) → k < length coefficients.now → (slice_index_or (dense_in coefficients.now) k zero_fraction).den ∣ n) → d ∣ n) }
    ensures positive { IfOk result (λ d. 0 < d) }
    ensures fits { IfOk result (λ d. d < 2 ^ 127) }
    ensures overflow { IfErr result Overflows }
    ensures beyond { IsErr result → (n : ℕ) → 0 < n → ((k : ℕ) → k < length coefficients.now → (slice_index_or (dense_in coefficients.now) k zero_fraction).den ∣ n) → 2 ^ 127 ≤ n }
{
    let mut common = 1;
    for q in coefficients {
        let (_, den) = parts(*q);
        common = multiple(common, den)?;
    }
    Ok(common)
}

/// The least common multiple.
fn multiple(a: u128, b: u128) -> Result<u128, Overflow>
    requires first { (0 < a) × (a < 2 ^ 127) }
    requires second { (0 < b) × (b < 2 ^ 127) }
    ensures of_first { IfOk result (λ m. a ∣ m) }
    ensures of_second { IfOk result (λ m. b ∣ m) }
    ensures least { IfOk result (λ m. (n : ℕ) → a ∣ n → b ∣ n → m ∣ n) }
    ensures positive { IfOk result (λ m. 0 < m) }
    ensures fits { IfOk result (λ m. m < 2 ^ 127) }
    ensures overflow { IfErr result Overflows }
    ensures beyond { IsErr result → (n : ℕ) → 0 < n → a ∣ n → b ∣ n → 2 ^ 127 ≤ n }
{
    let common = natural_product(a, b / gcd(a, b))?;
    Ok(common)
}

/// a * b
fn natural_product(a: u128, b: u128) -> Result<u128, Overflow>
    requires first { a < 2 ^ 127 }
    requires second { b < 2 ^ 127 }
    ensures value { IfOk result (λ m. m ≡ a * b) }
    ensures fits { IfOk result (λ m. m < 2 ^ 127) }
    ensures overflow { IfErr result Overflows }
    ensures beyond { IsErr result → 2 ^ 127 ≤ a * b }
{
    let product = product(a as i128, b as i128)?;
    Ok(product.unsigned_abs())
}

/// The coefficients times a common denominator.
fn scaled(coefficients: &[Rat], common: u128) -> Result<Wholes, Overflow>
    requires limit { length coefficients.now ≤ 33 }
    requires common { (k : ℕ) → k < length coefficients.now → (slice_index_or (dense_in coefficients.now) k zero_fraction).den ∣ common }
    requires positive { 0 < common }
    requires fits { common < 2 ^ 127 }
    ensures multiple { IfOk result (λ w. fractions (wholes_of w) ≡ map (times (whole_fraction (pos common))) (dense_in coefficients.now)) }
    ensures overflow { IfErr result Overflows }
    ensures beyond { IsErr result → 2 ^ 127 ≤ mass_over common (dense_in coefficients.now) }
{
    let mut wholes = Wholes::new();
    for q in coefficients {
        let numerator = scaled_numerator(*q, common)?;
        wholes.push(numerator);
    }
    Ok(wholes)
}

/// A rational times a multiple of its denominator.
fn scaled_numerator(q: Rat, common: u128) -> Result<i128, Overflow>
    requires common { (value_of q).den ∣ common }
    requires fits { common < 2 ^ 127 }
    ensures value { IfOk result (λ z. whole_fraction z ≡ times (whole_fraction (pos common)) (value_of q)) }
    ensures fits { IfOk result (λ z. nat_abs z < 2 ^ 127) }
    ensures overflow { IfErr result Overflows }
    ensures beyond { IsErr result → 2 ^ 127 ≤ magnitude_over common (value_of q) }
{
    let (num, den) = parts(q);
    let factor = whole(common / den);
    let numerator = product(num, factor)?;
    Ok(numerator)
}

/// The greatest common divisor of the coefficients.
fn common_factor(wholes: &Wholes) -> u128
    requires { leading (wholes_of wholes.now) ≢ pos 0 }
    ensures common { (k : ℕ) → k < length (wholes_of wholes.now) → result ∣ nat_abs (slice_index_or (wholes_of wholes.now) k (pos 0)) }
    ensures positive { 0 < result }
{
    let mut shared = 0;
    for at in 0..wholes.len() {
        shared = gcd(shared, wholes.get(at).unsigned_abs());
    }
    shared
}

/// The coefficients over a common factor, each with the opposite sign where it says so.
fn reduced(wholes: &Wholes, turned: bool, shared: u128) -> Wholes
    requires common { (k : ℕ) → k < length (wholes_of wholes.now) → shared ∣ nat_abs (slice_index_or (wholes_of wholes.now) k (pos 0)) }
    requires positive { 0 < shared }
    ensures { map (λ z. with_sign turned shared *ℤ z) (wholes_of result) ≡ wholes_of wholes.now }
{
    let mut quotients = Wholes::new();
    for at in 0..wholes.len() {
        quotients.push(signed_quotient(wholes.get(at), turned, shared));
    }
    quotients
}

/// z over a divisor, with the opposite sign where it says so.
fn signed_quotient(z: i128, turned: bool, divisor: u128) -> i128
    requires fits { nat_abs z < 2 ^ 127 }
    requires positive { 0 < divisor }
    requires divides { divisor ∣ nat_abs z }
    ensures value { with_sign turned divisor *ℤ result ≡ z }
    ensures fits { nat_abs result < 2 ^ 127 }
{
    let quotient = over(z, divisor);
    if turned { opposite(quotient) } else { quotient }
}
