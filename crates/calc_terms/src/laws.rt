//! Laws of the definitions, each the contract of a function without a body.

ghost use Rattle.std.specs.Prelude.{◌≡◌, ℕ, ◌<◌, ◌*◌, ℤ, pos, neg_ℤ, ◌+ℤ◌, ◌*ℤ◌};
ghost use Rattle.std.specs.Int.{IsGcd};
ghost use Rattle.calc_terms.specs.Gcd.{gcd as gcd_of};
ghost use Rattle.calc_terms.specs.Fractions.{Fraction, lowest as lowest_of, plus, times, negative, zero_fraction, one_fraction};

/// The number that its definition computes is the greatest common divisor.
pub fn computed_numbers()
    ensures { (a b : ℕ) → IsGcd a b (gcd_of a b) }
{}

/// Fractions are equal where their cross products are.
pub fn equal_fractions()
    ensures equal { (p r : ℤ) (q s : ℕ) → 0 < q → 0 < s → p *ℤ pos s ≡ r *ℤ pos q → lowest_of p q ≡ lowest_of r s }
    ensures only_then { (p r : ℤ) (q s : ℕ) → 0 < q → 0 < s → lowest_of p q ≡ lowest_of r s → p *ℤ pos s ≡ r *ℤ pos q }
{}

/// Sum, product and negative of fractions are the textbook's.
pub fn fraction_arithmetic()
    ensures sum { (p r : ℤ) (q s : ℕ) → 0 < q → 0 < s → plus (lowest_of p q) (lowest_of r s) ≡ lowest_of (p *ℤ pos s +ℤ r *ℤ pos q) (q * s) }
    ensures product { (p r : ℤ) (q s : ℕ) → 0 < q → 0 < s → times (lowest_of p q) (lowest_of r s) ≡ lowest_of (p *ℤ r) (q * s) }
    ensures negative { (p : ℤ) (q : ℕ) → 0 < q → negative (lowest_of p q) ≡ lowest_of (neg_ℤ p) q }
{}

/// Fractions are a commutative ring.
pub fn fractions_are_a_ring()
    ensures plus_commutes { (a b : Fraction) → plus a b ≡ plus b a }
    ensures plus_associates { (a b c : Fraction) → plus (plus a b) c ≡ plus a (plus b c) }
    ensures zero { (a : Fraction) → plus zero_fraction a ≡ a }
    ensures negative { (a : Fraction) → plus a (negative a) ≡ zero_fraction }
    ensures times_commutes { (a b : Fraction) → times a b ≡ times b a }
    ensures times_associates { (a b c : Fraction) → times (times a b) c ≡ times a (times b c) }
    ensures one { (a : Fraction) → times one_fraction a ≡ a }
    ensures distributes { (a b c : Fraction) → times a (plus b c) ≡ plus (times a b) (times a c) }
{}
