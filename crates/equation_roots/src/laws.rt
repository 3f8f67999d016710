//! Laws of factorings, each the contract of a function without a body.
ghost use Rattle.std.specs.Prelude.{◌≡◌, ◌≢◌, ◌+◌, ◌*◌, ◌<◌, ◌≤◌, ◌^◌, ℕ, List, [], Contains};
ghost use Rattle.calc_terms.specs.Fractions.{Fraction, negative, plus, times, zero_fraction};
ghost use Rattle.calc_algebra.specs.SquareClasses.{Same, class_coefficient};
ghost use Rattle.calc_algebra.specs.Surds.{Surd, surd_of, surd_scale, surd_times};
ghost use Rattle.equation_roots.specs.Coefficients.{Dense, at, worth};
ghost use Rattle.equation_roots.specs.Factorings.{HasRadicandBelow, IsBelowZero, IsFactoring, IsNotBelowZero, IsPair, Rest, dense_of, less, lower, pair, product_at, rootless, roots_of, upper};
ghost use Rattle.equation_roots.specs.Sizes.{HasFewBits, IsCommon, mass_over};

/// What is left with a pair of roots is the product of both linear factors.
#[tactic(auto, using(crate::proofs::Vieta::linear_factors))]
pub fn pairs_are_factors()
    ensures { (b c m s : Fraction) (t : ℕ) (v : Surd) → IsPair b c m s t
        → Same (worth (dense_of (pair b c m s t)) v) (surd_times (less v (lower m s t)) (less v (upper m s t))) }
{}

/// The coefficient of a square at 1 is not below 0.
#[tactic(auto, using(crate::proofs::Squares::square_not_negative))]
pub fn squares_are_not_negative()
    ensures { (w : Surd) → IsNotBelowZero (class_coefficient (surd_times w w) 1) }
{}

/// No surd is a root where the square of half the coefficient of X is below the constant.
#[tactic(auto, using(crate::proofs::Rootless::no_root))]
pub fn rootless_has_no_root()
    ensures { (c h : Fraction) (v : Surd) → IsBelowZero (plus (times h h) (negative c)) → Same (worth (dense_of (rootless h c)) v) [] → ⊥ }
{}

/// What a polynomial is worth is the product of its factors there, times a fraction other than 0.
#[tactic(auto, using(crate::proofs::Products::factored_worth))]
pub fn factored()
    ensures { (p : Dense) (qs : List Fraction) (rest : Rest) (v : Surd) (f : IsFactoring p qs rest)
        → Same (worth p v) (surd_scale f.lead (product_at qs v (worth (dense_of rest) v))) }
{}

/// Each told root makes the polynomial 0.
pub fn told_roots_solve()
    ensures { (p : Dense) (qs : List Fraction) (rest : Rest) (v : Surd) → IsFactoring p qs rest → Contains (roots_of qs rest) v → Same (worth p v) [] }
{}

/// Each fraction that makes the polynomial 0 is told.
pub fn rational_roots_are_told()
    ensures { (p : Dense) (qs : List Fraction) (rest : Rest) (r : Fraction) → IsFactoring p qs rest → Same (worth p (surd_of r)) [] → Contains qs r }
{}

/// A polynomial and its multiples by fractions other than 0 have one factoring, where radicands are below 10^12.
pub fn one_factoring()
    ensures { (p w : Dense) (l : Fraction) (qs rs : List Fraction) (rest other : Rest) → l ≢ zero_fraction → ((k : ℕ) → at k w ≡ times l (at k p))
        → IsFactoring p qs rest → IsFactoring w rs other → HasRadicandBelow (10 ^ 12) rest → HasRadicandBelow (10 ^ 12) other → (qs ≡ rs) × (rest ≡ other) }
{}

/// Coefficients have few bits where a common denominator is at most 2^l, the sum of their magnitudes at most 2^h, and h + l at most 62.
pub fn held_coefficients_have_few_bits()
    ensures { (p : Dense) (d h l : ℕ) → 0 < d → IsCommon d p → d ≤ 2 ^ l → mass_over d p ≤ d * 2 ^ h → h + l ≤ 62 → HasFewBits p }
{}
