//! Laws of the calculations on terms, each the contract of a function without a body.

ghost use Rattle.std.specs.Prelude.{ℕ, ◌≡◌, ◌≢◌, ◌+◌, ◌*◌, ◌/◌, ◌≤◌, ◌<◌, max, [], ◌∷◌, true, false, pos, nat_abs, None};
ghost use Rattle.std.specs.Int.{◌∣◌};
ghost use Rattle.calc_terms.specs.Fractions.{Fraction, times, whole_fraction, zero_fraction};
ghost use Rattle.calc_terms.specs.Fits.{fraction_fits};
ghost use Rattle.calc_algebra.specs.SquareClasses.{are_alike};
ghost use Rattle.calc_algebra.specs.Surds.{Term, surd_of, term_times};
ghost use Rattle.calc_bits.specs.Masses.{root_above, mass_from, mass, IsHeld, IsHeldByOne};
ghost use Rattle.calc_bits.specs.Denominators.{Parts};
ghost use Rattle.surd_terms.specs.Calculations.{first_misfit, joining_calculations, inverse_calculations, inverse_of_sum_calculations, root_calculations};
ghost use Rattle.surd_terms.specs.Inverses.{inverse_of, first_of_inverse, second_of_inverse};
ghost use Rattle.surd_terms.specs.Products.{IsExtracted};
ghost use Rattle.surd_terms.specs.Sums.{IsSum};
ghost use Rattle.surd_terms.specs.SquareRoots.{IsRootTerm};
ghost use Rattle.surd_bits.specs.Inverted.{IsNoLargerThanInverse};
ghost use Rattle.surd_bits.specs.Proper.{IsProper, parts_of, square_over};
ghost use Rattle.surd_bits.specs.Rooted.{IsNoLargerThanRoot};

/// Two terms that are held within 124 bits can be joined.
pub fn joins_fit()
    ensures { (a b : Term) (h l : ℕ) → IsHeld (a ∷ b ∷ []) h l → 2 * h + 4 * l ≤ 124
        → first_misfit (joining_calculations a b) ≡ None }
{}

/// Two terms whose product is held within 124 bits can be multiplied: the product of the coefficients fits, that of the
/// radicands over whatever they share, and the coefficient once a square is taken before the root.
pub fn products_fit()
    ensures coefficients { (a b : Term) (h l : ℕ) → IsProper a → IsProper b → IsHeld (term_times a b ∷ []) h l → 2 * h + 4 * l ≤ 124
        → fraction_fits (times a.coefficient b.coefficient) ≡ true }
    ensures radicands { (a b : Term) (h l g : ℕ) → IsProper a → IsProper b → IsHeld (term_times a b ∷ []) h l → 2 * h + 4 * l ≤ 124
        → fraction_fits (times (whole_fraction (pos (a.radicand / g))) (whole_fraction (pos (b.radicand / g)))) ≡ true }
    ensures extracted { (a b : Term) (h l root rest : ℕ) → IsProper a → IsProper b → IsHeld (term_times a b ∷ []) h l
        → 2 * h + 4 * l ≤ 124 → 0 < rest → a.radicand * b.radicand ≡ root * root * rest
        → fraction_fits (times (times a.coefficient b.coefficient) (whole_fraction (pos root))) ≡ true }
{}

/// One term, and two that are not alike, can be inverted where they are held within 124 bits; and what holds the inverse.
pub fn inverses_fit()
    ensures one { (a : Term) (h l : ℕ) → IsProper a → IsHeld (a ∷ []) h l → 2 * h + 4 * l ≤ 124
        → first_misfit (inverse_calculations a) ≡ None }
    ensures two { (a b : Term) (h l : ℕ) → IsProper a → IsProper b → are_alike a.radicand b.radicand ≡ false
        → IsHeld (a ∷ b ∷ []) h l → 2 * h + 4 * l ≤ 124 → first_misfit (inverse_of_sum_calculations a b) ≡ None }
    ensures one_held { (a : Term) (h l : ℕ) → IsProper a → IsHeld (a ∷ []) h l
        → IsHeld (inverse_of a ∷ []) (h + 2 * l) (2 * h + 2 * l) }
    ensures two_held { (a b : Term) (h l : ℕ) → IsProper a → IsProper b → are_alike a.radicand b.radicand ≡ false
        → IsHeld (a ∷ b ∷ []) h l → IsHeld (first_of_inverse a b ∷ second_of_inverse a b ∷ []) (h + 2 * l) (2 * h + 2 * l) }
{}

/// The inverse has a common denominator that is at most what the squares of the terms come to over any common denominator d
/// of what is inverted, and over e times that a mass of at most d * d times it.
pub fn inverses_measured()
    ensures one { (a : Term) (d e m : ℕ) → IsProper a → Parts d (a ∷ []) → Parts e (a ∷ [])
        → (f : ℕ) × (f ≤ square_over d a) × Parts f (inverse_of a ∷ []) × Parts (e * f) (inverse_of a ∷ [])
        × (mass_from (f * m) (e * f) (inverse_of a ∷ []) ≤ (f * (d * d)) * mass_from m e (a ∷ [])) }
    ensures two { (a b : Term) (d e m : ℕ) → IsProper a → IsProper b → are_alike a.radicand b.radicand ≡ false
        → Parts d (a ∷ b ∷ []) → Parts e (a ∷ b ∷ [])
        → (f : ℕ) × (f ≤ square_over d a + square_over d b) × Parts f (first_of_inverse a b ∷ second_of_inverse a b ∷ [])
        × Parts (e * f) (first_of_inverse a b ∷ second_of_inverse a b ∷ [])
        × (mass_from (f * m) (e * f) (first_of_inverse a b ∷ second_of_inverse a b ∷ []) ≤ (f * (d * d)) * mass_from m e (a ∷ b ∷ [])) }
    ensures one_held_by_one { (a : Term) (h l : ℕ) → IsProper a → IsHeldByOne (a ∷ []) h l
        → IsHeldByOne (inverse_of a ∷ []) (h + 2 * l) (2 * h + 2 * l) }
    ensures two_held_by_one { (a b : Term) (h l : ℕ) → IsProper a → IsProper b → are_alike a.radicand b.radicand ≡ false
        → IsHeldByOne (a ∷ b ∷ []) h l
        → IsHeldByOne (first_of_inverse a b ∷ second_of_inverse a b ∷ []) (h + 2 * l) (2 * h + 2 * l) }
{}

/// The inverse of one term, and of the sum of two that are not alike, is measured over each two common denominators and held.
pub fn inverses_are_no_larger()
    ensures one { (a : Term) → IsProper a → IsNoLargerThanInverse (a ∷ []) (inverse_of a ∷ []) }
    ensures two { (a b : Term) → IsProper a → IsProper b → are_alike a.radicand b.radicand ≡ false
        → IsNoLargerThanInverse (a ∷ b ∷ []) (first_of_inverse a b ∷ second_of_inverse a b ∷ []) }
{}

/// The root of a rational, and that of 0, which has no terms, is measured and held.
pub fn roots_are_no_larger()
    ensures term { (q : Fraction) (t : Term) → q ≢ zero_fraction → IsRootTerm t (parts_of q) → IsNoLargerThanRoot q (t ∷ []) }
    ensures none { (q : Fraction) → IsNoLargerThanRoot q [] }
{}

/// A common denominator stays one of what is joined, and once a square is taken before the root.
pub fn denominators_stay()
    ensures joined { (t a b : Term) (d : ℕ) → IsSum t a b → Parts d (a ∷ b ∷ []) → t.coefficient.den ∣ d }
    ensures extracted { (t u : Term) (d : ℕ) → IsExtracted t u → u.coefficient.den ∣ d → t.coefficient.den ∣ d }
{}

/// The operation that takes the root of a rational held within 124 bits fits, and the root is held as the rational is.
pub fn roots_fit()
    ensures fits { (q : Fraction) (h l : ℕ) → IsHeld (surd_of q) h l → 2 * h + 4 * l ≤ 124
        → first_misfit (root_calculations (parts_of q)) ≡ None }
    ensures denominator { (q : Fraction) (t : Term) → IsRootTerm t (parts_of q) → t.coefficient.den ∣ q.den }
    ensures mass { (q : Fraction) (t : Term) → IsRootTerm t (parts_of q)
        → mass q.den (t ∷ []) ≡ max q.den (root_above (nat_abs q.num * q.den)) }
    ensures held { (q : Fraction) (t : Term) (h l : ℕ) → IsRootTerm t (parts_of q) → IsHeld (surd_of q) h l → IsHeld (t ∷ []) h l }
{}
