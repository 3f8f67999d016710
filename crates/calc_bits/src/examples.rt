//! Worked examples of the definitions, each the contract of a function without a body.

ghost use Rattle.std.specs.Prelude.{◌≡◌, [], ◌∷◌};
ghost use Rattle.calc_terms.specs.Fractions.{one_fraction, quotient};
ghost use Rattle.calc_algebra.specs.Surds.{term};
ghost use Rattle.calc_bits.specs.Denominators.{magnitude_over};
ghost use Rattle.calc_bits.specs.Masses.{root_above, mass_from, mass, IsHeld, IsHeldByOne};

/// Roots rounded up, and 12 times 5/6.
pub fn roots_and_magnitudes()
    ensures of_a_square { root_above 9 ≡ 3 }
    ensures between_squares { root_above 10 ≡ 4 }
    ensures of_zero { root_above 0 ≡ 0 }
    ensures a_magnitude { magnitude_over 12 (quotient 5 6) ≡ 10 }
{}

/// The masses of `√(2)+√(5)`, and of `0.01×√(20011)`, which count 1.42, and each term 1 at least. One denominator holds
/// `√(2)+√(5)` by (3, 0) and by (2, 1), and two hold it by (2, 0).
pub fn masses_found()
    ensures over_one { mass 1 (term one_fraction 2 ∷ term one_fraction 5 ∷ []) ≡ 5 }
    ensures over_two { mass 2 (term one_fraction 2 ∷ term one_fraction 5 ∷ []) ≡ 8 }
    ensures a_broken_coefficient { mass 100 (term (quotient 1 100) 20011 ∷ []) ≡ 142 }
    ensures a_small_term { mass 100 (term (quotient 1 100) 2 ∷ []) ≡ 100 }
    ensures its_magnitude { mass_from 0 100 (term (quotient 1 100) 2 ∷ []) ≡ 2 }
    ensures by_one { IsHeldByOne (term one_fraction 2 ∷ term one_fraction 5 ∷ []) 3 0 }
    ensures by_another { IsHeldByOne (term one_fraction 2 ∷ term one_fraction 5 ∷ []) 2 1 }
    ensures by_two { IsHeld (term one_fraction 2 ∷ term one_fraction 5 ∷ []) 2 0 }
{}
