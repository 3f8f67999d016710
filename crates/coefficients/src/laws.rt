//! Laws of coefficients, each the contract of a function without a body.
ghost use Rattle.std.specs.Prelude.{◌≡◌, true, false};
ghost use Rattle.calc_algebra.specs.Numbers.{is_number};
ghost use Rattle.calc_algebra.specs.Reduced.{is_reduced, part_of};
ghost use Rattle.calc_algebra.specs.Rewritings.{KeepsMeanings, Reduces};
ghost use Rattle.calc_terms.specs.Fractions.{Fraction};
ghost use Rattle.calc_terms.specs.Trees.{Tree, num, add, mult, Trees, none, more, is_undef};
ghost use Rattle.coefficients.specs.Coefficients.{coefficient_of, with_coefficient, IsMonic};
ghost use Rattle.coefficients.specs.Multiples.{rational_times_term, rational_times_sum};

/// A rational times a term, and a rational that was multiplied into each term of a sum, have every meaning of
/// the product.
pub fn rationals_keep_meanings()
    ensures term { (q : Fraction) (t : Tree) → KeepsMeanings (mult (more (num q) (more t none))) (rational_times_term q t) }
    ensures sum { (q : Fraction) (ts : Trees) → KeepsMeanings (mult (more (num q) (more (add ts) none))) (rational_times_sum q ts) }
{}

/// A coefficient before a part has every meaning of their product, and is reduced where the part is monic.
pub fn coefficients_keep_meanings()
    ensures any { (c p : Tree) → KeepsMeanings (mult (more c (more p none))) (with_coefficient c p) }
    ensures reduced { (c p : Tree) → is_number c ≡ true → IsMonic p → Reduces (mult (more c (more p none))) (with_coefficient c p) }
{}

/// A reduced tree that is no Number is its coefficient, a Number, before its part, which is monic.
pub fn coefficients_are_put_back()
    ensures number { (t : Tree) → is_reduced t ≡ true → is_undef t ≡ false → is_number t ≡ false → is_number (coefficient_of t) ≡ true }
    ensures monic { (t : Tree) → is_reduced t ≡ true → is_undef t ≡ false → is_number t ≡ false → IsMonic (part_of t) }
    ensures whole { (t : Tree) → is_reduced t ≡ true → is_undef t ≡ false → is_number t ≡ false → with_coefficient (coefficient_of t) (part_of t) ≡ t }
{}
