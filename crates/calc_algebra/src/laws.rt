//! Laws of the algebra, each the contract of a function without a body.

ghost use Rattle.std.specs.Prelude.{◌≡◌, ◌↔◌, ◌⊎◌, ℕ, ◌<◌, ◌*◌, ℤ, ◌+ℤ◌, ◌*ℤ◌, [], ◌++◌, true, false, ◌^◌, Contains, ◌≤◌};
ghost use Rattle.std.specs.Int.{◌∣◌};
ghost use Rattle.calc_algebra.specs.SquareRoots.{square_root, IsSquareRoot};
ghost use Rattle.std.specs.Cmp.{IsTotalOrder};
ghost use Rattle.std.specs.declared.cmp.Ordering.TheVariants.{Equal};
ghost use Rattle.calc_terms.specs.Fractions.{Fraction, lowest};
ghost use Rattle.calc_terms.specs.Integers.{int_is_even};
ghost use Rattle.calc_terms.specs.Trees.{Tree};
ghost use Rattle.calc_algebra.specs.TreeOrder.{tree_cmp};
ghost use Rattle.calc_algebra.specs.Surds.{Surd, surd_one, surd_scale, surd_times, surd_power};
ghost use Rattle.calc_algebra.specs.SquareClasses.{are_alike, class_coefficient, radicands, Same, Inverts};
ghost use Rattle.calc_algebra.specs.Meanings.{Assignment, IsAssignment, IsWholePower, Means};
ghost use Rattle.calc_algebra.specs.Clean.{is_clean, IsClean, trial_limit, left_of, IsTried};
ghost use Rattle.calc_algebra.specs.Numbers.{is_number, IsNumber, value};
ghost use Rattle.calc_algebra.specs.Reduced.{is_reduced, IsReduced};
ghost use Rattle.calc_algebra.specs.BadAndEasy.{IsBad, IsEasy, IsShort, HasValue};

/// The numbers that definitions compute are those that their names say.
#[tactic(auto, using(crate::proofs::ComputedNumbers::alike_words, crate::proofs::ComputedNumbers::alike_test, crate::proofs::ComputedNumbers::left_of_free, crate::proofs::ComputedNumbers::left_of_tried))]
pub fn computed_numbers()
    ensures square_root { (n : ℕ) → IsSquareRoot n (square_root n) }
    ensures alike { (r s : ℕ) → (are_alike r s ≡ true) ↔ ((t : ℕ) × (0 < t) × (t * t ≡ r * s)) }

    // What trial division leaves of a number has none of the tried divisors, and only such were
    // divided out.
    ensures no_divisor_left { (r d : ℕ) → 0 < r → 2 ≤ d → d ≤ trial_limit → ¬ (d ∣ left_of r) }
    ensures only_tried { (r : ℕ) → 0 < r → (m : ℕ) × IsTried m × (r ≡ left_of r * m) }
{}

/// Surds that are equal at the radicands that occur have equal coefficients at every number.
#[tactic(auto, using(crate::proofs::SquareClassLaws::sameness))]
pub fn same_at_every_number()
    ensures { (v w : Surd) → Same v w ↔ ((s : ℕ) → class_coefficient v s ≡ class_coefficient w s) }
{}

/// Equality class by class is an equivalence.
#[tactic(auto, using(crate::proofs::SquareClassLaws::sameness))]
pub fn same_is_an_equivalence()
    ensures reflexive { (v : Surd) → Same v v }
    ensures symmetric { (v w : Surd) → Same v w → Same w v }
    ensures transitive { (u v w : Surd) → Same u v → Same v w → Same u w }
{}

/// Sums, multiples, products and powers respect it.
#[tactic(auto, using(crate::proofs::TermLaws::respected))]
pub fn same_is_respected()
    ensures joined { (v v' w w' : Surd) → Same v v' → Same w w' → Same (v ++ w) (v' ++ w') }
    ensures scaled { (c : Fraction) (v w : Surd) → Same v w → Same (surd_scale c v) (surd_scale c w) }
    ensures multiplied { (v v' w w' : Surd) → Same v v' → Same w w' → Same (surd_times v w) (surd_times v' w') }
    ensures raised { (n : ℕ) (v w : Surd) → Same v w → Same (surd_power v n) (surd_power w n) }
{}

/// Up to it, sums and products of surds commute, products associate and distribute over sums, and 1 is neutral.
#[tactic(auto, using(crate::proofs::SurdLaws::ring))]
pub fn surds_are_a_ring()
    ensures sums_commute { (v w : Surd) → Same (v ++ w) (w ++ v) }
    ensures products_commute { (v w : Surd) → Same (surd_times v w) (surd_times w v) }
    ensures products_associate { (u v w : Surd) → Same (surd_times (surd_times u v) w) (surd_times u (surd_times v w)) }
    ensures one { (v : Surd) → Same (surd_times surd_one v) v }
    ensures distributes { (u v w : Surd) → Same (surd_times (u ++ v) w) (surd_times u w ++ surd_times v w) }
{}

/// A surd has at most one inverse.
#[tactic(auto, using(crate::proofs::InverseLaws::inverses))]
pub fn one_inverse()
    ensures { (y z w : Surd) → Inverts y w → Inverts z w → Same y z }
{}

/// What has an inverse is not zero, and what has at most two terms and is not zero has one.
#[tactic(auto, using(crate::proofs::InverseLaws::inverses))]
pub fn which_have_inverses()
    ensures not_zero { (y w : Surd) → Inverts y w → ¬ (Same w []) }
    ensures two_terms { (w : Surd) → IsShort w → ¬ (Same w []) → (y : Surd) × Inverts y w }
{}

/// Whole powers follow the laws of exponents.
#[tactic(auto, using(crate::proofs::PowerLaws::whole_power_add, crate::proofs::PowerLaws::whole_power_mul, crate::proofs::PowerLaws::whole_power_of_product))]
pub fn laws_of_exponents()
    ensures added { (m n : ℤ) (w u v : Surd) → IsWholePower m w u → IsWholePower n w v → IsWholePower (m +ℤ n) w (surd_times u v) }
    ensures multiplied { (m n : ℤ) (w u v : Surd) → IsWholePower m w u → IsWholePower n u v → IsWholePower (m *ℤ n) w v }
    ensures of_a_product { (n : ℤ) (u w v : Surd) → IsWholePower n (surd_times u w) v
        → (p q : Surd) × IsWholePower n u p × IsWholePower n w q × Same v (surd_times p q) }
{}

/// A surd that is the same as a meaning is one too.
#[tactic(auto, using(crate::proofs::MeaningLaws::meanings))]
pub fn meanings_are_closed()
    ensures { (t : Tree) (f : Assignment) (v w : Surd) → Means t f v → Same v w → Means t f w }
{}

/// A tree has at most one meaning under an assignment.
#[tactic(auto, using(crate::proofs::MeaningLaws::meanings))]
pub fn one_meaning()
    ensures { (f : Assignment) (t : Tree) (v w : Surd) → IsAssignment f → Means t f v → Means t f w → Same v w }
{}

/// A Bad tree has no value, and an Easy tree has one exactly where it is not Bad.
#[tactic(auto, using(crate::proofs::BadLaws::bad_has_no_value, crate::proofs::BadLaws::easy_decided))]
pub fn easy_values()
    ensures bad { (t : Tree) (v : Surd) → IsBad t → ¬ (HasValue t v) }
    ensures easy { (t : Tree) → IsEasy t → IsBad t ⊎ ((v : Surd) × HasValue t v) }
{}

/// The order of trees is total, and Equal exactly for identical trees.
#[tactic(auto, using(crate::proofs::TreeOrderLaws::tree_cmp_total, crate::proofs::TreeOrderLaws::tree_cmp_equal, crate::proofs::TreeOrderLaws::tree_cmp_same))]
pub fn trees_are_ordered()
    ensures total { IsTotalOrder tree_cmp }
    ensures identical { (t u : Tree) → (tree_cmp t u ≡ Equal) ↔ (t ≡ u) }
{}

/// A Number means its value under every assignment.
#[tactic(auto, using(crate::proofs::NumberLaws::number_words, crate::proofs::NumberValues::number_means))]
pub fn number_means_its_value()
    ensures { (t : Tree) (f : Assignment) → is_number t ≡ true → Means t f (value t) }
{}

/// The tests for clean radicands, for Numbers and for reduced trees say what their words say.
#[tactic(auto, using(crate::proofs::NumberLaws::clean_words, crate::proofs::NumberLaws::clean_test, crate::proofs::NumberLaws::number_words, crate::proofs::NumberLaws::number_test, crate::proofs::ReducedLaws::reduced_words, crate::proofs::ReducedLaws::reduced_test))]
pub fn tests_say_their_words()
    ensures clean { (r : ℕ) → (is_clean r ≡ true) ↔ IsClean r }
    ensures number { (t : Tree) → (is_number t ≡ true) ↔ IsNumber t }
    ensures reduced { (t : Tree) → (is_reduced t ≡ true) ↔ IsReduced t }
{}

/// A clean radicand below 10^12 is square-free, so each class has at most one.
#[tactic(auto, using(crate::proofs::CleanLaws::is_clean_square_free, crate::proofs::CleanLaws::alike_square_free))]
pub fn clean_radicands()
    ensures square_free { (r d : ℕ) → is_clean r ≡ true → r < 10 ^ 12 → 1 < d → ¬ (d * d ∣ r) }
    ensures one_a_class { (r s : ℕ) → is_clean r ≡ true → is_clean s ≡ true → r < 10 ^ 12 → s < 10 ^ 12 → are_alike r s ≡ true → r ≡ s }
{}

/// Numbers with the same value are one tree, where no radicand reaches 10^12.
pub fn one_number()
    ensures { (t u : Tree) → is_number t ≡ true → is_number u ≡ true
        → ((r : ℕ) → Contains (radicands (value t)) r → r < 10 ^ 12)
        → ((r : ℕ) → Contains (radicands (value u)) r → r < 10 ^ 12)
        → Same (value t) (value u) → t ≡ u }
{}

/// A fraction with denominator 2 is half of an odd whole number, and half of each odd one is such a fraction.
#[tactic(auto, using(crate::proofs::HalfLaws::half_is_odd, crate::proofs::HalfLaws::half_parts))]
pub fn halves_of_odd_numbers()
    ensures odd { (h : Fraction) → h.den ≡ 2 → (int_is_even h.num ≡ false) × (h ≡ lowest h.num 2) }
    ensures each { (n : ℤ) → int_is_even n ≡ false → ((lowest n 2).num ≡ n) × ((lowest n 2).den ≡ 2) }
{}
