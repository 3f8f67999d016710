//! Laws of denominators and masses, each the contract of a function without a body.

ghost use Rattle.std.specs.Prelude.{ℕ, suc, ◌≡◌, ◌+◌, ◌*◌, ◌^◌, ◌≤◌, ◌<◌, min, ℤ, nat_abs, [], ◌∷◌, ◌++◌, true};
ghost use Rattle.std.specs.Int.{◌∣◌};
ghost use Rattle.calc_terms.specs.Fractions.{Fraction, lowest, plus, times, whole_fraction};
ghost use Rattle.calc_terms.specs.Fits.{fraction_power, add_op, mul_op, pow_op, operation_fits};
ghost use Rattle.calc_terms.specs.Trees.{Tree, Trees};
ghost use Rattle.calc_algebra.specs.Numbers.{AreTerms, Rises, is_number, terms_of, value};
ghost use Rattle.calc_algebra.specs.SquareClasses.{Same};
ghost use Rattle.calc_algebra.specs.Surds.{Term, Surd, surd_times, surd_power};
ghost use Rattle.calc_bits.specs.Bounds.{IsNoLarger, IsNoLargerThanPower, SharesPowers};
ghost use Rattle.calc_bits.specs.Denominators.{Parts, SharesDenominators, magnitude_over};
ghost use Rattle.calc_bits.specs.Masses.{root_above, mass_from, IsHeld, IsHeldByOne};

/// The number that its definition computes is the least whose square is at least n.
pub fn computed_roots()
    ensures enough { (n : ℕ) → n ≤ root_above n * root_above n }
    ensures least { (n u : ℕ) → n ≤ u * u → root_above n ≤ u }
{}

/// Denominators of sums, products and powers.
pub fn denominators_of_results()
    ensures sums { (a b : Fraction) (d : ℕ) → 0 < d → a.den ∣ d → b.den ∣ d → (plus a b).den ∣ d }
    ensures products { (a b : Fraction) (d e : ℕ) → a.den ∣ d → b.den ∣ e → (times a b).den ∣ d * e }
    ensures whole_multiples { (a : Fraction) (n : ℤ) (d : ℕ) → a.den ∣ d → (times a (whole_fraction n)).den ∣ d }
    ensures powers { (a : Fraction) (d n : ℕ) → a.den ∣ d → (fraction_power a n).den ∣ d ^ n }
{}

/// Which operations on rationals fit: sums whose magnitudes add up to less than 2^127 over any common denominator that fits,
/// and products and powers that are the quotient of any two numbers that fit.
pub fn what_fits()
    ensures sums { (a b : Fraction) (d : ℕ) → 0 < d → a.den ∣ d → b.den ∣ d → d < 2 ^ 127
        → magnitude_over d a + magnitude_over d b < 2 ^ 127 → operation_fits add_op a b ≡ true }
    ensures products { (a b : Fraction) (n : ℤ) (d : ℕ) → 0 < d → times a b ≡ lowest n d → nat_abs n < 2 ^ 127 → d < 2 ^ 127
        → operation_fits mul_op a b ≡ true }
    ensures powers { (a b : Fraction) (n : ℤ) (d : ℕ) → 0 < d → fraction_power a (nat_abs b.num) ≡ lowest n d → nat_abs n < 2 ^ 127
        → d < 2 ^ 127 → operation_fits pow_op a b ≡ true }
{}

/// What a common denominator of surds is to their sums, products and powers, and to its multiples.
pub fn denominators_of_surds()
    ensures multiples { (j d : ℕ) (v : Surd) → 0 < j → Parts d v → Parts (j * d) v }
    ensures sums { (d : ℕ) (v w : Surd) → Parts d v → Parts d w → Parts d (v ++ w) }
    ensures products { (d e : ℕ) (v w : Surd) → Parts d v → Parts e w → Parts (d * e) (surd_times v w) }
    ensures powers { (d : ℕ) (v : Surd) (n : ℕ) → Parts d v → Parts (d ^ n) (surd_power v n) }
{}

/// Masses over multiples, and of sums, products and powers. With m at e they are masses, and with m at 0 they count each
/// term by its magnitude alone.
pub fn masses_of_surds()
    ensures multiples { (j m e : ℕ) (v : Surd) → Parts e v → mass_from (j * m) (j * e) v ≤ j * mass_from m e v }
    ensures sums { (m e : ℕ) (v w : Surd) → mass_from m e (v ++ w) ≡ mass_from m e v + mass_from m e w }
    ensures products { (m n d e : ℕ) (v w : Surd) → Parts d v → Parts e w
        → mass_from (m * n) (d * e) (surd_times v w) ≤ mass_from m d v * mass_from n e w }
    ensures powers { (m e : ℕ) (v : Surd) (n : ℕ) → Parts e v → mass_from (m ^ n) (e ^ n) (surd_power v n) ≤ mass_from m e v ^ n }
{}

/// A Number has no more mass than a list of terms that is the same; k makes up for a denominator that is finer.
pub fn numbers_have_least_mass()
    ensures { (m k e : ℕ) (t : Tree) (v : Surd) → is_number t ≡ true → Same (value t) v → Parts e v → Parts (k * e) (value t)
        → mass_from (k * m) (k * e) (value t) ≤ k * mass_from m e v }
{}

/// What holds surds, and their sums, products and powers.
pub fn what_is_held()
    ensures by_both { (v : Surd) (h k l n : ℕ) → IsHeld v h l → IsHeld v k n → IsHeld v (min h k) (min l n) }
    ensures sums { (v w : Surd) (h k l n g : ℕ) → IsHeld v h l → IsHeld w k n → 2 ^ h + 2 ^ k ≤ 2 ^ g → IsHeld (v ++ w) g (l + n) }
    ensures products { (v w : Surd) (h k l n : ℕ) → IsHeld v h l → IsHeld w k n → IsHeld (surd_times v w) (h + k) (l + n) }
    ensures powers { (v : Surd) (h l n : ℕ) → IsHeld v h l → IsHeld (surd_power v n) (n * h) (n * l) }
{}

/// The same by one denominator, each term counted by its magnitude alone.
pub fn what_is_held_by_one()
    ensures sums { (v w : Surd) (h k l n g : ℕ) → IsHeldByOne v h l → IsHeldByOne w k n → 2 ^ h + 2 ^ k ≤ 2 ^ g → IsHeldByOne (v ++ w) g (l + n) }
    ensures products { (v w : Surd) (h k l n : ℕ) → IsHeldByOne v h l → IsHeldByOne w k n → IsHeldByOne (surd_times v w) (h + k) (l + n) }
    ensures powers { (v : Surd) (h l n : ℕ) → IsHeldByOne v h l → IsHeldByOne (surd_power v (suc n)) (suc n * h) (suc n * l) }
{}

/// Terms that rise, as those of a Number or of a sum in the making, and a list that is the same, whose common denominators
/// are theirs: they have no more mass and are held as it is, also with more terms behind both.
pub fn same_terms_are_held()
    ensures mass { (m e : ℕ) (ts : Trees) (v : Surd) → AreTerms ts → Rises (terms_of ts) → Same (terms_of ts) v
        → Parts e v → Parts e (terms_of ts) → mass_from m e (terms_of ts) ≤ mass_from m e v }
    ensures held { (ts : Trees) (v : Surd) (h l : ℕ) → AreTerms ts → Rises (terms_of ts) → Same (terms_of ts) v
        → ((d : ℕ) → Parts d v → Parts d (terms_of ts)) → IsHeld v h l → IsHeld (terms_of ts) h l }
    ensures by_one { (ts : Trees) (v : Surd) (h l : ℕ) → AreTerms ts → Rises (terms_of ts) → Same (terms_of ts) v
        → ((d : ℕ) → Parts d v → Parts d (terms_of ts)) → IsHeldByOne v h l → IsHeldByOne (terms_of ts) h l }
    ensures with_more { (ts : Trees) (v w : Surd) (h l : ℕ) → AreTerms ts → Rises (terms_of ts) → Same (terms_of ts) v
        → ((d : ℕ) → Parts d v → Parts d (terms_of ts)) → IsHeld (v ++ w) h l → IsHeld (terms_of ts ++ w) h l }
    ensures without_more { (u v w : Surd) → Same (u ++ w) (v ++ w) → Same u v }
{}

/// The same of Numbers.
pub fn same_numbers_are_held()
    ensures mass { (m e : ℕ) (t : Tree) (v : Surd) → is_number t ≡ true → Same (value t) v
        → Parts e v → Parts e (value t) → mass_from m e (value t) ≤ mass_from m e v }
    ensures held { (t : Tree) (v : Surd) (h l : ℕ) → is_number t ≡ true → Same (value t) v
        → ((d : ℕ) → Parts d v → Parts d (value t)) → IsHeld v h l → IsHeld (value t) h l }
    ensures by_one { (t : Tree) (v : Surd) (h l : ℕ) → is_number t ≡ true → Same (value t) v
        → ((d : ℕ) → Parts d v → Parts d (value t)) → IsHeldByOne v h l → IsHeldByOne (value t) h l }
{}

/// Numbers that are the same as a list, or as a power of one, over its common denominators or their powers, are no larger.
pub fn same_numbers_are_no_larger()
    ensures lists { (t : Tree) (v : Surd) → is_number t ≡ true → Same (value t) v → SharesDenominators v (value t) → IsNoLarger v (value t) }
    ensures powers { (t : Tree) (v : Surd) (n : ℕ) → 1 ≤ n → is_number t ≡ true → Same (value t) (surd_power v n) → SharesPowers v n (value t)
        → IsNoLargerThanPower v n (value t) }
{}

/// Terms that rise, and with more terms behind are the same as a whole over its common denominators: with these they are held
/// as the whole is.
pub fn sums_so_far_are_held()
    ensures { (ts : Trees) (v w : Surd) (h l : ℕ) → AreTerms ts → Rises (terms_of ts) → Same (terms_of ts ++ w) (v ++ w)
        → SharesDenominators (v ++ w) (terms_of ts ++ w) → IsHeld (v ++ w) h l → IsHeld (terms_of ts ++ w) h l }
{}

/// Parts of what is held are held as it is: its front, its end, and a term of each.
pub fn parts_of_what_is_held()
    ensures front { (v w : Surd) (h l : ℕ) → IsHeld (v ++ w) h l → IsHeld v h l }
    ensures end { (v w : Surd) (h l : ℕ) → IsHeld (v ++ w) h l → IsHeld w h l }
    ensures pair { (u : Surd) (a : Term) (v w : Surd) (b : Term) (x : Surd) (h l : ℕ) → IsHeld ((u ++ (a ∷ v)) ++ (w ++ (b ∷ x))) h l
        → IsHeld (a ∷ b ∷ []) h l }
{}

/// What a term that is held has of denominator and, over any common denominator, of magnitude.
pub fn one_term_that_is_held()
    ensures square { (t : Term) (h l : ℕ) → IsHeld (t ∷ []) h l → (d : ℕ) → Parts d (t ∷ [])
        → magnitude_over d t.coefficient * magnitude_over d t.coefficient * t.radicand ≤ (d * 2 ^ h) * (d * 2 ^ h) }
    ensures denominator { (t : Term) (h l : ℕ) → IsHeld (t ∷ []) h l → t.coefficient.den ≤ 2 ^ l }
{}
