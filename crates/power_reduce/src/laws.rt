//! Laws of one step on a power, each the contract of a function without a body.
ghost use Rattle.std.specs.Prelude.{◌≡◌, ◌≤◌, ◌+◌, ◌&&◌, ◌||◌, true, false, Some, None};
ghost use Rattle.calc_terms.specs.Integers.{int_is_negative};
ghost use Rattle.calc_measures.specs.Loads.{load, weight};
ghost use Rattle.calc_algebra.specs.Numbers.{is_number, classes};
ghost use Rattle.calc_algebra.specs.Reduced.{is_reduced, is_half_num, is_whole_num, is_opaque_exponent, num_one};
ghost use Rattle.calc_terms.specs.Trees.{Tree, Trees, num, mult, power, undef, is_root, is_undef};
ghost use Rattle.calc_room.specs.Counts.{counted};
ghost use Rattle.tree_room.specs.Handed.{counted_in_all};
ghost use Rattle.calc_terms.specs.Fractions.{Fraction, one_fraction, whole_fraction, zero_fraction};
ghost use Rattle.power_reduce.specs.PowerAnswers.{has_no_power, IsWrittenPower, IsPowerAnswer};
ghost use Rattle.power_reduce.specs.PowerRules.{IsByRule, IsRewritable};
ghost use Rattle.power_reduce.specs.PowerSteps.{is_zero_or_one, parts_of, power_of_root, rewritten};
ghost use Rattle.number_forms.specs.Readers.{numerator};
ghost use Rattle.calc_algebra.specs.Rewritings.{Rewrites, Reduces, KeepsMeanings};

/// A rewriting keeps every meaning and has no new name.
pub fn rewriting_keeps_meanings()
    ensures { (b e t : Tree) → rewritten b e ≡ Some t → Rewrites (power b e) t }
{}

/// With half of an odd whole number n as its exponent a power is the power n of a root. No rule rewrites that one once
/// its root is reduced.
#[tactic(auto, using(crate::proofs::Cases::root_once, crate::proofs::Exponents::by_half))]
pub fn halves_are_powers_of_roots()
    ensures rewritten { (b e : Tree) → is_half_num e ≡ true → is_undef b ≡ false → rewritten b e ≡ Some (power_of_root b e) }
    ensures once { (r e : Tree) → is_half_num e ≡ true → (is_undef r || is_number r || is_root r) ≡ true
        → rewritten r (num (whole_fraction (numerator e))) ≡ None }
{}

/// The parts of a product that is no Number, whose powers a rewriting multiplies, count 1 more at most than the product, though
/// its coefficient counts 1 there.
#[tactic(auto, using(crate::proofs::Counted::parts_counted))]
pub fn parts_are_counted()
    ensures { (ts : Trees) → is_reduced (mult ts) ≡ true → is_number (mult ts) ≡ false → counted_in_all (parts_of ts) ≤ 1 + counted (mult ts) }
{}

/// Any other rewriting is by one of three rules, and each leaves trees that are reduced, weigh less and nest no more.
#[tactic(auto, using(crate::proofs::ByRule::by_rule))]
pub fn rewritings_are_by_rule()
    ensures { (b e t : Tree) → is_half_num e ≡ false → is_reduced b ≡ true → rewritten b e ≡ Some t → IsByRule b e t }
{}

/// A power that is so rewritten is no Number's, and neither opaque nor Undef at once.
#[tactic(auto, using(crate::proofs::ByRule::is_rewritable))]
pub fn rewritten_powers_are_transparent()
    ensures { (b e t : Tree) → is_half_num e ≡ false → rewritten b e ≡ Some t → IsRewritable b e }
{}

/// A power that no rule changes is reduced: none that is rewritten, whose exponent is 0 or 1, or that is a
/// whole power of a Number.
#[tactic(auto, using(crate::proofs::Kept::reduced_power, crate::proofs::Kept::kept_form))]
pub fn other_powers_are_reduced()
    ensures { (b e : Tree) → is_reduced b ≡ true → is_reduced e ≡ true → is_undef b ≡ false → is_undef e ≡ false
        → is_zero_or_one e ≡ false → (is_number b && is_whole_num e) ≡ false → rewritten b e ≡ None
        → is_reduced (power b e) ≡ true }
{}

/// A negative whole power of a Number of three classes or more is reduced.
#[tactic(auto, using(crate::proofs::Kept::wide_power))]
pub fn wide_powers_are_reduced()
    ensures { (b : Tree) (n : Fraction) → is_reduced b ≡ true → is_number b ≡ true → 3 ≤ classes b
        → n.den ≡ 1 → int_is_negative n.num ≡ true → is_reduced (power b (num n)) ≡ true }
{}

/// The power 1 of a reduced tree is that tree, and the power 0 of one is 1.
pub fn powers_one_and_zero()
    ensures one { (b : Tree) → is_reduced b ≡ true → Reduces (power b (num one_fraction)) b }
    ensures zero { (b : Tree) → Reduces (power b (num zero_fraction)) num_one }
{}

/// The load of a tree is at most its weight, and that of a power at most its base's weight, or one more where it
/// is opaque.
#[tactic(auto, using(crate::proofs::Bounds::load_at_most_weight, crate::proofs::Bounds::transparent_load, crate::proofs::Bounds::opaque_load))]
pub fn loads_are_bounded()
    ensures tree { (b : Tree) → load b ≤ weight b }
    ensures transparent { (b e : Tree) → is_opaque_exponent e ≡ false → load (power b e) ≤ weight b }
    ensures opaque { (b e : Tree) → load (power b e) ≤ 1 + weight b }
{}

/// What a power is answered by that no rule rewrites: Undef, 1, the base, a Number of its meaning, or itself.
pub fn answers_are_reduced()
    ensures undef_base { (e : Tree) → IsPowerAnswer undef e undef }
    ensures undef_exponent { (b : Tree) → IsPowerAnswer b undef undef }
    ensures undefined { (b e : Tree) → has_no_power b e ≡ true → KeepsMeanings (power b e) undef → IsPowerAnswer b e undef }
    ensures zero { (b : Tree) → has_no_power b (num zero_fraction) ≡ false → IsPowerAnswer b (num zero_fraction) num_one }
    ensures one { (b : Tree) → is_reduced b ≡ true → is_undef b ≡ false → has_no_power b (num one_fraction) ≡ false
        → IsPowerAnswer b (num one_fraction) b }
    ensures number { (b e t : Tree) → is_number t ≡ true → has_no_power b e ≡ false → KeepsMeanings (power b e) t
        → IsWrittenPower b e t → IsPowerAnswer b e t }
    ensures kept { (b e : Tree) → is_reduced (power b e) ≡ true → has_no_power b e ≡ false → is_zero_or_one e ≡ false
        → IsPowerAnswer b e (power b e) }
{}
