//! Worked examples of the definitions, each the contract of a function without a body.
#![tactic(auto, unfolding(crate::specs::Reduced::is_reduced, crate::specs::Numbers::is_number, crate::specs::Clean::is_clean, crate::specs::Clean::left_of, crate::specs::SquareRoots::square_root, calc_terms::specs::Gcd::gcd, calc_terms::specs::Fractions::lowest, calc_terms::specs::Fractions::one_fraction, calc_terms::specs::Fractions::zero_fraction))]

ghost use Rattle.std.specs.Prelude.{◌≡◌, pos, negsuc, [], ◌∷◌, true, false, codes};
ghost use Rattle.std.specs.declared.cmp.Ordering.TheVariants.{Less, Equal};
ghost use Rattle.calc_terms.specs.Fractions.{one_fraction, minus_one_fraction, whole_fraction, quotient};
ghost use Rattle.calc_terms.specs.Trees.{symbol, undef, add, mult, power, root, neg, sub, div, more, whole_num};
ghost use Rattle.calc_algebra.specs.TreeOrder.{tree_cmp};
ghost use Rattle.calc_algebra.specs.Surds.{Surd, term};
ghost use Rattle.calc_algebra.specs.SquareClasses.{Same};
ghost use Rattle.calc_algebra.specs.Meanings.{Assignment, Means};
ghost use Rattle.calc_algebra.specs.Clean.{is_clean};
ghost use Rattle.calc_algebra.specs.Reduced.{is_reduced};
ghost use Rattle.calc_terms.specs.Examples.{x, y, z, ratio, root_of, three, sum, product, one_over_two_roots};

/// The order of trees.
pub fn trees_compared()
    ensures by_kind { tree_cmp (whole_num 9) x ≡ Less }
    ensures by_value { tree_cmp (ratio (pos 1) 3) (ratio (pos 1) 2) ≡ Less }
    ensures a_prefix_first { tree_cmp x (symbol (codes "x1")) ≡ Less }
    ensures from_the_left { tree_cmp (sum x z) (sum y x) ≡ Less }
    ensures fewer_children_first { tree_cmp (sum x y) (add (three x y z)) ≡ Less }
    ensures identical { tree_cmp (sum x y) (sum x y) ≡ Equal }
{}

/// Clean radicands, and others.
pub fn radicands_tested()
    ensures square_free { is_clean 30 ≡ true }
    ensures a_square_divides { is_clean 18 ≡ false }
    ensures a_square_above_the_trial_divisors { is_clean 200280098 ≡ false }
    ensures a_square_that_is_not_seen { is_clean 1002301750441 ≡ true }
    ensures the_largest_number { is_clean 170141183460469231731687303715884105727 ≡ true }
{}

/// Reduced trees.
pub fn reduced_trees()
    ensures undefined { is_reduced undef ≡ true }
    ensures a_rational { is_reduced (ratio (negsuc 0) 2) ≡ true }
    ensures a_number { is_reduced (sum (whole_num 5) (product (whole_num 2) (root_of 6))) ≡ true }
    ensures a_symbol { is_reduced x ≡ true }
    ensures a_root { is_reduced (root x) ≡ true }
    ensures a_power { is_reduced (power x (whole_num 2)) ≡ true }
    ensures an_odd_power_of_a_root { is_reduced (power (root x) (whole_num 3)) ≡ true }
    ensures a_wide_inverse { is_reduced (power (add (three (whole_num 1) (root_of 2) (root_of 3))) (ratio (negsuc 0) 1))
        ≡ true }
    ensures a_symbol_as_exponent { is_reduced (power (product (whole_num 2) (root_of 3)) x) ≡ true }
    ensures an_opaque_power { is_reduced (power (power x (whole_num 2)) (ratio (pos 1) 3)) ≡ true }
    ensures a_power_to_a_symbol { is_reduced (power (power x (whole_num 2)) y) ≡ true }
    ensures a_product_to_a_symbol { is_reduced (power (product x y) z) ≡ true }
    ensures a_sum { is_reduced (add (more (whole_num 1) (three (root_of 2) x (mult (three (whole_num 2) (root_of 3) (power x (ratio (negsuc 1) 1)))))))
        ≡ true }
    ensures a_product { is_reduced (mult (three (whole_num 2) x (power (sum (whole_num 1) x) (ratio (negsuc 0) 1))))
        ≡ true }
    ensures a_wide_coefficient { is_reduced (product (sum (whole_num 1) (root_of 2)) x) ≡ true }
    ensures an_irrational_before_a_sum { is_reduced (product (root_of 2) (sum x y)) ≡ true }
{}

/// Trees that are not reduced, a rule of reduction for each.
pub fn other_trees()
    ensures a_difference { is_reduced (sub x y) ≡ false }
    ensures a_quotient { is_reduced (div x y) ≡ false }
    ensures a_minus { is_reduced (neg x) ≡ false }
    ensures undefined_in_a_tree { is_reduced (root undef) ≡ false }
    ensures a_root_that_is_not_clean { is_reduced (root_of 8) ≡ false }
    ensures a_root_of_a_ratio { is_reduced (root (ratio (pos 1) 2)) ≡ false }
    ensures falling_radicands { is_reduced (sum (root_of 3) (root_of 2)) ≡ false }
    ensures the_power_1 { is_reduced (power x (whole_num 1)) ≡ false }
    ensures the_power_0 { is_reduced (power x (whole_num 0)) ≡ false }
    ensures a_power_of_a_product { is_reduced (power (product x y) (whole_num 2)) ≡ false }
    ensures a_power_of_a_power { is_reduced (power (power x (whole_num 2)) (whole_num 3)) ≡ false }
    ensures an_even_power_of_a_root { is_reduced (power (root x) (whole_num 2)) ≡ false }
    ensures a_power_of_a_number { is_reduced (power (whole_num 2) (whole_num 3)) ≡ false }
    ensures an_inverse_of_two_classes { is_reduced (power (sum (whole_num 1) (root_of 2)) (ratio (negsuc 0) 1)) ≡ false }
    ensures a_half_as_exponent { is_reduced (power x (ratio (pos 1) 2)) ≡ false }
    ensures a_sum_in_a_sum { is_reduced (sum x (sum y z)) ≡ false }
    ensures the_number_behind { is_reduced (sum x (whole_num 1)) ≡ false }
    ensures a_zero_in_front { is_reduced (sum (whole_num 0) x) ≡ false }
    ensures terms_alike { is_reduced (sum x (product (whole_num 2) x)) ≡ false }
    ensures a_product_in_a_product { is_reduced (product x (product y z)) ≡ false }
    ensures the_coefficient_behind { is_reduced (product x (whole_num 2)) ≡ false }
    ensures the_coefficient_1 { is_reduced (product (whole_num 1) x) ≡ false }
    ensures the_coefficient_0 { is_reduced (product (whole_num 0) x) ≡ false }
    ensures bases_alike { is_reduced (product x (power x (whole_num 2))) ≡ false }
    ensures a_rational_before_a_sum { is_reduced (product (whole_num 2) (sum x y)) ≡ false }
{}

/// Equal surds, and others.
pub fn surds_compared()
    ensures one_class { Same (term one_fraction 8 ∷ []) (term (whole_fraction (pos 2)) 2 ∷ []) }
    ensures another_order { Same (term one_fraction 2 ∷ term one_fraction 3 ∷ []) (term one_fraction 12 ∷ term one_fraction 2 ∷ term minus_one_fraction 3 ∷ []) }
    ensures zero { Same (term one_fraction 2 ∷ term minus_one_fraction 2 ∷ []) [] }
    ensures two_classes { ¬ (Same (term one_fraction 2 ∷ []) (term one_fraction 3 ∷ [])) }
{}

/// Meanings, and trees without one.
pub fn meanings_found()
    ensures an_inverse { (f : Assignment) → Means one_over_two_roots f (term minus_one_fraction 2 ∷ term one_fraction 3 ∷ []) }
    ensures a_root_of_a_ratio { (f : Assignment) → Means (root (ratio (pos 1) 2)) f (term (quotient 1 2) 2 ∷ []) }
    ensures a_power_of_a_root { (f : Assignment) → Means (power (whole_num 4) (ratio (pos 3) 2)) f (term (whole_fraction (pos 8)) 1 ∷ []) }
    ensures zero_to_the_zero { (f : Assignment) (v : Surd) → ¬ (Means (power (whole_num 0) (whole_num 0)) f v) }
    ensures a_root_of_a_negative { (f : Assignment) (v : Surd) → ¬ (Means (root (ratio (negsuc 0) 1)) f v) }
    ensures a_negative_to_a_half { (f : Assignment) (v : Surd) → ¬ (Means (power (ratio (negsuc 3) 1) (ratio (pos 1) 2)) f v) }
    ensures zero_to_a_negative_half { (f : Assignment) (v : Surd) → ¬ (Means (power (whole_num 0) (ratio (negsuc 0) 2)) f v) }
    ensures undefined { (f : Assignment) (v : Surd) → ¬ (Means undef f v) }
{}
