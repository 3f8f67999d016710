//! Worked examples of the rules, each the contract of a function without a body.
ghost use Rattle.std.specs.Prelude.{◌≡◌, pos, negsuc, Some, None, true, false};
ghost use Rattle.calc_terms.specs.Examples.{x, y, z, ratio, root_of, three, sum, product};
ghost use Rattle.calc_terms.specs.Trees.{add, mult, power, root, none, more, whole_num};
ghost use Rattle.power_reduce.specs.PowerAnswers.{has_no_power, has_number_power};
ghost use Rattle.power_reduce.specs.PowerSteps.{rewritten};

/// Powers that are rewritten, and powers that are kept.
#[tactic(auto, unfolding(calc_terms::specs::Gcd::gcd, calc_terms::specs::Fractions::lowest, calc_algebra::specs::Numbers::is_number, calc_algebra::specs::Clean::is_clean, calc_algebra::specs::Clean::left_of, calc_algebra::specs::SquareRoots::square_root, calc_terms::specs::Fractions::zero_fraction, calc_terms::specs::Fractions::one_fraction))]
pub fn powers_rewritten()
    ensures even_root { rewritten (root x) (whole_num 2) ≡ Some (power x (whole_num 1)) }
    ensures negative_even_root { rewritten (root x) (ratio (negsuc 3) 1) ≡ Some (power x (ratio (negsuc 1) 1)) }
    ensures odd_root { rewritten (root x) (whole_num 3) ≡ None }
    ensures power_of_a_power { rewritten (power x (whole_num 2)) (whole_num 3) ≡ Some (power x (product (whole_num 2) (whole_num 3))) }
    ensures opaque_power { rewritten (power x (ratio (pos 1) 3)) (whole_num 2) ≡ None }
    ensures opaque_exponent { rewritten (power x (whole_num 2)) (ratio (pos 1) 3) ≡ None }
    ensures half_exponent { rewritten (power x (whole_num 2)) (ratio (pos 3) 2) ≡ Some (power (root (power x (whole_num 2))) (whole_num 3)) }
    ensures negative_half { rewritten (whole_num 2) (ratio (negsuc 0) 2) ≡ Some (power (root_of 2) (ratio (negsuc 0) 1)) }
    ensures power_of_a_power_to_a_symbol { rewritten (power x (whole_num 2)) y ≡ None }
    ensures power_of_a_product { rewritten (mult (more (whole_num 2) (more (root_of 3) (more x (more y none))))) (whole_num 3)
        ≡ Some (mult (three (power (product (whole_num 2) (root_of 3)) (whole_num 3)) (power x (whole_num 3)) (power y (whole_num 3)))) }
    ensures no_coefficient { rewritten (product x y) (whole_num 2) ≡ Some (product (power x (whole_num 2)) (power y (whole_num 2))) }
    ensures product_to_a_symbol { rewritten (product x y) z ≡ None }
    ensures power_of_a_sum { rewritten (sum x y) (whole_num 2) ≡ None }
    ensures power_of_a_rational { rewritten (whole_num 2) (ratio (pos 1) 3) ≡ None }
    ensures power_of_a_number { rewritten (product (whole_num 2) (root_of 3)) (whole_num 3) ≡ None }
    ensures exponent_zero { rewritten (product x y) (whole_num 0) ≡ None }
    ensures exponent_one { rewritten (product x y) (whole_num 1) ≡ None }
{}

/// Powers that are Undef at once, and others.
#[tactic(auto, unfolding(calc_terms::specs::Gcd::gcd, calc_terms::specs::Fractions::lowest, calc_algebra::specs::Numbers::is_number, calc_algebra::specs::Clean::is_clean, calc_terms::specs::Fractions::zero_fraction, calc_terms::specs::Fractions::one_fraction))]
pub fn powers_undefined()
    ensures zero_to_zero { has_no_power (whole_num 0) (whole_num 0) ≡ true }
    ensures zero_below { has_no_power (whole_num 0) (ratio (negsuc 0) 1) ≡ true }
    ensures zero_above { has_no_power (whole_num 0) (whole_num 1) ≡ false }
    ensures zero_to_a_half { has_no_power (whole_num 0) (ratio (negsuc 0) 2) ≡ false }
    ensures a_symbol { has_no_power x (whole_num 0) ≡ false }
{}

/// Powers of Numbers that are Numbers, and others.
#[tactic(auto, unfolding(calc_terms::specs::Gcd::gcd, calc_terms::specs::Fractions::lowest, calc_algebra::specs::Numbers::is_number, calc_algebra::specs::Clean::is_clean, calc_algebra::specs::Clean::left_of, calc_algebra::specs::SquareRoots::square_root, calc_terms::specs::Fractions::zero_fraction, calc_terms::specs::Fractions::one_fraction))]
pub fn numbers_to_powers()
    ensures two_classes { has_number_power (sum (root_of 2) (root_of 3)) (ratio (negsuc 1) 1) ≡ true }
    ensures three_classes { has_number_power (add (three (whole_num 1) (root_of 2) (root_of 3))) (ratio (negsuc 0) 1) ≡ false }
    ensures three_classes_above { has_number_power (add (three (whole_num 1) (root_of 2) (root_of 3))) (whole_num 2) ≡ true }
    ensures no_whole_power { has_number_power (whole_num 2) (ratio (pos 1) 2) ≡ false }
{}
