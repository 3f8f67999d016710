//! Worked examples of the definitions, each the contract of a function without a body.
ghost use Rattle.std.specs.Prelude.{◌≡◌, pos, negsuc, false};
ghost use Rattle.calc_terms.specs.Trees.{mult, power, none, more, whole_num};
ghost use Rattle.calc_terms.specs.Examples.{x, y, z, ratio, root_of, two, three, sum, product};
ghost use Rattle.product_reduce.specs.Factors.{opened, others_in, coefficient_before, coefficient_times};
ghost use Rattle.product_reduce.specs.Joining.{have_partners, joined};

/// The first factor that has a partner is joined with the first of its partners.
#[tactic(auto, unfolding(calc_algebra::specs::Numbers::is_number, calc_algebra::specs::Clean::is_clean, calc_algebra::specs::Clean::left_of, calc_algebra::specs::SquareRoots::square_root, calc_terms::specs::Gcd::gcd, calc_terms::specs::Fractions::lowest, calc_terms::specs::Fractions::one_fraction, calc_terms::specs::Fractions::zero_fraction))]
pub fn factors_joined()
    ensures a_symbol_twice { joined (two x x) ≡ more (power x (sum (whole_num 1) (whole_num 1))) none }
    ensures opposite_powers { joined (two (power x (whole_num 2)) (power x (ratio (negsuc 1) 1)))
        ≡ more (power x (sum (whole_num 2) (ratio (negsuc 1) 1))) none }
    ensures one_pair_of_two { joined (more y (three x y x)) ≡ three (power y (sum (whole_num 1) (whole_num 1))) x x }
    ensures the_nearest_partner { joined (three x (power x y) (power x z)) ≡ two (power x (sum (whole_num 1) y)) (power x z) }
    ensures beside_an_opaque_power { have_partners (two x (power x (ratio (pos 1) 3))) ≡ false }
{}

/// How a coefficient stands before other factors.
#[tactic(auto, unfolding(calc_algebra::specs::Numbers::is_number, calc_algebra::specs::Clean::is_clean, calc_algebra::specs::Clean::left_of, calc_algebra::specs::SquareRoots::square_root, calc_terms::specs::Gcd::gcd, calc_terms::specs::Fractions::lowest, calc_terms::specs::Fractions::one_fraction, calc_terms::specs::Fractions::zero_fraction))]
pub fn coefficients_in_front()
    ensures one { coefficient_before (whole_num 1) (two x y) ≡ two x y }
    ensures a_rational { coefficient_before (whole_num 2) (two x y) ≡ three (whole_num 2) x y }
    ensures one_class { coefficient_before (product (whole_num 2) (root_of 3)) (two x y)
        ≡ more (whole_num 2) (three (root_of 3) x y) }
    ensures two_classes { coefficient_before (sum (whole_num 1) (root_of 2)) (two x y)
        ≡ three (sum (whole_num 1) (root_of 2)) x y }
{}

/// A coefficient times other factors as one tree.
#[tactic(auto, unfolding(calc_algebra::specs::Numbers::is_number, calc_algebra::specs::Clean::is_clean, calc_algebra::specs::Clean::left_of, calc_algebra::specs::SquareRoots::square_root, calc_terms::specs::Gcd::gcd, calc_terms::specs::Fractions::lowest, calc_terms::specs::Fractions::one_fraction, calc_terms::specs::Fractions::zero_fraction, calc_terms::specs::Fractions::times))]
pub fn coefficients_times_factors()
    ensures alone { coefficient_times (whole_num 6) none ≡ whole_num 6 }
    ensures one_is_left_out { coefficient_times (whole_num 1) (more x none) ≡ x }
    ensures a_lone_factor { coefficient_times (whole_num 2) (more x none) ≡ product (whole_num 2) x }
    ensures a_lone_sum { coefficient_times (whole_num 2) (more (sum x y) none) ≡ sum (product (whole_num 2) x) (product (whole_num 2) y) }
    ensures two_sums { coefficient_times (whole_num 2) (two (sum (whole_num 1) x) (sum x y))
        ≡ mult (three (whole_num 2) (sum (whole_num 1) x) (sum x y)) }
    ensures a_root_before_a_sum { coefficient_times (root_of 2) (more (sum x y) none) ≡ product (root_of 2) (sum x y) }
{}

/// Products among the factors are opened, and their Numbers are none of the others.
#[tactic(auto, unfolding(calc_algebra::specs::Numbers::is_number, calc_algebra::specs::Clean::is_clean, calc_algebra::specs::Clean::left_of, calc_algebra::specs::SquareRoots::square_root, calc_terms::specs::Gcd::gcd, calc_terms::specs::Fractions::lowest, calc_terms::specs::Fractions::one_fraction, calc_terms::specs::Fractions::zero_fraction))]
pub fn products_opened()
    ensures factors { opened (two (product (whole_num 2) x) (product (whole_num 3) y))
        ≡ more (whole_num 2) (three x (whole_num 3) y) }
    ensures others { others_in (more (whole_num 2) (three x (whole_num 3) y)) ≡ two x y }
{}
