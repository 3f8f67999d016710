//! Worked examples of the definitions, each the contract of a function without a body.
#![tactic(auto, unfolding(calc_terms::specs::Gcd::gcd, calc_terms::specs::Fractions::lowest, calc_terms::specs::Fractions::plus, calc_terms::specs::Fractions::times, calc_terms::specs::Fractions::negative, calc_terms::specs::Fractions::zero_fraction, calc_terms::specs::Fractions::one_fraction))]

ghost use Rattle.std.specs.Prelude.{◌≡◌, []};
ghost use Rattle.calc_terms.specs.Examples.{sum, three};
ghost use Rattle.calc_terms.specs.Trees.{add, neg, sub, whole_num};
ghost use Rattle.linear_solve.specs.Checks.{row_checks, side_checks};

/// How many checks come up to a row that does not fit, where m is the largest number: `(m+1)+2`, `2-(1+m)`, `m+1+2`, in which
/// the last node does not fit, and the sides of `-(m+1)=2`.
pub fn checks_up_to_rows_that_do_not_fit()
    ensures in_the_first_term { row_checks [] (sum (sum (whole_num 170141183460469231731687303715884105727) (whole_num 1)) (whole_num 2)) ≡ 3 }
    ensures in_the_second_term { row_checks [] (sub (whole_num 2) (sum (whole_num 1) (whole_num 170141183460469231731687303715884105727))) ≡ 4 }
    ensures at_the_last_node { row_checks [] (add (three (whole_num 170141183460469231731687303715884105727) (whole_num 1) (whole_num 2))) ≡ 4 }
    ensures in_the_left_side { side_checks [] (record { left = neg (sum (whole_num 170141183460469231731687303715884105727) (whole_num 1)); right = whole_num 2 }) ≡ 3 }
{}
