//! Worked examples of the definitions, each the contract of a function without a body.

ghost use Rattle.std.specs.Prelude.{◌≡◌, pos};
ghost use Rattle.calc_terms.specs.Fractions.{minus_one_fraction, whole_fraction, quotient};
ghost use Rattle.calc_terms.specs.Trees.{num, undef, mult, power, root, neg, sub, div, whole_num, size, depth, nodes};
ghost use Rattle.calc_measures.specs.Measures.{room, high, low, bits};
ghost use Rattle.calc_measures.specs.Loads.{nest, weight, load};
ghost use Rattle.calc_terms.specs.Fits.{mul_op, pow_op};
ghost use Rattle.calc_measures.specs.PlainOverflows.{nodes_to_overflow};
ghost use Rattle.calc_measures.specs.PlainValues.{plain_value, exactly, undefined, overflow, nothing};
ghost use Rattle.calc_terms.specs.Examples.{x, y, z, root_of, three, sum, product, third_and_sixth, one_over_two_roots};

/// The measures of `1/3+1/6`.
pub fn a_sum_measured()
    ensures nodes { nodes third_and_sixth ≡ 7 }
    ensures depth { depth third_and_sixth ≡ 3 }
    ensures size { size third_and_sixth ≡ 88 }
    ensures room { room third_and_sixth ≡ 7168 }
    ensures high { high third_and_sixth ≡ 5 }
    ensures low { low third_and_sixth ≡ 10 }
    ensures bits { bits third_and_sixth ≡ 50 }
{}

/// The measures of `1/(√(2)+√(3))`.
pub fn an_inverse_measured()
    ensures nodes { nodes one_over_two_roots ≡ 7 }
    ensures room { room one_over_two_roots ≡ 28672 }
    ensures high { high one_over_two_roots ≡ 4 }
    ensures low { low one_over_two_roots ≡ 6 }
    ensures bits { bits one_over_two_roots ≡ 32 }
{}

/// The measures of powers.
pub fn powers_measured()
    ensures a_negative_power { high (power (div (whole_num 2) (whole_num 3)) (neg (whole_num 3))) ≡ 33 }
    ensures its_denominator { low (power (div (whole_num 2) (whole_num 3)) (neg (whole_num 3))) ≡ 42 }
    ensures a_half { bits (power (whole_num 4) (div (whole_num 3) (whole_num 2))) ≡ 14 }
    ensures its_room { room (power (whole_num 4) (div (whole_num 3) (whole_num 2))) ≡ 10240 }
    ensures a_negative_half { high (power (whole_num 4) (neg (div (whole_num 1) (whole_num 2)))) ≡ 2 }
    ensures a_half_as_one_number { room (power x (num (quotient 1 2))) ≡ 6144 }
    ensures no_half { room (power x (div (whole_num 2) (whole_num 2))) ≡ 4294967295 }
    ensures a_computed_exponent { room (power x (sum (whole_num 1) (whole_num 1))) ≡ 4294967295 }
    ensures its_bits { bits (power x (sum (whole_num 1) (whole_num 1))) ≡ 125 }
    ensures no_literal { bits (power x (neg (neg (whole_num 2)))) ≡ 125 }
    ensures a_symbol_as_exponent { room (power x y) ≡ 3072 }
    ensures nested_exponents { nest (power x (power y z)) ≡ 2 }
    ensures a_number_as_exponent { nest (power x (whole_num 2)) ≡ 0 }
    ensures a_weight { weight (mult (three (whole_num 2) x y)) ≡ 7 }
    ensures the_weight_of_roots { weight (root (root x)) ≡ 4 }
    ensures a_load { load (mult (three (root_of 3) (power x (whole_num 2)) y)) ≡ 4 }
    ensures the_load_of_a_number { load (product (whole_num 2) (root_of 3)) ≡ 0 }
{}

/// Plain values.
pub fn plain_values()
    ensures a_sum { plain_value third_and_sixth ≡ exactly (quotient 1 2) }
    ensures a_difference { plain_value (sub (whole_num 2) (whole_num 3)) ≡ exactly minus_one_fraction }
    ensures an_inverse_power { plain_value (power (div (whole_num 2) (whole_num 3)) (neg (whole_num 40)))
        ≡ exactly (quotient 12157665459056928801 1099511627776) }
    ensures a_division_by_zero { plain_value (div (whole_num 1) (whole_num 0)) ≡ undefined }
    ensures zero_to_the_zero { plain_value (power (whole_num 0) (whole_num 0)) ≡ undefined }
    ensures zero_to_a_negative { plain_value (power (whole_num 0) (neg (whole_num 1))) ≡ undefined }
    ensures undefined_in_a_sum { plain_value (sum undef (whole_num 1)) ≡ undefined }
    ensures a_product_overflows { plain_value (mult (three (power (whole_num 2) (whole_num 126)) (whole_num 2) (whole_num 3)))
        ≡ overflow mul_op (whole_fraction (pos 85070591730234615865843651857942052864)) (whole_fraction (pos 2)) }
    ensures a_power_overflows { plain_value (power (whole_num 2) (whole_num 127))
        ≡ overflow pow_op (whole_fraction (pos 2)) (whole_fraction (pos 127)) }
    ensures an_inverse_power_overflows { plain_value (power (div (whole_num 2) (whole_num 3)) (neg (whole_num 200)))
        ≡ overflow pow_op (quotient 3 2) (whole_fraction (pos 200)) }
    ensures an_overflow_behind_undefined { plain_value (product (div (whole_num 1) (whole_num 0)) (power (whole_num 2) (whole_num 127)))
        ≡ overflow pow_op (whole_fraction (pos 2)) (whole_fraction (pos 127)) }
    ensures a_broken_exponent { plain_value (power (whole_num 2) (div (whole_num 1) (whole_num 2))) ≡ nothing }
    ensures a_symbol { plain_value (sum (div (whole_num 1) (whole_num 0)) x) ≡ nothing }
    ensures a_root { plain_value (root_of 4) ≡ nothing }
{}

/// How many nodes stand up to an overflow, children before their parent: `2^127+1`, `1+2^127`, `(1/0)×2^127×2` and
/// `2^126×2×3`, of which the last node overflows.
pub fn nodes_up_to_overflows()
    ensures in_the_first_term { nodes_to_overflow (sum (power (whole_num 2) (whole_num 127)) (whole_num 1)) ≡ 3 }
    ensures in_the_second_term { nodes_to_overflow (sum (whole_num 1) (power (whole_num 2) (whole_num 127))) ≡ 4 }
    ensures behind_undefined { nodes_to_overflow (mult (three (div (whole_num 1) (whole_num 0)) (power (whole_num 2) (whole_num 127)) (whole_num 2))) ≡ 6 }
    ensures at_the_last_node { nodes_to_overflow (mult (three (power (whole_num 2) (whole_num 126)) (whole_num 2) (whole_num 3))) ≡ 6 }
{}
