//! Worked examples of the definitions, each the contract of a function without a body.

ghost use Rattle.std.specs.Prelude.{◌≡◌, pos, negsuc, ◌++◌, codes};
ghost use Rattle.calc_terms.specs.Trees.{symbol, add, mult, power, root, neg, sub, div, whole_num};
ghost use Rattle.calc_language.specs.Tokens.{times_sign, root_sign};
ghost use Rattle.calc_language.specs.Reads.{Reads, Stores};
ghost use Rattle.calc_language.specs.Texts.{text as text_of};
ghost use Rattle.calc_language.specs.Faces.{face};
ghost use Rattle.calc_terms.specs.Examples.{x, y, z, ratio, root_of, three, sum, product};

/// What lines read as.
pub fn lines_read()
    ensures implicit_product { Reads (codes "2x*y") (product (product (whole_num 2) x) y) }
    ensures implicit_before_quotient { Reads (codes "1/2x") (div (whole_num 1) (product (whole_num 2) x)) }
    ensures one_sum { Reads (codes "x+y+z") (add (three x y z)) }
    ensures parentheses_end_a_sum { Reads (codes "(x+y)+z") (sum (sum x y) z) }
    ensures difference_then_sum { Reads (codes "x-y+z") (sum (sub x y) z) }
    ensures powers_from_the_right { Reads (codes "2^3^2") (power (whole_num 2) (power (whole_num 3) (whole_num 2))) }
    ensures minus_before_a_power { Reads (codes "-2^2") (neg (power (whole_num 2) (whole_num 2))) }
    ensures minus_in_an_exponent { Reads (codes "1 - 2x^-y") (sub (whole_num 1) (product (whole_num 2) (power x (neg y)))) }
    ensures decimals { Reads (codes "sqrt(0.50)") (root (ratio (pos 1) 2)) }
    ensures a_name { Reads (codes "sqrt2") (symbol (codes "sqrt2")) }
    ensures a_store { Stores (codes "x+1->y") (sum x (whole_num 1)) (codes "y") }
{}

/// The texts of trees.
pub fn trees_written()
    ensures parentheses { text_of (product (power (whole_num 2) (neg x)) (sum x y))
        ≡ codes "2^-x" ++ times_sign ++ codes "(x+y)" }
    ensures a_difference_in_front { text_of (sum (sub x y) z) ≡ codes "x-y+z" }
    ensures a_difference_behind { text_of (sum x (sub y z)) ≡ codes "x+(y-z)" }
    ensures a_quotient_below { text_of (div x (div y z)) ≡ codes "x/(y/z)" }
    ensures a_power_of_a_power { text_of (power (power x y) z) ≡ codes "(x^y)^z" }
    ensures the_largest_number { text_of (whole_num 170141183460469231731687303715884105727)
        ≡ codes "170141183460469231731687303715884105727" }
{}

/// The texts of the faces of reduced trees.
pub fn faces_written()
    ensures a_negative { text_of (face (ratio (negsuc 3) 1)) ≡ codes "-4" }
    ensures the_root_of_a_quadratic { text_of (face (sum (ratio (negsuc 2) 4) (product (ratio (pos 1) 4) (root_of 17))))
        ≡ codes "-3/4+" ++ root_sign ++ codes "(17)/4" }
    ensures two_roots { text_of (face (sum (product (ratio (negsuc 0) 1) (root_of 2)) (root_of 3)))
        ≡ codes "-" ++ root_sign ++ codes "(2)+" ++ root_sign ++ codes "(3)" }
    ensures three_classes { text_of (face (power (add (three (whole_num 1) (root_of 2) (root_of 3))) (ratio (negsuc 0) 1)))
        ≡ codes "1/(1+" ++ root_sign ++ codes "(2)+" ++ root_sign ++ codes "(3))" }
    ensures a_wide_coefficient { text_of (face (product (sum (whole_num 1) (root_of 2)) x))
        ≡ codes "(1+" ++ root_sign ++ codes "(2))" ++ times_sign ++ codes "x" }
    ensures a_half { text_of (face (product (ratio (pos 1) 2) (root x))) ≡ root_sign ++ codes "(x)/2" }
    ensures below_the_line { text_of (face (mult (three (ratio (negsuc 1) 3) x (power y (ratio (negsuc 1) 1)))))
        ≡ codes "-2" ++ times_sign ++ codes "x/(3" ++ times_sign ++ codes "y^2)" }
    ensures a_difference { text_of (face (sum (mult (three (whole_num 2) x (sum (whole_num 1) x))) (product (ratio (negsuc 1) 1) (power x (whole_num 2)))))
        ≡ codes "2" ++ times_sign ++ codes "x" ++ times_sign ++ codes "(1+x)-2" ++ times_sign ++ codes "x^2" }
{}
