//! Worked examples of the definitions, each the contract of a function without a body.

ghost use Rattle.std.specs.Prelude.{◌≡◌, negsuc, [], ◌∷◌};
ghost use Rattle.calc_terms.specs.Fractions.{whole_fraction, quotient, one_fraction};
ghost use Rattle.calc_terms.specs.Trees.{num, add, mult, power, root, whole_num};
ghost use Rattle.calc_terms.specs.Examples.{x, y, root_of, three, sum, product};
ghost use Rattle.calc_algebra.specs.Surds.{term};
ghost use Rattle.calc_room.specs.Counts.{counted, root_terms};
ghost use Rattle.calc_room.specs.Spans.{IsSpanned, Spans, SpansTree};

/// What 2 and 3 span: 6 and 24, but not 5. 8 spans 2, and 0 spans no more than nothing does.
pub fn spans_found()
    ensures a_product { IsSpanned (2 ∷ 3 ∷ []) 6 }
    ensures times_a_square { IsSpanned (2 ∷ 3 ∷ []) 24 }
    ensures another { ¬ (IsSpanned (2 ∷ 3 ∷ []) 5) }
    ensures by_a_multiple { IsSpanned (8 ∷ []) 2 }
    ensures by_zero { ¬ (IsSpanned (0 ∷ []) 2) }
    ensures a_surd { Spans (2 ∷ 3 ∷ []) (term one_fraction 1 ∷ term one_fraction 6 ∷ []) }
    ensures a_tree { SpansTree (6 ∷ []) (sum x (root (num (quotient 2 3)))) }
{}

/// What counts in `x-y`, `x^y`, `√(x)`, `(1+√2)×x`, `2×√3×x^2`, `√2^(1/3)`, `√(2)` and `1+√2+√3`.
pub fn nodes_counted()
    ensures a_difference { counted (sum x (product (num (whole_fraction (negsuc 0))) y)) ≡ 3 }
    ensures a_power { counted (power x y) ≡ 3 }
    ensures a_root { counted (root x) ≡ 2 }
    ensures a_wide_coefficient { counted (product (sum (whole_num 1) (root_of 2)) x) ≡ 1 }
    ensures a_spliced_coefficient { counted (mult (three (whole_num 2) (root_of 3) (power x (whole_num 2)))) ≡ 1 }
    ensures an_opaque_power { counted (power (root_of 2) (num (quotient 1 3))) ≡ 3 }
    ensures a_number { counted (root_of 2) ≡ 1 }
    ensures a_wide_number { counted (add (three (whole_num 1) (root_of 2) (root_of 3))) ≡ 1 }
    ensures its_roots { root_terms (term one_fraction 1 ∷ term one_fraction 2 ∷ term one_fraction 3 ∷ []) ≡ 2 }
{}
