//! Worked examples of the definitions, each the contract of a function without a body.

ghost use Rattle.std.specs.Prelude.{◌≡◌};
ghost use Rattle.calc_measures.specs.Measures.{room};
ghost use Rattle.calc_terms.specs.Examples.{x, y, sum};
ghost use Rattle.calc_terms.specs.Fractions.{minus_one_fraction};
ghost use Rattle.calc_terms.specs.Trees.{num, neg, power, none, more, whole_num};
ghost use Rattle.tree_room.specs.Handed.{product_count};
ghost use Rattle.tree_room.specs.Needs.{product_room};

/// The need that is nearest to its room: `-x` is reduced as the product of -1 and x.
pub fn an_opposite_has_room()
    ensures count { product_count (more (num minus_one_fraction) (more x none)) ≡ 3 }
    ensures need { product_room 3 1 ≡ 2000 }
    ensures room { room (neg x) ≡ 2048 }
{}

/// What `x×x^y` hands to its product, and what the join of both, `x^(1+y)`, does.
pub fn a_join_counted()
    ensures apart { product_count (more x (more (power x y) none)) ≡ 6 }
    ensures joined { product_count (more (power x (sum (whole_num 1) y)) none) ≡ 6 }
{}
