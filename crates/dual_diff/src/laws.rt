//! Laws of derivatives, each the contract of a function without a body.

ghost use Rattle.std.specs.Prelude.{◌≡◌, ◌↔◌, ℕ, List, Contains, true};
ghost use Rattle.calc_algebra.specs.Meanings.{Assignment, Means};
ghost use Rattle.calc_terms.specs.Trees.{Tree, names};
ghost use Rattle.dual_diff.specs.Derivatives.{derivative};
ghost use Rattle.dual_diff.specs.Occurring.{occurs};
ghost use Rattle.dual_diff.specs.Pairs.{Pair, SamePair, HasPair};

/// The value of each pair of a tree is a meaning of the tree, and its slope one of the derivative.
#[tactic(auto, using(crate::proofs::Derived::value_means, crate::proofs::Derived::slope_means))]
pub fn derivative_means_the_slope()
    ensures value { (x : List ℕ) (t : Tree) (f : Assignment) (p : Pair) → HasPair x t f p → Means t f p.value }
    ensures slope { (x : List ℕ) (t : Tree) (f : Assignment) (p : Pair) → HasPair x t f p → Means (derivative x t) f p.slope }
{}

/// What is the same as a pair of a tree, in value and in slope, is one too.
#[tactic(auto, using(crate::proofs::PairLaws::pair_same))]
pub fn pairs_are_closed()
    ensures { (x : List ℕ) (t : Tree) (f : Assignment) (p q : Pair) → HasPair x t f p → SamePair p q → HasPair x t f q }
{}

/// A name occurs in a tree where it is one of its names.
#[tactic(auto, using(crate::proofs::Occurring::names_occur))]
pub fn names_occur()
    ensures { (x : List ℕ) (t : Tree) → (occurs x t ≡ true) ↔ Contains (names t) x }
{}
