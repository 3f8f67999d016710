//! Laws of products finished and of two factors joined, each the contract of a function without a body.
ghost use Rattle.std.specs.Prelude.{ℕ, suc, List, ◌≡◌, ◌≤◌, ◌<◌, ◌+◌, true, false};
ghost use Rattle.calc_measures.specs.Measures.{HighLow};
ghost use Rattle.calc_measures.specs.Loads.{nest, nest_of, load, load_of_factors, weight};
ghost use Rattle.calc_algebra.specs.Reduced.{is_reduced, base_of, are_reduced};
ghost use Rattle.calc_terms.specs.Trees.{Tree, add, mult, Trees, none, more, append, count};
ghost use Rattle.number_forms.specs.Sums.{removed};
ghost use Rattle.product_reduce.specs.Answers.{IsJoined, IsWritten};
ghost use Rattle.product_reduce.specs.Bits.{AreFactorsHeld, IsFactorHeld};
ghost use Rattle.product_reduce.specs.Neighbours.{IsPairAt};
ghost use Rattle.tree_bits.specs.Children.{AreTreesHeld, ArePositive, high_sum, low_sum};
ghost use Rattle.tree_bits.specs.HeldTrees.{IsPartHeld};
ghost use Rattle.product_reduce.specs.Joining.{exponent_of, have_partners, joint};
ghost use Rattle.calc_algebra.specs.Numbers.{are_numbers};
ghost use Rattle.tree_handles.specs.Expressions.{nth, inserted, children_of};

/// The base and the exponents of a joint are reduced.
pub fn parts_of_joints_are_reduced()
    ensures base { (a : Tree) → is_reduced a ≡ true → is_reduced (base_of a) ≡ true }
    ensures exponent { (a : Tree) → is_reduced a ≡ true → is_reduced (exponent_of a) ≡ true }
{}

/// What is nested in a product with two factors joined is nested in the product before: the base of the joint,
/// its exponent, even less, unless both exponents are Numbers, and the other factors where they are reduced.
pub fn joints_are_nested_no_more()
    ensures base { (ts : Trees) (t a b : Tree) (at : ℕ) → IsJoined ts t → at < count (children_of t)
        → nth at (children_of t) ≡ joint a b → nest (base_of a) ≤ nest (mult ts) }
    ensures exponent { (ts : Trees) (t a b : Tree) (at : ℕ) → IsJoined ts t → at < count (children_of t)
        → nth at (children_of t) ≡ joint a b → are_numbers (more (exponent_of a) (more (exponent_of b) none)) ≡ false
        → nest (add (more (exponent_of a) (more (exponent_of b) none))) < nest (mult ts) }
    ensures others { (ts : Trees) (t : Tree) (at : ℕ) → IsJoined ts t → are_reduced (removed at (children_of t)) ≡ true
        → nest_of (removed at (children_of t)) ≤ nest (mult ts) }
{}

/// In the place of a joint a tree that loads at most one more than the weight of its base lowers the load.
pub fn joints_lower_the_load()
    ensures { (ts : Trees) (t a b : Tree) (at : ℕ) → are_reduced ts ≡ true → IsJoined ts t → at < count (children_of t)
        → nth at (children_of t) ≡ joint a b
        → load_of_factors (removed at (children_of t)) + (1 + weight (base_of a)) < load (mult ts) }
{}

/// A coefficient times factors, no two of which have identical bases, is written as one tree only.
pub fn products_are_written_once()
    ensures { (c t u : Tree) (ts : Trees) → have_partners ts ≡ false → IsWritten c ts t → IsWritten c ts u → t ≡ u }
{}

/// What holds factors one by one: trees that are held by bits of their own, each high at least 1; the factors of a product that is
/// held as one factor; by more bits; and behind one another. Two neighbours of one base are held together by some of the bits, and what
/// is held so may take their place.
pub fn what_holds_factors()
    ensures trees { (ts : Trees) (bs : List HighLow) → AreTreesHeld ts bs → ArePositive bs → AreFactorsHeld ts (high_sum bs) (low_sum bs) }
    ensures of_a_product { (ts : Trees) (h l : ℕ) → is_reduced (mult ts) ≡ true → IsFactorHeld (mult ts) h l → AreFactorsHeld ts h l }
    ensures by_more { (ts : Trees) (h l k n : ℕ) → h ≤ k → l ≤ n → AreFactorsHeld ts h l → AreFactorsHeld ts k n }
    ensures appended { (ts us : Trees) (h l k n : ℕ) → AreFactorsHeld ts h l → AreFactorsHeld us k n
        → AreFactorsHeld (append ts us) (h + k) (l + n) }
    ensures neighbours { (at : ℕ) (ts : Trees) (h l : ℕ) → IsPairAt at ts → are_reduced ts ≡ true → AreFactorsHeld ts h l
        → (p q : ℕ) × (p ≤ h) × (q ≤ l) × IsPartHeld (more (nth at ts) (more (nth (suc at) ts) none)) p q
        × ((v : Tree) → IsFactorHeld v p q → AreFactorsHeld (inserted at (more v none) (removed at (removed (suc at) ts))) h l) }
{}
