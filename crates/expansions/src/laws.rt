//! Laws of polynomials, each the contract of a function without a body.
ghost use Rattle.std.specs.Prelude.{◌≡◌, true, false};
ghost use Rattle.calc_algebra.specs.Meanings.{Assignment, IsAssignment, Means};
ghost use Rattle.calc_algebra.specs.Reduced.{is_reduced};
ghost use Rattle.calc_algebra.specs.Rewritings.{HasNoNewName, KeepsMeanings};
ghost use Rattle.calc_algebra.specs.SquareClasses.{Same};
ghost use Rattle.calc_algebra.specs.Surds.{Surd, surd_of};
ghost use Rattle.calc_terms.specs.Trees.{Tree, is_undef};
ghost use Rattle.expansions.specs.ExpandedTrees.{IsNormal, expanded, normal};
ghost use Rattle.expansions.specs.Polynomials.{AreMonomials, Monomial, Polynomial, coefficient_at};
ghost use Rattle.expansions.specs.PolynomialTrees.{is_polynomial, polynomial_of};
ghost use Rattle.expansions.specs.Values.{polynomial_value};

/// The polynomial of a tree has monomials only.
#[tactic(auto, using(crate::proofs::TreeMonomials::all_monomials, crate::proofs::TreeMonomials::tree_monomials))]
pub fn polynomial_has_monomials()
    ensures { (t : Tree) → AreMonomials (polynomial_of t) }
{}

/// Each meaning of a tree that is a polynomial is what its polynomial is worth.
#[tactic(auto, using(crate::proofs::TreeMeanings::tree_worth))]
pub fn polynomial_has_the_meaning()
    ensures { (t : Tree) (f : Assignment) (v : Surd) → IsAssignment f → is_polynomial t ≡ true → Means t f v
        → Same v (surd_of (polynomial_value f (polynomial_of t))) }
{}

/// The normal polynomial has the same coefficients, none of which is written where it is 0, and no other one has them.
pub fn one_normal_polynomial()
    ensures normal { (v : Polynomial) → IsNormal (normal v) }
    ensures coefficients { (m : Monomial) (v : Polynomial) → coefficient_at m (normal v) ≡ coefficient_at m v }
    ensures only { (v w : Polynomial) → IsNormal v → IsNormal w
        → ((m : Monomial) → coefficient_at m v ≡ coefficient_at m w) → v ≡ w }
{}

/// The expanded tree is a function of the coefficients alone.
#[tactic(auto, using(crate::proofs::NormalForms::one_normal_form))]
pub fn one_expanded_tree()
    ensures { (v w : Polynomial) → ((m : Monomial) → coefficient_at m v ≡ coefficient_at m w) → expanded v ≡ expanded w }
{}

/// Each meaning of a tree that is a polynomial is one of its expanded tree.
#[tactic(auto, using(crate::proofs::ExpandedMeanings::expanded_means))]
pub fn expanded_keeps_meanings()
    ensures { (t : Tree) → is_polynomial t ≡ true → KeepsMeanings t (expanded (polynomial_of t)) }
{}

/// The expanded tree of a tree is reduced.
#[tactic(auto, using(crate::proofs::ReducedExpansions::tree_expanded_reduced))]
pub fn expanded_is_reduced()
    ensures { (t : Tree) → is_reduced (expanded (polynomial_of t)) ≡ true }
{}

/// An expanded tree is not Undef.
#[tactic(auto, using(crate::proofs::Defined::expanded_defined))]
pub fn expanded_is_defined()
    ensures { (v : Polynomial) → is_undef (expanded v) ≡ false }
{}

/// Each name of the expanded tree of a tree is one of the tree.
#[tactic(auto, using(crate::proofs::Names::expanded_no_new_name))]
pub fn expanded_has_no_new_name()
    ensures { (t : Tree) → HasNoNewName t (expanded (polynomial_of t)) }
{}
