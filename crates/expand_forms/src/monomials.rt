//! New terms: the monomials of two terms multiplied, and then a coefficient.
ghost use Rattle.expansions.specs.ExpansionBits.{HasExponents};
ghost use Rattle.expand_forms.specs.Walks.{IsNoOverflow};
ghost use Rattle.std.specs.Prelude.{◌≡◌, ◌<◌, [], ◌∷◌, IfOk, IfErr, if◌then◌else◌, length, true, ℕ, ◌^◌};
ghost use Rattle.calc_terms.specs.Rat.{value_of};
ghost use Rattle.calc_terms.specs.Trees.{is_mult, more, mult, num};
ghost use Rattle.expansions.specs.ExpandedTrees.{factor_trees, term_tree};
ghost use Rattle.expansions.specs.ExpansionRoom.{number_bytes, term_bytes};
ghost use Rattle.expand_forms.specs.Merging.{AreFactors};
ghost use Rattle.expansions.specs.Polynomials.{Monomial, monomial_times, summand};
ghost use Rattle.expansions.specs.Terms.{HasMonomial, led_by};
ghost use Rattle.node_pool.specs.State.{free_of};
ghost use Rattle.tree_handles.specs.Lacking.{OfFull};
ghost use Rattle.tree_handles.specs.Expressions.{IsExpression, children_of, plain};
ghost use Rattle.tree_handles.specs.Handed.{Gives, tree_of};
ghost use Rattle.tree_handles.specs.Inside.{tree_at};
ghost use Rattle.tree_handles.specs.Roots.{without_root};
ghost use Rattle.tree_handles.specs.Standing.{Stands, forest};
ghost use Rattle.number_forms.specs.Safety.{IsSafe, IsSafePlacing};

use crate::factors::Factors;
use crate::merging::place_factors;
use calc_terms::{Kind, Rat};
use coefficients::unwrapped;
use node_pool::{Full, Id, Pool};
use tree_handles::{Handle, NumberFault, add_child, adopt, children, node, number};

/// A new last tree: the factors of two terms, multiplied, as a product of any number of them. Those of the left are listed.
pub(crate) fn place_merged(
    pool: &mut Pool,
    left: &Factors,
    s: Id,
    t: Id,
) -> Result<Handle, NumberFault>
    requires stands { Stands pool.old }
    requires factors { AreFactors left.now s (forest pool.old) }
    requires first { IsExpression s (forest pool.old) }
    requires second { IsExpression t (forest pool.old) }
    requires monomials { (m : Monomial) × (n : Monomial) × HasMonomial m (plain (tree_at s (forest pool.old))) × HasMonomial n (plain (tree_at t (forest pool.old))) }
    ensures ok { (m n : Monomial) → HasMonomial m (plain (tree_at s (forest pool.old))) → HasMonomial n (plain (tree_at t (forest pool.old)))
        → IfOk result (λ h. Gives (forest pool.old) (forest pool.new) h (λ u. u ≡ mult (factor_trees (monomial_times m n)))) }
    ensures fits { (m n : Monomial) (k : ℕ) → HasMonomial m (plain (tree_at s (forest pool.old))) → HasMonomial n (plain (tree_at t (forest pool.old)))
        → HasExponents k (monomial_times m n) → k < 2 ^ 127 → IfErr result IsNoOverflow }
    ensures room { (m n : Monomial) → HasMonomial m (plain (tree_at s (forest pool.old))) → HasMonomial n (plain (tree_at t (forest pool.old)))
        → IfErr result (OfFull (λ full. free_of pool.old < term_bytes (length (monomial_times m n)))) }
    ensures safe { IsSafe [] pool.old pool.new result }
{
    let product = node(pool, Kind::Mult)?;
    let factors = place_factors(pool, left, s, t)?;
    adopt(pool, &product, factors);
    Ok(product)
}

/// A coefficient and the factors of a product that stands last, as one term.
pub(crate) fn completed(pool: &mut Pool, product: Handle, coefficient: Rat) -> Result<Handle, Full>
    requires stands { Stands pool.old }
    requires product { Gives (without_root product (forest pool.old)) (forest pool.old) product (λ u. is_mult u ≡ true) }
    ensures ok { (m : Monomial) → tree_of product pool.old ≡ mult (factor_trees m)
        → IfOk result (λ h. Gives (without_root product (forest pool.old)) (forest pool.new) h (λ t. t ≡ term_tree (summand (value_of coefficient) m))) }
    ensures room { IfErr result (λ full. free_of pool.old < number_bytes) }
    ensures safe { IsSafePlacing (product ∷ []) pool.old pool.new result }
{
    let led = led_by(pool, product, coefficient)?;
    if children(pool, led.id()) == 1 {
        return Ok(unwrapped(pool, led));
    }
    Ok(led)
}

/// A coefficient before the factors of a product that stands last, where it is not 1 or there is no factor.
fn led_by(pool: &mut Pool, product: Handle, coefficient: Rat) -> Result<Handle, Full>
    requires stands { Stands pool.old }
    requires product { Gives (without_root product (forest pool.old)) (forest pool.old) product (λ u. is_mult u ≡ true) }
    ensures ok { IfOk result (λ h. Gives (without_root product (forest pool.old)) (forest pool.new) h
        (λ t. t ≡ mult (led_by (value_of coefficient) (children_of (tree_of product pool.old))))) }
    ensures room { IfErr result (λ full. free_of pool.old < number_bytes) }
    ensures safe { IsSafePlacing (product ∷ []) pool.old pool.new result }
{
    if !is_written(pool, product.id(), coefficient) {
        return Ok(product);
    }
    let first = number(pool, coefficient)?;
    add_child(pool, &product, 0, first);
    Ok(product)
}

/// Whether a coefficient is written before the factors of a product.
fn is_written(pool: &Pool, product: Id, coefficient: Rat) -> bool
    requires stands { Stands pool.now }
    requires expression { IsExpression product (forest pool.now) }
    ensures { let ts = children_of (plain (tree_at product (forest pool.now))) in
        led_by (value_of coefficient) ts ≡ (if result then more (num (value_of coefficient)) ts else ts) }
{
    if coefficient.is_one() {
        return children(pool, product) == 0;
    }
    true
}
