//! The product of two terms, added to a sum that stands last.
ghost use Rattle.expansions.specs.ExpansionBits.{IsHeld};
ghost use Rattle.expand_forms.specs.Walks.{IsNoOverflow};
ghost use Rattle.std.specs.Prelude.{◌≡◌, ◌<◌, ◌+◌, ℕ, [], ◌∷◌, IfErr, OnOk, length, false};
ghost use Rattle.calc_terms.specs.Fractions.{is_zero_fraction};
ghost use Rattle.calc_terms.specs.Rat.{value_of};
ghost use Rattle.calc_terms.specs.Trees.{add, count, mult};
ghost use Rattle.child_lists.specs.Lists.{Lists};
ghost use Rattle.expansions.specs.ExpandedTrees.{factor_trees};
ghost use Rattle.expansions.specs.ExpansionRoom.{number_bytes, term_bytes};
ghost use Rattle.expansions.specs.Polynomials.{Monomial, monomial_times, summand};
ghost use Rattle.expansions.specs.PolynomialTrees.{polynomial_of};
ghost use Rattle.expansions.specs.Sums.{IsSum, IsSumOf};
ghost use Rattle.expand_forms.specs.Sums.{with_term};
ghost use Rattle.expansions.specs.Terms.{HasMonomial};
ghost use Rattle.node_pool.specs.State.{free_of};
ghost use Rattle.tree_handles.specs.Lacking.{OfFull};
ghost use Rattle.tree_handles.specs.Expressions.{IsExpression, children_of, plain};
ghost use Rattle.tree_handles.specs.Handed.{Gives, tree_of};
ghost use Rattle.tree_handles.specs.Inside.{tree_at};
ghost use Rattle.tree_handles.specs.Roots.{without_root};
ghost use Rattle.tree_handles.specs.Standing.{Stands, forest};
ghost use Rattle.number_forms.specs.Safety.{IsSafe, IsSafePlacing};

use crate::factors::{self, Factors};
use crate::monomials::{completed, place_merged};
use crate::ordering::place_of;
use calc_terms::Rat;
use child_lists::{ChildList, exchange_child, insert_child, remove_child};
use node_pool::{Full, Id, Pool};
use rational128::add;
use tree_handles::{Handle, NumberFault, release};

/// Joins a coefficient times the monomials of two terms to a sum: with the term that has its monomial, which may leave
/// none, or at its place. Their product is placed before its place is sought.
#[inline(never)]
pub(crate) fn join_product<const N: usize>(
    pool: &mut Pool,
    sum: &Handle,
    list: &mut ChildList<N>,
    coefficient: Rat,
    s: Id,
    t: Id,
) -> Result<(), NumberFault>
    requires stands { Stands pool.old }
    requires sum { Gives (without_root sum.now (forest pool.old)) (forest pool.old) sum.now IsSum }
    requires lists { Lists list.old sum.now (forest pool.old) }
    requires nonzero { is_zero_fraction (value_of coefficient) ≡ false }
    requires first { IsExpression s (without_root sum.now (forest pool.old)) }
    requires second { IsExpression t (without_root sum.now (forest pool.old)) }
    requires monomials { let others = without_root sum.now (forest pool.old) in
        (m : Monomial) × (n : Monomial) × HasMonomial m (plain (tree_at s others)) × HasMonomial n (plain (tree_at t others)) }
    ensures ok { let others = without_root sum.now (forest pool.old) in
        (m n : Monomial) → HasMonomial m (plain (tree_at s others)) → HasMonomial n (plain (tree_at t others))
        → OnOk result (Gives others (forest pool.new) sum.now
        (IsSumOf (summand (value_of coefficient) (monomial_times m n) ∷ polynomial_of (tree_of sum.now pool.old)))) }
    ensures lists { OnOk result (Lists list.new sum.now (forest pool.new)) }
    ensures fits { let others = without_root sum.now (forest pool.old) in
        (m n : Monomial) (h l : ℕ) → HasMonomial m (plain (tree_at s others)) → HasMonomial n (plain (tree_at t others))
        → IsHeld (summand (value_of coefficient) (monomial_times m n) ∷ polynomial_of (tree_of sum.now pool.old)) h l → h + l < 127 → IfErr result IsNoOverflow }
    ensures room { let others = without_root sum.now (forest pool.old) in
        (m n : Monomial) → HasMonomial m (plain (tree_at s others)) → HasMonomial n (plain (tree_at t others))
        → IfErr result (OfFull (λ full. free_of pool.old < term_bytes (length (monomial_times m n)))) }
    ensures safe { IsSafe (sum.now ∷ []) pool.old pool.new result }
{
    let left = Factors::of(pool, s);
    let product = place_merged(pool, &left, s, t)?;
    match place_of(pool, sum.id(), list, product.id()) {
        Err(at) => {
            let term = completed(pool, product, coefficient)?;
            insert_child(pool, sum, list, at, term);
            Ok(())
        }
        Ok(at) => {
            let other = list.child(pool, sum.id(), at);
            let total = add(factors::coefficient(pool, other), coefficient)?;
            replace(pool, sum, list, at, total, product)?;
            Ok(())
        }
    }
}

/// The term at a place of a sum has another coefficient, or is removed where that is 0. The product of its factors stands
/// last, just behind the sum.
fn replace<const N: usize>(
    pool: &mut Pool,
    sum: &Handle,
    list: &mut ChildList<N>,
    at: u16,
    total: Rat,
    product: Handle,
) -> Result<(), Full>
    requires stands { Stands pool.old }
    requires product { (m : Monomial) × Gives (without_root product (forest pool.old)) (forest pool.old) product (λ u. u ≡ mult (factor_trees m)) }
    requires sum { let others = without_root product (forest pool.old) in Gives (without_root sum.now others) others sum.now IsSum }
    requires lists { Lists list.old sum.now (forest pool.old) }
    requires within { at < count (children_of (tree_of sum.now pool.old)) }
    ensures ok { (m : Monomial) → tree_of product pool.old ≡ mult (factor_trees m)
        → OnOk result (Gives (without_root sum.now (without_root product (forest pool.old))) (forest pool.new) sum.now
        (λ u. u ≡ add (with_term at (summand (value_of total) m) (children_of (tree_of sum.now pool.old))))) }
    ensures lists { OnOk result (Lists list.new sum.now (forest pool.new)) }
    ensures room { IfErr result (λ full. free_of pool.old < number_bytes) }
    ensures safe { IsSafePlacing (sum.now ∷ product ∷ []) pool.old pool.new result }
{
    if total.is_zero() {
        release(pool, product);
        remove_child(pool, sum, list, at);
        return Ok(());
    }
    let term = completed(pool, product, total)?;
    exchange_child(pool, sum, list, at, term);
    Ok(())
}
