//! Products of terms, joined to a sum that stands last.
ghost use Rattle.expansions.specs.ExpansionBits.{IsHeld};
ghost use Rattle.expand_forms.specs.Walks.{IsNoOverflow};
ghost use Rattle.std.specs.Prelude.{◌≡◌, ◌<◌, ◌+◌, ℕ, List, [], ◌∷◌, ◌++◌, IfErr, OnOk, ◌^◌, false};
ghost use Rattle.calc_terms.specs.Fractions.{is_zero_fraction};
ghost use Rattle.calc_terms.specs.Rat.{value_of};
ghost use Rattle.calc_terms.specs.Trees.{size};
ghost use Rattle.child_lists.specs.Lists.{Lists};
ghost use Rattle.expansions.specs.ExpansionRoom.{HasFewTerms, sum_bytes};
ghost use Rattle.expansions.specs.Polynomials.{product};
ghost use Rattle.expansions.specs.PolynomialTrees.{polynomial_of};
ghost use Rattle.expand_forms.specs.Rows.{row};
ghost use Rattle.expansions.specs.Sums.{IsExpanded, IsSum, IsSumOf};
ghost use Rattle.expansions.specs.Terms.{IsTerm};
ghost use Rattle.node_pool.specs.State.{free_of};
ghost use Rattle.tree_handles.specs.Lacking.{OfFull};
ghost use Rattle.tree_handles.specs.Expressions.{IsExpression, plain};
ghost use Rattle.tree_handles.specs.Handed.{Gives, tree_of};
ghost use Rattle.tree_handles.specs.Inside.{tree_at};
ghost use Rattle.tree_handles.specs.Roots.{without_root};
ghost use Rattle.tree_handles.specs.Standing.{Stands, forest};
ghost use Rattle.number_forms.specs.Safety.{IsSafe};

use crate::adding::join_product;
use crate::factors::coefficient;
use crate::terms::{term_count, term_id};
use calc_terms::Rat;
use child_lists::{ChildList, FEW, MANY, NONE};
use node_pool::{Id, Pool};
use rational128::mul;
use tree_handles::{Handle, NumberFault, children};

/// Joins the product of each term of an expanded tree and each of another to a sum.
#[inline(never)]
pub(crate) fn join_products<const N: usize>(
    pool: &mut Pool,
    sum: &Handle,
    list: &mut ChildList<N>,
    a: Id,
    b: Id,
) -> Result<(), NumberFault>
    requires stands { Stands pool.old }
    requires sum { Gives (without_root sum.now (forest pool.old)) (forest pool.old) sum.now IsSum }
    requires lists { Lists list.old sum.now (forest pool.old) }
    requires first { IsExpression a (without_root sum.now (forest pool.old)) }
    requires second { IsExpression b (without_root sum.now (forest pool.old)) }
    requires first_expanded { IsExpanded (plain (tree_at a (without_root sum.now (forest pool.old)))) }
    requires second_expanded { IsExpanded (plain (tree_at b (without_root sum.now (forest pool.old)))) }
    ensures ok { let others = without_root sum.now (forest pool.old) in
        OnOk result (Gives others (forest pool.new) sum.now (IsSumOf (product (polynomial_of (plain (tree_at a others))) (polynomial_of (plain (tree_at b others))) ++ polynomial_of (tree_of sum.now pool.old)))) }
    ensures lists { OnOk result (Lists list.new sum.now (forest pool.new)) }
    ensures fits { let others = without_root sum.now (forest pool.old) in
        (h l : ℕ) → IsHeld (product (polynomial_of (plain (tree_at a others))) (polynomial_of (plain (tree_at b others))) ++ polynomial_of (tree_of sum.now pool.old)) h l → h + l < 127 → IfErr result IsNoOverflow }
    ensures room { let others = without_root sum.now (forest pool.old) in
        (ns : List (List ℕ)) (n : ℕ) → HasFewTerms ns n (product (polynomial_of (plain (tree_at a others))) (polynomial_of (plain (tree_at b others))) ++ polynomial_of (tree_of sum.now pool.old))
        → IfErr result (OfFull (λ full. free_of pool.old + size (tree_of sum.now pool.old) < sum_bytes ns n)) }
    ensures safe { IsSafe (sum.now ∷ []) pool.old pool.new result }
{
    let firsts: ChildList<NONE> = ChildList::of(pool, a);
    for at in 0..term_count(pool, a) {
        let term = term_id(pool, a, &firsts, at);
        let factor = coefficient(pool, term);
        join_row(pool, sum, list, factor, term, b)?;
    }
    Ok(())
}

/// Joins a factor times the monomial of a term and each term of an expanded tree to a sum.
pub(crate) fn join_row<const N: usize>(
    pool: &mut Pool,
    sum: &Handle,
    list: &mut ChildList<N>,
    factor: Rat,
    term: Id,
    b: Id,
) -> Result<(), NumberFault>
    requires stands { Stands pool.old }
    requires sum { Gives (without_root sum.now (forest pool.old)) (forest pool.old) sum.now IsSum }
    requires lists { Lists list.old sum.now (forest pool.old) }
    requires nonzero { is_zero_fraction (value_of factor) ≡ false }
    requires first { IsExpression term (without_root sum.now (forest pool.old)) }
    requires second { IsExpression b (without_root sum.now (forest pool.old)) }
    requires first_term { IsTerm (plain (tree_at term (without_root sum.now (forest pool.old)))) }
    requires second_expanded { IsExpanded (plain (tree_at b (without_root sum.now (forest pool.old)))) }
    ensures ok { let others = without_root sum.now (forest pool.old) in
        OnOk result (Gives others (forest pool.new) sum.now (IsSumOf (row (value_of factor) (plain (tree_at term others)) 0 (plain (tree_at b others)) ++ polynomial_of (tree_of sum.now pool.old)))) }
    ensures lists { OnOk result (Lists list.new sum.now (forest pool.new)) }
    ensures fits { let others = without_root sum.now (forest pool.old) in
        (h l : ℕ) → IsHeld (row (value_of factor) (plain (tree_at term others)) 0 (plain (tree_at b others)) ++ polynomial_of (tree_of sum.now pool.old)) h l → h + l < 127 → IfErr result IsNoOverflow }
    ensures room { let others = without_root sum.now (forest pool.old) in
        (ns : List (List ℕ)) (n : ℕ) → HasFewTerms ns n (row (value_of factor) (plain (tree_at term others)) 0 (plain (tree_at b others)) ++ polynomial_of (tree_of sum.now pool.old))
        → IfErr result (OfFull (λ full. free_of pool.old + size (tree_of sum.now pool.old) < sum_bytes ns n)) }
    ensures safe { IsSafe (sum.now ∷ []) pool.old pool.new result }
{
    if usize::from(children(pool, b)) <= FEW {
        row_within::<N, FEW>(pool, sum, list, factor, term, b)
    } else {
        row_within::<N, MANY>(pool, sum, list, factor, term, b)
    }
}

/// The same with a list of the terms that has room for so many.
#[inline(never)]
fn row_within<const N: usize, const M: usize>(
    pool: &mut Pool,
    sum: &Handle,
    list: &mut ChildList<N>,
    factor: Rat,
    term: Id,
    b: Id,
) -> Result<(), NumberFault>
    requires few { M < 2 ^ 16 }
    requires stands { Stands pool.old }
    requires sum { Gives (without_root sum.now (forest pool.old)) (forest pool.old) sum.now IsSum }
    requires lists { Lists list.old sum.now (forest pool.old) }
    requires nonzero { is_zero_fraction (value_of factor) ≡ false }
    requires first { IsExpression term (without_root sum.now (forest pool.old)) }
    requires second { IsExpression b (without_root sum.now (forest pool.old)) }
    requires first_term { IsTerm (plain (tree_at term (without_root sum.now (forest pool.old)))) }
    requires second_expanded { IsExpanded (plain (tree_at b (without_root sum.now (forest pool.old)))) }
    ensures ok { let others = without_root sum.now (forest pool.old) in
        OnOk result (Gives others (forest pool.new) sum.now (IsSumOf (row (value_of factor) (plain (tree_at term others)) 0 (plain (tree_at b others)) ++ polynomial_of (tree_of sum.now pool.old)))) }
    ensures lists { OnOk result (Lists list.new sum.now (forest pool.new)) }
    ensures fits { let others = without_root sum.now (forest pool.old) in
        (h l : ℕ) → IsHeld (row (value_of factor) (plain (tree_at term others)) 0 (plain (tree_at b others)) ++ polynomial_of (tree_of sum.now pool.old)) h l → h + l < 127 → IfErr result IsNoOverflow }
    ensures room { let others = without_root sum.now (forest pool.old) in
        (ns : List (List ℕ)) (n : ℕ) → HasFewTerms ns n (row (value_of factor) (plain (tree_at term others)) 0 (plain (tree_at b others)) ++ polynomial_of (tree_of sum.now pool.old))
        → IfErr result (OfFull (λ full. free_of pool.old + size (tree_of sum.now pool.old) < sum_bytes ns n)) }
    ensures safe { IsSafe (sum.now ∷ []) pool.old pool.new result }
{
    let seconds: ChildList<M> = ChildList::of(pool, b);
    for at in 0..term_count(pool, b) {
        let other = term_id(pool, b, &seconds, at);
        let product = mul(factor, coefficient(pool, other))?;
        join_product(pool, sum, list, product, term, other)?;
    }
    Ok(())
}
