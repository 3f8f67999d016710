//! Expanded trees multiplied.
ghost use Rattle.expansions.specs.ExpansionBits.{IsHeld};
ghost use Rattle.expand_forms.specs.Walks.{IsNoOverflow};
ghost use Rattle.std.specs.Prelude.{ℕ, List, ◌≡◌, ◌<◌, ◌*◌, ◌+◌, ◌^◌, [], ◌∷◌, IfOk, IfErr};
ghost use Rattle.calc_terms.specs.Trees.{size};
ghost use Rattle.expansions.specs.ExpandedTrees.{expanded};
ghost use Rattle.expansions.specs.ExpansionRoom.{HasFewTerms, number_bytes, sum_bytes};
ghost use Rattle.expansions.specs.Polynomials.{product};
ghost use Rattle.expansions.specs.PolynomialTrees.{polynomial_of};
ghost use Rattle.expansions.specs.Sums.{IsExpanded, IsSum};
ghost use Rattle.node_pool.specs.State.{free_of};
ghost use Rattle.tree_handles.specs.Lacking.{OfFull};
ghost use Rattle.tree_handles.specs.Expressions.{IsExpression, plain};
ghost use Rattle.tree_handles.specs.Handed.{Gives, IsHanded, tree_of};
ghost use Rattle.tree_handles.specs.Inside.{tree_at};
ghost use Rattle.tree_handles.specs.Roots.{without_root};
ghost use Rattle.tree_handles.specs.Standing.{Stands, forest};
ghost use Rattle.number_forms.specs.Safety.{IsSafe, IsSafePlacing};

use crate::joining::join_products;
use crate::terms::term_count;
use calc_terms::{Kind, Rat};
use child_lists::{ChildList, FEW, MANY};
use node_pool::{Full, Id, Pool};
use tree_handles::{Handle, NumberFault, children, node, number, release, take_child};

/// The expanded tree that a sum under way is: none is 0, and one stands alone.
pub(crate) fn finished(pool: &mut Pool, sum: Handle) -> Result<Handle, Full>
    requires stands { Stands pool.old }
    requires sum { Gives (without_root sum (forest pool.old)) (forest pool.old) sum IsSum }
    ensures ok { IfOk result (λ h. Gives (without_root sum (forest pool.old)) (forest pool.new) h (λ t. t ≡ expanded (polynomial_of (tree_of sum pool.old)))) }
    ensures room { IfErr result (λ full. free_of pool.old + size (tree_of sum pool.old) < number_bytes) }
    ensures safe { IsSafePlacing (sum ∷ []) pool.old pool.new result }
{
    let terms = children(pool, sum.id());
    if terms == 0 {
        release(pool, sum);
        number(pool, Rat::whole(0))
    } else if terms == 1 {
        let term = take_child(pool, &sum, 0);
        release(pool, sum);
        Ok(term)
    } else {
        Ok(sum)
    }
}

/// A new last tree: the product of two expanded trees, which stay. Its terms are listed.
fn place_product(pool: &mut Pool, a: Id, b: Id) -> Result<Handle, NumberFault>
    requires stands { Stands pool.old }
    requires first { IsExpression a (forest pool.old) }
    requires second { IsExpression b (forest pool.old) }
    requires first_expanded { IsExpanded (plain (tree_at a (forest pool.old))) }
    requires second_expanded { IsExpanded (plain (tree_at b (forest pool.old))) }
    ensures ok { let old = forest pool.old in
        IfOk result (λ h. Gives old (forest pool.new) h (λ t. t ≡ expanded (product (polynomial_of (plain (tree_at a old))) (polynomial_of (plain (tree_at b old)))))) }
    ensures fits { let old = forest pool.old in
        (h l : ℕ) → IsHeld (product (polynomial_of (plain (tree_at a old))) (polynomial_of (plain (tree_at b old)))) h l → h + l < 127 → IfErr result IsNoOverflow }
    ensures room { let old = forest pool.old in
        (ns : List (List ℕ)) (m n : ℕ) → HasFewTerms ns m (polynomial_of (plain (tree_at a old))) → HasFewTerms ns n (polynomial_of (plain (tree_at b old)))
        → IfErr result (OfFull (λ full. free_of pool.old < sum_bytes ns (m * n))) }
    ensures safe { IsSafe [] pool.old pool.new result }
{
    let terms = term_count(pool, a).saturating_mul(term_count(pool, b));
    if usize::from(terms) <= FEW {
        product_within::<FEW>(pool, a, b)
    } else {
        product_within::<MANY>(pool, a, b)
    }
}

/// The same with a list that has room for so many terms.
#[inline(never)]
fn product_within<const N: usize>(pool: &mut Pool, a: Id, b: Id) -> Result<Handle, NumberFault>
    requires few { N < 2 ^ 16 }
    requires stands { Stands pool.old }
    requires first { IsExpression a (forest pool.old) }
    requires second { IsExpression b (forest pool.old) }
    requires first_expanded { IsExpanded (plain (tree_at a (forest pool.old))) }
    requires second_expanded { IsExpanded (plain (tree_at b (forest pool.old))) }
    ensures ok { let old = forest pool.old in
        IfOk result (λ h. Gives old (forest pool.new) h (λ t. t ≡ expanded (product (polynomial_of (plain (tree_at a old))) (polynomial_of (plain (tree_at b old)))))) }
    ensures fits { let old = forest pool.old in
        (h l : ℕ) → IsHeld (product (polynomial_of (plain (tree_at a old))) (polynomial_of (plain (tree_at b old)))) h l → h + l < 127 → IfErr result IsNoOverflow }
    ensures room { let old = forest pool.old in
        (ns : List (List ℕ)) (m n : ℕ) → HasFewTerms ns m (polynomial_of (plain (tree_at a old))) → HasFewTerms ns n (polynomial_of (plain (tree_at b old)))
        → IfErr result (OfFull (λ full. free_of pool.old < sum_bytes ns (m * n))) }
    ensures safe { IsSafe [] pool.old pool.new result }
{
    let sum = node(pool, Kind::Add)?;
    let mut list: ChildList<N> = ChildList::new();
    join_products(pool, &sum, &mut list, a, b)?;
    Ok(finished(pool, sum)?)
}

/// The product of an expanded tree, which stays, and another one, which is consumed.
pub(crate) fn times(pool: &mut Pool, a: Id, b: Handle) -> Result<Handle, NumberFault>
    requires stands { Stands pool.old }
    requires second { IsHanded b (forest pool.old) }
    requires first { IsExpression a (without_root b (forest pool.old)) }
    requires first_expanded { IsExpanded (plain (tree_at a (without_root b (forest pool.old)))) }
    requires last { Gives (without_root b (forest pool.old)) (forest pool.old) b IsExpanded }
    ensures ok { let others = without_root b (forest pool.old) in
        IfOk result (λ h. Gives others (forest pool.new) h (λ t. t ≡ expanded (product (polynomial_of (plain (tree_at a others))) (polynomial_of (tree_of b pool.old))))) }
    ensures fits { let others = without_root b (forest pool.old) in
        (h l : ℕ) → IsHeld (product (polynomial_of (plain (tree_at a others))) (polynomial_of (tree_of b pool.old))) h l → h + l < 127 → IfErr result IsNoOverflow }
    ensures room { let others = without_root b (forest pool.old) in
        (ns : List (List ℕ)) (m n : ℕ) → HasFewTerms ns m (polynomial_of (plain (tree_at a others))) → HasFewTerms ns n (polynomial_of (tree_of b pool.old))
        → IfErr result (OfFull (λ full. free_of pool.old < sum_bytes ns (m * n))) }
    ensures safe { IsSafe (b ∷ []) pool.old pool.new result }
{
    let product = place_product(pool, a, b.id())?;
    release(pool, b);
    Ok(product)
}
