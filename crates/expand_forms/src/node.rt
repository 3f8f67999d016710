//! One node over expanded children.
ghost use Rattle.calc_measures.specs.Measures.{bits_of};
ghost use Rattle.expansions.specs.ExpansionBits.{AreHeldTogether, IsHeld};
ghost use Rattle.expand_forms.specs.Walks.{IsNoOverflow, IsOver};
ghost use Rattle.std.specs.Prelude.{ℕ, List, ◌≡◌, ◌≤◌, ◌<◌, ◌+◌, ◌^◌, [], ◌∷◌, ◌++◌, IfOk, IfErr, OnOk, length, true};
ghost use Rattle.calc_algebra.specs.Rewritings.{HasNoNewName};
ghost use Rattle.calc_terms.specs.Fractions.{one_fraction};
ghost use Rattle.calc_terms.specs.Trees.{Tree, names, num, size};
ghost use Rattle.child_lists.specs.Lists.{Lists};
ghost use Rattle.expansions.specs.ExpandedTrees.{expanded};
ghost use Rattle.expansions.specs.ExpansionRoom.{HasFewTerms, node_bytes, sum_bytes};
ghost use Rattle.expansions.specs.Named.{IsListOf, names_of};
ghost use Rattle.expand_forms.specs.Parts.{has_factors, has_parts, multiplied, parts_of, total};
ghost use Rattle.expansions.specs.Polynomials.{Polynomial};
ghost use Rattle.expansions.specs.PolynomialTrees.{has_polynomial_root, is_polynomial, polynomial_of};
ghost use Rattle.expansions.specs.Sums.{AreExpanded, IsSum, IsSumOf};
ghost use Rattle.node_pool.specs.State.{free_of};
ghost use Rattle.tree_handles.specs.Lacking.{OfFull};
ghost use Rattle.tree_handles.specs.Expressions.{IsExpression, children_of, plain};
ghost use Rattle.tree_handles.specs.Faults.{OfOverflow};
ghost use Rattle.tree_handles.specs.Handed.{Gives, IsHanded, tree_of};
ghost use Rattle.tree_handles.specs.Inside.{tree_at};
ghost use Rattle.tree_handles.specs.Roots.{without_root};
ghost use Rattle.tree_handles.specs.Standing.{Stands, forest};
ghost use Rattle.number_forms.specs.Safety.{IsSafe, IsSafePlacing};

use crate::by_values::expand_values;
use crate::joining::join_row;
use crate::parts::{factor_id, factor_number, has_factors, has_parts, part_at, part_count};
use crate::placing::place_terms;
use crate::products::{finished, times};
use crate::term_lists::TermLists;
use calc_terms::{Kind, Rat};
use child_lists::{ChildList, MANY};
use node_pool::{Full, Id, Pool};
use tree_handles::{Handle, NumberFault, copy_tree, node, number, release};

/// The expanded tree of a node over expanded children, which is consumed. It is expanded in lists where it fits into them, and
/// among the trees otherwise.
pub(crate) fn expand_node(
    pool: &mut Pool,
    tree: Handle,
    lists: &mut TermLists,
) -> Result<Handle, NumberFault>
    requires stands { Stands pool.old }
    requires handed { IsHanded tree (forest pool.old) }
    requires polynomial { has_polynomial_root (tree_of tree pool.old) ≡ true }
    requires children { AreExpanded (children_of (tree_of tree pool.old)) }
    ensures ok { IfOk result (λ h. Gives (without_root tree (forest pool.old)) (forest pool.new) h (λ t. t ≡ expanded (polynomial_of (tree_of tree pool.old)))) }
    ensures fits { (whole : Tree) → IsOver whole (tree_of tree pool.old) → is_polynomial whole ≡ true → IfErr result (OfOverflow (λ o. 124 < bits_of whole)) }
    ensures room { (whole : Tree) (n : ℕ) → HasNoNewName whole (tree_of tree pool.old) → length (polynomial_of (tree_of tree pool.old)) ≤ n
        → IfErr result (OfFull (λ full. free_of pool.old < node_bytes (names whole) n)) }
    ensures safe { IsSafe (tree ∷ []) pool.old pool.new result }
{
    if expand_values(pool, tree.id(), lists) {
        return Ok(place_listed(pool, tree, lists)?);
    }
    expand_by_trees(pool, tree)
}

/// The tree of the terms that are listed, in the place of a tree, which is consumed.
pub(crate) fn place_listed(
    pool: &mut Pool,
    tree: Handle,
    lists: &mut TermLists,
) -> Result<Handle, Full>
    requires stands { Stands pool.old }
    requires handed { IsHanded tree (forest pool.old) }
    requires list { (v : Polynomial) × IsListOf (names_of lists.old.names.items) lists.old.answer.items v }
    requires few { length lists.old.answer.items < 2 ^ 16 }
    ensures ok { (v : Polynomial) → IsListOf (names_of lists.old.names.items) lists.old.answer.items v
        → IfOk result (λ h. Gives (without_root tree (forest pool.old)) (forest pool.new) h (λ t. t ≡ expanded v)) }
    ensures room { (v : Polynomial) (ns : List (List ℕ)) (n : ℕ) → IsListOf (names_of lists.old.names.items) lists.old.answer.items v → HasFewTerms ns n v
        → IfErr result (λ full. free_of pool.old < node_bytes ns n) }
    ensures safe { IsSafePlacing (tree ∷ []) pool.old pool.new result }
{
    let answer = place_terms(pool, &lists.names, &mut lists.answer)?;
    release(pool, tree);
    Ok(answer)
}

/// The expanded tree of a node over expanded children, which is consumed. It is expanded among the trees.
#[inline(never)]
pub(crate) fn expand_by_trees(pool: &mut Pool, tree: Handle) -> Result<Handle, NumberFault>
    requires stands { Stands pool.old }
    requires handed { IsHanded tree (forest pool.old) }
    requires polynomial { has_polynomial_root (tree_of tree pool.old) ≡ true }
    requires children { AreExpanded (children_of (tree_of tree pool.old)) }
    ensures ok { IfOk result (λ h. Gives (without_root tree (forest pool.old)) (forest pool.new) h (λ t. t ≡ expanded (polynomial_of (tree_of tree pool.old)))) }
    ensures fits { (whole : Tree) → IsOver whole (tree_of tree pool.old) → is_polynomial whole ≡ true → IfErr result (OfOverflow (λ o. 124 < bits_of whole)) }
    ensures room { (whole : Tree) (n : ℕ) → HasNoNewName whole (tree_of tree pool.old) → length (polynomial_of (tree_of tree pool.old)) ≤ n
        → IfErr result (OfFull (λ full. free_of pool.old < node_bytes (names whole) n)) }
    ensures safe { IsSafe (tree ∷ []) pool.old pool.new result }
{
    let answer = place_expansion(pool, tree.id())?;
    release(pool, tree);
    Ok(answer)
}

/// A new last tree: the expanded tree of a node over expanded children, which stays. It is expanded among the trees.
fn place_expansion(pool: &mut Pool, id: Id) -> Result<Handle, NumberFault>
    requires stands { Stands pool.old }
    requires expression { IsExpression id (forest pool.old) }
    requires polynomial { has_polynomial_root (plain (tree_at id (forest pool.old))) ≡ true }
    requires children { AreExpanded (children_of (plain (tree_at id (forest pool.old)))) }
    ensures ok { let old = forest pool.old in IfOk result (λ h. Gives old (forest pool.new) h (λ t. t ≡ expanded (polynomial_of (plain (tree_at id old))))) }
    ensures fits { (whole : Tree) → IsOver whole (plain (tree_at id (forest pool.old))) → is_polynomial whole ≡ true → IfErr result (OfOverflow (λ o. 124 < bits_of whole)) }
    ensures room { let t = plain (tree_at id (forest pool.old)) in
        (whole : Tree) (n : ℕ) → HasNoNewName whole t → length (polynomial_of t) ≤ n → IfErr result (OfFull (λ full. free_of pool.old < node_bytes (names whole) n)) }
    ensures safe { IsSafe [] pool.old pool.new result }
{
    if has_factors(pool, id) {
        return place_products(pool, id);
    }
    if has_parts(pool, id) {
        return place_sum(pool, id);
    }
    Ok(copy_tree(pool, id)?)
}

/// A new last tree: the sum of a node's parts. Its terms are listed.
#[inline(never)]
fn place_sum(pool: &mut Pool, id: Id) -> Result<Handle, NumberFault>
    requires stands { Stands pool.old }
    requires expression { IsExpression id (forest pool.old) }
    requires polynomial { has_polynomial_root (plain (tree_at id (forest pool.old))) ≡ true }
    requires parts { has_parts (plain (tree_at id (forest pool.old))) ≡ true }
    requires children { AreExpanded (children_of (plain (tree_at id (forest pool.old)))) }
    ensures ok { let old = forest pool.old in IfOk result (λ h. Gives old (forest pool.new) h (λ t. t ≡ expanded (polynomial_of (plain (tree_at id old))))) }
    ensures fits { (h l : ℕ) → IsHeld (polynomial_of (plain (tree_at id (forest pool.old)))) h l → h + l < 127 → IfErr result IsNoOverflow }
    ensures room { (ns : List (List ℕ)) (n : ℕ) → HasFewTerms ns n (polynomial_of (plain (tree_at id (forest pool.old))))
        → IfErr result (OfFull (λ full. free_of pool.old < node_bytes ns n)) }
    ensures safe { IsSafe [] pool.old pool.new result }
{
    let one = number(pool, Rat::whole(1))?;
    let sum = node(pool, Kind::Add)?;
    let mut list: ChildList<MANY> = ChildList::new();
    join_parts(pool, &sum, &mut list, one.id(), id)?;
    let answer = finished(pool, sum)?;
    release(pool, one);
    Ok(answer)
}

/// Joins the parts of a node to a sum, by rows of products with 1.
fn join_parts(
    pool: &mut Pool,
    sum: &Handle,
    list: &mut ChildList<MANY>,
    one: Id,
    id: Id,
) -> Result<(), NumberFault>
    requires stands { Stands pool.old }
    requires sum { Gives (without_root sum.now (forest pool.old)) (forest pool.old) sum.now IsSum }
    requires lists { Lists list.old sum.now (forest pool.old) }
    requires one { IsExpression one (without_root sum.now (forest pool.old)) }
    requires is_one { plain (tree_at one (without_root sum.now (forest pool.old))) ≡ num one_fraction }
    requires expression { IsExpression id (without_root sum.now (forest pool.old)) }
    requires polynomial { has_polynomial_root (plain (tree_at id (without_root sum.now (forest pool.old)))) ≡ true }
    requires parts { has_parts (plain (tree_at id (without_root sum.now (forest pool.old)))) ≡ true }
    requires children { AreExpanded (children_of (plain (tree_at id (without_root sum.now (forest pool.old))))) }
    ensures ok { let others = without_root sum.now (forest pool.old) in
        OnOk result (Gives others (forest pool.new) sum.now (IsSumOf (total (parts_of (plain (tree_at id others))) ++ polynomial_of (tree_of sum.now pool.old)))) }
    ensures lists { OnOk result (Lists list.new sum.now (forest pool.new)) }
    ensures fits { let others = without_root sum.now (forest pool.old) in
        (h l : ℕ) → IsHeld (total (parts_of (plain (tree_at id others))) ++ polynomial_of (tree_of sum.now pool.old)) h l → h + l < 127 → IfErr result IsNoOverflow }
    ensures room { let others = without_root sum.now (forest pool.old) in
        (ns : List (List ℕ)) (k n : ℕ) → HasFewTerms ns k (polynomial_of (tree_of sum.now pool.old)) → HasFewTerms ns n (total (parts_of (plain (tree_at id others))))
        → IfErr result (OfFull (λ full. free_of pool.old + size (tree_of sum.now pool.old) < sum_bytes ns (k + n))) }
    ensures safe { IsSafe (sum.now ∷ []) pool.old pool.new result }
{
    for at in 0..part_count(pool, id) {
        let part = part_at(pool, id, at);
        join_row(pool, sum, list, part.factor, one, part.tree)?;
    }
    Ok(())
}

/// A new last tree: the product of a node's factors, multiplied from the last one on.
fn place_products(pool: &mut Pool, id: Id) -> Result<Handle, NumberFault>
    requires stands { Stands pool.old }
    requires expression { IsExpression id (forest pool.old) }
    requires polynomial { has_polynomial_root (plain (tree_at id (forest pool.old))) ≡ true }
    requires factors { has_factors (plain (tree_at id (forest pool.old))) ≡ true }
    requires children { AreExpanded (children_of (plain (tree_at id (forest pool.old)))) }
    ensures ok { let old = forest pool.old in IfOk result (λ h. Gives old (forest pool.new) h (λ t. t ≡ expanded (polynomial_of (plain (tree_at id old))))) }
    ensures fits { (h l : ℕ) → AreHeldTogether (multiplied (plain (tree_at id (forest pool.old)))) h l → h + l < 127 → IfErr result IsNoOverflow }
    ensures room { let t = plain (tree_at id (forest pool.old)) in
        (whole : Tree) (n : ℕ) → HasNoNewName whole t → length (polynomial_of t) ≤ n → IfErr result (OfFull (λ full. free_of pool.old < node_bytes (names whole) n)) }
    ensures safe { IsSafe [] pool.old pool.new result }
{
    let mut product = number(pool, Rat::whole(1))?;
    let mut left = factor_number(pool, id);
    while left > 0 {
        left -= 1;
        match times(pool, factor_id(pool, id, left), product) {
            Ok(next) => product = next,
            Err(fault) => return Err(fault),
        }
    }
    Ok(product)
}
