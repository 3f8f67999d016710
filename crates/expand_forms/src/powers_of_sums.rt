//! Powers of sums, which are left to be raised where their parent is expanded.
ghost use Rattle.std.specs.Prelude.{◌≡◌, ◌≤◌, ◌<◌, ◌+◌, ◌↔◌, [], ◌∷◌, IfOk, IfErr, IsTrue, OnOk, true};
ghost use Rattle.calc_measures.specs.Measures.{most_bits};
ghost use Rattle.calc_terms.specs.Trees.{Tree, count, is_add, size};
ghost use Rattle.expansions.specs.ExpandedTrees.{expanded};
ghost use Rattle.expansions.specs.PolynomialTrees.{exponent_of as natural_exponent, has_polynomial_root, is_polynomial, polynomial_of};
ghost use Rattle.expand_forms.specs.PowersOfSums.{AreReady, IsLeft, IsOverReady, IsReadyFrom, has_power_of_sum, is_power_of_sum};
ghost use Rattle.expand_forms.specs.Walks.{IsOver, IsPolynomial, MayLack};
ghost use Rattle.node_pool.specs.State.{free_of};
ghost use Rattle.reduce_walk.specs.Answers.{IsOverSome};
ghost use Rattle.tree_handles.specs.Lacking.{OfFull};
ghost use Rattle.tree_handles.specs.Expressions.{IsExpression, children_of, nth, plain};
ghost use Rattle.tree_handles.specs.Faults.{OfOverflow};
ghost use Rattle.tree_handles.specs.Handed.{Ends, Gives, IsHanded, tree_of};
ghost use Rattle.tree_handles.specs.Holes.{ChangesTree, set_child};
ghost use Rattle.tree_handles.specs.Inside.{tree_at};
ghost use Rattle.tree_handles.specs.Roots.{root_tree, without_root};
ghost use Rattle.tree_handles.specs.Standing.{Stands, forest};
ghost use Rattle.number_forms.specs.Safety.{IsSafe};

use crate::node::expand_node;
use crate::parts::exponent_of;
use crate::term_lists::{BASE_TERMS, TermLists};
use calc_terms::Kind;
use node_pool::{Id, Pool};
use tree_handles::{Handle, NumberFault, child_id, children, fill, kind, move_last, open_child};

/// Whether a tree is a power of a sum.
pub(crate) fn is_power_of_sum(pool: &Pool, id: Id) -> bool
    requires stands { Stands pool.now }
    requires expression { IsExpression id (forest pool.now) }
    ensures { result ≡ is_power_of_sum (plain (tree_at id (forest pool.now))) }
{
    match kind(pool, id) {
        Kind::Pow => is_sum(pool, child_id(pool, id, 0)),
        _ => false,
    }
}

/// Whether a tree is a sum.
fn is_sum(pool: &Pool, id: Id) -> bool
    requires stands { Stands pool.now }
    requires expression { IsExpression id (forest pool.now) }
    ensures { result ≡ is_add (plain (tree_at id (forest pool.now))) }
{
    matches!(kind(pool, id), Kind::Add)
}

/// Whether it is a power of a sum of few terms, so that to raise it is little work, and with a greater exponent than 1, so that
/// what is raised takes no fewer bytes.
#[tactic(auto, using(crate::proofs::PowersOfSums::left_by, crate::proofs::PowersOfSums::left_few, crate::proofs::PowersOfSums::left_great, crate::proofs::PowersOfSums::left_power))]
pub(crate) fn is_left(pool: &Pool, id: Id) -> bool
    requires stands { Stands pool.now }
    requires expression { IsExpression id (forest pool.now) }
    requires polynomial { has_polynomial_root (plain (tree_at id (forest pool.now))) ≡ true }
    requires children { AreReady (children_of (plain (tree_at id (forest pool.now)))) }
    ensures { IsTrue result ↔ IsLeft (plain (tree_at id (forest pool.now))) }
{
    is_power_of_sum(pool, id) && has_few_terms(pool, id) && has_great_exponent(pool, id)
}

/// Whether the exponent of a power of a sum is above 1.
fn has_great_exponent(pool: &Pool, id: Id) -> bool
    requires stands { Stands pool.now }
    requires expression { IsExpression id (forest pool.now) }
    requires power { is_power_of_sum (plain (tree_at id (forest pool.now))) ≡ true }
    requires polynomial { has_polynomial_root (plain (tree_at id (forest pool.now))) ≡ true }
    requires children { AreReady (children_of (plain (tree_at id (forest pool.now)))) }
    ensures { IsTrue result ↔ (1 < natural_exponent (nth 1 (children_of (plain (tree_at id (forest pool.now)))))) }
{
    exponent_of(pool, child_id(pool, id, 1)) > 1
}

/// Whether the first child of a power has few children.
fn has_few_terms(pool: &Pool, id: Id) -> bool
    requires stands { Stands pool.now }
    requires expression { IsExpression id (forest pool.now) }
    requires power { is_power_of_sum (plain (tree_at id (forest pool.now))) ≡ true }
    ensures { IsTrue result ↔ (count (children_of (nth 0 (children_of (plain (tree_at id (forest pool.now)))))) ≤ 2) }
{
    usize::from(children(pool, child_id(pool, id, 0))) <= BASE_TERMS
}

/// Raises the children of a tree that are powers of sums.
#[inline(never)]
pub(crate) fn raise_powers(
    pool: &mut Pool,
    tree: Handle,
    lists: &mut TermLists,
) -> Result<Handle, NumberFault>
    requires stands { Stands pool.old }
    requires handed { IsHanded tree (forest pool.old) }
    requires over { IsOverSome IsPolynomial IsReadyFrom (tree_of tree pool.old) }
    ensures ok { (whole : Tree) → is_polynomial whole ≡ true → IsOverReady whole (tree_of tree pool.old)
        → IfOk result (λ h. Gives (without_root tree (forest pool.old)) (forest pool.new) h (λ t. IsOver whole t)) }
    ensures fits { (whole : Tree) → is_polynomial whole ≡ true → IsOverReady whole (tree_of tree pool.old) → IfErr result (OfOverflow (λ o. 124 < most_bits whole)) }
    ensures room { (whole : Tree) → is_polynomial whole ≡ true → IsOverReady whole (tree_of tree pool.old)
        → IfErr result (OfFull (λ full. MayLack whole (free_of pool.old + size (tree_of tree pool.old)))) }
    ensures safe { IsSafe (tree ∷ []) pool.old pool.new result }
{
    let mut left = children(pool, tree.id());
    while left > 0 {
        left -= 1;
        if !is_power_of_sum(pool, child_id(pool, tree.id(), left)) {
            continue;
        }
        raise_power(pool, &tree, left, lists)?;
    }
    move_last(pool, &tree);
    Ok(tree)
}

/// Raises the child of a tree at a place, which is a power of a sum.
fn raise_power(
    pool: &mut Pool,
    tree: &Handle,
    at: u16,
    lists: &mut TermLists,
) -> Result<(), NumberFault>
    requires stands { Stands pool.old }
    requires handed { IsHanded tree.now (forest pool.old) }
    requires within { at < count (children_of (tree_of tree.now pool.old)) }
    requires power { is_power_of_sum (nth at (children_of (tree_of tree.now pool.old))) ≡ true }
    requires over { IsOverSome IsPolynomial IsReadyFrom (tree_of tree.now pool.old) }
    ensures ok { let t = tree_of tree.now pool.old in
        OnOk result (ChangesTree tree.now (set_child at (expanded (polynomial_of (nth at (children_of t)))) t) (forest pool.old) (forest pool.new)) }
    ensures fits { (whole : Tree) → is_polynomial whole ≡ true → IsOverReady whole (tree_of tree.now pool.old) → IfErr result (OfOverflow (λ o. 124 < most_bits whole)) }
    ensures room { (whole : Tree) → is_polynomial whole ≡ true → IsOverReady whole (tree_of tree.now pool.old)
        → IfErr result (OfFull (λ full. MayLack whole (free_of pool.old + size (tree_of tree.now pool.old)))) }
    ensures safe { IsSafe (tree.now ∷ []) pool.old pool.new result }
{
    let (hole, power) = open_child(pool, tree, at);
    let sum = expand_node(pool, power, lists)?;
    fill(pool, hole, sum);
    Ok(())
}

/// The expanded tree of a tree that has become of another one.
pub(crate) fn raise_answer(
    pool: &mut Pool,
    answer: Handle,
    lists: &mut TermLists,
) -> Result<Handle, NumberFault>
    requires stands { Stands pool.old }
    requires handed { IsHanded answer (forest pool.old) }
    requires last { Ends answer (root_tree answer (forest pool.old)) (without_root answer (forest pool.old)) (forest pool.old) }
    requires ready { (whole : Tree) × (is_polynomial whole ≡ true) × IsReadyFrom whole (tree_of answer pool.old) }
    ensures ok { (whole : Tree) → is_polynomial whole ≡ true → IsReadyFrom whole (tree_of answer pool.old)
        → IfOk result (λ h. Gives (without_root answer (forest pool.old)) (forest pool.new) h (λ t. t ≡ expanded (polynomial_of whole))) }
    ensures fits { (whole : Tree) → is_polynomial whole ≡ true → IsReadyFrom whole (tree_of answer pool.old) → IfErr result (OfOverflow (λ o. 124 < most_bits whole)) }
    ensures room { (whole : Tree) → is_polynomial whole ≡ true → IsReadyFrom whole (tree_of answer pool.old)
        → IfErr result (OfFull (λ full. MayLack whole (free_of pool.old + size (tree_of answer pool.old)))) }
    ensures safe { IsSafe (answer ∷ []) pool.old pool.new result }
{
    if is_power_of_sum(pool, answer.id()) {
        return expand_node(pool, answer, lists);
    }
    Ok(answer)
}
