//! One node whose children are reduced.
ghost use Rattle.std.specs.Prelude.{ℕ, List, length, ◌≡◌, ◌<◌, ◌+◌, ◌^◌, nat_abs, true, false, IfOk, IfErr, [], ◌∷◌};
ghost use Rattle.calc_terms.specs.Limits.{number_limit};
ghost use Rattle.calc_terms.specs.Fractions.{whole_fraction};
ghost use Rattle.calc_terms.specs.Rat.{value_of};
ghost use Rattle.calc_terms.specs.Trees.{num, has_undef, size};
ghost use Rattle.calc_room.specs.Spans.{SpansTree};
ghost use Rattle.tree_bits.specs.Rows.{AreFewBits};
ghost use Rattle.node_bounds.specs.NodeBits.{HoldsNode};
ghost use Rattle.node_bounds.specs.NodeRooms.{HasNodesFor, SpansNode};
ghost use Rattle.deep_reduce.specs.Connectives.{joined_by, joined_room};
ghost use Rattle.deep_reduce.specs.Nodes.{IsNodeAnswer, IsNodeOverflow};
ghost use Rattle.node_bounds.specs.Rooms.{IsCalmAtZero, SpansRootOf};
ghost use Rattle.node_pool.specs.State.{free_of};
ghost use Rattle.tree_handles.specs.Lacking.{LacksBelow};
ghost use Rattle.power_reduce.specs.PowerAnswers.{base_in, exponent_in};
ghost use Rattle.tree_room.specs.Needs.{simple_room};
ghost use Rattle.calc_algebra.specs.Reduced.{are_reduced, is_half_num};
ghost use Rattle.tree_handles.specs.Handed.{tree_of, IsHanded, Ends, Gives, KeepsFront};
ghost use Rattle.tree_handles.specs.Expressions.{IsExpression, plain, children_of};
ghost use Rattle.tree_handles.specs.Faults.{IfOverflow};
ghost use Rattle.tree_handles.specs.Inside.{tree_at};
ghost use Rattle.tree_handles.specs.Roots.{root_tree, without_root};
ghost use Rattle.product_reduce.specs.Pools.{LeavesPool};
ghost use Rattle.tree_handles.specs.Standing.{Stands, forest};

use crate::connective::Connective;
use crate::differences::{negate, reduce_sides};
use crate::folding::folded;
use crate::whole::{reduce_power, reduce_product};
use calc_terms::{Kind, Rat};
use node_pool::{Id, Pool};
use radical_forms::reduce_root;
use sum_reduce::reduce_sum;
use tree_handles::{Handle, NumberFault, children, kind, number, release};

/// The last tree, a node over reduced children, as the rules of its kind reduce it. A leaf is its own answer.
#[tactic(auto, using(tree_handles::proofs::Seen::live))]
pub(crate) fn reduce_node(pool: &mut Pool, tree: Handle) -> Result<Handle, NumberFault>
    requires stands { Stands pool.old }
    requires handed { IsHanded tree (forest pool.old) }
    requires last { Ends tree (root_tree tree (forest pool.old)) (without_root tree (forest pool.old)) (forest pool.old) }
    requires reduced { are_reduced (children_of (tree_of tree pool.old)) ≡ true }
    ensures ok { IfOk result (λ h. Gives (without_root tree (forest pool.old)) (forest pool.new) h (IsNodeAnswer (tree_of tree pool.old))) }
    ensures overflow { IfOverflow result (IsNodeOverflow (tree_of tree pool.old)) }
    ensures front { KeepsFront (tree ∷ []) (forest pool.old) (forest pool.new) }

    // In a tree of enough nodes bytes are lacking only where fewer are at hand than that needs; and so for half of an odd number as
    // the exponent, where the radicands span the root of the base.
    ensures room { (gs : List ℕ) (ns : List (List ℕ)) (n : ℕ) → HasNodesFor n (tree_of tree pool.old) → IsCalmAtZero ns (tree_of tree pool.old) → SpansNode gs (tree_of tree pool.old)
        → IfErr result (LacksBelow (simple_room n (2 ^ length gs)) (free_of pool.old + size (tree_of tree pool.old))) }
    ensures root_room { (gs : List ℕ) (n : ℕ) → HasNodesFor n (tree_of tree pool.old) → is_half_num (exponent_in (tree_of tree pool.old)) ≡ true → SpansRootOf gs (base_in (tree_of tree pool.old))
        → IfErr result (LacksBelow (simple_room n (2 ^ length gs)) (free_of pool.old + size (tree_of tree pool.old))) }

    // Where few bits hold the node, nothing overflows.
    ensures bits { (h l : ℕ) → (has_undef (children_of (tree_of tree pool.old)) ≡ false → HoldsNode (tree_of tree pool.old) h l) → AreFewBits h l → IfOverflow result (λ o. ⊥) }

    ensures leaves { LeavesPool result pool.old pool.new }
{
    if let Some(value) = folded(pool, &tree) {
        return put(pool, tree, value);
    }
    match kind(pool, tree.id()) {
        Kind::Add => reduce_joined(pool, Connective::Sum, tree),
        Kind::Mult => reduce_joined(pool, Connective::Product, tree),
        Kind::Pow => reduce_power(pool, tree),
        Kind::Root => reduce_root(pool, tree),
        Kind::Neg => negate(pool, tree),
        Kind::Sub => reduce_sides(pool, Connective::Sum, tree),
        Kind::Div => reduce_sides(pool, Connective::Product, tree),
        _ => Ok(tree),
    }
}

/// A sum or a product of reduced children: 0 or 1 where there are none.
#[tactic(auto, using(tree_handles::proofs::Seen::live, crate::proofs::Lacking::result_lacks, crate::proofs::Connected::empty_room, crate::proofs::Connected::neutral_fits))]
pub(crate) fn reduce_joined(
    pool: &mut Pool,
    connective: Connective,
    node: Handle,
) -> Result<Handle, NumberFault>
    requires stands { Stands pool.old }
    requires handed { IsHanded node (forest pool.old) }
    requires joined { tree_of node pool.old ≡ joined_by connective (children_of (tree_of node pool.old)) }
    requires reduced { are_reduced (children_of (tree_of node pool.old)) ≡ true }
    ensures ok { IfOk result (λ h. Gives (without_root node (forest pool.old)) (forest pool.new) h (IsNodeAnswer (tree_of node pool.old))) }
    ensures overflow { IfOverflow result (IsNodeOverflow (tree_of node pool.old)) }
    ensures front { KeepsFront (node ∷ []) (forest pool.old) (forest pool.new) }
    ensures room { let t = tree_of node pool.old in (gs : List ℕ) (ns : List (List ℕ)) → IsCalmAtZero ns t → SpansTree gs t
        → IfErr result (LacksBelow (joined_room connective (children_of t) (2 ^ length gs)) (free_of pool.old + size t)) }
    ensures bits { (h l : ℕ) → (has_undef (children_of (tree_of node pool.old)) ≡ false → HoldsNode (tree_of node pool.old) h l) → AreFewBits h l → IfOverflow result (λ o. ⊥) }
    ensures leaves { LeavesPool result pool.old pool.new }
{
    if children(pool, node.id()) == 0 {
        return whole(pool, node, connective.neutral());
    }
    match connective {
        Connective::Sum => reduce_sum(pool, node),
        Connective::Product => reduce_product(pool, node),
    }
}

/// A rational in the place of a tree.
fn put(pool: &mut Pool, tree: Handle, value: Rat) -> Result<Handle, NumberFault>
    requires stands { Stands pool.old }
    requires handed { IsHanded tree (forest pool.old) }
    ensures ok { IfOk result (λ h. Gives (without_root tree (forest pool.old)) (forest pool.new) h (λ t. t ≡ num (value_of value))) }
    ensures overflow { IfOverflow result (λ o. ⊥) }
    ensures front { KeepsFront (tree ∷ []) (forest pool.old) (forest pool.new) }
    ensures room { IfErr result (LacksBelow 40 (free_of pool.old + size (tree_of tree pool.old))) }
    ensures leaves { LeavesPool result pool.old pool.new }
{
    release(pool, tree);
    Ok(number(pool, value)?)
}

/// A whole number in the place of a tree.
fn whole(pool: &mut Pool, tree: Handle, n: i128) -> Result<Handle, NumberFault>
    requires stands { Stands pool.old }
    requires handed { IsHanded tree (forest pool.old) }
    requires fits { nat_abs n < number_limit }
    ensures ok { IfOk result (λ h. Gives (without_root tree (forest pool.old)) (forest pool.new) h (λ t. t ≡ num (whole_fraction n))) }
    ensures overflow { IfOverflow result (λ o. ⊥) }
    ensures front { KeepsFront (tree ∷ []) (forest pool.old) (forest pool.new) }
    ensures room { IfErr result (LacksBelow 40 (free_of pool.old + size (tree_of tree pool.old))) }
    ensures leaves { LeavesPool result pool.old pool.new }
{
    put(pool, tree, Rat::whole(n))
}
