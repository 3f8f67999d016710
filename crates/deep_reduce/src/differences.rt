//! Opposites, differences and quotients, as sums, products and powers.
ghost use Rattle.std.specs.Prelude.{ℕ, List, length, ◌≡◌, ◌+◌, ◌^◌, true, false, IfOk, IfErr, [], ◌∷◌};
ghost use Rattle.calc_algebra.specs.Reduced.{is_reduced, are_reduced};
ghost use Rattle.calc_room.specs.Counts.{counted};
ghost use Rattle.calc_room.specs.Spans.{SpansTree};
ghost use Rattle.calc_terms.specs.Trees.{none, more, count, has_undef, size, sizes};
ghost use Rattle.deep_reduce.specs.Connectives.{joined_by, joined_room, of_sides, turned, turned_room};
ghost use Rattle.deep_reduce.specs.Nodes.{IsNodeAnswer, IsNodeOverflow, is_neg};
ghost use Rattle.tree_bits.specs.Rows.{AreFewBits};
ghost use Rattle.node_bounds.specs.NodeBits.{HoldsNode};
ghost use Rattle.node_bounds.specs.NodeRooms.{HasNodesFor};
ghost use Rattle.deep_reduce.specs.Pairs.{GivesSides};
ghost use Rattle.node_bounds.specs.Rooms.{IsCalmAtZero};
ghost use Rattle.node_pool.specs.State.{free_of};
ghost use Rattle.tree_handles.specs.Lacking.{LacksBelow};
ghost use Rattle.tree_room.specs.Needs.{simple_room};
ghost use Rattle.tree_handles.specs.Handed.{tree_of, IsHanded, Ends, Gives, KeepsFront};
ghost use Rattle.tree_handles.specs.Expressions.{children_of, nth};
ghost use Rattle.tree_handles.specs.Faults.{IfOverflow};
ghost use Rattle.tree_handles.specs.Roots.{root_tree, without_root};
ghost use Rattle.product_reduce.specs.Pools.{LeavesPool};
ghost use Rattle.tree_handles.specs.Standing.{Stands, forest, KeepsRefusals};

use crate::connective::Connective;
use crate::nodes::reduce_joined;
use crate::whole::reduce_power;
use calc_terms::{Kind, Rat};
use node_pool::Pool;
use tree_handles::{
    Handle, NumberFault, has_undefined_child, node_over_two, number, release, take_child, undefined,
};

/// -1 times the argument.
#[tactic(auto, using(crate::proofs::Parents::alone_out, crate::proofs::Told::neg_children))]
pub(crate) fn negate(pool: &mut Pool, opposite: Handle) -> Result<Handle, NumberFault>
    requires stands { Stands pool.old }
    requires handed { IsHanded opposite (forest pool.old) }
    requires opposite { is_neg (tree_of opposite pool.old) ≡ true }
    requires reduced { are_reduced (children_of (tree_of opposite pool.old)) ≡ true }
    ensures ok { IfOk result (λ h. Gives (without_root opposite (forest pool.old)) (forest pool.new) h (IsNodeAnswer (tree_of opposite pool.old))) }
    ensures overflow { IfOverflow result (IsNodeOverflow (tree_of opposite pool.old)) }
    ensures front { KeepsFront (opposite ∷ []) (forest pool.old) (forest pool.new) }
    ensures room { (gs : List ℕ) (ns : List (List ℕ)) (n : ℕ) → HasNodesFor n (tree_of opposite pool.old) → IsCalmAtZero ns (tree_of opposite pool.old) → SpansTree gs (tree_of opposite pool.old)
        → IfErr result (LacksBelow (simple_room n (2 ^ length gs)) (free_of pool.old + size (tree_of opposite pool.old))) }
    ensures bits { (h l : ℕ) → (has_undef (children_of (tree_of opposite pool.old)) ≡ false → HoldsNode (tree_of opposite pool.old) h l) → AreFewBits h l → IfOverflow result (λ o. ⊥) }
    ensures leaves { LeavesPool result pool.old pool.new }
{
    let argument = take_child(pool, &opposite, 0);
    release(pool, opposite);
    turn(pool, Connective::Sum, argument)
}

/// A difference or a quotient, as the sum or the product of its left side and what its right side is turned into.
/// An Undef side decides before that.
#[tactic(auto, using(crate::proofs::Connected::sides_children))]
pub(crate) fn reduce_sides(
    pool: &mut Pool,
    connective: Connective,
    node: Handle,
) -> Result<Handle, NumberFault>
    requires stands { Stands pool.old }
    requires handed { IsHanded node (forest pool.old) }
    requires sides { let t = tree_of node pool.old in t ≡ of_sides connective (nth 0 (children_of t)) (nth 1 (children_of t)) }
    requires reduced { are_reduced (children_of (tree_of node pool.old)) ≡ true }
    ensures ok { IfOk result (λ h. Gives (without_root node (forest pool.old)) (forest pool.new) h (IsNodeAnswer (tree_of node pool.old))) }
    ensures overflow { IfOverflow result (IsNodeOverflow (tree_of node pool.old)) }
    ensures front { KeepsFront (node ∷ []) (forest pool.old) (forest pool.new) }
    ensures room { let t = tree_of node pool.old in (gs : List ℕ) (ns : List (List ℕ)) (n : ℕ) → HasNodesFor n t → IsCalmAtZero ns t → SpansTree gs t
        → IfErr result (LacksBelow (simple_room n (2 ^ length gs)) (free_of pool.old + size t)) }
    ensures bits { (h l : ℕ) → (has_undef (children_of (tree_of node pool.old)) ≡ false → HoldsNode (tree_of node pool.old) h l) → AreFewBits h l → IfOverflow result (λ o. ⊥) }
    ensures leaves { LeavesPool result pool.old pool.new }
{
    if has_undefined_child(pool, node.id()) {
        return Ok(undefined(pool, node));
    }
    let (left, right) = take_sides(pool, node);
    let made = turn(pool, connective, right)?;
    join_sides(pool, connective, left, made)
}

/// The sum or the product of two sides, the right of which stands last.
#[tactic(auto, using(tree_handles::proofs::Given::given_told, tree_handles::proofs::Given::given_handed))]
fn join_sides(
    pool: &mut Pool,
    connective: Connective,
    left: Handle,
    right: Handle,
) -> Result<Handle, NumberFault>
    requires stands { Stands pool.old }
    requires handed { IsHanded right (forest pool.old) }
    requires last { Ends right (root_tree right (forest pool.old)) (without_root right (forest pool.old)) (forest pool.old) }
    requires left { IsHanded left (without_root right (forest pool.old)) }
    requires left_reduced { is_reduced (tree_of left pool.old) ≡ true }
    requires right_reduced { is_reduced (tree_of right pool.old) ≡ true }
    ensures ok { let t = joined_by connective (more (tree_of left pool.old) (more (tree_of right pool.old) none)) in
        IfOk result (λ h. Gives (without_root right (without_root left (forest pool.old))) (forest pool.new) h (IsNodeAnswer t)) }
    ensures overflow { IfOverflow result (IsNodeOverflow (joined_by connective (more (tree_of left pool.old) (more (tree_of right pool.old) none)))) }
    ensures front { KeepsFront (left ∷ right ∷ []) (forest pool.old) (forest pool.new) }
    ensures room { let ts = more (tree_of left pool.old) (more (tree_of right pool.old) none) in
        (gs : List ℕ) (ns : List (List ℕ)) → IsCalmAtZero ns (joined_by connective ts) → SpansTree gs (joined_by connective ts)
        → IfErr result (LacksBelow (joined_room connective ts (2 ^ length gs)) (free_of pool.old + sizes ts)) }
    ensures bits { let t = joined_by connective (more (tree_of left pool.old) (more (tree_of right pool.old) none)) in
        (h l : ℕ) → (has_undef (children_of t) ≡ false → HoldsNode t h l) → AreFewBits h l → IfOverflow result (λ o. ⊥) }
    ensures leaves { LeavesPool result pool.old pool.new }
{
    let both = node_over_two(pool, connective.kind(), left, right)?;
    reduce_joined(pool, connective, both)
}

/// -1 times a reduced tree, or its power with the exponent -1.
#[tactic(auto, using(crate::proofs::NumberBeside::number_beside))]
fn turn(pool: &mut Pool, connective: Connective, side: Handle) -> Result<Handle, NumberFault>
    requires stands { Stands pool.old }
    requires handed { IsHanded side (forest pool.old) }
    requires reduced { is_reduced (tree_of side pool.old) ≡ true }
    ensures ok { IfOk result (λ h. Gives (without_root side (forest pool.old)) (forest pool.new) h (IsNodeAnswer (turned connective (tree_of side pool.old)))) }
    ensures overflow { IfOverflow result (IsNodeOverflow (turned connective (tree_of side pool.old))) }
    ensures front { KeepsFront (side ∷ []) (forest pool.old) (forest pool.new) }
    ensures room { let t = tree_of side pool.old in (gs : List ℕ) (ns : List (List ℕ)) → IsCalmAtZero ns t → SpansTree gs t
        → IfErr result (LacksBelow (turned_room connective (counted t) (2 ^ length gs)) (free_of pool.old + size t)) }
    ensures bits { let t = turned connective (tree_of side pool.old) in
        (h l : ℕ) → (has_undef (children_of t) ≡ false → HoldsNode t h l) → AreFewBits h l → IfOverflow result (λ o. ⊥) }
    ensures leaves { LeavesPool result pool.old pool.new }
{
    let minus_one = number(pool, Rat::whole(-1))?;
    match connective {
        Connective::Sum => {
            let product = node_over_two(pool, Kind::Mult, minus_one, side)?;
            reduce_joined(pool, Connective::Product, product)
        }
        Connective::Product => {
            let power = node_over_two(pool, Kind::Pow, side, minus_one)?;
            reduce_power(pool, power)
        }
    }
}

/// The two children of a node, which is released.
#[tactic(auto, using(crate::proofs::Parents::parent_children, reduce_walk::proofs::Parents::parent_handed))]
fn take_sides(pool: &mut Pool, tree: Handle) -> (Handle, Handle)
    requires stands { Stands pool.old }
    requires handed { IsHanded tree (forest pool.old) }
    requires two { count (children_of (tree_of tree pool.old)) ≡ 2 }
    ensures sides { GivesSides (children_of (tree_of tree pool.old)) (without_root tree (forest pool.old)) (forest pool.new) result.0 result.1 }
    ensures front { KeepsFront (tree ∷ []) (forest pool.old) (forest pool.new) }
    ensures kept { KeepsRefusals pool.old pool.new }
    ensures stands { Stands pool.new }
{
    let left = take_child(pool, &tree, 0);
    let right = take_child(pool, &tree, 0);
    release(pool, tree);
    (left, right)
}
