//! The walk over a tree: children before their parent, from left to right.
ghost use Rattle.std.specs.Prelude.{◌≡◌, ◌↔◌, ◌+◌, ℕ, IfOk, IfErr, OnOk, Err, [], ◌∷◌};
ghost use Rattle.breakers.specs.Breakers.{CalmChecks, CalmUpTo, TripsRose, TripsWithin};
ghost use Rattle.breakers.specs.Watch.{states};
ghost use Rattle.calc_terms.specs.Trees.{nodes, size};
ghost use Rattle.node_pool.specs.State.{free_of};
ghost use Rattle.reduce_port.specs.Faults.{CountsRefusals, IfFull, IfInterrupted, IfOverflow};
ghost use Rattle.reduce_walk.specs.Leaves.{is_leaf as is_leaf_tree, is_leaf_kind as is_leaf_kind_of, BeginWithLeaves};
ghost use Rattle.reduce_walk.specs.Stops.{IsUnfitAt, Stops};
ghost use Rattle.tree_handles.specs.Causes.{Overflows};
ghost use Rattle.tree_handles.specs.Expressions.{IsExpression, children_of, plain};
ghost use Rattle.tree_handles.specs.Handed.{Ends, Gives, IsHanded, KeepsFront, tree_of};
ghost use Rattle.tree_handles.specs.Inside.{tree_at};
ghost use Rattle.tree_handles.specs.Roots.{root_tree, without_root};
ghost use Rattle.tree_handles.specs.Standing.{KeepsRefusals, LacksBytes, Stands, forest};

use crate::node_step::NodeStep;
use breakers::{Breaker, Interrupted, Watch};
use calc_terms::Kind;
use node_pool::{Id, Pool};
use reduce_port::ReduceFault;
use tree_handles::{Handle, adopt, children, kind, move_last, nodes_below, take_child};

/// The answer of a tree, by a step on each of its nodes but the leaves, which are their own answers. The watch is checked
/// once for each node, children before their parent and from left to right, each time before that node's own step.
///
/// The machine's stack that it takes grows with the tree's depth, since a child is walked by a call within its
/// parent's.
pub fn walk<S: NodeStep, B: Breaker>(
    pool: &mut Pool,
    tree: Handle,
    watch: &mut Watch<B>,
    step: &mut S,
) -> Result<Handle, ReduceFault>
    requires stands { Stands pool.old }
    requires handed { IsHanded tree (forest pool.old) }
    requires taken { S.can_take (tree_of tree pool.old) }

    // The answer: one new tree, last, in place of the one that was handed.
    ensures ok { IfOk result (λ answer. Gives (without_root tree (forest pool.old)) (forest pool.new) answer (S.answers (tree_of tree pool.old))) }
    ensures one_check_a_node { OnOk result
        (CalmChecks (nodes (tree_of tree pool.old)) (states B.state watch.old) (states B.state watch.new)) }

    // An interruption.
    ensures interrupted { IfInterrupted result
        (TripsWithin (nodes (tree_of tree pool.old)) (states B.state watch.old) (states B.state watch.new)) }
    ensures by_the_one_whose_trips_rose { (place : ℕ) → (result ≡ Err (ReduceFault.Interrupted (record { by = place })))
        ↔ TripsRose (states B.state watch.old) (states B.state watch.new) place }

    // An operation that does not fit.
    ensures overflow { IfOverflow result Overflows }
    ensures overflow_at_its_node { IfOverflow result
        (IsUnfitAt S.may_overflow (tree_of tree pool.old) (states B.state watch.old) (states B.state watch.new)) }

    // A lack of bytes.
    ensures full { IfFull result (LacksBytes pool.new) }
    ensures full_where_it_may_lack { IfFull result (λ _. S.may_lack (tree_of tree pool.old) (free_of pool.old + size (tree_of tree pool.old))) }
    ensures full_after_checks { IfFull result (λ _.
        CalmUpTo (nodes (tree_of tree pool.old)) (states B.state watch.old) (states B.state watch.new)) }

    // What stays, whatever is answered.
    ensures refusals { CountsRefusals pool.old pool.new result }
    ensures front { KeepsFront (tree ∷ []) (forest pool.old) (forest pool.new) }
    ensures stands { Stands pool.new }
{
    move_last(pool, &tree);
    walk_last(pool, tree, watch, step)
}

/// The answer of the last tree: its children from left to right, and then, after a check, its root. Leaves stay where they are
/// among the first children. Each other child is taken to the end and walked there, and when all are, their answers are adopted.
fn walk_last<S: NodeStep, B: Breaker>(
    pool: &mut Pool,
    tree: Handle,
    watch: &mut Watch<B>,
    step: &mut S,
) -> Result<Handle, ReduceFault>
    requires stands { Stands pool.old }
    requires handed { IsHanded tree (forest pool.old) }
    requires last { Ends tree (root_tree tree (forest pool.old)) (without_root tree (forest pool.old)) (forest pool.old) }
    requires taken { S.can_take (tree_of tree pool.old) }
    ensures ok { IfOk result (λ h. Gives (without_root tree (forest pool.old)) (forest pool.new) h (S.answers (tree_of tree pool.old))) }
    ensures checks { OnOk result (CalmChecks (nodes (tree_of tree pool.old)) (states B.state watch.old) (states B.state watch.new)) }
    ensures kept { OnOk result (KeepsRefusals pool.old pool.new) }
    ensures stops { IfErr result (Stops S.may_lack S.may_overflow (tree_of tree pool.old) pool.old pool.new (states B.state watch.old) (states B.state watch.new)) }
    ensures front { KeepsFront (tree ∷ []) (forest pool.old) (forest pool.new) }
    ensures stands { Stands pool.new }
{
    step.laws();
    if is_leaf(pool, tree.id()) {
        return match watch.check() {
            Ok(()) => Ok(tree),
            Err(interrupted) => Err(ReduceFault::Interrupted(interrupted)),
        };
    }
    let leaves = check_leaves(pool, tree.id(), watch)?;
    let count = children(pool, tree.id());
    for _at in leaves..count {
        let child = take_child(pool, &tree, leaves);
        let _answer = walk_last(pool, child, watch, step)?;
    }
    adopt(pool, &tree, count - leaves);
    watch.check()?;
    let answer = step.step(pool, tree)?;
    Ok(answer)
}

/// How many of a node's first children are leaves, each of which is its own answer, after one check for each.
fn check_leaves<B: Breaker>(pool: &Pool, id: Id, watch: &mut Watch<B>) -> Result<u16, Interrupted>
    requires stands { Stands pool.now }
    requires expression { IsExpression id (forest pool.now) }
    ensures leaves { IfOk result (λ n. BeginWithLeaves n (children_of (plain (tree_at id (forest pool.now))))) }
    ensures checks { IfOk result (λ n. CalmChecks n (states B.state watch.old) (states B.state watch.new)) }
    ensures trips { IfErr result (λ i. TripsWithin (nodes (plain (tree_at id (forest pool.now)))) (states B.state watch.old) (states B.state watch.new) i.by) }
{
    let mut leaves = 0u16;
    for node in nodes_below(pool, id, 0) {
        if !is_leaf_kind(node.kind) {
            return Ok(leaves);
        }
        watch.check()?;
        leaves += 1;
    }
    Ok(leaves)
}

/// Whether a node is a number, a symbol or Undef.
#[tactic(auto, using(crate::proofs::LeafVisits::leaf_by_kind))]
fn is_leaf(pool: &Pool, id: Id) -> bool
    requires stands { Stands pool.now }
    requires expression { IsExpression id (forest pool.now) }
    ensures { result ≡ is_leaf_tree (plain (tree_at id (forest pool.now))) }
{
    is_leaf_kind(kind(pool, id))
}

/// Whether nodes of a kind are leaves.
#[inline(always)]
fn is_leaf_kind(kind: Kind) -> bool
    ensures { result ≡ is_leaf_kind_of kind }
{
    matches!(kind, Kind::Num | Kind::Sym | Kind::Undef)
}
