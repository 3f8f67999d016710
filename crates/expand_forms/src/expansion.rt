//! The expansion of a whole tree, node by node.
ghost use Rattle.calc_measures.specs.Measures.{bits};
ghost use Rattle.std.specs.Prelude.{◌≡◌, ◌↔◌, ◌+◌, ◌*◌, ◌<◌, ◌≤◌, ℕ, IfOk, OnOk, Err, true, [], ◌∷◌};
ghost use Rattle.breakers.specs.Breakers.{CalmChecks, TripsRose};
ghost use Rattle.breakers.specs.Watch.{states};
ghost use Rattle.calc_algebra.specs.Rewritings.{HasNoNewName};
ghost use Rattle.calc_terms.specs.Trees.{nodes, size};
ghost use Rattle.expansions.specs.ExpandedTrees.{expanded};
ghost use Rattle.expansions.specs.ExpansionRoom.{expansion_room};
ghost use Rattle.expansions.specs.PolynomialTrees.{is_polynomial, polynomial_of};
ghost use Rattle.expand_forms.specs.PowersOfSums.{IsReadyFrom};
ghost use Rattle.expand_forms.specs.Walks.{IsPolynomial, MayLack, MayOverflow};
ghost use Rattle.node_pool.specs.State.{free_of};
ghost use Rattle.reduce_port.specs.Checks.{CalmUpTo, TripsWithin};
ghost use Rattle.reduce_port.specs.Faults.{CountsRefusals, IfFull, IfInterrupted, IfOverflow};
ghost use Rattle.tree_handles.specs.Causes.{Overflows};
ghost use Rattle.tree_handles.specs.Handed.{Gives, IsHanded, KeepsFront, tree_of};
ghost use Rattle.tree_handles.specs.Roots.{without_root};
ghost use Rattle.tree_handles.specs.Standing.{LacksBytes, Stands, forest};

use crate::powers_of_sums::raise_answer;
use crate::step::expand_next;
use crate::term_lists::TermLists;
use breakers::{Breaker, Watch};
use node_pool::Pool;
use reduce_port::ReduceFault;
use reduce_walk::{NodeStep, walk};
use tree_handles::{Handle, NumberFault};

/// The expanded tree of a tree that is a polynomial. The watch is checked once for each of its nodes, children before
/// their parent and from left to right, each time before that node's own step. What stands in the lists does not matter.
///
/// A child is expanded by a call within its parent's, so the machine's stack that it takes grows with the tree's depth.
pub fn expand<B: Breaker>(
    pool: &mut Pool,
    tree: Handle,
    lists: &mut TermLists,
    watch: &mut Watch<B>,
) -> Result<Handle, ReduceFault>
    requires stands { Stands pool.old }
    requires handed { IsHanded tree (forest pool.old) }
    requires polynomial { is_polynomial (tree_of tree pool.old) ≡ true }

    // The answer: one new tree, last, in place of the one that was handed.
    ensures ok { IfOk result (λ answer. Gives (without_root tree (forest pool.old)) (forest pool.new) answer (λ t. t ≡ expanded (polynomial_of (tree_of tree pool.old)))) }
    ensures one_check_a_node { OnOk result
        (CalmChecks (nodes (tree_of tree pool.old)) (states B.state watch.old) (states B.state watch.new)) }
    ensures no_new_name { IfOk result (λ answer. HasNoNewName (tree_of tree pool.old) (tree_of answer pool.new)) }
    ensures within_room { IfOk result (λ answer. 5 * size (tree_of answer pool.new) ≤ expansion_room (tree_of tree pool.old)) }

    // An interruption.
    ensures interrupted { IfInterrupted result
        (TripsWithin (nodes (tree_of tree pool.old)) (states B.state watch.old) (states B.state watch.new)) }
    ensures by_the_one_whose_trips_rose { (place : ℕ) → (result ≡ Err (ReduceFault.Interrupted (record { by = place })))
        ↔ TripsRose (states B.state watch.old) (states B.state watch.new) place }

    // An operation that does not fit.
    ensures overflow { IfOverflow result Overflows }
    ensures overflow_beyond_bits { IfOverflow result (λ _. 124 < bits (tree_of tree pool.old)) }
    ensures overflow_after_checks { IfOverflow result (λ _.
        CalmUpTo (nodes (tree_of tree pool.old)) (states B.state watch.old) (states B.state watch.new)) }

    // A lack of bytes.
    ensures full { IfFull result (LacksBytes pool.new) }
    ensures full_beyond_room { IfFull result (λ _.
        free_of pool.old + size (tree_of tree pool.old) < expansion_room (tree_of tree pool.old)) }
    ensures full_after_checks { IfFull result (λ _.
        CalmUpTo (nodes (tree_of tree pool.old)) (states B.state watch.old) (states B.state watch.new)) }

    // What stays, whatever is answered.
    ensures refusals { CountsRefusals pool.old pool.new result }
    ensures front { KeepsFront (tree ∷ []) (forest pool.old) (forest pool.new) }
    ensures stands { Stands pool.new }
{
    match walk(pool, tree, watch, lists) {
        Ok(answer) => Ok(raise_answer(pool, answer, lists)?),
        Err(fault) => Err(fault),
    }
}

/// Expands one node over what has become of its children.
impl NodeStep for TermLists {
    ghost can_take = { IsPolynomial };

    ghost answers = { IsReadyFrom };

    ghost may_lack = { MayLack };

    ghost may_overflow = { MayOverflow };

    fn laws(&self) {}

    fn step(&mut self, pool: &mut Pool, tree: Handle) -> Result<Handle, NumberFault> {
        expand_next(pool, tree, self)
    }
}
