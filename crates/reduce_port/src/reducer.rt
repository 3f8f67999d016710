//! The port through which a line is reduced.
use crate::fault::ReduceFault;
use breakers::{Breaker, Watch};
use node_pool::Pool;
use tree_handles::Handle;

/// A call that reduces whole trees.
///
/// A reducer may tell two numbers of a tree, which depend on the tree alone: `room`, within whose bytes it is
/// reduced, and `bits`, with at most `bits_limit` of which no operation overflows. Where it tells them, bytes are lacking
/// only for a tree whose `room` is more than was free with the tree's own bytes, and an operation overflows only
/// for a tree of more `bits` than that.
pub trait Reducer {
    ghost use Rattle.std.specs.Prelude.{◌≡◌, ◌↔◌, ◌+◌, ◌*◌, ℕ, Option, IfOk, OnOk, true, [], ◌∷◌};
    ghost use Rattle.calc_terms.specs.Limits.{bits_limit};
    ghost use Rattle.breakers.specs.Breakers.{CalmChecks, CalmUpTo, TripsRose, TripsWithin};
    ghost use Rattle.breakers.specs.Watch.{states};
    ghost use Rattle.calc_algebra.specs.BadAndEasy.{IsEasy};
    ghost use Rattle.calc_measures.specs.PlainOverflows.{is_overflow, nodes_to_overflow};
    ghost use Rattle.calc_measures.specs.PlainValues.{plain_value};
    ghost use Rattle.calc_terms.specs.Trees.{Tree, undef, nodes, size};
    ghost use Rattle.node_pool.specs.State.{free_of};
    ghost use Rattle.reduce_port.specs.Bounds.{MayExceed, Covers};
    ghost use Rattle.tree_handles.specs.Standing.{LacksBytes, Stands, forest};
    ghost use Rattle.tree_handles.specs.Causes.{Overflows};
    ghost use Rattle.reduce_port.specs.EasyTrees.{Evaluates, HasEasyBadPart};
    ghost use Rattle.reduce_port.specs.Faults.{IfFull, IfOverflow, IfInterrupted, CountsRefusals};
    ghost use Rattle.calc_measures.specs.PlainTrees.{IsPlainAnswer, IsPlainOverflow};
    ghost use Rattle.calc_algebra.specs.Rewritings.{Reduces};
    ghost use Rattle.tree_handles.specs.Handed.{tree_of, IsHanded, Gives, KeepsFront};
    ghost use Rattle.tree_handles.specs.Roots.{without_root};

    // The bytes within which a tree is reduced, where the reducer tells them.
    ghost room: { Option (Tree → ℕ) };

    // The bits of the numbers in a tree's reduction, where the reducer tells them.
    ghost bits: { Option (Tree → ℕ) };

    /// Reduces a tree. The watch is checked once for each of its nodes, children before their parent and from left
    /// to right, each time before that node's own step.
    fn reduce<B: Breaker>(
        &self,
        pool: &mut Pool,
        tree: Handle,
        watch: &mut Watch<B>,
    ) -> Result<Handle, ReduceFault>
        requires stands { Stands pool.old }
        requires handed { IsHanded tree (forest pool.old) }

        // The answer: one new tree, last, in place of the one that was handed.
        ensures reduces { IfOk result (λ answer.
            Gives (without_root tree (forest pool.old)) (forest pool.new) answer (Reduces (tree_of tree pool.old))) }
        ensures one_check_a_node { OnOk result
            (CalmChecks (nodes (tree_of tree pool.old)) (states B.state watch.old) (states B.state watch.new)) }
        ensures within_room { IfOk result (λ answer. Covers room (tree_of tree pool.old) (5 * size (tree_of answer pool.new))) }

        // Trees without symbols, and plain trees.
        ensures easy_trees { IfOk result (λ answer.
            IsEasy (tree_of tree pool.old) → Evaluates (tree_of tree pool.old) (tree_of answer pool.new)) }
        ensures bad_parts { IfOk result (λ answer. HasEasyBadPart (tree_of tree pool.old) → tree_of answer pool.new ≡ undef) }
        ensures plain_answers { IfOk result (λ answer. IsPlainAnswer (plain_value (tree_of tree pool.old)) (tree_of answer pool.new)) }
        ensures plain_overflows { IfOverflow result (IsPlainOverflow (plain_value (tree_of tree pool.old))) }
        ensures plain_overflow_at_its_node { IfOverflow result (λ _. is_overflow (plain_value (tree_of tree pool.old)) ≡ true
            → CalmChecks (nodes_to_overflow (tree_of tree pool.old)) (states B.state watch.old) (states B.state watch.new)) }

        // An interruption.
        ensures interrupted { IfInterrupted result
            (TripsWithin (nodes (tree_of tree pool.old)) (states B.state watch.old) (states B.state watch.new)) }
        ensures by_the_one_whose_trips_rose { (place : ℕ) → (result ≡ Err (ReduceFault.Interrupted (record { by = place })))
            ↔ TripsRose (states B.state watch.old) (states B.state watch.new) place }

        // An operation that does not fit.
        ensures overflow { IfOverflow result Overflows }
        ensures overflow_beyond_bits { IfOverflow result (λ _. MayExceed bits (tree_of tree pool.old) bits_limit) }
        ensures overflow_after_checks { IfOverflow result (λ _.
            CalmUpTo (nodes (tree_of tree pool.old)) (states B.state watch.old) (states B.state watch.new)) }

        // A lack of bytes.
        ensures full { IfFull result (LacksBytes pool.new) }
        ensures full_beyond_room { IfFull result (λ _.
            MayExceed room (tree_of tree pool.old) (free_of pool.old + size (tree_of tree pool.old))) }
        ensures full_after_checks { IfFull result (λ _.
            CalmUpTo (nodes (tree_of tree pool.old)) (states B.state watch.old) (states B.state watch.new)) }

        // What stays, whatever is answered.
        ensures refusals { CountsRefusals pool.old pool.new result }
        ensures front { KeepsFront (tree ∷ []) (forest pool.old) (forest pool.new) }
        ensures stands { Stands pool.new };
}
