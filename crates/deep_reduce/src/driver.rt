//! The reduction of a whole tree, node by node.
ghost use Rattle.std.specs.Prelude.{⊤};
ghost use Rattle.deep_reduce.specs.Reductions.{IsReducedFrom, MayLack, MayOverflow};

use crate::nodes::reduce_node;
use breakers::{Breaker, Watch};
use node_pool::Pool;
use reduce_port::{ReduceFault, Reducer};
use reduce_walk::{NodeStep, walk};
use tree_handles::{Handle, NumberFault};

/// Reduces a tree node by node, and tells its room and its bits.
///
/// The machine's stack that it takes grows with the tree's depth, since a child is reduced by a call within its
/// parent's.
#[derive(Clone, Copy, Debug)]
pub struct DeepReducer;

impl Reducer for DeepReducer {
    ghost use Rattle.std.specs.Prelude.{Some};
    ghost use Rattle.calc_measures.specs.Measures.{bits as bits_of, room as room_of};

    ghost room = { Some room_of };

    ghost bits = { Some bits_of };

    fn reduce<B: Breaker>(
        &self,
        pool: &mut Pool,
        tree: Handle,
        watch: &mut Watch<B>,
    ) -> Result<Handle, ReduceFault> {
        walk(pool, tree, watch, &mut NodeReducer)
    }
}

/// Reduces one node over reduced children.
#[derive(Drop)]
struct NodeReducer;

impl NodeStep for NodeReducer {
    ghost can_take = { λ t. ⊤ };

    ghost answers = { IsReducedFrom };

    ghost may_lack = { MayLack };

    ghost may_overflow = { MayOverflow };

    fn laws(&self) {}

    #[tactic(auto, using(crate::proofs::Ready::answers_reduced))]
    fn step(&mut self, pool: &mut Pool, tree: Handle) -> Result<Handle, NumberFault> {
        reduce_node(pool, tree)
    }
}
