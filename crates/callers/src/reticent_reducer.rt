//! A reducer of one's own.
use breakers::{Breaker, Watch};
use deep_reduce::DeepReducer;
use node_pool::Pool;
use reduce_port::{ReduceFault, Reducer};
use tree_handles::Handle;

/// It reduces as the program does, but tells neither the room nor the bits of a tree. A session takes it, since the other clauses of
/// a reducer are all that its own clauses rest on.
#[derive(Clone, Copy, Debug)]
pub struct ReticentReducer;

impl Reducer for ReticentReducer {
    ghost use Rattle.std.specs.Prelude.{None};

    ghost room = { None };

    ghost bits = { None };

    fn reduce<B: Breaker>(
        &self,
        pool: &mut Pool,
        tree: Handle,
        watch: &mut Watch<B>,
    ) -> Result<Handle, ReduceFault> {
        DeepReducer.reduce(pool, tree, watch)
    }
}
