//! The rational 1, with the cause of a refusal.
ghost use Rattle.std.specs.Prelude.{◌≡◌, ◌<◌, IfOk, IfErr, []};
ghost use Rattle.calc_algebra.specs.Reduced.{num_one};
ghost use Rattle.node_pool.specs.State.{free_of};
ghost use Rattle.tree_handles.specs.Standing.{Stands, forest};
ghost use Rattle.tree_handles.specs.Handed.{Gives, KeepsFront};
ghost use Rattle.product_reduce.specs.Pools.{LeavesFull};

use calc_terms::Rat;
use node_pool::{Full, Pool};
use tree_handles::{Handle, number};

/// A new last tree that is the rational 1.
pub fn one(pool: &mut Pool) -> Result<Handle, Full>
    requires stands { Stands pool.old }
    ensures ok { IfOk result (λ h. Gives (forest pool.old) (forest pool.new) h (λ t. t ≡ num_one)) }
    ensures front { KeepsFront [] (forest pool.old) (forest pool.new) }
    ensures room { IfErr result (λ full. free_of pool.old < 40) }
    ensures leaves { LeavesFull result pool.old pool.new }
{
    let one = number(pool, Rat::whole(1))?;
    Ok(one)
}
