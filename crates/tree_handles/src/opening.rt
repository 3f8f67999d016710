//! A pool in which no tree stands yet.
ghost use Rattle.std.specs.Prelude.{◌≡◌, IfOk, []};
ghost use Rattle.node_pool.specs.State.{IsPoolSize};
ghost use Rattle.tree_handles.specs.Standing.{Stands};

use node_pool::Pool;
use std::alloc::{AllocError, Global};

/// A pool of that many bytes with no tree in it. All memory is taken here.
pub fn open_pool(alloc: Global, size: u32) -> Result<Pool, AllocError>
    requires { IsPoolSize size }
    ensures pool { IfOk result (λ pool. pool ≡ record { nodes = []; size = size; refusals = 0; last_refused = record { needed = 0; free = 0 } }) }
    ensures stands { IfOk result Stands }
{
    let pool = Pool::open(alloc, size)?;
    Ok(pool)
}
