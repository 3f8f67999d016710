//! Marks: opened, ended and rolled back to.
ghost use Rattle.std.specs.Prelude.{◌≡◌};
ghost use Rattle.node_pool.specs.Nodes.{used};
ghost use Rattle.tree_handles.specs.Forest.{Forest, bytes_in};
ghost use Rattle.tree_handles.specs.Standing.{Stands, forest, KeepsRefusals};
ghost use Rattle.pool_checkpoints.specs.Marks.{IsBelow};

use node_pool::Pool;
use std::marker::Model;
use tree_handles::drop_behind;

/// The used length of a pool at a moment, in bytes.
///
/// Marks nest: one that is opened later is ended or rolled back to first. Or it is forgotten, where
/// the pool is rolled back to one that was opened before it.
#[derive(Drop)]
pub struct Mark {
    used: u32,
}

impl Model for Mark {
    ghost use Rattle.std.specs.Prelude.{ℕ};

    ghost Value = { ℕ };

    ghost view = { λ m. m.used };
}

/// A mark behind all trees that stand in the pool now.
pub fn open_mark(pool: &Pool) -> Mark
    ensures used { result ≡ used pool.now.nodes }
    ensures trees { Stands pool.now → result ≡ bytes_in (forest pool.now) }
{
    Mark { used: pool.used() }
}

/// Ends a mark: the trees above it stay. Nothing changes in the pool.
pub fn commit(_pool: &Pool, _mark: Mark) {}

/// The trees above a mark are removed, whatever holds them: all handles to them, and to nodes in them, are
/// spent. Handles to trees below the mark are as good as before.
pub fn roll_back(pool: &mut Pool, mark: Mark)
    requires stands { Stands pool.old }
    requires below { (first : Forest) × IsBelow mark first (forest pool.old) }
    ensures forest { (first : Forest) → IsBelow mark first (forest pool.old) → forest pool.new ≡ first }
    ensures kept { KeepsRefusals pool.old pool.new }
    ensures stands { Stands pool.new }
{
    drop_behind(pool, mark.used);
}
