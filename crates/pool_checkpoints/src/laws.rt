//! Laws of marks. Each is the contract of a function that does nothing.
ghost use Rattle.pool_checkpoints.specs.Laws.{MarksNest, PoolsAreRestored};

/// A pool of the same size that stands for the same trees has the same bytes, and the same places
/// of nodes. So a pool that was rolled back is as it was when the mark was opened.
pub fn pools_are_restored()
    ensures { PoolsAreRestored }
{}

/// What is below the outer of two marks is still below it after a rolling back to the inner one.
pub fn marks_nest()
    ensures { MarksNest }
{}
