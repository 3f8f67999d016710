//! Laws of sums, each the contract of a function without a body.
ghost use Rattle.std.specs.Prelude.{◌≡◌};
ghost use Rattle.calc_terms.specs.Trees.{Tree, Trees};
ghost use Rattle.sum_reduce.specs.Collected.{others_in, AreUnlike, IsWritten};

/// A Number and other terms, no two of which have identical parts, are written as one tree only.
pub fn sums_are_written_once()
    ensures { (n t u : Tree) (ts : Trees) → AreUnlike (others_in ts) → IsWritten n (others_in ts) t → IsWritten n (others_in ts) u → t ≡ u }
{}
