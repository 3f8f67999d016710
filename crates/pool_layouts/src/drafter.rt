//! The lists that layouts and pictures are made with.
ghost use Rattle.std.specs.Prelude.{◌≡◌, IfOk};

use crate::extents::Extent;
use crate::frames::Frame;
use crate::steps::Step;
use std::alloc::{AllocError, Global};
use std::marker::Model;
use tree_handles::Visit;

/// Lists for the nodes of a tree, in memory that is taken at opening. It is seen as the size of the pools that it serves,
/// and as what is listed of the tree that was listed last.
#[derive(Drop)]
pub struct Drafter {
    pub(crate) pool_size: u32,
    pub(crate) cells: Vec<Visit>,
    pub(crate) extents: Vec<Extent>,
    pub(crate) under_way: Vec<Frame>,
    pub(crate) steps: Vec<Step>,
}

impl Model for Drafter {
    ghost use Rattle.pool_layouts.specs.Drafts.{Draft};

    ghost Value = { Draft };

    ghost use Rattle.pool_layouts.specs.Drafters.{draft_of, HasRoom};

    ghost view = { draft_of };

    ghost invariant = { HasRoom };
}

impl Drafter {
    /// A drafter for pools of at most that many bytes. All memory is taken here.
    pub fn open(alloc: Global, pool_size: u32) -> Result<Drafter, AllocError>
        ensures { IfOk result (λ drafter. drafter.pool_size ≡ pool_size) }
    {
        // Each node has 8 bytes at least.
        let nodes = pool_size as usize / 8 + 1;
        let cells = Vec::with_capacity(alloc, nodes)?;
        let extents = Vec::with_capacity(alloc, nodes)?;
        let under_way = Vec::with_capacity(alloc, nodes)?;
        let steps = Vec::with_capacity(alloc, nodes)?;
        Ok(Drafter {
            pool_size,
            cells,
            extents,
            under_way,
            steps,
        })
    }
}
