//! A block of bytes and its owner. The functions here are all that hold a raw pointer.
ghost use Rattle.std.specs.Prelude.{◌≡◌, ℕ, ◌<◌, ◌^◌, List, [], ◌∷◌, ◌++◌, length, IfOk};
ghost use Rattle.std.specs.Borrow.{sem};
ghost use Rattle.raw_region.specs.Blocks.{block_owns, block_shows};

use std::alloc::{AllocError, Allocator};
use std::marker::{Model, PhantomData};
use std::slice;

/// The owner of `len` bytes at `start`: those written so far, the room behind them, and the right to give the block
/// back to `alloc`.
pub(crate) struct Block<A: Allocator> {
    start: *mut u8,
    len: usize,
    mark: PhantomData<*const A>,
    ghost bytes: { List ℕ },
    ghost alloc: { A },
}

impl<A: Allocator> Model for Block<A> {
    ghost also_owns = { λ b. block_owns (A.dealloc_token b.alloc) b.start b.len b.bytes };

    ghost also_shares = { λ b _ κ. block_shows b.start b.len b.bytes κ };
}

impl<A: Allocator> Block<A> {
    ghost use Rattle.raw_region.specs.BlockLends.{lends_written};

    /// A block in which nothing is written.
    pub(crate) fn take(alloc: &A, len: usize) -> Result<Block<A>, AllocError>
        requires { len < 2 ^ 63 }
        ensures { IfOk result (λ block. (block.len ≡ len) × (block.bytes ≡ []) × (block.alloc ≡ alloc.now)) }
    {
        match alloc.allocate(len, 1) {
            Ok(start) => Ok(Block {
                start,
                len,
                mark: PhantomData,
            }),
            Err(error) => Err(error),
        }
    }

    /// Writes the first byte of the room.
    pub(crate) fn append(&mut self, at: usize, byte: u8)
        requires { (at ≡ length self.old.bytes) × (at < self.old.len) }
        ensures { (self.new.len ≡ self.old.len) × (self.new.bytes ≡ self.old.bytes ++ byte ∷ []) × (self.new.alloc ≡ self.old.alloc) }
    {
        unsafe { self.start.add(at).write(byte) }
    }

    pub(crate) fn bytes(&self) -> &[u8]
        requires { length self.now.bytes ≡ self.now.len }
        ensures { result.now ≡ self.now.bytes }
    {
        unsafe { slice::from_raw_parts(self.start, self.len) }
    }

    pub(crate) fn bytes_mut(&mut self) -> &mut [u8]
        requires { length self.old.bytes ≡ self.old.len }
        ensures* writes_back { sem 𝓛 (lends_written A.row A.Allocator self.entry result) }
        ensures value { result.now ≡ self.old.bytes }
    {
        unsafe { slice::from_raw_parts_mut(self.start, self.len) }
    }

    /// Gives the block back, once all of it is written.
    pub(crate) fn give_back(self, alloc: &A)
        requires { (length self.bytes ≡ self.len) × (self.alloc ≡ alloc.now) }
    {
        let Block {
            start,
            len,
            mark: _,
        } = self;
        unsafe {
            alloc.deallocate(start, len, 1);
        }
    }
}
