//! A list of bytes of one length.
ghost use Rattle.std.specs.Prelude.{◌≡◌, ℕ, List, ◌+◌, ◌-◌, ◌≤◌, ◌<◌, length, replicate, slice_index, slice_set, take, drop, IfOk};
ghost use Rattle.std.specs.List.{refill};
ghost use Rattle.raw_region.specs.Bytes.{put, slid, cleared, rotated, switched};

use crate::block::Block;
use crate::moves;
use std::alloc::{AllocError, Global};
use std::marker::Model;

/// Bytes in a block of memory that is taken once and keeps its size.
pub struct Region {
    block: Block<Global>,
    alloc: Global,
}

impl Model for Region {
    ghost use Rattle.std.specs.Prelude.{ℕ, List};

    ghost Value = { List ℕ };

    ghost use Rattle.raw_region.specs.Regions.{contents, IsWhole};

    ghost view = { contents };

    ghost invariant = { IsWhole };
}

impl Drop for Region {
    fn drop(self) {
        let Region { block, alloc } = self;
        block.give_back(&alloc);
    }
}

impl Region {
    ghost use Rattle.std.specs.Borrow.{sem};
    ghost use Rattle.raw_region.specs.RegionLends.{lends_bytes};

    /// That many zeros.
    pub fn new(alloc: Global, size: u32) -> Result<Region, AllocError>
        ensures { IfOk result (λ region. region ≡ replicate size 0) }
    {
        let len = size as usize;
        let mut block = Block::take(&alloc, len)?;
        fill(&mut block, len);
        Ok(Region { block, alloc })
    }

    pub fn get(&self, at: u32) -> u8
        requires { at < length self.now }
        ensures { result ≡ slice_index self.now at }
    {
        self.bytes()[at as usize]
    }

    /// The `N` bytes from `at` on.
    pub fn read<const N: usize>(&self, at: u32) -> [u8; N]
        requires { at + N ≤ length self.now }
        ensures { result ≡ take N (drop at self.now) }
    {
        moves::read(self.bytes(), at as usize)
    }

    pub fn bytes(&self) -> &[u8]
        ensures { result.now ≡ self.now }
    {
        self.block.bytes()
    }

    fn bytes_mut(&mut self) -> &mut [u8]
        ensures* writes_back { sem 𝓛 (lends_bytes self.entry result) }
        ensures value { result.now ≡ self.old }
        ensures same_len { (ws : List ℕ) → length ws ≡ length self.old → refill (length self.old) self.old ws ≡ ws }
    {
        self.block.bytes_mut()
    }

    pub fn set(&mut self, at: u32, byte: u8)
        requires { at < length self.old }
        ensures { self.new ≡ slice_set self.old at byte }
    {
        self.bytes_mut()[at as usize] = byte;
    }

    /// These bytes in place of what stood there.
    pub fn write(&mut self, at: u32, bytes: &[u8])
        requires { at + length bytes.now ≤ length self.old }
        ensures { self.new ≡ put self.old at bytes.now }
    {
        moves::write(self.bytes_mut(), at as usize, bytes);
    }

    /// What stood in the `len` bytes at `from` stands at `to` too.
    pub fn slide(&mut self, from: u32, to: u32, len: u32)
        requires source { from + len ≤ length self.old }
        requires target { to + len ≤ length self.old }
        ensures { self.new ≡ slid self.old from to len }
    {
        moves::slide(self.bytes_mut(), from as usize, to as usize, len as usize);
    }

    /// Zeros from `from` to before `to`.
    pub fn clear(&mut self, from: u32, to: u32)
        requires order { from ≤ to }
        requires inside { to ≤ length self.old }
        ensures { self.new ≡ cleared self.old from to }
    {
        moves::clear(self.bytes_mut(), from as usize, to as usize);
    }

    /// The bytes from `mid` to `end`, and then those from `start` to `mid`.
    pub fn rotate(&mut self, start: u32, mid: u32, end: u32)
        requires low { start ≤ mid }
        requires high { mid ≤ end }
        requires inside { end ≤ length self.old }
        ensures { self.new ≡ rotated self.old start mid end }
    {
        moves::rotate(self.bytes_mut(), start as usize, mid as usize, end as usize);
    }

    /// The `len` bytes at `low` and those at `high` change places.
    pub fn exchange(&mut self, low: u32, high: u32, len: u32)
        requires apart { low + len ≤ high }
        requires inside { high + len ≤ length self.old }
        ensures { self.new ≡ switched self.old low high len }
    {
        moves::exchange(self.bytes_mut(), low as usize, high as usize, len as usize);
    }
}

/// Zeros in all of the block.
fn fill(block: &mut Block<Global>, len: usize)
    requires len { block.old.len ≡ len }
    requires empty { length block.old.bytes ≡ 0 }
    ensures len { block.new.len ≡ block.old.len }
    ensures zeros { block.new.bytes ≡ replicate len 0 }
    ensures alloc { block.new.alloc ≡ block.old.alloc }
{
    let mut i = 0;
    while i < len {
        block.append(i, 0);
        i += 1;
    }
}
