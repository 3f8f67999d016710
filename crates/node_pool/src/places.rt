//! Where the node of each identifier begins.
ghost use Rattle.std.specs.Prelude.{◌≡◌, ◌+◌, ◌≤◌, ◌<◌, ◌^◌, length, replicate, slice_set, IfOk};
ghost use Rattle.node_pool.specs.Contents.{bytes_in};
ghost use Rattle.node_pool.specs.Flags.{AreBelow};
ghost use Rattle.node_pool.specs.Noted.{place_in, noted};
ghost use Rattle.node_pool.specs.Places.{between, IsBoundary};

use crate::buffer::Buffer;
use std::alloc::{AllocError, Global};
use std::marker::Model;

/// A place for each identifier, which means something where a node has it.
#[derive(Drop)]
pub struct Places {
    noted: Vec<u32>,
}

impl Model for Places {
    ghost use Rattle.std.specs.Prelude.{ℕ, List};

    ghost Value = { List ℕ };

    ghost view = { λ p. p.noted.items };
}

impl Places {
    /// For that many identifiers.
    pub fn new(alloc: Global, len: u32) -> Result<Places, AllocError>
        ensures { IfOk result (λ places. places ≡ replicate len 0) }
    {
        Ok(Places {
            noted: vec![in alloc; 0; len as usize]?,
        })
    }

    pub fn of(&self, id: u16) -> u32
        requires { id < length self.now }
        ensures { result ≡ place_in id self.now }
    {
        self.noted[usize::from(id)]
    }

    pub fn note(&mut self, id: u16, at: u32)
        requires { id < length self.old }
        ensures { self.new ≡ slice_set self.old id at }
    {
        self.noted[usize::from(id)] = at;
    }
}

/// Notes where the nodes from one place to before another begin.
pub fn note_block(places: &mut Places, buffer: &Buffer, from: u32, to: u32)
    requires from { IsBoundary from buffer.now.nodes }
    requires to { IsBoundary to buffer.now.nodes }
    requires order { from ≤ to }
    requires known { AreBelow (length places.old) (between from to buffer.now.nodes) }
    ensures { places.new ≡ noted from (between from to buffer.now.nodes) places.old }
{
    let list = places.noted.as_mut_slice();
    note_nodes(list, buffer, buffer.bytes(), from, to);
}

/// The same in a list of places, from the buffer's bytes.
fn note_nodes(list: &mut [u32], buffer: &Buffer, bytes: &[u8], from: u32, to: u32)
    requires bytes { bytes.now ≡ bytes_in buffer.now }
    requires from { IsBoundary from buffer.now.nodes }
    requires to { IsBoundary to buffer.now.nodes }
    requires order { from ≤ to }
    requires known { AreBelow (length list.old) (between from to buffer.now.nodes) }
    ensures { list.new ≡ noted from (between from to buffer.now.nodes) list.old }
{
    let mut at = from;
    while at < to {
        let header = buffer.header_in(bytes, at);
        list[usize::from(header.id)] = at;
        at += buffer.size_in(bytes, at);
    }
}
