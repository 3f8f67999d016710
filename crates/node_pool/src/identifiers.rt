//! Which identifiers are in use.
ghost use Rattle.std.specs.Prelude.{◌≡◌, ◌+◌, ◌<◌, ◌≤◌, ◌^◌, length, replicate, slice_set, IfOk, true, false};
ghost use Rattle.node_pool.specs.Places.{between, since, IsBoundary};
ghost use Rattle.node_pool.specs.Nodes.{used};
ghost use Rattle.node_pool.specs.Unheld.{unheld, owed_behind};
ghost use Rattle.node_pool.specs.Flags.{IsLeastUnused, HasUnused, AreBelow, AreTakenBelow, without_ids};
ghost use Rattle.node_pool.specs.Contents.{bytes_in};

use crate::buffer::Buffer;
use std::alloc::{AllocError, Global};
use std::marker::Model;

/// A flag for each identifier, and a number below which all are in use, from which the least one
/// that is not is sought.
#[derive(Drop)]
pub struct Identifiers {
    taken: Vec<bool>,
    below: usize,
}

impl Model for Identifiers {
    ghost use Rattle.std.specs.Prelude.{Bool, List};
    ghost use Rattle.node_pool.specs.Flags.{AreTakenBelow};

    ghost Value = { List Bool };

    ghost view = { λ t. t.taken.items };

    ghost invariant = { λ t. AreTakenBelow t.below t.taken.items };
}

impl Identifiers {
    /// None of that many is in use.
    pub fn new(alloc: Global, len: u32) -> Result<Identifiers, AllocError>
        ensures { IfOk result (λ ids. ids ≡ replicate len false) }
    {
        Ok(Identifiers {
            taken: vec![in alloc; false; len as usize]?,
            below: 0,
        })
    }

    /// Takes the least one that is not in use.
    pub fn take_least(&mut self) -> u16
        requires some { HasUnused self.old }
        requires few { length self.old < 2 ^ 16 }
        ensures least { IsLeastUnused result self.old }
        ensures taken { self.new ≡ slice_set self.old result true }
    {
        let mut id = self.below;
        while self.taken[id] {
            id += 1;
        }
        self.taken[id] = true;
        self.below = id + 1;
        id as u16
    }
}

/// The identifiers of the nodes from one place to before another are in use no more. Answers how many nodes these are.
pub fn release_block(ids: &mut Identifiers, buffer: &Buffer, from: u32, to: u32) -> u32
    requires from { IsBoundary from buffer.now.nodes }
    requires to { IsBoundary to buffer.now.nodes }
    requires order { from ≤ to }
    requires known { AreBelow (length ids.old) (between from to buffer.now.nodes) }
    ensures ids { ids.new ≡ without_ids (between from to buffer.now.nodes) ids.old }
    ensures gone { result ≡ length (between from to buffer.now.nodes) }
{
    let below = ids.below;
    let flags = ids.taken.as_mut_slice();
    let (below, gone) = release_nodes(flags, below, buffer, buffer.bytes(), from, to);
    ids.below = below;
    gone
}

/// The same, of so many trees that begin at a place up to a node that is held more than once. Answers where the last of these nodes
/// ends, how many trees are still to come there, and how many nodes these are.
pub fn release_unheld(
    ids: &mut Identifiers,
    buffer: &Buffer,
    from: u32,
    trees: u64,
) -> (u32, u64, u32)
    requires from { IsBoundary from buffer.now.nodes }
    requires few { trees < 2 ^ 16 }
    requires known { AreBelow (length ids.old) (since from buffer.now.nodes) }
    ensures to { IsBoundary result.0 buffer.now.nodes }
    ensures end { result.0 ≡ from + used (unheld trees (since from buffer.now.nodes)) }
    ensures owed { result.1 ≡ owed_behind trees (unheld trees (since from buffer.now.nodes)) }
    ensures gone { result.2 ≡ length (unheld trees (since from buffer.now.nodes)) }
    ensures ids { ids.new ≡ without_ids (unheld trees (since from buffer.now.nodes)) ids.old }
{
    let below = ids.below;
    let flags = ids.taken.as_mut_slice();
    let (below, end, owed, gone) = release_trees(flags, below, buffer, buffer.bytes(), from, trees);
    ids.below = below;
    (end, owed, gone)
}

/// The flags of the nodes from one place to before another are cleared. Answers below which identifier all are in use, and how
/// many nodes these are.
fn release_nodes(
    flags: &mut [bool],
    below: usize,
    buffer: &Buffer,
    bytes: &[u8],
    from: u32,
    to: u32,
) -> (usize, u32)
    requires bytes { bytes.now ≡ bytes_in buffer.now }
    requires from { IsBoundary from buffer.now.nodes }
    requires to { IsBoundary to buffer.now.nodes }
    requires order { from ≤ to }
    requires known { AreBelow (length flags.old) (between from to buffer.now.nodes) }
    requires taken { AreTakenBelow below flags.old }
    ensures flags { flags.new ≡ without_ids (between from to buffer.now.nodes) flags.old }
    ensures taken { AreTakenBelow result.0 flags.new }
    ensures gone { result.1 ≡ length (between from to buffer.now.nodes) }
{
    let mut at = from;
    let mut below = below;
    let mut gone = 0;
    while at < to {
        let header = buffer.header_in(bytes, at);
        below = release(flags, below, header.id);
        at += buffer.size_in(bytes, at);
        gone += 1;
    }
    (below, gone)
}

/// The same of so many trees up to a node that is held more than once. Answers where the last of these nodes ends and how many trees
/// are still to come, too.
fn release_trees(
    flags: &mut [bool],
    below: usize,
    buffer: &Buffer,
    bytes: &[u8],
    from: u32,
    trees: u64,
) -> (usize, u32, u64, u32)
    requires bytes { bytes.now ≡ bytes_in buffer.now }
    requires from { IsBoundary from buffer.now.nodes }
    requires few { trees < 2 ^ 16 }
    requires known { AreBelow (length flags.old) (since from buffer.now.nodes) }
    requires taken { AreTakenBelow below flags.old }
    ensures flags { flags.new ≡ without_ids (unheld trees (since from buffer.now.nodes)) flags.old }
    ensures taken { AreTakenBelow result.0 flags.new }
    ensures to { IsBoundary result.1 buffer.now.nodes }
    ensures end { result.1 ≡ from + used (unheld trees (since from buffer.now.nodes)) }
    ensures owed { result.2 ≡ owed_behind trees (unheld trees (since from buffer.now.nodes)) }
    ensures gone { result.3 ≡ length (unheld trees (since from buffer.now.nodes)) }
{
    let end = buffer.used();
    let mut at = from;
    let mut below = below;
    let mut owed = trees;
    let mut gone = 0;
    while owed > 0 && at < end {
        let header = buffer.header_in(bytes, at);
        if header.count > 1 {
            break;
        }
        below = release(flags, below, header.id);
        at += buffer.size_in(bytes, at);
        owed = owed - 1 + u64::from(header.children);
        gone += 1;
    }
    (below, at, owed, gone)
}

/// One flag is cleared. Answers below which identifier all are in use then.
#[inline(always)]
fn release(flags: &mut [bool], below: usize, id: u16) -> usize
    requires inside { id < length flags.old }
    requires taken { AreTakenBelow below flags.old }
    ensures flags { flags.new ≡ slice_set flags.old id false }
    ensures taken { AreTakenBelow result flags.new }
{
    let id = usize::from(id);
    flags[id] = false;
    below.min(id)
}
