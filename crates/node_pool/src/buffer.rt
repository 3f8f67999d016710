//! Nodes one after another in bytes, and zeros behind them.
ghost use Rattle.std.specs.Prelude.{◌≡◌, ◌+◌, ◌-◌, ◌<◌, ◌≤◌, ◌⊎◌, [], ◌∷◌, ◌++◌, ◌^◌, length, IfOk, true};
ghost use Rattle.calc_terms.specs.declared.kind.Kind.TheVariants.{Num, Sym};
ghost use Rattle.calc_terms.specs.Rat.{ratio_of};
ghost use Rattle.calc_terms.specs.Payload.{rational, named, is_bare, kind_of_payload, size_of_payload};
ghost use Rattle.calc_terms.specs.Leaf.{payload_of, name_of, IsUsable};
ghost use Rattle.calc_terms.specs.Node.{header_of, fresh, size_of, size_of_header};
ghost use Rattle.node_pool.specs.Nodes.{used, has, place_of, first_of, payload_of_id, with_count, with_children, parent};
ghost use Rattle.node_pool.specs.Places.{since, between, without, swapped, exchanged, put_before, IsBoundary};
ghost use Rattle.node_pool.specs.Contents.{bytes_in, IsContents};

use crate::node;
use calc_terms::{Header, Kind, Leaf, Name, Rat, size_by_code};
use raw_region::Region;
use std::alloc::{AllocError, Global};
use std::marker::Model;

/// The nodes, the bytes that they take, and how many there are.
#[derive(Drop)]
pub struct Buffer {
    store: Region,
    used: u32,
    count: u32,
}

impl Model for Buffer {
    ghost use Rattle.node_pool.specs.Contents.{Contents};

    ghost Value = { Contents };

    ghost use Rattle.node_pool.specs.Laid.{contents_of, IsLaid};

    ghost view = { contents_of };

    ghost invariant = { IsLaid };
}

impl Buffer {
    /// No nodes in that many bytes.
    pub fn new(alloc: Global, size: u32) -> Result<Buffer, AllocError>
        requires { size ≤ 524280 }
        ensures { IfOk result (λ buffer. buffer ≡ record { nodes = []; size = size }) }
    {
        Ok(Buffer {
            store: Region::new(alloc, size)?,
            used: 0,
            count: 0,
        })
    }

    pub fn used(&self) -> u32
        ensures { result ≡ used self.now.nodes }
    {
        self.used
    }

    pub fn free(&self) -> u32
        ensures { result ≡ self.now.size - used self.now.nodes }
    {
        self.size() - self.used
    }

    pub fn count(&self) -> u32
        ensures { result ≡ length self.now.nodes }
    {
        self.count
    }

    pub fn size(&self) -> u32
        ensures { result ≡ self.now.size }
    {
        self.store.bytes().len() as u32
    }

    pub fn bytes(&self) -> &[u8]
        ensures { result.now ≡ bytes_in self.now }
    {
        self.store.bytes()
    }

    /// The header of the node that begins at a place, from the buffer's bytes, which a loop takes once.
    #[inline(always)]
    pub fn header_in(&self, bytes: &[u8], at: u32) -> Header
        requires bytes { bytes.now ≡ bytes_in self.now }
        requires boundary { IsBoundary at self.now.nodes }
        requires inside { at < used self.now.nodes }
        ensures value { result ≡ header_of (first_of (since at self.now.nodes)) }
        ensures next { IsBoundary (at + size_of_header result) self.now.nodes }
        ensures rest { since at self.now.nodes ≡ first_of (since at self.now.nodes) ∷ since (at + size_of_header result) self.now.nodes }
        ensures within { at + size_of_header result ≤ used self.now.nodes }
        ensures kept { IsContents self.now }
    {
        // What a buffer keeps is known once a field is read.
        let _used = self.used;
        node::header_at(bytes, at)
    }

    /// The bytes of the node that begins at a place, from the buffer's bytes.
    #[inline(always)]
    pub fn size_in(&self, bytes: &[u8], at: u32) -> u32
        requires bytes { bytes.now ≡ bytes_in self.now }
        requires boundary { IsBoundary at self.now.nodes }
        requires inside { at < used self.now.nodes }
        ensures { result ≡ size_of (first_of (since at self.now.nodes)) }
    {
        let _used = self.used;
        let place = at as usize;
        size_by_code(bytes[place], bytes[place + 1])
    }

    pub fn rational(&self, id: u16, at: u32) -> Rat
        requires live { has id self.now.nodes ≡ true }
        requires place { at ≡ place_of id self.now.nodes }
        requires number { kind_of_payload (payload_of_id id self.now.nodes) ≡ Num }
        ensures { payload_of_id id self.now.nodes ≡ rational (ratio_of result) }
    {
        node::rational_at(&self.store, at)
    }

    pub fn name(&self, id: u16, at: u32) -> Name
        requires live { has id self.now.nodes ≡ true }
        requires place { at ≡ place_of id self.now.nodes }
        requires symbol { kind_of_payload (payload_of_id id self.now.nodes) ≡ Sym }
        ensures { payload_of_id id self.now.nodes ≡ named (name_of result) }
    {
        node::name_at(&self.store, at)
    }

    /// A new node at the end, of which the header and the size are told.
    pub fn push(&mut self, header: Header, size: u32, leaf: Leaf)
        requires usable { IsUsable leaf }
        requires header { header ≡ header_of (fresh header.id (payload_of leaf)) }
        requires size { size ≡ size_of_payload (payload_of leaf) }
        requires room { size_of_payload (payload_of leaf) ≤ self.old.size - used self.old.nodes }
        ensures nodes { self.new ≡ record self.old { nodes = self.old.nodes ++ fresh header.id (payload_of leaf) ∷ [] } }
        ensures kept { IsContents self.new }
    {
        node::write_node(&mut self.store, self.used, header, leaf);
        self.used += size;
        self.count += 1;
    }

    /// A new node that holds a kind alone, over so many trees, before the node that begins at a place or at the end.
    pub fn insert(&mut self, at: u32, id: u16, kind: Kind, children: u16)
        requires boundary { IsBoundary at self.old.nodes }
        requires bare { is_bare kind ≡ true }
        requires room { 8 ≤ self.old.size - used self.old.nodes }
        ensures nodes { self.new ≡ record self.old { nodes = put_before at (parent id kind children) self.old.nodes } }
        ensures kept { IsContents self.new }
    {
        let used = self.used;
        self.store.slide(at, at + 8, used - at);
        let header = Header {
            kind,
            short: false,
            id,
            count: 1,
            children,
        };
        node::write_header(&mut self.store, at, header);
        self.used = used + 8;
        self.count += 1;
    }

    pub fn set_count(&mut self, id: u16, at: u32, count: u16)
        requires live { has id self.old.nodes ≡ true }
        requires place { at ≡ place_of id self.old.nodes }
        ensures nodes { self.new ≡ record self.old { nodes = with_count id count self.old.nodes } }
        ensures kept { IsContents self.new }
    {
        node::write_count(&mut self.store, at, count);
    }

    pub fn set_children(&mut self, id: u16, at: u32, children: u16)
        requires live { has id self.old.nodes ≡ true }
        requires place { at ≡ place_of id self.old.nodes }
        ensures nodes { self.new ≡ record self.old { nodes = with_children id children self.old.nodes } }
        ensures kept { IsContents self.new }
    {
        node::write_children(&mut self.store, at, children);
    }

    /// The nodes from `at` to before `end`, so many as `gone` tells, are removed, and those behind them close up.
    pub fn remove(&mut self, at: u32, end: u32, gone: u32)
        requires from { IsBoundary at self.old.nodes }
        requires to { IsBoundary end self.old.nodes }
        requires order { at ≤ end }
        requires gone { gone ≡ length (between at end self.old.nodes) }
        ensures nodes { self.new ≡ record self.old { nodes = without at end self.old.nodes } }
        ensures kept { IsContents self.new }
    {
        let used = self.used;
        let rest = used - end;
        self.store.slide(end, at, rest);
        self.store.clear(at + rest, used);
        self.used = at + rest;
        self.count -= gone;
    }

    /// The nodes from `mid` to before `end` stand before those from `start` to before `mid`.
    pub fn rotate(&mut self, start: u32, mid: u32, end: u32)
        requires start { IsBoundary start self.old.nodes }
        requires mid { IsBoundary mid self.old.nodes }
        requires end { IsBoundary end self.old.nodes }
        requires low { start ≤ mid }
        requires high { mid ≤ end }
        ensures nodes { self.new ≡ record self.old { nodes = swapped start mid end self.old.nodes } }
        ensures kept { IsContents self.new }
    {
        self.store.rotate(start, mid, end);
    }

    /// The nodes from `first` to before `mid` and those from `second` to before `end`, which take as
    /// many bytes, change places.
    pub fn exchange(&mut self, first: u32, mid: u32, second: u32, end: u32)
        requires first { IsBoundary first self.old.nodes }
        requires mid { IsBoundary mid self.old.nodes }
        requires second { IsBoundary second self.old.nodes }
        requires end { IsBoundary end self.old.nodes }
        requires low { first ≤ mid }
        requires apart { mid ≤ second }
        requires high { second ≤ end }
        requires alike { end - second ≡ mid - first }
        ensures nodes { self.new ≡ record self.old { nodes = exchanged first mid second end self.old.nodes } }
        ensures kept { IsContents self.new }
    {
        self.store.exchange(first, second, end - second);
    }
}
