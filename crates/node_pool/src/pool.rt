//! The pool: nodes one after another in bytes that are taken once.
ghost use Rattle.std.specs.Prelude.{◌≡◌, ◌+◌, ◌-◌, ◌≤◌, ◌<◌, ◌↔◌, ◌⊎◌, [], ◌∷◌, ◌++◌, ◌^◌, length, IfOk, IfErr, IsOk, OnOk, true};
ghost use Rattle.calc_terms.specs.declared.kind.Kind.TheVariants.{Num, Sym};
ghost use Rattle.calc_terms.specs.Rat.{ratio_of};
ghost use Rattle.calc_terms.specs.Payload.{rational, named, bare, is_bare, kind_of_payload, size_of_payload};
ghost use Rattle.calc_terms.specs.Leaf.{payload_of, name_of, IsUsable};
ghost use Rattle.calc_terms.specs.Node.{header_of, fresh, size_of};
ghost use Rattle.node_pool.specs.Nodes.{used, has, place_of, first_of, payload_of_id, with_count, with_children, parent, IsLeastFree};
ghost use Rattle.node_pool.specs.Places.{since, between, without, swapped, moved, exchanged, put_before, IsBoundary};
ghost use Rattle.node_pool.specs.Contents.{IsContents};
ghost use Rattle.node_pool.specs.Flags.{AreBelow};
ghost use Rattle.node_pool.specs.Noted.{noted};
ghost use Rattle.node_pool.specs.Unheld.{unheld, owed_behind};
ghost use Rattle.node_pool.specs.State.{bytes_of, free_of, IsPoolSize, IsPool, refused};

use crate::buffer::Buffer;
use crate::full::Full;
use crate::id::Id;
use crate::identifiers::{Identifiers, release_block, release_unheld};
use crate::places::{Places, note_block};
use calc_terms::{Header, Kind, Leaf, Name, Rat};
use std::alloc::{AllocError, Global};
use std::marker::Model;

/// The bytes of a node that holds a kind alone.
const HEADER: u32 = 8;

/// Nodes side by side in a buffer of one capacity, and zeros behind them.
#[derive(Drop)]
pub struct Pool {
    buffer: Buffer,
    taken: Identifiers,
    places: Places,
    refusals: u64,
    last_refused: Full,
}

impl Model for Pool {
    ghost use Rattle.node_pool.specs.State.{State};

    ghost Value = { State };

    ghost use Rattle.node_pool.specs.Kept.{state_of, IsKept};

    ghost view = { state_of };

    ghost invariant = { IsKept };
}

impl Pool {
    /// A pool of that many bytes, all free. All memory is taken here.
    pub fn open(alloc: Global, size: u32) -> Result<Pool, AllocError>
        requires { IsPoolSize size }
        ensures { IfOk result (λ pool. pool ≡ record { nodes = []; size = size; refusals = 0; last_refused = record { needed = 0; free = 0 } }) }
    {
        let places = Places::new(alloc, size / 8)?;
        let taken = Identifiers::new(alloc, size / 8)?;
        let buffer = Buffer::new(alloc, size)?;
        Ok(Pool {
            buffer,
            taken,
            places,
            refusals: 0,
            last_refused: Full { needed: 0, free: 0 },
        })
    }

    /// The bytes that the nodes take.
    pub fn used(&self) -> u32
        ensures value { result ≡ used self.now.nodes }
        ensures boundary { IsBoundary result self.now.nodes }
        ensures pool { IsPool self.now }
    {
        self.buffer.used()
    }

    /// The bytes that no node takes.
    pub fn free(&self) -> u32
        ensures value { result ≡ free_of self.now }
        ensures pool { IsPool self.now }
    {
        self.buffer.free()
    }

    /// How many nodes there are.
    pub fn nodes(&self) -> u32
        ensures value { result ≡ length self.now.nodes }
        ensures pool { IsPool self.now }
    {
        self.buffer.count()
    }

    /// The capacity in bytes.
    pub fn size(&self) -> u32
        ensures value { result ≡ self.now.size }
        ensures pool { IsPool self.now }
    {
        self.buffer.size()
    }

    /// All bytes, as many as the capacity.
    pub fn bytes(&self) -> &[u8]
        ensures value { result.now ≡ bytes_of self.now }
        ensures pool { IsPool self.now }
    {
        self.buffer.bytes()
    }

    /// How often `place`, `insert` and `ask` were refused, up to 2^64 - 1.
    pub fn refusals(&self) -> u64
        ensures value { result ≡ self.now.refusals }
        ensures pool { IsPool self.now }
    {
        self.refusals
    }

    /// The last refusal, two zeros where there was none.
    pub fn last_refused(&self) -> Full
        ensures value { result ≡ self.now.last_refused }
        ensures pool { IsPool self.now }
    {
        self.last_refused
    }

    /// Where the node begins.
    pub fn locate(&self, id: Id) -> u32
        requires { has id self.now.nodes ≡ true }
        ensures value { result ≡ place_of id self.now.nodes }
        ensures boundary { IsBoundary result self.now.nodes }
        ensures inside { result < used self.now.nodes }
        ensures pool { IsPool self.now }
    {
        self.places.of(id.value())
    }

    /// The header of the node that begins at a place.
    #[inline(always)]
    pub fn header(&self, at: u32) -> Header
        requires boundary { IsBoundary at self.now.nodes }
        requires inside { at < used self.now.nodes }
        ensures value { result ≡ header_of (first_of (since at self.now.nodes)) }
        ensures pool { IsPool self.now }
    {
        self.buffer.header_in(self.buffer.bytes(), at)
    }

    /// The bytes of the node that begins at a place.
    #[inline(always)]
    pub fn size_at(&self, at: u32) -> u32
        requires boundary { IsBoundary at self.now.nodes }
        requires inside { at < used self.now.nodes }
        ensures value { result ≡ size_of (first_of (since at self.now.nodes)) }
        ensures pool { IsPool self.now }
    {
        self.buffer.size_in(self.buffer.bytes(), at)
    }

    /// The value of a number.
    pub fn rational(&self, id: Id) -> Rat
        requires live { has id self.now.nodes ≡ true }
        requires number { kind_of_payload (payload_of_id id self.now.nodes) ≡ Num }
        ensures { payload_of_id id self.now.nodes ≡ rational (ratio_of result) }
    {
        let at = self.locate(id);
        self.buffer.rational(id.value(), at)
    }

    /// The name of a symbol.
    pub fn name(&self, id: Id) -> Name
        requires live { has id self.now.nodes ≡ true }
        requires symbol { kind_of_payload (payload_of_id id self.now.nodes) ≡ Sym }
        ensures { payload_of_id id self.now.nodes ≡ named (name_of result) }
    {
        let at = self.locate(id);
        self.buffer.name(id.value(), at)
    }

    /// A new node at the end, held once and without children. It is inlined, since most callers know what the node holds.
    #[inline(always)]
    pub fn place(&mut self, leaf: Leaf) -> Result<Id, Full>
        requires { IsUsable leaf }
        ensures ok { IfOk result (λ id. self.new ≡ record self.old { nodes = self.old.nodes ++ fresh id (payload_of leaf) ∷ [] }) }
        ensures least { IfOk result (λ id. IsLeastFree id self.old.nodes) }

        // Refused exactly where the node is larger than what is free. Only the refusal is kept.
        ensures exactly { IsOk result ↔ (size_of_payload (payload_of leaf) ≤ free_of self.old) }
        ensures full { IfErr result (λ full. full ≡ record { needed = size_of_payload (payload_of leaf); free = free_of self.old }) }
        ensures counted { IfErr result (λ full. self.new ≡ refused self.old full) }

        ensures pool { IsPool self.new }
    {
        let mut header = leaf.header(0);
        let needed = header.size();
        if needed > self.free() {
            return Err(self.refuse(needed));
        }
        let id = self.taken.take_least();
        let at = self.buffer.used();
        self.places.note(id, at);
        header.id = id;
        self.buffer.push(header, needed, leaf);
        Ok(Id::of(id))
    }

    /// A new node that holds a kind alone, over so many trees, before the node that begins at `at` or at the end.
    #[tactic(auto, using(calc_terms::proofs::Sizes::bare_size))]
    pub fn insert(&mut self, at: u32, kind: Kind, children: u16) -> Result<Id, Full>
        requires boundary { IsBoundary at self.old.nodes }
        requires bare { is_bare kind ≡ true }
        ensures ok { IfOk result (λ id. self.new ≡ record self.old { nodes = put_before at (parent id kind children) self.old.nodes }) }
        ensures least { IfOk result (λ id. IsLeastFree id self.old.nodes) }

        // Refused exactly where the node is larger than what is free. Only the refusal is kept.
        ensures exactly { IsOk result ↔ (size_of_payload (bare kind) ≤ free_of self.old) }
        ensures full { IfErr result (λ full. full ≡ record { needed = size_of_payload (bare kind); free = free_of self.old }) }
        ensures counted { IfErr result (λ full. self.new ≡ refused self.old full) }

        ensures pool { IsPool self.new }
    {
        if self.free() < HEADER {
            return Err(self.refuse(HEADER));
        }
        let id = self.taken.take_least();
        let buffer = &mut self.buffer;
        buffer.insert(at, id, kind, children);
        let used = buffer.used();
        note_block(&mut self.places, buffer, at, used);
        Ok(Id::of(id))
    }

    /// Whether the nodes in the `len` bytes at `from` would fit once more.
    pub fn ask(&mut self, from: u32, len: u32) -> Result<(), Full>
        requires from { IsBoundary from self.old.nodes }
        requires to { IsBoundary (from + len) self.old.nodes }
        ensures ok { OnOk result (self.new ≡ self.old) }

        // Refused exactly where they are larger than what is free. Only the refusal is kept.
        ensures exactly { IsOk result ↔ (len ≤ free_of self.old) }
        ensures full { IfErr result (λ full. full ≡ record { needed = len; free = free_of self.old }) }
        ensures counted { IfErr result (λ full. self.new ≡ refused self.old full) }

        ensures pool { IsPool self.new }
    {
        if len > self.free() {
            return Err(self.refuse(len));
        }
        Ok(())
    }

    /// Counts and keeps a refusal.
    fn refuse(&mut self, needed: u32) -> Full
        ensures full { result ≡ record { needed = needed; free = free_of self.old } }
        ensures counted { self.new ≡ refused self.old result }
        ensures pool { IsPool self.new }
    {
        let full = Full {
            needed,
            free: self.free(),
        };
        self.refusals = self.refusals.saturating_add(1);
        self.last_refused = full;
        full
    }

    /// Sets how often a node is held.
    pub fn set_count(&mut self, id: Id, count: u16)
        requires { has id self.old.nodes ≡ true }
        ensures nodes { self.new ≡ record self.old { nodes = with_count id count self.old.nodes } }
        ensures pool { IsPool self.new }
    {
        let at = self.locate(id);
        self.buffer.set_count(id.value(), at, count);
    }

    /// Sets a node's number of children.
    pub fn set_children(&mut self, id: Id, children: u16)
        requires { has id self.old.nodes ≡ true }
        ensures nodes { self.new ≡ record self.old { nodes = with_children id children self.old.nodes } }
        ensures pool { IsPool self.new }
    {
        let at = self.locate(id);
        self.buffer.set_children(id.value(), at, children);
    }

    /// The nodes in the `len` bytes at `from` are moved before the node that begins at `to` now, or to
    /// the end.
    pub fn move_block(&mut self, from: u32, len: u32, to: u32)
        requires from { IsBoundary from self.old.nodes }
        requires end { IsBoundary (from + len) self.old.nodes }
        requires to { IsBoundary to self.old.nodes }
        requires outside { (to ≤ from) ⊎ (from + len ≤ to) }
        ensures nodes { self.new ≡ record self.old { nodes = moved from len to self.old.nodes } }
        ensures pool { IsPool self.new }
    {
        if to <= from {
            self.bring_forward(from, len, to);
        } else {
            let end = from + len;
            self.bring_forward(end, to - end, from);
        }
    }

    /// The nodes in the `len` bytes at `from` are moved before the node that begins at `to`, which is
    /// before them or is their first.
    fn bring_forward(&mut self, from: u32, len: u32, to: u32)
        requires from { IsBoundary from self.old.nodes }
        requires end { IsBoundary (from + len) self.old.nodes }
        requires to { IsBoundary to self.old.nodes }
        requires order { to ≤ from }
        ensures nodes { self.new ≡ record self.old { nodes = swapped to from (from + len) self.old.nodes } }
        ensures pool { IsPool self.new }
    {
        let buffer = &mut self.buffer;
        let end = from + len;
        if to == from || from == end {
            return;
        }
        buffer.rotate(to, from, end);
        note_block(&mut self.places, buffer, to, end);
    }

    /// The nodes from `first` to before `mid` and those from `second` to before `end` change places.
    pub fn swap_blocks(&mut self, first: u32, mid: u32, second: u32, end: u32)
        requires first { IsBoundary first self.old.nodes }
        requires mid { IsBoundary mid self.old.nodes }
        requires second { IsBoundary second self.old.nodes }
        requires end { IsBoundary end self.old.nodes }
        requires low { first ≤ mid }
        requires apart { mid ≤ second }
        requires high { second ≤ end }
        ensures nodes { self.new ≡ record self.old { nodes = exchanged first mid second end self.old.nodes } }
        ensures pool { IsPool self.new }
    {
        let len = end - second;
        if len == mid - first {
            self.exchange(first, mid, second, end);
        } else {
            self.bring_forward(second, len, first);
            self.bring_forward(mid + len, second - mid, first + len);
        }
    }

    /// The nodes from `first` to before `mid` and those from `second` to before `end`, which take as
    /// many bytes, change places.
    fn exchange(&mut self, first: u32, mid: u32, second: u32, end: u32)
        requires first { IsBoundary first self.old.nodes }
        requires mid { IsBoundary mid self.old.nodes }
        requires second { IsBoundary second self.old.nodes }
        requires end { IsBoundary end self.old.nodes }
        requires low { first ≤ mid }
        requires apart { mid ≤ second }
        requires high { second ≤ end }
        requires alike { end - second ≡ mid - first }
        ensures nodes { self.new ≡ record self.old { nodes = exchanged first mid second end self.old.nodes } }
        ensures pool { IsPool self.new }
    {
        let buffer = &mut self.buffer;
        buffer.exchange(first, mid, second, end);
        note_block(&mut self.places, buffer, first, mid);
        note_block(&mut self.places, buffer, second, end);
    }

    /// The nodes in the `len` bytes at `at` are removed, those behind them close up, and their identifiers
    /// are free.
    pub fn remove_block(&mut self, at: u32, len: u32)
        requires from { IsBoundary at self.old.nodes }
        requires to { IsBoundary (at + len) self.old.nodes }
        ensures nodes { self.new ≡ record self.old { nodes = without at (at + len) self.old.nodes } }
        ensures pool { IsPool self.new }
    {
        let taken = &mut self.taken;
        let end = at + len;
        let gone = release_block(taken, &self.buffer, at, end);
        close_up(&mut self.buffer, &mut self.places, at, end, gone);
    }

    /// Of so many trees that begin at `at`, the nodes before the first one that is held more than once are removed, those behind
    /// them close up, and their identifiers are free. Answers how many trees are still to come at `at` then.
    pub fn remove_unheld(&mut self, at: u32, trees: u64) -> u64
        requires boundary { IsBoundary at self.old.nodes }
        requires few { trees < 2 ^ 16 }
        ensures nodes { self.new ≡ record self.old { nodes = without at (at + used (unheld trees (since at self.old.nodes))) self.old.nodes } }
        ensures owed { result ≡ owed_behind trees (unheld trees (since at self.old.nodes)) }
        ensures pool { IsPool self.new }
    {
        let (end, owed, gone) = release_unheld(&mut self.taken, &self.buffer, at, trees);
        close_up(&mut self.buffer, &mut self.places, at, end, gone);
        owed
    }
}

/// The nodes from `at` to before `end`, so many as `gone` tells, are removed, and where those behind them stand then is noted.
#[inline(always)]
fn close_up(buffer: &mut Buffer, places: &mut Places, at: u32, end: u32, gone: u32)
    requires from { IsBoundary at buffer.old.nodes }
    requires to { IsBoundary end buffer.old.nodes }
    requires order { at ≤ end }
    requires gone { gone ≡ length (between at end buffer.old.nodes) }
    requires known { AreBelow (length places.old) (since end buffer.old.nodes) }
    ensures nodes { buffer.new ≡ record buffer.old { nodes = without at end buffer.old.nodes } }
    ensures kept { IsContents buffer.new }
    ensures places { places.new ≡ noted at (since end buffer.old.nodes) places.old }
{
    buffer.remove(at, end, gone);
    let used = buffer.used();
    note_block(places, buffer, at, used);
}
