//! Bytes up to a capacity that is taken once.
ghost use Rattle.std.specs.Prelude.{◌≡◌, ◌≤◌, [], ◌∷◌, ◌++◌, length, IfOk, OnOk, OnErr};
ghost use Rattle.std.specs.Io.KnownBytes.{Appends};
ghost use Rattle.calc_edges.specs.Faults.{HasCause, StopsAtFailure};
ghost use Rattle.calc_edges.specs.Taken.{AppendsPart};
ghost use Rattle.line_text.specs.Content.{spare_of, extended};

use calc_edges::{Failed, Sink, write_all};
use std::alloc::{AllocError, Global};
use std::marker::Model;

/// There is always room for a newline behind the bytes.
#[derive(Drop)]
pub(crate) struct Page {
    bytes: Vec<u8>,
    capacity: u32,
}

impl Model for Page {
    ghost use Rattle.std.specs.Prelude.{◌<◌, ◌≤◌, vec_len, vec_capacity};
    ghost use Rattle.line_text.specs.Content.{Content};

    ghost Value = { Content };

    ghost view = { λ p. record { bytes = p.bytes.items; capacity = p.capacity } };

    ghost invariant = { λ p. (vec_len p.bytes ≤ p.capacity) × (p.capacity < vec_capacity p.bytes) };
}

impl Page {
    pub(crate) fn open(alloc: Global, capacity: u32) -> Result<Page, AllocError>
        ensures { IfOk result (λ page. page ≡ record { bytes = []; capacity = capacity }) }
    {
        Ok(Page {
            bytes: Vec::with_capacity(alloc, capacity as usize + 1)?,
            capacity,
        })
    }

    pub(crate) fn clear(&mut self)
        ensures { self.new ≡ record self.old { bytes = [] } }
    {
        self.bytes.clear();
    }

    pub(crate) fn bytes(&self) -> &[u8]
        ensures { result.now ≡ self.now.bytes }
    {
        self.bytes.as_slice()
    }

    pub(crate) fn spare(&self) -> u32
        ensures { result ≡ spare_of self.now }
    {
        self.capacity - self.bytes.len() as u32
    }

    /// Appends a piece.
    pub(crate) fn push(&mut self, piece: &[u8])
        requires { length piece.now ≤ spare_of self.old }
        ensures { self.new ≡ extended self.old piece.now }
    {
        self.bytes.extend_from_slice(piece).unwrap();
    }

    /// Appends one byte.
    pub(crate) fn push_byte(&mut self, byte: u8)
        requires { 1 ≤ spare_of self.old }
        ensures { self.new ≡ extended self.old (byte ∷ []) }
    {
        self.bytes.push(byte).unwrap();
    }

    /// Writes the bytes and a newline to a sink, as one piece.
    pub(crate) fn write_line<K: Sink>(&mut self, sink: &mut K) -> Result<(), Failed>
        ensures appended { OnOk result (Appends (K.taken sink.old) (K.taken sink.new) (self.old.bytes ++ 10 ∷ [])) }
        ensures part { OnErr result (AppendsPart (K.taken sink.old) (K.taken sink.new) (self.old.bytes ++ 10 ∷ [])) }
        ensures stops { OnErr result (StopsAtFailure K.taken K.faults sink.old sink.new) }
        ensures cause { HasCause (K.faults sink.old) (K.faults sink.new) result }
        ensures kept { self.new ≡ self.old }
    {
        self.bytes.push(b'\n').unwrap();
        let written = write_all(sink, self.bytes.as_slice());
        self.bytes.pop();
        written
    }
}
