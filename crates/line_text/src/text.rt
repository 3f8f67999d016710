//! Texts, in bytes that are taken once.
ghost use Rattle.std.specs.Prelude.{◌≡◌, ◌≤◌, [], ◌∷◌, ◌++◌, length, IfOk, OnOk, OnErr};
ghost use Rattle.std.specs.Io.KnownBytes.{Appends};
ghost use Rattle.calc_edges.specs.Faults.{HasCause, StopsAtFailure};
ghost use Rattle.calc_edges.specs.Taken.{AppendsPart};
ghost use Rattle.line_text.specs.Content.{spare_of, extended};

use crate::page::Page;
use crate::place::Pending;
use calc_edges::{Failed, Sink};
use std::alloc::{AllocError, Global};
use std::marker::Model;

/// Bytes of texts, up to a capacity. All memory is taken at opening, also what writing a tree needs.
#[derive(Drop)]
pub struct Text {
    pub(crate) page: Page,
    pub(crate) pending: Vec<Pending>,
}

impl Model for Text {
    ghost use Rattle.std.specs.Prelude.{◌*◌, ◌<◌, vec_capacity};
    ghost use Rattle.line_text.specs.Content.{Content};

    ghost Value = { Content };

    ghost view = { λ t. t.page };

    ghost invariant = { λ t. t.page.capacity < 16 * vec_capacity t.pending };
}

impl Text {
    /// An empty text of that capacity.
    pub fn open(alloc: Global, capacity: u32) -> Result<Text, AllocError>
        ensures { IfOk result (λ text. text ≡ record { bytes = []; capacity = capacity }) }
    {
        let page = Page::open(alloc, capacity)?;
        let pending = Vec::with_capacity(alloc, capacity as usize / 16 + 1)?;
        Ok(Text { page, pending })
    }

    /// Forgets all bytes.
    pub fn clear(&mut self)
        ensures { self.new ≡ record self.old { bytes = [] } }
    {
        self.page.clear();
    }

    /// The bytes so far.
    pub fn bytes(&self) -> &[u8]
        ensures { result.now ≡ self.now.bytes }
    {
        self.page.bytes()
    }

    /// How many bytes more there is room for.
    pub fn spare(&self) -> u32
        ensures { result ≡ spare_of self.now }
    {
        self.page.spare()
    }

    /// Appends a piece.
    pub fn push(&mut self, piece: &[u8])
        requires { length piece.now ≤ spare_of self.old }
        ensures { self.new ≡ extended self.old piece.now }
    {
        self.page.push(piece);
    }

    /// Writes the bytes and a newline to a sink, as one piece.
    pub fn write_line<K: Sink>(&mut self, sink: &mut K) -> Result<(), Failed>
        ensures appended { OnOk result (Appends (K.taken sink.old) (K.taken sink.new) (self.old.bytes ++ 10 ∷ [])) }
        // The bytes taken before a write that failed are a front, and some were not taken.
        ensures part { OnErr result (AppendsPart (K.taken sink.old) (K.taken sink.new) (self.old.bytes ++ 10 ∷ [])) }
        ensures stops { OnErr result (StopsAtFailure K.taken K.faults sink.old sink.new) }
        ensures cause { HasCause (K.faults sink.old) (K.faults sink.new) result }
        ensures kept { self.new ≡ self.old }
    {
        self.page.write_line(sink)
    }
}
