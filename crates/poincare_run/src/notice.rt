//! The line that stands in place of a picture.
ghost use Rattle.std.specs.Prelude.{◌≡◌, [], ◌∷◌, ◌++◌, OnErr, OnOk, Some};
ghost use Rattle.std.specs.Io.KnownBytes.{Appends};
ghost use Rattle.calc_edges.specs.Faults.{HasCause, StopsAtFailure};
ghost use Rattle.calc_edges.specs.Taken.{AppendsPart};
ghost use Rattle.calc_session.specs.Replies.{full as full_reason, refused, text_of};

use calc_edges::{Failed, Sink};
use calc_session::{Refusal, write_refusal};
use line_text::Text;
use node_pool::Full;
use std::alloc::{AllocError, Global};
use std::marker::Model;

/// The most bytes of a notice.
const NOTICE_LIMIT: u32 = 256;

/// The text of a layout that finds no room. Its memory is taken at the start.
#[derive(Drop)]
pub struct Notice {
    text: Text,
}

impl Model for Notice {
    ghost use Rattle.std.specs.Prelude.{◌≡◌, ℕ, List};

    ghost Value = { List ℕ };

    ghost view = { λ n. n.text.bytes };

    ghost invariant = { λ n. n.text.capacity ≡ 256 };
}

impl Notice {
    pub fn open(alloc: Global) -> Result<Notice, AllocError> {
        let text = Text::open(alloc, NOTICE_LIMIT)?;
        Ok(Notice { text })
    }

    /// Says with which numbers the layout was refused.
    pub fn put(&mut self, full: Full)
        ensures { Some self.new ≡ text_of (refused (full_reason full)) }
    {
        self.text.clear();
        let refusal = Refusal::Full {
            needed: full.needed,
            free: full.free,
        };
        write_refusal(&mut self.text, refusal);
    }

    /// Writes the text and a newline to a sink, as one piece.
    pub fn print<K: Sink>(&mut self, sink: &mut K) -> Result<(), Failed>
        ensures appended { OnOk result (Appends (K.taken sink.old) (K.taken sink.new) (self.old ++ 10 ∷ [])) }
        ensures part { OnErr result (AppendsPart (K.taken sink.old) (K.taken sink.new) (self.old ++ 10 ∷ [])) }
        ensures stops { OnErr result (StopsAtFailure K.taken K.faults sink.old sink.new) }
        ensures cause { HasCause (K.faults sink.old) (K.faults sink.new) result }
    {
        self.text.write_line(sink)
    }
}
