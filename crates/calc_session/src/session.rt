//! A session, which answers line by line.
ghost use Rattle.std.specs.Prelude.{◌≡◌, ◌<◌, ◌≤◌, ◌+◌, ◌↔◌, ℕ, [], ◌∷◌, ◌++◌, length, slice_get, IfOk, IfErr, OnErr, OnOk, Some};
ghost use Rattle.std.specs.Io.KnownBytes.{Appends};
ghost use Rattle.breakers.specs.Breakers.{TripsRose};
ghost use Rattle.breakers.specs.Watch.{states};
ghost use Rattle.calc_edges.specs.Faults.{HasCause, IsCalm, StopsAtFailure};
ghost use Rattle.calc_edges.specs.Taken.{AppendsPart};
ghost use Rattle.calc_terms.specs.Leaf.{name_of};
ghost use Rattle.name_table.specs.Held.{IsHeld};
ghost use Rattle.node_pool.specs.State.{IsPoolSize};
ghost use Rattle.tree_handles.specs.Standing.{Stands};

use crate::drawing::draw_answer;
use crate::parts::{Parts, Workspace, open_writing};
use crate::text::write_refusal;
use crate::{DrawFault, LineAnswer, Refusal};
use breakers::{Breaker, Watch};
use calc_edges::{Failed, Sink};
use calc_parser::Parser;
use calc_terms::{Name, Rat};
use name_table::NameTable;
use node_pool::{Id, Pool};
use reduce_port::Reducer;
use std::alloc::{AllocError, Global};
use std::marker::Model;
use tree_handles::number;

/// What answers line by line, with all that it keeps from line to line.
#[derive(Drop)]
pub struct Session {
    parts: Parts,
}

impl Model for Session {
    ghost use Rattle.calc_session.specs.Seen.{Seen};

    ghost Value = { Seen };

    ghost use Rattle.calc_session.specs.Kept.{seen_of, IsKept};

    ghost view = { λ s. seen_of s.parts };

    ghost invariant = { λ s. IsKept s.parts };
}

impl Session {
    ghost use Rattle.calc_session.specs.States.{first_state, trees};
    ghost use Rattle.calc_session.specs.Seen.{pool_of, Counts};
    ghost use Rattle.calc_session.specs.Answers.{Answers, refusal_of_pool};
    ghost use Rattle.calc_session.specs.Counting.{AsksForTooMuch, IsCountedBut};
    ghost use Rattle.calc_session.specs.Drawing.{FailsToDraw, IsDrawn, StopsDrawing, lack_in, rows_in};

    /// A session with a pool of that many bytes, in which the last answer is 0 and no name is stored.
    /// All memory is taken here.
    pub fn open(alloc: Global, size: u32) -> Result<Session, AllocError>
        requires { IsPoolSize size }
        ensures { IfOk result (λ session. session ≡ record { state = first_state size; refusals = 0; last_refused = record { needed = 0; free = 0 }; text = [] }) }
    {
        let (text, drafter) = open_writing(alloc, size)?;
        let parser = Parser::open(alloc)?;
        let mut work = Workspace::open(alloc, size)?;
        let answer = number(&mut work.pool, Rat::whole(0)).unwrap();
        let parts = Parts {
            work,
            table: NameTable::new(answer),
            text,
            parser,
            drafter,
        };
        Ok(Session { parts })
    }

    /// Answers a line, which comes without its newline and the carriage return before that. Its tree is
    /// reduced by the reducer, which checks the watch.
    pub fn line<R: Reducer, B: Breaker>(
        &mut self,
        reducer: &R,
        watch: &mut Watch<B>,
        line: &[u8],
    ) -> LineAnswer
        ensures step { Answers R.room R.bits self.old.state (states B.state watch.old) line.now result self.new.text self.new.state (states B.state watch.new) }
        ensures blank { result ≡ LineAnswer.Blank → self.new.text ≡ [] }
        ensures draw { result ≡ LineAnswer.Draw → self.new.text ≡ [] }
        ensures interrupted { (place : ℕ) → (result ≡ LineAnswer.Refused (Refusal.Interrupted place))
            ↔ TripsRose (states B.state watch.old) (states B.state watch.new) place }

        // What the pool refused is answered and counted, and nothing else that it may have refused before. But that a
        // derivative has more bytes than are left is known before the pool is asked, and is not counted.
        ensures counted { IsCountedBut (AsksForTooMuch self.old.state line.now) (λ refusal. Counts refusal self.old self.new) (refusal_of_pool result) }
        ensures held { IsHeld self.new.state.table (trees self.new.state) }
    {
        self.parts.text.clear();
        let answer = self.parts.answer(reducer, watch, line);
        if let LineAnswer::Refused(refusal) = answer {
            write_refusal(&mut self.parts.text, refusal);
        }
        answer
    }

    /// Draws the last answer: writes the rows of its picture, each with its newline as one piece. Its layout
    /// stands in the pool for so long, and the text of the last line is gone afterwards.
    pub fn draw<K: Sink>(&mut self, sink: &mut K) -> Result<(), DrawFault>
        ensures drawn { OnOk result (IsDrawn (rows_in self.old.state) (K.taken sink.old) (K.taken sink.new)) }
        ensures calm { OnOk result (IsCalm (K.faults sink.old) (K.faults sink.new)) }
        ensures later { (K.faults sink.old).count ≤ (K.faults sink.new).count }

        // The layout finds no room, and nothing was written; or the sink failed, nothing was written behind that, and a
        // part of the rows before.
        ensures fails { IfErr result (FailsToDraw (rows_in self.old.state) (K.taken sink.old) (K.taken sink.new)) }
        ensures stops { IfErr result (StopsDrawing K.taken K.faults sink.old sink.new) }

        // All is as before but for a refusal that was counted.
        ensures state { self.new.state ≡ self.old.state }
        ensures counted { Counts (lack_in (rows_in self.old.state)) self.old self.new }
        ensures text { self.new.text ≡ [] }
    {
        self.parts.text.clear();
        let drawn = draw_answer(
            &mut self.parts.work.pool,
            self.parts.table.ans(),
            &mut self.parts.drafter,
            &mut self.parts.text,
            sink,
        );
        self.parts.text.clear();
        drawn
    }

    /// What is to be printed of the last line, without a newline. There is nothing behind a blank line, nor when the
    /// last answer is to be drawn or was.
    pub fn text(&self) -> &[u8]
        ensures { result.now ≡ self.now.text }
    {
        self.parts.text.bytes()
    }

    /// Writes the text and a newline to a sink, as one piece.
    pub fn print<K: Sink>(&mut self, sink: &mut K) -> Result<(), Failed>
        ensures appended { OnOk result (Appends (K.taken sink.old) (K.taken sink.new) (self.old.text ++ 10 ∷ [])) }
        ensures part { OnErr result (AppendsPart (K.taken sink.old) (K.taken sink.new) (self.old.text ++ 10 ∷ [])) }
        ensures stops { OnErr result (StopsAtFailure K.taken K.faults sink.old sink.new) }
        ensures cause { HasCause (K.faults sink.old) (K.faults sink.new) result }
        ensures kept { self.new ≡ self.old }
    {
        self.parts.text.write_line(sink)
    }

    /// The pool, which stands for exactly the trees of the table.
    pub fn pool(&self) -> &Pool
        ensures value { result.now ≡ pool_of self.now }
        ensures stands { Stands result.now }
        ensures held { IsHeld self.now.state.table (trees self.now.state) }
    {
        &self.parts.work.pool
    }

    /// How many names are stored besides that of the last answer.
    pub fn names(&self) -> u16
        ensures { result ≡ length self.now.state.table.stored }
    {
        self.parts.table.names()
    }

    /// A stored name and the root of its tree, the oldest store having place 0.
    pub fn entry(&self, at: u16) -> (Name, Id)
        requires { at < length self.now.state.table.stored }
        ensures { slice_get self.now.state.table.stored at ≡ Some (record { name = name_of result.0; tree = result.1 }) }
    {
        self.parts.table.entry(at)
    }

    /// The root of the last answer.
    pub fn ans(&self) -> Id
        ensures { result ≡ self.now.state.table.ans }
    {
        self.parts.table.ans()
    }
}
