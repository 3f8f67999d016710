//! The dialog between a source and a sink: each line that comes is answered.
ghost use Rattle.std.specs.Prelude.{◌≡◌, ℕ, ◌+◌, ◌^◌, ◌<◌, ◌≤◌, List, [], ◌∷◌, ◌++◌, length, take, OnOk, OnErr, IfOk};
ghost use Rattle.std.specs.Io.KnownBytes.{Appends, IsAtEnd};
ghost use Rattle.calc_edges.specs.Faults.{HasCause, StopsAtFailure, counted};
ghost use Rattle.calc_edges.specs.SourceBytes.{Gives, GivesNothing};
ghost use Rattle.calc_edges.specs.Taken.{AppendsPart};
ghost use Rattle.poincare_run.specs.Lines.{lines_of, whole_lines};
ghost use Rattle.poincare_run.specs.Steps.{Moment, picture_if, picture_text};
ghost use Rattle.poincare_run.specs.Summaries.{IsWithin};
ghost use Rattle.poincare_run.specs.Buffer.{Holds};
ghost use Rattle.poincare_run.specs.Progress.{Answered, AnswersLine, FailsAtLine, Continues, Breaks, Goes, EndsAs, HasAnswered, IfNoMemory, Outset, StopsReading, StopsWriting, TakesLine, Tallied, place_of};

use crate::buffer::LineBuffer;
use crate::notice::Notice;
use crate::tally::Tally;
use breakers::{Breaker, Watch};
use calc_edges::{Failed, Sink, Source, write_all};
use calc_session::{DrawFault, LineAnswer, Session};
use deep_reduce::DeepReducer;

/// The most bytes that are read in a session.
const SESSION_LIMIT: usize = 16_777_215;

/// How a session ended.
#[derive(Clone, Copy)]
pub enum Ending {
    ReadToEnd,
    ReadFailed,
    WriteFailed,
    LimitReached,
    NoMemory,
}

/// A session, the breakers that are watched, and what has come of the next line.
#[derive(Drop)]
pub struct Dialog<B> {
    pub session: Session,
    pub watch: Watch<B>,
    pub line: LineBuffer,
    pub notice: Notice,
    /// What is shown is drawn too.
    pub draws: bool,
}

impl<B: Breaker> Dialog<B> {
    pub fn new(session: Session, watch: Watch<B>, notice: Notice, draws: bool) -> Self
        ensures session { result.session ≡ session }
        ensures watch { result.watch ≡ watch }
        ensures draws { result.draws ≡ draws }
        ensures line { Holds result.line [] }
    {
        Dialog {
            session,
            watch,
            line: LineBuffer::new(),
            notice,
            draws,
        }
    }

    /// Answers what the source gives, piece by piece.
    pub fn serve<S: Source, K: Sink>(
        &mut self,
        piece: &mut [u8],
        source: &mut S,
        sink: &mut K,
    ) -> Ending
        ghost outset: { Outset }
        requires piece { 0 < length piece.old }
        requires fresh { Holds self.old.line [] }
        requires outset { outset ≡ record { start = (place_of B.state self.old).now; told = S.told source.old; taken = K.taken sink.old } }
        ensures ends { EndsAs result (place_of B.state self.old).now (S.told source.old) (S.told source.new)
            (K.taken sink.old) (K.taken sink.new) }
        ensures reads { StopsReading result S.told S.faults source.old source.new }
        ensures writes { StopsWriting result K.taken K.faults sink.old sink.new }
        ensures memory { IfNoMemory result ⊥ }
    {
        let mut left = SESSION_LIMIT;
        while left > 0 {
            let Ok(count) = self.read_piece(source, piece, left, sink) else {
                return Ending::ReadFailed;
            };
            if count == 0 {
                return match self.finish(sink) {
                    Ok(()) => Ending::ReadToEnd,
                    Err(Failed) => Ending::WriteFailed,
                };
            }
            let Ok(()) = self.answer(&piece[..count], sink) else {
                return Ending::WriteFailed;
            };
            left -= count;
        }
        Ending::LimitReached
    }

    /// Reads a piece of at most `left` bytes, once each line that was read before is answered and its answer is in the sink.
    fn read_piece<S: Source, K: Sink>(
        &self,
        source: &mut S,
        piece: &mut [u8],
        left: usize,
        _sink: &K,
    ) -> Result<usize, Failed>
        ghost outset: { Outset }
        requires piece { 0 < length piece.old }
        requires left { 0 < left }
        requires answered { HasAnswered outset (S.told source.old) (K.taken _sink.now) (place_of B.state self.now) }
        ensures bound { IfOk result (λ n. (n ≤ left) × (n ≤ length piece.new)) }
        ensures given { IfOk result (λ n. Gives (S.told source.old) (S.told source.new) (take n piece.new)) }
        ensures end { IfOk result (λ n. n ≡ 0 → IsAtEnd (S.told source.new).left) }
        ensures kept { OnErr result (GivesNothing (S.told source.old) (S.told source.new)) }
        ensures cause { HasCause (S.faults source.old) (S.faults source.new) result }
        ensures counted { S.faults source.new ≡ counted result (S.faults source.old) }
    {
        let room = left.min(piece.len());
        source.read(&mut piece[..room])
    }

    /// Answers each line that ends in these bytes.
    fn answer<K: Sink>(&mut self, bytes: &[u8], sink: &mut K) -> Result<(), Failed>
        ensures ok { OnOk result ((start : Moment) (before out : List ℕ) → Answered start before out (place_of B.state self.old)
            → Goes start before bytes.now out (place_of B.state self.new) (K.taken sink.old) (K.taken sink.new)) }
        ensures err { OnErr result ((start : Moment) (before out : List ℕ) → Answered start before out (place_of B.state self.old)
            → Breaks start (whole_lines (before ++ bytes.now)) out (K.taken sink.old) (K.taken sink.new)) }
        ensures stops { OnErr result (StopsAtFailure K.taken K.faults sink.old sink.new) }
        ensures cause { HasCause (K.faults sink.old) (K.faults sink.new) result }
    {
        for byte in bytes {
            self.answer_byte(*byte, sink)?;
        }
        Ok(())
    }

    fn answer_byte<K: Sink>(&mut self, byte: u8, sink: &mut K) -> Result<(), Failed>
        ensures ok { OnOk result ((start : Moment) (before out : List ℕ) → Answered start before out (place_of B.state self.old)
            → Goes start before (byte ∷ []) out (place_of B.state self.new) (K.taken sink.old) (K.taken sink.new)) }
        ensures err { OnErr result ((start : Moment) (before out : List ℕ) → Answered start before out (place_of B.state self.old)
            → Breaks start (whole_lines (before ++ byte ∷ [])) out (K.taken sink.old) (K.taken sink.new)) }
        ensures stops { OnErr result (StopsAtFailure K.taken K.faults sink.old sink.new) }
        ensures cause { HasCause (K.faults sink.old) (K.faults sink.new) result }
    {
        if byte == b'\n' {
            return self.answer_line(sink);
        }
        self.line.push(byte);
        Ok(())
    }

    /// Answers what is left at the end of the input.
    fn finish<K: Sink>(&mut self, sink: &mut K) -> Result<(), Failed>
        ensures ok { OnOk result ((start : Moment) (input out : List ℕ) → Answered start input out (place_of B.state self.old)
            → Continues start (lines_of input) out (K.taken sink.old) (K.taken sink.new)) }
        ensures err { OnErr result ((start : Moment) (input out : List ℕ) → Answered start input out (place_of B.state self.old)
            → Breaks start (lines_of input) out (K.taken sink.old) (K.taken sink.new)) }
        ensures stops { OnErr result (StopsAtFailure K.taken K.faults sink.old sink.new) }
        ensures cause { HasCause (K.faults sink.old) (K.faults sink.new) result }
    {
        if self.line.is_empty() {
            return Ok(());
        }
        self.answer_line(sink)
    }

    /// Answers the line that is kept, writes the answer, and begins the next line.
    fn answer_line<K: Sink>(&mut self, sink: &mut K) -> Result<(), Failed>
        ensures ok { OnOk result ((bytes : List ℕ) → Holds self.old.line bytes
            → AnswersLine (place_of B.state self.old) (place_of B.state self.new) bytes (K.taken sink.old) (K.taken sink.new)) }
        ensures err { OnErr result ((bytes : List ℕ) → Holds self.old.line bytes
            → FailsAtLine (place_of B.state self.old) bytes (K.taken sink.old) (K.taken sink.new)) }
        ensures stops { OnErr result (StopsAtFailure K.taken K.faults sink.old sink.new) }
        ensures cleared { Holds self.new.line [] }
        ensures cause { HasCause (K.faults sink.old) (K.faults sink.new) result }
    {
        match self.take_line() {
            LineAnswer::Blank => Ok(()),
            LineAnswer::Draw => self.draw(sink),
            LineAnswer::Shown | LineAnswer::Stored => self.show(sink),
            _ => self.session.print(sink),
        }
    }

    /// Writes the text of the last answer, and draws it where pictures are wanted.
    fn show<K: Sink>(&mut self, sink: &mut K) -> Result<(), Failed>
        ensures ok { OnOk result (Appends (K.taken sink.old) (K.taken sink.new)
            ((self.old.session.text ++ 10 ∷ []) ++ picture_if self.old.draws self.old.session.state)) }
        ensures err { OnErr result (AppendsPart (K.taken sink.old) (K.taken sink.new)
            ((self.old.session.text ++ 10 ∷ []) ++ picture_if self.old.draws self.old.session.state)) }
        ensures stops { OnErr result (StopsAtFailure K.taken K.faults sink.old sink.new) }
        ensures place { place_of B.state self.new ≡ place_of B.state self.old }
        ensures cause { HasCause (K.faults sink.old) (K.faults sink.new) result }
    {
        self.session.print(sink)?;
        if self.draws { self.draw(sink) } else { Ok(()) }
    }

    /// Draws the last answer, or writes that its layout finds no room.
    fn draw<K: Sink>(&mut self, sink: &mut K) -> Result<(), Failed>
        ensures ok { OnOk result (Appends (K.taken sink.old) (K.taken sink.new) (picture_text self.old.session.state)) }
        ensures err { OnErr result (AppendsPart (K.taken sink.old) (K.taken sink.new) (picture_text self.old.session.state)) }
        ensures stops { OnErr result (StopsAtFailure K.taken K.faults sink.old sink.new) }
        ensures place { place_of B.state self.new ≡ place_of B.state self.old }
        ensures cause { HasCause (K.faults sink.old) (K.faults sink.new) result }
    {
        match self.session.draw(sink) {
            Ok(()) => Ok(()),
            Err(fault) => match fault {
                DrawFault::Write => Err(Failed),
                DrawFault::Full(full) => {
                    self.notice.put(full);
                    self.notice.print(sink)
                }
            },
        }
    }

    /// Answers the line that is kept, and begins the next one. Breakers that have tripped are dropped.
    fn take_line(&mut self) -> LineAnswer
        ensures takes { (bytes : List ℕ) → Holds self.old.line bytes
            → TakesLine (place_of B.state self.old) (place_of B.state self.new) bytes result self.new.session.text }
        ensures cleared { Holds self.new.line [] }
    {
        let answer = self
            .session
            .line(&DeepReducer, &mut self.watch, self.line.kept.as_slice());
        self.watch.sweep();
        self.line.clear();
        answer
    }

    /// Answers each line that ends in these bytes, and counts the answers.
    pub fn tally(&mut self, bytes: &[u8]) -> Tally
        requires fresh { Holds self.old.line [] }
        ensures { Tallied (place_of B.state self.old).now bytes.now result (place_of B.state self.new) }
    {
        let mut tally = Tally::new();
        for byte in bytes {
            tally = self.tally_byte(*byte, tally);
        }
        tally
    }

    fn tally_byte(&mut self, byte: u8, tally: Tally) -> Tally
        requires room { tally.lines + 1 < 2 ^ 64 }
        requires within { IsWithin tally }
        ensures tallied { (start : Moment) (before : List ℕ) → Tallied start before tally (place_of B.state self.old)
            → Tallied start (before ++ byte ∷ []) result (place_of B.state self.new) }
        ensures lines { result.lines ≤ tally.lines + 1 }
        ensures within { IsWithin result }
    {
        if byte != b'\n' {
            self.line.push(byte);
            return tally;
        }
        let answer = self.take_line();
        tally.count(answer, self.session.text())
    }
}

/// Writes a text and a newline.
pub fn write_line<K: Sink>(sink: &mut K, text: &[u8]) -> Result<(), Failed>
    ensures appended { OnOk result (Appends (K.taken sink.old) (K.taken sink.new) (text.now ++ 10 ∷ [])) }
    ensures part { OnErr result (AppendsPart (K.taken sink.old) (K.taken sink.new) (text.now ++ 10 ∷ [])) }
    ensures stops { OnErr result (StopsAtFailure K.taken K.faults sink.old sink.new) }
    ensures cause { HasCause (K.faults sink.old) (K.faults sink.new) result }
{
    write_all(sink, text)?;
    write_all(sink, b"\n")
}
