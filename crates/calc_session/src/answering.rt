//! Lines, answered by what they ask for.
ghost use Rattle.std.specs.Prelude.{◌≡◌, ◌↔◌, ℕ, []};
ghost use Rattle.breakers.specs.Breakers.{TripsRose};
ghost use Rattle.breakers.specs.Watch.{states};
ghost use Rattle.name_table.specs.Storing.{name_in};
ghost use Rattle.calc_session.specs.Answers.{AnswersUntold, CountsRefusal, answer_to, refusal_of_pool};
ghost use Rattle.calc_session.specs.Counting.{AsksForTooMuch, IsCountedBut};
ghost use Rattle.calc_session.specs.Kept.{IsKept, state_in};
ghost use Rattle.calc_session.specs.Reading.{IsText};

use crate::evaluating::Evaluation;
use crate::parts::Parts;
use crate::reading::{check_store, read_text};
use crate::text::write_undef;
use crate::{LineAnswer, Refusal};
use breakers::{Breaker, Watch};
use calc_commands::{are_blanks, is_command};
use calc_terms::Name;
use calc_tokens::LINE_LIMIT;
use line_text::write_text;
use pool_checkpoints::{commit, open_mark, roll_back};
use reduce_port::Reducer;

impl Parts {
    /// Answers a line. The text of a refusal is still to be written.
    pub fn answer<R: Reducer, B: Breaker>(
        &mut self,
        reducer: &R,
        watch: &mut Watch<B>,
        line: &[u8],
    ) -> LineAnswer
        requires kept { IsKept self.old }
        requires empty { self.old.text.bytes ≡ [] }
        ensures answers { AnswersUntold R.room R.bits (state_in self.old) (states B.state watch.old) line.now result self.new.text.bytes (state_in self.new) (states B.state watch.new) }
        ensures interrupted { (place : ℕ) → (result ≡ LineAnswer.Refused (Refusal.Interrupted place))
            ↔ TripsRose (states B.state watch.old) (states B.state watch.new) place }
        ensures counted { IsCountedBut (AsksForTooMuch (state_in self.old) line.now) (λ refusal. CountsRefusal refusal self.old.work.pool self.new.work.pool) (refusal_of_pool result) }
        ensures kept { IsKept self.new }
    {
        if line.len() > LINE_LIMIT {
            return LineAnswer::Refused(Refusal::Long);
        }
        if are_blanks(line) {
            return LineAnswer::Blank;
        }
        if is_command(line) {
            return self.answer_command(reducer, watch, line);
        }
        self.answer_text(reducer, watch, line)
    }

    /// Answers a line that is read by the grammar. Where it displays no tree, the nodes are as before. The text of a refusal is still
    /// to be written.
    fn answer_text<R: Reducer, B: Breaker>(
        &mut self,
        reducer: &R,
        watch: &mut Watch<B>,
        line: &[u8],
    ) -> LineAnswer
        requires kept { IsKept self.old }
        requires empty { self.old.text.bytes ≡ [] }
        requires text { IsText line.now }
        ensures answers { AnswersUntold R.room R.bits (state_in self.old) (states B.state watch.old) line.now result self.new.text.bytes (state_in self.new) (states B.state watch.new) }
        ensures interrupted { (place : ℕ) → (result ≡ LineAnswer.Refused (Refusal.Interrupted place))
            ↔ TripsRose (states B.state watch.old) (states B.state watch.new) place }
        ensures counted { CountsRefusal (refusal_of_pool result) self.old.work.pool self.new.work.pool }
        ensures kept { IsKept self.new }
    {
        let store = match read_text(line, 0, &mut self.parser) {
            Ok(store) => store,
            Err(refusal) => return LineAnswer::Refused(refusal),
        };
        match check_store(store, &self.table) {
            Ok(()) => {}
            Err(refusal) => return LineAnswer::Refused(refusal),
        }
        let mark = open_mark(&self.work.pool);
        match self.evaluate(store, reducer, watch) {
            Evaluation::Face(face) => {
                commit(&self.work.pool, mark);
                write_text(&self.work.pool, face.id(), &mut self.text);
                self.table.keep(&mut self.work.pool, store, face);
                answer_with(store)
            }
            Evaluation::Undefined => {
                roll_back(&mut self.work.pool, mark);
                write_undef(&mut self.text);
                LineAnswer::Undef
            }
            Evaluation::Found(_) => unreachable!(),
            Evaluation::Refused(refusal) => {
                roll_back(&mut self.work.pool, mark);
                LineAnswer::Refused(refusal)
            }
        }
    }
}

/// The answer to a line whose tree is displayed.
fn answer_with(store: Option<Name>) -> LineAnswer
    ensures { result ≡ answer_to (name_in store) }
{
    match store {
        Some(_) => LineAnswer::Stored,
        None => LineAnswer::Shown,
    }
}
