//! Commands.
ghost use Rattle.std.specs.Prelude.{◌≡◌, ◌≤◌, ◌+◌, ◌*◌, ◌↔◌, ℕ, List, Option, [], length, true};
ghost use Rattle.breakers.specs.Breakers.{TripsRose};
ghost use Rattle.breakers.specs.State.{State as Breaker};
ghost use Rattle.breakers.specs.Watch.{states};
ghost use Rattle.calc_commands.specs.Commands.{IsCommandLine, asked_of, forget as asks_to_forget, is_command as begins_with_colon};
ghost use Rattle.calc_terms.specs.Leaf.{name_of};
ghost use Rattle.calc_terms.specs.Trees.{Tree};
ghost use Rattle.calc_tokens.specs.Limits.{line_limit};
ghost use Rattle.name_table.specs.Held.{IsHeld};
ghost use Rattle.tree_handles.specs.Standing.{Stands, forest};
ghost use Rattle.calc_session.specs.Answers.{AnswersBy, AnswersUntold, CountsRefusal, TellsAs, refusal_of_pool};
ghost use Rattle.calc_session.specs.Commanding.{IsReplyToArming, IsReplyToCommand, layout_reply};
ghost use Rattle.calc_session.specs.Counting.{AsksForTooMuch, IsCountedBut, LacksBytesFor};
ghost use Rattle.calc_session.specs.Drawing.{line_in};
ghost use Rattle.calc_session.specs.Kept.{IsKept, state_in};

use crate::differentiating::Derivative;
use crate::drawing::{Notation, write_layout};
use crate::estimating::{DecimalPlaces, NumberSign};
use crate::evaluating::refused;
use crate::expanding::Expansion;
use crate::naming::write_names;
use crate::parts::Parts;
use crate::reading::is_ans;
use crate::{LineAnswer, Refusal};
use breakers::{Breaker, Watch};
use calc_commands::{
    Command, read_command, write_after, write_dump, write_forgot, write_help, write_no_breaker,
    write_pool_report, write_unknown, write_word_help,
};
use calc_terms::Name;
use line_text::Text;
use reduce_port::Reducer;

impl Parts {
    /// Answers a command line. The text of a refusal is still to be written. It is not inlined, so that other lines take none of
    /// the machine's stack that commands need.
    #[inline(never)]
    pub fn answer_command<R: Reducer, B: Breaker>(
        &mut self,
        reducer: &R,
        watch: &mut Watch<B>,
        line: &[u8],
    ) -> LineAnswer
        requires kept { IsKept self.old }
        requires empty { self.old.text.bytes ≡ [] }
        requires short { length line.now ≤ line_limit }
        requires command { begins_with_colon line.now ≡ true }
        ensures answers { AnswersUntold R.room R.bits (state_in self.old) (states B.state watch.old) line.now result self.new.text.bytes (state_in self.new) (states B.state watch.new) }
        ensures interrupted { (place : ℕ) → (result ≡ LineAnswer.Refused (Refusal.Interrupted place))
            ↔ TripsRose (states B.state watch.old) (states B.state watch.new) place }
        ensures counted { IsCountedBut (AsksForTooMuch (state_in self.old) line.now) (λ refusal. CountsRefusal refusal self.old.work.pool self.new.work.pool) (refusal_of_pool result) }
        ensures kept { IsKept self.new }
    {
        match read_command(line) {
            Some(command) => self.perform(command, line, reducer, watch),
            None => LineAnswer::Refused(Refusal::Command),
        }
    }

    /// Does what a line asks for.
    fn perform<R: Reducer, B: Breaker>(
        &mut self,
        command: Command<'_>,
        line: &[u8],
        reducer: &R,
        watch: &mut Watch<B>,
    ) -> LineAnswer
        requires kept { IsKept self.old }
        requires empty { self.old.text.bytes ≡ [] }
        requires short { length line.now ≤ line_limit }
        requires asked { IsCommandLine line.now (asked_of command) }
        ensures answers { AnswersBy (IsReplyToCommand R.room R.bits (state_in self.old) (states B.state watch.old) (states B.state watch.new) line.now (asked_of command.entry))
            (state_in self.old) result self.new.text.bytes (state_in self.new) }
        ensures interrupted { (place : ℕ) → (result ≡ LineAnswer.Refused (Refusal.Interrupted place))
            ↔ TripsRose (states B.state watch.old) (states B.state watch.new) place }
        ensures counted { IsCountedBut (LacksBytesFor (state_in self.old) (asked_of command.entry)) (λ refusal. CountsRefusal refusal self.old.work.pool self.new.work.pool) (refusal_of_pool result) }
        ensures kept { IsKept self.new }
    {
        match command {
            Command::Pool => {
                write_pool_report(&self.work.pool, &mut self.text);
                LineAnswer::Report
            }
            Command::Dump => {
                write_dump(&self.work.pool, &mut self.text);
                LineAnswer::Report
            }
            Command::Forget(name) => self.forget(name),
            Command::After(checks) => {
                arm(watch, checks, &mut self.text);
                LineAnswer::Report
            }
            Command::Draw => LineAnswer::Draw,
            Command::Layout => self.tell_layout(Notation::Serial),
            Command::Latex => self.tell_layout(Notation::Latex),
            Command::Diff(name, expression) => {
                self.calculate(&Derivative { name, reducer }, line, expression, watch)
            }
            Command::Solve(equations) => self.solve(line, equations, watch),
            Command::Roots(name, equation) => self.tell_roots(name, line, equation, watch),
            Command::Expand(expression) => self.calculate(&Expansion, line, expression, watch),
            Command::Help => {
                write_help(&mut self.text);
                LineAnswer::Report
            }
            Command::Names => {
                write_names(&self.work.pool, &self.table, &mut self.text);
                LineAnswer::Report
            }
            Command::Explain(word) => {
                write_word_help(word, &mut self.text);
                LineAnswer::Report
            }
            Command::Decimal(places, expression) => {
                self.calculate(&DecimalPlaces { places, reducer }, line, expression, watch)
            }
            Command::Sign(expression) => {
                self.calculate(&NumberSign { reducer }, line, expression, watch)
            }
        }
    }

    /// Forgets a name, unless it is that of the last answer.
    fn forget(&mut self, name: Name) -> LineAnswer
        requires kept { IsKept self.old }
        requires empty { self.old.text.bytes ≡ [] }
        ensures answers { (room bits : Option (Tree → ℕ)) (line : List ℕ) (breakers : List Breaker)
            → AnswersBy (IsReplyToCommand room bits (state_in self.old) breakers breakers line (asks_to_forget (name_of name))) (state_in self.old) result self.new.text.bytes (state_in self.new) }
        ensures no_interruption { (place : ℕ) → result ≡ LineAnswer.Refused (Refusal.Interrupted place) → ⊥ }
        ensures counted { CountsRefusal (refusal_of_pool result) self.old.work.pool self.new.work.pool }
        ensures kept { IsKept self.new }
    {
        if is_ans(name) {
            return LineAnswer::Refused(Refusal::Reserved);
        }
        if self.table.forget(&mut self.work.pool, name) {
            write_forgot(name, &mut self.text);
        } else {
            write_unknown(name, &mut self.text);
        }
        LineAnswer::Report
    }

    /// Tells the layout of the last answer in one line.
    #[inline(never)]
    fn tell_layout(&mut self, notation: Notation) -> LineAnswer
        requires kept { IsKept self.old }
        requires empty { self.old.text.bytes ≡ [] }
        ensures told { TellsAs (λ reply. reply ≡ layout_reply (line_in notation (state_in self.old))) result self.new.text.bytes }
        ensures no_interruption { (place : ℕ) → result ≡ LineAnswer.Refused (Refusal.Interrupted place) → ⊥ }
        ensures counted { CountsRefusal (refusal_of_pool result) self.old.work.pool self.new.work.pool }
        ensures same { state_in self.new ≡ state_in self.old }
        ensures kept { IsKept self.new }
    {
        let answer = self.table.ans();
        match write_layout(
            &mut self.work.pool,
            answer,
            notation,
            &mut self.drafter,
            &mut self.text,
        ) {
            Ok(()) => LineAnswer::Report,
            Err(full) => LineAnswer::Refused(refused(full)),
        }
    }
}

/// Arms the first breaker that can be armed.
fn arm<B: Breaker>(watch: &mut Watch<B>, checks: u64, text: &mut Text)
    requires empty { text.old.bytes ≡ [] }
    requires room { 256 ≤ text.old.capacity }
    ensures told { TellsAs (IsReplyToArming checks (states B.state watch.old) (states B.state watch.new)) LineAnswer.Report text.new.bytes }
    ensures no_check { (place : ℕ) → TripsRose (states B.state watch.old) (states B.state watch.new) place → ⊥ }
    ensures capacity { text.new.capacity ≡ text.old.capacity }
{
    if watch.arm_first(checks) {
        write_after(checks, text);
    } else {
        write_no_breaker(text);
    }
}
