//! A whole text of lines, answered as the program answers its input.
ghost use Rattle.std.specs.Prelude.{◌≡◌, ◌↔◌, ◌∷◌, ◌++◌, false, All, MatchOption, IfOk, IfErr, OnErr};
ghost use Rattle.std.specs.Str.Lines.{strip_carriage_return};
ghost use Rattle.node_pool.specs.State.{IsPoolSize};
ghost use Rattle.poincare_run.specs.Lines.{is_newline, lines_of};
ghost use Rattle.poincare_held.specs.Answering.{AnswersLine, AnswersLines, AreAnswered};

use crate::held::{Held, OpenFault, is_pool_size};
use crate::page::Page;
use calc_session::LineAnswer;
use std::alloc::Global;

/// Answers the lines of a text in a session of its own, under two breakers that count. The answers stand at the front of
/// `out`, as far as there is room. The result is how many bytes they have, up to 2^64 - 1.
pub fn answers(alloc: Global, size: u32, lines: &[u8], out: &mut [u8]) -> Result<usize, OpenFault>
    ensures ok { IfOk result (λ count. AreAnswered size lines.now count out.new) }
    ensures size { IfErr result (λ fault. (fault ≡ OpenFault.PoolSize) ↔ (¬ (IsPoolSize size))) }
    ensures untouched { OnErr result (out.new ≡ out.old) }
{
    if !is_pool_size(size) {
        return Err(OpenFault::PoolSize);
    }
    let Ok(mut held) = Held::counting(alloc, size) else {
        return Err(OpenFault::NoMemory);
    };
    let mut page = Page::new(out);
    held.answer_all(lines, &mut page);
    Ok(page.count())
}

impl Held {
    /// Answers each line of a text, and writes the answers.
    fn answer_all(&mut self, lines: &[u8], page: &mut Page)
        ensures { AnswersLines self.old (lines_of lines.now) page.old self.new page.new }
    {
        let mut rest = lines;
        while let Some((line, behind)) = split_line(rest) {
            self.answer_line(line, page);
            rest = behind;
        }
        if !rest.is_empty() {
            self.answer_line(rest, page);
        }
    }

    /// Answers a line, and writes the answer. Breakers that have tripped are dropped.
    fn answer_line(&mut self, line: &[u8], page: &mut Page)
        ensures { AnswersLine self.old line.now page.old self.new page.new }
    {
        let answer = self.line(without_return(line));
        self.watch.sweep();
        match answer {
            LineAnswer::Blank => {}
            LineAnswer::Draw => {
                self.draw_on(page);
            }
            _ => {
                page.push(self.session.text());
                page.push(b"\n");
            }
        }
    }
}

/// The first line and what stands behind its newline, where there is one.
fn split_line(bytes: &[u8]) -> Option<(&[u8], &[u8])>
    ensures { MatchOption result (All (λ b. is_newline b ≡ false) bytes.now) (λ parts.
        All (λ b. is_newline b ≡ false) parts.0.now × (bytes.now ≡ parts.0.now ++ 10 ∷ parts.1.now)) }
{
    match bytes.iter().position(|byte| *byte == b'\n') {
        Some(len) => Some((&bytes[..len], &bytes[len + 1..])),
        None => None,
    }
}

/// The line without the carriage return at its end, where there is one.
fn without_return(line: &[u8]) -> &[u8]
    ensures { result.now ≡ strip_carriage_return line.now }
{
    match line {
        [front @ .., b'\r'] => front,
        _ => line,
    }
}
