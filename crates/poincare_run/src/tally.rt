//! Counts of answers.
ghost use Rattle.std.specs.Prelude.{◌≡◌, ◌≤◌, ◌<◌, ◌+◌, ◌^◌, ◌++◌, [], ◌∷◌, length, List};
ghost use Rattle.line_text.specs.Content.{extended};
ghost use Rattle.calc_session.specs.Answers.{IsAnswer, printed};
ghost use Rattle.calc_session.specs.Replies.{Reply, text_of};
ghost use Rattle.poincare_run.specs.Summaries.{count_text, summary_text, text_length};

use calc_session::LineAnswer;
use itoa::Buffer;
use line_text::Text;

/// The most bytes of a summary.
pub const SUMMARY_LIMIT: u32 = 300;

/// How many lines were answered, how many of them in each way, and the bytes of the texts.
#[derive(Clone, Copy)]
pub struct Tally {
    pub lines: u64,
    pub shown: u64,
    pub stored: u64,
    pub undefined: u64,
    pub refused: u64,
    pub bytes: u128,
}

impl Tally {
    ghost use Rattle.poincare_run.specs.Summaries.{IsWithin, tally_of};

    #[tactic(auto, unfolding(crate::specs::Summaries::tally_of))]
    pub fn new() -> Tally
        ensures value { result ≡ tally_of [] }
        ensures within { IsWithin result }
    {
        Tally {
            lines: 0,
            shown: 0,
            stored: 0,
            undefined: 0,
            refused: 0,
            bytes: 0,
        }
    }

    /// Counts one answer more, and its text.
    pub fn count(self, answer: LineAnswer, text: &[u8]) -> Tally
        requires room { self.lines + 1 < 2 ^ 64 }
        requires within { IsWithin self }
        ensures value { (replies : List Reply) (reply : Reply) → self ≡ tally_of replies → IsAnswer answer reply
            → printed answer text.now ≡ text_of reply → result ≡ tally_of (replies ++ reply ∷ []) }
        ensures lines { result.lines ≡ self.lines + 1 }
        ensures within { IsWithin result }
    {
        let tally = Tally {
            lines: self.lines + 1,
            bytes: self.bytes + length_of(answer, text),
            ..self
        };
        match answer {
            LineAnswer::Shown => Tally {
                shown: tally.shown + 1,
                ..tally
            },
            LineAnswer::Stored => Tally {
                stored: tally.stored + 1,
                ..tally
            },
            LineAnswer::Undef => Tally {
                undefined: tally.undefined + 1,
                ..tally
            },
            LineAnswer::Refused(_) => Tally {
                refused: tally.refused + 1,
                ..tally
            },
            LineAnswer::Blank | LineAnswer::Report | LineAnswer::Draw => tally,
        }
    }
}

/// The bytes of an answer's text.
fn length_of(answer: LineAnswer, text: &[u8]) -> u128
    ensures value { (reply : Reply) → printed answer text.now ≡ text_of reply → result ≡ text_length reply }
    ensures short { result < 2 ^ 64 }
{
    match answer {
        LineAnswer::Blank | LineAnswer::Draw => 0,
        _ => text.len() as u128,
    }
}

/// Appends the summary: at most 300 bytes.
pub fn write_summary(text: &mut Text, tally: Tally)
    requires empty { text.old.bytes ≡ [] }
    requires room { 300 ≤ text.old.capacity }
    ensures { text.new.bytes ≡ summary_text tally }
{
    push_count(text, b"lines ", u128::from(tally.lines));
    push_count(text, b" shown ", u128::from(tally.shown));
    push_count(text, b" stored ", u128::from(tally.stored));
    push_count(text, b" undef ", u128::from(tally.undefined));
    push_count(text, b" refused ", u128::from(tally.refused));
    push_count(text, b" bytes ", tally.bytes);
}

/// A word and a number in decimal digits.
fn push_count(text: &mut Text, word: &[u8], number: u128)
    requires { length text.old.bytes + length word.now + 40 ≤ text.old.capacity }
    ensures value { text.new ≡ extended text.old (count_text word.now number) }
    ensures short { length text.new.bytes ≤ length text.old.bytes + length word.now + 40 }
{
    let mut digits = Buffer::new();
    text.push(word);
    text.push(digits.format(number).as_bytes());
}
