//! Command lines, and what they ask for.
ghost use Rattle.std.specs.Prelude.{◌≡◌, ◌↔◌, IfSome, IsNone, Some, None};
ghost use Rattle.std.specs.Option.{option_map};
ghost use Rattle.calc_commands.specs.Commands.{Asked, IsCommandLine, asked_of, is_command as begins_with_colon};
ghost use Rattle.calc_commands.specs.Parsing.{asked_alone as asked_by_it, asked_by as asked_behind, asked_for as asked_for_it, asked_in, asked_to_round as decimals_asked_in, asked_with as asked_with_it};

use crate::numbers::read_number;
use crate::parts::{argument, name_and_text_behind, places_and_text, text_behind, word_and_rest};
use crate::words::Word;
use calc_terms::Name;
use calc_tokens::is_blank;

/// What a command line asks for.
#[derive(Clone, Copy, Debug)]
pub enum Command<'a> {
    /// How full the pool is.
    Pool,
    /// The bytes of the pool.
    Dump,
    /// The tree of a stored name is released. The name may be `ans`.
    Forget(Name),
    /// A breaker is armed to trip after so many checks.
    After(u64),
    /// The picture of the last answer.
    Draw,
    /// The serial text of the layout of the last answer.
    Layout,
    /// The LaTeX of the last answer.
    Latex,
    /// The derivative of an expression with respect to a name.
    Diff(Name, &'a [u8]),
    /// The solutions of equations.
    Solve(&'a [u8]),
    /// The roots of an equation in a name.
    Roots(Name, &'a [u8]),
    /// The expanded form of an expression.
    Expand(&'a [u8]),
    /// A line for each command.
    Help,
    /// The line of one, with an example.
    Explain(Word),
    /// What is stored, in lines that store it again.
    Names,
    /// The decimal of an expression, with at most so many places.
    Decimal(u32, &'a [u8]),
    /// Whether an expression is above 0, below 0, or 0.
    Sign(&'a [u8]),
}

/// Whether the first byte that is no blank is `:`.
pub fn is_command(line: &[u8]) -> bool
    ensures { result ≡ begins_with_colon line.now }
{
    for byte in line {
        if !is_blank(*byte) {
            return *byte == b':';
        }
    }
    false
}

/// What a line asks for: a colon and one of the words, with blanks around them, and an argument behind more blanks where the
/// word takes one. What is to be calculated with is the whole text behind those. There is no command in any other line.
pub fn read_command(line: &[u8]) -> Option<Command<'_>>
    ensures some { IfSome result (λ command. IsCommandLine line.now (asked_of command)) }
    ensures none { IsNone result ↔ ((asked : Asked) → IsCommandLine line.now asked → ⊥) }
{
    let (word, rest) = word_and_rest(line)?;
    asked(word, rest)
}

/// What the bytes of a word with what stands behind them ask for.
fn asked<'a>(word: &[u8], rest: &'a [u8]) -> Option<Command<'a>>
    ensures { option_map asked_of result ≡ asked_in word.now rest.now }
{
    asked_by(Word::read(word)?, rest)
}

/// What a word with what stands behind it asks for.
fn asked_by(word: Word, rest: &[u8]) -> Option<Command<'_>>
    ensures { option_map asked_of result ≡ asked_behind word rest.now }
{
    match word {
        Word::Diff => {
            let (name, text) = name_and_text_behind(rest)?;
            Some(Command::Diff(name, text))
        }
        Word::Solve => Some(Command::Solve(text_behind(rest)?)),
        Word::Roots => {
            let (name, text) = name_and_text_behind(rest)?;
            Some(Command::Roots(name, text))
        }
        Word::Expand => Some(Command::Expand(text_behind(rest)?)),
        Word::Decimal => asked_to_round(rest),
        Word::Sign => Some(Command::Sign(text_behind(rest)?)),
        _ => asked_for(word, argument(rest)?),
    }
}

/// What stands behind `decimal` asks for.
fn asked_to_round(rest: &[u8]) -> Option<Command<'_>>
    ensures { option_map asked_of result ≡ decimals_asked_in rest.now }
{
    let (places, text) = places_and_text(text_behind(rest)?)?;
    Some(Command::Decimal(places, text))
}

/// What a word with its argument, or with none, asks for.
fn asked_for<'a>(word: Word, argument: &'a [u8]) -> Option<Command<'a>>
    ensures { option_map asked_of result ≡ asked_for_it word argument.now }
{
    if argument.is_empty() {
        asked_alone(word)
    } else {
        asked_with(word, argument)
    }
}

/// What a word with an argument asks for.
fn asked_with<'a>(word: Word, argument: &'a [u8]) -> Option<Command<'a>>
    ensures { option_map asked_of result ≡ asked_with_it word argument.now }
{
    match word {
        Word::Help => Some(Command::Explain(Word::read(argument)?)),
        Word::Forget => Some(Command::Forget(Name::read(argument)?)),
        Word::After => Some(Command::After(read_number(argument)?)),
        _ => None,
    }
}

/// What a word without an argument asks for.
fn asked_alone<'a>(word: Word) -> Option<Command<'a>>
    ensures { option_map asked_of result ≡ asked_by_it word }
{
    match word {
        Word::Help => Some(Command::Help),
        Word::Pool => Some(Command::Pool),
        Word::Dump => Some(Command::Dump),
        Word::Names => Some(Command::Names),
        Word::Draw => Some(Command::Draw),
        Word::Layout => Some(Command::Layout),
        Word::Latex => Some(Command::Latex),
        _ => None,
    }
}
