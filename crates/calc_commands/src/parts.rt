//! The word of a command line, and its argument or text.
ghost use Rattle.std.specs.Prelude.{◌≡◌, Some, None, MatchOption};
ghost use Rattle.std.specs.List.{prefix_len};
ghost use Rattle.calc_language.specs.Tokens.{leading_run};
ghost use Rattle.calc_terms.specs.Leaf.{name_of};
ghost use Rattle.calc_commands.specs.Parsing.{argument_of, behind_colon as behind_colon_of, is_in, are_blanks as all_blank, name_and_text as name_and_text_of, name_and_text_behind as name_and_text_behind_of, places_and_text as places_and_text_of, text_behind as text_behind_of, word_and_rest as word_and_rest_of};

use crate::numbers::read_number;
use calc_terms::Name;
use calc_tokens::is_blank;

/// So many decimals are told at most.
pub const PLACES_LIMIT: u32 = 38;

/// What stands side by side in a command line.
#[derive(Clone, Copy)]
enum Class {
    Blank,
    SmallLetter,
    Dark,
}

impl Class {
    fn holds(self, byte: u8) -> bool
        ensures { result ≡ is_in self byte }
    {
        match self {
            Class::Blank => is_blank(byte),
            Class::SmallLetter => byte.is_ascii_lowercase(),
            Class::Dark => !is_blank(byte),
        }
    }
}

/// The word behind the colon, and what stands behind it.
pub(crate) fn word_and_rest(line: &[u8]) -> Option<(&[u8], &[u8])>
    ensures { MatchOption result (word_and_rest_of line.now ≡ None) (λ found. word_and_rest_of line.now ≡ Some (found.0.now, found.1.now)) }
{
    let (_, text) = split(line, Class::Blank);
    Some(split(behind_colon(text)?, Class::SmallLetter))
}

/// What stands behind a colon at the front.
fn behind_colon(text: &[u8]) -> Option<&[u8]>
    ensures { MatchOption result (behind_colon_of text.now ≡ None) (λ rest. behind_colon_of text.now ≡ Some rest.now) }
{
    text.strip_prefix(b":")
}

/// The argument in what stands behind a word: nothing between blanks, behind at least one of them, or nothing at all.
pub(crate) fn argument(rest: &[u8]) -> Option<&[u8]>
    ensures { MatchOption result (argument_of rest.now ≡ None) (λ argument. argument_of rest.now ≡ Some argument.now) }
{
    let (gap, text) = split(rest, Class::Blank);
    let (argument, behind) = split(text, Class::Dark);
    let apart = argument.is_empty() || !gap.is_empty();
    if apart && are_blanks(behind) {
        Some(argument)
    } else {
        None
    }
}

/// What stands behind blanks, up to the end: at least one blank, and not nothing.
pub(crate) fn text_behind(rest: &[u8]) -> Option<&[u8]>
    ensures { MatchOption result (text_behind_of rest.now ≡ None) (λ text. text_behind_of rest.now ≡ Some text.now) }
{
    let (gap, text) = split(rest, Class::Blank);
    if gap.is_empty() || text.is_empty() {
        None
    } else {
        Some(text)
    }
}

/// A name behind blanks, and the text behind it.
pub(crate) fn name_and_text_behind(rest: &[u8]) -> Option<(Name, &[u8])>
    ensures { MatchOption result (name_and_text_behind_of rest.now ≡ None) (λ found. name_and_text_behind_of rest.now ≡ Some (name_of found.0, found.1.now)) }
{
    name_and_text(text_behind(rest)?)
}

/// A name at the front, and the text behind it.
fn name_and_text(text: &[u8]) -> Option<(Name, &[u8])>
    ensures { MatchOption result (name_and_text_of text.now ≡ None) (λ found. name_and_text_of text.now ≡ Some (name_of found.0, found.1.now)) }
{
    let (word, rest) = split(text, Class::Dark);
    let name = Name::read(word)?;
    Some((name, text_behind(rest)?))
}

/// How many places are told, at most 38, and the text behind that number.
pub(crate) fn places_and_text(text: &[u8]) -> Option<(u32, &[u8])>
    ensures { MatchOption result (places_and_text_of text.now ≡ None) (λ found. places_and_text_of text.now ≡ Some (found.0, found.1.now)) }
{
    let (digits, rest) = split(text, Class::Dark);
    let places = read_number(digits)?;
    if places > PLACES_LIMIT as u64 {
        return None;
    }
    Some((places as u32, text_behind(rest)?))
}

/// Whether these are blanks alone, or nothing.
pub fn are_blanks(bytes: &[u8]) -> bool
    ensures { result ≡ all_blank bytes.now }
{
    bytes.iter().all(|byte| is_blank(*byte))
}

/// The bytes of a class at the front, and what stands behind them.
fn split(bytes: &[u8], class: Class) -> (&[u8], &[u8])
    ensures front { result.0.now ≡ (leading_run (is_in class) bytes.now).0 }
    ensures behind { result.1.now ≡ (leading_run (is_in class) bytes.now).1 }
{
    bytes.split_at(run_len(bytes, class))
}

fn run_len(bytes: &[u8], class: Class) -> usize
    ensures { result ≡ prefix_len (is_in class) bytes.now }
{
    bytes.iter().take_while(|byte| class.holds(**byte)).count()
}
