//! Names and reserved words.
ghost use Rattle.std.specs.Prelude.{◌≡◌, true};
ghost use Rattle.std.specs.List.{prefix_len};
ghost use Rattle.std.specs.Option.{option_map};
ghost use Rattle.calc_terms.specs.Name.{is_name_byte, begins_with_letter};
ghost use Rattle.calc_language.specs.Tokens.{leading_run, word_at};
ghost use Rattle.calc_tokens.specs.Tokens.{front_of};

use crate::tokens::What;
use calc_terms::Name;

/// The word at the front, and what stands behind it; None where it is longer than a name may be.
pub(crate) fn word(bytes: &[u8]) -> Option<(What, &[u8])>
    requires { begins_with_letter bytes.now ≡ true }
    ensures { option_map front_of result ≡ word_at bytes.now }
{
    let (run, behind) = letters_and_digits(bytes);
    if run == b"sqrt".as_slice() {
        return Some((What::Root, behind));
    }
    if run == b"undef".as_slice() {
        return Some((What::Undef, behind));
    }
    let name = Name::read(run)?;
    Some((What::Name(name), behind))
}

/// The letters and digits at the front, and what stands behind them.
fn letters_and_digits(bytes: &[u8]) -> (&[u8], &[u8])
    ensures front { result.0.now ≡ (leading_run is_name_byte bytes.now).0 }
    ensures behind { result.1.now ≡ (leading_run is_name_byte bytes.now).1 }
{
    bytes.split_at(letters_and_digits_len(bytes))
}

fn letters_and_digits_len(bytes: &[u8]) -> usize
    ensures { result ≡ prefix_len is_name_byte bytes.now }
{
    bytes
        .iter()
        .take_while(|b| b.is_ascii_alphanumeric())
        .count()
}
