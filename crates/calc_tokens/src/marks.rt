//! Tokens of one spelling.
ghost use Rattle.std.specs.Prelude.{◌≡◌, ℕ, List, ◌∷◌};
ghost use Rattle.std.specs.Option.{option_map};
ghost use Rattle.calc_language.specs.Tokens.{first_mark, marks, rest_after};
ghost use Rattle.calc_tokens.specs.Tokens.{front_of, token_of};

use crate::tokens::What;

/// The mark at the front, and what stands behind it.
pub(crate) fn mark(bytes: &[u8]) -> Option<(What, &[u8])>
    ensures { option_map front_of result ≡ first_mark marks bytes.now }
{
    let (first, rest) = bytes.split_first()?;
    match *first {
        b'+' => Some((What::Plus, rest)),
        b'-' => Some(minus_or_arrow(rest)),
        b'*' => Some((What::Times, rest)),
        b'/' => Some((What::Slash, rest)),
        b'^' => Some((What::Caret, rest)),
        b'(' => Some((What::Left, rest)),
        b')' => Some((What::Right, rest)),
        0xC2 => continued(rest, b"\xB7", What::Times),
        0xC3 => continued(rest, b"\x97", What::Times),
        0xE2 => root_or_arrow(rest),
        _ => None,
    }
}

/// Behind a `-`: `->` is longer than `-`.
fn minus_or_arrow(rest: &[u8]) -> (What, &[u8])
    ensures { Some (front_of result) ≡ first_mark marks (45 ∷ rest.now) }
{
    match continued(rest, b">", What::Arrow) {
        Some(arrow) => arrow,
        None => (What::Minus, rest),
    }
}

/// Behind the first byte that `→` and `√` share.
fn root_or_arrow(rest: &[u8]) -> Option<(What, &[u8])>
    ensures { option_map front_of result ≡ first_mark marks (226 ∷ rest.now) }
{
    continued(rest, b"\x86\x92", What::Arrow).or(continued(rest, b"\x88\x9A", What::Root))
}

/// This token, where its other bytes come next.
fn continued<'a>(rest: &'a [u8], others: &[u8], what: What) -> Option<(What, &'a [u8])>
    ensures { option_map front_of result ≡ option_map (λ after. (token_of what, after)) (rest_after others.now rest.now) }
{
    let behind = rest.strip_prefix(others)?;
    Some((what, behind))
}
