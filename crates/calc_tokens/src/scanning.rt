//! From bytes to tokens.
ghost use Rattle.std.specs.Prelude.{◌≡◌, ◌↔◌, ◌≤◌, ℕ, List, [], length, IsOkAnd, MatchResult, OnErr, OnOk, Err, true, false};
ghost use Rattle.calc_language.specs.Tokens.{is_blank};
ghost use Rattle.calc_tokens.specs.Limits.{line_limit};
ghost use Rattle.calc_tokens.specs.Placed.{Placed};
ghost use Rattle.calc_tokens.specs.Tokens.{tokens_of, token_of};
ghost use Rattle.calc_tokens.specs.Scanned.{AreTokensOf, IsFirstCharacter, IsFirstWide, begins, begins_blank, BeginsToken};
ghost use Rattle.calc_tokens.specs.Faults.{IsFaultHere, IsFaultOf};

use crate::literals::literal;
use crate::marks::mark;
use crate::tokens::{Token, TokenFault, Tokens, What};
use crate::words::word;

/// Puts the tokens of a line in place of those of the list: the longest at each place, with the blanks
/// between them skipped. The list is empty behind a fault.
pub fn scan(tokens: &mut Tokens, line: &[u8]) -> Result<(), TokenFault>
    requires { length line.now ≤ line_limit }
    ensures tokens { OnOk result (AreTokensOf (tokens_of tokens.new) line.now) }
    ensures accepts { (ts : List Placed) → AreTokensOf ts line.now → IsOkAnd result (λ _. tokens_of tokens.new ≡ ts) }

    // The first place in the line decides which fault it is.
    ensures character { (at : ℕ) → (result ≡ Err (TokenFault.Character at)) ↔ IsFirstCharacter line.now at }
    ensures number { (at : ℕ) → (result ≡ Err (TokenFault.Number at)) ↔ IsFirstWide line.now at }
    ensures emptied { OnErr result (tokens_of tokens.new ≡ []) }
{
    tokens.clear();
    match push_tokens(tokens, line) {
        Ok(()) => Ok(()),
        Err(fault) => {
            tokens.clear();
            Err(fault)
        }
    }
}

/// Puts the tokens of a line into a list without tokens, up to the first fault.
fn push_tokens(tokens: &mut Tokens, line: &[u8]) -> Result<(), TokenFault>
    requires short { length line.now ≤ line_limit }
    requires none { tokens_of tokens.old ≡ [] }
    ensures { MatchResult result (λ _. AreTokensOf (tokens_of tokens.new) line.now) (λ fault. IsFaultOf line.now fault) }
{
    let mut rest = line;
    while let Some((first, others)) = rest.split_first() {
        if is_blank(*first) {
            rest = others;
            continue;
        }
        let at = (line.len() - rest.len() + 1) as u16;
        let (what, behind) = token(rest, at)?;
        tokens.push(Token { what, at });
        rest = behind;
    }
    Ok(())
}

/// A space or a tab.
pub fn is_blank(byte: u8) -> bool
    ensures { result ≡ is_blank byte }
{
    byte == b' ' || byte == b'\t'
}

/// The token at the front of bytes that stand at the place `at`, and what stands behind it.
fn token(bytes: &[u8], at: u16) -> Result<(What, &[u8]), TokenFault>
    requires some { begins bytes.now ≡ true }
    requires no_blank { begins_blank bytes.now ≡ false }
    ensures { MatchResult result (λ found. BeginsToken bytes.now (token_of found.0) found.1.now) (λ fault. IsFaultHere bytes.now at fault) }
{
    match bytes[0] {
        b'0'..=b'9' => literal(bytes).ok_or(TokenFault::Number { at }),
        b'A'..=b'Z' | b'a'..=b'z' => word(bytes).ok_or(TokenFault::Character { at }),
        _ => mark(bytes).ok_or(TokenFault::Character { at }),
    }
}
