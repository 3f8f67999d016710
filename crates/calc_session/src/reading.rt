//! Lines, read by the grammar.
ghost use Rattle.std.specs.Prelude.{◌≡◌, ◌≤◌, ◌+◌, ℕ, List, length, None, IfOk, IfErr, OnOk, codes};
ghost use Rattle.std.specs.Str.{bytes_eq};
ghost use Rattle.calc_terms.specs.Leaf.{name_of};
ghost use Rattle.calc_terms.specs.Trees.{Tree};
ghost use Rattle.calc_parser.specs.Outcomes.{IsFaultOf as IsLineFault};
ghost use Rattle.calc_parser.specs.Refused.{IsLineFaultOf};
ghost use Rattle.calc_tokens.specs.Faults.{IsFaultOf};
ghost use Rattle.calc_tokens.specs.Limits.{line_limit};
ghost use Rattle.calc_tokens.specs.Placed.{Placed, bare};
ghost use Rattle.calc_tokens.specs.Scanned.{AreTokensOf};
ghost use Rattle.calc_tokens.specs.Tokens.{tokens_of};
ghost use Rattle.name_table.specs.Storing.{IsStorable, name_in};
ghost use Rattle.calc_session.specs.Answers.{reason_of};
ghost use Rattle.calc_session.specs.Arguments.{bytes_before as bytes_before_text, IsMisread, IsNoExpression, ReadsText};
ghost use Rattle.calc_session.specs.Reading.{IsUnstorable};
ghost use Rattle.calc_session.specs.Replies.{refusal_in};

use crate::Refusal;
use calc_parser::{LineFault, ParseFault, Parser};
use calc_terms::Name;
use calc_tokens::TokenFault;
use name_table::NameTable;

/// How many bytes of a line stand before the text at its end.
pub fn bytes_before(line: &[u8], text: &[u8]) -> u16
    requires short { length line.now ≤ line_limit }
    requires behind { length text.now ≤ length line.now }
    ensures { result ≡ bytes_before_text line.now text.now }
{
    (line.len() - text.len()) as u16
}

/// Reads a text by the grammar. The name is that under which its answer is to be stored. So many bytes of the line stand before
/// it.
pub fn read_text(text: &[u8], before: u16, parser: &mut Parser) -> Result<Option<Name>, Refusal>
    requires { before + length text.now ≤ line_limit }
    ensures tree { IfOk result (λ store. (t : Tree) × ReadsText text.now (tokens_of parser.new) (name_in store) t) }
    ensures refused { IfErr result (λ refusal. IsMisread before text.now (reason_of refusal)) }
    ensures no_pool { IfErr result (λ refusal. refusal_in (reason_of refusal) ≡ None) }
    ensures no_breaker { IfErr result (λ refusal. (place : ℕ) → refusal ≡ Refusal.Interrupted place → ⊥) }
{
    match parser.read(text) {
        Ok(store) => Ok(store),
        Err(fault) => Err(refusal_to_read(fault, before)),
    }
}

/// Reads a text as an expression to calculate with. So many bytes of the line stand before it.
pub fn read_expression(text: &[u8], before: u16, parser: &mut Parser) -> Result<(), Refusal>
    requires { before + length text.now ≤ line_limit }
    ensures tree { IfOk result (λ _. (t : Tree) × ReadsText text.now (tokens_of parser.new) None t) }
    ensures refused { IfErr result (λ refusal. IsNoExpression before text.now (reason_of refusal)) }
    ensures no_pool { IfErr result (λ refusal. refusal_in (reason_of refusal) ≡ None) }
    ensures no_breaker { IfErr result (λ refusal. (place : ℕ) → refusal ≡ Refusal.Interrupted place → ⊥) }
{
    match read_text(text, before, parser) {
        Ok(store) => match store {
            None => Ok(()),
            Some(_) => Err(Refusal::Command),
        },
        Err(refusal) => Err(refusal),
    }
}

/// Whether an answer can be stored under the name, where there is one.
pub fn check_store(store: Option<Name>, table: &NameTable) -> Result<(), Refusal>
    ensures ok { OnOk result (IsStorable (name_in store) table.now) }
    ensures refused { IfErr result (λ refusal. IsUnstorable table.now (name_in store) (reason_of refusal)) }
    ensures no_pool { IfErr result (λ refusal. refusal_in (reason_of refusal) ≡ None) }
    ensures no_breaker { IfErr result (λ refusal. (place : ℕ) → refusal ≡ Refusal.Interrupted place → ⊥) }
{
    let Some(name) = store else {
        return Ok(());
    };
    if is_ans(name) {
        return Err(Refusal::Reserved);
    }
    if !table.has_room_for(name) {
        return Err(Refusal::NamesFull);
    }
    Ok(())
}

/// The refusal of a text that is not read, where so many bytes of the line stand before it.
fn refusal_to_read(fault: LineFault, before: u16) -> Refusal
    requires place { (text : List ℕ) × IsLineFaultOf text fault × (before + length text ≤ line_limit) }
    ensures refused { (text : List ℕ) → IsLineFaultOf text fault → IsMisread before text (reason_of result) }
    ensures no_pool { refusal_in (reason_of result) ≡ None }
    ensures no_breaker { (place : ℕ) → result ≡ Refusal.Interrupted place → ⊥ }
{
    match fault {
        LineFault::Token(fault) => token_refusal(fault, before),
        LineFault::Parse(fault) => line_refusal(fault),
    }
}

fn token_refusal(fault: TokenFault, before: u16) -> Refusal
    requires place { (text : List ℕ) × IsFaultOf text fault × (before + length text ≤ line_limit) }
    ensures refused { (text : List ℕ) → IsFaultOf text fault → IsMisread before text (reason_of result) }
    ensures no_pool { refusal_in (reason_of result) ≡ None }
    ensures no_breaker { (place : ℕ) → result ≡ Refusal.Interrupted place → ⊥ }
{
    match fault {
        TokenFault::Character { at } => Refusal::Character { at: before + at },
        TokenFault::Number { at } => Refusal::Number { at: before + at },
    }
}

fn line_refusal(fault: ParseFault) -> Refusal
    ensures refused { (before : ℕ) (text : List ℕ) (tokens : List Placed) → AreTokensOf tokens text → IsLineFault (bare tokens) fault → IsMisread before text (reason_of result) }
    ensures no_pool { refusal_in (reason_of result) ≡ None }
    ensures no_breaker { (place : ℕ) → result ≡ Refusal.Interrupted place → ⊥ }
{
    match fault {
        ParseFault::Syntax => Refusal::Syntax,
        ParseFault::Deep => Refusal::Deep,
    }
}

/// Whether a name is that of the last answer.
pub fn is_ans(name: Name) -> bool
    ensures { result ≡ bytes_eq (name_of name) (codes "ans") }
{
    name.bytes() == b"ans".as_slice()
}
