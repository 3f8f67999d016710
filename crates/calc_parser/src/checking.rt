//! Whether tokens are a line.
ghost use Rattle.std.specs.Prelude.{◌≡◌, ◌↔◌, ◌≤◌, ℕ, List, Option, length, Err, IfOk, IsOk, OnErr, MatchResult};
ghost use Rattle.std.specs.Option.{option_map};
ghost use Rattle.calc_terms.specs.Leaf.{name_of};
ghost use Rattle.calc_terms.specs.Limits.{depth_limit};
ghost use Rattle.calc_terms.specs.Trees.{Tree, depth as depth_of};
ghost use Rattle.calc_tokens.specs.Placed.{bare};
ghost use Rattle.calc_tokens.specs.Tokens.{token_of, tokens_of};
ghost use Rattle.calc_parser.specs.Lines.{IsLine, IsNoLine, IsLineOver};
ghost use Rattle.calc_parser.specs.Outcomes.{IsShallow, IsFaultOf};
ghost use Rattle.calc_parser.specs.Stores.{stored, IsSplit};
ghost use Rattle.calc_parser.specs.Reader.{steps_in, tokens_in};
ghost use Rattle.calc_parser.specs.Steps.{AreStepsOf};

use crate::depth::depth;
use crate::postfix::STEP_LIMIT;
use crate::reader::{NoSum, Reader};
use arrayvec::ArrayVec;
use calc_terms::Name;
use calc_tokens::{Token, Tokens, What};
use thiserror::Error;

/// The largest depth of a line's tree.
const DEPTH_LIMIT: u32 = 64;

/// Why tokens are refused.
#[derive(Clone, Copy, Debug, PartialEq, Eq, Error)]
pub enum ParseFault {
    /// They are no line of the grammar.
    #[error("the tokens are no line of the grammar")]
    Syntax,
    /// They are one, and its tree is over 64 deep.
    #[error("the tree is more than 64 deep")]
    Deep,
}

/// Checks that tokens are a line, and says under which name it is stored, where there is one.
#[tactic(auto, using(crate::proofs::Answered::accepted, crate::proofs::Answered::syntax_exact, crate::proofs::Answered::deep_exact))]
pub fn check(tokens: &Tokens) -> Result<Option<Name>, ParseFault>
    ensures line { IfOk result (IsShallow (bare (tokens_of tokens.now))) }
    ensures accepts { (store : Option (List ℕ)) (t : Tree) → IsLine (bare (tokens_of tokens.now)) store t → depth_of t ≤ depth_limit → IsOk result }
    ensures syntax { (result ≡ Err ParseFault.Syntax) ↔ IsNoLine (bare (tokens_of tokens.now)) }
    ensures deep { (result ≡ Err ParseFault.Deep) ↔ IsLineOver depth_limit (bare (tokens_of tokens.now)) }
{
    let mut reader = Reader::new();
    let mut depths = ArrayVec::new();
    checked(tokens, &mut reader, &mut depths)
}

/// The name under which a line is stored, where there is one; or why tokens are none. The reader then holds the steps of its
/// tree.
pub(crate) fn checked(
    tokens: &Tokens,
    reader: &mut Reader,
    depths: &mut ArrayVec<u32, STEP_LIMIT>,
) -> Result<Option<Name>, ParseFault>
    ensures found { MatchResult result (IsShallow (bare (tokens_of tokens.now))) (IsFaultOf (bare (tokens_of tokens.now))) }
    ensures made { AreStepsOf (steps_in reader.new.postfix) (bare (tokens_of tokens.now)) }
{
    let Ok(store) = read_line(tokens, reader) else {
        return Err(ParseFault::Syntax);
    };
    if depth(reader.steps(), depths) > DEPTH_LIMIT {
        return Err(ParseFault::Deep);
    }
    Ok(store)
}

/// Reads the sum of a line, and says under which name it is stored, where there is one.
pub(crate) fn read_line(tokens: &Tokens, reader: &mut Reader) -> Result<Option<Name>, NoSum>
    ensures line { IfOk result (λ store. (t : Tree) × IsLine (bare (tokens_of tokens.now)) (option_map name_of store) t) }
    ensures no_line { OnErr result (IsNoLine (bare (tokens_of tokens.now))) }
    ensures made { AreStepsOf (steps_in reader.new.postfix) (bare (tokens_of tokens.now)) }
{
    let (sum, store) = without_store(tokens.items());
    reader.read(sum)?;
    Ok(store)
}

/// The tokens before an arrow and a name, where these end them.
fn without_store(tokens: &[Token]) -> (&[Token], Option<Name>)
    ensures split { IsSplit (tokens_in tokens.now) (tokens_in result.0.now) (option_map name_of result.1) }
    ensures shorter { length result.0.now ≤ length tokens.now }
{
    if let Some((last, front)) = tokens.split_last() {
        if let Some((arrow, sum)) = front.split_last() {
            if let Some(name) = stored(arrow.what, last.what) {
                return (sum, Some(name));
            }
        }
    }
    (tokens, None)
}

/// The name that the last two tokens store to.
fn stored(arrow: What, last: What) -> Option<Name>
    ensures { option_map name_of result ≡ stored (token_of arrow) (token_of last) }
{
    match (arrow, last) {
        (What::Arrow, What::Name(name)) => Some(name),
        _ => None,
    }
}
