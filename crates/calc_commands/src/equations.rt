//! Equations as they are written: a text split at `;` and at `=`.
ghost use Rattle.std.specs.Prelude.{◌≡◌, ◌≤◌, ◌<◌, ◌+◌, ◌∷◌, ◌==◌, List, ℕ, length, take, drop, IfOk, IfErr, IfSome, IsNone, MatchOption, Contains};
ghost use Rattle.std.specs.List.{position_or_len};
ghost use Rattle.calc_commands.specs.Equations.{AreSides, Sides, cut_at, written};
ghost use Rattle.calc_commands.specs.Ranges.{AreSplit, IsSplitFault, IsWithin, pieces_from, sides_at};

use crate::parts::are_blanks;
use arrayvec::ArrayVec;

/// So many equations are solved at most.
pub const EQUATION_LIMIT: usize = 6;

/// Where an equation stands in a text.
#[derive(Clone, Copy, Debug, Default)]
pub struct EquationRange {
    /// Where its left side begins.
    pub begin: usize,
    /// Where the `=` stands.
    pub sign: usize,
    /// Where its right side ends.
    pub end: usize,
}

/// Why a text is not split.
#[derive(Clone, Copy, Debug, PartialEq, Eq)]
pub enum SplitFault {
    /// It is not written as equations.
    Unwritten,
    /// There are more than six equations.
    TooMany,
}

/// The equations of a text: pieces with `;` between them, each of two sides with `=` between them.
pub fn split_equations(text: &[u8]) -> Result<ArrayVec<EquationRange, EQUATION_LIMIT>, SplitFault>
    ensures ok { IfOk result (λ ranges. AreSplit text.now ranges.items) }
    ensures refused { IfErr result (IsSplitFault text.now) }
{
    let mut ranges = ArrayVec::new();
    let mut begin = 0;
    let mut is_many = false;
    while begin <= text.len() {
        let Some(range) = equation_at(text, begin) else {
            return Err(SplitFault::Unwritten);
        };
        begin = range.end + 1;
        is_many = ranges.try_push(range).is_err();
    }
    if is_many {
        Err(SplitFault::TooMany)
    } else {
        Ok(ranges)
    }
}

/// The equation that begins at a place and ends before the next `;`, or with the text.
fn equation_at(text: &[u8], begin: usize) -> Option<EquationRange>
    requires { begin ≤ length text.now }
    ensures none { IsNone result → (e : Sides) (others : List (List ℕ)) → AreSides e → pieces_from begin text.now ≡ written e ∷ others → ⊥ }
    ensures begin { IfSome result (λ range. range.begin ≡ begin) }
    ensures within { IfSome result (IsWithin text.now) }
    ensures sides { IfSome result (λ range. AreSides (sides_at text.now range)) }
    ensures piece { IfSome result (λ range. pieces_from begin text.now ≡ written (sides_at text.now range) ∷ pieces_from (range.end + 1) text.now) }
{
    let rest = &text[begin..];
    let end = len_before(rest, b';');
    let sign = sign_in(&rest[..end])?;
    Some(EquationRange {
        begin,
        sign: begin + sign,
        end: begin + end,
    })
}

/// Where the `=` stands in an equation without a `;`.
fn sign_in(piece: &[u8]) -> Option<usize>
    requires { ¬ (Contains piece.now 59) }
    ensures { MatchOption result ((e : Sides) → AreSides e → piece.now ≡ written e → ⊥)
        (λ sign. AreSides (cut_at sign piece.now) × (drop sign piece.now ≡ 61 ∷ drop (sign + 1) piece.now)) }
{
    let sign = len_before(piece, b'=');
    if sign == piece.len() {
        return None;
    }
    let right = &piece[sign + 1..];
    if are_blanks(&piece[..sign]) || are_blanks(right) {
        return None;
    }
    if len_before(right, b'=') < right.len() {
        return None;
    }
    Some(sign)
}

/// How many bytes stand before the first one of this kind.
fn len_before(bytes: &[u8], byte: u8) -> usize
    ensures exactly { result ≡ position_or_len (λ b. b == byte) bytes.now }
    ensures within { result ≤ length bytes.now }
{
    bytes.iter().take_while(|other| **other != byte).count()
}
