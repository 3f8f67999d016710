//! Tokens and the list of them.
ghost use Rattle.std.specs.Prelude.{◌≡◌, ◌<◌, ◌≤◌, [], ◌∷◌, ◌++◌, length, map, vec_capacity, IfOk};
ghost use Rattle.calc_tokens.specs.Limits.{line_limit};

use calc_terms::{Name, Rat};
use std::alloc::{AllocError, Global};
use thiserror::Error;

/// The most bytes of a line, and so the most of its tokens.
pub const LINE_LIMIT: usize = 1024;

/// What a token is.
#[derive(Clone, Copy, Debug)]
pub enum What {
    Number(Rat),
    Name(Name),
    Plus,
    Minus,
    Times,
    Slash,
    Caret,
    Left,
    Right,
    Root,
    Undef,
    Arrow,
}

/// A token and the place of its first byte in the line, counted from 1.
#[derive(Clone, Copy, Debug)]
pub struct Token {
    pub what: What,
    pub at: u16,
}

/// Why a line has no tokens; `at` is the place of a byte in the line, counted from 1.
#[derive(Clone, Copy, Debug, PartialEq, Eq, Error)]
pub enum TokenFault {
    /// No token begins here.
    #[error("no token begins at byte {at}")]
    Character { at: u16 },
    /// The literal that begins here is too wide.
    #[error("the literal at byte {at} is too wide")]
    Number { at: u16 },
}

/// The tokens of a line, at most `LINE_LIMIT`. Their memory is taken at opening.
#[derive(Drop)]
pub struct Tokens {
    items: Vec<Token>,
    ghost roomy: { line_limit ≤ vec_capacity items },
    ghost short: { length items.items ≤ line_limit },
}

impl Tokens {
    ghost use Rattle.calc_tokens.specs.Tokens.{placed, tokens_of};

    /// A list without tokens.
    pub fn open(alloc: Global) -> Result<Tokens, AllocError>
        ensures { IfOk result (λ tokens. tokens_of tokens ≡ []) }
    {
        let items = Vec::with_capacity(alloc, LINE_LIMIT)?;
        Ok(Tokens { items })
    }

    /// The tokens from left to right.
    pub fn items(&self) -> &[Token]
        ensures tokens { map placed result.now ≡ tokens_of self.now }
        ensures fits { length result.now ≤ line_limit }
    {
        self.items.as_slice()
    }

    /// Removes all tokens.
    pub fn clear(&mut self)
        ensures { tokens_of self.new ≡ [] }
    {
        self.items.clear();
    }

    pub(crate) fn push(&mut self, token: Token)
        requires { length (tokens_of self.old) < line_limit }
        ensures { tokens_of self.new ≡ tokens_of self.old ++ placed token ∷ [] }
    {
        self.items.push(token).unwrap();
    }
}
