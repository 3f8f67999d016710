//! What a line is answered with.
ghost use Rattle.std.specs.Prelude.{◌≡◌};

use calc_terms::{Name, Rat};
use node_pool::Full;
use rational128::Op;

/// Why a line is not answered. `at` is the place of a byte in the line, counted from 1.
#[derive(Clone, Copy, Debug)]
pub enum Refusal {
    /// The line has more than 1,024 bytes.
    Long,
    /// No token begins here.
    Character { at: u16 },
    /// The literal that begins here is too wide.
    Number { at: u16 },
    /// The tokens are no line of the grammar.
    Syntax,
    /// The line's tree is over 64 deep, or is so once the names in it are replaced.
    Deep,
    /// `ans` can be neither stored nor forgotten.
    Reserved,
    /// The name is new, and 64 names are stored.
    NamesFull,
    /// A node, a stored tree that is copied, or a derivative needs more bytes than are free in the pool.
    Full { needed: u32, free: u32 },
    /// The operation on these operands does not fit.
    Overflow { op: Op, a: Rat, b: Rat },
    /// The breaker at this place of the watch tripped.
    Interrupted { by: u32 },
    /// What is to be stored under the name holds it.
    Circular { name: Name },
    /// The line begins like a command and is none: its word is unknown, or does not take what stands behind it; its text is a store,
    /// or a text behind `:solve` is not split into equations.
    Command,
    /// What is to be expanded is no polynomial.
    NotPolynomial,
    /// A power in which the name occurs has an exponent by which it is not derived.
    NoDerivative,
    /// A side of the equation at this place, counted from 1, is not linear.
    NotLinear { equation: u8 },
    /// There are over six equations, or over six names in them.
    TooMany,
    /// What is to be told as a decimal, or by its sign, is no Number.
    NoDecimal,
    /// A Number is too close to the middle of two decimals, or to 0.
    Undecided,
    /// An exponent of a polynomial is above 32; or something of degree 3 or more is left of it that has no rational root u/v with
    /// both up to 1,000.
    Degree,
}

impl Refusal {
    ghost use Rattle.calc_session.specs.Answers.{number_of};

    /// The number of the kind of refusal, from 1 to 20; there is no 13.
    pub fn number(&self) -> u8
        ensures { result ≡ number_of self.now }
    {
        match self {
            Refusal::Long => 1,
            Refusal::Character { .. } => 2,
            Refusal::Number { .. } => 3,
            Refusal::Syntax => 4,
            Refusal::Deep => 5,
            Refusal::Reserved => 6,
            Refusal::NamesFull => 7,
            Refusal::Full { .. } => 8,
            Refusal::Overflow { .. } => 9,
            Refusal::Interrupted { .. } => 10,
            Refusal::Circular { .. } => 11,
            Refusal::Command => 12,
            Refusal::NotPolynomial => 14,
            Refusal::NoDerivative => 15,
            Refusal::NotLinear { .. } => 16,
            Refusal::TooMany => 17,
            Refusal::NoDecimal => 18,
            Refusal::Undecided => 19,
            Refusal::Degree => 20,
        }
    }
}

#[derive(Clone, Copy, Debug)]
pub enum LineAnswer {
    /// The line is blank, and there is no text.
    Blank,
    /// The text is that of the new last answer.
    Shown,
    /// The same, and the answer is stored under a name.
    Stored,
    /// No assignment of rationals to the names gives the line a meaning.
    Undef,
    /// The text is what a command tells.
    Report,
    /// The last answer is to be drawn.
    Draw,
    Refused(Refusal),
}

/// Why the last answer is not drawn, or not all of it.
#[derive(Clone, Copy, Debug, PartialEq, Eq)]
pub enum DrawFault {
    /// Its layout finds no room in the pool.
    Full(Full),
    /// The sink failed.
    Write,
}
