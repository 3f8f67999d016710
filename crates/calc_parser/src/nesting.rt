//! What is open while a line is read.
ghost use Rattle.std.specs.Prelude.{◌≡◌, ◌<◌, [], ◌∷◌, List, length};
ghost use Rattle.std.specs.Option.{option_map};
ghost use Rattle.calc_language.specs.Tokens.{Token as Mark};
ghost use Rattle.calc_parser.specs.Reader.{open_in, innermost, outer, node_of};
ghost use Rattle.calc_parser.specs.Automaton.{completed, place_in};
ghost use Rattle.calc_parser.specs.Postfix.{step_limit};

use crate::postfix::{STEP_LIMIT, Step};
use arrayvec::ArrayVec;
use calc_terms::Kind;

/// Something that began and has not ended.
#[derive(Clone, Copy)]
pub(crate) enum Open {
    /// `(`.
    Parentheses,
    /// A root sign and `(`.
    Root,
    /// A sum that has made so many children, and `+`.
    Sum(u16),
    /// A left side and `-`.
    Difference,
    /// `-` before a term.
    NegatedTerm,
    /// A product that has made so many children, and `×`.
    Product(u16),
    /// A left side and `/`.
    Quotient,
    /// `-` before a factor.
    NegatedFactor,
    /// So many powers side by side.
    Joined(u16),
    /// A base and `^`.
    Power,
    /// `-` before an exponent.
    NegatedExponent,
}

/// What a part is that has ended.
#[derive(Clone, Copy)]
pub(crate) enum Level {
    Power,
    Factor,
    Term,
}

/// Where a part that has ended stands in what was opened last.
#[derive(Clone, Copy)]
pub(crate) enum Place {
    /// It is one more child beside so many.
    Child(u16),
    /// It is the right side of a node of this kind.
    Right(Kind),
}

impl Default for Open {
    fn default() -> Open {
        Open::Parentheses
    }
}

impl Open {
    /// The node that this makes with a part of this level behind it, where it ends with that part.
    pub(crate) fn completed(self, level: Level) -> Option<Step>
        ensures { (ts : List Mark) → option_map (node_of ts) result ≡ completed level self }
    {
        match (level, self) {
            (Level::Power, Open::Power) => Some(Step::Node(Kind::Pow, 2)),
            (Level::Power, Open::NegatedExponent) => Some(Step::Node(Kind::Neg, 1)),
            (Level::Factor, Open::NegatedFactor) => Some(Step::Node(Kind::Neg, 1)),
            (Level::Term, Open::NegatedTerm) => Some(Step::Node(Kind::Neg, 1)),
            _ => None,
        }
    }

    /// Where a part of this level stands in this.
    pub(crate) fn place(self, level: Level) -> Option<Place>
        ensures { result ≡ place_in level self }
    {
        match (level, self) {
            (Level::Power, Open::Joined(powers)) => Some(Place::Child(powers)),
            (Level::Factor, Open::Product(factors)) => Some(Place::Child(factors)),
            (Level::Factor, Open::Quotient) => Some(Place::Right(Kind::Div)),
            (Level::Term, Open::Sum(terms)) => Some(Place::Child(terms)),
            (Level::Term, Open::Difference) => Some(Place::Right(Kind::Sub)),
            _ => None,
        }
    }
}

/// What is open, at most `STEP_LIMIT` of them.
#[derive(Drop)]
pub(crate) struct Nesting {
    items: ArrayVec<Open, STEP_LIMIT>,
}

impl Nesting {
    pub(crate) fn none() -> Nesting
        ensures { open_in result ≡ [] }
    {
        Nesting {
            items: ArrayVec::new(),
        }
    }

    pub(crate) fn clear(&mut self)
        ensures { open_in self.new ≡ [] }
    {
        self.items.clear();
    }

    /// What was opened last.
    pub(crate) fn innermost(&self) -> Option<Open>
        ensures { result ≡ innermost (open_in self.now) }
    {
        let (last, _) = self.items.as_slice().split_last()?;
        Some(*last)
    }

    pub(crate) fn enter(&mut self, part: Open)
        requires { length (open_in self.old) < step_limit }
        ensures { open_in self.new ≡ part ∷ open_in self.old }
    {
        self.items.push(part);
    }

    /// Ends what was opened last.
    pub(crate) fn leave(&mut self)
        ensures { open_in self.new ≡ outer (open_in self.old) }
    {
        self.items.pop();
    }
}
