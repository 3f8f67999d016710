//! Where trees stand in a text.
ghost use Rattle.std.specs.Prelude.{◌≡◌, ◌<◌, ◌-◌};
ghost use Rattle.line_text.specs.Places.{next_place, first_place, level_of, admits_kind, skips_opposites as skips_opposites_there};
ghost use Rattle.line_text.specs.Writing.{kind_closing};

use calc_terms::Kind;

/// Where a tree stands: in the whole text, or below a node of some kind. The trees of a row stand as the whole text does.
#[derive(Clone, Copy, Debug, PartialEq, Eq)]
pub enum Place {
    WholeText,
    FirstOfSum,
    LaterOfSum,
    LeftOfDifference,
    RightOfDifference,
    UnderSign,
    FirstOfProduct,
    LaterOfProduct,
    LeftOfQuotient,
    RightOfQuotient,
    Base,
    Exponent,
    UnderRoot,
    AboveBar,
    BelowBar,
    Raised,
    InParentheses,
}

impl Place {
    /// Where the first child of a node stands.
    pub fn first_below(kind: Kind) -> Place
        ensures { result ≡ first_place kind }
    {
        match kind {
            Kind::Add => Place::FirstOfSum,
            Kind::Mult => Place::FirstOfProduct,
            Kind::Pow => Place::Base,
            Kind::Root | Kind::Radical => Place::UnderRoot,
            Kind::Neg => Place::UnderSign,
            Kind::Sub => Place::LeftOfDifference,
            Kind::Div => Place::LeftOfQuotient,
            Kind::Fraction => Place::AboveBar,
            Kind::Raised => Place::Raised,
            Kind::Paren => Place::InParentheses,
            _ => Place::WholeText,
        }
    }

    /// Where the next child of the same node stands.
    pub fn next(self) -> Place
        ensures { result ≡ next_place self }
    {
        match self {
            Place::FirstOfSum => Place::LaterOfSum,
            Place::LeftOfDifference => Place::RightOfDifference,
            Place::FirstOfProduct => Place::LaterOfProduct,
            Place::LeftOfQuotient => Place::RightOfQuotient,
            Place::Base => Place::Exponent,
            Place::AboveBar => Place::BelowBar,
            _ => self,
        }
    }

    /// Whether what opposites are of decides there about parentheses, and not the opposites.
    pub(crate) fn skips_opposites(self) -> bool
        ensures { result ≡ skips_opposites_there self }
    {
        matches!(
            self,
            Place::LaterOfProduct | Place::RightOfQuotient | Place::Exponent
        )
    }

    /// Whether a tree needs no parentheses there, by the kind that decides.
    pub fn admits(self, kind: Kind) -> bool
        ensures { result ≡ admits_kind self kind }
    {
        match self {
            Place::FirstOfSum => level(kind) >= 1 || kind == Kind::Sub,
            Place::LaterOfSum | Place::RightOfDifference | Place::UnderSign => level(kind) >= 1,
            Place::FirstOfProduct => level(kind) >= 3 || kind == Kind::Div,
            Place::LeftOfQuotient => level(kind) >= 2,
            Place::LaterOfProduct | Place::RightOfQuotient | Place::Exponent => level(kind) >= 3,
            Place::Base => level(kind) >= 4,
            _ => true,
        }
    }
}

/// How tightly a node binds.
pub fn level(kind: Kind) -> u8
    ensures { result ≡ level_of kind }
{
    match kind {
        Kind::Add | Kind::Sub => 0,
        Kind::Neg => 1,
        Kind::Mult | Kind::Div => 2,
        Kind::Pow => 3,
        _ => 4,
    }
}

/// The children of a node that are still to be written.
#[derive(Clone, Copy)]
pub(crate) struct Pending {
    /// Where the next of them stands.
    pub(crate) place: Place,
    /// How many there are.
    pub(crate) left: u16,
    /// How many closing parentheses follow them.
    pub(crate) closing: u8,
}

impl Pending {
    ghost use Rattle.line_text.specs.Writing.{pending_below, owes as owes_bytes};

    /// One tree, which is the whole text.
    pub(crate) fn whole_text() -> Pending
        ensures { result ≡ record { place = Place.WholeText; left = 1; closing = 0 } }
    {
        Pending {
            place: Place::WholeText,
            left: 1,
            closing: 0,
        }
    }

    /// The children of a node whose root is written, with an opening parenthesis unless it is
    /// admitted without.
    pub(crate) fn below(kind: Kind, children: u16, admitted: bool) -> Pending
        ensures { result ≡ pending_below kind children admitted }
    {
        let closing = own_closing(kind);
        Pending {
            place: Place::first_below(kind),
            left: children,
            closing: if admitted { closing } else { closing + 1 },
        }
    }

    /// The same without the next of them.
    pub(crate) fn without_first(self) -> Pending
        requires { 0 < self.left }
        ensures { result ≡ record { place = next_place self.place; left = self.left - 1; closing = self.closing } }
    {
        Pending {
            place: self.place.next(),
            left: self.left - 1,
            closing: self.closing,
        }
    }

    /// Whether anything is still to be written.
    pub(crate) fn owes(self) -> bool
        ensures { result ≡ owes_bytes self }
    {
        self.left > 0 || self.closing > 0
    }
}

/// How many parentheses close the text of a node of this kind wherever it stands.
fn own_closing(kind: Kind) -> u8
    ensures { result ≡ kind_closing kind }
{
    match kind {
        Kind::Fraction => 2,
        Kind::Root | Kind::Radical | Kind::Raised | Kind::Paren => 1,
        _ => 0,
    }
}
