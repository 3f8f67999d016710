//! What stands before the parts of a face in its layout, and round them.
ghost use Rattle.std.specs.Prelude.{◌≡◌};
ghost use Rattle.pool_layouts.specs.Places.{mark_before as mark_there, around_kind, paren_kind_unless, laid_kind as laid_kind_of};

use calc_terms::Kind;
use line_text::Place;

/// The mark before a tree at a place.
pub(crate) fn mark_before(place: Place) -> Option<Kind>
    ensures { result ≡ mark_there place }
{
    match place {
        Place::LaterOfSum => Some(Kind::Plus),
        Place::RightOfDifference | Place::UnderSign => Some(Kind::Minus),
        Place::LaterOfProduct => Some(Kind::Times),
        _ => None,
    }
}

/// What a tree there stands in, by the kind of its root and the kind that decides about
/// parentheses.
pub(crate) fn around(place: Place, kind: Kind, deciding: Kind) -> Option<Kind>
    ensures { result ≡ around_kind place kind deciding }
{
    match place {
        Place::WholeText | Place::UnderRoot | Place::LeftOfQuotient | Place::RightOfQuotient => {
            None
        }
        Place::Exponent => Some(Kind::Raised),
        Place::Base => paren_unless(place.admits(kind)),
        _ if kind == Kind::Div => None,
        _ => paren_unless(place.admits(deciding)),
    }
}

/// Parentheses, or none.
fn paren_unless(bare: bool) -> Option<Kind>
    ensures { result ≡ paren_kind_unless bare }
{
    if bare { None } else { Some(Kind::Paren) }
}

/// The kind of a layout's node for a node of a face.
pub(crate) fn laid_kind(kind: Kind) -> Kind
    ensures { result ≡ laid_kind_of kind }
{
    match kind {
        Kind::Div => Kind::Fraction,
        Kind::Root => Kind::Radical,
        _ => Kind::Row,
    }
}
