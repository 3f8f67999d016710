//! The steps in which a row of a picture is painted.
ghost use Rattle.std.specs.Prelude.{◌≡◌, ◌<◌, ◌≤◌, ◌^◌, List, ℕ, Some, length};
ghost use Rattle.pool_layouts.specs.Extents.{IsSmall};
ghost use Rattle.pool_layouts.specs.Painting.{Opens, Shows, ShowsSome, centred_opened, fraction_opened, level_if as level_if_any, level_opened, paren_opened, radical_opened, raised_opened, row_opened};
ghost use Rattle.tree_handles.specs.Forest.{Forest};

use crate::extents::{Extent, extent_at, second};
use crate::ink::Ink;
use calc_terms::Kind;
use tree_handles::Visit;

/// What is still to be painted of a row.
#[derive(Clone, Copy)]
pub(crate) enum Step {
    /// So many blanks.
    Blanks(u32),
    /// A closing parenthesis.
    Close,
    /// A row of the layout whose nodes these are.
    Part(Span, u32),
    /// What layouts side by side, whose nodes these are, show in a row of a picture that has so many
    /// rows above its base row.
    Level(Span, u32, u32),
}

/// The nodes from one place of the list to before another.
#[derive(Clone, Copy)]
pub(crate) struct Span {
    pub(crate) at: u32,
    pub(crate) end: u32,
}

impl Default for Step {
    fn default() -> Step {
        Step::Blanks(0)
    }
}

/// What a step paints: blanks, ink, and then what two further steps paint.
#[derive(Clone, Copy)]
pub(crate) struct Opened {
    pub(crate) blanks: u32,
    pub(crate) ink: Ink,
    pub(crate) first: Option<Step>,
    pub(crate) second: Option<Step>,
}

/// What a step paints first, and what is left of it.
#[tactic(auto, using(crate::proofs::Opening::blanks_opens, crate::proofs::Opening::close_opens))]
pub(crate) fn open_step(cells: &[Visit], extents: &[Extent], step: Step) -> Opened
    requires shown { (base : Forest) × ShowsSome base cells.now extents.now step }
    requires few_cells { length cells.now < 2 ^ 16 }
    requires few { length extents.now ≤ 2 ^ 16 }
    ensures { (base : Forest) (cs : List ℕ) → Shows base cells.now extents.now step cs → Opens base cells.now extents.now step cs result }
{
    match step {
        Step::Blanks(blanks) => Opened {
            blanks,
            ink: Ink::Nothing,
            first: None,
            second: None,
        },
        Step::Close => Opened {
            blanks: 0,
            ink: Ink::Close,
            first: None,
            second: None,
        },
        Step::Part(span, row) => open_part(cells, extents, span, row),
        Step::Level(span, above, row) => {
            let part = extent_at(extents, span.at as usize);
            open_level(part, span, above, row)
        }
    }
}

/// A row of one layout.
#[tactic(auto, using(crate::proofs::Opening::cell_inside))]
fn open_part(cells: &[Visit], extents: &[Extent], span: Span, row: u32) -> Opened
    requires shown { (base : Forest) × ShowsSome base cells.now extents.now (Step.Part span row) }
    requires few_cells { length cells.now < 2 ^ 16 }
    requires few { length extents.now ≤ 2 ^ 16 }
    ensures { (base : Forest) (cs : List ℕ) → Shows base cells.now extents.now (Step.Part span row) cs → Opens base cells.now extents.now (Step.Part span row) cs result }
{
    let at = span.at as usize;
    let cell = cells[at];
    let inner = Span {
        at: span.at + 1,
        end: span.end,
    };
    match cell.kind {
        Kind::Row => open_row(extent_at(extents, at), inner, row),
        Kind::Fraction => {
            let upper = extent_at(extents, at + 1);
            open_fraction(upper, second(extents, at + 1), inner, row)
        }
        Kind::Raised => open_raised(extent_at(extents, at + 1), inner, row),
        Kind::Radical => open_radical(extent_at(extents, at + 1), inner, row),
        Kind::Paren => open_paren(inner, row),
        _ => Opened {
            blanks: 0,
            ink: Ink::Leaf(cell.id),
            first: None,
            second: None,
        },
    }
}

/// What is left of layouts side by side, where any are left.
fn level_if(at: u32, end: u32, above: u32, row: u32) -> Option<Step>
    ensures { result ≡ level_if_any at end above row }
{
    if at < end {
        Some(Step::Level(Span { at, end }, above, row))
    } else {
        None
    }
}

/// Layouts side by side: the first of them, and then the others.
fn open_level(part: Extent, span: Span, above: u32, row: u32) -> Opened
    requires small { IsSmall part }
    requires span { span.at ≤ 2 ^ 16 }
    requires row { row ≤ 2 ^ 22 }
    ensures { result ≡ level_opened part span above row }
{
    let next = span.at + part.nodes;
    let second = level_if(next, span.end, above, row);
    match part.level(above, row) {
        Some(row) => Opened {
            blanks: 0,
            ink: Ink::Nothing,
            first: Some(Step::Part(
                Span {
                    at: span.at,
                    end: next,
                },
                row,
            )),
            second,
        },
        None => Opened {
            blanks: part.width,
            ink: Ink::Nothing,
            first: None,
            second,
        },
    }
}

/// A row of layouts side by side that are one.
fn open_row(whole: Extent, parts: Span, row: u32) -> Opened
    ensures { result ≡ row_opened whole parts row }
{
    Opened {
        blanks: 0,
        ink: Ink::Nothing,
        first: None,
        second: level_if(parts.at, parts.end, whole.above, row),
    }
}

/// The upper part of a fraction, the bar, or the lower part.
fn open_fraction(upper: Extent, lower: Extent, parts: Span, row: u32) -> Opened
    requires upper { IsSmall upper }
    requires lower { IsSmall lower }
    requires span { parts.at ≤ 2 ^ 16 }
    requires row { row ≤ 2 ^ 22 }
    ensures { result ≡ fraction_opened upper lower parts row }
{
    let mid = parts.at + upper.nodes;
    let width = upper.width.max(lower.width);
    let height = upper.height();
    if row < height {
        let span = Span {
            at: parts.at,
            end: mid,
        };
        open_centred(width - upper.width, Step::Part(span, row))
    } else if row == height {
        Opened {
            blanks: 0,
            ink: Ink::Bar(width),
            first: None,
            second: None,
        }
    } else {
        let span = Span {
            at: mid,
            end: parts.end,
        };
        open_centred(width - lower.width, Step::Part(span, row - height - 1))
    }
}

/// A row with blanks on either side, of which there are so many.
fn open_centred(blanks: u32, part: Step) -> Opened
    ensures { result ≡ centred_opened blanks (Some part) }
{
    Opened {
        blanks: blanks / 2,
        ink: Ink::Nothing,
        first: Some(part),
        second: Some(Step::Blanks(blanks - blanks / 2)),
    }
}

/// A row of a raised layout, or the blank row under it.
fn open_raised(part: Extent, inner: Span, row: u32) -> Opened
    requires { IsSmall part }
    ensures { result ≡ raised_opened part inner row }
{
    if row < part.height() {
        Opened {
            blanks: 0,
            ink: Ink::Nothing,
            first: Some(Step::Part(inner, row)),
            second: None,
        }
    } else {
        Opened {
            blanks: part.width,
            ink: Ink::Nothing,
            first: None,
            second: None,
        }
    }
}

/// The roof over what stands under a root sign, or one of its rows.
fn open_radical(part: Extent, inner: Span, row: u32) -> Opened
    requires { IsSmall part }
    ensures { result ≡ radical_opened part inner row }
{
    if row == 0 {
        return Opened {
            blanks: 1,
            ink: Ink::Roof(part.width),
            first: None,
            second: None,
        };
    }
    let first = Some(Step::Part(inner, row - 1));
    if row == part.above + 1 {
        Opened {
            blanks: 0,
            ink: Ink::Root,
            first,
            second: None,
        }
    } else {
        Opened {
            blanks: 1,
            ink: Ink::Nothing,
            first,
            second: None,
        }
    }
}

/// A row of a layout in parentheses.
fn open_paren(inner: Span, row: u32) -> Opened
    ensures { result ≡ paren_opened inner row }
{
    Opened {
        blanks: 0,
        ink: Ink::Open,
        first: Some(Step::Part(inner, row)),
        second: Some(Step::Close),
    }
}
