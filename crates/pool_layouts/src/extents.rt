//! How much room the pictures of layouts take.
ghost use Rattle.std.specs.Prelude.{◌≡◌, ◌+◌, ◌≤◌, ◌<◌, ◌^◌, length, max, nat_abs, true, vec_capacity};
ghost use Rattle.calc_language.specs.Texts.{decimal};
ghost use Rattle.calc_terms.specs.Rat.{ratio_of};
ghost use Rattle.tree_handles.specs.Visits.{visits_of};
ghost use Rattle.pool_layouts.specs.Drawings.{IsLayout, drawings};
ghost use Rattle.pool_layouts.specs.Extents.{extent_from, extent_of, HasExtents, HasPair, HasSomeFirst, HasSomePair, HasSmall, HasSomeSmall, IsOver, IsSomeOver, IsSmall, leaf_width as leaf_width_of};
ghost use Rattle.pool_layouts.specs.Pictures.{level, pictures, side_by_side};
ghost use Rattle.tree_handles.specs.Forest.{Forest, Label, arity, nodes_in, tree};
ghost use Rattle.tree_handles.specs.Inside.{holds, tree_at, payload_in};
ghost use Rattle.tree_handles.specs.Standing.{Stands, forest};

use crate::lists::append;
use calc_terms::{Kind, Rat};
use itoa::Buffer;
use node_pool::{Id, Pool};
use tree_handles::{Visit, kind, name, rational};

/// The nodes of a layout, the columns of its picture, and the picture's rows above its base row and below.
#[derive(Clone, Copy, Default)]
pub(crate) struct Extent {
    pub(crate) nodes: u32,
    pub(crate) width: u32,
    pub(crate) above: u32,
    pub(crate) below: u32,
}

impl Extent {
    pub(crate) fn height(self) -> u32
        requires { IsSmall self }
        ensures { result ≡ self.above + 1 + self.below }
    {
        self.above + 1 + self.below
    }

    /// The row of this picture that is level with a row of one that has so many rows above its base row.
    pub(crate) fn level(self, above: u32, row: u32) -> Option<u32>
        requires small { IsSmall self }
        requires row { row ≤ 2 ^ 22 }
        ensures { result ≡ level above row self.above (self.above + 1 + self.below) }
    {
        let row = row + self.above;
        if above <= row && row - above < self.height() {
            Some(row - above)
        } else {
            None
        }
    }

    /// This picture with one more on its right, base rows level.
    fn beside(self, right: Extent) -> Extent
        requires first { IsSmall self }
        requires second { IsSmall right }
        ensures { result ≡ record { nodes = self.nodes + right.nodes; width = self.width + right.width; above = max self.above right.above; below = max self.below right.below } }
    {
        Extent {
            nodes: self.nodes + right.nodes,
            width: self.width + right.width,
            above: self.above.max(right.above),
            below: self.below.max(right.below),
        }
    }

    /// This picture over a bar, and another below.
    fn over(self, lower: Extent) -> Extent
        requires first { IsSmall self }
        requires second { IsSmall lower }
        ensures { result ≡ record { nodes = 1 + self.nodes + lower.nodes; width = max self.width lower.width; above = self.above + 1 + self.below; below = lower.above + 1 + lower.below } }
    {
        Extent {
            nodes: 1 + self.nodes + lower.nodes,
            width: self.width.max(lower.width),
            above: self.height(),
            below: lower.height(),
        }
    }

    /// This picture over a blank base row.
    fn raised(self) -> Extent
        requires { IsSmall self }
        ensures { result ≡ record { nodes = 1 + self.nodes; width = self.width; above = self.above + 1 + self.below; below = 0 } }
    {
        Extent {
            nodes: 1 + self.nodes,
            width: self.width,
            above: self.height(),
            below: 0,
        }
    }

    /// This picture under a root sign.
    fn under_root(self) -> Extent
        requires { IsSmall self }
        ensures { result ≡ record { nodes = 1 + self.nodes; width = 1 + self.width; above = self.above + 1; below = self.below } }
    {
        Extent {
            nodes: 1 + self.nodes,
            width: 1 + self.width,
            above: self.above + 1,
            below: self.below,
        }
    }

    /// This picture in parentheses.
    fn in_parens(self) -> Extent
        requires { IsSmall self }
        ensures { result ≡ record { nodes = 1 + self.nodes; width = self.width + 2; above = self.above; below = self.below } }
    {
        Extent {
            nodes: 1 + self.nodes,
            width: self.width + 2,
            above: self.above,
            below: self.below,
        }
    }
}

/// Lists the extents of all layouts in the tree whose nodes are listed, in place of those that were listed.
pub(crate) fn list_extents(pool: &Pool, layout: Id, cells: &[Visit], extents: &mut Vec<Extent>)
    requires stands { Stands pool.now }
    requires layout { IsLayout layout (forest pool.now) }
    requires cells { cells.now ≡ visits_of (tree_at layout (forest pool.now)) }
    requires room { length cells.now ≤ vec_capacity extents.old }
    requires few { length cells.now ≤ 2 ^ 16 }
    ensures listed { HasExtents (tree_at layout (forest pool.now)) 0 extents.new.items }
    ensures few { length extents.new.items ≤ 2 ^ 16 }
    ensures capacity { vec_capacity extents.old ≤ vec_capacity extents.new }
{
    blank(cells.len(), extents);
    measure(pool, layout, cells, extents.as_mut_slice());
}

/// Lists so many extents without anything in them.
fn blank(nodes: usize, extents: &mut Vec<Extent>)
    requires { nodes ≤ vec_capacity extents.old }
    ensures len { length extents.new.items ≡ nodes }
    ensures capacity { vec_capacity extents.old ≤ vec_capacity extents.new }
{
    extents.clear();
    for _ in 0..nodes {
        append(extents, Extent::default());
    }
}

/// Lists the extents of all layouts in the tree whose nodes are listed.
fn measure(pool: &Pool, layout: Id, cells: &[Visit], extents: &mut [Extent])
    requires stands { Stands pool.now }
    requires layout { IsLayout layout (forest pool.now) }
    requires cells { cells.now ≡ visits_of (tree_at layout (forest pool.now)) }
    requires room { length cells.now ≤ length extents.old }
    requires few { length extents.old ≤ 2 ^ 16 }
    ensures listed { HasExtents (tree_at layout (forest pool.now)) 0 extents.new }
    ensures len { length extents.new ≡ length extents.old }
{
    let mut at = cells.len();
    while at > 0 {
        let cell = cells[at - 1];
        let extent = extent_over(pool, cell.id, cell.children, extents, at);
        at -= 1;
        extents[at] = extent;
    }
}

/// The extent of a layout whose parts' extents are listed from a place on.
fn extent_over(pool: &Pool, node: Id, parts: u16, extents: &[Extent], first: usize) -> Extent
    requires stands { Stands pool.now }
    requires live { holds node (forest pool.now) ≡ true }
    requires over { IsSomeOver (payload_in node (forest pool.now)) parts first extents.now }
    requires few { length extents.now ≤ 2 ^ 16 }
    ensures { (k : Forest) → IsOver (payload_in node (forest pool.now)) k first extents.now → parts ≡ arity k → result ≡ extent_of (payload_in node (forest pool.now)) k }
{
    match kind(pool, node) {
        Kind::Row => row_extent(extents, first, parts),
        Kind::Fraction => extent_at(extents, first).over(second(extents, first)),
        Kind::Raised => extent_at(extents, first).raised(),
        Kind::Radical => extent_at(extents, first).under_root(),
        Kind::Paren => extent_at(extents, first).in_parens(),
        _ => Extent {
            nodes: 1,
            width: leaf_width(pool, node),
            above: 0,
            below: 0,
        },
    }
}

/// The columns of a node that has no parts.
fn leaf_width(pool: &Pool, node: Id) -> u32
    requires stands { Stands pool.now }
    requires live { holds node (forest pool.now) ≡ true }
    ensures { result ≡ leaf_width_of (payload_in node (forest pool.now)) }
{
    match kind(pool, node) {
        Kind::Num => digits(rational(pool, node)),
        Kind::Sym => name(pool, node).bytes().len() as u32,
        _ => 1,
    }
}

/// How many digits a numerator has.
#[tactic(auto, using(line_text::proofs::Leaves::digits_are))]
fn digits(number: Rat) -> u32
    ensures { result ≡ length (decimal (nat_abs (ratio_of number).num)) }
{
    let mut digits = Buffer::new();
    digits.format(number.num().unsigned_abs()).len() as u32
}

/// The extent of the layout that is listed at a place.
#[tactic(auto, using(crate::proofs::Measures::first_within, crate::proofs::Measures::first_read))]
pub(crate) fn extent_at(extents: &[Extent], at: usize) -> Extent
    requires some { HasSomeFirst at extents.now }
    requires few { length extents.now ≤ 2 ^ 16 }
    ensures small { IsSmall result }
    ensures value { (l : Label) (k r : Forest) → HasSmall (tree l k r) at extents.now → result ≡ extent_of l.payload k }
{
    extents[at]
}

/// The extent of the layout behind the one that is listed at a place.
pub(crate) fn second(extents: &[Extent], at: usize) -> Extent
    requires some { HasSomePair at extents.now }
    requires few { length extents.now ≤ 2 ^ 16 }
    ensures small { IsSmall result }
    ensures value { (l : Label) (k : Forest) → HasPair l k at extents.now → result ≡ extent_of l.payload k }
{
    let next = at + extent_at(extents, at).nodes as usize;
    extent_at(extents, next)
}

/// The extent of so many layouts side by side.
fn row_extent(extents: &[Extent], first: usize, parts: u16) -> Extent
    requires some { HasSomeSmall parts first extents.now }
    requires few { length extents.now ≤ 2 ^ 16 }
    ensures { (k : Forest) → HasSmall k first extents.now → parts ≡ arity k → result ≡ extent_from (1 + nodes_in k) (side_by_side (pictures (drawings k))) }
{
    let mut row = Extent {
        nodes: 1,
        width: 0,
        above: 0,
        below: 0,
    };
    let mut at = first;
    for _ in 0..parts {
        let part = extent_at(extents, at);
        row = row.beside(part);
        at += part.nodes as usize;
    }
    row
}
