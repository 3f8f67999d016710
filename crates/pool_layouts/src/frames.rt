//! Nodes of a face whose layouts are under way.
ghost use Rattle.std.specs.Prelude.{◌≡◌, ◌<◌, ◌+◌, ◌^◌};
ghost use Rattle.pool_layouts.specs.Frames.{frame_of, frame_behind};

use calc_terms::Kind;
use line_text::Place;
use node_pool::Id;
use tree_handles::Visit;

/// A node of a face whose layout is under way.
#[derive(Clone, Copy)]
pub(crate) struct Frame {
    /// The node.
    pub(crate) id: Id,
    /// Where its next child stands.
    pub(crate) place: Place,
    /// How many children are left.
    pub(crate) left: u16,
    /// How many parts its layout has, with the one that is under way.
    pub(crate) parts: u32,
    /// Where the first of them begins.
    pub(crate) begin: u32,
    /// What the layout stands in.
    pub(crate) around: Option<Kind>,
}

impl Default for Frame {
    fn default() -> Frame {
        Frame {
            id: Id::default(),
            place: Place::WholeText,
            left: 0,
            parts: 0,
            begin: 0,
            around: None,
        }
    }
}

impl Frame {
    /// A node before its children.
    pub(crate) fn of(cell: Visit, around: Option<Kind>, begin: u32) -> Frame
        ensures { result ≡ frame_of cell around begin }
    {
        Frame {
            id: cell.id,
            place: Place::first_below(cell.kind),
            left: cell.children,
            parts: 0,
            begin,
            around,
        }
    }

    /// The same when its next child is under way, with so many marks before it.
    pub(crate) fn behind(self, marks: u32) -> Frame
        requires some { 0 < self.left }
        requires few { self.parts + marks + 1 < 2 ^ 32 }
        ensures { result ≡ frame_behind self marks }
    {
        Frame {
            place: self.place.next(),
            left: self.left - 1,
            parts: self.parts + marks + 1,
            ..self
        }
    }
}
