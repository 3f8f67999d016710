//! Trees in postfix order: children from left to right, then their parent.
ghost use Rattle.std.specs.Prelude.{◌≡◌, ◌<◌, ◌≤◌, ◌+◌, [], ◌∷◌, ◌++◌, List, length};
ghost use Rattle.calc_language.specs.Tokens.{Token as Mark};
ghost use Rattle.calc_parser.specs.Postfix.{step_limit};

use arrayvec::ArrayVec;
use calc_terms::Kind;
use calc_tokens::LINE_LIMIT;

/// The most nodes of a line's tree: two for each of its tokens.
pub(crate) const STEP_LIMIT: usize = 2 * LINE_LIMIT;

/// One node of a tree in postfix order.
#[derive(Clone, Copy)]
pub(crate) enum Step {
    /// The token at this place of the list is a leaf.
    Leaf(u16),
    /// The last trees, so many, become the children of a node of this kind.
    Node(Kind, u16),
}

impl Step {
    ghost use Rattle.calc_parser.specs.Growing.{children_in};
    ghost use Rattle.calc_parser.specs.Reader.{node_of};

    /// How many of the last trees become children.
    pub(crate) fn children(self) -> u16
        ensures { (ts : List Mark) → result ≡ children_in (node_of ts self) }
    {
        match self {
            Step::Leaf(_) => 0,
            Step::Node(_, children) => children,
        }
    }
}

impl Default for Step {
    fn default() -> Step {
        Step::Leaf(0)
    }
}

/// The nodes of trees in postfix order, at most `STEP_LIMIT`.
#[derive(Drop)]
pub(crate) struct Postfix {
    steps: ArrayVec<Step, STEP_LIMIT>,
}

impl Postfix {
    ghost use Rattle.calc_parser.specs.Reader.{steps_in};

    pub(crate) fn none() -> Postfix
        ensures { steps_in result ≡ [] }
    {
        Postfix {
            steps: ArrayVec::new(),
        }
    }

    pub(crate) fn clear(&mut self)
        ensures { steps_in self.new ≡ [] }
    {
        self.steps.clear();
    }

    pub(crate) fn steps(&self) -> &[Step]
        ensures steps { result.now ≡ steps_in self.now }
        ensures fits { length result.now ≤ step_limit }
    {
        self.steps.as_slice()
    }

    pub(crate) fn push(&mut self, step: Step)
        requires { length (steps_in self.old) < step_limit }
        ensures { steps_in self.new ≡ steps_in self.old ++ step ∷ [] }
    {
        self.steps.push(step);
    }
}
