//! The depth of a tree.
ghost use Rattle.std.specs.Prelude.{◌≡◌, ◌<◌, ◌≤◌, ◌+◌, List, length, map};
ghost use Rattle.arrayvec.specs.ArrayVec.{array_vec_len};
ghost use Rattle.calc_language.specs.Tokens.{Token as Mark};
ghost use Rattle.calc_terms.specs.Trees.{Tree, depth};
ghost use Rattle.calc_parser.specs.Postfix.{postfix, step_limit};
ghost use Rattle.calc_parser.specs.Depths.{deepest, with_node};
ghost use Rattle.calc_parser.specs.Reader.{node_of};

use crate::postfix::{STEP_LIMIT, Step};
use arrayvec::ArrayVec;

/// The depth of the tree that these steps make, by the depths of the trees that stand so far, which take
/// the places of those in the list.
pub(crate) fn depth(steps: &[Step], depths: &mut ArrayVec<u32, STEP_LIMIT>) -> u32
    requires { length steps.now ≤ step_limit }
    ensures { (ts : List Mark) (t : Tree) → map (node_of ts) steps.now ≡ postfix t → result ≡ depth t }
{
    depths.clear();
    for step in steps {
        add(depths, *step);
    }
    depths.as_slice().last().copied().unwrap_or(0)
}

/// Adds a leaf, or a parent in place of its children.
#[tactic(auto, using(std::proofs::lemmas::Grind::common_steps, crate::proofs::Measures::deepest_take, crate::proofs::Measures::deepest_drop))]
fn add(depths: &mut ArrayVec<u32, STEP_LIMIT>, step: Step)
    requires room { array_vec_len depths.old < step_limit }
    requires small { deepest depths.old.items < step_limit }
    ensures added { (ts : List Mark) → depths.new.items ≡ with_node depths.old.items (node_of ts step) }
    ensures length { array_vec_len depths.new ≤ array_vec_len depths.old + 1 }
{
    match step {
        Step::Leaf(_) => depths.push(1),
        Step::Node(_, children) => {
            let first = depths.len().saturating_sub(usize::from(children));
            let depth = 1 + deepest(&depths.as_slice()[first..]);
            depths.truncate(first);
            depths.push(depth);
        }
    }
}

fn deepest(depths: &[u32]) -> u32
    ensures { result ≡ deepest depths.now }
{
    let mut deepest = 0;
    for depth in depths {
        deepest = (*depth).max(deepest);
    }
    deepest
}
