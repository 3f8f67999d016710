//! Children that give way to their own.
ghost use Rattle.std.specs.Prelude.{◌≡◌, ◌≤◌, ◌<◌, ℕ, MatchOption};
ghost use Rattle.calc_terms.specs.Trees.{count, opened_into};
ghost use Rattle.like_children.specs.Children.{IsSumOrProduct, HasChildren};
ghost use Rattle.like_children.specs.Opening.{NoneOpensBetween, IsLastToOpen};
ghost use Rattle.tree_handles.specs.Expressions.{nth, children_of};
ghost use Rattle.tree_handles.specs.Handed.{tree_of, IsHanded};
ghost use Rattle.tree_handles.specs.Standing.{Stands, forest, KeepsRefusals};

use node_pool::{Id, Pool};
use tree_handles::{Handle, child_ids, children, merge_children};

/// Which children give way to their own.
pub trait Opens {
    ghost use Rattle.calc_terms.specs.Trees.{Tree, Trees};
    ghost use Rattle.like_children.specs.Opening.{Opens};
    ghost use Rattle.tree_handles.specs.Expressions.{IsExpression, plain};
    ghost use Rattle.tree_handles.specs.Inside.{tree_at};
    ghost use Rattle.tree_handles.specs.Standing.{Stands, forest};

    // The parts of a tree: its children where it gives way, and else it alone.
    ghost parts: { Tree → Trees };

    // The trees of which that can be told.
    ghost can_tell: { Tree → Type 0 };

    /// Whether a tree gives way.
    fn opens(&self, pool: &Pool, id: Id) -> bool
        requires stands { Stands pool.now }
        requires tree { IsExpression id (forest pool.now) }
        requires told { can_tell (plain (tree_at id (forest pool.now))) }
        ensures { Opens parts (plain (tree_at id (forest pool.now))) result };
}

/// The last of the first children that gives way. The children are walked over once.
fn last_to_open<O: Opens>(pool: &Pool, parent: &Handle, first: u16, opens: &O) -> Option<u16>
    requires stands { Stands pool.now }
    requires handed { IsHanded parent.now (forest pool.now) }
    requires within { first ≤ count (children_of (tree_of parent.now pool.now)) }
    requires told { (n : ℕ) → n < first → O.can_tell (nth n (children_of (tree_of parent.now pool.now))) }
    ensures { let ts = children_of (tree_of parent.now pool.now) in
        MatchOption result (NoneOpensBetween O.parts 0 first ts) (λ at. IsLastToOpen O.parts at first ts) }
{
    let mut ids = child_ids(pool, parent.id(), 0);
    let mut last = None;
    for at in 0..first {
        if opens.opens(pool, ids.next()?) {
            last = Some(at);
        }
    }
    last
}

/// The children of each child of a sum or a product that gives way take its place, from the last to the first.
pub fn open_children<O: Opens>(pool: &mut Pool, parent: &Handle, opens: &O)
    requires stands { Stands pool.old }
    requires handed { IsHanded parent.now (forest pool.old) }
    requires many { IsSumOrProduct (tree_of parent.now pool.old) }
    requires told { let ts = children_of (tree_of parent.now pool.old) in (n : ℕ) → n < count ts → O.can_tell (nth n ts) }
    ensures opened { HasChildren parent.now (opened_into O.parts (children_of (tree_of parent.now pool.old))) (forest pool.old) (forest pool.new) }
    ensures kept { KeepsRefusals pool.old pool.new }
    ensures stands { Stands pool.new }
{
    let mut first = children(pool, parent.id());
    while let Some(at) = last_to_open(pool, parent, first, opens) {
        merge_children(pool, parent, at);
        first = at;
    }
}
