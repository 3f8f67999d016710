//! A child of a root is taken out, and a tree fills its place.
ghost use Rattle.std.specs.Prelude.{◌≡◌, ◌<◌, List, ◌∷◌, ℕ};
ghost use Rattle.calc_terms.specs.Trees.{count};
ghost use Rattle.node_pool.specs.State.{free_of};
ghost use Rattle.tree_handles.specs.Expressions.{children_of, nth, plain};
ghost use Rattle.tree_handles.specs.Forest.{Forest};
ghost use Rattle.tree_handles.specs.Handed.{Gives, IsHanded, KeepsFront, tree_of};
ghost use Rattle.tree_handles.specs.Holes.{ChangesTree, IsHole, set_child};
ghost use Rattle.tree_handles.specs.Roots.{root_tree, without_root};
ghost use Rattle.tree_handles.specs.Standing.{Stands, forest, KeepsRefusals};

use crate::handle::Handle;
use crate::moving::{add_child, take_child};
use node_pool::{Id, Pool};
use std::marker::Model;

/// Where a child stood that was taken out of a root.
#[derive(Drop)]
pub struct Hole {
    parent: Id,
    at: u16,
}

impl Model for Hole {
    ghost use Rattle.tree_handles.specs.Holes.{Place};

    ghost Value = { Place };

    ghost view = { λ h. record { parent = h.parent; at = h.at } };
}

/// A child is taken out of a root, and stands last.
pub fn open_child(pool: &mut Pool, parent: &Handle, at: u16) -> (Hole, Handle)
    requires stands { Stands pool.old }
    requires handed { IsHanded parent.now (forest pool.old) }
    requires within { at < count (children_of (tree_of parent.now pool.old)) }
    ensures hole { IsHole result.0 parent.now at (forest pool.old) (without_root result.1 (forest pool.new)) }
    ensures child { Gives (without_root result.1 (forest pool.new)) (forest pool.new) result.1 (λ t. t ≡ nth at (children_of (tree_of parent.now pool.old))) }
    ensures free { free_of pool.new ≡ free_of pool.old }
    ensures kept { KeepsRefusals pool.old pool.new }
    ensures stands { Stands pool.new }

    // What keeps the front where the child was handed to it has kept it from here on.
    ensures front { (handed : List ℕ) (g : Forest) → KeepsFront (result.1 ∷ handed) (forest pool.new) g → KeepsFront (parent.now ∷ handed) (forest pool.old) g }
{
    let child = take_child(pool, parent, at);
    let hole = Hole {
        parent: parent.id(),
        at,
    };
    (hole, child)
}

/// A root takes the place of the child that was taken out.
pub fn fill(pool: &mut Pool, hole: Hole, child: Handle)
    requires stands { Stands pool.old }
    requires hole { (i : ℕ) × (n : ℕ) × (old : Forest) × IsHole hole i n old (without_root child (forest pool.old)) }
    requires handed { IsHanded child (forest pool.old) }
    ensures changed { (i n : ℕ) (old : Forest) → IsHole hole i n old (without_root child (forest pool.old))
        → ChangesTree i (set_child n (tree_of child pool.old) (plain (root_tree i old))) old (forest pool.new) }
    ensures kept { KeepsRefusals pool.old pool.new }
    ensures stands { Stands pool.new }
{
    let parent = Handle::of(hole.parent);
    add_child(pool, &parent, hole.at, child);
}
