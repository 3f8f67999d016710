//! What a derivative is written to, node by node.
use calc_terms::Kind;
use node_pool::{Id, Pool};

/// Takes trees, one behind another, that are made of numbers, of copies of trees that stand, and of nodes over the last trees.
pub(crate) trait Writer {
    ghost use Rattle.std.specs.Prelude.{ℕ, ◌≡◌, ◌≤◌, ◌<◌, ◌-◌, ◌^◌, nat_abs};
    ghost use Rattle.calc_terms.specs.Fractions.{whole_fraction};
    ghost use Rattle.calc_terms.specs.Trees.{Trees, count, num, size, sizes};
    ghost use Rattle.dual_diff.specs.Lists.{behind, first};
    ghost use Rattle.dual_diff.specs.Writing.{CanCopy, CanGather, IsWriting, one, tree_of};
    ghost use Rattle.node_pool.specs.State.{State};
    ghost use Rattle.tree_handles.specs.Expressions.{IsExpression, children_of, compound};
    ghost use Rattle.tree_handles.specs.Standing.{Stands, forest};

    // What was written between two moments, each a writer and a pool.
    ghost writes: { Self → State → Self → State → Trees → Type 0 };

    // For how many bytes there is room.
    ghost has_room: { State → ℕ → Type 0 };

    /// A whole number.
    fn number(&mut self, pool: &mut Pool, value: i128)
        requires stands { Stands pool.old }
        requires fits { nat_abs value < 2 ^ 127 }
        requires room { has_room pool.old (size (num (whole_fraction value))) }
        ensures { writes self.old pool.old self.new pool.new (one (num (whole_fraction value))) };

    /// A copy of a tree.
    fn copy(&mut self, pool: &mut Pool, source: Id)
        requires { CanCopy has_room source pool.old }
        ensures { writes self.old pool.old self.new pool.new (one (tree_of source pool.old)) };

    /// Copies of the children of a node from one place to before another, the first having place 0. They have so many bytes.
    fn copies(&mut self, pool: &mut Pool, parent: Id, from: u16, to: u16, bytes: u32)
        requires stands { Stands pool.old }
        requires expression { IsExpression parent (forest pool.old) }
        requires order { from ≤ to }
        requires within { to ≤ count (children_of (tree_of parent pool.old)) }
        requires bytes { bytes ≡ sizes (first (to - from) (behind from (children_of (tree_of parent pool.old)))) }
        requires room { has_room pool.old bytes }
        ensures { writes self.old pool.old self.new pool.new (first (to - from) (behind from (children_of (tree_of parent pool.old)))) };

    /// A node over the last trees, which were written since so many bytes of the pool were in use.
    fn over(&mut self, pool: &mut Pool, kind: Kind, trees: u16, begin: u32)
        requires { CanGather writes has_room kind trees begin self.old pool.old }
        ensures { (w : Self) (s : State) (ts : Trees) → writes w s self.old pool.old ts → count ts ≡ trees
            → writes w s self.new pool.new (one (compound kind ts)) };

    ghost laws: { IsWriting writes has_room };
}
