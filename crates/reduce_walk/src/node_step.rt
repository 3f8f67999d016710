//! What is done with each node of a tree.
use node_pool::Pool;
use tree_handles::{Handle, NumberFault};

/// A step on one node over the answers of its children, by which a walk makes the answer of a whole tree.
pub trait NodeStep {
    ghost use Rattle.std.specs.Prelude.{◌≡◌, ◌+◌, ℕ, IfOk, IfErr, OnOk, true, [], ◌∷◌};
    ghost use Rattle.calc_terms.specs.Trees.{Tree, Trees, nodes, nodes_of, root_size, size, sizes};
    ghost use Rattle.node_pool.specs.State.{free_of};
    ghost use Rattle.tree_handles.specs.Lacking.{OfFull};
    ghost use Rattle.rational128.specs.declared.overflow.Overflow.{Overflow};
    ghost use Rattle.reduce_walk.specs.Answers.{EachTree, IsNext, IsOver, IsOverSome};
    ghost use Rattle.reduce_walk.specs.Leaves.{is_leaf};
    ghost use Rattle.tree_handles.specs.Causes.{IsCaused};
    ghost use Rattle.tree_handles.specs.Expressions.{children_of};
    ghost use Rattle.tree_handles.specs.Faults.{Faults, IfOverflow};
    ghost use Rattle.tree_handles.specs.Handed.{tree_of, IsHanded, Ends, Gives, KeepsFront};
    ghost use Rattle.tree_handles.specs.Roots.{root_tree, without_root};
    ghost use Rattle.tree_handles.specs.Standing.{Stands, forest, KeepsRefusals};

    // The trees that are walked.
    ghost can_take: { Tree → Type 0 };

    // What a tree may become.
    ghost answers: { Tree → Tree → Type 0 };

    // For which numbers of bytes, those of the tree and those that are free, a tree may lack some.
    ghost may_lack: { Tree → ℕ → Type 0 };

    // Which operation may not fit at which of a tree's nodes, counted from 1 as they are walked.
    ghost may_overflow: { Tree → ℕ → Overflow → Type 0 };

    /// What holds of any tree that is walked.
    fn laws(&self)
        ensures leaf { (t : Tree) → can_take t → is_leaf t ≡ true → answers t t }
        ensures children { (t : Tree) → can_take t → EachTree can_take (children_of t) }

        // What stops a child stops its parent: beside the child stand the parent's root, the answers before it and the trees behind it.
        ensures child_lacks { (t c : Tree) (before done behind : Trees) (bytes : ℕ) → can_take t → IsNext answers t before done c behind
            → may_lack c bytes → may_lack t (bytes + (root_size t + sizes done + sizes behind)) }
        ensures child_overflows { (t c : Tree) (before done behind : Trees) (place : ℕ) (o : Overflow) → can_take t → IsNext answers t before done c behind
            → may_overflow c place o → may_overflow t (nodes_of before + place) o };

    /// The answer of the last tree, a node over the answers of its children, which is consumed.
    fn step(&mut self, pool: &mut Pool, tree: Handle) -> Result<Handle, NumberFault>
        requires stands { Stands pool.old }
        requires handed { IsHanded tree (forest pool.old) }
        requires last { Ends tree (root_tree tree (forest pool.old)) (without_root tree (forest pool.old)) (forest pool.old) }
        requires over { IsOverSome can_take answers (tree_of tree pool.old) }
        ensures ok { (whole : Tree) → can_take whole → IsOver answers whole (tree_of tree pool.old)
            → IfOk result (λ h. Gives (without_root tree (forest pool.old)) (forest pool.new) h (answers whole)) }
        ensures lacks { (whole : Tree) → can_take whole → IsOver answers whole (tree_of tree pool.old)
            → IfErr result (OfFull (λ _. may_lack whole (free_of pool.old + size (tree_of tree pool.old)))) }
        ensures overflow { (whole : Tree) → can_take whole → IsOver answers whole (tree_of tree pool.old)
            → IfOverflow result (may_overflow whole (nodes whole)) }
        ensures kept { OnOk result (KeepsRefusals pool.old pool.new) }
        ensures faults { IfErr result (Faults pool.old pool.new) }
        ensures caused { IfErr result (IsCaused pool.new) }
        ensures front { KeepsFront (tree ∷ []) (forest pool.old) (forest pool.new) }
        ensures stands { Stands pool.new };
}
