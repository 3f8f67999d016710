//! One step on a node whose children are reduced.
use tree_handles::Handle;

/// What a step on one node of a tree made of it.
#[derive(Drop)]
pub enum Step {
    /// A reduced tree.
    Done(Handle),
    /// The tree after one rewriting. Which of its nodes are not reduced yet, the step's contract says.
    Again(Handle),
}
