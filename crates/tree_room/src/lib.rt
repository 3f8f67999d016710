//! Within how many bytes whole trees are reduced: what each reduction of a node needs, and how that follows from its children.
#![tactic(auto)]

pub mod examples;
pub mod laws;
