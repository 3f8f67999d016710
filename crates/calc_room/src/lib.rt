//! Within how many bytes trees are reduced: what a list of radicands spans, how many nodes of a reduced tree count, and
//! how many bytes it has at most.
#![tactic(auto)]

pub mod examples;
pub mod laws;
