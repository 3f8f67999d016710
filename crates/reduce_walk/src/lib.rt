//! The walk over a tree, whose nodes become their answers one by one.
#![tactic(auto)]

mod node_step;
mod walking;

pub use node_step::NodeStep;
pub use walking::walk;
