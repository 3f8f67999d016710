//! Powers of reduced trees, in a pool: what one step makes of them, and the laws of it.
#![tactic(auto)]

pub mod examples;
pub mod laws;
mod numbers;
mod rewriting;
mod sides;
mod step;

pub use step::power_step;
