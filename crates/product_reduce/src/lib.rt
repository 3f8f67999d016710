//! One step on a product whose factors are reduced.
#![tactic(auto)]

mod endings;
pub mod examples;
mod factors;
mod fronting;
mod gathering;
mod joining;
pub mod laws;
mod leading;
mod nodes;
mod numbers;
mod partners;
mod sorting;
mod steps;

pub use gathering::{Joining, gather_factors, join_neighbours, next_pair};
pub use steps::product_step;
