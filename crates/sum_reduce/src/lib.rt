//! Sums of reduced trees, in a pool.
#![tactic(auto)]

mod arranging;
mod endings;
mod joining;
pub mod laws;
mod numbers;
mod partners;
mod reducing;
mod terms;

pub use reducing::reduce_sum;
