//! Square parts of whole numbers, and whether two radicands lie in one square class.
#![tactic(auto)]

mod classes;
mod division;
pub mod laws;
mod primes;
mod splitting;

pub use classes::alike;
pub use splitting::split;
