//! Whole trees reduced, in a pool.
#![tactic(auto)]

mod connective;
mod differences;
mod driver;
mod exponents;
mod folding;
mod halves;
mod nodes;
mod whole;

pub use driver::DeepReducer;
pub use whole::{reduce_power, reduce_product};
