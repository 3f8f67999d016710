//! The order of trees in a pool.
#![tactic(auto)]

mod arranging;
mod comparing;
mod fronts;
mod keys;
mod ranking;
mod sorting;

pub use comparing::compare;
pub use keys::{Key, compare_keys};
pub use sorting::{Keys, sort_children};
