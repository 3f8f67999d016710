//! Marks on the pool, to which it rolls back.
#![tactic(auto)]

mod laws;
mod marks;

pub use laws::{marks_nest, pools_are_restored};
pub use marks::{Mark, commit, open_mark, roll_back};
