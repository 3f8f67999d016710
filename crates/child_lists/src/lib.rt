//! The children of a node under way, listed by their identifiers, so that each is found at once by its place.
#![tactic(auto)]

mod list;
mod placing;
mod sums;

pub use list::{ChildList, FEW, MANY, MOST, NONE};
pub use placing::{next_child, put_before};
pub use sums::{exchange_child, insert_child, remove_child};
