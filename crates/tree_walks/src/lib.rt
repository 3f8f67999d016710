//! Walks over the nodes of whole trees.
#![tactic(auto)]

mod depth;
mod laws;
mod leaves;
mod replacing;
mod searching;

pub use depth::{DEPTH_LIMIT, is_deeper};
pub use laws::{names_occur, names_of_replaced, replaced_bytes, replaced_where_absent};
pub use replacing::replace_name;
pub use searching::holds_name;
