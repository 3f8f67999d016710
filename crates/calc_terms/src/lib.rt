//! What trees are made of: rationals, kinds and names, the bytes of nodes, and trees with their sizes.
#![tactic(auto)]

mod euclid;
mod kind;
pub mod laws;
mod leaf;
mod name;
mod node;
mod rat;

pub use euclid::gcd;
pub use kind::Kind;
pub use leaf::{Header, Leaf, size_by_code};
pub use name::Name;
pub use node::bytes_read_back;
pub use rat::Rat;
