//! Bytes in one block of memory, which is reached by raw pointers.
#![tactic(auto)]

mod block;
mod moves;
mod region;

pub use moves::read;
pub use region::Region;
