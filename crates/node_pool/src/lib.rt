//! Nodes side by side in one buffer, each under an identifier of its own.
#![tactic(auto)]

mod buffer;
mod full;
mod id;
mod identifiers;
mod node;
mod places;
mod pool;

pub use full::Full;
pub use id::Id;
pub use pool::Pool;
