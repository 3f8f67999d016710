//! Derivatives of trees with respect to a name.
#![tactic(auto)]

mod counter;
mod derivable;
mod derivation;
pub mod laws;
mod placer;
mod reading;
mod writer;
mod writing;

pub use derivable::has_derivative;
pub use derivation::derive;
