//! The faces of reduced trees: signs, fractions and differences as people write them.
#![tactic(auto)]

mod draft;
mod faces;
pub mod laws;
mod naturals;
mod parts;
mod pending;
mod products;
mod reading;
mod shares;
mod sums;

pub use faces::Faces;
