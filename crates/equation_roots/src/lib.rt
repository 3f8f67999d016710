//! All roots of a polynomial in one name, as values.
#![tactic(auto)]

mod division;
mod fault;
pub mod laws;
mod operations;
mod primitive;
mod quadratic;
mod rationals;
mod rest;
mod solving;
mod told;
mod trial;
mod wholes;

pub use fault::RootFault;
pub use rationals::{DEGREE_LIMIT, Rationals};
pub use rest::RootPair;
pub use solving::roots;
pub use told::Roots;
