//! Polynomials of at most eight names as values: lists of terms that are sorted by their monomials.
#![tactic(auto)]

mod arithmetic;
mod binomials;
mod degrees;
mod insertion;
mod laws;
mod list;
mod merging;
mod term;
mod unfit;

pub use arithmetic::{add_scaled, power, product};
pub use degrees::degree;
pub use insertion::insert;
pub use term::Term;
pub use unfit::Unfit;
