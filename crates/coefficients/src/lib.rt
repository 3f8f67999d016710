//! The coefficient of a term or a product: taken off, and put back.
#![tactic(auto, using(tree_handles::proofs::Roots::root_held))]

pub mod laws;
mod multiples;
mod products;
mod putting;
mod splicing;
mod taking;

pub use products::unwrapped;
pub use putting::put_coefficient;
pub use taking::{coefficient_length, split_product, take_coefficient};
