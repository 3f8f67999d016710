//! Numbers with square roots, as trees in a pool: sums of rational multiples of square roots, a term
//! for each square class.
#![tactic(auto)]

mod adding;
mod calculating;
mod inverting;
mod joining;
mod multiplying;
mod placing;
mod powers;
mod radicand;
mod rationals;
mod read;
mod recognize;
mod roots;
mod shape;
mod squaring;
mod term;
mod values;

pub use adding::add_numbers;
pub use inverting::{Inverse, invert_number};
pub use multiplying::multiply_numbers;
pub use placing::place_term;
pub use powers::power_number;
pub use read::{classes, half, is_reduced_number, is_zero, whole};
pub use recognize::is_number;
pub use term::nth_term;
