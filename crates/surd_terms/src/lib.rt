//! Rational multiples of square roots, as values: sums, products, inverses and roots of rationals,
//! refused exactly where an operation on rationals does not fit.
#![tactic(auto)]

mod cancelling;
mod inverses;
mod products;
mod roots;
mod sums;
mod term;
mod whole;

pub use inverses::{inverse, inverse_of_sum};
pub use products::{product, product_with, undivided};
pub use roots::square_root;
pub use sums::{Joined, join};
pub use term::Term;
