//! Exact arithmetic on rationals of 128 bits, which is refused exactly where the answer does not fit.
#![tactic(auto)]

mod addition;
mod divisor;
mod fitting;
mod multiplication;
mod order;
mod overflow;
mod parts;
mod powers;
mod reciprocal;
mod short;
mod square_root;

pub use addition::add;
pub use divisor::gcd;
pub use multiplication::mul;
pub use order::compare;
pub use overflow::{Op, Overflow};
pub use powers::pow;
pub use reciprocal::{invert, neg};
pub use square_root::isqrt;
