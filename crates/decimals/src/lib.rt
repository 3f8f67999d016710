//! Decimals of Numbers, correctly rounded, and their signs.
#![tactic(auto)]

mod deciding;
mod decimal;
mod limbs;
mod partial;
mod parts;
mod rationals;
mod rounding;
mod sign;
mod writing;

pub use decimal::Decimal;
pub use rounding::decimal_of;
pub use sign::{Sign, sign_of};
pub use writing::write_decimal;
