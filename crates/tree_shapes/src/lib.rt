//! Trees of a table: a shape is written as a constant, and grown in a pool.
#![tactic(auto)]

mod shapes;

pub use shapes::{Pair, Shape, Single, grow};
