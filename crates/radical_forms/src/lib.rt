//! Square roots of reduced trees, in a pool.
#![tactic(auto)]

mod roots;

pub use roots::reduce_root;
