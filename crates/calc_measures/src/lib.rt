//! Measures of trees: nest, weight and load, plain values, and bounds on room and bits.
#![tactic(auto)]

pub mod examples;
pub mod laws;
