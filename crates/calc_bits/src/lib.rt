//! How many bits rationals and Numbers take: common denominators and masses of surds, and which operations on rationals fit.
#![tactic(auto)]

pub mod examples;
pub mod laws;
