//! Within which bits the calculations on terms fit, and how large their results are.
#![tactic(auto)]

pub mod laws;
