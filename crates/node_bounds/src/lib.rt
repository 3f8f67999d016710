//! How many bits hold what products, powers and single nodes over reduced children come to, and how many bytes it takes.
#![tactic(auto)]

pub mod laws;
