//! Polynomials, the trees that are polynomials, and their expanded trees: definitions and laws.
#![tactic(auto)]

pub mod laws;
