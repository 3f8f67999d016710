//! What trees mean: surds, Numbers, meanings, the order of trees and reduced trees.
#![tactic(auto)]

pub mod examples;
pub mod laws;
