//! What a line is: tokens, the grammar, the texts of trees and their faces.
#![tactic(auto)]

pub mod examples;
pub mod laws;
