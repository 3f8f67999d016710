//! By how many bits reduced trees with symbols are held.
#![tactic(auto)]

pub mod laws;
