//! How a program uses the crates: each module is a caller with a contract that follows from theirs.
#![tactic(auto)]

mod answering;
mod byte_meter;
mod flag_breaker;
mod metering;
mod reticent_reducer;

pub use answering::first_answer;
pub use byte_meter::ByteMeter;
pub use flag_breaker::FlagBreaker;
pub use metering::bytes_of_answers;
pub use reticent_reducer::ReticentReducer;
