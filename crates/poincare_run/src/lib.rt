//! The top call: the lines of a source are answered one by one, and the answers go to a sink.
#![tactic(auto)]

mod buffer;
mod dialog;
mod generated;
mod notice;
mod tally;
mod top;
mod words;

pub use generated::session_from;
pub use top::run;
