//! A session with stored names: one line is one step of its model.
#![tactic(auto)]

mod answering;
mod answers;
mod calculating;
mod commanding;
mod differentiating;
mod drawing;
mod estimating;
mod evaluating;
mod expanding;
mod forms;
mod laws;
mod naming;
mod parts;
mod reading;
mod root_text;
mod rooting;
mod session;
mod solution_text;
mod solving;
mod telling;
mod text;

pub use answers::{DrawFault, LineAnswer, Refusal};
pub use laws::{told_stores_are_stores, told_stores_hold_later_names};
pub use session::Session;
pub use text::write_refusal;
