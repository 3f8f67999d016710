//! What every reducer of trees promises.
#![tactic(auto)]

mod fault;
mod reducer;
mod step;

pub use fault::ReduceFault;
pub use reducer::Reducer;
pub use step::Step;
