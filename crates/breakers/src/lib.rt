//! Breakers, which tell a calculation to stop, and the watch that polls them in order.
#![tactic(auto)]

mod breaker;
mod count_breaker;
mod laws;
mod never_breaker;
mod silent_breaker;
mod watch;

pub use breaker::{Breaker, Plan};
pub use count_breaker::CountBreaker;
pub use laws::{told_checks_have_one_outcome, trips_show_interruption};
pub use never_breaker::NeverBreaker;
pub use silent_breaker::SilentBreaker;
pub use watch::{Interrupted, Watch};
