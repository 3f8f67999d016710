//! A session with what interrupts it, in one value, for programs that are not written in Rattle.
#![tactic(auto)]

mod answering;
mod held;
mod held_breaker;
mod notice;
mod page;
mod stopper;

pub use answering::answers;
pub use held::{Drawn, Held, OpenFault, PoolUse, is_pool_size};
pub use held_breaker::HeldBreaker;
pub use stopper::{StopBreaker, Stopper, hand_over};
