//! What interrupts the lines of a held session.
use crate::stopper::StopBreaker;
use breakers::{Breaker, CountBreaker};

/// A breaker that a stopper trips, or one that counts.
#[derive(Drop)]
pub enum HeldBreaker {
    Stop(StopBreaker),
    Count(CountBreaker),
}

impl Breaker for HeldBreaker {
    ghost use Rattle.poincare_held.specs.Breaking.{state_of};

    ghost state = { state_of };

    fn poll(&mut self) -> bool {
        match self {
            HeldBreaker::Stop(breaker) => breaker.poll(),
            HeldBreaker::Count(breaker) => breaker.poll(),
        }
    }

    fn arms(&self) -> bool {
        match self {
            HeldBreaker::Stop(breaker) => breaker.arms(),
            HeldBreaker::Count(breaker) => breaker.arms(),
        }
    }

    fn arm(&mut self, k: u64) {
        match self {
            HeldBreaker::Stop(breaker) => breaker.arm(k),
            HeldBreaker::Count(breaker) => breaker.arm(k),
        }
    }

    fn spent(&self) -> bool {
        match self {
            HeldBreaker::Stop(breaker) => breaker.spent(),
            HeldBreaker::Count(breaker) => breaker.spent(),
        }
    }
}
