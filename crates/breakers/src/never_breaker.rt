//! A breaker that never trips.
ghost use Rattle.std.specs.Prelude.{◌≡◌, false};

use crate::breaker::Breaker;

/// A breaker that never trips and cannot be armed. It counts its polls.
#[derive(Drop)]
pub struct NeverBreaker {
    polls: u64,
}

impl NeverBreaker {
    ghost use Rattle.breakers.specs.State.{fresh};
    ghost use Rattle.breakers.specs.NeverBreaker.{state_of};

    /// A breaker that has not been polled.
    pub fn new() -> Self
        ensures { state_of result ≡ fresh false }
    {
        NeverBreaker { polls: 0 }
    }
}

impl Breaker for NeverBreaker {
    ghost use Rattle.breakers.specs.NeverBreaker.{state_of};

    ghost state = { state_of };

    fn poll(&mut self) -> bool {
        self.polls = self.polls.saturating_add(1);
        false
    }

    fn arms(&self) -> bool {
        false
    }

    fn arm(&mut self, _k: u64) {}

    fn spent(&self) -> bool {
        false
    }
}
