//! A breaker that trips after a number of polls.
ghost use Rattle.std.specs.Prelude.{◌≡◌, ◌≢◌, true};
ghost use Rattle.breakers.specs.declared.breaker.Plan.TheVariants.{Untold};

use crate::breaker::{Breaker, Plan};

/// A breaker that trips once each time that it is armed, after the number of polls that it was given.
#[derive(Drop)]
pub struct CountBreaker {
    polls: u64,
    trips: u64,
    plan: Plan,
    ghost told: { plan ≢ Untold },
}

impl CountBreaker {
    ghost use Rattle.breakers.specs.State.{fresh};
    ghost use Rattle.breakers.specs.CountBreaker.{state_of};

    /// A breaker that can be armed. It has not been polled, and its plan is idle.
    pub fn new() -> Self
        ensures { state_of result ≡ fresh true }
    {
        CountBreaker {
            polls: 0,
            trips: 0,
            plan: Plan::Idle,
        }
    }
}

impl Breaker for CountBreaker {
    ghost use Rattle.breakers.specs.CountBreaker.{state_of};

    ghost state = { state_of };

    fn poll(&mut self) -> bool {
        self.polls = self.polls.saturating_add(1);
        if self.trips == u64::MAX {
            return false;
        }
        match self.plan {
            Plan::After(0) => {
                self.plan = Plan::Idle;
                self.trips += 1;
                true
            }
            Plan::After(passes) => {
                self.plan = Plan::After(passes - 1);
                false
            }
            Plan::Idle | Plan::Untold => false,
        }
    }

    fn arms(&self) -> bool {
        true
    }

    fn arm(&mut self, k: u64) {
        self.plan = Plan::After(k);
    }

    fn spent(&self) -> bool {
        self.trips > 0
    }
}
