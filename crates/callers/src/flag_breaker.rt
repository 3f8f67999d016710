//! A breaker of one's own.
ghost use Rattle.std.specs.Prelude.{◌≡◌};

use breakers::Breaker;

/// A breaker that trips at each poll while its flag is raised. It tells nothing of its coming polls.
#[derive(Drop)]
pub struct FlagBreaker {
    pub raised: bool,
    polls: u64,
    trips: u64,
}

impl FlagBreaker {
    ghost use Rattle.callers.specs.Flags.{silent, state_of};

    /// A breaker that was never polled, with its flag down.
    pub fn new() -> FlagBreaker
        ensures { state_of result ≡ silent }
    {
        FlagBreaker {
            raised: false,
            polls: 0,
            trips: 0,
        }
    }
}

impl Breaker for FlagBreaker {
    ghost use Rattle.std.specs.Prelude.{◌<◌, ◌↔◌, IsTrue, true};
    ghost use Rattle.breakers.specs.State.{Polls, largest_count};
    ghost use Rattle.callers.specs.Flags.{state_of};

    ghost state = { state_of };

    fn poll(&mut self) -> bool
        ensures polls { Polls (state_of self.old) (state_of self.new) result }
        ensures trips { IsTrue result ↔ ((self.old.raised ≡ true) × ((state_of self.old).trips < largest_count)) }
        ensures flag { self.new.raised ≡ self.old.raised }
    {
        self.polls = self.polls.saturating_add(1);
        let trips = self.raised && self.trips < u64::MAX;
        if trips {
            self.trips += 1;
        }
        trips
    }

    fn arms(&self) -> bool {
        false
    }

    fn arm(&mut self, _k: u64) {}

    fn spent(&self) -> bool {
        self.trips > 0
    }
}
