//! A breaker that trips at chosen polls, and does not tell them.
ghost use Rattle.std.specs.Prelude.{◌≡◌, ◌<◌, ◌↔◌, IsTrue};

use crate::breaker::Breaker;

/// A breaker that trips at the polls whose numbers, counted from 1, stand in its list. Its plan tells none
/// of them, and it cannot be armed. A number stops at 2^64 - 1, as the count of the polls does.
#[derive(Drop)]
pub struct SilentBreaker {
    at: Vec<u64>,
    polls: u64,
    trips: u64,
}

impl SilentBreaker {
    ghost use Rattle.breakers.specs.SilentBreaker.{silent, state_of, tripping};

    /// A breaker that has not been polled, and trips at the polls in the list.
    pub fn new(at: Vec<u64>) -> Self
        ensures state { state_of result ≡ silent }
        ensures trips_at { tripping result ≡ at.items }
    {
        SilentBreaker {
            at,
            polls: 0,
            trips: 0,
        }
    }
}

impl Breaker for SilentBreaker {
    ghost use Rattle.breakers.specs.State.{Polls, armed_after};
    ghost use Rattle.breakers.specs.SilentBreaker.{TripsNext, state_of, tripping};

    ghost state = { state_of };

    fn poll(&mut self) -> bool
        ensures polls { Polls (state_of self.old) (state_of self.new) result }
        ensures trips { IsTrue result ↔ TripsNext (tripping self.old) (state_of self.old) }
        ensures list_as_before { tripping self.new ≡ tripping self.old }
    {
        self.polls = self.polls.saturating_add(1);
        let trips = self.trips < u64::MAX && self.at.contains(&self.polls);
        if trips {
            self.trips += 1;
        }
        trips
    }

    fn arms(&self) -> bool {
        false
    }

    fn arm(&mut self, k: u64)
        ensures armed { state_of self.new ≡ armed_after k (state_of self.old) }
        ensures unchanged { self.new ≡ self.old }
    {}

    fn spent(&self) -> bool {
        self.trips > 0
    }
}
