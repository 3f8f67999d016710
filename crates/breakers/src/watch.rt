//! A list of breakers that are polled in order.
ghost use Rattle.std.specs.Prelude.{◌≡◌, ◌==◌, ℕ, ◌^◌, ◌<◌, ◌↔◌, map, length, vec_len, None, OnOk, IfErr};
ghost use Rattle.std.specs.List.{list_any};
ghost use Rattle.std.specs.Bool.{OnFalse};
ghost use Rattle.breakers.specs.Breakers.{Check, TripsRose, armed_first, kept};

use crate::breaker::Breaker;
use thiserror::Error;

/// The calculation is to stop.
#[derive(Clone, Copy, PartialEq, Eq, Debug, Error)]
#[error("interrupted by the breaker at place {by}")]
pub struct Interrupted {
    /// The place in the watch, counted from 0, of the breaker that tripped.
    pub by: u32,
}

/// Breakers that are polled together, by default boxed ones of several types.
///
/// A clause sees a watch as the list of its breakers' states, `states B.state watch`. Code that is handed
/// a watch takes it at any `B: Breaker`, so that only the caller who boxes the breakers names a `dyn`.
#[derive(Drop)]
pub struct Watch<B = Box<dyn Breaker>> {
    breakers: Vec<B>,
    ghost numbered: { length breakers.items < 2 ^ 32 },
}

impl<B: Breaker> Watch<B> {
    ghost use Rattle.breakers.specs.Watch.{states};

    /// A watch over these breakers, which are polled in this order.
    pub fn new(breakers: Vec<B>) -> Self
        requires { vec_len breakers < 2 ^ 32 }
        ensures { states B.state result ≡ map B.state breakers.items }
    {
        Watch { breakers }
    }

    /// The number of breakers.
    pub fn len(&self) -> u32
        ensures { result ≡ length (states B.state self.now) }
    {
        self.breakers.len() as u32
    }

    /// Polls the breakers in order, up to the first that trips.
    pub fn check(&mut self) -> Result<(), Interrupted>
        ensures calm { OnOk result (Check (states B.state self.old) (states B.state self.new) None) }
        ensures interrupted { IfErr result (λ interruption.
            Check (states B.state self.old) (states B.state self.new) (Some interruption.by)) }
        ensures by_the_one_whose_trips_rose { (place : ℕ) → (result ≡ Err (record { by = place }))
            ↔ TripsRose (states B.state self.old) (states B.state self.new) place }
    {
        for (place, breaker) in self.breakers.iter_mut().enumerate() {
            if breaker.poll() {
                return Err(Interrupted { by: place as u32 });
            }
        }
        Ok(())
    }

    /// Arms the first breaker that can be armed, and tells whether there is one: where that tells its plan, `k` more
    /// polls of it pass, and the one after them trips.
    pub fn arm_first(&mut self, k: u64) -> bool
        ensures armed { states B.state self.new ≡ armed_first k (states B.state self.old) }
        ensures whether_one_can_be { result ≡ list_any (λ b. b.can_be_armed) (states B.state self.old) }
        ensures false_changes_nothing { OnFalse result (states B.state self.new ≡ states B.state self.old) }
    {
        for breaker in self.breakers.iter_mut() {
            if breaker.arms() {
                breaker.arm(k);
                return true;
            }
        }
        false
    }

    /// Drops the breakers that have tripped, and keeps the others in their order.
    pub fn sweep(&mut self)
        ensures { states B.state self.new ≡ kept (states B.state self.old) }
    {
        self.breakers.retain(|breaker| !breaker.spent());
    }
}
