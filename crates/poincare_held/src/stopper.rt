//! What stops a session from another thread.
ghost use Rattle.std.specs.Prelude.{◌≡◌, ◌≢◌, IfOk};
ghost use Rattle.std.specs.Bool.{OnFalse, OnTrue};

use breakers::Breaker;
use std::alloc::{AllocError, Global};
use std::sync::Arc;
use std::sync::atomic::{AtomicU64, Ordering};

/// What stoppers share with the session that they stop.
#[derive(Drop)]
struct Requests {
    /// How many stops were asked for.
    asked: AtomicU64,
    /// How many of them had been asked for when stops were last withdrawn.
    withdrawn: AtomicU64,
}

/// It stops the lines of a session. Another thread may have it.
#[derive(Drop)]
pub struct Stopper {
    requests: Arc<Requests, Global>,
}

impl Stopper {
    /// A stopper with no session yet.
    pub fn new(alloc: Global) -> Result<Stopper, AllocError> {
        let requests = Requests {
            asked: AtomicU64::new(0),
            withdrawn: AtomicU64::new(0),
        };
        Ok(Stopper {
            requests: Arc::new(alloc, requests)?,
        })
    }

    /// Another stopper of the same session.
    pub fn another(&self) -> Result<Stopper, AllocError> {
        Ok(Stopper {
            requests: Arc::try_clone(&self.requests)?,
        })
    }

    /// Stops the line that is being answered at its next check, or else the next line that makes one.
    pub fn stop(&mut self) {
        let _ = self.requests.asked.fetch_add(1, Ordering::SeqCst);
    }

    /// Withdraws the stops that no check has met.
    pub fn clear(&mut self) {
        let asked = self.requests.asked.load(Ordering::SeqCst);
        let _ = self.requests.withdrawn.fetch_max(asked, Ordering::SeqCst);
    }
}

/// A breaker that trips once for the stops that were asked for since its last trip, unless they were withdrawn.
#[derive(Drop)]
pub struct StopBreaker {
    requests: Arc<Requests, Global>,
    /// How many stops had been asked for at the last trip.
    met: u64,
    polls: u64,
    trips: u64,
}

impl StopBreaker {
    ghost use Rattle.breakers.specs.SilentBreaker.{silent};
    ghost use Rattle.poincare_held.specs.Stopping.{state_of};

    /// The breaker of the session that the stopper is to stop.
    pub fn of(stopper: &Stopper) -> Result<StopBreaker, AllocError>
        ensures { IfOk result (λ breaker. state_of breaker ≡ silent) }
    {
        Ok(StopBreaker {
            requests: Arc::try_clone(&stopper.requests)?,
            met: 0,
            polls: 0,
            trips: 0,
        })
    }
}

impl Breaker for StopBreaker {
    ghost use Rattle.breakers.specs.State.{Polls};
    ghost use Rattle.poincare_held.specs.Stopping.{met_by, state_of};

    ghost state = { state_of };

    fn poll(&mut self) -> bool
        ensures polls { Polls (state_of self.old) (state_of self.new) result }

        // It trips only for stops that it had not met, and has then met them; else it has met no more than before.
        ensures met { OnTrue result (met_by self.new ≢ met_by self.old) }
        ensures unmet { OnFalse result (met_by self.new ≡ met_by self.old) }
    {
        self.polls = self.polls.saturating_add(1);
        if self.trips == u64::MAX {
            return false;
        }
        let asked = self.requests.asked.load(Ordering::SeqCst);
        if asked == self.met || asked == self.requests.withdrawn.load(Ordering::SeqCst) {
            return false;
        }
        self.met = asked;
        self.trips += 1;
        true
    }

    fn arms(&self) -> bool {
        false
    }

    fn arm(&mut self, _k: u64) {}

    fn spent(&self) -> bool {
        self.trips > 0
    }
}

/// The stopper as it is. Its type is `Send`: another thread may have it.
pub fn hand_over(stopper: Stopper) -> Stopper {
    handed(stopper)
}

fn handed<T: Send>(value: T) -> T {
    value
}
