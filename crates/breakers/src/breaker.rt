//! What a breaker is: it counts its polls and its trips, and may tell when it will trip.

/// What a breaker tells of its coming polls.
#[derive(Clone, Copy, PartialEq, Eq, Debug)]
pub enum Plan {
    /// It tells nothing: each poll may trip.
    Untold,
    /// No poll trips until it is armed.
    Idle,
    /// So many polls pass, and the one after them trips.
    After(u64),
}

/// Something that is polled while a calculation runs, and may answer that it is to stop.
///
/// A clause sees a breaker as its `State`: how often it was polled and how often it tripped,
/// each counted up to the largest `u64`, its plan, and whether it can be armed.
pub trait Breaker: Drop {
    ghost use Rattle.std.specs.Prelude.{◌≡◌, ◌<◌, ◌↔◌, IsTrue};
    ghost use Rattle.breakers.specs.State.{State, Polls, armed_after};

    ghost state: { Self → State };

    /// Asks whether the calculation is to stop. True is a trip.
    fn poll(&mut self) -> bool
        ensures { Polls (state self.old) (state self.new) result };

    /// Whether the breaker can be armed. The answer never changes.
    fn arms(&self) -> bool
        ensures { result ≡ (state self.now).can_be_armed };

    /// Plans a trip after `k` more polls, where the breaker can be armed and tells its plan.
    fn arm(&mut self, k: u64)
        ensures { state self.new ≡ armed_after k (state self.old) };

    /// Whether the breaker has tripped.
    fn spent(&self) -> bool
        ensures { IsTrue result ↔ (0 < (state self.now).trips) };
}

/// A boxed breaker is the breaker in the box.
impl Breaker for Box<dyn Breaker> {
    ghost state = { λ b. (Breaker-box b).state b.value };

    fn poll(&mut self) -> bool {
        (**self).poll()
    }

    fn arms(&self) -> bool {
        (**self).arms()
    }

    fn arm(&mut self, k: u64) {
        (**self).arm(k);
    }

    fn spent(&self) -> bool {
        (**self).spent()
    }
}
