//! A sink of one's own.
ghost use Rattle.std.specs.Prelude.{◌≡◌, ◌-◌, ◌^◌, [], ◌++◌, length, min};

use calc_edges::{Failed, History, Sink};

/// A sink that keeps no byte, and counts them.
#[derive(Drop)]
pub struct ByteMeter {
    count: u64,
    history: History,
    ghost counted: { count ≡ min (length history.bytes) (2 ^ 64 - 1) },
}

impl ByteMeter {
    ghost use Rattle.callers.specs.Meters.{metered};

    pub fn new() -> ByteMeter
        ensures { metered result ≡ [] }
    {
        ByteMeter {
            count: 0,
            history: History::new(),
        }
    }

    /// How many bytes went by, up to 2^64 - 1.
    pub fn count(&self) -> u64
        ensures { result ≡ min (length (metered self.now)) (2 ^ 64 - 1) }
    {
        self.count
    }
}

impl Sink for ByteMeter {
    ghost use Rattle.std.specs.Prelude.{Some};
    ghost use Rattle.calc_edges.specs.Faults.{no_failures};
    ghost use Rattle.callers.specs.Meters.{metered};

    ghost taken = { λ m. Some (metered m) };

    // It never fails.
    ghost faults = { λ m. no_failures };

    fn write(&mut self, from: &[u8]) -> Result<usize, Failed>
        ensures all { result ≡ Ok (length from.now) }
        ensures metered { metered self.new ≡ metered self.old ++ from.now }
    {
        self.count = self.count.saturating_add(from.len() as u64);
        self.history = self.history.and(from);
        Ok(from.len())
    }
}
