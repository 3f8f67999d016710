ghost use Rattle.std.specs.Prelude.{◌≡◌, ℕ, ◌≤◌, List, ◌++◌, length, take, drop, min, None, Some, IfOk};
ghost use Rattle.calc_edges.specs.Faults.{no_failures};

use crate::{Failed, Source};
use std::marker::Model;

/// A source over bytes in memory that never fails.
#[derive(Debug, Drop)]
pub struct CalmSource {
    bytes: Vec<u8>,
    given: usize,
}

impl Model for CalmSource {
    ghost Value = { List ℕ };

    ghost view = { λ s. drop s.given s.bytes.items };

    ghost invariant = { λ s. s.given ≤ length s.bytes.items };
}

impl CalmSource {
    pub fn new(bytes: Vec<u8>) -> CalmSource
        ensures { result ≡ bytes.items }
    {
        CalmSource { bytes, given: 0 }
    }
}

impl Source for CalmSource {
    ghost told = { λ s. record { given = None; left = Some s } };

    ghost faults = { λ _. no_failures };

    fn read(&mut self, into: &mut [u8]) -> Result<usize, Failed>
        ensures count { result ≡ Ok (min (length into.old) (length self.old)) }
        ensures copied { IfOk result (λ n. into.new ≡ take n self.old ++ drop n into.old) }
        ensures left { IfOk result (λ n. self.new ≡ drop n self.old) }
    {
        let left = &self.bytes[self.given..];
        let count = into.len().min(left.len());
        into[..count].copy_from_slice(&left[..count]);
        self.given += count;
        Ok(count)
    }
}
