ghost use Rattle.std.specs.Prelude.{◌≡◌, ◌<◌, ◌≤◌, ◌↔◌, [], ◌++◌, length, take, drop, min, None, Some, IfOk, OnErr, IsErr, Contains};
ghost use Rattle.calc_edges.specs.Faults.{counted, failed, next_count, no_failures, passed};

use crate::{CalmSource, Failed, Failures, Source};
use std::marker::Model;

/// A source over bytes in memory that gives them in pieces, and fails at chosen calls.
#[derive(Debug, Drop)]
pub struct MemSource {
    rest: CalmSource,
    piece: usize,
    failing: Vec<u64>,
    calls: u64,
    faults: Failures,
}

impl Model for MemSource {
    ghost use Rattle.std.specs.Prelude.{◌≤◌};
    ghost use Rattle.calc_edges.specs.MemSource.{SourceState};

    ghost Value = { SourceState };

    ghost view = { λ s. record {
      left = s.rest;
      piece = s.piece;
      failing = s.failing.items;
      calls = s.calls;
      faults = s.faults;
    } };

    ghost invariant = { λ s. 1 ≤ s.piece };
}

impl MemSource {
    /// A source of these bytes that gives at most `piece` of them at a call. The calls whose numbers,
    /// counted from 1, stand in `failing` fail and give nothing. A number stops at 2^64 - 1.
    pub fn new(bytes: Vec<u8>, piece: usize, failing: Vec<u64>) -> MemSource
        requires { 1 ≤ piece }
        ensures { result
            ≡ record { left = bytes.items; piece = piece; failing = failing.items; calls = 0; faults = no_failures } }
    {
        MemSource {
            rest: CalmSource::new(bytes),
            piece,
            failing,
            calls: 0,
            faults: Failures::new(),
        }
    }
}

impl Source for MemSource {
    ghost told = { λ s. record { given = None; left = Some s.left } };

    ghost faults = { λ s. s.faults };

    fn read(&mut self, into: &mut [u8]) -> Result<usize, Failed>
        ensures failed { IsErr result ↔ Contains self.old.failing (next_count self.old.calls) }

        // How many bytes are given, and which.
        ensures count { IfOk result (λ n. n
            ≡ min self.old.piece (min (length into.old) (length self.old.left))) }
        ensures copied { IfOk result (λ n. into.new ≡ take n self.old.left ++ drop n into.old) }
        ensures left { IfOk result (λ n. self.new
            ≡ record self.old { left = drop n self.old.left; calls = next_count self.old.calls; faults = passed self.old.faults }) }

        // A call that fails is counted, and gives nothing.
        ensures kept { OnErr result (self.new
            ≡ record self.old { calls = next_count self.old.calls; faults = failed self.old.faults }) }
        ensures nothing { OnErr result (into.new ≡ into.old) }

        // What the trait asks beside that.
        ensures end { IfOk result (λ n. n ≡ 0 → 0 < length into.new → self.new.left ≡ []) }
        ensures counted { self.new.faults ≡ counted result self.old.faults }
    {
        self.calls = self.calls.saturating_add(1);
        if self.failing.contains(&self.calls) {
            self.faults.fail();
            return Err(Failed);
        }
        self.faults.pass();
        let room = self.piece.min(into.len());
        self.rest.read(&mut into[..room])
    }
}
