ghost use Rattle.std.specs.Prelude.{◌≡◌, ◌-◌, ◌<◌, ◌≤◌, ◌⊎◌, ◌↔◌, [], ◌++◌, length, take, min, Some, IfOk, OnErr, IsErr, Contains};
ghost use Rattle.calc_edges.specs.Faults.{counted, failed, next_count, no_failures, passed};

use crate::{Failed, Failures, Sink};
use std::alloc::{AllocError, Global};
use std::marker::Model;

/// A sink into memory of fixed size that takes bytes in pieces, and fails at chosen writes.
#[derive(Debug, Drop)]
pub struct MemSink {
    bytes: Vec<u8>,
    room: usize,
    piece: usize,
    failing: Vec<u64>,
    calls: u64,
    faults: Failures,
}

impl Model for MemSink {
    ghost use Rattle.std.specs.Prelude.{◌+◌, ◌≤◌, vec_len, vec_capacity};
    ghost use Rattle.calc_edges.specs.MemSink.{SinkState};

    ghost Value = { SinkState };

    ghost view = { λ s. record {
      taken = s.bytes.items;
      room = s.room;
      piece = s.piece;
      failing = s.failing.items;
      calls = s.calls;
      faults = s.faults;
    } };

    ghost invariant = { λ s. (1 ≤ s.piece) × (vec_len s.bytes + s.room ≤ vec_capacity s.bytes) };
}

impl MemSink {
    /// A sink with room for `room` bytes that takes at most `piece` of them at a write. The writes whose
    /// numbers, counted from 1, stand in `failing` fail and take nothing. A number stops at 2^64 - 1.
    /// All the memory is taken here, and none later.
    pub fn new(
        alloc: Global,
        room: usize,
        piece: usize,
        failing: Vec<u64>,
    ) -> Result<MemSink, AllocError>
        requires { 1 ≤ piece }
        ensures { IfOk result (λ sink. sink ≡ record {
          taken = [];
          room = room;
          piece = piece;
          failing = failing.items;
          calls = 0;
          faults = no_failures;
        }) }
    {
        Ok(MemSink {
            bytes: Vec::with_capacity(alloc, room)?,
            room,
            piece,
            failing,
            calls: 0,
            faults: Failures::new(),
        })
    }

    /// The bytes taken so far.
    pub fn bytes(&self) -> &[u8]
        ensures { result.now ≡ self.now.taken }
    {
        &self.bytes
    }
}

impl Sink for MemSink {
    ghost taken = { λ s. Some s.taken };

    ghost faults = { λ s. s.faults };

    fn write(&mut self, from: &[u8]) -> Result<usize, Failed>
        ensures failed { IsErr result ↔ ((0 < length from.now)
            × ((self.old.room ≡ 0) ⊎ Contains self.old.failing (next_count self.old.calls))) }

        // How many bytes are taken, and which.
        ensures count { IfOk result (λ n. n
            ≡ min self.old.piece (min (length from.now) self.old.room)) }
        ensures appended { IfOk result (λ n. self.new ≡ record self.old {
          taken = self.old.taken ++ take n from.now;
          room = self.old.room - n;
          calls = next_count self.old.calls;
          faults = passed self.old.faults;
        }) }

        // A write that fails is counted, and takes nothing.
        ensures nothing { OnErr result (self.new
            ≡ record self.old { calls = next_count self.old.calls; faults = failed self.old.faults }) }

        // What the trait asks beside that.
        ensures progress { IfOk result (λ n. 0 < length from.now → 0 < n) }
        ensures counted { self.new.faults ≡ counted result self.old.faults }
    {
        self.calls = self.calls.saturating_add(1);
        if !from.is_empty() && (self.room == 0 || self.failing.contains(&self.calls)) {
            self.faults.fail();
            return Err(Failed);
        }
        self.faults.pass();
        let count = self.piece.min(from.len()).min(self.room);
        self.bytes.extend_from_slice(&from[..count]).unwrap();
        self.room -= count;
        Ok(count)
    }
}
