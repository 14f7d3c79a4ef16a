//! A sink over memory, for tests.
ghost use Rattle.std.specs.Prelude.{◌≡◌, [], IfOk};

use crate::sink::{Sink, SinkFault};
use std::alloc::{AllocError, Global};
use std::marker::Model;

/// A sink that keeps what it takes, and fails when it is full.
#[derive(Drop)]
pub struct MemSink {
    bytes: Vec<u8>,
    room: usize,
    step: usize,
    failures: u64,
    calls: u64,
}

impl Model for MemSink {
    ghost use Rattle.std.specs.Prelude.{◌≤◌, vec_len, vec_capacity};
    ghost use Rattle.kt_ninja.specs.views.Memory.{MemSink};

    ghost Value = { MemSink };

    ghost view = { λ s. record {
      bytes = s.bytes.items;
      room = s.room;
      step = s.step;
      failures = s.failures;
      calls = s.calls;
    } };

    ghost invariant = { λ s. (vec_len s.bytes ≤ s.room) × (s.room ≤ vec_capacity s.bytes) };
}

impl MemSink {
    ghost use Rattle.kt_ninja.specs.views.Memory.{MemSink as MemSinkSeen};

    /// A sink with room for a given number of bytes, reserved at once, of which it takes up to
    /// `step` in a call. With a step of 0 it returns 0 for every piece.
    pub fn new(alloc: Global, room: usize, step: usize) -> Result<MemSink, AllocError>
        ensures { IfOk result (λ s. s ≡ record { bytes = []; room = room; step = step; failures = 0; calls = 0 }) }
    {
        let bytes = Vec::with_capacity(alloc, room)?;
        Ok(MemSink {
            bytes,
            room,
            step,
            failures: 0,
            calls: 0,
        })
    }

    /// The bytes that it has taken.
    pub fn as_slice(&self) -> &[u8]
        ensures { result.now ≡ self.now.bytes }
    {
        self.bytes.as_slice()
    }

    /// How often it was called.
    pub fn calls(&self) -> u64
        ensures { result ≡ self.now.calls }
    {
        self.calls
    }
}

impl Sink for MemSink {
    ghost use Rattle.std.specs.Prelude.{◌≡◌, ◌≤◌, ◌<◌, Ok, [], IfOk, OnErr, IsErr, length, take};
    ghost use Rattle.kt_list.specs.Counters.{one_more, Rises};
    ghost use Rattle.kt_ninja.specs.Written.{GrowsByFront, Takes};
    ghost use Rattle.kt_ninja.specs.views.Memory.{sink_after_call, sink_seen_of, taken_of};

    ghost seen = { sink_seen_of };

    fn write(&mut self, piece: &[u8]) -> Result<usize, SinkFault>
        ensures within { IfOk result (λ n. n ≤ length piece.now) }
        ensures takes { IfOk result (λ n. Takes (sink_seen_of self.old) (sink_seen_of self.new) (take n piece.now)) }
        ensures front { OnErr result (GrowsByFront (sink_seen_of self.old) (sink_seen_of self.new) piece.now) }
        ensures counts { self.old.failures ≤ self.new.failures }
        ensures fails { OnErr result (Rises self.old.failures self.new.failures) }
        ensures stalls { IfOk result (λ n. n ≡ 0 → 0 < length piece.now → Rises self.old.failures self.new.failures) }
        ensures holds { IfOk result (λ n. 0 < n → self.new.failures ≡ self.old.failures) }

        // It takes what step and room allow; nothing of a piece that isn't empty is a failure.
        ensures some { 0 < taken_of self.old piece.now → (result ≡ Ok (taken_of self.old piece.now))
            × (self.new ≡ sink_after_call self.old (take (taken_of self.old piece.now) piece.now) self.old.failures) }
        ensures empty { piece.now ≡ [] → (result ≡ Ok 0) × (self.new ≡ sink_after_call self.old [] self.old.failures) }
        ensures none { taken_of self.old piece.now ≡ 0 → 0 < length piece.now
            → self.new ≡ sink_after_call self.old [] (one_more self.old.failures) }
        ensures idle { self.old.step ≡ 0 → result ≡ Ok 0 }
        ensures full { taken_of self.old piece.now ≡ 0 → 0 < length piece.now → 0 < self.old.step → IsErr result }
    {
        self.calls = self.calls.saturating_add(1);
        let count = piece.len().min(self.step).min(self.room - self.bytes.len());
        if count == 0 && !piece.is_empty() {
            self.failures = self.failures.saturating_add(1);
            return if self.step == 0 {
                Ok(0)
            } else {
                Err(SinkFault)
            };
        }
        self.bytes.extend_from_slice(&piece[..count]).unwrap();
        Ok(count)
    }

    fn failures(&self) -> u64 {
        self.failures
    }
}
