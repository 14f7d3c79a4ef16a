//! The host's outputs. What they took takes no memory: only proofs read it.
ghost use Rattle.std.specs.Prelude.{◌≡◌, ◌<◌, ◌≤◌, ◌↔◌, ◌++◌, [], IfOk, IsOk, OnErr, OnOk, Some, length, take};
ghost use Rattle.std.specs.Io.KnownBytes.{Appends};
ghost use Rattle.kt_list.specs.Counters.{Rises};
ghost use Rattle.kt_ninja.specs.Written.{GrowsByFront, Takes};
ghost use Rattle.kati_host.specs.Written.{sink_seen};

use kt_history::History;
use kt_ninja::{Sink, SinkFault};
use std::io;
use std::io::Write;

/// One of the process's outputs. Each write is flushed.
#[derive(Drop)]
pub struct HostSink<W: Write + Drop> {
    output: W,
    written: History<u8>,
    failures: u64,
}

impl<W: Write + Drop> HostSink<W> {
    /// An output that has taken nothing, without a failed write so far.
    pub fn new(output: W) -> HostSink<W>
        ensures written { result.written.items ≡ [] }
        ensures failures { result.failures ≡ 0 }
    {
        HostSink {
            output,
            written: History::new(),
            failures: 0,
        }
    }

    // Hands the piece to the output, notes what that took of it, and returns how many bytes that is.
    fn hand_on(&mut self, piece: &[u8]) -> usize
        ensures within { result ≤ length piece.now }
        ensures noted { self.new.written.items ≡ self.old.written.items ++ take result piece.now }
        ensures taken { Appends (W.contents self.old.output) (W.contents self.new.output) (take result piece.now) }
        ensures failures { self.new.failures ≡ self.old.failures }
    {
        let count = self.output.write(piece).unwrap_or(0);
        self.written = self.written.with(&piece[..count]);
        count
    }

    // What comes of a write that took this many bytes, and of the flush after it. Taking none, like a failed flush, is
    // a failure.
    fn flushed(&mut self, count: usize, flush: io::Result<()>) -> Result<usize, SinkFault>
        ensures written { self.new.written.items ≡ self.old.written.items }
        ensures output { self.new.output ≡ self.old.output }
        ensures count { IfOk result (λ n. n ≡ count) }
        ensures ended { IsOk result ↔ ((0 < count) × IsOk flush) }
        ensures holds { OnOk result (self.new.failures ≡ self.old.failures) }
        ensures counts { self.old.failures ≤ self.new.failures }
        ensures fails { OnErr result (Rises self.old.failures self.new.failures) }
    {
        if count > 0 && flush.is_ok() {
            return Ok(count);
        }
        self.failures = self.failures.saturating_add(1);
        Err(SinkFault)
    }
}

impl<W: Write + Drop> Sink for HostSink<W> {
    ghost seen = { sink_seen };

    // A contract of its own takes the place of the trait's: it repeats those clauses, and says of the real output that it
    // gets just the bytes that are taken.
    fn write(&mut self, piece: &[u8]) -> Result<usize, SinkFault>
        ensures within { IfOk result (λ n. n ≤ length piece.now) }
        ensures takes { IfOk result (λ n. Takes (sink_seen self.old) (sink_seen self.new) (take n piece.now)) }
        ensures front { OnErr result (GrowsByFront (sink_seen self.old) (sink_seen self.new) piece.now) }
        ensures counts { self.old.failures ≤ self.new.failures }
        ensures fails { OnErr result (Rises self.old.failures self.new.failures) }
        ensures stalls { IfOk result (λ n. n ≡ 0 → 0 < length piece.now → Rises self.old.failures self.new.failures) }
        ensures holds { IfOk result (λ n. 0 < n → self.new.failures ≡ self.old.failures) }
        ensures output { IfOk result (λ n. Appends (W.contents self.old.output) (W.contents self.new.output)
            (take n piece.now)) }
    {
        if piece.is_empty() {
            return Ok(0);
        }
        let count = self.hand_on(piece);
        let flush = self.output.flush();
        self.flushed(count, flush)
    }

    fn failures(&self) -> u64 {
        self.failures
    }
}
