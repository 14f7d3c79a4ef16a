//! Where text goes.
ghost use Rattle.std.specs.Prelude.{◌≡◌, [], ◌≤◌, ◌<◌, length, take, IfOk, IsOk, OnOk, OnErr};
ghost use Rattle.kt_list.specs.Counters.{Rises};
ghost use Rattle.kt_ninja.specs.Written.{GrowsByFront, SinkSeen, Takes};

use thiserror::Error;

/// A sink took less than it was given, for good.
#[derive(Debug, Drop, Clone, Copy, PartialEq, Eq, Error)]
#[error("the sink failed")]
pub struct SinkFault;

/// A place that takes bytes, perhaps fewer in a call than it is given, and counts its failures.
pub trait Sink {
    /// What is seen of it.
    ghost seen: { Self → SinkSeen };

    /// Takes a prefix of the piece, and returns its length in bytes. An `Err`, and a 0 for a piece
    /// that isn't empty, is a failure; it isn't to be tried again. What takes a byte is none.
    fn write(&mut self, piece: &[u8]) -> Result<usize, SinkFault>
        ensures within { IfOk result (λ n. n ≤ length piece.now) }
        ensures takes { IfOk result (λ n. Takes (seen self.old) (seen self.new) (take n piece.now)) }
        ensures front { OnErr result (GrowsByFront (seen self.old) (seen self.new) piece.now) }
        ensures counts { (seen self.old).failed ≤ (seen self.new).failed }
        ensures fails { OnErr result (Rises (seen self.old).failed (seen self.new).failed) }
        ensures stalls { IfOk result (λ n. n ≡ 0 → 0 < length piece.now
            → Rises (seen self.old).failed (seen self.new).failed) }
        ensures holds { IfOk result (λ n. 0 < n → (seen self.new).failed ≡ (seen self.old).failed) };

    /// How often `write` failed.
    fn failures(&self) -> u64
        ensures { result ≡ (seen self.now).failed };
}

/// The sink failed before it had taken all.
#[derive(Debug, Drop, Clone, Copy, PartialEq, Eq, Error)]
#[error("cannot write")]
pub struct WriteFault;

/// Writes all of the piece, by as many calls as that takes, and none for an empty piece.
///
/// A fault is not tried again; what the sink took up to it is a prefix of the piece.
#[tactic(auto, using(crate::proofs::Growth::front_of_rest, std::proofs::lemmas::List::take_rest))]
pub fn put<W: Sink>(sink: &mut W, piece: &[u8]) -> Result<(), WriteFault>
    ensures ok { OnOk result (Takes (W.seen sink.old) (W.seen sink.new) piece.now) }
    ensures fault { OnErr result (GrowsByFront (W.seen sink.old) (W.seen sink.new) piece.now) }
    ensures counts { (W.seen sink.old).failed ≤ (W.seen sink.new).failed }
    ensures failed { OnErr result (Rises (W.seen sink.old).failed (W.seen sink.new).failed) }
    ensures steady { OnOk result ((W.seen sink.new).failed ≡ (W.seen sink.old).failed) }
    ensures empty { piece.now ≡ [] → IsOk result × (sink.new ≡ sink.old) }
{
    let mut done = 0;
    while done < piece.len() {
        match sink.write(&piece[done..]) {
            Ok(0) => return Err(WriteFault),
            Ok(taken) => done += taken,
            Err(_) => return Err(WriteFault),
        }
    }
    Ok(())
}
