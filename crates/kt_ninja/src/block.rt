//! Bytes on their way to a sink, handed over a block at a time.
ghost use Rattle.std.specs.Prelude.{◌≡◌, ◌≤◌, ◌<◌, ◌+◌, [], take, drop, length};
ghost use Rattle.kt_ninja.specs.inner.Escaping.{is_escaped};
ghost use Rattle.kt_ninja.specs.Text.{escaped};

use crate::escapes::Escapes;
use crate::sink::{Sink, WriteFault, put};
use arrayvec::ArrayVec;

/// The bytes of a block: what a sink gets in one call, where there is as much.
const BLOCK: usize = 4096;

/// Text on its way to a sink. Up to a block of bytes waits, and is handed over when more comes and at the end.
/// After the first fault of the sink nothing more is written.
pub struct Block<'a, W: Sink> {
    pub sink: &'a mut W,
    pub waiting: ArrayVec<u8, BLOCK>,
    pub failed: bool,
}

/// What stands after the byte at this place.
fn after(text: &[u8], at: usize) -> &[u8]
    requires { at < length text.now }
    ensures { result.now ≡ drop (at + 1) text.now }
{
    &text[at + 1..]
}

impl<'a, W: Sink> Block<'a, W> {
    ghost use Rattle.kt_ninja.specs.inner.Blocks.{HandsOver, Passes, Puts};

    /// Hands over what waits.
    pub fn flush(&mut self)
        ensures passes { Passes W.seen self.old self.new [] }
        ensures empty { self.new.waiting.items ≡ [] }
    {
        if !self.failed && put(self.sink, self.waiting.as_slice()).is_err() {
            self.failed = true;
        }
        self.waiting.clear();
    }

    /// Puts the piece after what waits.
    #[inline(always)]
    pub fn put(&mut self, piece: &[u8])
        ensures { Puts W.seen self.old self.new piece.now }
    {
        if piece.len() <= self.waiting.remaining_capacity() {
            self.waiting.try_extend_from_slice(piece).unwrap();
        } else {
            self.put_across(piece);
        }
    }

    /// As `put`, for a piece that may have no room in the block.
    fn put_across(&mut self, piece: &[u8])
        ensures { Puts W.seen self.old self.new piece.now }
    {
        let mut done = 0;
        while done < piece.len() {
            done += self.fill(&piece[done..]);
        }
    }

    /// Puts as much of the piece as has room in a block, and returns its length in bytes.
    fn fill(&mut self, piece: &[u8]) -> usize
        requires { 0 < length piece.now }
        ensures some { 0 < result }
        ensures within { result ≤ length piece.now }
        ensures passes { Passes W.seen self.old self.new (take result piece.now) }
        ensures hands { HandsOver self.old self.new (take result piece.now) }
    {
        if self.waiting.is_full() {
            self.flush();
        }
        let count = piece.len().min(self.waiting.remaining_capacity());
        self.waiting.try_extend_from_slice(&piece[..count]).unwrap();
        count
    }

    /// Puts the text, each special byte after a dollar.
    pub fn put_escaped(&mut self, text: &[u8], escapes: Escapes)
        ensures { Puts W.seen self.old self.new (escaped (is_escaped escapes) text.now) }
    {
        let mut rest = text;
        while let Some(at) = escapes.first_in(rest) {
            self.put(&rest[..at]);
            self.put(&[b'$', rest[at]]);
            rest = after(rest, at);
        }
        self.put(rest);
    }
}
