//! Short texts that look random, the same ones in each run. Tests compare by them what is quick with what is plain.
use crate::texts::put;
use std::alloc::Global;

/// A source of numbers that look random: an xorshift generator (G. Marsaglia, "Xorshift RNGs", 2003).
#[derive(Drop)]
pub struct Random {
    state: u64,
}

impl Random {
    /// The source that a seed begins, which isn't 0.
    pub fn new(seed: u64) -> Random {
        Random { state: seed }
    }

    /// The next number.
    pub fn number(&mut self) -> u64 {
        self.state ^= self.state << 13;
        self.state ^= self.state >> 7;
        self.state ^= self.state << 17;
        self.state
    }

    /// A number below another, which isn't 0.
    pub fn below(&mut self, end: usize) -> usize {
        if end == 0 {
            return 0;
        }
        self.number() as usize % end
    }

    /// One of the pieces, where there is one.
    pub fn piece<'a>(&mut self, pieces: &[&'a [u8]]) -> &'a [u8] {
        match pieces.get(self.below(pieces.len())) {
            Some(piece) => *piece,
            None => b"",
        }
    }

    /// Fewer than a given number of of the pieces, one after the other. Where memory is refused the
    /// text comes out short.
    pub fn text(&mut self, alloc: Global, pieces: &[&[u8]], end: usize) -> Vec<u8> {
        let mut text = Vec::new(alloc);
        for _ in 0..self.below(end) {
            put(&mut text, self.piece(pieces));
        }
        text
    }
}
