//! A line with its references and continuations masked.
ghost use Rattle.std.specs.Prelude.{◌≡◌, ◌<◌, ◌≤◌, ◌∷◌, ◌+◌, List, ℕ, length, drop, take, slice_index};
ghost use Rattle.std.specs.Iterator.{YieldsFirst, item_count};
ghost use Rattle.std.specs.List.{position_or_len};
ghost use Rattle.kt_syntax.specs.Mask.{goes_odd, mask_byte, mask_from, mask_of, more_masked};
ghost use Rattle.kt_syntax.specs.Terms.{after_dollar, kept};
ghost use Rattle.kt_syntax.specs.inner.OwnRuns.{is_mark};

use crate::next_term::after_dollar;
use crate::symbol::Symbol;
use memchr::memchr2;
use std::marker::Model;

/// The symbols of a line: those of its bytes, those of its references and spaces for continuations.
#[derive(Drop)]
pub(crate) struct Mask<'a> {
    rest: &'a [u8],
    skip: usize,
    symbol: Symbol,
    odd: bool,
    left: usize,
}

impl<'a> Model for Mask<'a> {
    ghost Value = { List ℕ };

    ghost view = { λ mask. take mask.left (mask_from mask.skip mask.symbol mask.odd mask.rest.now) };
}

impl<'a> Mask<'a> {
    // The first symbols of a line.
    #[tactic(auto, unfolding(crate::specs::Mask::mask_of))]
    pub(crate) fn new(text: &'a [u8], left: usize) -> Mask<'a>
        ensures value { result ≡ take left (mask_of text.now) }
        ensures size { left ≤ length text.now → length result ≡ left }
        ensures whole { left ≡ length text.now → result ≡ mask_of text.now }
    {
        Mask {
            rest: text,
            skip: 0,
            symbol: Symbol::of(0),
            odd: false,
            left,
        }
    }

    // The symbols of a line from a place up to another.
    #[tactic(auto, using(crate::proofs::lemmas::Masking::one_taken))]
    pub(crate) fn between(text: &'a [u8], from: usize, end: usize) -> Mask<'a>
        ensures value { result ≡ drop from (take end (mask_of text.now)) }
        ensures size { from ≤ end → end ≤ length text.now → from + length result ≡ end }
    {
        // Bytes before the first dollar and backslash are their own symbols, and need no walk.
        let own = own_length(text, from);
        let mut mask = Mask::new(&text[own..], end.saturating_sub(own));
        for place in own..from {
            let _ = mask.next();
        }
        mask
    }

    // The symbol after a given number of others, or that of a zero byte past the end; those are
    // taken.
    #[tactic(auto, using(crate::proofs::lemmas::Masking::symbol_at, crate::proofs::lemmas::Masking::one_taken))]
    pub(crate) fn symbol_after(&mut self, count: usize) -> Symbol
        ensures symbol { result ≡ slice_index self.old count }
        ensures rest { self.new ≡ drop (count + 1) self.old }
    {
        let mut place = 0;
        while place < count {
            place += self.pass(count - place);
        }
        self.next().unwrap_or(Symbol::of(0))
    }

    // Takes one symbol, or more, up to a number of them, and returns how many.
    fn pass(&mut self, most: usize) -> usize
        requires { 0 < most }
        ensures rest { self.new ≡ drop result self.old }
        ensures some { 0 < result }
        ensures bound { result ≤ most }
    {
        let own = self.pass_own(most);
        if own > 0 {
            return own;
        }
        let _ = self.next();
        1
    }

    // Takes the symbols, up to a number of them, that are bytes of their own, without a look at each.
    #[tactic(auto, using(crate::proofs::lemmas::OwnSymbols::own_passed))]
    fn pass_own(&mut self, most: usize) -> usize
        ensures rest { self.new ≡ drop result self.old }
        ensures bound { result ≤ most }
    {
        if self.skip > 0 || self.odd {
            return 0;
        }
        let own = own_length(self.rest, most.min(self.left));
        self.rest = &self.rest[own..];
        self.left -= own;
        own
    }
}

impl<'a> Iterator for Mask<'a> {
    type Item = Symbol;

    ghost next_gives = { YieldsFirst (λ rest. rest) };

    ghost remaining = { item_count (λ rest. rest) };

    // A loop over bytes that are their own symbols has no call then.
    #[inline(always)]
    #[tactic(auto, using(crate::proofs::lemmas::Masking::mask_ends))]
    fn next(&mut self) -> Option<Symbol> {
        if self.left == 0 {
            return None;
        }
        let (byte, text) = self.rest.split_first()?;
        let (symbol, skip) = first_symbol(self.skip, &self.symbol, self.odd, *byte, text);
        self.skip = skip;
        self.symbol = symbol.copy();
        self.odd = goes_odd(self.odd, *byte);
        self.rest = text;
        self.left -= 1;
        Some(symbol)
    }
}

// What stands for the first byte, and how many more bytes are masked by the same.
#[inline(always)]
fn first_symbol(skip: usize, symbol: &Symbol, odd: bool, byte: u8, text: &[u8]) -> (Symbol, usize)
    ensures { mask_from skip symbol.now odd (byte ∷ text.now) ≡ result.0
        ∷ mask_from result.1 result.0 (goes_odd odd byte) text.now }
{
    if skip > 0 {
        return (symbol.copy(), skip - 1);
    }
    // Nearly every byte is its own symbol.
    if byte != b'$' && byte != b'\\' {
        return (Symbol::of(byte), 0);
    }
    let more = more_masked(odd, byte, text);
    (mask_byte(byte, more), more)
}

// Whether an odd number of backslashes stands before the next byte.
#[inline(always)]
fn goes_odd(odd: bool, byte: u8) -> bool
    ensures { result ≡ goes_odd odd byte }
{
    byte == b'\\' && !odd
}

// How many more bytes a dollar or a backslash takes with it.
#[tactic(auto, unfolding(crate::specs::Mask::more_masked))]
#[inline(always)]
fn more_masked(odd: bool, byte: u8, text: &[u8]) -> usize
    ensures value { result ≡ more_masked odd byte text.now }
    ensures bound { result ≤ length text.now }
{
    if byte == b'$' {
        return after_mark(text);
    }
    if !goes_odd(odd, byte) {
        return 0;
    }
    match text {
        [b'\n', ..] => 1,
        [b'\r', b'\n', ..] => 2,
        _ => 0,
    }
}

// How many bytes the term after a dollar takes: a continuation counts as one byte there.
#[inline(never)]
fn after_mark(text: &[u8]) -> usize
    ensures value { result ≡ (after_dollar kept text.now).1 }
    ensures bound { result ≤ length text.now }
{
    if text.starts_with(b"\\\n") {
        2
    } else if text.starts_with(b"\\\r\n") {
        3
    } else {
        after_dollar(text).1
    }
}

// What stands for a byte that takes so many more with it.
#[inline(always)]
fn mask_byte(byte: u8, more: usize) -> Symbol
    ensures { result ≡ mask_byte byte more }
{
    if byte == b'$' {
        Symbol::inside()
    } else if more == 0 {
        Symbol::of(byte)
    } else {
        Symbol::of(b' ')
    }
}

// How many of the first bytes of a line, up to a place, stand before its first dollar and backslash.
#[tactic(auto, using(kt_text::proofs::lemmas::PlaceLemmas::first_byte_place, std::proofs::lemmas::List::take_min))]
pub(crate) fn own_length(text: &[u8], most: usize) -> usize
    ensures value { result ≡ position_or_len is_mark (take most text.now) }
    ensures small { result ≤ most }
    ensures bound { result ≤ length text.now }
{
    let front = &text[..most.min(text.len())];
    memchr2(b'$', b'\\', front).unwrap_or(front.len())
}
