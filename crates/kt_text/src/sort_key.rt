//! Texts that are sorted in byte order.
//! Fast: words are sorted by their first eight bytes, and only those that begin alike by the rest. Spares a look at
//! where each text lies.
ghost use Rattle.std.specs.Prelude.{◌≡◌, ◌<◌, All, Some, List, ℕ, nat_eq, refl, slice_index};
ghost use Rattle.std.specs.Ordering.{nat_cmp};
ghost use Rattle.std.specs.Cmp.{partial_equiv_from_equiv};
ghost use Rattle.std.specs.Cmp.Lexicographic.{slice_cmp, pointwise, nat_list_cmp_total, nat_list_eq_equiv, texts_po};
ghost use Rattle.std.specs.Cmp.Lexicographic.{texts_ties};
ghost use Rattle.kt_text.specs.inner.Sorted.{IsHead};
ghost use Rattle.kt_text.specs.views.Sorted.{front_number};

use std::cmp::Ordering;
use std::marker::Model;

/// A text to be sorted, with its first bytes as a number, by which most texts are told apart without a look at them:
/// long lists don't fit the caches. A contract sees it as just that text.
#[derive(Drop)]
pub struct SortKey<'a> {
    front: u64,
    // A short text's bytes, so that writing it needs no look at where the text lies either.
    head: [u8; HEAD],
    text: &'a [u8],
}

impl<'a> Model for SortKey<'a> {
    ghost Value = { List ℕ };

    ghost view = { λ key. key.text.now };

    ghost invariant = { λ key. (key.front ≡ front_number 8 key.text.now)
        × (IsHead key.head key.text.now × All (λ byte. byte < 256) key.text.now) };
}

impl<'a> SortKey<'a> {
    /// The key of a text. Takes no memory.
    pub fn new(text: &'a [u8]) -> SortKey<'a>
        ensures { result ≡ text.now }
    {
        SortKey {
            front: front_number(text),
            head: head(text),
            text,
        }
    }

    /// The text.
    pub fn text(&self) -> &[u8]
        ensures { result.now ≡ self.now }
    {
        self.head.get(..self.text.len()).unwrap_or(self.text)
    }
}

impl<'a> PartialEq for SortKey<'a> {
    ghost eq = { pointwise nat_eq };

    ghost laws = { partial_equiv_from_equiv nat_list_eq_equiv };

    fn eq(&self, other: &SortKey<'a>) -> bool {
        self.front == other.front && self.text() == other.text()
    }
}

impl<'a> Eq for SortKey<'a> {
    ghost laws = { nat_list_eq_equiv };
}

impl<'a> PartialOrd for SortKey<'a> {
    ghost partial_cmp = { λ key other. Some (slice_cmp nat_cmp key other) };

    ghost laws = { texts_po };

    fn partial_cmp(&self, other: &SortKey<'a>) -> Option<Ordering> {
        Some(self.cmp(other))
    }
}

impl<'a> Ord for SortKey<'a> {
    ghost cmp = { slice_cmp nat_cmp };

    ghost total = { nat_list_cmp_total };

    ghost matches_partial_cmp = { λ key other. refl };

    ghost matches_eq = { texts_ties };

    fn cmp(&self, other: &SortKey<'a>) -> Ordering {
        match self.front.cmp(&other.front) {
            Ordering::Equal => self.text().cmp(other.text()),
            decided => decided,
        }
    }
}

// A text of a given number of bytes is held in its key.
const HEAD: usize = 16;

// The bytes of a short text, with zeros after them.
fn head(text: &[u8]) -> [u8; HEAD]
    ensures { IsHead result text.now }
{
    let mut head = [0; HEAD];
    if text.len() <= HEAD {
        head[..text.len()].copy_from_slice(text);
    }
    head
}

/// The first eight bytes of a text as a number, the first one the highest, and 0 for each that isn't there. Texts are
/// in byte order where these numbers are, and may be where the numbers are equal.
pub fn front_number(text: &[u8]) -> u64
    ensures front { result ≡ front_number 8 text.now }
    ensures bytes { All (λ byte. byte < 256) text.now }
{
    let mut front = 0;
    for i in 0..8 {
        front = front * 256 + u64::from(byte_at(text, i));
    }
    front
}

// The byte at a place, or 0 after the end.
fn byte_at(text: &[u8], i: usize) -> u8
    ensures { result ≡ slice_index text.now i }
{
    text.get(i).copied().unwrap_or(0)
}
