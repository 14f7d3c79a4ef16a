//! Where the first word of a text ends.
//! Fast: words are cut sixteen bytes at a time. Spares a look at each byte.
ghost use Rattle.std.specs.Prelude.{◌≡◌, ◌≤◌, length, map, nat_le, take};
ghost use Rattle.std.specs.List.{position_or_len, prefix_len};
ghost use Rattle.std.specs.Simd.Lanes.{mask_l};
ghost use Rattle.kt_text.specs.Words.{is_separator};
ghost use Rattle.kt_text.specs.inner.Sure.{is_sure};

use crate::separators::is_separator;
use std::simd::prelude::*;

/// How many bytes stand before the first separator.
///
/// Sixteen bytes are looked at at once for one that isn't beyond a space; a separator is mostly the first such one.
pub(crate) fn word_end(text: &[u8]) -> usize
    ensures value { result ≡ position_or_len is_separator text.now }
    ensures bound { result ≤ length text.now }
{
    let sure = sure_start(text);
    sure + separator_place(&text[sure..])
}

// As `word_end`, by a look at each byte.
fn separator_place(text: &[u8]) -> usize
    ensures value { result ≡ position_or_len is_separator text.now }
    ensures bound { result ≤ length text.now }
{
    text.iter().take_while(|byte| !is_separator(**byte)).count()
}

// A number of bytes at the start that are all beyond a space.
fn sure_start(text: &[u8]) -> usize
    ensures sure { result ≤ prefix_len is_sure text.now }
    ensures bound { result ≤ length text.now }
{
    let mut passed = 0;
    while text.len() - passed >= 16 {
        let run = sure_run(&text[passed..]);
        if run < 16 {
            return passed + run;
        }
        passed += 16;
    }
    passed
}

// How many of the first sixteen bytes stand before one that isn't beyond a space.
#[inline(always)]
fn sure_run(text: &[u8]) -> usize
    requires { 16 ≤ length text.now }
    ensures value { result ≡ prefix_len is_sure (take 16 text.now) }
    ensures bound { result ≤ 16 }
{
    let found = low_bytes(u8x16::from_slice(text));
    if found == 0 {
        16
    } else {
        found.trailing_zeros() as usize
    }
}

// The bits of the bytes that aren't beyond a space.
#[inline(always)]
fn low_bytes(block: u8x16) -> u64
    ensures { result ≡ mask_l (map (λ byte. nat_le byte 32) block) }
{
    block.simd_le(u8x16::splat(32)).to_bitmask()
}
