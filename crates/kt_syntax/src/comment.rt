//! Texts without their comments.
//! Fast: a part of a line without a comment or a continuation is borrowed. Spares an allocation a part.
ghost use Rattle.std.specs.Prelude.{◌≡◌, ◌++◌, IfOk, replicate};
ghost use Rattle.std.specs.Cow.{cow_slice_items};
ghost use Rattle.kt_syntax.specs.Comments.{backslashes, plain_of, uncommented_of};

use crate::mask::Mask;
use crate::own::own_sign_place;
use kt_text::{has_byte, joined};
use memchr::memchr;
use std::alloc::{AllocError, Global};
use std::borrow::CowSlice;

/// The text of a part of a line, as the part stands in the file: without its comment, and with each
/// continuation as one space.
///
/// A number sign after an odd run of backslashes is itself, and so is one inside a reference; of the
/// run half stay. Carriage returns before newlines are dropped. GNU make manual, "What Makefiles
/// Contain" and "Splitting Long Lines". A part that stays as it is is borrowed.
pub fn plain<'a>(alloc: Global, part: &'a [u8]) -> Result<CowSlice<'a, u8>, AllocError>
    ensures { IfOk result (λ plain. cow_slice_items plain ≡ plain_of part.now) }
{
    match joined(alloc, part)? {
        CowSlice::Borrowed(text) => uncommented(alloc, text),
        CowSlice::Owned(text) => Ok(CowSlice::Owned(without_its_comment(alloc, text)?)),
    }
}

// A text without continuations, without its comment.
fn uncommented<'a>(alloc: Global, text: &'a [u8]) -> Result<CowSlice<'a, u8>, AllocError>
    ensures { IfOk result (λ plain. cow_slice_items plain ≡ uncommented_of text.now) }
{
    if has_byte(text, b'#') {
        return uncommented_by_sign(alloc, text);
    }
    Ok(CowSlice::Borrowed(text))
}

// As `uncommented`, for a text with a number sign.
fn uncommented_by_sign<'a>(alloc: Global, text: &'a [u8]) -> Result<CowSlice<'a, u8>, AllocError>
    ensures { IfOk result (λ plain. cow_slice_items plain ≡ uncommented_of text.now) }
{
    match own_sign_place(text) {
        Some(place) => Ok(CowSlice::Borrowed(&text[..place])),
        None => Ok(CowSlice::Owned(without_comment(alloc, text)?)),
    }
}

// As `uncommented`, for a text that is owned.
#[tactic(auto, using(crate::proofs::lemmas::SymbolLemmas::nothing_uncommented, crate::proofs::lemmas::SymbolLemmas::not_found))]
fn without_its_comment(alloc: Global, text: Vec<u8>) -> Result<Vec<u8>, AllocError>
    ensures { IfOk result (λ plain. plain.items ≡ uncommented_of text.items) }
{
    match memchr(b'#', text.as_slice()) {
        None => Ok(text),
        Some(_) => without_comment(alloc, text.as_slice()),
    }
}

// As `uncommented`, by the symbols of the text.
#[tactic(auto, unfolding(crate::specs::Comments::uncommented_of))]
fn without_comment(alloc: Global, text: &[u8]) -> Result<Vec<u8>, AllocError>
    ensures { IfOk result (λ plain. plain.items ≡ uncommented_of text.now) }
{
    let mut plain = Vec::new(alloc);
    let mut run = 0;
    let mut place = 0;
    for symbol in Mask::new(text, text.len()) {
        if symbol.is(b'\\') {
            run += 1;
        } else if symbol.is(b'#') {
            put_backslashes(&mut plain, run / 2)?;
            if run % 2 == 0 {
                return Ok(plain);
            }
            plain.push(b'#')?;
            run = 0;
        } else {
            put_backslashes(&mut plain, run)?;
            plain.push(text[place])?;
            run = 0;
        }
        place += 1;
    }
    put_backslashes(&mut plain, run)?;
    Ok(plain)
}

fn put_backslashes(text: &mut Vec<u8>, count: usize) -> Result<(), AllocError>
    ensures { IfOk result (λ _. text.new.items ≡ text.old.items ++ backslashes count) }
{
    for _place in 0..count {
        text.push(b'\\')?;
    }
    Ok(())
}
