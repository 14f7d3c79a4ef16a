//! A list of words that is written one after another.
ghost use Rattle.std.specs.Prelude.{◌≡◌, ◌++◌, OnOk, Some};
ghost use Rattle.kt_text.specs.views.Functions.{Answers};
ghost use Rattle.kt_text.specs.views.Words.{put_word};

use crate::fault::TextFault;
use std::alloc::{AllocError, Global};

// A text of one's own.
pub(crate) fn copied(alloc: Global, text: &[u8]) -> Result<Vec<u8>, TextFault>
    ensures { Answers result (Some text.now) }
{
    Ok(Vec::from_slice(alloc, text)?)
}

// Adds the word, after a space where it isn't the first. An empty one adds nothing.
pub(crate) fn add_word(list: &mut Vec<u8>, word: &[u8]) -> Result<(), AllocError>
    ensures { OnOk result (list.new.items ≡ put_word list.old.items word.now) }
{
    if word.is_empty() {
        return Ok(());
    }
    if !list.is_empty() {
        list.push(b' ')?;
    }
    list.extend_from_slice(word)
}

// Adds the word that the parts make.
pub(crate) fn add_parts(
    list: &mut Vec<u8>,
    front: &[u8],
    middle: &[u8],
    back: &[u8],
) -> Result<(), AllocError>
    ensures { OnOk result (list.new.items ≡ put_word list.old.items (front.now ++ (middle.now ++ back.now))) }
{
    if front.is_empty() && middle.is_empty() && back.is_empty() {
        return Ok(());
    }
    if !list.is_empty() {
        list.push(b' ')?;
    }
    list.extend_from_slice(front)?;
    list.extend_from_slice(middle)?;
    list.extend_from_slice(back)
}
