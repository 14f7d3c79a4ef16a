//! Functions on file names.
ghost use Rattle.std.specs.Prelude.{◌≡◌, ◌≤◌, length, Some};
ghost use Rattle.kt_text.specs.views.Functions.{Answers};
ghost use Rattle.kt_text.specs.Functions.{dir_part, name_place, suffix_place, dir_of, notdir_of, suffix_of};
ghost use Rattle.kt_text.specs.Functions.{basename_of, addsuffix_of, addprefix_of};

use crate::cut::words;
use crate::fault::TextFault;
use crate::output::{add_parts, add_word};
use memchr::memrchr;
use std::alloc::Global;

/// `$(dir NAMES)`.
#[tactic(auto, using(crate::proofs::lemmas::ListLemmas::put_words_is), unfolding(crate::specs::Functions::dir_of))]
pub fn dir(alloc: Global, names: &[u8]) -> Result<Vec<u8>, TextFault>
    ensures { Answers result (Some (dir_of names.now)) }
{
    let mut directories = Vec::new(alloc);
    for word in words(names) {
        add_word(&mut directories, dir_part(word))?;
    }
    Ok(directories)
}

/// `$(notdir NAMES)`.
#[tactic(auto, using(crate::proofs::lemmas::ListLemmas::put_words_is), unfolding(crate::specs::Functions::notdir_of))]
pub fn notdir(alloc: Global, names: &[u8]) -> Result<Vec<u8>, TextFault>
    ensures { Answers result (Some (notdir_of names.now)) }
{
    let mut files = Vec::new(alloc);
    for word in words(names) {
        add_word(&mut files, &word[name_place(word)..])?;
    }
    Ok(files)
}

/// `$(suffix NAMES)`.
#[tactic(auto, using(crate::proofs::lemmas::ListLemmas::put_words_is), unfolding(crate::specs::Functions::suffix_of))]
pub fn suffix(alloc: Global, names: &[u8]) -> Result<Vec<u8>, TextFault>
    ensures { Answers result (Some (suffix_of names.now)) }
{
    let mut suffixes = Vec::new(alloc);
    for word in words(names) {
        add_word(&mut suffixes, &word[suffix_place(word)..])?;
    }
    Ok(suffixes)
}

/// `$(basename NAMES)`.
#[tactic(auto, using(crate::proofs::lemmas::ListLemmas::put_words_is), unfolding(crate::specs::Functions::basename_of))]
pub fn basename(alloc: Global, names: &[u8]) -> Result<Vec<u8>, TextFault>
    ensures { Answers result (Some (basename_of names.now)) }
{
    let mut bases = Vec::new(alloc);
    for word in words(names) {
        add_word(&mut bases, &word[..suffix_place(word)])?;
    }
    Ok(bases)
}

/// `$(addsuffix SUFFIX,NAMES)`.
#[tactic(auto, using(crate::proofs::lemmas::ListLemmas::put_words_is), unfolding(crate::specs::Functions::addsuffix_of))]
pub fn addsuffix(alloc: Global, suffix: &[u8], names: &[u8]) -> Result<Vec<u8>, TextFault>
    ensures { Answers result (Some (addsuffix_of suffix.now names.now)) }
{
    let mut suffixed = Vec::new(alloc);
    for word in words(names) {
        add_parts(&mut suffixed, word, suffix, b"")?;
    }
    Ok(suffixed)
}

/// `$(addprefix PREFIX,NAMES)`.
#[tactic(auto, using(crate::proofs::lemmas::ListLemmas::put_words_is), unfolding(crate::specs::Functions::addprefix_of))]
pub fn addprefix(alloc: Global, prefix: &[u8], names: &[u8]) -> Result<Vec<u8>, TextFault>
    ensures { Answers result (Some (addprefix_of prefix.now names.now)) }
{
    let mut prefixed = Vec::new(alloc);
    for word in words(names) {
        add_parts(&mut prefixed, prefix, word, b"")?;
    }
    Ok(prefixed)
}

// The name through its last slash.
fn dir_part(word: &[u8]) -> &[u8]
    ensures { result.now ≡ dir_part word.now }
{
    match name_place(word) {
        0 => b"./",
        place => &word[..place],
    }
}

// Where the part after the last slash begins.
#[tactic(auto, using(crate::proofs::lemmas::NameLemmas::name_places))]
fn name_place(word: &[u8]) -> usize
    ensures value { result ≡ name_place word.now }
    ensures bound { result ≤ length word.now }
{
    match memrchr(b'/', word) {
        Some(place) => place + 1,
        None => 0,
    }
}

// Where the last dot after the last slash stands, or the name's end.
#[tactic(auto, using(crate::proofs::lemmas::NameLemmas::name_places))]
fn suffix_place(word: &[u8]) -> usize
    ensures value { result ≡ suffix_place word.now }
    ensures bound { result ≤ length word.now }
{
    let place = name_place(word);
    match memrchr(b'.', &word[place..]) {
        Some(dot) => place + dot,
        None => word.len(),
    }
}
