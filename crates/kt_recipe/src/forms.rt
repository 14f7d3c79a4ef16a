//! Names as automatic macros list them.
ghost use Rattle.std.specs.Prelude.{◌≡◌, ◌≤◌, ◌∷◌, [], IfOk, OnOk, length, map};
ghost use Rattle.std.specs.List.{join_with_byte};
ghost use Rattle.kt_text.specs.Functions.{name_part, name_place};
ghost use Rattle.kt_text.specs.Words.{list_text};
ghost use Rattle.kt_text.specs.views.Words.{put_word};
ghost use Rattle.kt_recipe.specs.Forms.{directory_of, names_text_in};

use memchr::memrchr;
use std::alloc::{AllocError, Global};

/// Which part of each name an automatic macro lists (GNU make manual, "Automatic Variables").
#[derive(Clone, Copy)]
pub(crate) enum NamePart {
    Whole,
    /// With a `D` after the mark: the part before the last slash.
    Directory,
    /// With an `F` after the mark: the part after the last slash.
    File,
}

/// The names in this form, joined by spaces.
#[tactic(auto, unfolding(crate::specs::Forms::names_text_in))]
pub(crate) fn text(alloc: Global, form: NamePart, names: &[&[u8]]) -> Result<Vec<u8>, AllocError>
    ensures { IfOk result (λ text. text.items ≡ names_text_in form (map (λ name. name.now) names.now)) }
{
    match form {
        NamePart::Whole => whole(alloc, names),
        NamePart::Directory => directories(alloc, names),
        NamePart::File => files(alloc, names),
    }
}

/// One name in this form, borrowed.
#[tactic(auto, using(crate::proofs::FormLemmas::list_of_one), unfolding(crate::specs::Forms::names_text_in))]
pub(crate) fn alone(form: NamePart, name: &[u8]) -> &[u8]
    ensures { result.now ≡ names_text_in form (name.now ∷ []) }
{
    match form {
        NamePart::Whole => name,
        NamePart::Directory => directory(name),
        NamePart::File => file(name),
    }
}

fn whole(alloc: Global, names: &[&[u8]]) -> Result<Vec<u8>, AllocError>
    ensures { IfOk result (λ text. text.items ≡ join_with_byte 32 (map (λ name. name.now) names.now)) }
{
    let mut text = Vec::new(alloc);
    let Some((first, others)) = names.split_first() else {
        return Ok(text);
    };
    text.extend_from_slice(*first)?;
    for name in others {
        text.push(b' ')?;
        text.extend_from_slice(*name)?;
    }
    Ok(text)
}

#[tactic(auto, using(kt_text::proofs::lemmas::ListLemmas::put_words_is))]
fn directories(alloc: Global, names: &[&[u8]]) -> Result<Vec<u8>, AllocError>
    ensures { IfOk result (λ text. text.items ≡ list_text (map directory_of (map (λ name. name.now) names.now))) }
{
    let mut text = Vec::new(alloc);
    for name in names {
        add_word(&mut text, directory(*name))?;
    }
    Ok(text)
}

#[tactic(auto, using(kt_text::proofs::lemmas::ListLemmas::put_words_is))]
fn files(alloc: Global, names: &[&[u8]]) -> Result<Vec<u8>, AllocError>
    ensures { IfOk result (λ text. text.items ≡ list_text (map name_part (map (λ name. name.now) names.now))) }
{
    let mut text = Vec::new(alloc);
    for name in names {
        add_word(&mut text, file(*name))?;
    }
    Ok(text)
}

// Adds a word, after a space unless it is the first. An empty word adds nothing.
fn add_word(list: &mut Vec<u8>, word: &[u8]) -> Result<(), AllocError>
    ensures { OnOk result (list.new.items ≡ put_word list.old.items word.now) }
{
    if word.is_empty() {
        return Ok(());
    }
    if !list.is_empty() {
        list.push(b' ')?;
    }
    list.extend_from_slice(word)?;
    Ok(())
}

fn directory(name: &[u8]) -> &[u8]
    ensures { result.now ≡ directory_of name.now }
{
    match name_place(name) {
        0 => b".",
        1 => b"/",
        place => &name[..place - 1],
    }
}

fn file(name: &[u8]) -> &[u8]
    ensures { result.now ≡ name_part name.now }
{
    &name[name_place(name)..]
}

// Where the part after the last slash begins.
#[tactic(auto, using(kt_text::proofs::lemmas::NameLemmas::name_places))]
fn name_place(name: &[u8]) -> usize
    ensures value { result ≡ name_place name.now }
    ensures bound { result ≤ length name.now }
{
    match memrchr(b'/', name) {
        Some(place) => place + 1,
        None => 0,
    }
}
