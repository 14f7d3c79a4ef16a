//! The stem of a part.
//! Fast: a stem is a place of its node's name, and is looked for by suffixes only where a recipe asks for it. Spares
//! 16 bytes, and a text for each part.
ghost use Rattle.std.specs.Prelude.{◌≡◌, ◌<◌, ◌⊎◌, ◌++◌, drop, take, true, IfOk, IfSome, OnErr};
ghost use Rattle.kt_text.specs.Words.{Text};
ghost use Rattle.kt_rules.specs.views.Targets.{rule_view};
ghost use Rattle.kt_rules.specs.Suffixes.{suffixes_of};
ghost use Rattle.kt_graph.specs.inner.nodes.Stems.{Lies, own, stem_in};
ghost use Rattle.kt_graph.specs.nodes.Node.{stem_for, suffix_stem};

use kt_list::narrow;
use kt_rules::{Book, TargetRule};
use memchr::memmem::find;
use std::alloc::{AllocError, Global};
use std::boxed::Box;
use std::marker::Model;

/// The stem of a part, which is the value of `$*`. Few recipes name it, so the suffixes of a book are tried only where
/// it is asked for.
///
/// Nearly all stems lie in the name of the node, and are told by their place there. A contract sees a stem as what
/// gives it by the name: suffixes of which the name loses one, a place, or just its bytes.
#[derive(Drop)]
pub(crate) struct Stem<'a> {
    form: StemStorage<'a>,
}

#[derive(Drop)]
enum StemStorage<'a> {
    // The name without its suffix.
    Own(&'a Book),
    // From a place in the name on, so many bytes.
    Within(u32, u32),
    // In a vector that lies elsewhere, since few stems need one.
    Given(Box<Vec<u8>>),
}

impl<'a> Model for Stem<'a> {
    ghost use Rattle.kt_graph.specs.inner.nodes.Stems.{Stem, stem_held};

    ghost Value = { Stem };

    ghost view = { λ stem. stem_held stem.form };
}

impl<'a> Stem<'a> {
    /// The stem in the node of a target with this rule: that of its static pattern, if it has one.
    pub(crate) fn of_rule(
        alloc: Global,
        book: &'a Book,
        rule: TargetRule<'a>,
    ) -> Result<Stem<'a>, AllocError>
        ensures { IfOk result (λ stem. stem_in (rule_view rule.entry).1.name stem
            ≡ stem_for (suffixes_of book.now) (rule_view rule.entry)) }
    {
        match rule.target.stem() {
            Some(stem) => Stem::joined(alloc, rule.target.name, b"", stem),
            None => Ok(Stem::own(book)),
        }
    }

    /// The stem in a node without such a rule.
    pub(crate) fn own(book: &'a Book) -> Stem<'a>
        ensures { result ≡ own (suffixes_of book.now) }
    {
        Stem {
            form: StemStorage::Own(book),
        }
    }

    /// The two texts together, in the node of a name. Most stems have no directory before them.
    pub(crate) fn joined(
        alloc: Global,
        name: &[u8],
        front: &[u8],
        back: &[u8],
    ) -> Result<Stem<'a>, AllocError>
        ensures { IfOk result (λ stem. stem_in name.now stem ≡ front.now ++ back.now) }
    {
        match place_in(name, front, back) {
            Some(place) => Stem::within(place, front.len() + back.len()),
            None => Ok(Stem {
                form: StemStorage::Given(Box::new(alloc, appended(alloc, front, back)?)?),
            }),
        }
    }

    // Places beyond 4,294,967,295 are refused as if memory were.
    fn within(place: usize, len: usize) -> Result<Stem<'a>, AllocError>
        ensures lies { IfOk result (λ stem. (name : Text) → stem_in name stem ≡ take len (drop place name)) }
        ensures large { OnErr result ((4294967295 < place) ⊎ (4294967295 < len)) }
    {
        Ok(Stem {
            form: StemStorage::Within(narrow(place)?, narrow(len)?),
        })
    }

    /// The stem in the node of a name.
    pub(crate) fn of_node<'s>(&'s self, name: &'s [u8]) -> &'s [u8]
        ensures { result.now ≡ stem_in name.now self.now }
    {
        match &self.form {
            StemStorage::Own(book) => suffix_stem(book, name),
            StemStorage::Within(place, len) => up_to(after(name, *place as usize), *len as usize),
            StemStorage::Given(text) => text.as_slice(),
        }
    }
}

// What stands from a place on.
fn after(name: &[u8], place: usize) -> &[u8]
    ensures { result.now ≡ drop place name.now }
{
    &name[place.min(name.len())..]
}

// The first bytes, so many.
fn up_to(name: &[u8], len: usize) -> &[u8]
    ensures { result.now ≡ take len name.now }
{
    &name[..len.min(name.len())]
}

// A place in a name where the two texts lie together, if it is found: nothing is promised where it isn't.
fn place_in(name: &[u8], front: &[u8], back: &[u8]) -> Option<usize>
    ensures quick { IfSome result (Lies name.now front.now back.now) }
{
    if lie_at(name, 0, front, back) {
        return Some(0);
    }
    let place = find(name, back)?.checked_sub(front.len())?;
    if lie_at(name, place, front, back) {
        return Some(place);
    }
    None
}

// Whether they lie together at this place.
fn lie_at(name: &[u8], place: usize, front: &[u8], back: &[u8]) -> bool
    ensures quick { result ≡ true → Lies name.now front.now back.now place }
{
    let rest = after(name, place);
    if up_to(rest, front.len()) != front {
        return false;
    }
    up_to(after(rest, front.len()), back.len()) == back
}

fn appended(alloc: Global, front: &[u8], back: &[u8]) -> Result<Vec<u8>, AllocError>
    ensures { IfOk result (λ text. text.items ≡ front.now ++ back.now) }
{
    let mut text = Vec::from_slice(alloc, front)?;
    text.extend_from_slice(back)?;
    Ok(text)
}

// The name without the first of the suffixes that it ends with; without one there is no stem.
#[tactic(auto, unfolding(crate::specs::nodes::Node::suffix_stem))]
fn suffix_stem<'n>(book: &Book, name: &'n [u8]) -> &'n [u8]
    ensures { result.now ≡ suffix_stem (suffixes_of book.now) name.now }
{
    match book.suffix_of(name) {
        Some(suffix) => &name[..name.len().saturating_sub(suffix.len())],
        None => b"",
    }
}
