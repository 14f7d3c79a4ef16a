//! Paths and values as a Ninja file spells them.
//! Fast: a path or a value is read where it lies in the file. Spares a copy of each.
ghost use Rattle.std.specs.Prelude.{◌≡◌, ◌≤◌, ◌<◌, ◌++◌, ◌∷◌, [], false, true, is_some, length, map, IfNone, IfOk};
ghost use Rattle.std.specs.Prelude.{MatchOption, None, OnOk, Some};
ghost use Rattle.std.specs.List.{list_any, prefix_len};
ghost use Rattle.memchr.specs.Find.{is_byte2};
ghost use Rattle.kt_ninja_reader.specs.Forms.{begins_with_at, is_plain_byte, name_bytes, without_lead};
ghost use Rattle.kt_ninja_reader.specs.Pieces.{Plain, after_dollar, in_braces, is_escapable, is_long_name_byte};
ghost use Rattle.kt_ninja_reader.specs.Pieces.{is_short_name_byte, pieces, pieces_from};
ghost use Rattle.kt_ninja_reader.specs.inner.Spelled.{is_spelled, pieces_in};
ghost use Rattle.kt_ninja.specs.Writable.{is_empty};
ghost use Rattle.kt_ninja_reader.specs.inner.Cutting.{AreSides, CutsOff, CutsShort, dollar_piece, dollar_pieces};
ghost use Rattle.kt_ninja_reader.specs.inner.Cutting.{is_own_byte, stops_at, variable_names};
ghost use Rattle.kt_ninja_reader.specs.views.Spellings.{name_goes_on};

use crate::bytes::first_byte;
use crate::joined::without_indent;
use memchr::memchr2;
use std::alloc::{AllocError, Global};
use std::marker::Model;

/// A path or a value as it is spelled: each of its dollars begins an escape or a variable (Ninja manual, "Lexical
/// syntax").
///
/// Contracts see its pieces. It is read where it lies in the file, so that none of its bytes is copied.
#[derive(Drop)]
pub(crate) struct Spelling<'t> {
    text: &'t [u8],
}

impl<'t> Model for Spelling<'t> {
    ghost use Rattle.std.specs.Prelude.{◌≡◌, List, true};
    ghost use Rattle.kt_ninja_reader.specs.Pieces.{Piece};
    ghost use Rattle.kt_ninja_reader.specs.inner.Spelled.{is_spelled, pieces_in};

    ghost Value = { List Piece };

    ghost view = { λ spelling. pieces_in spelling.text.now };

    ghost invariant = { λ spelling. is_spelled spelling.text.now ≡ true };
}

/// What a dollar begins.
#[derive(Drop)]
pub(crate) enum Dollar<'t> {
    /// A byte that stands for itself.
    Byte(u8),
    /// The variable of this name.
    Variable(&'t [u8]),
}

// What a dollar begins, and what stands after it.
#[derive(Drop)]
struct DollarCut<'t> {
    dollar: Dollar<'t>,
    after: &'t [u8],
}

/// The plain bytes that a spelling begins with, what its first dollar begins, if it has one, and what follows.
#[derive(Drop)]
pub(crate) struct Run<'t> {
    pub(crate) plain: &'t [u8],
    pub(crate) dollar: Option<Dollar<'t>>,
    pub(crate) after: Spelling<'t>,
}

fn is_short_name_byte(byte: u8) -> bool
    ensures { result ≡ is_short_name_byte byte }
{
    byte.is_ascii_alphanumeric() || byte == b'_' || byte == b'-'
}

fn is_long_name_byte(byte: u8) -> bool
    ensures { result ≡ is_long_name_byte byte }
{
    is_short_name_byte(byte) || byte == b'.'
}

fn is_escapable(byte: u8) -> bool
    ensures { result ≡ is_escapable byte }
{
    byte == b'$' || byte == b' ' || byte == b':'
}

fn long_name_length(text: &[u8]) -> usize
    ensures value { result ≡ prefix_len is_long_name_byte text.now }
    ensures bound { result ≤ length text.now }
{
    text.iter()
        .take_while(|byte| is_long_name_byte(**byte))
        .count()
}

fn short_name_length(text: &[u8]) -> usize
    ensures value { result ≡ prefix_len is_short_name_byte text.now }
    ensures bound { result ≤ length text.now }
{
    text.iter()
        .take_while(|byte| is_short_name_byte(**byte))
        .count()
}

// A variable whose name stands in braces, of which the first is cut off.
#[tactic(auto, using(crate::proofs::lemmas::PieceLemmas::brace_end))]
fn variable_in_braces(text: &[u8]) -> Option<DollarCut<'_>>
    ensures { MatchOption result (pieces_from (in_braces []) text.now ≡ None) (CutsOff (in_braces []) text.now) }
{
    let length = long_name_length(text);
    if length == 0 {
        return None;
    }
    let (name, after) = text.split_at(length);
    let (byte, after) = first_byte(after)?;
    if byte != b'}' {
        return None;
    }
    Some(DollarCut {
        dollar: Dollar::Variable(name),
        after,
    })
}

// A variable without braces.
fn short_variable(text: &[u8]) -> Option<DollarCut<'_>>
    ensures { MatchOption result (name_goes_on text.now ≡ false) (CutsShort text.now) }
{
    let length = short_name_length(text);
    if length == 0 {
        return None;
    }
    let (name, after) = text.split_at(length);
    Some(DollarCut {
        dollar: Dollar::Variable(name),
        after,
    })
}

// What a dollar begins that stands before the text.
fn escape(text: &[u8]) -> Option<DollarCut<'_>>
    ensures { MatchOption result (pieces_from after_dollar text.now ≡ None) (CutsOff after_dollar text.now) }
{
    let (byte, after) = first_byte(text)?;
    if is_escapable(byte) {
        return Some(DollarCut {
            dollar: Dollar::Byte(byte),
            after,
        });
    }
    if byte == b'{' {
        variable_in_braces(after)
    } else {
        short_variable(text)
    }
}

// The bytes before the first dollar or mark, and what stands from there.
#[tactic(auto, using(crate::proofs::lemmas::SpelledLemmas::place_found, crate::proofs::lemmas::SpelledLemmas::before_free))]
fn cut_run(mark: u8, text: &[u8]) -> (&[u8], &[u8])
    ensures whole { text.now ≡ result.0.now ++ result.1.now }
    ensures free { list_any (is_byte2 36 mark) result.0.now ≡ false }
    ensures stop { stops_at (is_byte2 36 mark) result.1.now }
{
    let place = memchr2(b'$', mark, text).unwrap_or(text.len());
    text.split_at(place)
}

// Whether each dollar of the text begins an escape or a variable.
#[tactic(auto, using(crate::proofs::lemmas::SpelledLemmas::spelled_end, crate::proofs::lemmas::SpelledLemmas::spelled_none))]
fn is_spelled(text: &[u8]) -> bool
    ensures { result ≡ is_spelled text.now }
{
    let mut rest = text;
    loop {
        let (_, stop) = cut_run(b'$', rest);
        let Some((_, after)) = first_byte(stop) else {
            return true;
        };
        let Some(cut) = escape(after) else {
            return false;
        };
        rest = cut.after;
    }
}

// What stands before the first such byte that no dollar escapes, and what stands after it.
fn sides(mark: u8, text: &[u8]) -> Option<(&[u8], &[u8])>
    requires mark { is_own_byte mark ≡ true }
    requires spelled { is_spelled text.now ≡ true }
    ensures { MatchOption result (list_any (is_plain_byte mark) (pieces_in text.now) ≡ false)
        (λ sides. AreSides mark text.now sides.0.now sides.1.now) }
{
    let mut rest = text;
    loop {
        let (_, stop) = cut_run(mark, rest);
        let (byte, after) = first_byte(stop)?;
        if byte == mark {
            let (front, _) = text.split_at(text.len() - stop.len());
            return Some((front, after));
        }
        let (_, later) = first_byte(after)?;
        rest = later;
    }
}

impl<'t> Spelling<'t> {
    /// The text as a spelling, if it is one.
    pub(crate) fn of(text: &'t [u8]) -> Option<Spelling<'t>>
        ensures { MatchOption result (pieces text.now ≡ None) (λ spelling. pieces text.now ≡ Some spelling) }
    {
        if is_spelled(text) {
            Some(Spelling { text })
        } else {
            None
        }
    }

    /// The spelling of nothing.
    pub(crate) fn empty() -> Spelling<'t>
        ensures { result ≡ [] }
    {
        Spelling { text: b"" }
    }

    /// This spelling once more.
    pub(crate) fn copy(&self) -> Spelling<'t>
        ensures { result ≡ self.now }
    {
        Spelling { text: self.text }
    }

    pub(crate) fn is_empty(&self) -> bool
        ensures { result ≡ is_empty self.now }
    {
        self.text.is_empty()
    }

    /// The plain bytes up to the first dollar, and what that begins.
    pub(crate) fn run(&self) -> Run<'t>
        ensures whole { self.now ≡ map Plain result.plain.now ++ (dollar_pieces result.dollar ++ result.after) }
        ensures end { IfNone result.dollar (result.after ≡ []) }
    {
        let (plain, stop) = cut_run(b'$', self.text);
        match next(stop) {
            Some(cut) => Run {
                plain,
                dollar: Some(cut.dollar),
                after: Spelling { text: cut.after },
            },
            None => Run {
                plain,
                dollar: None,
                after: Spelling { text: stop },
            },
        }
    }

    /// What stands before the first such byte that no dollar escapes, and what stands after it.
    pub(crate) fn split(&self, mark: u8) -> Option<(Spelling<'t>, Spelling<'t>)>
        requires { is_own_byte mark ≡ true }
        ensures cut { MatchOption result (list_any (is_plain_byte mark) self.now ≡ false)
            (λ sides. (self.now ≡ sides.0 ++ Plain mark ∷ sides.1) × (list_any (is_plain_byte mark) sides.0 ≡ false)) }
    {
        let (front, after) = sides(mark, self.text)?;
        Some((Spelling { text: front }, Spelling { text: after }))
    }

    /// The name that it spells, without a dollar.
    #[tactic(auto, using(crate::proofs::lemmas::SpelledParts::name_all, crate::proofs::lemmas::SpelledParts::name_not))]
    pub(crate) fn name(&self) -> Option<&'t [u8]>
        ensures { MatchOption result (name_bytes self.now ≡ None) (λ name. name_bytes self.now ≡ Some name.now) }
    {
        if long_name_length(self.text) == self.text.len() {
            Some(self.text)
        } else {
            None
        }
    }

    pub(crate) fn begins_with_at(&self) -> bool
        ensures { result ≡ begins_with_at self.now }
    {
        match first_byte(self.text) {
            Some((byte, _)) => byte == b'@',
            None => false,
        }
    }

    /// All but the plain spaces that it begins with.
    pub(crate) fn without_lead(&self) -> Spelling<'t>
        ensures { result ≡ without_lead self.now }
    {
        Spelling {
            text: without_indent(self.text),
        }
    }

    /// The names of its variables.
    pub(crate) fn variables(&self, alloc: Global) -> Result<Vec<&'t [u8]>, AllocError>
        ensures { IfOk result (λ names. map (λ name. name.now) names.items ≡ variable_names self.now) }
    {
        let mut names = Vec::new(alloc);
        let mut rest = self.copy();
        loop {
            let run = rest.run();
            let Some(dollar) = run.dollar else {
                return Ok(names);
            };
            add_variable(&mut names, dollar)?;
            rest = run.after;
        }
    }
}

// What the dollar begins at which a run has stopped; none at the end.
fn next(stop: &[u8]) -> Option<DollarCut<'_>>
    requires spelled { is_spelled stop.now ≡ true }
    requires stop { stops_at (is_byte2 36 36) stop.now }
    ensures { MatchOption result (stop.now ≡ []) (λ cut. (is_spelled cut.after.now ≡ true)
        × (pieces_in stop.now ≡ dollar_piece cut.dollar ∷ pieces_in cut.after.now)) }
{
    let (_, after) = first_byte(stop)?;
    escape(after)
}

// Adds the name, if it is a variable.
fn add_variable<'t>(names: &mut Vec<&'t [u8]>, dollar: Dollar<'t>) -> Result<(), AllocError>
    ensures { OnOk result (map (λ name. name.now) names.new.items
        ≡ map (λ name. name.now) names.old.items ++ variable_names (dollar_piece dollar.entry ∷ [])) }
{
    if let Dollar::Variable(name) = dollar {
        names.push(name)?;
    }
    Ok(())
}
