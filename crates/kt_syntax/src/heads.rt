//! Rule lines cut into head and recipe.
ghost use Rattle.std.specs.Prelude.{◌≡◌, ◌≤◌, ◌<◌, ◌+◌, ◌==◌, ◌||◌, drop, length, option_map, take, true, IfSome};
ghost use Rattle.std.specs.Prelude.{MatchOption};
ghost use Rattle.std.specs.List.{position_or_len};
ghost use Rattle.kt_syntax.specs.Kinds.{comment_place};
ghost use Rattle.kt_syntax.specs.Heads.{after_colon, after_modifiers, colon_place, first_recipe, head_end, head_text};
ghost use Rattle.kt_syntax.specs.Heads.{is_modifier, is_target_specific, line_parts, parts_with, rule_texts};
ghost use Rattle.kt_syntax.specs.views.Lines.{texts_view};
ghost use Rattle.kt_syntax.specs.Mask.{mask_of};
ghost use Rattle.kt_syntax.specs.inner.Places.{first_symbols};

use crate::kind::{assignment, is_word};
use crate::line_text::LineText;
use crate::mask::Mask;
use crate::own::own_place;
use crate::places::{comment_place, is_blank, past_blanks, past_line_blanks};
use crate::symbol::Symbol;
use kt_text::has_byte;
use memchr::memchr3;
use thiserror::Error;

/// The parts of a rule line.
#[derive(Clone, Copy, Debug, PartialEq, Eq)]
pub struct RuleParts<'a> {
    /// What stands before the first `;`; without one, the whole line with its comment. In it
    /// continuations are condensed.
    pub head: &'a [u8],
    /// The first recipe line without its leading blanks, as it stands in the file; it keeps its `#`.
    pub recipe: Option<&'a [u8]>,
}

/// The line assigns a target-specific macro.
#[derive(Clone, Copy, Debug, PartialEq, Eq, Error)]
#[error("target-specific macro")]
pub struct TargetSpecific;

/// The head and the recipe of a rule line as it stands in its file.
///
/// Takes no memory. POSIX.1-2024 make, "Target Rules"; GNU make manual, "Target-specific Variable
/// Values".
#[tactic(auto, unfolding(crate::specs::Heads::rule_texts))]
pub fn rule_parts<'t>(line: &'t LineText<'_>) -> Result<RuleParts<'t>, TargetSpecific>
    ensures { texts_view result ≡ line_parts line.now }
{
    match line.own_text() {
        Some(text) => own_parts(text),
        None => condensed_parts(line.text(), first_recipe(line.line())),
    }
}

// Those of a line that is its own text. Most hold none of the bytes that cut a line.
fn own_parts(text: &[u8]) -> Result<RuleParts<'_>, TargetSpecific>
    ensures { texts_view result ≡ rule_texts text.now text.now }
{
    match memchr3(b'#', b';', b'=', text) {
        None => Ok(RuleParts {
            head: text,
            recipe: None,
        }),
        Some(_) => own_parts_by_signs(text),
    }
}

// As `own_parts`, by the places of the bytes that cut a line.
fn own_parts_by_signs(text: &[u8]) -> Result<RuleParts<'_>, TargetSpecific>
    ensures { texts_view result ≡ rule_texts text.now text.now }
{
    let comment = comment_place(text);
    let end = head_end(text, comment);
    let recipe = recipe_at(text, comment, end);
    parts_at(text, comment, end, recipe)
}

// Those of a line with this text and recipe.
fn condensed_parts<'t>(
    text: &'t [u8],
    recipe: Option<&'t [u8]>,
) -> Result<RuleParts<'t>, TargetSpecific>
    ensures { texts_view result ≡ parts_with text.now (option_map (λ found. found.now) recipe.entry) }
{
    let comment = comment_place(text);
    let end = head_end(text, comment);
    parts_at(text, comment, end, recipe)
}

// As `condensed_parts`, where the head ends at a place.
#[tactic(auto, using(crate::proofs::lemmas::HeadLemmas::texts_none, crate::proofs::lemmas::HeadLemmas::texts_some))]
fn parts_at<'t>(
    text: &'t [u8],
    comment: usize,
    end: usize,
    recipe: Option<&'t [u8]>,
) -> Result<RuleParts<'t>, TargetSpecific>
    requires before { comment ≡ comment_place text.now }
    requires end { end ≡ head_end text.now }
    requires within { end ≤ length text.now }
    ensures { texts_view result ≡ parts_with text.now (option_map (λ found. found.now) recipe.entry) }
{
    if is_target_specific(text, end) {
        return Err(TargetSpecific);
    }
    Ok(RuleParts {
        head: head_text(text, comment, end),
        recipe,
    })
}

// The head that ends at a place.
#[tactic(auto, unfolding(crate::specs::Heads::head_text))]
fn head_text(text: &[u8], comment: usize, end: usize) -> &[u8]
    requires before { comment ≡ comment_place text.now }
    requires end { end ≡ head_end text.now }
    requires within { end ≤ length text.now }
    ensures { result.now ≡ head_text text.now }
{
    if end == comment {
        return text;
    }
    &text[..end]
}

// The recipe after the first semicolon of a line.
#[tactic(auto, unfolding(crate::specs::Heads::first_recipe))]
fn first_recipe(line: &[u8]) -> Option<&[u8]>
    ensures { option_map (λ recipe. recipe.now) result ≡ first_recipe line.now }
{
    let comment = comment_place(line);
    let end = head_end(line, comment);
    recipe_at(line, comment, end)
}

// As `first_recipe`, where the head ends at a place.
#[tactic(auto, using(crate::proofs::lemmas::HeadLemmas::recipe_none, crate::proofs::lemmas::HeadLemmas::recipe_some))]
fn recipe_at(line: &[u8], comment: usize, end: usize) -> Option<&[u8]>
    requires before { comment ≡ comment_place line.now }
    requires end { end ≡ head_end line.now }
    requires order { end ≤ comment }
    requires within { comment ≤ length line.now }
    ensures { option_map (λ recipe. recipe.now) result ≡ first_recipe line.now }
{
    if end == comment {
        return None;
    }
    let recipe = past_line_blanks(line, end + 1);
    Some(&line[recipe..])
}

// Where the head of a rule line ends.
#[tactic(auto, using(crate::proofs::lemmas::SymbolLemmas::no_semicolon, crate::proofs::lemmas::SymbolLemmas::not_there))]
fn head_end(text: &[u8], comment: usize) -> usize
    requires before { comment ≡ comment_place text.now }
    requires within { comment ≤ length text.now }
    ensures value { result ≡ head_end text.now }
    ensures bound { result ≤ comment }
{
    if has_byte(text, b';') {
        return semicolon_place(text, comment);
    }
    comment
}

// As `head_end`, for a line with a semicolon, which may stand in a reference or in the comment.
#[tactic(auto, unfolding(crate::specs::Heads::head_end))]
fn semicolon_place(text: &[u8], comment: usize) -> usize
    requires before { comment ≡ comment_place text.now }
    requires within { comment ≤ length text.now }
    ensures value { result ≡ head_end text.now }
    ensures bound { result ≤ comment }
{
    match own_place(text, b';', comment) {
        Some(place) => place,
        None => masked_semicolon(text, comment),
    }
}

// As `head_end`, by the symbols of the line.
#[tactic(auto, unfolding(crate::specs::Heads::head_end))]
fn masked_semicolon(text: &[u8], comment: usize) -> usize
    requires before { comment ≡ comment_place text.now }
    requires within { comment ≤ length text.now }
    ensures value { result ≡ head_end text.now }
    ensures bound { result ≤ comment }
{
    let mut place = 0;
    for symbol in Mask::between(text, 0, comment) {
        if symbol.is(b';') {
            return place;
        }
        place += 1;
    }
    place
}

// Whether the head of a line, up to a place, assigns a target-specific macro. Each operator ends in an equals sign.
fn is_target_specific(text: &[u8], end: usize) -> bool
    requires { end ≤ length text.now }
    ensures { result ≡ is_target_specific text.now (first_symbols end text.now) }
{
    if has_byte(text, b'=') {
        return assigns_after_colon(text, end);
    }
    false
}

// As `is_target_specific`, for a line with an equals sign.
#[tactic(auto, unfolding(crate::specs::Heads::is_target_specific))]
fn assigns_after_colon(text: &[u8], end: usize) -> bool
    requires { end ≤ length text.now }
    ensures { result ≡ is_target_specific text.now (first_symbols end text.now) }
{
    match colon_place(text, end) {
        None => false,
        Some(colon) => {
            let from = after_modifiers(text, after_colon(text, colon, end), end);
            assignment(text, past_blanks(text, from, end), end).is_some()
        }
    }
}

// Where the first colon stands that has no backslash before it.
#[tactic(auto, unfolding(crate::specs::Heads::colon_place))]
fn colon_place(text: &[u8], end: usize) -> Option<usize>
    requires { end ≤ length text.now }
    ensures value { result ≡ colon_place 0 0 (first_symbols end text.now) }
    ensures bound { IfSome result (λ place. place < end) }
{
    let mut place = 0;
    let mut previous = Symbol::of(0);
    for symbol in Mask::between(text, 0, end) {
        if symbol.is(b':') && !previous.is(b'\\') {
            return Some(place);
        }
        previous = symbol;
        place += 1;
    }
    None
}

// Where the text after a colon, or after two of them, begins.
fn after_colon(text: &[u8], colon: usize, end: usize) -> usize
    requires order { colon < end }
    requires within { end ≤ length text.now }
    ensures value { result ≡ after_colon (first_symbols end text.now) colon }
    ensures bound { result ≤ end }
{
    match Mask::between(text, colon + 1, end).next() {
        Some(symbol) if symbol.is(b':') => colon + 2,
        _ => colon + 1,
    }
}

// The place after the words that may stand before a target-specific macro, each ended by a blank.
fn after_modifiers(text: &[u8], from: usize, end: usize) -> usize
    requires order { from ≤ end }
    requires within { end ≤ length text.now }
    ensures value { result ≡ after_modifiers end text.now (first_symbols end text.now) from }
    ensures bound { result ≤ end }
{
    let mut found = from;
    let mut begin = from;
    let mut place = from;
    for symbol in Mask::between(text, from, end) {
        if is_blank(&symbol) {
            if begin < place && !is_modifier(&text[begin..place]) {
                return found;
            }
            if begin < place {
                found = place;
            }
            begin = place + 1;
        }
        place += 1;
    }
    found
}

#[tactic(auto, unfolding(crate::specs::Heads::is_modifier))]
fn is_modifier(word: &[u8]) -> bool
    ensures { result ≡ is_modifier word.now }
{
    is_word(word, b"override") || is_word(word, b"export") || is_word(word, b"private")
}
