//! Lines told apart.
//! Fast: a line that begins with its comment is told by that byte. Spares a walk over the line.
//! Fast: a line without an equals sign isn't looked through for an assignment. Spares a look at each of its symbols.
ghost use Rattle.std.specs.Prelude.{◌≡◌, ◌≤◌, ◌+◌, drop, false, length, take, true, is_some, IfSome, option_map};
ghost use Rattle.std.specs.Prelude.{MatchOption};
ghost use Rattle.std.specs.Str.{bytes_eq};
ghost use Rattle.kt_syntax.specs.Kinds.{assignment_parts, blank, block_word, directive_of, ends_name, include_word};
ghost use Rattle.kt_syntax.specs.Kinds.{form_of, is_refused_word, kind_by_word, name_end, operator_of};
ghost use Rattle.kt_syntax.specs.views.Lines.{line_form_view, begins_comment};
ghost use Rattle.kt_syntax.specs.Kinds.{line_form, worded};
ghost use Rattle.kt_syntax.specs.inner.Leading.{may_be_word};
ghost use Rattle.kt_syntax.specs.Mask.{mask_of};
ghost use Rattle.kt_syntax.specs.inner.Places.{ArePartsAt, IsBetween, StandsWithin, first_symbols};

use crate::form::{Directive, Form, Operator};
use crate::front::leading_form;
use crate::leading::leading_directive;
use crate::line_text::LineText;
use crate::mask::Mask;
use crate::own::past_own_name;
use crate::places::{comment_place, is_blank, past_blanks, past_line_blanks, past_word};
use crate::symbol::Symbol;
use kt_text::has_byte;

/// The kind of a line as it stands in its file: that of its text, in which a continuation counts as a blank. `tab` says
/// whether the line begins with a tab.
///
/// Takes no memory. POSIX.1-2024 make, "Makefile Syntax"; GNU make manual, "What Makefiles Contain"
/// and "Splitting Long Lines".
pub fn classify<'t>(line: &'t LineText<'_>, tab: bool) -> Form<'t>
    ensures { line_form_view result ≡ line_form line.now tab }
{
    classify_text(line.text(), tab)
}

/// The kind of a text whose continuations are condensed, as that of a line is.
#[tactic(auto, using(crate::proofs::lemmas::BlankLemmas::comment_is_blank))]
pub fn classify_text(text: &[u8], tab: bool) -> Form<'_>
    ensures { line_form_view result ≡ form_of text.now tab }
{
    if begins_comment(text) {
        return Form::Blank;
    }
    match leading_directive(text) {
        Some((word, rest)) if !tab => Form::Directive(word, rest),
        _ => other_kind(text, tab),
    }
}

/// Whether a line is empty or begins with its comment, before which not even a blank stands: such a line is blank.
///
/// Few other lines are, and it takes one look. GNU make manual, "What Makefiles Contain".
#[tactic(auto, using(crate::proofs::lemmas::BlankLemmas::comment_line))]
pub fn begins_comment(line: &[u8]) -> bool
    ensures value { result ≡ begins_comment line.now }
    ensures kind { result ≡ true → line_form line.now false ≡ blank }
{
    matches!(line, [] | [b'#', ..])
}

// As `classify_text`, where the line's begin doesn't tell that it is a directive of blocks.
fn other_kind(text: &[u8], tab: bool) -> Form<'_>
    ensures { line_form_view result ≡ form_of text.now tab }
{
    match leading_form(text, tab) {
        Some(form) => form,
        None => walked_kind(text, tab),
    }
}

// As `classify_text`, by a look at the whole line.
#[tactic(auto, unfolding(crate::specs::Kinds::form_of, crate::specs::Kinds::kind_within))]
fn walked_kind(text: &[u8], tab: bool) -> Form<'_>
    ensures { line_form_view result ≡ form_of text.now tab }
{
    let end = comment_place(text);
    let begin = past_blanks(text, 0, end);
    if begin == end {
        return Form::Blank;
    }
    match assignment(text, begin, end) {
        Some(parts) => Form::Assignment(
            &text[begin..parts.name],
            parts.operator,
            &text[parts.value..],
        ),
        None => worded(text, begin, end, tab),
    }
}

// The places of an assignment's parts: where its name ends, and where its value begins.
#[derive(Clone, Copy, Debug, PartialEq, Eq)]
pub(crate) struct Parts {
    pub name: usize,
    pub operator: Operator,
    pub value: usize,
}

// The parts of the assignment whose name begins at a place. Each operator ends in an equals sign.
#[tactic(auto, using(crate::proofs::lemmas::Unsigned::no_assignment))]
pub(crate) fn assignment(text: &[u8], begin: usize, end: usize) -> Option<Parts>
    requires order { begin ≤ end }
    requires within { end ≤ length text.now }
    ensures value { ArePartsAt begin end text.now result }
    ensures bounds { IfSome result (StandsWithin begin text.now) }
{
    if has_byte(text, b'=') {
        return signed_assignment(text, begin, end);
    }
    None
}

// As `assignment`, for a line with an equals sign.
#[tactic(auto, unfolding(crate::specs::Kinds::assignment_parts))]
fn signed_assignment(text: &[u8], begin: usize, end: usize) -> Option<Parts>
    requires order { begin ≤ end }
    requires within { end ≤ length text.now }
    ensures value { ArePartsAt begin end text.now result }
    ensures bounds { IfSome result (StandsWithin begin text.now) }
{
    let name = name_end(text, begin, end)?;
    let place = past_blanks(text, name, end);
    let (operator, size) = operator_of(&text[place..])?;
    Some(Parts {
        name,
        operator,
        value: past_line_blanks(text, place + size),
    })
}

// Where the name of an assignment ends, if an operator may follow it.
fn name_end(text: &[u8], begin: usize, end: usize) -> Option<usize>
    requires order { begin ≤ end }
    requires within { end ≤ length text.now }
    ensures value { result ≡ name_end begin (drop begin (first_symbols end text.now)) (drop begin text.now) }
    ensures bounds { IfSome result (IsBetween begin end) }
{
    masked_name_end(text, past_own_name(text, begin, end), end)
}

// As `name_end`, by the symbols of the line.
#[tactic(auto, unfolding(crate::specs::Kinds::name_end))]
fn masked_name_end(text: &[u8], begin: usize, end: usize) -> Option<usize>
    requires order { begin ≤ end }
    requires within { end ≤ length text.now }
    ensures value { result ≡ name_end begin (drop begin (first_symbols end text.now)) (drop begin text.now) }
    ensures bounds { IfSome result (IsBetween begin end) }
{
    let mut place = begin;
    for symbol in Mask::between(text, begin, end) {
        if ends_name(&symbol, &text[place..]) {
            return Some(place);
        }
        if symbol.is(b':') {
            return None;
        }
        place += 1;
    }
    Some(place)
}

// Whether the name of an assignment ends at this symbol.
fn ends_name(symbol: &Symbol, text: &[u8]) -> bool
    ensures { result ≡ ends_name symbol.now text.now }
{
    is_blank(symbol)
        || !symbol.is_inside() && may_begin_operator(text) && operator_of(text).is_some()
}

// Whether the first byte is one that operators begin with: few are, and the test is a quick one.
#[tactic(auto, unfolding(crate::specs::Kinds::operator_of))]
fn may_begin_operator(text: &[u8]) -> bool
    ensures quick { is_some (operator_of text.now) ≡ true → result ≡ true }
{
    matches!(text, [b'=' | b':' | b'?' | b'+' | b'!', ..])
}

// The operator that a text begins with, and its length.
#[tactic(auto, unfolding(crate::specs::Kinds::operator_of))]
pub(crate) fn operator_of(text: &[u8]) -> Option<(Operator, usize)>
    ensures value { result ≡ operator_of text.now }
    ensures bounds { IfSome result (λ found. found.1 ≤ length text.now) }
{
    match text {
        [b'=', ..] => Some((Operator::Deferred, 1)),
        [b':', b'=', ..] => Some((Operator::Immediate, 2)),
        [b':', b':', b'=', ..] => Some((Operator::Immediate, 3)),
        [b':', b':', b':', b'=', ..] => Some((Operator::Escaped, 4)),
        [b'?', b'=', ..] => Some((Operator::Conditional, 2)),
        [b'+', b'=', ..] => Some((Operator::Append, 2)),
        [b'!', b'=', ..] => Some((Operator::Shell, 2)),
        _ => None,
    }
}

// The kind of a line by its first word.
#[tactic(auto, using(crate::proofs::lemmas::Kinding::worded_by), unfolding(crate::specs::Kinds::worded))]
fn worded(text: &[u8], begin: usize, end: usize, tab: bool) -> Form<'_>
    requires order { begin ≤ end }
    requires within { end ≤ length text.now }
    ensures { line_form_view result ≡ worded tab text.now (first_symbols end text.now) begin }
{
    let after = past_word(text, begin, end);
    let rest = past_line_blanks(text, after);
    form_by_word(tab, &text[begin..after], &text[rest..])
}

// As `worded`, by the first word and the text after it.
#[tactic(auto, using(crate::proofs::lemmas::LeadingForms::no_word))]
pub(crate) fn form_by_word<'a>(tab: bool, word: &'a [u8], rest: &'a [u8]) -> Form<'a>
    ensures { line_form_view result ≡ kind_by_word (directive_of tab word.now) word.now rest.now }
{
    if !may_be_word(word) {
        return Form::Rule;
    }
    match directive_of(tab, word) {
        Some(directive) => Form::Directive(directive, rest),
        None if is_refused_word(word) => Form::Refused(word),
        None => Form::Rule,
    }
}

// Whether a word begins as one of those does that count: few do, and the test is a quick one.
fn may_be_word(word: &[u8]) -> bool
    ensures { result ≡ may_be_word word.now }
{
    match word {
        [first, ..] => matches!(
            *first,
            b'-' | b'd' | b'e' | b'i' | b'l' | b'o' | b'p' | b's' | b'u' | b'v'
        ),
        [] => false,
    }
}

#[tactic(auto, unfolding(crate::specs::Kinds::directive_of))]
fn directive_of(tab: bool, word: &[u8]) -> Option<Directive>
    ensures { result ≡ directive_of tab word.now }
{
    if tab {
        return include_word(word);
    }
    match block_word(word) {
        Some(directive) => Some(directive),
        None => include_word(word),
    }
}

#[tactic(auto, unfolding(crate::specs::Kinds::block_word))]
pub(crate) fn block_word(word: &[u8]) -> Option<Directive>
    ensures { result ≡ block_word word.now }
{
    if is_word(word, b"ifdef") {
        Some(Directive::Ifdef)
    } else if is_word(word, b"ifndef") {
        Some(Directive::Ifndef)
    } else if is_word(word, b"ifeq") {
        Some(Directive::Ifeq)
    } else if is_word(word, b"ifneq") {
        Some(Directive::Ifneq)
    } else if is_word(word, b"else") {
        Some(Directive::Else)
    } else if is_word(word, b"endif") {
        Some(Directive::Endif)
    } else if is_word(word, b"define") {
        Some(Directive::Define)
    } else if is_word(word, b"endef") {
        Some(Directive::Endef)
    } else {
        None
    }
}

#[tactic(auto, unfolding(crate::specs::Kinds::include_word))]
fn include_word(word: &[u8]) -> Option<Directive>
    ensures { result ≡ include_word word.now }
{
    if is_word(word, b"include") {
        Some(Directive::Include)
    } else if is_word(word, b"-include") || is_word(word, b"sinclude") {
        Some(Directive::OptionalInclude)
    } else {
        None
    }
}

#[tactic(auto, unfolding(crate::specs::Kinds::is_refused_word))]
fn is_refused_word(word: &[u8]) -> bool
    ensures { result ≡ is_refused_word word.now }
{
    is_word(word, b"override")
        || is_word(word, b"export")
        || is_word(word, b"unexport")
        || is_word(word, b"undefine")
        || is_word(word, b"private")
        || is_word(word, b"vpath")
        || is_word(word, b"load")
        || is_word(word, b"-load")
}

pub(crate) fn is_word(word: &[u8], name: &[u8]) -> bool
    ensures { result ≡ bytes_eq word.now name.now }
{
    word == name
}
