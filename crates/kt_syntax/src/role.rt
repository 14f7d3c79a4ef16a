//! What lines are to the blocks round them.
ghost use Rattle.std.specs.Prelude.{◌≡◌, ◌≤◌, false, length, true, IfOk};
ghost use Rattle.std.specs.List.{slice_range};
ghost use Rattle.kt_syntax.specs.declared.role.Role.TheVariants as role;
ghost use Rattle.kt_syntax.specs.Kinds.{block_word, form_of, line_form};
ghost use Rattle.kt_syntax.specs.Roles.{first_word, line_text, numbered_role, opens_conditional};
ghost use Rattle.kt_syntax.specs.inner.Leading.{may_open};
ghost use Rattle.kt_syntax.specs.Roles.{role_by_word, role_of, starts_condition};

use crate::form::{Directive, Form};
use crate::kind::{block_word, classify_text, is_word};
use crate::leading::leading_block_word;
use crate::places::{comment_place, past_word};
use kt_text::{Line, joined, trim_start};
use std::alloc::{AllocError, Global};

/// What a line is to the blocks round it.
#[derive(Clone, Copy, Debug, PartialEq, Eq)]
pub enum Role {
    /// It opens, continues and ends no block.
    Ordinary,
    /// `ifdef`, `ifndef`, `ifeq` or `ifneq`
    Conditional,
    /// `else`, and whether a condition follows it
    Else(bool),
    /// `endif`
    Endif,
    /// `define`
    Define,
    /// `endef`
    Endef,
}

/// A line's role, and the number of its first physical line.
#[derive(Clone, Copy, Debug, PartialEq, Eq)]
pub struct NumberedRole {
    pub role: Role,
    pub number: u64,
}

// The head of a line that begins with no tab.
pub(crate) fn head_of(alloc: Global, text: &[u8], line: &Line) -> Result<NumberedRole, AllocError>
    requires tab { line.now.tab ≡ false }
    requires order { line.now.span.start ≤ line.now.span.end }
    requires within { line.now.span.end ≤ length text.now }
    ensures { IfOk result (λ head. head ≡ numbered_role text.now line.now) }
{
    Ok(NumberedRole {
        role: line_role(alloc, line_text(text, line))?,
        number: line.number,
    })
}

fn line_text<'a>(text: &'a [u8], line: &Line) -> &'a [u8]
    requires order { line.now.span.start ≤ line.now.span.end }
    requires within { line.now.span.end ≤ length text.now }
    ensures { result.now ≡ line_text text.now line.now }
{
    &text[line.span.start..line.span.end]
}

// Whether a line has no role, as its first byte tells of most: one that begins with a tab has none, whatever stands on
// it, and few others begin as those do that have one.
// Idle: whether it begins with a tab.
pub(crate) fn opens_nothing(text: &[u8], line: &Line) -> bool
    requires order { line.now.span.start ≤ line.now.span.end }
    requires within { line.now.span.end ≤ length text.now }
    ensures quick_role { result ≡ true → (numbered_role text.now line.now).role ≡ role.Ordinary }
    ensures tab { result ≡ false → line.now.tab ≡ false }
{
    if line.tab {
        return true;
    }
    !may_open(line_text(text, line))
}

// The role of a line that begins with no tab. Many are one word and nothing else.
fn line_role(alloc: Global, line: &[u8]) -> Result<Role, AllocError>
    ensures { IfOk result (λ role. role ≡ role_of (line_form line.now false)) }
{
    if is_word(line, b"endif") {
        return Ok(Role::Endif);
    }
    if is_word(line, b"else") {
        return Ok(Role::Else(false));
    }
    let text = joined(alloc, line)?;
    Ok(role_of(text.as_slice()))
}

// The role of a text that begins with no tab. Behind its blanks it begins as the whole line has to.
#[tactic(auto, using(crate::proofs::lemmas::RoleLemmas::text_role))]
fn role_of(text: &[u8]) -> Role
    ensures { result ≡ role_of (form_of text.now false) }
{
    if !may_open(trim_start(text)) {
        return Role::Ordinary;
    }
    classified_role(text)
}

// Whether a line begins with a blank, with what may stand for one, or as the words of conditionals
// and `define` and their ends do.
fn may_open(line: &[u8]) -> bool
    ensures { result ≡ may_open line.now }
{
    match line {
        [first, ..] => {
            matches!(
                *first,
                b' ' | b'\t' | b'\\' | b'\n' | b'\r' | b'd' | b'e' | b'i'
            )
        }
        [] => false,
    }
}

// As `role_of`, by the kind of the text.
#[tactic(auto, unfolding(crate::specs::Roles::role_of))]
fn classified_role(text: &[u8]) -> Role
    ensures { result ≡ role_of (form_of text.now false) }
{
    match classify_text(text, false) {
        Form::Directive(word, rest) => role_by_word(word, rest),
        _ => Role::Ordinary,
    }
}

#[tactic(auto, unfolding(crate::specs::Roles::role_by_word))]
fn role_by_word(word: Directive, rest: &[u8]) -> Role
    ensures { result ≡ role_by_word word rest.now }
{
    match word {
        Directive::Ifdef | Directive::Ifndef | Directive::Ifeq | Directive::Ifneq => {
            Role::Conditional
        }
        Directive::Else => Role::Else(starts_condition(rest)),
        Directive::Endif => Role::Endif,
        Directive::Define => Role::Define,
        Directive::Endef => Role::Endef,
        Directive::Include | Directive::OptionalInclude => Role::Ordinary,
    }
}

// Whether the text after an `else` is that of a condition, by its first word alone.
#[tactic(auto, using(crate::proofs::lemmas::LeadingWords::nothing_starts), unfolding(crate::specs::Roles::starts_condition))]
fn starts_condition(rest: &[u8]) -> bool
    ensures { result ≡ starts_condition rest.now }
{
    if rest.is_empty() {
        return false;
    }
    match leading_block_word(rest) {
        Some(word) => opens_conditional(Some(word)),
        None => opens_conditional(block_word(first_word(rest))),
    }
}

#[tactic(auto, unfolding(crate::specs::Roles::first_word))]
fn first_word(text: &[u8]) -> &[u8]
    ensures { result.now ≡ first_word text.now }
{
    let end = comment_place(text);
    &text[..past_word(text, 0, end)]
}

fn opens_conditional(word: Option<Directive>) -> bool
    ensures { result ≡ opens_conditional word }
{
    matches!(
        word,
        Some(Directive::Ifdef | Directive::Ifndef | Directive::Ifeq | Directive::Ifneq)
    )
}
