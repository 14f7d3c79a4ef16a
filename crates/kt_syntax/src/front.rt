//! Lines recognised by a first word of bytes that are their own symbols, and by what comes after
//! it: most of them are.
//! Fast: an assignment, a rule or an include is told by its first word and what comes after it. Spares a walk over the
//! line.
ghost use Rattle.std.specs.Prelude.{◌≡◌, ◌≤◌, ◌<◌, ◌++◌, None, length, not, true, IfSome};
ghost use Rattle.std.specs.List.{list_all, position_or_len};
ghost use Rattle.kt_text.specs.Words.{trimmed_start};
ghost use Rattle.kt_syntax.specs.Kinds.{form_of, operator_of};
ghost use Rattle.kt_syntax.specs.views.Lines.{line_form_view};
ghost use Rattle.kt_syntax.specs.inner.Leading.{IsQuietWord, begins_colon, begins_slash, is_loud};

use crate::form::Form;
use crate::kind::{form_by_word, operator_of};
use crate::leading::is_apart;
use kt_text::trim_start;

// The kind of a line; `None` where it takes a look at the whole line.
#[tactic(auto, using(crate::proofs::lemmas::LeadingForms::form_assigned, std::proofs::lemmas::List::take_rest))]
pub(crate) fn leading_form(text: &[u8], tab: bool) -> Option<Form<'_>>
    ensures quick { IfSome result (λ form. line_form_view form ≡ form_of text.now tab) }
{
    let (word, after) = quiet_word(text)?;
    let rest = trim_start(after);
    match operator_of(rest) {
        Some((operator, size)) => {
            let value = trim_start(&rest[size..]);
            if begins_slash(value) {
                return None;
            }
            Some(Form::Assignment(word, operator, value))
        }
        None => unassigning_form(tab, word, after, rest),
    }
}

// As `leading_form`, by the first word and what comes after it, where that begins with no operator behind its blanks.
#[tactic(auto, using(crate::proofs::lemmas::LeadingForms::form_colon))]
fn unassigning_form<'a>(
    tab: bool,
    word: &'a [u8],
    after: &'a [u8],
    rest: &'a [u8],
) -> Option<Form<'a>>
    requires quiet { list_all (λ byte. not (is_loud byte)) word.now ≡ true }
    requires some { 0 < length word.now }
    requires rest { rest.now ≡ trimmed_start after.now }
    requires none { None ≡ operator_of rest.now }
    ensures quick { IfSome result (λ form. line_form_view form ≡ form_of (word.now ++ after.now) tab) }
{
    if begins_colon(after) {
        return Some(Form::Rule);
    }
    if !is_apart(after) {
        return None;
    }
    if begins_slash(rest) {
        return None;
    }
    Some(form_by_word(tab, word, rest))
}

// The first word, which nothing in it ends before a blank, an operator or the comment could, and what comes after it.
fn quiet_word(text: &[u8]) -> Option<(&[u8], &[u8])>
    ensures quick { IfSome result (λ cut. IsQuietWord cut.0.now cut.1.now text.now) }
{
    let size = quiet_run(text);
    if size == 0 {
        return None;
    }
    Some(text.split_at(size))
}

fn quiet_run(text: &[u8]) -> usize
    ensures value { result ≡ position_or_len is_loud text.now }
    ensures bound { result ≤ length text.now }
{
    text.iter().take_while(|byte| !is_loud(**byte)).count()
}

#[tactic(auto, unfolding(kt_text::specs::Words::is_blank))]
fn is_loud(byte: u8) -> bool
    ensures { result ≡ is_loud byte }
{
    matches!(
        byte,
        b' ' | b'\t' | b'$' | b'\\' | b'=' | b':' | b'?' | b'+' | b'!' | b'#'
    )
}

fn begins_slash(text: &[u8]) -> bool
    ensures { result ≡ begins_slash text.now }
{
    matches!(text, [b'\\', ..])
}

fn begins_colon(text: &[u8]) -> bool
    ensures { result ≡ begins_colon text.now }
{
    matches!(text, [b':', ..])
}
