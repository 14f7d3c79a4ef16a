//! Lines that begin with a word of blocks, recognised by their first bytes alone: most of them are.
//! Fast: a line of blocks is told by the word that it begins with. Spares a walk over the line.
ghost use Rattle.std.specs.Prelude.{◌≡◌, ◌∷◌, IfSome, Some, false};
ghost use Rattle.kt_syntax.specs.Kinds.{block_word, directive, form_of};
ghost use Rattle.kt_syntax.specs.Roles.{first_word};
ghost use Rattle.kt_syntax.specs.inner.Leading.{IsLed, is_apart, may_assign};

use crate::form::Directive;
use kt_text::{is_blank, trim_start};

// The directive of a line that has no tab, and the text after it; `None` where that takes a look at the whole line.
#[tactic(auto, using(crate::proofs::lemmas::LeadingWords::leading_kind))]
pub(crate) fn leading_directive(text: &[u8]) -> Option<(Directive, &[u8])>
    ensures quick { IfSome result (λ found. directive found.0 found.1.now ≡ form_of text.now false) }
{
    let (word, after) = leading_word(text)?;
    let rest = trim_start(after);
    if !is_apart(after) || may_assign(rest) {
        return None;
    }
    Some((word, rest))
}

// The word of blocks that a text begins with, if a blank or nothing comes after it; `None` where that takes a look at
// the whole text, too.
#[tactic(auto, using(crate::proofs::lemmas::LeadingWords::leading_first))]
pub(crate) fn leading_block_word(text: &[u8]) -> Option<Directive>
    ensures quick { IfSome result (λ word. block_word (first_word text.now) ≡ Some word) }
{
    let (word, after) = leading_word(text)?;
    if is_apart(after) { Some(word) } else { None }
}

// The word of blocks at the begin of a text, and what comes after it.
#[tactic(auto, unfolding(crate::specs::Kinds::block_word))]
fn leading_word(text: &[u8]) -> Option<(Directive, &[u8])>
    ensures quick { IfSome result (λ found. IsLed found.0 text.now found.1.now) }
{
    match text {
        [b'i', b'f', rest @ ..] => word_after_if(rest),
        [b'e', rest @ ..] => word_after_e(rest),
        [b'd', b'e', b'f', b'i', b'n', b'e', after @ ..] => Some((Directive::Define, after)),
        _ => None,
    }
}

// As `leading_word`, for a text with `if` before it, and for one with an `e`.
#[tactic(auto, unfolding(crate::specs::Kinds::block_word))]
fn word_after_if(rest: &[u8]) -> Option<(Directive, &[u8])>
    ensures quick { IfSome result (λ found. IsLed found.0 (105 ∷ 102 ∷ rest.now) found.1.now) }
{
    match rest {
        [b'e', b'q', after @ ..] => Some((Directive::Ifeq, after)),
        [b'n', b'e', b'q', after @ ..] => Some((Directive::Ifneq, after)),
        [b'd', b'e', b'f', after @ ..] => Some((Directive::Ifdef, after)),
        [b'n', b'd', b'e', b'f', after @ ..] => Some((Directive::Ifndef, after)),
        _ => None,
    }
}

#[tactic(auto, unfolding(crate::specs::Kinds::block_word))]
fn word_after_e(rest: &[u8]) -> Option<(Directive, &[u8])>
    ensures quick { IfSome result (λ found. IsLed found.0 (101 ∷ rest.now) found.1.now) }
{
    match rest {
        [b'l', b's', b'e', after @ ..] => Some((Directive::Else, after)),
        [b'n', b'd', b'i', b'f', after @ ..] => Some((Directive::Endif, after)),
        [b'n', b'd', b'e', b'f', after @ ..] => Some((Directive::Endef, after)),
        _ => None,
    }
}

// Whether a word before this text ends there.
pub(crate) fn is_apart(after: &[u8]) -> bool
    ensures { result ≡ is_apart after.now }
{
    match after {
        [first, ..] => is_blank(*first),
        [] => true,
    }
}

// Whether an operator may stand at the begin of a text, or a continuation before one.
fn may_assign(text: &[u8]) -> bool
    ensures { result ≡ may_assign text.now }
{
    match text {
        [first, ..] => matches!(*first, b'=' | b':' | b'?' | b'+' | b'!' | b'\\'),
        [] => false,
    }
}
