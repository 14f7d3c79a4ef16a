//! The first term of a text.
ghost use Rattle.std.specs.Prelude.{◌≡◌, ◌==◌, ◌+◌, ◌^◌, ◌∷◌, ◌<◌, ◌≤◌, [], length, MatchOption, IfSome};
ghost use Rattle.std.specs.List.{position_or_len};
ghost use Rattle.kt_syntax.specs.Terms.{after_dollar, closing, dropped, first_term, reference_of, terms_of};
ghost use Rattle.kt_syntax.specs.views.Terms.{token_of};

use crate::term::{Mark, Term, Unterminated};
use memchr::memchr;

/// The first term, and what stands after it.
#[tactic(auto, using(crate::proofs::lemmas::Splitting::text_first, std::proofs::lemmas::List::take_rest))]
pub(crate) fn next_term(text: &[u8]) -> Option<(Result<Term<'_>, Unterminated>, &[u8])>
    ensures { MatchOption result (terms_of text.now ≡ [])
        (λ cut. terms_of text.now ≡ token_of cut.0 ∷ terms_of cut.1.now) }
{
    let (first, rest) = text.split_first()?;
    let (term, taken) = first_term(*first, text, rest);
    Some((term, &rest[taken..]))
}

// The term that begins with a byte, and how many bytes it takes after that.
#[tactic(auto, unfolding(crate::specs::Terms::first_term))]
fn first_term<'a>(
    first: u8,
    text: &'a [u8],
    rest: &'a [u8],
) -> (Result<Term<'a>, Unterminated>, usize)
    requires { text.now ≡ first ∷ rest.now }
    ensures term { token_of result.0 ≡ (first_term dropped first rest.now).0 }
    ensures taken { result.1 ≡ (first_term dropped first rest.now).1 }
    ensures within { result.1 ≤ length rest.now }
{
    if first == b'$' {
        return after_dollar(rest);
    }
    let run = literal_length(rest);
    (Ok(Term::Lit(&text[..run + 1])), run)
}

// How many bytes stand before the first dollar.
fn literal_length(text: &[u8]) -> usize
    ensures value { result ≡ position_or_len (λ byte. byte == 36) text.now }
    ensures bound { result ≤ length text.now }
{
    memchr(b'$', text).unwrap_or(text.len())
}

// The term after a dollar, and how many bytes it takes there.
#[tactic(auto, unfolding(crate::specs::Terms::after_dollar))]
pub(crate) fn after_dollar(text: &[u8]) -> (Result<Term<'_>, Unterminated>, usize)
    ensures term { token_of result.0 ≡ (after_dollar dropped text.now).0 }
    ensures taken { result.1 ≡ (after_dollar dropped text.now).1 }
    ensures within { result.1 ≤ length text.now }
{
    match text {
        [] => (Ok(Term::Lit(text)), 0),
        [b'$', ..] => (Ok(Term::Dollar), 1),
        [b'(', rest @ ..] => reference(Mark::Parentheses, rest, closing(b'(', b')', rest)),
        [b'{', rest @ ..] => reference(Mark::Braces, rest, closing(b'{', b'}', rest)),
        _ => (Ok(Term::Ref(Mark::Byte, &text[..1])), 1),
    }
}

// The reference that is closed at a place, and how many bytes it takes from its opening mark on.
fn reference(
    mark: Mark,
    text: &[u8],
    place: Option<usize>,
) -> (Result<Term<'_>, Unterminated>, usize)
    requires room { length text.now < 2 ^ 63 }
    requires within { IfSome place (λ p. p < length text.now) }
    ensures term { token_of result.0 ≡ (reference_of mark text.now place).0 }
    ensures taken { result.1 ≡ (reference_of mark text.now place).1 }
    ensures within { result.1 ≤ length text.now + 1 }
{
    match place {
        None => (Err(Unterminated), text.len() + 1),
        Some(place) => (Ok(Term::Ref(mark, &text[..place])), place + 2),
    }
}

// Where the mark stands that closes the text.
#[tactic(auto, unfolding(crate::specs::Terms::closing))]
fn closing(opener: u8, closer: u8, text: &[u8]) -> Option<usize>
    ensures place { result ≡ closing opener closer 0 0 text.now }
    ensures within { IfSome result (λ place. place < length text.now) }
{
    let mut depth: usize = 0;
    for (place, byte) in text.iter().enumerate() {
        if *byte == opener {
            depth += 1;
        } else if *byte == closer {
            if depth == 0 {
                return Some(place);
            }
            depth -= 1;
        }
    }
    None
}
