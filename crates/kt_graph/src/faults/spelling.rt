//! Names that are already the canonical spelling of their file, as most names are.
//! Fast: a short name is looked through for slashes byte by byte, a longer one by many bytes at once. Spares a call of
//! memchr a component.
ghost use Rattle.std.specs.Prelude.{◌≡◌, ◌<◌, ◌&&◌, IfSome, MatchOption, length, true};
ghost use Rattle.kt_graph.specs.inner.faults.Files.{has_names_only, is_proper_component};
ghost use Rattle.kt_graph.specs.faults.Paths.{canon_of};
ghost use Rattle.memchr.specs.Find.{IsFirstByte, is_byte};

use crate::faults::paths::is_rooted;
use memchr::memchr;

// From this many bytes on a text is looked through by many bytes at once.
const LONG: usize = 32;

/// Whether all components of a name are plain, so that it is the canonical spelling of its file. Takes no memory.
#[tactic(auto, using(crate::proofs::lemmas::faults::SpellingLemmas::spelled_plainly))]
pub(crate) fn is_canonical(name: &[u8]) -> bool
    ensures quick { result ≡ true → canon_of name.now ≡ name.now }
{
    if is_rooted(name) {
        has_names_only(&name[1..])
    } else {
        has_names_only(name)
    }
}

// Whether each component is plain: not empty, `.` or `..`.
fn has_names_only(text: &[u8]) -> bool
    ensures { result ≡ has_names_only text.now }
{
    let mut left = text;
    while let Some((part, after)) = first_part(left) {
        if !is_name(part) {
            return false;
        }
        left = after;
    }
    is_name(left)
}

// The text before the first slash, and the text after it.
#[tactic(auto, using(crate::proofs::lemmas::faults::SpellingLemmas::no_slash))]
fn first_part(text: &[u8]) -> Option<(&[u8], &[u8])>
    ensures parts { MatchOption result (has_names_only text.now ≡ is_proper_component text.now)
        (λ cut. has_names_only text.now ≡ (is_proper_component cut.0.now && has_names_only cut.1.now)) }
    ensures shorter { IfSome result (λ cut. length cut.1.now < length text.now) }
{
    let slash = first_slash(text)?;
    Some((&text[..slash], &text[slash + 1..]))
}

fn first_slash(text: &[u8]) -> Option<usize>
    ensures { IsFirstByte (is_byte 47) text.now result }
{
    if text.len() < LONG {
        slash_by_byte(text)
    } else {
        memchr(b'/', text)
    }
}

// As `first_slash`, by a look at each byte.
fn slash_by_byte(text: &[u8]) -> Option<usize>
    ensures { IsFirstByte (is_byte 47) text.now result }
{
    for at in 0..text.len() {
        if text[at] == b'/' {
            return Some(at);
        }
    }
    None
}

fn is_name(part: &[u8]) -> bool
    ensures { result ≡ is_proper_component part.now }
{
    !matches!(part, [] | [b'.'] | [b'.', b'.'])
}
