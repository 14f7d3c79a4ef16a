//! Bytes that few rule lines have.
//! Fast: one look at a line tells that it has no backslash and no byte of a refused name. Spares a look at each byte
//! for each of these.
ghost use Rattle.std.specs.Prelude.{◌≡◌, option_map};
ghost use Rattle.std.specs.List.{list_any};
ghost use Rattle.kt_rules.specs.inner.Heads.{head_view};
ghost use Rattle.kt_rules.specs.RuleLine.{option_list};
ghost use Rattle.kt_rules.specs.inner.Telling.{is_telling, signs_of};

use crate::line::head::Head;
use crate::line::refused::has_telling_byte;
use kt_text::has_percent;
use memchr::memchr3;

/// What one look at the texts of a head tells of its names. Most heads have none of these bytes.
#[derive(Clone, Copy)]
pub(crate) struct Signs {
    /// A byte of which each refused name has one; a backslash is such a byte.
    pub(crate) telling: bool,
    /// A percent sign in the text of the targets.
    pub(crate) percent: bool,
}

impl Signs {
    /// The signs of a head.
    pub(crate) fn of(head: &Head<'_>) -> Signs
        ensures { result ≡ signs_of (head_view head.now) }
    {
        Signs {
            telling: has_telling(head.targets)
                || has_telling(head.needs)
                || pattern_tells(head.pattern),
            percent: has_percent(head.targets),
        }
    }
}

fn pattern_tells(pattern: Option<&[u8]>) -> bool
    ensures { result ≡ list_any (list_any is_telling) (option_list (option_map (λ word. word.now) pattern.entry)) }
{
    match pattern {
        Some(word) => has_telling(word),
        None => false,
    }
}

// Whether the text has a telling byte. A short text is looked through byte by byte, a longer one by many at once.
pub(crate) fn has_telling(text: &[u8]) -> bool
    ensures { result ≡ list_any is_telling text.now }
{
    if text.len() < 32 {
        has_telling_byte(text)
    } else {
        finds_telling(text)
    }
}

#[tactic(auto, using(crate::proofs::lemmas::line::SignLemmas::any_found, crate::proofs::lemmas::line::SignLemmas::three_tell))]
fn finds_telling(text: &[u8]) -> bool
    ensures { result ≡ list_any is_telling text.now }
{
    memchr3(b'*', b'?', b'[', text).is_some() || memchr3(b'\\', b')', b'~', text).is_some()
}
