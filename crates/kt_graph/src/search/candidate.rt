//! How a pattern matches a name.
ghost use Rattle.std.specs.Prelude.{◌≡◌, ◌≤◌, drop, length, take, option_map, IfSome};
ghost use Rattle.std.specs.List.{slice_range};
ghost use Rattle.kt_text.specs.Functions.{name_place};
ghost use Rattle.kt_graph.specs.search.Candidates.{fit_of, has_slash, left_out, matched_part};
ghost use Rattle.kt_graph.specs.inner.search.Candidates.{IsFitWithin, fit_view};

use kt_text::match_pattern;
use memchr::{memchr, memrchr};

/// A pattern rule, by its number, with the way in which it matches a name.
#[derive(Clone, Copy)]
pub(crate) struct Candidate {
    pub(crate) rule: usize,
    pub(crate) fit: Fit,
    /// Whether the target that matches is `%` alone.
    pub(crate) is_any: bool,
}

/// Where a name has the directory that a pattern leaves out, and the stem.
#[derive(Clone, Copy)]
pub(crate) struct Fit {
    /// The length of the directory that a pattern without a slash leaves out.
    pub(crate) directory: usize,
    pub(crate) start: usize,
    pub(crate) end: usize,
    /// The length of the stem and the directory.
    pub(crate) size: usize,
}

impl Fit {
    /// The directory that the pattern leaves out, with its slash.
    pub(crate) fn directory<'n>(&self, name: &'n [u8]) -> &'n [u8]
        requires { IsFitWithin name.now self.now }
        ensures { result.now ≡ take self.now.directory name.now }
    {
        &name[..self.directory]
    }

    /// The stem in a name.
    pub(crate) fn stem<'n>(&self, name: &'n [u8]) -> &'n [u8]
        requires { IsFitWithin name.now self.now }
        ensures { result.now ≡ slice_range name.now self.now.start self.now.end }
    {
        &name[self.start..self.end]
    }
}

/// How a pattern matches a name with a stem of at least one byte (GNU make manual, "How Patterns
/// Match").
///
/// A pattern without a slash is matched against the part after the last slash.
#[tactic(auto, using(crate::proofs::lemmas::search::FitLemmas::no_fit, std::proofs::lemmas::List::take_rest))]
pub(crate) fn fit_of(pattern: &[u8], name: &[u8]) -> Option<Fit>
    ensures fit { option_map (fit_view name.now) result ≡ fit_of pattern.now name.now }
    ensures within { IfSome result (IsFitWithin name.now) }
{
    let directory = left_out(pattern, name);
    let stem = match_pattern(pattern, &name[directory..])?;
    if stem.is_empty() {
        return None;
    }
    Some(Fit {
        directory,
        start: directory + stem.start,
        end: directory + stem.end,
        size: directory + (stem.end - stem.start),
    })
}

// The number of bytes of a name that a pattern leaves out.
fn left_out(pattern: &[u8], name: &[u8]) -> usize
    ensures directory { take result name.now ≡ left_out pattern.now name.now }
    ensures rest { drop result name.now ≡ matched_part pattern.now name.now }
    ensures bound { result ≤ length name.now }
{
    if has_slash(pattern) {
        0
    } else {
        directory_len(name)
    }
}

pub(crate) fn has_slash(text: &[u8]) -> bool
    ensures { result ≡ has_slash text.now }
{
    memchr(b'/', text).is_some()
}

// The number of bytes of a name up to its last slash and with it.
#[tactic(auto, using(kt_text::proofs::lemmas::NameLemmas::name_places))]
fn directory_len(name: &[u8]) -> usize
    ensures value { result ≡ name_place name.now }
    ensures bound { result ≤ length name.now }
{
    match memrchr(b'/', name) {
        Some(place) => place + 1,
        None => 0,
    }
}
