//! Names of suffix rules, and suffixes at the end of names.
ghost use Rattle.std.specs.Prelude.{◌≡◌, ◌≤◌, length, is_some};
ghost use Rattle.kt_rules.specs.inner.SuffixCuts.{cut_after, earlier, end_of_length, first_cut, first_end};
ghost use Rattle.kt_rules.specs.inner.SuffixCuts.{is_cut_inside};
ghost use Rattle.kt_rules.specs.Suffixes.{is_cut_at, suffix_patterns};

use super::suffixes::Suffixes;
use kt_list::Names;

/// Whether a suffix rule may have this name: it is a suffix, or two suffixes.
pub(crate) fn is_suffix_name(suffixes: &Suffixes, name: &[u8]) -> bool
    ensures { result ≡ is_some (suffix_patterns suffixes.now name.now) }
{
    suffixes.contains(name) || suffixes.cut(name).is_some()
}

/// The first place at which the name is cut into two suffixes, the first having one of the lengths.
#[tactic(auto, using(crate::proofs::lemmas::book::SuffixLemmas::cut_at, crate::proofs::lemmas::book::SuffixLemmas::cut_end))]
pub(crate) fn first_cut(suffixes: &Names, lengths: &[usize], name: &[u8]) -> Option<usize>
    ensures { result ≡ first_cut suffixes.now lengths.now name.now }
{
    let mut first = None;
    for front in lengths {
        first = earlier(first, cut_after(suffixes, name, *front));
    }
    first
}

// The place after a first suffix of this length, if the name is cut into two suffixes there.
#[tactic(auto, using(crate::proofs::lemmas::book::SuffixLemmas::cut_after_is))]
fn cut_after(suffixes: &Names, name: &[u8], front: usize) -> Option<usize>
    ensures { result ≡ cut_after suffixes.now name.now front }
{
    if goes_on(suffixes, name, front) {
        Some(front)
    } else {
        None
    }
}

fn goes_on(suffixes: &Names, name: &[u8], front: usize) -> bool
    ensures { result ≡ is_cut_inside suffixes.now name.now front }
{
    front < name.len() && is_cut_at(suffixes, name, front)
}

fn is_cut_at(suffixes: &Names, name: &[u8], place: usize) -> bool
    requires { place ≤ length name.now }
    ensures { result ≡ is_cut_at suffixes.now name.now place }
{
    let (begun, rest) = name.split_at(place);
    suffixes.contains(begun) && suffixes.contains(rest)
}

/// The number of the first suffix that the name ends with, among suffixes of the lengths.
#[tactic(auto, using(crate::proofs::lemmas::book::SuffixLemmas::end_at, crate::proofs::lemmas::book::SuffixLemmas::end_end))]
pub(crate) fn first_end(suffixes: &Names, lengths: &[usize], name: &[u8]) -> Option<usize>
    ensures { result ≡ first_end suffixes.now lengths.now name.now }
{
    let mut first = None;
    for len in lengths {
        first = earlier(first, end_of_length(suffixes, name, *len));
    }
    first
}

// The number of the suffix of one length that the name ends with.
#[tactic(auto, using(crate::proofs::lemmas::book::SuffixLemmas::end_is))]
fn end_of_length(suffixes: &Names, name: &[u8], len: usize) -> Option<usize>
    ensures { result ≡ end_of_length suffixes.now name.now len }
{
    if len > name.len() {
        return None;
    }
    let (_, end) = name.split_at(name.len() - len);
    suffixes.number_of(end)
}

// The smaller of two numbers, either of which may be absent.
fn earlier(first: Option<usize>, other: Option<usize>) -> Option<usize>
    ensures { result ≡ earlier first other }
{
    match (first, other) {
        (Some(place), Some(next)) => Some(place.min(next)),
        (Some(place), None) => Some(place),
        (None, other) => other,
    }
}
