//! The pattern rules that may make a name, in the order in which they are tried.
ghost use Rattle.std.specs.Prelude.{◌≡◌, ◌<◌, ◌≤◌, ◌||◌, ◌++◌, ℕ, All, not, slice_get, option_map, option_to_list};
ghost use Rattle.std.specs.Prelude.{filter_map, length, IfOk, IfSome, OnOk};
ghost use Rattle.std.specs.List.{list_any};
ghost use Rattle.std.specs.List.Sorted.{IsPermutation};
ghost use Rattle.kt_rules.specs.Entry.{Entry};
ghost use Rattle.kt_rules.specs.Book.{is_terminal};
ghost use Rattle.kt_graph.specs.search.Candidates.{candidate_by, candidate_of, candidates_for, matching_from, shortest};
ghost use Rattle.kt_graph.specs.inner.search.Ends.{candidate_numbered, candidates_numbered};
ghost use Rattle.kt_graph.specs.inner.search.Candidates.{AreWithin, IsFitWithin, candidate_at, candidates_view};
ghost use Rattle.kt_graph.specs.inner.search.Candidates.{found_view, held_by_size, held_without_any, is_last_at};
ghost use Rattle.kt_graph.specs.inner.search.Candidates.{shorter_of, stays};

use crate::search::candidate::{Candidate, fit_of};
use crate::search::patterns::Patterns;
use crate::search::stemming::Stemming;
use kt_rules::{Pattern, Target};
use std::alloc::{AllocError, Global};

/// The candidates for a name, with or without a chain before it: the shortest stems first, and equal ones in order of
/// definition (GNU make manual, "How Patterns Match").
#[tactic(auto, using(crate::proofs::lemmas::search::CandidateLemmas::candidates_within))]
pub(crate) fn candidates_for(
    alloc: Global,
    patterns: &Patterns,
    in_chain: bool,
    name: &[u8],
) -> Result<Vec<Candidate>, AllocError>
    ensures tried { IfOk result (λ candidates. candidates_view patterns.now name.now candidates.items
        ≡ candidates_for patterns.now in_chain name.now) }
    ensures within { IfOk result (λ candidates. AreWithin patterns.now name.now candidates.items) }
{
    let mut candidates = matching(alloc, patterns, name)?;
    drop_any(patterns, in_chain, &mut candidates);
    sort_by_size(&mut candidates)?;
    Ok(candidates)
}

// The candidates for a name, in order of definition.
fn matching(alloc: Global, patterns: &Patterns, name: &[u8]) -> Result<Vec<Candidate>, AllocError>
    ensures matching { IfOk result (λ candidates. candidates_view patterns.now name.now candidates.items
        ≡ matching_from 0 patterns.now name.now) }
    ensures within { IfOk result (λ candidates. AreWithin patterns.now name.now candidates.items) }
{
    let numbers = patterns.numbers(name)?;
    of_numbers(alloc, patterns, numbers.as_slice(), name)
}

// The candidates for a name among the rules of these numbers.
fn of_numbers(
    alloc: Global,
    patterns: &Patterns,
    numbers: &[usize],
    name: &[u8],
) -> Result<Vec<Candidate>, AllocError>
    ensures matching { IfOk result (λ candidates. candidates_view patterns.now name.now candidates.items
        ≡ candidates_numbered patterns.now name.now numbers.now) }
    ensures within { IfOk result (λ candidates. AreWithin patterns.now name.now candidates.items) }
{
    let mut candidates = Vec::new(alloc);
    for number in numbers {
        add(&mut candidates, candidate_numbered(patterns, *number, name))?;
    }
    Ok(candidates)
}

#[tactic(auto, using(crate::proofs::lemmas::search::EndLemmas::told_none))]
fn candidate_numbered(patterns: &Patterns, number: usize, name: &[u8]) -> Option<Candidate>
    ensures candidate { found_view patterns.now name.now result ≡ candidate_numbered patterns.now name.now number }
    ensures within { IfSome result (λ candidate. (candidate.rule < length patterns.now)
        × IsFitWithin name.now candidate.fit) }
{
    let pattern = patterns.get(number)?;
    candidate_of(number, pattern, name)
}

fn add(candidates: &mut Vec<Candidate>, candidate: Option<Candidate>) -> Result<(), AllocError>
    ensures { OnOk result (candidates.new.items ≡ candidates.old.items ++ option_to_list candidate) }
{
    match candidate {
        Some(candidate) => Ok(candidates.push(candidate)?),
        None => Ok(()),
    }
}

// A rule as a candidate for a name: by the target with the shortest stem, and only if no prerequisite gets too long.
#[tactic(auto, using(crate::proofs::lemmas::search::CandidateLemmas::none_matches))]
fn candidate_of(number: usize, pattern: &Pattern, name: &[u8]) -> Option<Candidate>
    ensures candidate { option_map (candidate_at name.now pattern.now) result
        ≡ candidate_of number pattern.now name.now }
    ensures within { IfSome result (λ candidate. (candidate.rule ≡ number) × IsFitWithin name.now candidate.fit) }
{
    let candidate = shortest(number, pattern, name)?;
    if Stemming::new(&candidate.fit, name).keeps_short(pattern.needs()) {
        Some(candidate)
    } else {
        None
    }
}

// A rule as a candidate for a name, by the first of its targets with the shortest stem.
fn shortest(number: usize, pattern: &Pattern, name: &[u8]) -> Option<Candidate>
    ensures candidate { option_map (candidate_at name.now pattern.now) result
        ≡ shortest (filter_map (candidate_by number pattern.now name.now) pattern.now.targets) }
    ensures within { IfSome result (λ candidate. (candidate.rule ≡ number) × IsFitWithin name.now candidate.fit) }
{
    let mut best = None;
    for target in pattern.targets() {
        let candidate = candidate_by(number, target, name);
        best = shorter(best, candidate);
    }
    best
}

// A rule as a candidate for a name by one of its targets, if the target matches.
fn candidate_by(rule: usize, target: &Target, name: &[u8]) -> Option<Candidate>
    ensures candidate { (of : Entry) → option_map (candidate_at name.now of) result
        ≡ candidate_by rule of name.now target.now }
    ensures within { IfSome result (λ candidate. (candidate.rule ≡ rule) × IsFitWithin name.now candidate.fit) }
{
    let pattern = target.name.as_slice();
    Some(Candidate {
        rule,
        fit: fit_of(pattern, name)?,
        is_any: pattern == b"%".as_slice(),
    })
}

// The candidate with the shorter stem, or the first if they are equal.
fn shorter(best: Option<Candidate>, other: Option<Candidate>) -> Option<Candidate>
    ensures { result ≡ shorter_of best other }
{
    match (best, other) {
        (Some(first), Some(second)) if first.fit.size <= second.fit.size => Some(first),
        (first, None) => first,
        (_, second) => second,
    }
}

// Drops nonterminal match-anything rules if there is a chain or a rule matches by another target (GNU make manual,
// "Match-Anything Pattern Rules").
fn drop_any(patterns: &Patterns, in_chain: bool, candidates: &mut Vec<Candidate>)
    ensures { candidates.new.items ≡ held_without_any patterns.now in_chain candidates.old.items }
{
    if drops_any(in_chain, candidates.as_slice()) {
        candidates.retain(|candidate| stays(patterns, candidate));
    }
}

fn drops_any(in_chain: bool, candidates: &[Candidate]) -> bool
    ensures { result ≡ (in_chain || list_any (λ candidate. not candidate.is_any) candidates.now) }
{
    in_chain || has_other(candidates)
}

// Whether a rule matches by another target than `%` alone.
fn has_other(candidates: &[Candidate]) -> bool
    ensures { result ≡ list_any (λ candidate. not candidate.is_any) candidates.now }
{
    candidates.iter().any(|candidate| !candidate.is_any)
}

fn stays(patterns: &Patterns, candidate: &Candidate) -> bool
    ensures { result ≡ stays patterns.now candidate.now }
{
    !candidate.is_any || is_last_at(patterns, candidate.rule)
}

// Sorts by length of the stem, the shortest first, and keeps the order of equal ones (GNU make manual, "How Patterns
// Match").
fn sort_by_size(candidates: &mut Vec<Candidate>) -> Result<(), AllocError>
    ensures sorted { OnOk result ((longest : ℕ)
        → All (λ candidate. candidate.fit.size ≤ longest) candidates.old.items →
        candidates.new.items ≡ held_by_size longest candidates.old.items) }
    ensures same { IsPermutation candidates.old.items candidates.new.items }
{
    candidates.sort_by_key(|candidate| candidate.fit.size)
}

/// Whether a candidate's rule is terminal: no implicit rule is searched for to make its prerequisites.
pub(crate) fn is_last(patterns: &Patterns, candidate: &Candidate) -> bool
    ensures { IfSome (slice_get patterns.now candidate.now.rule) (λ rule. result ≡ is_terminal rule.kind) }
{
    is_last_at(patterns, candidate.rule)
}

// As `is_last`, given the rule's number.
fn is_last_at(patterns: &Patterns, rule: usize) -> bool
    ensures { result ≡ is_last_at patterns.now rule }
{
    match patterns.get(rule) {
        Some(pattern) => pattern.is_terminal(),
        None => true,
    }
}
