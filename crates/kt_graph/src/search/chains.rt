//! The chains of pattern rules that a search tries.
ghost use Rattle.std.specs.Prelude.{◌≡◌, ◌+◌, [], ◌∷◌, find, fold, length, nat_le, is_some, option_map, IfOk};
ghost use Rattle.std.specs.Prelude.{IfSome, OnOk};
ghost use Rattle.std.specs.List.{list_all, prefix_len};
ghost use Rattle.kt_rules.specs.Names.{with_name, without_repeats};
ghost use Rattle.kt_rules.specs.Suffixes.{all_needs};
ghost use Rattle.kt_graph.specs.search.Candidates.{needed_names, needs_with};
ghost use Rattle.kt_graph.specs.inner.search.Chains.{IsFound, IsRightFor, KeepsAnswers, HasAnswered, asked_besides};
ghost use Rattle.kt_graph.specs.Known.{unknown_of};
ghost use Rattle.kt_graph.specs.views.search.Search.{asking, questions_among, questions_by, questions_for};
ghost use Rattle.kt_graph.specs.views.search.Search.{questions_inside, choice_view};
ghost use Rattle.kt_graph.specs.search.Search.{chain_limit};
ghost use Rattle.kt_graph.specs.search.Search.{choice_of, chosen_of, fitting, is_inferred, is_met, is_used};
ghost use Rattle.kt_graph.specs.search.Search.{open_candidates, unknown_needs, with_rule};
ghost use Rattle.kt_graph.specs.inner.search.Candidates.{AreWithin, IsFitWithin, candidate_view, candidates_view};
ghost use Rattle.kt_graph.specs.inner.search.Candidates.{fit_view};

use crate::known::Known;
use crate::search::candidate::Candidate;
use crate::search::candidates::{candidates_for, is_last};
use crate::search::choice::{Choice, Chosen};
use crate::search::knowing::knows_all;
use crate::search::patterns::Patterns;
use crate::search::question::Question;
use crate::search::stemming::Stemming;
use crate::search::tried::{QuestionPlace, TriedQuestions};
use kt_list::Names;
use kt_rules::{Name, Needs, Pattern};
use std::alloc::{AllocError, Global};

/// The maximum number of rules in a chain.
const CHAIN_LIMIT: usize = 8;

/// The pattern rules and known names of a search.
///
/// A question is never asked again before it is answered, since the questions that it asks have longer chains.
#[derive(Drop)]
pub(crate) struct Chains<'a> {
    alloc: Global,
    patterns: Patterns<'a>,
    known: &'a Known<'a>,
}

impl<'a> Chains<'a> {
    pub(crate) fn new(alloc: Global, patterns: Patterns<'a>, known: &'a Known<'a>) -> Chains<'a>
        ensures patterns { result.patterns ≡ patterns.entry }
        ensures known { result.known ≡ known.entry }
    {
        Chains {
            alloc,
            patterns,
            known,
        }
    }

    pub(crate) fn patterns(&self) -> &[Pattern<'a>]
        ensures { result.now ≡ self.now.patterns }
    {
        self.patterns.rules()
    }

    /// The rule that makes a name, without a chain before it. If memory runs out, some questions may have no answer.
    pub(crate) fn choice(
        &self,
        tried: &mut TriedQuestions,
        name: &[u8],
    ) -> Result<Choice, AllocError>
        requires { IsRightFor self.now.patterns self.now.known.now tried.old 0 }
        ensures chosen { IfOk result (λ choice. choice
            ≡ option_map choice_view (choice_of self.now.patterns self.now.known.now name.now)) }
        ensures leaves { OnOk result (HasAnswered self.now.patterns self.now.known.now tried.old tried.new 0
            (asking self.now.patterns self.now.known.now chain_limit [] name.now)) }
        ensures kept { KeepsAnswers tried.old tried.new }
    {
        match self.ask(tried, CHAIN_LIMIT, name, &[])? {
            Some(candidate) => Ok(Some(self.chosen(name, candidate)?)),
            None => Ok(None),
        }
    }

    /// As `choice`, but the question itself isn't stored.
    pub(crate) fn choice_alone(
        &self,
        tried: &mut TriedQuestions,
        name: &[u8],
    ) -> Result<Choice, AllocError>
        requires { IsRightFor self.now.patterns self.now.known.now tried.old 1 }
        ensures chosen { IfOk result (λ choice. choice
            ≡ option_map choice_view (choice_of self.now.patterns self.now.known.now name.now)) }
        ensures right { OnOk result (IsRightFor self.now.patterns self.now.known.now tried.new 1) }
        ensures kept { KeepsAnswers tried.old tried.new }
    {
        match self.answer(tried, CHAIN_LIMIT, name, &[])? {
            Some(candidate) => Ok(Some(self.chosen(name, candidate)?)),
            None => Ok(None),
        }
    }

    // What makes a name after a chain, if up to `left` more rules may be added.
    #[cycle(search)]
    fn ask(
        &self,
        tried: &mut TriedQuestions,
        left: usize,
        name: &[u8],
        used: &[usize],
    ) -> Result<Option<Candidate>, AllocError>
        requires whole { left + length used.now ≡ chain_limit }
        requires ready { IsRightFor self.now.patterns self.now.known.now tried.old (length used.now) }
        ensures found { IfOk result (IsFound self.now.patterns name.now
            (fitting self.now.patterns self.now.known.now left used.now name.now)) }
        ensures leaves { OnOk result (HasAnswered self.now.patterns self.now.known.now tried.old tried.new
            (length used.now) (asking self.now.patterns self.now.known.now left used.now name.now)) }
        ensures kept { KeepsAnswers tried.old tried.new }
    {
        let question = Question::new(self.alloc, name, used)?;
        match tried.put(question)? {
            QuestionPlace::Before(answer) => Ok(answer),
            QuestionPlace::Last(place) => {
                let answer = self.answer(tried, left, name, used)?;
                tried.note(place, answer);
                Ok(answer)
            }
        }
    }

    // As `ask`, for a question that is already stored, without an answer.
    #[cycle(search)]
    fn answer(
        &self,
        tried: &mut TriedQuestions,
        left: usize,
        name: &[u8],
        used: &[usize],
    ) -> Result<Option<Candidate>, AllocError>
        requires whole { left + length used.now ≡ chain_limit }
        requires ready { IsRightFor self.now.patterns self.now.known.now tried.old (length used.now + 1) }
        ensures found { IfOk result (IsFound self.now.patterns name.now
            (fitting self.now.patterns self.now.known.now left used.now name.now)) }
        ensures leaves { OnOk result (HasAnswered self.now.patterns self.now.known.now tried.old tried.new
            (length used.now + 1) (asked_besides self.now.patterns self.now.known.now left used.now name.now)) }
        ensures kept { KeepsAnswers tried.old tried.new }
    {
        if left == 0 {
            return Ok(None);
        }
        self.first_fitting(tried, left - 1, name, used)
    }

    // What makes a name after a chain, if one more rule and up to `left` rules after it may be added.
    #[cycle(search)]
    fn first_fitting(
        &self,
        tried: &mut TriedQuestions,
        left: usize,
        name: &[u8],
        used: &[usize],
    ) -> Result<Option<Candidate>, AllocError>
        requires whole { left + 1 + length used.now ≡ chain_limit }
        requires ready { IsRightFor self.now.patterns self.now.known.now tried.old (length used.now + 1) }
        ensures found { IfOk result (IsFound self.now.patterns name.now
            (chosen_of self.now.known.now (fitting self.now.patterns self.now.known.now left) used.now
            (open_candidates self.now.patterns used.now name.now))) }
        ensures leaves { OnOk result (HasAnswered self.now.patterns self.now.known.now tried.old tried.new
            (length used.now + 1) (questions_inside self.now.known.now
            (fitting self.now.patterns self.now.known.now left)
            (asking self.now.patterns self.now.known.now left) used.now
            (open_candidates self.now.patterns used.now name.now))) }
        ensures kept { KeepsAnswers tried.old tried.new }
    {
        let open = self.open(name, used)?;
        match self.first_met(name, open.as_slice())? {
            Some(candidate) => Ok(Some(candidate)),
            None => self.first_inferred(tried, left, name, used, open.as_slice()),
        }
    }

    // The candidates for a name whose rules aren't in the chain.
    fn open(&self, name: &[u8], used: &[usize]) -> Result<Vec<Candidate>, AllocError>
        ensures candidates { IfOk result (λ kept. candidates_view self.now.patterns name.now kept.items
            ≡ open_candidates self.now.patterns used.now name.now) }
        ensures within { IfOk result (λ kept. AreWithin self.now.patterns name.now kept.items) }
    {
        let mut open = candidates_for(self.alloc, &self.patterns, !used.is_empty(), name)?;
        open.retain(|candidate| !is_used(used, candidate.rule));
        Ok(open)
    }

    // The first candidate whose prerequisites are all known.
    fn first_met(
        &self,
        name: &[u8],
        candidates: &[Candidate],
    ) -> Result<Option<Candidate>, AllocError>
        requires { AreWithin self.now.patterns name.now candidates.now }
        ensures { IfOk result (IsFound self.now.patterns name.now
            (find (is_met self.now.known.now) (candidates_view self.now.patterns name.now candidates.now))) }
    {
        for candidate in candidates {
            if self.is_met(name, candidate)? {
                return Ok(Some(*candidate));
            }
        }
        Ok(None)
    }

    fn is_met(&self, name: &[u8], candidate: &Candidate) -> Result<bool, AllocError>
        requires { AreWithin self.now.patterns name.now (candidate.now ∷ []) }
        ensures { IfOk result (λ met. IfSome (candidate_view self.now.patterns name.now candidate.now)
            (λ told. met ≡ is_met self.now.known.now told)) }
    {
        match self.patterns.get(candidate.rule) {
            Some(pattern) => knows_all(
                self.alloc,
                self.known,
                Stemming::new(&candidate.fit, name),
                pattern.needs(),
            ),
            None => Ok(false),
        }
    }

    // The first candidate for which the search finds a rule for each unknown prerequisite.
    #[cycle(search)]
    fn first_inferred(
        &self,
        tried: &mut TriedQuestions,
        left: usize,
        name: &[u8],
        used: &[usize],
        candidates: &[Candidate],
    ) -> Result<Option<Candidate>, AllocError>
        requires whole { left + 1 + length used.now ≡ chain_limit }
        requires within { AreWithin self.now.patterns name.now candidates.now }
        requires ready { IsRightFor self.now.patterns self.now.known.now tried.old (length used.now + 1) }
        ensures found { IfOk result (IsFound self.now.patterns name.now
            (find (is_inferred self.now.known.now (fitting self.now.patterns self.now.known.now left) used.now)
            (candidates_view self.now.patterns name.now candidates.now))) }
        ensures leaves { OnOk result (HasAnswered self.now.patterns self.now.known.now tried.old tried.new
            (length used.now + 1) (questions_among self.now.known.now (fitting self.now.patterns self.now.known.now
            left)
            (asking self.now.patterns self.now.known.now left) used.now
            (candidates_view self.now.patterns name.now candidates.now))) }
        ensures kept { KeepsAnswers tried.old tried.new }
    {
        let mut at = 0;
        while at < candidates.len() {
            let candidate = candidates[at];
            if self.is_inferred(tried, left, name, used, candidate)? {
                return Ok(Some(candidate));
            }
            at += 1;
        }
        Ok(None)
    }

    #[cycle(search)]
    fn is_inferred(
        &self,
        tried: &mut TriedQuestions,
        left: usize,
        name: &[u8],
        used: &[usize],
        candidate: Candidate,
    ) -> Result<bool, AllocError>
        requires whole { left + 1 + length used.now ≡ chain_limit }
        requires within { AreWithin self.now.patterns name.now (candidate ∷ []) }
        requires ready { IsRightFor self.now.patterns self.now.known.now tried.old (length used.now + 1) }
        ensures inferred { IfOk result (λ yes. IfSome (candidate_view self.now.patterns name.now candidate)
            (λ told. yes ≡ is_inferred self.now.known.now (fitting self.now.patterns self.now.known.now left)
            used.now told)) }
        ensures leaves { OnOk result (IfSome (candidate_view self.now.patterns name.now candidate)
            (λ told. HasAnswered self.now.patterns self.now.known.now tried.old tried.new (length used.now + 1)
            (questions_by self.now.known.now (fitting self.now.patterns self.now.known.now left)
            (asking self.now.patterns self.now.known.now left) used.now told))) }
        ensures kept { KeepsAnswers tried.old tried.new }
    {
        if is_last(&self.patterns, &candidate) {
            return Ok(false);
        }
        let unknown = self.unknown(name, &candidate)?;
        let chain = with_rule(self.alloc, used, candidate.rule)?;
        self.all_found(tried, left, &unknown, chain.as_slice())
    }

    // Whether the search finds a rule for each of the names. It stops at the first name without one.
    #[cycle(search)]
    fn all_found(
        &self,
        tried: &mut TriedQuestions,
        left: usize,
        names: &Names,
        used: &[usize],
    ) -> Result<bool, AllocError>
        requires whole { left + length used.now ≡ chain_limit }
        requires ready { IsRightFor self.now.patterns self.now.known.now tried.old (length used.now) }
        ensures found { IfOk result (λ all. all ≡ list_all
            (λ name. is_some (fitting self.now.patterns self.now.known.now left used.now name)) names.now) }
        ensures leaves { OnOk result (HasAnswered self.now.patterns self.now.known.now tried.old tried.new
            (length used.now) (questions_for (fitting self.now.patterns self.now.known.now left)
            (asking self.now.patterns self.now.known.now left) used.now names.now)) }
        ensures kept { KeepsAnswers tried.old tried.new }
    {
        let mut at = 0;
        while at < names.len() {
            if self.ask(tried, left, names.name_at(at), used)?.is_none() {
                return Ok(false);
            }
            at += 1;
        }
        Ok(true)
    }

    // The unknown prerequisites of a candidate, in order and each once.
    fn unknown(&self, name: &[u8], candidate: &Candidate) -> Result<Names, AllocError>
        requires { AreWithin self.now.patterns name.now (candidate.now ∷ []) }
        ensures { IfOk result (λ unknown. IfSome (candidate_view self.now.patterns name.now candidate.now)
            (λ told. unknown ≡ unknown_needs self.now.known.now told)) }
    {
        match self.patterns.get(candidate.rule) {
            Some(pattern) => self.unknown_with(
                Stemming::new(&candidate.fit, name),
                pattern.needs(),
            ),
            None => Ok(Names::new(self.alloc)),
        }
    }

    #[tactic(auto, using(crate::proofs::lemmas::search::UnknownLemmas::unknown_both))]
    fn unknown_with(&self, stemming: Stemming, needs: &Needs) -> Result<Names, AllocError>
        ensures { IfOk result (λ unknown. unknown ≡ without_repeats (unknown_of self.now.known.now
            (all_needs (needs_with stemming.entry.directory.now stemming.entry.stem.now needs.now)))) }
    {
        let mut unknown = Names::new(self.alloc);
        self.add_unknown(stemming, needs.prerequisites.as_slice(), &mut unknown)?;
        self.add_unknown(stemming, needs.order_only.as_slice(), &mut unknown)?;
        Ok(unknown)
    }

    #[tactic(auto, using(crate::proofs::lemmas::search::UnknownLemmas::unknown_step))]
    fn add_unknown(
        &self,
        stemming: Stemming,
        names: &[Name],
        unknown: &mut Names,
    ) -> Result<(), AllocError>
        ensures { OnOk result (unknown.new ≡ fold with_name unknown.old (unknown_of self.now.known.now
            (needed_names stemming.entry.directory.now stemming.entry.stem.now names.now))) }
    {
        for name in names {
            let needed = stemming.name(self.alloc, name.as_slice())?;
            self.add_if_unknown(needed.as_slice(), unknown)?;
        }
        Ok(())
    }

    #[tactic(auto, using(crate::proofs::lemmas::search::UnknownLemmas::one_unknown))]
    fn add_if_unknown(&self, name: &[u8], unknown: &mut Names) -> Result<(), AllocError>
        ensures { OnOk result (unknown.new ≡ fold with_name unknown.old
            (unknown_of self.now.known.now (name.now ∷ []))) }
    {
        if self.known.contains(name) {
            return Ok(());
        }
        unknown.add(name)
    }

    // The choice of a candidate for a name.
    fn chosen(&self, name: &[u8], candidate: Candidate) -> Result<Chosen, AllocError>
        requires { AreWithin self.now.patterns name.now (candidate ∷ []) }
        ensures { IfOk result (λ chosen. IfSome (candidate_view self.now.patterns name.now candidate)
            (λ told. chosen ≡ choice_view told)) }
    {
        let directory = Name::copied(self.alloc, candidate.fit.directory(name))?;
        let stem = Name::copied(self.alloc, candidate.fit.stem(name))?;
        Ok(Chosen {
            rule: candidate.rule,
            directory,
            stem,
        })
    }
}

fn is_used(used: &[usize], rule: usize) -> bool
    ensures { result ≡ is_used used.now rule }
{
    used.iter().any(|other| rule == *other)
}

// The number of rules in a chain that aren't greater than a rule: the chain is in rising order.
fn place_in(used: &[usize], rule: usize) -> usize
    ensures { result ≡ prefix_len (λ other. nat_le other rule) used.now }
{
    used.iter().take_while(|other| **other <= rule).count()
}

// A chain with one more rule.
#[tactic(auto, using(crate::proofs::lemmas::search::AskingLemmas::put_between))]
fn with_rule(alloc: Global, used: &[usize], rule: usize) -> Result<Vec<usize>, AllocError>
    ensures { IfOk result (λ chain. chain.items ≡ with_rule rule used.now) }
{
    let place = place_in(used, rule);
    let mut chain = Vec::with_capacity(alloc, used.len() + 1)?;
    chain.extend_from_slice(&used[..place])?;
    chain.push(rule)?;
    chain.extend_from_slice(&used[place..])?;
    Ok(chain)
}
