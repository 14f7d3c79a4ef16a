//! The questions of a search, with their answers.
ghost use Rattle.std.specs.Prelude.{◌≡◌, [], None, length, map, take, slice_get, slice_set, unwrap_or, IfOk};
ghost use Rattle.std.specs.List.{IsDistinct};
ghost use Rattle.kt_graph.specs.inner.search.Chains.{IsAnswerPlaced, KeepsAnswers};
ghost use Rattle.kt_graph.specs.views.search.Search.{question_eq, question_view};

use crate::search::candidate::Candidate;
use crate::search::question::Question;
use indexmap::IndexSet;
use std::alloc::{AllocError, Global};

/// The questions of a search, each once and in order.
///
/// A question is added before its answer is found.
#[derive(Drop)]
pub(crate) struct TriedQuestions {
    questions: IndexSet<Question>,
    // The answer to each question.
    answers: Vec<Option<Candidate>>,
}

/// Where a question is among the others.
#[derive(Clone, Copy)]
pub(crate) enum QuestionPlace {
    /// It was there already, with this answer.
    Before(Option<Candidate>),
    /// It was added at this place, after all others, and has no answer yet.
    Last(usize),
}

impl TriedQuestions {
    pub(crate) fn new(alloc: Global) -> TriedQuestions
        ensures questions { result.questions.keys ≡ [] }
        ensures answers { result.answers.items ≡ [] }
    {
        TriedQuestions {
            questions: IndexSet::new(alloc),
            answers: Vec::new(alloc),
        }
    }

    /// The questions, in order.
    #[tactic(auto, using(crate::proofs::lemmas::search::QuestionLemmas::told_once))]
    pub(crate) fn questions(&self) -> &[Question]
        ensures value { result.now ≡ self.now.questions.keys }
        ensures once { IsDistinct question_eq (map question_view result.now) }
    {
        self.questions.as_slice()
    }

    /// The number of questions.
    pub(crate) fn count(&self) -> usize
        ensures { result ≡ length self.now.questions.keys }
    {
        self.questions.as_slice().len()
    }

    /// Removes all questions but the first ones.
    pub(crate) fn truncate(&mut self, count: usize)
        ensures questions { self.new.questions.keys ≡ take count self.old.questions.keys }
        ensures answers { self.new.answers.items ≡ take count self.old.answers.items }
    {
        self.questions.truncate(count);
        self.answers.truncate(count);
    }

    /// Adds a question, unless it is there. If memory runs out, it may be there without a place for its answer.
    #[tactic(auto, using(crate::proofs::lemmas::search::PlacingLemmas::placed_before))]
    pub(crate) fn put(&mut self, question: Question) -> Result<QuestionPlace, AllocError>
        ensures placed { IfOk result (IsAnswerPlaced self.old self.new question) }
        ensures kept { KeepsAnswers self.old self.new }
    {
        let (place, is_new) = self.questions.insert_full(question)?;
        if is_new {
            self.answers.push(None)?;
            return Ok(QuestionPlace::Last(place));
        }
        Ok(QuestionPlace::Before(self.answer_at(place)))
    }

    fn answer_at(&self, place: usize) -> Option<Candidate>
        ensures { result ≡ unwrap_or (slice_get self.now.answers.items place) None }
    {
        self.answers.get(place).copied().flatten()
    }

    /// Sets the answer to a question.
    pub(crate) fn note(&mut self, place: usize, answer: Option<Candidate>)
        ensures questions { self.new.questions ≡ self.old.questions }
        ensures answers { self.new.answers.items ≡ slice_set self.old.answers.items place answer }
    {
        if let Some(slot) = self.answers.get_mut(place) {
            *slot = answer;
        }
    }
}
