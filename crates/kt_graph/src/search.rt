//! The search for a pattern rule that makes a name.
//!
//! Takes the pattern rules of a book, the known names and a name, and returns the rule that makes it, with its
//! directory and stem, or that none does. Questions are kept with their answers, so that nothing is asked twice.
ghost use Rattle.std.specs.Prelude.{◌≡◌, [], map, option_map, IfOk, OnErr, OnOk};
ghost use Rattle.std.specs.List.{IsDistinct};
ghost use Rattle.kt_rules.specs.Book.{patterns_of};
ghost use Rattle.kt_graph.specs.views.search.Search.{IsFoundByTrees, question_eq, questions_after, question_view};
ghost use Rattle.kt_graph.specs.views.search.Search.{choice_view};
ghost use Rattle.kt_graph.specs.search.Search.{choice_of};

mod candidate;
mod candidates;
mod chains;
pub(crate) mod choice;
mod ends;
pub(crate) mod finding;
mod knowing;
mod patterns;
mod question;
pub(crate) mod stemming;
mod tried;

use crate::known::Known;
use crate::search::chains::Chains;
use crate::search::patterns::Patterns;
use crate::search::tried::TriedQuestions;
pub use choice::{Choice, Chosen};
use kt_rules::Book;
pub use question::{Question, Used};
use std::alloc::{AllocError, Global};
use std::marker::Model;

/// A search for the pattern rules that make names (GNU make manual, "Implicit Rule Search
/// Algorithm").
///
/// No question is answered twice.
#[derive(Drop)]
pub struct Search<'a> {
    chains: Chains<'a>,
    // The questions so far, with their answers.
    tried: TriedQuestions,
}

impl<'a> Model for Search<'a> {
    ghost use Rattle.kt_graph.specs.views.search.Search.{Search};

    ghost Value = { Search };

    ghost use Rattle.std.specs.Prelude.{map};
    ghost use Rattle.kt_graph.specs.inner.search.Chains.{IsRight};
    ghost use Rattle.kt_graph.specs.views.search.Search.{question_view};

    ghost view = { λ search. record {
      rules = search.chains.patterns;
      known = search.chains.known.now;
      asked = map question_view search.tried.questions.keys;
    } };

    ghost invariant = { λ search. IsRight search.chains.patterns search.chains.known.now search.tried.questions.keys
        search.tried.answers.items 0 };
}

impl<'a> Search<'a> {
    ghost use Rattle.kt_graph.specs.views.search.Search.{Search as SearchSeen};

    /// A search without questions so far.
    pub fn new(
        alloc: Global,
        book: &'a Book,
        known: &'a Known<'a>,
    ) -> Result<Search<'a>, AllocError>
        ensures { IfOk result (λ search. search ≡ record {
          rules = patterns_of book.now;
          known = known.now;
          asked = [];
        }) }
    {
        let patterns = Patterns::of(alloc, book.patterns()?)?;
        Ok(Search {
            chains: Chains::new(alloc, patterns, known),
            tried: TriedQuestions::new(alloc),
        })
    }

    /// The rule that makes a name.
    ///
    /// It is the first whose prerequisites are all known, or else the first for which the same search finds a rule for
    /// each unknown prerequisite; a chain has at most 8 rules, each once. If memory runs out, the search is as it was.
    pub fn choose(&mut self, name: &[u8]) -> Result<Choice, AllocError>
        ensures chosen { IfOk result (λ choice. choice
            ≡ option_map choice_view (choice_of self.old.rules self.old.known name.now)) }
        ensures trees { IfOk result (IsFoundByTrees self.old.rules self.old.known name.now) }
        ensures asked { OnOk result (self.new
            ≡ record self.old { asked = questions_after self.old.rules self.old.known self.old.asked name.now }) }
        ensures refused { OnErr result (self.new ≡ self.old) }
    {
        let count = self.tried.count();
        let choice = self.chains.choice(&mut self.tried, name);
        if choice.is_err() {
            self.tried.truncate(count);
        }
        choice
    }

    /// The questions so far, each once and in order. Takes no memory.
    pub fn tried(&self) -> &[Question]
        ensures asked { map question_view result.now ≡ self.now.asked }
        ensures once { IsDistinct question_eq self.now.asked }
    {
        self.tried.questions()
    }
}
