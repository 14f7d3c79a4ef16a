//! The search for the rules of names that are asked for once each.
//! Fast: a question without a chain isn't kept, since the graph asks for each name once. Spares a question for each
//! leaf.
ghost use Rattle.std.specs.Prelude.{◌≡◌, option_map, IfOk};
ghost use Rattle.kt_rules.specs.Book.{patterns_of};
ghost use Rattle.kt_graph.specs.search.Search.{choice_of};
ghost use Rattle.kt_graph.specs.views.search.Search.{choice_view};

use crate::known::Known;
use crate::search::chains::Chains;
use crate::search::choice::Choice;
use crate::search::patterns::Patterns;
use crate::search::tried::TriedQuestions;
use kt_rules::{Book, Pattern};
use std::alloc::{AllocError, Global};
use std::marker::Model;

/// A search that keeps no question without a chain, for names of which none is asked for again.
///
/// The questions that lead to an answer have chains, and may be those of other names, too. None of them is answered
/// twice.
#[derive(Drop)]
pub(crate) struct Finder<'a> {
    chains: Chains<'a>,
    // The questions with chains so far, with their answers.
    tried: TriedQuestions,
}

impl<'a> Model for Finder<'a> {
    ghost use Rattle.kt_graph.specs.inner.search.Chains.{Finder};

    ghost Value = { Finder };

    ghost use Rattle.kt_graph.specs.inner.search.Chains.{IsRight};

    ghost view = { λ finder. record {
      rules = finder.chains.patterns;
      known = finder.chains.known.now;
    } };

    ghost invariant = { λ finder. IsRight finder.chains.patterns finder.chains.known.now finder.tried.questions.keys
        finder.tried.answers.items 1 };
}

impl<'a> Finder<'a> {
    ghost use Rattle.kt_graph.specs.inner.search.Chains.{Finder as FinderSeen};

    /// A search without questions so far.
    pub(crate) fn new(
        alloc: Global,
        book: &'a Book,
        known: &'a Known<'a>,
    ) -> Result<Finder<'a>, AllocError>
        ensures { IfOk result (λ finder. finder ≡ record {
          rules = patterns_of book.now;
          known = known.now;
        }) }
    {
        let patterns = Patterns::of(alloc, book.patterns()?)?;
        Ok(Finder {
            chains: Chains::new(alloc, patterns, known),
            tried: TriedQuestions::new(alloc),
        })
    }

    /// The rule that makes a name, as `Search::choose` finds it.
    pub(crate) fn choose(&mut self, name: &[u8]) -> Result<Choice, AllocError>
        ensures chosen { IfOk result (λ choice. choice
            ≡ option_map choice_view (choice_of self.old.rules self.old.known name.now)) }
        ensures same { self.new ≡ self.old }
    {
        let count = self.tried.count();
        let choice = self.chains.choice_alone(&mut self.tried, name);
        if choice.is_err() {
            self.tried.truncate(count);
        }
        choice
    }

    /// The pattern rules of the search.
    pub(crate) fn patterns(&self) -> &[Pattern<'a>]
        ensures { result.now ≡ self.now.rules }
    {
        self.chains.patterns()
    }
}
