//! Expands texts, each level of nesting with one level less.
//! Fast: an expansion goes into one buffer: literals, and values that need no level, are appended to it. Spares an
//! allocation for each of them.
//! Fast: a text without a dollar is borrowed. Spares an allocation; with borrowed parts of lines and a shell expanded
//! once, 3 to 12 a unit.
ghost use Rattle.std.specs.Prelude.{◌==◌};
ghost use Rattle.std.specs.Cow.{cow_slice_items};
ghost use Rattle.kt_syntax.specs.views.Terms.{token_of};
ghost use Rattle.kt_eval.specs.State.{lookup};
ghost use Rattle.kt_eval.specs.inner.Doing.{Does};
ghost use Rattle.kt_eval.specs.inner.Plain.{with_term};
ghost use Rattle.kt_eval.specs.views.expanding.Calls.{asked_view};
ghost use Rattle.kt_eval.specs.expanding.Calls.{naming_of};
ghost use Rattle.kt_eval.specs.expanding.Expansion.{expanded, referred, term_of, value_named, value_of};

use crate::evaluation::Evaluation;
use crate::expanding::calls::{Naming, Request, name_in};
use crate::files::Files;
use crate::macros::has_dollar;
use crate::macros::scope::MacroScope;
use crate::state::TermRest;
use crate::stop::Stop;
use kt_rules::FaultKind;
use kt_syntax::{Term, Unterminated, terms};
use kt_text::functions::patsubst;
use std::borrow::CowSlice;

// An expansion is mostly longer than its text, by less than this.
const SPARE: usize = 64;

impl<'a, M: MacroScope, F: Files> Evaluation<'a, M, F> {
    // Expands a text one level deeper than its caller.
    #[cycle(evaluate)]
    #[tactic(auto, using(crate::proofs::LevelLemmas::evaluator_above), unfolding(crate::proofs::LevelLemmas::opened))]
    pub(crate) fn expand(&mut self, levels: u64, text: &[u8]) -> Result<Vec<u8>, Stop>
        ensures { Does (λ v. v.items) M.writable levels (λ e. e.expand text.now) result self.old self.new }
    {
        if levels == 0 {
            return Err(Stop::Fault(self.fault(FaultKind::NestingTooDeep, b"")?));
        }
        self.expand_here(levels - 1, text)
    }

    // Expands a text at the level of its caller. A text without a dollar is borrowed as it is.
    #[cycle(evaluate)]
    #[tactic(auto, using(crate::proofs::lemmas::expanding::LiteralLemmas::stays))]
    pub(crate) fn expand_text<'t>(
        &mut self,
        below: u64,
        text: &'t [u8],
    ) -> Result<CowSlice<'t, u8>, Stop>
        ensures { Does cow_slice_items M.writable below (λ e. expanded e text.now) result self.old self.new }
    {
        if !has_dollar(text) {
            return Ok(CowSlice::Borrowed(text));
        }
        Ok(CowSlice::Owned(self.expand_here(below, text)?))
    }

    #[cycle(evaluate)]
    #[tactic(auto, using(crate::proofs::Steps::each_term_goes), unfolding(crate::proofs::Steps::each_term_open))]
    pub(crate) fn expand_here(&mut self, below: u64, text: &[u8]) -> Result<Vec<u8>, Stop>
        ensures { Does (λ v. v.items) M.writable below (λ e. expanded e text.now) result self.old self.new }
    {
        let mut out = Vec::with_capacity(self.alloc, text.len().saturating_add(SPARE))?;
        let mut rest = terms(text);
        'terms: while let Some(term) = rest.next() {
            self.put_term(below, term, &mut out)?;
        }
        Ok(out)
    }

    // Appends the expansion of a term. If it needs no further level, no text is allocated for it.
    #[cycle(evaluate)]
    #[tactic(auto, using(crate::proofs::Steps::appended_goes), unfolding(crate::specs::inner::Plain::with_term))]
    pub(crate) fn put_term(
        &mut self,
        below: u64,
        term: Result<Term<'_>, Unterminated>,
        out: &mut Vec<u8>,
    ) -> Result<(), Stop>
        ensures { Does (λ _. out.new.items) M.writable below
            (λ e. with_term e out.old.items (token_of term.entry)) result self.old self.new }
    {
        match self.put_plain(below, term, out)? {
            TermRest::Nothing => Ok(()),
            TermRest::Value(value) => {
                let x = self.expand(below, value.as_slice())?;
                out.extend_from_slice(&x)?;
                Ok(())
            }
            TermRest::Whole => {
                let x = self.expand_term(below, term)?;
                out.extend_from_slice(&x)?;
                Ok(())
            }
        }
    }

    #[cycle(evaluate)]
    #[tactic(auto, using(crate::proofs::Steps::referred_goes), unfolding(crate::specs::expanding::Expansion::term_of))]
    pub(crate) fn expand_term(
        &mut self,
        below: u64,
        term: Result<Term<'_>, Unterminated>,
    ) -> Result<Vec<u8>, Stop>
        ensures { Does (λ v. v.items) M.writable below (λ e. term_of e (token_of term.entry)) result self.old self.new }
    {
        match term {
            Ok(Term::Lit(bytes)) => Ok(Vec::from_slice(self.alloc, bytes)?),
            Ok(Term::Dollar) => Ok(Vec::from_slice(self.alloc, b"$")?),
            Ok(Term::Ref(mark, body)) => {
                let asked = Request::by(self.alloc, mark, body)?;
                self.refer(below, asked)
            }
            Err(Unterminated) => {
                Err(Stop::Fault(self.fault(FaultKind::UnterminatedReference, b"")?))
            }
        }
    }

    #[cycle(evaluate)]
    #[tactic(auto, using(crate::proofs::Steps::value_named_goes), unfolding(crate::proofs::Steps::referred_open))]
    pub(crate) fn refer(&mut self, below: u64, asked: Request<'_>) -> Result<Vec<u8>, Stop>
        ensures { Does (λ v. v.items) M.writable below
            (λ e. referred e (asked_view asked.entry)) result self.old self.new }
    {
        match asked {
            Request::Calls(function, arguments) => self.apply(below, function, &arguments),
            Request::Refuses(name) => {
                Err(Stop::Fault(self.fault(FaultKind::RefusedFunction, name)?))
            }
            Request::Refers(body) => {
                if !has_dollar(body) {
                    return self.value_named(below, body);
                }
                let name = self.expand(below, body)?;
                self.value_named(below, &name)
            }
        }
    }

    #[cycle(evaluate)]
    #[tactic(auto, using(crate::proofs::Steps::value_named_steps), unfolding(crate::proofs::Common::value_named))]
    pub(crate) fn value_named(&mut self, below: u64, body: &[u8]) -> Result<Vec<u8>, Stop>
        ensures { Does (λ v. v.items) M.writable below
            (λ e. value_named e (naming_of body.now)) result self.old self.new }
    {
        match name_in(self.alloc, body)? {
            Naming::Plainly(name) => self.value_of(below, name),
            Naming::Substituting(name, pattern, replacement) => {
                let value = self.value_of(below, name)?;
                let replaced = patsubst(self.alloc, &pattern, &replacement, &value);
                self.accept(b"patsubst", replaced)
            }
        }
    }

    #[cycle(evaluate)]
    #[tactic(auto, using(crate::proofs::Steps::value_of_goes), unfolding(crate::specs::expanding::Expansion::value_of))]
    pub(crate) fn value_of(&mut self, below: u64, name: &[u8]) -> Result<Vec<u8>, Stop>
        ensures { Does (λ v. v.items) M.writable below
            (λ e. value_of e (lookup name.now self.old.world)) result self.old self.new }
    {
        let mut out = Vec::new(self.alloc);
        match self.put_value(below, name, &mut out)? {
            None => Ok(out),
            Some(value) => self.expand(below, value.as_slice()),
        }
    }
}
