//! Assignments and defines.
ghost use Rattle.std.specs.Prelude.{◌≡◌, ◌==◌, ◌||◌, true};
ghost use Rattle.std.specs.List.{list_any};
ghost use Rattle.kt_text.specs.Words.{is_separator};
ghost use Rattle.kt_syntax.specs.views.Lines.{line_form_view};
ghost use Rattle.kt_eval.specs.macros.Assignments.{assign, assign_line, assign_named, define, is_bad_name};
ghost use Rattle.kt_eval.specs.inner.Doing.{Does};
ghost use Rattle.kt_eval.specs.inner.Evaluation.{Keeps};
ghost use Rattle.kt_eval.specs.inner.Views.{assigning_view};

use crate::evaluation::Evaluation;
use crate::files::Files;
use crate::macros::Flavour;
use crate::macros::assigning::{Assigning, doubled};
use crate::macros::scope::MacroScope;
use crate::reading::conditions::trimmed;
use crate::stop::Stop;
use kt_rules::FaultKind;
use kt_syntax::{Form, Operator, plain};
use kt_text::is_separator;
use std::borrow::CowSlice;

fn is_bad_name(name: &[u8]) -> bool
    ensures { result ≡ is_bad_name name.now }
{
    name.is_empty() || has_separator(name)
}

fn has_separator(name: &[u8]) -> bool
    ensures { result ≡ list_any is_separator name.now }
{
    name.iter().any(|byte| is_separator(*byte))
}

impl<'a, M: MacroScope, F: Files> Evaluation<'a, M, F> {
    #[cycle(evaluate)]
    #[tactic(auto, unfolding(crate::specs::macros::Assignments::assign))]
    pub(crate) fn assign(
        &mut self,
        below: u64,
        name: &[u8],
        text: &[u8],
        does: Assigning,
    ) -> Result<(), Stop>
        requires { M.writable ≡ true }
        ensures { Does (λ u. u) M.writable below
            (λ e. assign e name.now text.now (assigning_view does)) result self.old self.new }
    {
        match does {
            Assigning::Keeps => Ok(()),
            Assigning::Defers(front) => {
                let text = CowSlice::Borrowed(text);
                Ok(self.set_macro(name, Flavour::Deferred, front, text)?)
            }
            Assigning::Expands(front) => {
                let x = self.expand_text(below, text)?;
                Ok(self.set_macro(name, Flavour::Immediate, front, x)?)
            }
            Assigning::Escapes => {
                let x = self.expand_text(below, text)?;
                let x = CowSlice::Owned(doubled(self.alloc, x.as_slice())?);
                Ok(self.set_macro(name, Flavour::Deferred, None, x)?)
            }
        }
    }

    #[cycle(evaluate)]
    #[tactic(auto, using(crate::proofs::Steps::assign_goes), unfolding(crate::proofs::Common::assign_named))]
    pub(crate) fn assign_named(
        &mut self,
        below: u64,
        operator: Operator,
        text: &[u8],
        name: &[u8],
    ) -> Result<(), Stop>
        requires { M.writable ≡ true }
        ensures { Does (λ u. u) M.writable below
            (λ e. assign_named e operator text.now name.now) result self.old self.new }
    {
        if is_bad_name(name) {
            return Err(Stop::Fault(self.fault(FaultKind::BadMacroName, b"")?));
        }
        let does = self.assigning(operator, name)?;
        self.assign(below, name, text, does)
    }

    // `!=` is refused before the name is expanded.
    #[cycle(evaluate)]
    #[tactic(auto, using(crate::proofs::Steps::assign_named_goes), unfolding(crate::proofs::Common::assign_line))]
    pub(crate) fn assign_line(
        &mut self,
        below: u64,
        name: &[u8],
        operator: Operator,
        text: &[u8],
    ) -> Result<(), Stop>
        requires { M.writable ≡ true }
        ensures { Does (λ u. u) M.writable below
            (λ e. assign_line e name.now operator text.now) result self.old self.new }
    {
        if operator == Operator::Shell {
            return Err(Stop::Fault(self.fault(FaultKind::RefusedForm, b"!=")?));
        }
        let name = self.expand_text(below, name)?;
        self.assign_named(below, operator, text, name.as_slice())
    }

    // Text after the operator of a define is ignored.
    #[cycle(evaluate)]
    #[tactic(auto, using(crate::proofs::Steps::assign_line_goes), unfolding(crate::specs::macros::Assignments::define))]
    pub(crate) fn define(
        &mut self,
        below: u64,
        rest: &[u8],
        form: Form<'_>,
        body: &[u8],
    ) -> Result<(), Stop>
        requires { M.writable ≡ true }
        ensures { Does (λ u. u) M.writable below
            (λ e. define e rest.now (line_form_view form.entry) body.now) result self.old self.new }
    {
        match form {
            Form::Assignment(name, operator, _) => {
                let name = plain(self.alloc, name)?;
                self.assign_line(below, name.as_slice(), operator, body)
            }
            _ => {
                let name = plain(self.alloc, rest)?;
                self.assign_line(below, trimmed(name.as_slice()), Operator::Deferred, body)
            }
        }
    }
}
