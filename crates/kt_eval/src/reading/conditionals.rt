//! Conditions of conditionals.
ghost use Rattle.std.specs.Prelude.{◌≡◌, Bool, option_map, true};
ghost use Rattle.kt_text.specs.Words.{words_of};
ghost use Rattle.kt_syntax.specs.views.Lines.{line_form_view};
ghost use Rattle.kt_eval.specs.reading.Conditionals.{are_equal, bad_conditional, else_holds, holds, is_defined, is_set};
ghost use Rattle.kt_eval.specs.reading.Conditionals.{line_holds, text_holds, worded_holds};
ghost use Rattle.kt_eval.specs.inner.Doing.{Does};
ghost use Rattle.kt_eval.specs.views.Outcome.{Gives, IfCut, Blames};
ghost use Rattle.kt_eval.specs.Outcome.{left_of};
ghost use Rattle.kt_eval.specs.inner.Evaluation.{GoesOn, files_of};
ghost use Rattle.kt_eval.specs.inner.Views.{compared_view};

use crate::evaluation::Evaluation;
use crate::files::Files;
use crate::macros::scope::MacroScope;
use crate::reading::conditions::{
    ComparedTexts, compared_texts, text_after_word, word_before_blank,
};
use crate::stop::Stop;
use kt_rules::FaultKind;
use kt_syntax::{Directive, Form, classify_text, plain};
use kt_text::words;

impl<'a, M: MacroScope, F: Files> Evaluation<'a, M, F> {
    fn bad_conditional(&self) -> Result<bool, Stop>
        ensures gives { Gives (λ b. b) result self.now.world (bad_conditional self.now.world) }
        ensures cut { IfCut result (GoesOn self.now.world (left_of (bad_conditional {A = Bool} self.now.world))) }
        ensures blames { Blames result (files_of self.now) (files_of self.now) }
    {
        Err(Stop::Fault(self.fault(FaultKind::BadConditional, b"")?))
    }

    // Whether the macro with this name has an unexpanded value that isn't empty. It must be exactly one name.
    #[tactic(auto, unfolding(crate::specs::reading::Conditionals::is_set))]
    fn is_set(&self, names: &[u8]) -> Result<bool, Stop>
        ensures gives { Gives (λ b. b) result self.now.world (is_set (words_of names.now) self.now.world) }
        ensures cut { IfCut result (GoesOn self.now.world (left_of (is_set (words_of names.now) self.now.world))) }
        ensures blames { Blames result (files_of self.now) (files_of self.now) }
    {
        let mut rest = words(names);
        let Some(name) = rest.next() else {
            return self.bad_conditional();
        };
        if rest.next().is_some() {
            return self.bad_conditional();
        }
        match self.lookup(name)? {
            None => Ok(false),
            Some(found) => Ok(!found.value.as_slice().is_empty()),
        }
    }

    #[cycle(evaluate)]
    #[tactic(auto, using(crate::proofs::Steps::is_set_goes), unfolding(crate::proofs::Common::is_defined))]
    pub(crate) fn is_defined(&mut self, below: u64, text: &[u8]) -> Result<bool, Stop>
        requires { M.writable ≡ true }
        ensures { Does (λ b. b) M.writable below (λ e. is_defined e text.now) result self.old self.new }
    {
        let x = self.expand_text(below, text)?;
        self.is_set(x.as_slice())
    }

    #[cycle(evaluate)]
    #[tactic(auto)]
    pub(crate) fn are_equal(
        &mut self,
        below: u64,
        compared: Option<ComparedTexts<'_>>,
    ) -> Result<bool, Stop>
        requires { M.writable ≡ true }
        ensures { Does (λ b. b) M.writable below
            (λ e. are_equal e (option_map compared_view compared.entry)) result self.old self.new }
    {
        match self.plainly_equal(below, compared) {
            Some(same) => Ok(same),
            None => self.expanded_equal(below, compared),
        }
    }

    // As `are_equal`, for any texts, by a text of its own for each that has a dollar.
    #[cycle(evaluate)]
    #[tactic(auto, using(crate::proofs::Steps::expanded_goes), unfolding(crate::proofs::Common::are_equal))]
    pub(crate) fn expanded_equal(
        &mut self,
        below: u64,
        compared: Option<ComparedTexts<'_>>,
    ) -> Result<bool, Stop>
        requires { M.writable ≡ true }
        ensures { Does (λ b. b) M.writable below
            (λ e. are_equal e (option_map compared_view compared.entry)) result self.old self.new }
    {
        let Some(compared) = compared else {
            return self.bad_conditional();
        };
        let x = self.expand_text(below, compared.first)?;
        let y = self.expand_text(below, compared.second)?;
        Ok(x.as_slice() == y.as_slice())
    }

    #[cycle(evaluate)]
    #[tactic(auto, unfolding(crate::specs::reading::Conditionals::holds))]
    pub(crate) fn holds(&mut self, below: u64, word: Directive, text: &[u8]) -> Result<bool, Stop>
        requires { M.writable ≡ true }
        ensures { Does (λ b. b) M.writable below (λ e. holds e word text.now) result self.old self.new }
    {
        match word {
            Directive::Ifdef => self.is_defined(below, text),
            Directive::Ifndef => Ok(!self.is_defined(below, text)?),
            Directive::Ifeq => self.are_equal(below, compared_texts(text)),
            Directive::Ifneq => Ok(!self.are_equal(below, compared_texts(text))?),
            _ => self.bad_conditional(),
        }
    }

    #[cycle(evaluate)]
    #[tactic(auto)]
    pub(crate) fn worded_holds(
        &mut self,
        below: u64,
        form: Form<'_>,
        text: &[u8],
    ) -> Result<bool, Stop>
        requires { M.writable ≡ true }
        ensures { Does (λ b. b) M.writable below
            (λ e. worded_holds e (line_form_view form.entry) text.now) result self.old self.new }
    {
        match form {
            Form::Directive(word, _) => self.holds(below, word, text),
            _ => self.bad_conditional(),
        }
    }

    #[cycle(evaluate)]
    #[tactic(auto, unfolding(crate::specs::reading::Conditionals::text_holds))]
    pub(crate) fn text_holds(&mut self, below: u64, text: &[u8]) -> Result<bool, Stop>
        requires { M.writable ≡ true }
        ensures { Does (λ b. b) M.writable below (λ e. text_holds e text.now) result self.old self.new }
    {
        self.worded_holds(
            below,
            classify_text(word_before_blank(text), false),
            text_after_word(text),
        )
    }

    // An `else` without a condition is always taken.
    #[cycle(evaluate)]
    #[tactic(auto, using(crate::proofs::Steps::text_holds_goes), unfolding(crate::proofs::Common::else_holds))]
    pub(crate) fn else_holds(
        &mut self,
        below: u64,
        condition: bool,
        rest: &[u8],
    ) -> Result<bool, Stop>
        requires { M.writable ≡ true }
        ensures { Does (λ b. b) M.writable below (λ e. else_holds e condition rest.now) result self.old self.new }
    {
        if !condition {
            return Ok(true);
        }
        let text = plain(self.alloc, rest)?;
        self.text_holds(below, text.as_slice())
    }

    #[cycle(evaluate)]
    #[tactic(auto, using(crate::proofs::Steps::holds_goes), unfolding(crate::specs::reading::Conditionals::line_holds))]
    pub(crate) fn line_holds(
        &mut self,
        below: u64,
        condition: bool,
        form: Form<'_>,
    ) -> Result<bool, Stop>
        requires { M.writable ≡ true }
        ensures { Does (λ b. b) M.writable below
            (λ e. line_holds e condition (line_form_view form.entry)) result self.old self.new }
    {
        match form {
            Form::Directive(Directive::Else, rest) => self.else_holds(below, condition, rest),
            Form::Directive(word, rest) => {
                let text = plain(self.alloc, rest)?;
                self.holds(below, word, text.as_slice())
            }
            _ => self.bad_conditional(),
        }
    }
}
