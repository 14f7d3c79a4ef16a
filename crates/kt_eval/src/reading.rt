//! Reads makefiles, line by line.
//!
//! Takes the bytes of a makefile. Each line does what its kind says: it assigns, opens a rule, continues a recipe,
//! includes a file, or chooses a branch. Returns macros, rules and messages, or the first fault.
ghost use Rattle.std.specs.Prelude.{◌≡◌, length, option_map, IfOk, Some, false, true};
ghost use Rattle.kt_syntax.specs.Kinds.{line_form};
ghost use Rattle.kt_syntax.specs.views.Lines.{line_form_view};
ghost use Rattle.kt_syntax.specs.Blocks.{tree_of};
ghost use Rattle.kt_syntax.specs.views.Reading.{IsAhead, IsConditional};
ghost use Rattle.kt_syntax.specs.declared.step.BlockStep.TheVariants as step;
ghost use Rattle.kt_eval.specs.reading.Reading.{branch_holds, read_bare_tab, read_define, read_end, read_held};
ghost use Rattle.kt_eval.specs.reading.Reading.{read_include, read_items, read_kind, read_line, read_sheet, read_stray};
ghost use Rattle.kt_eval.specs.reading.Reading.{read_tab, read_text};
ghost use Rattle.kt_eval.specs.macros.Assignments.{assign_line};
ghost use Rattle.kt_eval.specs.reading.Rules.{rule_line, rule_of_parts};
ghost use Rattle.kt_syntax.specs.Comments.{plain_of};
ghost use Rattle.kt_eval.specs.inner.Doing.{Does, DoesWithoutFiles, IsStepAt, ReadsUpTo};
ghost use Rattle.kt_eval.specs.Outcome.{Stopped};
ghost use Rattle.kt_eval.specs.inner.Views.{raw_view};

mod conditionals;
pub(crate) mod conditions;
mod machine;
pub(crate) mod page;
pub(crate) mod recipe_texts;

use crate::evaluation::Evaluation;
use crate::fault::Fault;
use crate::files::Files;
use crate::macros::scope::MacroScope;
use crate::reading::page::{Page, RawLine, Source};
use crate::stop::Stop;
use kt_rules::FaultKind;
use kt_syntax::{
    BlockStep, Directive, Form, LineText, Missing, Operator, Stray, TargetSpecific, classify,
    classify_text, plain, rule_parts,
};
use kt_text::{LineFault, line_marks};
pub use machine::{Machine, Reading};
use std::alloc::AllocError;

impl<'a, M: MacroScope, F: Files> Evaluation<'a, M, F> {
    // Fails if the end of a block is missing.
    #[tactic(auto, using(crate::proofs::Steps::read_end_goes), unfolding(crate::specs::reading::Reading::read_end))]
    fn read_end(&mut self, source: &Source, missing: Option<Missing>) -> Result<(), Stop>
        ensures { DoesWithoutFiles (read_end source.now missing) result self.old self.new }
    {
        match missing {
            None => Ok(()),
            Some(Missing::Endif(number)) => {
                self.move_to(source, number)?;
                Err(Stop::Fault(self.fault(FaultKind::MissingEndif, b"")?))
            }
            Some(Missing::Endef(number)) => {
                self.move_to(source, number)?;
                Err(Stop::Fault(self.fault(FaultKind::MissingEndef, b"")?))
            }
        }
    }

    // The fault of a line that continues or ends no block.
    #[tactic(auto, unfolding(crate::specs::reading::Reading::read_stray))]
    fn stray(&self, kind: Stray) -> Result<Fault, AllocError>
        ensures { IfOk result (λ fault. read_stray kind self.now.world ≡ Stopped self.now.world fault) }
    {
        match kind {
            Stray::Else | Stray::LateElse => self.fault(FaultKind::StrayElse, b""),
            Stray::Endif => self.fault(FaultKind::StrayEndif, b""),
            Stray::Endef => self.fault(FaultKind::StrayEndef, b""),
        }
    }

    // The text of an `eval` has an open rule of its own; afterwards the outer one is open again.
    #[cycle(evaluate)]
    #[tactic(auto, unfolding(crate::specs::reading::Reading::read_held))]
    pub(crate) fn read_held(&mut self, below: u64, text: &[u8]) -> Result<(), Stop>
        requires { M.writable ≡ true }
        ensures { Does (λ u. u) M.writable below (λ e. read_held e text.now) result self.old self.new }
    {
        let outer = self.take_rule();
        self.read_text(below, &Source::Held, text)?;
        self.set_rule(outer);
        Ok(())
    }

    #[cycle(evaluate)]
    #[tactic(auto, using(crate::proofs::Steps::read_text_steps), unfolding(crate::specs::reading::Reading::read_text))]
    pub(crate) fn read_text(&mut self, below: u64, source: &Source, text: &[u8]) -> Result<(), Stop>
        requires { M.writable ≡ true }
        ensures { Does (λ u. u) M.writable below (λ e. read_text e source.now text.now) result self.old self.new }
    {
        match line_marks(self.alloc, text) {
            Ok(lines) => {
                let page = Page::new(self.alloc, source, text, lines)?;
                self.read_page(below, &page)
            }
            Err(LineFault::Nul(number)) => {
                self.move_to(source, number)?;
                Err(Stop::Fault(self.fault(FaultKind::NulByte, b"")?))
            }
            Err(LineFault::Memory) => Err(Stop::Memory),
        }
    }

    #[cycle(evaluate)]
    #[tactic(auto, using(crate::proofs::Steps::read_page_steps), unfolding(crate::specs::reading::Reading::read_sheet))]
    pub(crate) fn read_page(&mut self, below: u64, page: &Page<'_>) -> Result<(), Stop>
        requires { M.writable ≡ true }
        ensures { Does (λ u. u) M.writable below (λ e. read_sheet e page.now) result self.old self.new }
    {
        self.read_items(below, page)?;
        self.close_rule()?;
        self.read_end(page.source(), page.missing())
    }

    #[cycle(evaluate)]
    #[tactic(auto, unfolding(crate::specs::reading::Reading::read_items))]
    pub(crate) fn read_items(&mut self, below: u64, page: &Page<'_>) -> Result<(), Stop>
        requires { M.writable ≡ true }
        ensures { Does (λ u. u) M.writable below
            (λ e. read_items e page.now (tree_of page.now.blocks.steps)) result self.old self.new }
    {
        let mut place = page.first();
        'lines: while let Some(step) = page.step(place) {
            place = self.read_next(below, page, place, step)?;
        }
        Ok(())
    }

    // Passes the comments from a place on, then reads a line or tests a conditional, and returns the place to continue
    // from.
    #[cycle(evaluate)]
    #[tactic(auto)]
    pub(crate) fn read_next(
        &mut self,
        below: u64,
        page: &Page<'_>,
        place: usize,
        step: BlockStep,
    ) -> Result<usize, Stop>
        requires writable { M.writable ≡ true }
        requires step { IsStepAt page.now.blocks.steps place step }
        ensures { ReadsUpTo M.writable below page.now place result self.old self.new }
    {
        let at = page.past_comments(place, step);
        self.read_step(below, page, at, step)
    }

    // Reads the line at a place, or tests a conditional, and returns the place to continue from.
    #[cycle(evaluate)]
    #[tactic(auto, using(crate::proofs::Steps::read_items_goes), unfolding(crate::specs::reading::Reading::read_items))]
    pub(crate) fn read_step(
        &mut self,
        below: u64,
        page: &Page<'_>,
        place: usize,
        step: BlockStep,
    ) -> Result<usize, Stop>
        requires writable { M.writable ≡ true }
        requires step { IsStepAt page.now.blocks.steps place step }
        ensures { ReadsUpTo M.writable below page.now place result self.old self.new }
    {
        match step {
            BlockStep::Line => {
                let line = self.at_line(page, place)?;
                self.read_line(below, line)?;
                Ok(page.past(place))
            }
            BlockStep::Body | BlockStep::Endef | BlockStep::Endif => Ok(page.past(place)),
            BlockStep::Define { end } => {
                let line = self.at_line(page, place)?;
                let body = page.body(self.alloc, page.past(place), end)?;
                self.read_define(below, line.text, &body)?;
                Ok(end)
            }
            BlockStep::Conditional { next, after } => {
                self.read_conditional(below, page, place, next, after)
            }
            BlockStep::Branch { after, .. } => Ok(after),
            BlockStep::Stray(kind) => {
                let _line = self.at_line(page, place)?;
                Err(Stop::Fault(self.stray(kind)?))
            }
        }
    }

    // Finds the branch of a conditional that is taken, and returns the place to continue from.
    #[cycle(evaluate)]
    #[tactic(auto, using(crate::proofs::lemmas::reading::ReadingLemmas::branch_steps))]
    pub(crate) fn read_conditional(
        &mut self,
        below: u64,
        page: &Page<'_>,
        place: usize,
        next: usize,
        after: usize,
    ) -> Result<usize, Stop>
        requires writable { M.writable ≡ true }
        requires reads { IsConditional page.now.blocks.steps place next after }
        requires ahead { IsAhead place (length page.now.blocks.steps) (step.Conditional next after) }
        ensures { ReadsUpTo M.writable below page.now place result self.old self.new }
    {
        if self.branch_holds(below, page, place, true)? {
            return Ok(page.past(place));
        }
        let mut at = next;
        'branches: while let Some((condition, next)) = page.branch(at, after) {
            if self.branch_holds(below, page, at, condition)? {
                return Ok(page.past(at));
            }
            at = next;
        }
        Ok(after)
    }

    #[cycle(evaluate)]
    #[tactic(auto, using(crate::proofs::Steps::branch_holds_goes), unfolding(crate::proofs::Common::branch_holds))]
    pub(crate) fn branch_holds(
        &mut self,
        below: u64,
        page: &Page<'_>,
        place: usize,
        condition: bool,
    ) -> Result<bool, Stop>
        requires { M.writable ≡ true }
        ensures { Does (λ b. b) M.writable below
            (λ e. branch_holds e page.now place condition) result self.old self.new }
    {
        let line = self.at_line(page, place)?;
        let line = LineText::new(self.alloc, line.text)?;
        self.line_holds(below, condition, classify(&line, false))
    }

    #[cycle(evaluate)]
    #[tactic(auto, using(crate::proofs::Steps::read_kind_goes), unfolding(crate::specs::reading::Reading::read_line))]
    pub(crate) fn read_line(&mut self, below: u64, line: RawLine<'_>) -> Result<(), Stop>
        requires { M.writable ≡ true }
        ensures { Does (λ u. u) M.writable below (λ e. read_line e (raw_view line.entry)) result self.old self.new }
    {
        if line.tab {
            return self.read_tab(below, line.text);
        }
        let line = LineText::new(self.alloc, line.text)?;
        self.read_kind(below, &line, classify(&line, false))
    }

    // A line that begins with a tab belongs to the recipe of the open rule, if there is one.
    #[cycle(evaluate)]
    #[tactic(auto, unfolding(crate::specs::reading::Reading::read_tab))]
    pub(crate) fn read_tab(&mut self, below: u64, text: &[u8]) -> Result<(), Stop>
        requires { M.writable ≡ true }
        ensures { Does (λ u. u) M.writable below (λ e. read_tab e text.now) result self.old self.new }
    {
        match self.take_rule() {
            None => self.read_bare_tab(below, text),
            Some(rule) => self.recipe_line(rule, text),
        }
    }

    // A line that begins with a tab while no rule is open.
    #[cycle(evaluate)]
    #[tactic(auto, using(crate::proofs::Steps::read_bare_tab_goes))]
    pub(crate) fn read_bare_tab(&mut self, below: u64, line: &[u8]) -> Result<(), Stop>
        requires { M.writable ≡ true }
        ensures { Does (λ u. u) M.writable below
            (λ e. read_bare_tab e (line_form line.now true)) result self.old self.new }
    {
        let line = LineText::new(self.alloc, line)?;
        self.read_bare_form(below, classify(&line, true))
    }

    #[cycle(evaluate)]
    #[tactic(auto, unfolding(crate::specs::reading::Reading::read_bare_tab))]
    pub(crate) fn read_bare_form(&mut self, below: u64, form: Form<'_>) -> Result<(), Stop>
        requires { M.writable ≡ true }
        ensures { Does (λ u. u) M.writable below
            (λ e. read_bare_tab e (line_form_view form.entry)) result self.old self.new }
    {
        match form {
            Form::Blank => Ok(()),
            Form::Assignment(name, operator, value) => {
                self.read_assignment(below, name, operator, value)
            }
            _ => Err(Stop::Fault(self.fault(FaultKind::RecipeBeforeTarget, b"")?)),
        }
    }

    #[cycle(evaluate)]
    #[tactic(auto, using(crate::proofs::Steps::assign_line_goes))]
    pub(crate) fn read_assignment(
        &mut self,
        below: u64,
        name: &[u8],
        operator: Operator,
        value: &[u8],
    ) -> Result<(), Stop>
        requires { M.writable ≡ true }
        ensures { Does (λ u. u) M.writable below
            (λ e. assign_line e (plain_of name.now) operator (plain_of value.now)) result self.old self.new }
    {
        let name = plain(self.alloc, name)?;
        let value = plain(self.alloc, value)?;
        self.assign_line(below, name.as_slice(), operator, value.as_slice())
    }

    // Reads a line by its kind; an assignment, an include and a rule line close the open rule.
    #[cycle(evaluate)]
    #[tactic(auto, using(crate::proofs::Steps::read_kind_steps), unfolding(crate::specs::reading::Reading::read_kind))]
    pub(crate) fn read_kind(
        &mut self,
        below: u64,
        line: &LineText<'_>,
        form: Form<'_>,
    ) -> Result<(), Stop>
        requires { M.writable ≡ true }
        ensures { Does (λ u. u) M.writable below
            (λ e. read_kind e line.now (line_form_view form.entry)) result self.old self.new }
    {
        match form {
            Form::Blank => Ok(()),
            Form::Assignment(name, operator, value) => {
                self.close_rule()?;
                self.read_assignment(below, name, operator, value)
            }
            Form::Directive(Directive::Include, rest) => self.read_include(below, false, rest),
            Form::Directive(Directive::OptionalInclude, rest) => self.read_include(
                below, true, rest,
            ),
            Form::Directive(_, _) => Ok(()),
            Form::Refused(word) => Err(Stop::Fault(self.fault(FaultKind::RefusedForm, word)?)),
            Form::Rule => {
                self.close_rule()?;
                self.rule_line(below, line)
            }
        }
    }

    #[cycle(evaluate)]
    #[tactic(auto, using(crate::proofs::Steps::include_line_goes), unfolding(crate::proofs::Common::read_include))]
    pub(crate) fn read_include(
        &mut self,
        below: u64,
        optional: bool,
        rest: &[u8],
    ) -> Result<(), Stop>
        requires { M.writable ≡ true }
        ensures { Does (λ u. u) M.writable below (λ e. read_include e optional rest.now) result self.old self.new }
    {
        self.close_rule()?;
        let text = plain(self.alloc, rest)?;
        self.include_line(below, optional, text.as_slice())
    }

    // A define, from its first line and its body.
    #[cycle(evaluate)]
    #[tactic(auto, using(crate::proofs::Steps::read_define_goes))]
    pub(crate) fn read_define(&mut self, below: u64, line: &[u8], body: &[u8]) -> Result<(), Stop>
        requires { M.writable ≡ true }
        ensures { Does (λ u. u) M.writable below
            (λ e. read_define e (line_form line.now false) body.now) result self.old self.new }
    {
        let line = LineText::new(self.alloc, line)?;
        self.read_define_form(below, classify(&line, false), body)
    }

    #[cycle(evaluate)]
    #[tactic(auto, using(crate::proofs::Steps::define_goes), unfolding(crate::specs::reading::Reading::read_define))]
    pub(crate) fn read_define_form(
        &mut self,
        below: u64,
        form: Form<'_>,
        body: &[u8],
    ) -> Result<(), Stop>
        requires { M.writable ≡ true }
        ensures { Does (λ u. u) M.writable below
            (λ e. read_define e (line_form_view form.entry) body.now) result self.old self.new }
    {
        match form {
            Form::Directive(Directive::Define, rest) => {
                self.close_rule()?;
                self.define(below, rest, classify_text(rest, true), body)
            }
            _ => Ok(()),
        }
    }

    #[cycle(evaluate)]
    #[tactic(auto, unfolding(crate::specs::reading::Rules::rule_line, crate::specs::reading::Rules::rule_of_parts))]
    pub(crate) fn rule_line(&mut self, below: u64, line: &LineText<'_>) -> Result<(), Stop>
        requires { M.writable ≡ true }
        ensures { Does (λ u. u) M.writable below (λ e. rule_line e line.now) result self.old self.new }
    {
        match rule_parts(line) {
            Err(TargetSpecific) => Err(Stop::Fault(self.fault(
                FaultKind::TargetSpecificMacro,
                b"",
            )?)),
            Ok(parts) => self.read_rule(below, parts.head, parts.recipe),
        }
    }

    // A rule line, from its parts.
    #[cycle(evaluate)]
    #[tactic(auto, using(crate::proofs::Steps::read_rule_steps), unfolding(crate::proofs::Common::rule_of_parts))]
    pub(crate) fn read_rule(
        &mut self,
        below: u64,
        head: &[u8],
        recipe: Option<&[u8]>,
    ) -> Result<(), Stop>
        requires { M.writable ≡ true }
        ensures { Does (λ u. u) M.writable below
            (λ e. rule_of_parts e (Some (record {
              head = head.now;
              recipe = option_map (λ text. text.now) recipe.entry;
            }))) result self.old self.new }
    {
        let head = plain(self.alloc, head)?;
        let head = self.expand_text(below, head.as_slice())?;
        self.open_rule(recipe, head.as_slice())
    }
}
