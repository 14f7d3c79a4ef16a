//! The blocks of a text, as a flat list.
ghost use Rattle.std.specs.Prelude.{◌≡◌, ◌≢◌, length, slice_get, true, false, IfSome, Some};
ghost use Rattle.kt_syntax.specs.inner.Blocks.{AreReadable};
ghost use Rattle.kt_syntax.specs.views.Reading.{IsAhead, ReadsOn};
ghost use Rattle.kt_syntax.specs.declared.step.BlockStep.TheVariants as step;

use crate::part::Missing;
use crate::step::BlockStep;
use crate::step_list::StepList;
use std::marker::Model;

/// The blocks of a text: a step for each of its lines, and the end that is missing, if one is.
///
/// They are read from the first line on, by a place that only grows; contracts see the tree that
/// the steps stand for by `tree_of`.
#[derive(Debug, Drop)]
pub struct Blocks {
    steps: StepList,
    missing: Option<Missing>,
}

impl Model for Blocks {
    ghost use Rattle.kt_syntax.specs.Blocks.{Blocks};

    ghost Value = { Blocks };

    ghost view = { λ blocks. record { steps = blocks.steps; missing = blocks.missing } };

    ghost use Rattle.kt_syntax.specs.inner.Blocks.{AreReadable};

    ghost invariant = { λ blocks. AreReadable blocks.steps };
}

impl Blocks {
    pub(crate) fn new(steps: StepList, missing: Option<Missing>) -> Blocks
        requires { AreReadable steps }
        ensures { result ≡ record { steps = steps; missing = missing } }
    {
        Blocks { steps, missing }
    }

    /// The step of a line, counted from 0; none after the last one.
    pub fn get(&self, line: usize) -> Option<BlockStep>
        ensures value { result ≡ slice_get self.now.steps line }
        ensures reads { IfSome result (ReadsOn self.now.steps line) }
        ensures ahead { IfSome result (IsAhead line (length self.now.steps)) }
    {
        self.steps.get(line)
    }

    /// Whether the step of a line, counted from 0, is that of an ordinary one.
    pub fn is_ordinary(&self, line: usize) -> bool
        ensures step { result ≡ true → slice_get self.now.steps line ≡ Some step.Line }
        ensures other { result ≡ false → slice_get self.now.steps line ≢ Some step.Line }
        ensures reads { result ≡ true → ReadsOn self.now.steps line step.Line }
    {
        if self.steps.is_unput(line) {
            return true;
        }
        matches!(self.get(line), Some(BlockStep::Line))
    }

    /// The end that is missing, which is met at the end of the text, once an open rule is closed.
    pub fn missing(&self) -> Option<Missing>
        ensures { result ≡ self.now.missing }
    {
        self.missing
    }
}
