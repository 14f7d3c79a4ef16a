//! Steps as blocks hold them: in half the room of a `Step`.
ghost use Rattle.std.specs.Prelude.{◌≡◌, ◌<◌, ◌⊎◌, IfOk, OnErr};
ghost use Rattle.kt_syntax.specs.inner.ShortSteps.{places_of_step, step_with};

use crate::part::BlockPart;
use crate::step::BlockStep;
use kt_list::narrow;
use std::alloc::AllocError;
use std::marker::Model;

// A step with places in numbers of 32 bits; contracts see the step.
#[derive(Debug, Drop)]
pub(crate) struct ShortStep {
    part: BlockPart,
    next: u32,
    after: u32,
}

impl Model for ShortStep {
    ghost use Rattle.kt_syntax.specs.declared.step.BlockStep.{BlockStep};
    ghost use Rattle.kt_syntax.specs.inner.ShortSteps.{step_with};

    ghost Value = { BlockStep };

    ghost view = { λ short. step_with short.part short.next short.after };
}

impl ShortStep {
    // This step. One with a place beyond 4,294,967,295 has none, as if memory were refused for it.
    pub(crate) fn of(step: BlockStep) -> Result<ShortStep, AllocError>
        ensures same { IfOk result (λ short. short ≡ step) }
        ensures large { OnErr result ((4294967295 < (places_of_step step).0) ⊎ (4294967295 < (places_of_step step).1)) }
    {
        match step {
            BlockStep::Line => ShortStep::with(BlockPart::Line, 0, 0),
            BlockStep::Body => ShortStep::with(BlockPart::Body, 0, 0),
            BlockStep::Define { end } => ShortStep::with(BlockPart::Define, end, 0),
            BlockStep::Endef => ShortStep::with(BlockPart::Endef, 0, 0),
            BlockStep::Conditional { next, after } => ShortStep::with(
                BlockPart::Conditional,
                next,
                after,
            ),
            BlockStep::Branch {
                condition,
                next,
                after,
            } => ShortStep::with(BlockPart::Branch(condition), next, after),
            BlockStep::Endif => ShortStep::with(BlockPart::Endif, 0, 0),
            BlockStep::Stray(stray) => ShortStep::with(BlockPart::Stray(stray), 0, 0),
        }
    }

    fn with(part: BlockPart, next: usize, after: usize) -> Result<ShortStep, AllocError>
        ensures same { IfOk result (λ short. short ≡ step_with part next after) }
        ensures large { OnErr result ((4294967295 < next) ⊎ (4294967295 < after)) }
    {
        Ok(ShortStep {
            part,
            next: narrow(next)?,
            after: narrow(after)?,
        })
    }

    pub(crate) fn step(&self) -> BlockStep
        ensures { result ≡ self.now }
    {
        let next = self.next as usize;
        let after = self.after as usize;
        match self.part {
            BlockPart::Line => BlockStep::Line,
            BlockPart::Body => BlockStep::Body,
            BlockPart::Define => BlockStep::Define { end: next },
            BlockPart::Endef => BlockStep::Endef,
            BlockPart::Conditional => BlockStep::Conditional { next, after },
            BlockPart::Branch(condition) => BlockStep::Branch {
                condition,
                next,
                after,
            },
            BlockPart::Endif => BlockStep::Endif,
            BlockPart::Stray(stray) => BlockStep::Stray(stray),
        }
    }
}
