//! The steps of a text's lines, of which most are those of ordinary lines.
ghost use Rattle.std.specs.Prelude.{◌≡◌, ◌<◌, length, replicate, slice_get, slice_set, unwrap_or, true, IfOk, Some};
ghost use Rattle.kt_syntax.specs.declared.step.BlockStep.TheVariants as step;
ghost use Rattle.kt_syntax.specs.inner.ShortSteps.{numbered_step};

use crate::short_step::ShortStep;
use crate::step::BlockStep;
use kt_list::narrow;
use std::alloc::{AllocError, Global};
use std::marker::Model;

// A step for each line; contracts see their list. An ordinary line's takes a number of 32 bits and no more.
#[derive(Debug, Drop)]
pub(crate) struct StepList {
    // Of each step 0, if it is that of an ordinary line, else the place of the held one, from 1.
    numbers: Vec<u32>,
    held: Vec<ShortStep>,
}

impl Model for StepList {
    ghost use Rattle.std.specs.Prelude.{List, length, map, ◌≤◌};
    ghost use Rattle.std.specs.List.{All};
    ghost use Rattle.kt_syntax.specs.declared.step.BlockStep.{BlockStep};
    ghost use Rattle.kt_syntax.specs.inner.ShortSteps.{numbered_step};

    ghost Value = { List BlockStep };

    ghost view = { λ list. map (numbered_step list.held.items) list.numbers.items };

    ghost invariant = { λ list. All (λ number. number ≤ length list.held.items) list.numbers.items };
}

impl StepList {
    // The steps of so many ordinary lines.
    #[tactic(auto, using(crate::proofs::lemmas::StepListLemmas::none_held))]
    pub(crate) fn ordinary(alloc: Global, count: usize) -> Result<StepList, AllocError>
        ensures { IfOk result (λ list. list ≡ replicate count step.Line) }
    {
        Ok(StepList {
            numbers: vec![in alloc; 0u32; count]?,
            held: Vec::new(alloc),
        })
    }

    // Puts a step in the place of an ordinary line's. Places beyond 4,294,967,295, or more such steps, are refused as
    // if memory were.
    #[tactic(auto, using(crate::proofs::lemmas::StepListLemmas::stays_ordinary))]
    pub(crate) fn put(&mut self, place: usize, found: BlockStep) -> Result<(), AllocError>
        requires within { place < length self.old }
        requires ordinary { slice_get self.old place ≡ Some step.Line }
        ensures { IfOk result (λ _. self.new ≡ slice_set self.old place found) }
    {
        if matches!(found, BlockStep::Line) {
            return Ok(());
        }
        self.hold(place, ShortStep::of(found)?)
    }

    #[tactic(auto, using(crate::proofs::lemmas::StepListLemmas::held_more))]
    fn hold(&mut self, place: usize, step: ShortStep) -> Result<(), AllocError>
        requires { place < length self.old }
        ensures { IfOk result (λ _. self.new ≡ slice_set self.old place step) }
    {
        self.held.push(step)?;
        let number = narrow(self.held.len())?;
        self.numbers[place] = number;
        Ok(())
    }

    // Whether that of a place is told to be an ordinary line's by its number alone, as each is that was never put.
    pub(crate) fn is_unput(&self, place: usize) -> bool
        ensures quick { result ≡ true → slice_get self.now place ≡ Some step.Line }
    {
        match self.numbers.get(place) {
            Some(number) => *number == 0,
            None => false,
        }
    }

    pub(crate) fn get(&self, place: usize) -> Option<BlockStep>
        ensures { result ≡ slice_get self.now place }
    {
        match self.numbers.get(place) {
            Some(number) => Some(numbered_step(&self.held, *number)),
            None => None,
        }
    }
}

// The step of a number.
fn numbered_step(held: &[ShortStep], number: u32) -> BlockStep
    ensures { result ≡ numbered_step held.now number }
{
    if number == 0 {
        return BlockStep::Line;
    }
    held_step(held, number as usize - 1)
}

fn held_step(held: &[ShortStep], place: usize) -> BlockStep
    ensures { result ≡ unwrap_or (slice_get held.now place) step.Line }
{
    match held.get(place) {
        Some(short) => short.step(),
        None => BlockStep::Line,
    }
}
