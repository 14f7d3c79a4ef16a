//! The steps of reading blocks, found from the last line to the first.
ghost use Rattle.std.specs.Prelude.{◌≡◌, ◌∷◌, drop, IfOk};
ghost use Rattle.kt_syntax.specs.Steps.{exits_of, places_after, places_at_end, step_of};

use crate::part::{BlockPart, Stray};
use std::alloc::{AllocError, Global};
use std::collections::VecDeque;
use std::marker::Model;

/// What a line is to one who reads the blocks of a text line by line.
///
/// Lines are counted from 0; a place that a step names is that of a later line, or the number of
/// lines where the text ends first.
#[derive(Clone, Copy, Debug, PartialEq, Eq)]
pub enum BlockStep {
    /// A line that is in no define, and opens, continues and ends no block.
    Line,
    /// A line of the body of a define.
    Body,
    /// The first line of a define, whose body goes up to, and without, the line `end`.
    Define {
        end: usize,
    },
    /// The end of a define.
    Endef,
    /// The first line of a conditional. Its next branch is at `next`, which is `after` where there
    /// is none; after its chosen branch reading goes on at `after`.
    Conditional {
        next: usize,
        after: usize,
    },
    /// The first line of a further branch, with a condition or without, and the same places.
    Branch {
        condition: bool,
        next: usize,
        after: usize,
    },
    /// The end of a conditional.
    Endif,
    /// A line that continues or ends a block where it can't: a fault, once it is met.
    Stray(Stray),
}

/// Where a conditional goes on from one of its branches.
#[derive(Clone, Copy, Debug, PartialEq, Eq)]
pub(crate) struct BranchExits {
    pub next: usize,
    pub after: usize,
}

// What is known, at a line, of the lines after it: how many lines the text has, where the body
// ends in which the line may stand, and the exits of the conditionals round it, innermost first.
#[derive(Drop)]
pub(crate) struct Places {
    end: usize,
    body_end: usize,
    conditionals: VecDeque<BranchExits>,
}

impl Model for Places {
    ghost use Rattle.kt_syntax.specs.Steps.{Places};

    ghost Value = { Places };

    ghost view = { λ places. record {
      end = places.end;
      body_end = places.body_end;
      conditionals = places.conditionals.items;
    } };
}

impl Places {
    pub(crate) fn at_end(alloc: Global, end: usize) -> Places
        ensures { result ≡ places_at_end end }
    {
        Places {
            end,
            body_end: end,
            conditionals: VecDeque::new(alloc),
        }
    }

    // The step of the line before, which stands at `place`.
    #[tactic(auto, unfolding(crate::specs::Steps::step_of, crate::specs::Steps::places_after))]
    pub(crate) fn step(&mut self, part: BlockPart, place: usize) -> Result<BlockStep, AllocError>
        ensures step { IfOk result (λ step. step ≡ step_of self.old part) }
        ensures places { IfOk result (λ _. self.new ≡ places_after self.old part place) }
    {
        let body_end = self.body_end;
        if part != BlockPart::Body {
            self.body_end = place;
        }
        Ok(match part {
            BlockPart::Line => BlockStep::Line,
            BlockPart::Body => BlockStep::Body,
            BlockPart::Define => BlockStep::Define { end: body_end },
            BlockPart::Endef => BlockStep::Endef,
            BlockPart::Conditional => {
                let BranchExits { next, after } = self.leave();
                BlockStep::Conditional { next, after }
            }
            BlockPart::Branch(condition) => {
                let BranchExits { next, after } = self.leave();
                self.enter(place, after)?;
                BlockStep::Branch {
                    condition,
                    next,
                    after,
                }
            }
            BlockPart::Stray(stray) => {
                if stray == Stray::LateElse {
                    let _ = self.leave();
                    self.enter(place, place)?;
                }
                BlockStep::Stray(stray)
            }
            BlockPart::Endif => {
                self.enter(place, place)?;
                BlockStep::Endif
            }
        })
    }

    // Takes the exits of the innermost conditional; one that isn't ended goes on at the text's end.
    fn leave(&mut self) -> BranchExits
        ensures exits { result ≡ exits_of self.old }
        ensures places { self.new ≡ record self.old { conditionals = drop 1 self.old.conditionals } }
    {
        self.conditionals.pop_front().unwrap_or(BranchExits {
            next: self.end,
            after: self.end,
        })
    }

    fn enter(&mut self, next: usize, after: usize) -> Result<(), AllocError>
        ensures { IfOk result (λ _. self.new ≡ record self.old {
          conditionals = record { next = next; after = after }
              ∷ self.old.conditionals;
        }) }
    {
        self.conditionals.push_front(BranchExits { next, after })?;
        Ok(())
    }
}
