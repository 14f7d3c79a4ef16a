//! The goals.
ghost use Rattle.std.specs.Prelude.{◌≡◌, IfOk, option_to_list};
ghost use Rattle.kt_graph.specs.Goals.{default_goals, named_goals};

use kt_list::Names;
use kt_rules::{Book, Name, without_dots};
use kt_text::stripped;
use std::alloc::{AllocError, Global};

/// The goals that the words of a command line name, each once (GNU make manual, "Arguments to
/// Specify the Goals").
#[tactic(auto, using(crate::proofs::GoalLemmas::word_more), unfolding(crate::proofs::GoalLemmas::goals_open))]
pub fn named_goals(alloc: Global, words: &[Name]) -> Result<Vec<Name>, AllocError>
    ensures { IfOk result (λ goals. goals.items ≡ named_goals words.now) }
{
    let mut goals = Names::new(alloc);
    for word in words {
        goals.add(without_dots(word.as_slice()))?;
    }
    goals.texts(alloc)
}

/// The goal if the command line names none: the expanded text of `.DEFAULT_GOAL`, or else the first target (GNU make
/// manual, "How `make` Processes a Makefile").
#[tactic(auto, unfolding(crate::specs::Goals::default_goals))]
pub fn default_goal(alloc: Global, book: &Book, text: &[u8]) -> Result<Option<Name>, AllocError>
    ensures { IfOk result (λ goal. option_to_list goal ≡ default_goals book.now text.now) }
{
    let name = stripped(text);
    if !name.is_empty() {
        return Ok(Some(Name::copied(alloc, without_dots(name))?));
    }
    match book.first_goal() {
        Some(goal) => Ok(Some(Name::copied(alloc, goal)?)),
        None => Ok(None),
    }
}
