//! The goals.
ghost use Rattle.std.specs.Prelude.{[], List};
ghost use Rattle.kt_text.specs.Words.{Text};
ghost use Rattle.kt_eval.specs.views.Outcome.{AsksNothing, Gives};
ghost use Rattle.kt_eval.specs.views.expanding.Pure.{Says};
ghost use Rattle.kt_graph.specs.Goals.{default_goals};
ghost use Rattle.kati.specs.Goals.{chosen_goals, default_goal_text, goals_or_none};
ghost use Rattle.kati.specs.inner.Views.{read_view};

use crate::words::stop_on;
use kt_eval::{Macros, Makefile, NoAutomatic, Stop};
use kt_graph::{default_goal, named_goals};
use kt_list::Sequence;
use kt_rules::{Book, FaultKind, Name};
use std::alloc::Global;

/// The goals of the command line, or else the one that the makefile names or begins with.
pub(crate) fn chosen_goals(
    alloc: Global,
    goals: &[Name],
    limit: u64,
    makefile: &Makefile,
    messages: &mut Vec<Sequence<u8>>,
) -> Result<Vec<Name>, Stop>
    ensures gives { Gives (λ v. v.items) result messages.new.items
        (chosen_goals limit (read_view makefile.now) goals.now messages.old.items) }
    ensures asks_nothing { AsksNothing result }
{
    if goals.is_empty() {
        default_goals(alloc, limit, makefile, messages)
    } else {
        Ok(named_goals(alloc, goals)?)
    }
}

fn default_goals(
    alloc: Global,
    limit: u64,
    makefile: &Makefile,
    messages: &mut Vec<Sequence<u8>>,
) -> Result<Vec<Name>, Stop>
    ensures gives { Gives (λ v. v.items) result messages.new.items
        (chosen_goals limit (read_view makefile.now) [] messages.old.items) }
    ensures asks_nothing { AsksNothing result }
{
    let text = default_goal_text(&makefile.macros, limit, messages)?;
    one_goal(alloc, &makefile.book, text.as_slice())
}

// The expanded macro that names the goal.
#[tactic(auto, unfolding(crate::specs::Goals::default_goal_text))]
fn default_goal_text(
    macros: &Macros,
    limit: u64,
    messages: &mut Vec<Sequence<u8>>,
) -> Result<Vec<u8>, Stop>
    ensures { Says (λ v. v.items) (default_goal_text limit macros.now) result messages.old.items messages.new.items }
{
    macros.expand_pure(b"$(.DEFAULT_GOAL)", &NoAutomatic, None, messages, limit)
}

// The goal that a text names, or else the first target.
fn one_goal(alloc: Global, book: &Book, text: &[u8]) -> Result<Vec<Name>, Stop>
    ensures gives { (said : List Text)
        → Gives (λ v. v.items) result said (goals_or_none (default_goals book.now text.now) said) }
    ensures asks_nothing { AsksNothing result }
{
    match default_goal(alloc, book, text)? {
        Some(goal) => Ok(vec![in alloc; goal]?),
        None => Err(stop_on(alloc, FaultKind::NoTargets, b"", None)),
    }
}
