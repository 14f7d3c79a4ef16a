//! From a makefile to its plan.
//! Fast: rules, known names and graph are never given back, since a run translates once and ends. Spares the drop of a
//! million pieces at 100,000 rules.
ghost use Rattle.std.specs.Prelude.{◌≡◌, ◌≤◌, List, [], IfErr, IfOk};
ghost use Rattle.kt_eval.specs.files.Files.{AgreeWith, Store};
ghost use Rattle.kt_eval.specs.views.files.Files.{AnswersGrow};
ghost use Rattle.kt_text.specs.Words.{Text};
ghost use Rattle.kt_graph.specs.Known.{known_names};
ghost use Rattle.kt_graph.specs.faults.Faults.{IsSoundGraph};
ghost use Rattle.kt_ninja.specs.Writable.{IsWritable};
ghost use Rattle.kt_list.specs.Prefixes.{IsPrefix};
ghost use Rattle.kt_eval.specs.reading.Machine.{traced};
ghost use Rattle.kt_eval.specs.views.Outcome.{AsksNothing, Ends, Gives, Blames};
ghost use Rattle.kati.specs.views.AfterRun.{ReadBlames, Translates};
ghost use Rattle.kati.specs.Meaning.{names_asked, prepared, wanted_by};
ghost use Rattle.kati.specs.Sound.{IsSoundPlan};
ghost use Rattle.kati.specs.inner.plan.Shown.{plan_view};
ghost use Rattle.kati.specs.inner.Stops.{IsFirstStop, IsStopOf};
ghost use Rattle.kati.specs.inner.Views.{EndMeans, GoalsEnd, goals_view, read_view};

use crate::faults::RunFault;
use crate::goals::chosen_goals;
use crate::listing::listed;
use crate::makefile::makefile_read;
use crate::outcome::Outcome;
use crate::plan::{GraphPlan, Planner};
use kati_args::Args;
use kt_eval::{Fault, Files, Makefile, Stop};
use kt_graph::{Graph, GraphFault, Known, graph};
use kt_list::Sequence;
use kt_ninja::copied_plan;
use kt_rules::Name;
use std::alloc::{AllocError, Global};
use std::boxed::Box;

/// Translates the makefile that the arguments name, or else the first of `makefile` and `Makefile` that exists.
///
/// The memory of its rules, known names and graph is never freed: a run translates once and ends, and would spend much
/// of its time on freeing a million texts one by one.
pub fn translate<F: Files>(alloc: Global, args: &Args, files: &mut F) -> Result<Outcome, RunFault>
    ensures means { (store : Store) → AgreeWith store (F.seen files.new).answers → IfOk result
        (λ outcome. Translates args.now store outcome (F.seen files.old).names (F.seen files.new).names) }
    ensures asked { (store : Store) → AgreeWith store (F.seen files.new).answers
        → IsPrefix (F.seen files.new).names (names_asked args.now store (F.seen files.old).names) }
    ensures writable { IfOk result (λ outcome. IfOk outcome.result IsWritable) }
    ensures sound { IfOk result (λ outcome. IfOk outcome.result IsSoundPlan) }
    ensures grows { AnswersGrow (F.seen files.old).answers (F.seen files.new).answers }
    ensures counts { (F.seen files.old).failed ≤ (F.seen files.new).failed }
    ensures blames { ReadBlames result (F.seen files.old) (F.seen files.new) }
{
    let mut messages = Vec::new(alloc);
    let result = match planned(alloc, args, files, &mut messages) {
        Ok(plan) => Ok(copied_plan(alloc, &plan)?),
        Err(Stop::Fault(fault)) => Err(fault),
        Err(Stop::Device(name)) => return Err(RunFault::Read(name)),
        Err(Stop::Memory) => return Err(RunFault::Memory),
    };
    Ok(Outcome {
        messages: Sequence::from(messages),
        result,
    })
}

/// The plan of the makefile: the files are listed, the makefile is read, the goals are chosen, their graph is made, and
/// then the plan.
pub(crate) fn planned<'p, F: Files>(
    alloc: Global,
    args: &Args,
    files: &mut F,
    messages: &mut Vec<Sequence<u8>>,
) -> Result<GraphPlan<'p>, Stop>
    requires { messages.old.items ≡ [] }
    ensures means { (store : Store) → AgreeWith store (F.seen files.new).answers → Ends (EndMeans args.now store)
        (F.seen files.old).names plan_view result (traced messages.new.items (F.seen files.new).names) }
    ensures asked { (store : Store) → AgreeWith store (F.seen files.new).answers
        → IsPrefix (F.seen files.new).names (names_asked args.now store (F.seen files.old).names) }
    ensures grows { AnswersGrow (F.seen files.old).answers (F.seen files.new).answers }
    ensures counts { (F.seen files.old).failed ≤ (F.seen files.new).failed }
    ensures blames { Blames result (F.seen files.old) (F.seen files.new) }
    ensures writable { IfOk result (λ plan. IsWritable (plan_view plan)) }
    ensures sound { IfOk result (λ plan. IsSoundPlan (plan_view plan)) }
{
    let (found, goals) = prepared(alloc, args, files, messages)?;
    planned_goals(alloc, args, found, goals, messages)
}

/// What was read: the makefile, and the list of files.
#[derive(Drop)]
pub(crate) struct ReadSources {
    pub makefile: Makefile,
    pub list: Vec<u8>,
}

// The list of files, the makefile, and the goals.
fn prepared<'p, F: Files>(
    alloc: Global,
    args: &Args,
    files: &mut F,
    messages: &mut Vec<Sequence<u8>>,
) -> Result<(&'p ReadSources, Vec<Name>), Stop>
    requires { messages.old.items ≡ [] }
    ensures gives { (store : Store) → AgreeWith store (F.seen files.new).answers → Gives
        (λ found. goals_view found.0.now found.1.items) result (traced messages.new.items (F.seen files.new).names)
        (prepared args.now store (traced [] (F.seen files.old).names)) }
    ensures asked { (store : Store) → AgreeWith store (F.seen files.new).answers
        → IsPrefix (F.seen files.new).names (names_asked args.now store (F.seen files.old).names) }
    ensures grows { AnswersGrow (F.seen files.old).answers (F.seen files.new).answers }
    ensures counts { (F.seen files.old).failed ≤ (F.seen files.new).failed }
    ensures blames { Blames result (F.seen files.old) (F.seen files.new) }
{
    let list = listed(alloc, &args.files, files)?;
    let (told, read) = makefile_read(alloc, args, files);
    *messages = told;
    let makefile = read?;
    chosen(alloc, args, ReadSources { makefile, list }, messages)
}

// The goals, with what they are made from.
fn chosen<'p>(
    alloc: Global,
    args: &Args,
    found: ReadSources,
    messages: &mut Vec<Sequence<u8>>,
) -> Result<(&'p ReadSources, Vec<Name>), Stop>
    ensures gives { Gives (λ found. goals_view found.0.now found.1.items) result messages.new.items
        (wanted_by args.now found.list.items (read_view found.makefile) messages.old.items) }
    ensures asks_nothing { AsksNothing result }
{
    let found = lasting(alloc, found)?;
    let goals = args.goals.as_slice();
    let goals = chosen_goals(alloc, goals, args.limit, &found.makefile, messages)?;
    Ok((found, goals))
}

// The value, in a place that is never freed, so that what is made of it can be handed on.
fn lasting<'p, T: Drop + 'p>(alloc: Global, value: T) -> Result<&'p T, AllocError>
    ensures { IfOk result (λ place. place.now ≡ value) }
{
    Ok(Box::leak(Box::new(alloc, value)?))
}

// The plan of these goals, from what was read.
fn planned_goals<'p>(
    alloc: Global,
    args: &Args,
    found: &'p ReadSources,
    goals: Vec<Name>,
    messages: &mut Vec<Sequence<u8>>,
) -> Result<GraphPlan<'p>, Stop>
    ensures means { (asked : List Text) → Ends (GoalsEnd args.now.limit (goals_view found.now goals.items))
        (traced messages.old.items asked) plan_view result (traced messages.new.items asked) }
    ensures asks_nothing { AsksNothing result }
    ensures writable { IfOk result (λ plan. IsWritable (plan_view plan)) }
    ensures sound { IfOk result (λ plan. IsSoundPlan (plan_view plan)) }
{
    let graph = sound_graph(alloc, found, goals.as_slice())?;
    let mut planner = Planner::new(alloc, &found.makefile, args.limit)?;
    planner.plan(graph, goals, messages)
}

// The graph of these goals, unless something is wrong with it.
fn sound_graph<'p>(
    alloc: Global,
    found: &'p ReadSources,
    goals: &[Name],
) -> Result<&'p Graph<'p>, Stop>
    ensures graph { IfOk result (λ graph. IsSoundGraph found.now.makefile.book
        (known_names found.now.makefile.book found.now.list.items) goals.now graph.now) }
    ensures first { IfErr result (IsFirstStop found.now.makefile.book
        (known_names found.now.makefile.book found.now.list.items) goals.now) }
{
    let book = &found.makefile.book;
    let known = lasting(alloc, Known::of(alloc, book, found.list.as_slice())?)?;
    match graph(alloc, book, known, goals) {
        Ok(graph) => Ok(lasting(alloc, graph)?),
        Err(fault) => Err(stop_of(fault)),
    }
}

fn stop_of(fault: GraphFault) -> Stop
    ensures { IsStopOf fault result }
{
    match fault {
        GraphFault::Memory => Stop::Memory,
        GraphFault::Refused { number, words } => Stop::Fault(Fault {
            place: None,
            number,
            words,
        }),
    }
}
