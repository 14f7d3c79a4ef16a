//! A run of the program.
ghost use Rattle.std.specs.Prelude.{◌≡◌, ◌≤◌, MatchResult};
ghost use Rattle.kt_list.specs.Counters.{Rises};
ghost use Rattle.kt_eval.specs.files.Files.{AgreeWith, Store};
ghost use Rattle.kt_eval.specs.views.files.Files.{AnswersGrow};
ghost use Rattle.kt_ninja.specs.Writable.{IsWritable};
ghost use Rattle.kati.specs.Devices.{devices};
ghost use Rattle.kati.specs.AfterRun.{BlamesDevice, Leaves, LeavesOut};
ghost use Rattle.kati.specs.inner.Delivered.{Writes};
ghost use Rattle.kati.specs.inner.plan.Shown.{plan_view};

use crate::checking::check;
use crate::faults::RunFault;
use crate::plan::GraphPlan;
use crate::status::Status;
use crate::telling::tell;
use crate::translating::planned;
use kati_args::Args;
use kt_eval::{Files, Stop};
use kt_ninja::{Sink, write_view};
use std::alloc::Global;

/// Translates the makefile in the files: messages and a fault line go to the error output, and the plan's text goes to
/// the output, or the file to be checked is compared with the plan. No plan is built: it is read from the graph.
///
/// The error output is written first, all at once, and after a fault the output gets nothing.
pub fn run<F: Files, O: Sink, E: Sink>(
    alloc: Global,
    args: &Args,
    files: &mut F,
    out: &mut O,
    err: &mut E,
) -> Result<Status, RunFault>
    ensures leaves { (store : Store) → AgreeWith store (F.seen files.new).answers → Leaves args.now store result
        (devices (F.seen files.old) (O.seen out.old) (E.seen err.old))
        (devices (F.seen files.new) (O.seen out.new) (E.seen err.new)) }
    ensures blames { BlamesDevice result
        (devices (F.seen files.old) (O.seen out.old) (E.seen err.old))
        (devices (F.seen files.new) (O.seen out.new) (E.seen err.new)) }
    ensures output { LeavesOut args.now.check result (O.seen out.old) (O.seen out.new) }
    ensures grows { AnswersGrow (F.seen files.old).answers (F.seen files.new).answers }
    ensures counts_files { (F.seen files.old).failed ≤ (F.seen files.new).failed }
    ensures counts_out { (O.seen out.old).failed ≤ (O.seen out.new).failed }
    ensures counts { (E.seen err.old).failed ≤ (E.seen err.new).failed }
{
    let mut messages = Vec::new(alloc);
    match planned(alloc, args, files, &mut messages) {
        Ok(plan) => {
            tell(alloc, messages.as_slice(), None, err)?;
            match &args.check {
                Some(name) => check(alloc, &plan, name.as_str(), files),
                None => write(&plan, out),
            }
        }
        Err(Stop::Fault(fault)) => {
            tell(alloc, messages.as_slice(), Some(&fault), err)?;
            Ok(Status::Fault)
        }
        Err(Stop::Device(name)) => Err(RunFault::Read(name)),
        Err(Stop::Memory) => Err(RunFault::Memory),
    }
}

fn write<O: Sink>(plan: &GraphPlan, out: &mut O) -> Result<Status, RunFault>
    requires { IsWritable (plan_view plan.now) }
    ensures writes { Writes (plan_view plan.now) result (O.seen out.old) (O.seen out.new) }
    ensures counts { (O.seen out.old).failed ≤ (O.seen out.new).failed }
    ensures blames { MatchResult result (λ _. (O.seen out.new).failed ≡ (O.seen out.old).failed)
        (λ _. Rises (O.seen out.old).failed (O.seen out.new).failed) }
{
    match write_view(plan, out) {
        Ok(()) => Ok(Status::Done),
        Err(_) => Err(RunFault::WriteOut),
    }
}
