//! Whether a Ninja file is the plan.
ghost use Rattle.std.specs.Prelude.{◌≡◌, ◌≤◌, ◌∷◌, ◌++◌, [], IfOk, IfErr, OnOk, option_map, Some, true};
ghost use Rattle.kt_eval.specs.files.Files.{AgreeWith, Store, look};
ghost use Rattle.kt_eval.specs.views.files.Files.{AnswersGrow};
ghost use Rattle.kt_ninja.specs.Text.{plan_text};
ghost use Rattle.kt_ninja.specs.Writable.{IsWritable};
ghost use Rattle.kati.specs.Checking.{AskedAtCheck, IsChecked};
ghost use Rattle.kati.specs.inner.Checking.{IsSame};
ghost use Rattle.kati.specs.views.AfterRun.{ReadBlames};
ghost use Rattle.kati.specs.inner.plan.Shown.{plan_view};
ghost use Rattle.kati.specs.declared.faults.RunFault.TheVariants.{Memory};

use crate::expecting::Expecting;
use crate::faults::RunFault;
use crate::plan::GraphPlan;
use crate::status::Status;
use kt_eval::{FileFault, Files};
use kt_ninja::{Plan, copied_plan, write_view};
use kt_ninja_reader::{ReadFault, read_plan};
use std::alloc::Global;

/// Whether the file with this name exists and is read as the plan, however it is spelled.
#[tactic(auto, using(crate::proofs::lemmas::BlameLemmas::one_read))]
pub(crate) fn check<F: Files>(
    alloc: Global,
    plan: &GraphPlan,
    name: &str,
    files: &mut F,
) -> Result<Status, RunFault>
    requires { IsWritable (plan_view plan.now) }
    ensures checks { (store : Store) → AgreeWith store (F.seen files.new).answers
        → IfOk result (IsChecked (plan_view plan.now) (look store name.now)) }
    ensures grows { AnswersGrow (F.seen files.old).answers (F.seen files.new).answers }
    ensures counts { (F.seen files.old).failed ≤ (F.seen files.new).failed }
    ensures asked { OnOk result ((F.seen files.new).names ≡ (F.seen files.old).names ++ name.now ∷ []) }
    ensures stopped { IfErr result
        (λ fault. AskedAtCheck fault name.now (F.seen files.old).names (F.seen files.new).names) }
    ensures blames { ReadBlames result (F.seen files.old) (F.seen files.new) }
{
    // Copied before the read, so that a failed device is always reported with its name.
    let copy = name.to_string(alloc)?;
    match files.read(name) {
        Ok(found) => compare(alloc, plan, found),
        Err(FileFault::Device) => Err(RunFault::Read(copy)),
        Err(FileFault::Memory) => Err(RunFault::Memory),
    }
}

// Whether a file that was looked for exists and is the plan.
fn compare(alloc: Global, plan: &GraphPlan, found: Option<Vec<u8>>) -> Result<Status, RunFault>
    requires { IsWritable (plan_view plan.now) }
    ensures checks { IfOk result (IsChecked (plan_view plan.now) (option_map (λ text. text.items) found)) }
    ensures blames { IfErr result (λ fault. fault ≡ Memory) }
{
    match found {
        Some(text) => compare_text(alloc, plan, text.as_slice()),
        None => Ok(Status::Differs),
    }
}

// Most files are the text that a run before wrote for the plan, which is told without reading it.
fn compare_text(alloc: Global, plan: &GraphPlan, text: &[u8]) -> Result<Status, RunFault>
    requires { IsWritable (plan_view plan.now) }
    ensures checks { IfOk result (IsChecked (plan_view plan.now) (Some text.now)) }
    ensures blames { IfErr result (λ fault. fault ≡ Memory) }
{
    if is_text_of(plan, text) {
        return Ok(Status::Done);
    }
    match read_plan(alloc, text) {
        Ok(other) => Ok(same_or_not(&other, &copied_plan(alloc, plan)?)),
        Err(ReadFault::NotNinja(_)) => Ok(Status::Differs),
        Err(ReadFault::Memory) => Err(RunFault::Memory),
    }
}

// Whether this is the text that is written for the plan.
fn is_text_of(plan: &GraphPlan, text: &[u8]) -> bool
    requires { IsWritable (plan_view plan.now) }
    ensures quick { result ≡ true → plan_text (plan_view plan.now) ≡ text.now }
{
    let mut expecting = Expecting::new(text);
    write_view(plan, &mut expecting).is_ok() && expecting.has_taken(text)
}

fn same_or_not(read: &Plan, plan: &Plan) -> Status
    ensures { IsSame read.now plan.now result }
{
    if *read == *plan {
        Status::Done
    } else {
        Status::Differs
    }
}
