//! What calls over files in memory mean. What they answer agrees with what they hold, so the clauses that speak of each
//! store that agrees with the answers speak of theirs.
ghost use Rattle.std.specs.Prelude.{IfOk};
ghost use Rattle.kt_eval.specs.views.files.Memory.{seen_of};
ghost use Rattle.kt_ninja.specs.views.Memory.{sink_seen_of};
ghost use Rattle.kati.specs.AfterRun.{Leaves};
ghost use Rattle.kati.specs.views.AfterRun.{Translates};
ghost use Rattle.kati.specs.Devices.{devices};

use kati::{Args, Outcome, RunFault, Status, run, translate};
use kt_eval::MemFiles;
use kt_eval_laws::laws::files_in_memory_agree;
use kt_ninja::MemSink;
use std::alloc::Global;

/// Translates: an outcome is the meaning of what the files hold.
pub fn translated_in_memory(
    alloc: Global,
    args: &Args,
    files: &mut MemFiles,
) -> Result<Outcome, RunFault>
    ensures { IfOk result
        (λ outcome. Translates args.now files.new.store outcome files.old.asked files.new.asked) }
{
    files_in_memory_agree();
    translate(alloc, args, files)
}

/// Runs: the outputs have what the files hold means.
pub fn ran_in_memory(
    alloc: Global,
    args: &Args,
    files: &mut MemFiles,
    out: &mut MemSink,
    err: &mut MemSink,
) -> Result<Status, RunFault>
    ensures { Leaves args.now files.new.store result
        (devices (seen_of files.old) (sink_seen_of out.old) (sink_seen_of err.old))
        (devices (seen_of files.new) (sink_seen_of out.new) (sink_seen_of err.new)) }
{
    files_in_memory_agree();
    run(alloc, args, files, out, err)
}
