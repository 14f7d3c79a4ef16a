//! What a run writes to the error output.
ghost use Rattle.std.specs.Prelude.{◌≡◌, ◌≤◌, ◌++◌, codes, IfOk, OnOk, option_map};
ghost use Rattle.kt_eval.specs.Faults.{fault_line};
ghost use Rattle.kati.specs.ErrorOutput.{messages_text};
ghost use Rattle.kati.specs.inner.Delivered.{TellsText, TextBlames, fault_view};

use crate::faults::RunFault;
use kt_eval::Fault;
use kt_list::Sequence;
use kt_ninja::{Sink, put};
use std::alloc::{AllocError, Global};

fn append_fault_of(text: &mut Vec<u8>, fault: Option<&Fault>) -> Result<(), AllocError>
    ensures { OnOk result (text.new.items ≡ text.old.items ++ fault_view (option_map (λ f. f.now) fault.entry)) }
{
    match fault {
        None => Ok(()),
        Some(fault) => append_line_of(text, fault),
    }
}

fn append_line_of(text: &mut Vec<u8>, fault: &Fault) -> Result<(), AllocError>
    ensures { OnOk result (text.new.items ≡ text.old.items ++ (fault_line fault.now ++ codes "\n")) }
{
    fault.append_to(text)?;
    text.extend_from_slice(b"\n")
}

fn append_messages(text: &mut Vec<u8>, messages: &[Sequence<u8>]) -> Result<(), AllocError>
    ensures { OnOk result (text.new.items ≡ text.old.items ++ messages_text messages.now) }
{
    for message in messages {
        text.extend_from_slice(message.as_slice())?;
        text.push(b'\n')?;
    }
    Ok(())
}

// Each message on a line, and the fault line, if there is a fault.
fn error_text(
    alloc: Global,
    messages: &[Sequence<u8>],
    fault: Option<&Fault>,
) -> Result<Vec<u8>, AllocError>
    ensures { IfOk result (λ v. v.items
        ≡ messages_text messages.now ++ fault_view (option_map (λ f. f.now) fault.entry)) }
{
    let mut text = Vec::new(alloc);
    append_messages(&mut text, messages)?;
    append_fault_of(&mut text, fault)?;
    Ok(text)
}

/// Writes each message on a line of the error output, and the fault line, if there is a fault, all at once.
pub(crate) fn tell<E: Sink>(
    alloc: Global,
    messages: &[Sequence<u8>],
    fault: Option<&Fault>,
    err: &mut E,
) -> Result<(), RunFault>
    ensures tells { TellsText result (messages_text messages.now ++ fault_view (option_map (λ f. f.now) fault.entry))
        (E.seen err.old) (E.seen err.new) }
    ensures blames { TextBlames result (E.seen err.old) (E.seen err.new) }
    ensures counts { (E.seen err.old).failed ≤ (E.seen err.new).failed }
{
    let text = error_text(alloc, messages, fault)?;
    match put(err, text.as_slice()) {
        Ok(()) => Ok(()),
        Err(_) => Err(RunFault::WriteErr),
    }
}
