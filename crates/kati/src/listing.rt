//! The list of files that exist.
ghost use Rattle.std.specs.Prelude.{◌≡◌, ◌≤◌, [], option_map, IfOk, Some};
ghost use Rattle.kt_eval.specs.files.Files.{AgreeWith, Store};
ghost use Rattle.kt_eval.specs.views.files.Files.{AnswersGrow};
ghost use Rattle.kt_list.specs.Prefixes.{IsPrefix};
ghost use Rattle.kt_eval.specs.reading.Machine.{Trace, traced};
ghost use Rattle.kt_eval.specs.views.Outcome.{AsksNothing, Gives, Blames};
ghost use Rattle.kt_eval.specs.Outcome.{left_of};
ghost use Rattle.kati.specs.Listing.{list_in, listed, nul_fault};
ghost use Rattle.kati.specs.inner.Stops.{IsFaultOf};

use crate::words::stop_on;
use kati_args::Word;
use kt_eval::{FileFault, Files, LARGEST_FILE, Stop};
use kt_list::Shared;
use kt_rules::{FaultKind, Place};
use kt_text::nul_line;
use std::alloc::{AllocError, Global};

/// The text of the list, which is empty if no list is asked for.
pub(crate) fn listed<F: Files>(
    alloc: Global,
    name: &Option<Word>,
    files: &mut F,
) -> Result<Vec<u8>, Stop>
    ensures gives { (store : Store) → AgreeWith store (F.seen files.new).answers → Gives (λ v. v.items) result
        (traced [] (F.seen files.new).names) (listed store name.now (traced [] (F.seen files.old).names)) }
    ensures asked { (store : Store) → AgreeWith store (F.seen files.new).answers → IsPrefix (F.seen files.new).names
        (left_of (listed store name.now (traced [] (F.seen files.old).names))).asked }
    ensures grows { AnswersGrow (F.seen files.old).answers (F.seen files.new).answers }
    ensures counts { (F.seen files.old).failed ≤ (F.seen files.new).failed }
    ensures blames { Blames result (F.seen files.old) (F.seen files.new) }
{
    match name {
        Some(name) => read_list(alloc, name.as_str(), files),
        None => Ok(Vec::new(alloc)),
    }
}

#[tactic(auto, using(crate::proofs::lemmas::BlameLemmas::one_read))]
fn read_list<F: Files>(alloc: Global, name: &str, files: &mut F) -> Result<Vec<u8>, Stop>
    ensures gives { (store : Store) → AgreeWith store (F.seen files.new).answers → Gives (λ v. v.items) result
        (traced [] (F.seen files.new).names) (listed store (Some name.now) (traced [] (F.seen files.old).names)) }
    ensures asked { (store : Store) → AgreeWith store (F.seen files.new).answers → IsPrefix (F.seen files.new).names
        (left_of (listed store (Some name.now) (traced [] (F.seen files.old).names))).asked }
    ensures grows { AnswersGrow (F.seen files.old).answers (F.seen files.new).answers }
    ensures counts { (F.seen files.old).failed ≤ (F.seen files.new).failed }
    ensures blames { Blames result (F.seen files.old) (F.seen files.new) }
{
    // Copied before the read, so that a failed device is always reported with its name.
    let copy = name.to_string(alloc)?;
    match files.read(name) {
        Ok(found) => list_in(alloc, name, found),
        Err(FileFault::Device) => Err(Stop::Device(copy)),
        Err(FileFault::Memory) => Err(Stop::Memory),
    }
}

// The text of a list that was looked for.
fn list_in(alloc: Global, name: &str, found: Option<Vec<u8>>) -> Result<Vec<u8>, Stop>
    ensures gives { (trace : Trace) → Gives (λ v. v.items) result trace
        (list_in name.now (option_map (λ v. v.items) found) trace) }
    ensures asks_nothing { AsksNothing result }
{
    match found {
        Some(text) => checked(alloc, name, text),
        None => Err(stop_on(alloc, FaultKind::NoFile, name.as_bytes(), None)),
    }
}

fn checked(alloc: Global, name: &str, text: Vec<u8>) -> Result<Vec<u8>, Stop>
    ensures gives { (trace : Trace) → Gives (λ v. v.items) result trace (list_in name.now (Some text.items) trace) }
    ensures asks_nothing { AsksNothing result }
{
    if text.len() > LARGEST_FILE {
        let name = name.as_bytes();
        return Err(stop_on(alloc, FaultKind::FileTooLarge, name, None));
    }
    match nul_line(text.as_slice()) {
        Some(line) => Err(nul_stop(alloc, name, line)),
        None => Ok(text),
    }
}

fn nul_stop(alloc: Global, name: &str, line: u64) -> Stop
    ensures { IsFaultOf (nul_fault name.now line) result }
{
    match place_in(alloc, name, line) {
        Ok(place) => stop_on(alloc, FaultKind::NulByte, b"", Some(place)),
        Err(_refused) => Stop::Memory,
    }
}

fn place_in(alloc: Global, name: &str, line: u64) -> Result<Place, AllocError>
    ensures { IfOk result (λ place. place ≡ record { file = name.now; line = line }) }
{
    Ok(Place {
        file: Shared::from_vec(name.as_bytes().to_vec(alloc)?)?,
        line,
    })
}
