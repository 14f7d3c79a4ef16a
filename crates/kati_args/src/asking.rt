//! From the words to what they ask for.
ghost use Rattle.std.specs.Prelude.{◌≡◌, ◌≤◌, IfOk, IfSome, codes, map, option_map, string_bytes, unwrap_or};
ghost use Rattle.clap.specs.Words.{HasKind, IsUnsignedIn, fault_of, first_value, found_of, rows_of};
ghost use Rattle.kati_args.specs.Args.{AnswersWords, AnswersFound, number_in, words_in};
ghost use Rattle.kati_args.specs.inner.Faults.{ReportsError, TellsFaultText};

use crate::args::Args;
use crate::fault::ArgFault;
use crate::matching::matched;
use crate::word::Word;
use crate::words::{first_bad, goals_in, macros_in};
use clap::error::ErrorKind;
use clap::{ArgMatches, Error};
use kt_list::Sequence;
use std::alloc::{AllocError, Global};

/// The limit of levels where `--depth` says none.
const LIMIT: u64 = 100;

fn word_of(alloc: Global, text: Option<&str>) -> Result<Option<Word>, AllocError>
    ensures { IfOk result (λ word. word ≡ option_map (λ t. t.now) text.entry) }
{
    match text {
        Some(text) => Ok(Some(Word::copied(alloc, text)?)),
        None => Ok(None),
    }
}

fn limit_of(depth: Option<&str>) -> u64
    requires { IfSome depth (λ text. IsUnsignedIn 1 400 text.now) }
    ensures value { result ≡ unwrap_or (option_map number_in (option_map (λ t. t.now) depth.entry)) 100 }
    ensures within { (1 ≤ result) × (result ≤ 400) }
{
    match depth {
        Some(text) => text.parse().unwrap_or(LIMIT),
        None => LIMIT,
    }
}

/// The arguments, or the first macro whose name no macro can have, of matches with these words that are no option.
fn asked_with(alloc: Global, matches: &ArgMatches<'_>, words: &[&str]) -> Result<Args, ArgFault>
    requires words { map (λ word. word.now) words.now ≡ words_in (rows_of (found_of matches.now)) }
    requires depth { IfSome (first_value (found_of matches.now) (codes "depth")) (IsUnsignedIn 1 400) }
    ensures found { AnswersFound (rows_of (found_of matches.now)) result }
    ensures limit { IfOk result (λ args. (1 ≤ args.limit) × (args.limit ≤ 400)) }
{
    if let Some(word) = first_bad(words) {
        return Err(ArgFault::BadMacro(String::from_str(alloc, word)?));
    }
    Ok(Args {
        makefile: word_of(alloc, matches.get_str("makefile"))?,
        files: word_of(alloc, matches.get_str("files"))?,
        check: word_of(alloc, matches.get_str("check"))?,
        limit: limit_of(matches.get_str("depth")),
        goals: Sequence::from(goals_in(alloc, words)?),
        macros: Sequence::from(macros_in(alloc, words)?),
    })
}

fn asked(alloc: Global, matches: &ArgMatches<'_>) -> Result<Args, ArgFault>
    requires { IfSome (first_value (found_of matches.now) (codes "depth")) (IsUnsignedIn 1 400) }
    ensures found { AnswersFound (rows_of (found_of matches.now)) result }
    ensures limit { IfOk result (λ args. (1 ≤ args.limit) × (args.limit ≤ 400)) }
{
    match matches.get_raw("words") {
        Some(words) => asked_with(alloc, matches, words),
        None => asked_with(alloc, matches, &[]),
    }
}

/// What clap tells of the words.
fn fault_of(alloc: Global, error: &Error) -> ArgFault
    ensures { ReportsError error.now result }
{
    if error.kind() == ErrorKind::OutOfMemory {
        return ArgFault::Memory;
    }
    told(error.kind(), format!(in alloc; "{error}"))
}

// The fault of a kind, with the text that was made of it. Where none could be made, memory ran out.
fn told(kind: ErrorKind, text: Result<String, AllocError>) -> ArgFault
    ensures { TellsFaultText kind text result }
{
    match text {
        Ok(text) if kind == ErrorKind::DisplayHelp => ArgFault::Help(text),
        Ok(text) => ArgFault::Usage(text),
        Err(_) => ArgFault::Memory,
    }
}

/// Reads the command line, of which the first word is the program's name.
pub fn args_of(alloc: Global, words: &[String]) -> Result<Args, ArgFault>
    ensures answers { AnswersWords (map string_bytes words.now) result }
    ensures limit { IfOk result (λ args. (1 ≤ args.limit) × (args.limit ≤ 400)) }
{
    match matched(alloc, words) {
        Ok(matches) => asked(alloc, &matches),
        Err(error) => Err(fault_of(alloc, &error)),
    }
}
