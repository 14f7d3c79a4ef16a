//! The words, as clap matches them.
ghost use Rattle.std.specs.Prelude.{◌≡◌, IfErr, IfOk, IfSome, codes, map, string_bytes};
ghost use Rattle.clap.specs.Words.{HasKind, IsUnsignedIn, fault_of, first_value, found_of, kind_of, matches_of};
ghost use Rattle.clap.specs.Words.{rows_of};
ghost use Rattle.kati_args.specs.Args.{IsTaken, kati_app};

use crate::command::command;
use clap::error::ErrorKind;
use clap::{ArgMatches, Error};
use std::alloc::Global;

/// What clap finds in the words, of which the first is the program's name.
pub(crate) fn matched<'a>(alloc: Global, words: &'a [String]) -> Result<ArgMatches<'a>, Error>
    ensures found { IfOk result (λ m. rows_of (found_of m) ≡ matches_of kati_app (map string_bytes words.now)) }
    ensures depth { IfOk result (λ m. IfSome (first_value (found_of m) (codes "depth")) (IsUnsignedIn 1 400)) }
    ensures taken { IfOk result (λ _. IsTaken (map string_bytes words.now)) }
    ensures memory { IfErr result (λ e. IsTaken (map string_bytes words.now) → kind_of e ≡ ErrorKind.OutOfMemory) }
    ensures kinds { IfErr result (HasKind (fault_of kati_app (map string_bytes words.now))) }
{
    command(alloc)?.try_get_matches_from(words)
}
