//! The command line, as clap takes it.
ghost use Rattle.std.specs.Prelude.{◌≡◌, IfOk, false};
ghost use Rattle.clap.specs.Words.{app_of, rule_of};
ghost use Rattle.kati_args.specs.Args.{depth_rule, kati_app, makefile_rule, ninja_rule, option_rule, words_rule};

use clap::{Arg, ArgAction, Command};
use std::alloc::{AllocError, Global};

const ABOUT: &str = "\
Translates a makefile of POSIX make, with pattern rules, functions and conditionals as GNU make has
them, to a Ninja file, and writes that to the standard output.";

const AFTER: &str = "\
Examples:
  kati --files files.txt > build.ninja.new && mv build.ninja.new build.ninja
                                 translates `makefile`, or else `Makefile`; a fault leaves build.ninja as it is
  kati -f lib.mk CC=clang all    translates lib.mk for the target `all`, where CC is `clang`

Pattern rules are chosen by the files that exist: `git ls-files > files.txt` lists them. kati-build
lists them itself, translates, and runs Ninja.

Exit status:
  0   the Ninja file is written; with --check: FILE says the same
  1   with --check: FILE says something else, can't be read as a Ninja file, or isn't there
  2   the makefile has a fault, as the standard error says; no Ninja file is written
  3   a file can't be read, or an output can't be written
  4   out of memory
  64  wrong usage";

fn makefile<'a>(alloc: Global) -> Arg<'a>
    ensures rule { rule_of result ≡ makefile_rule }
    ensures own { result.global ≡ false }
{
    Arg::new(alloc, "makefile")
        .short('f')
        .value_name("FILE")
        .action(ArgAction::Set)
        .help("Reads FILE in place of `makefile` or `Makefile`")
}

fn ninja<'a>(alloc: Global) -> Arg<'a>
    ensures rule { rule_of result ≡ ninja_rule }
    ensures own { result.global ≡ false }
{
    Arg::new(alloc, "ninja")
        .long("ninja")
        .action(ArgAction::SetTrue)
        .help("Accepted; a Ninja file is always written")
}

/// An option that names a file.
fn file<'a>(alloc: Global, name: &'a str, help: &'a str) -> Arg<'a>
    ensures rule { rule_of result ≡ option_rule name.entry.now }
    ensures own { result.global ≡ false }
{
    Arg::new(alloc, name)
        .long(name)
        .value_name("FILE")
        .action(ArgAction::Set)
        .help(help)
}

fn depth<'a>(alloc: Global) -> Arg<'a>
    ensures rule { rule_of result ≡ depth_rule }
    ensures own { result.global ≡ false }
{
    Arg::new(alloc, "depth")
        .long("depth")
        .value_name("N")
        .action(ArgAction::Set)
        .value_parser(clap::value_parser!(u64).range(1..=400))
        .help("Follows macros and includes N levels deep, 1 to 400 [default: 100]")
}

fn words<'a>(alloc: Global) -> Arg<'a>
    ensures rule { rule_of result ≡ words_rule }
    ensures own { result.global ≡ false }
{
    Arg::new(alloc, "words")
        .value_name("GOAL|NAME=VALUE")
        .action(ArgAction::Append)
        .help("A target to be made, or a macro, which overrides the makefile's assignments")
}

/// The command line of kati.
pub(crate) fn command<'a>(alloc: Global) -> Result<Command<'a>, AllocError>
    ensures { IfOk result (λ command. app_of command ≡ kati_app) }
{
    Command::new(alloc, "kati")
        .about(ABOUT)
        .after_help(AFTER)
        .arg(makefile(alloc))?
        .arg(ninja(alloc))?
        .arg(file(
            alloc,
            "files",
            "Reads the names of the files that exist from FILE, one a line",
        ))?
        .arg(file(
            alloc,
            "check",
            "Writes no Ninja file; the exit status says whether FILE has the same statements",
        ))?
        .arg(depth(alloc))?
        .arg(words(alloc))
}
