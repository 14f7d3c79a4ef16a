//! What a command line asks for.
use crate::word::Word;
use kt_list::{Sequence, Text};

/// The bytes of a name.
pub type GivenName = Text;

/// A macro of the command line.
#[derive(Debug, Drop)]
pub struct MacroWord {
    /// What stands before the first equals sign.
    pub name: GivenName,
    /// All that stands after it.
    pub value: Text,
}

/// What a command line asks for.
#[derive(Debug, Drop)]
pub struct Args {
    /// The makefile, where `-f` names one.
    pub makefile: Option<Word>,
    /// The list of the files that exist, where `--files` names one.
    pub files: Option<Word>,
    /// The Ninja file to be checked, where `--check` names one.
    pub check: Option<Word>,
    /// How many levels of macros and includes are followed: 100, or what `--depth` says.
    pub limit: u64,
    /// The targets to be made, in their order.
    pub goals: Sequence<GivenName>,
    /// The macros, in their order. Of two of one name the later counts.
    pub macros: Sequence<MacroWord>,
}
