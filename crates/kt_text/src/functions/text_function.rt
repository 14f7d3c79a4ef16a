//! The text functions by their names, with numbers of arguments, and one call that applies each.
ghost use Rattle.std.specs.Prelude.{◌≡◌, ◌≤◌, find};
ghost use Rattle.kt_text.specs.views.Functions.{Answers};
ghost use Rattle.kt_text.specs.TextFunctions.{applied, arity, function_row, has_name, text_function, text_function_name};

use crate::fault::TextFault;
use crate::functions::list::{firstword, join, lastword, strip, word, wordlist, words};
use crate::functions::names::{addprefix, addsuffix, basename, dir, notdir, suffix};
use crate::functions::sorting::sort;
use crate::functions::substitution::{filter, filter_out, findstring, patsubst, subst};
use std::alloc::Global;

/// A function whose result depends only on its expanded arguments (GNU make manual, "Functions for String Substitution
/// and Analysis" and "Functions for File Names").
#[derive(Clone, Copy, Debug, PartialEq, Eq)]
pub enum TextFunction {
    Subst,
    Patsubst,
    Strip,
    Findstring,
    Filter,
    FilterOut,
    Sort,
    Word,
    Wordlist,
    Words,
    Firstword,
    Lastword,
    Dir,
    Notdir,
    Suffix,
    Basename,
    Addsuffix,
    Addprefix,
    Join,
}

/// All text functions, to look up a name.
const TEXT_FUNCTIONS: [TextFunction; 19] = [
    TextFunction::Subst,
    TextFunction::Patsubst,
    TextFunction::Strip,
    TextFunction::Findstring,
    TextFunction::Filter,
    TextFunction::FilterOut,
    TextFunction::Sort,
    TextFunction::Word,
    TextFunction::Wordlist,
    TextFunction::Words,
    TextFunction::Firstword,
    TextFunction::Lastword,
    TextFunction::Dir,
    TextFunction::Notdir,
    TextFunction::Suffix,
    TextFunction::Basename,
    TextFunction::Addsuffix,
    TextFunction::Addprefix,
    TextFunction::Join,
];

impl TextFunction {
    /// The function with this name. Takes no memory.
    #[tactic(auto, unfolding(crate::specs::TextFunctions::text_function))]
    pub fn named(name: &[u8]) -> Option<TextFunction>
        ensures { result ≡ text_function name.now }
    {
        named_among(&TEXT_FUNCTIONS, name)
    }

    fn has_name(self, name: &[u8]) -> bool
        ensures { result ≡ has_name name.now self }
    {
        name == self.name()
    }

    /// Its name in a makefile.
    pub fn name(self) -> &'static [u8]
        ensures { result.now ≡ text_function_name self }
    {
        self.row().0
    }

    /// The number of its arguments.
    pub fn arity(self) -> usize
        ensures value { result ≡ arity self }
        ensures some { 1 ≤ result }
    {
        self.row().1
    }

    // The name of each text function, and the number of its arguments.
    fn row(self) -> (&'static [u8], usize)
        ensures value { (result.0.now, result.1) ≡ function_row self }
        ensures some { 1 ≤ result.1 }
    {
        match self {
            TextFunction::Subst => (b"subst", 3),
            TextFunction::Patsubst => (b"patsubst", 3),
            TextFunction::Strip => (b"strip", 1),
            TextFunction::Findstring => (b"findstring", 2),
            TextFunction::Filter => (b"filter", 2),
            TextFunction::FilterOut => (b"filter-out", 2),
            TextFunction::Sort => (b"sort", 1),
            TextFunction::Word => (b"word", 2),
            TextFunction::Wordlist => (b"wordlist", 3),
            TextFunction::Words => (b"words", 1),
            TextFunction::Firstword => (b"firstword", 1),
            TextFunction::Lastword => (b"lastword", 1),
            TextFunction::Dir => (b"dir", 1),
            TextFunction::Notdir => (b"notdir", 1),
            TextFunction::Suffix => (b"suffix", 1),
            TextFunction::Basename => (b"basename", 1),
            TextFunction::Addsuffix => (b"addsuffix", 2),
            TextFunction::Addprefix => (b"addprefix", 2),
            TextFunction::Join => (b"join", 2),
        }
    }

    /// Its result for expanded arguments, of which as many count as it has. The errors are `BadArgument`, where it
    /// doesn't accept them, and out of memory.
    pub fn apply(
        self,
        alloc: Global,
        first: &[u8],
        second: &[u8],
        third: &[u8],
    ) -> Result<Vec<u8>, TextFault>
        ensures { Answers result (applied self first.now second.now third.now) }
    {
        match self {
            TextFunction::Subst => subst(alloc, first, second, third),
            TextFunction::Patsubst => patsubst(alloc, first, second, third),
            TextFunction::Strip => strip(alloc, first),
            TextFunction::Findstring => findstring(alloc, first, second),
            TextFunction::Filter => filter(alloc, first, second),
            TextFunction::FilterOut => filter_out(alloc, first, second),
            TextFunction::Sort => sort(alloc, first),
            TextFunction::Word => word(alloc, first, second),
            TextFunction::Wordlist => wordlist(alloc, first, second, third),
            TextFunction::Words => words(alloc, first),
            TextFunction::Firstword => firstword(alloc, first),
            TextFunction::Lastword => lastword(alloc, first),
            TextFunction::Dir => dir(alloc, first),
            TextFunction::Notdir => notdir(alloc, first),
            TextFunction::Suffix => suffix(alloc, first),
            TextFunction::Basename => basename(alloc, first),
            TextFunction::Addsuffix => addsuffix(alloc, first, second),
            TextFunction::Addprefix => addprefix(alloc, first, second),
            TextFunction::Join => join(alloc, first, second),
        }
    }
}

// The first of these functions with the name.
fn named_among(functions: &[TextFunction], name: &[u8]) -> Option<TextFunction>
    ensures { result ≡ find (has_name name.now) functions.now }
{
    for function in functions {
        if function.has_name(name) {
            return Some(*function);
        }
    }
    None
}
