//! Included files.
ghost use Rattle.std.specs.Prelude.{◌≡◌, ◌==◌, ◌||◌, ◌<◌, MatchOption, false, map, option_map, true};
ghost use Rattle.std.specs.Str.{is_utf8};
ghost use Rattle.std.specs.List.{list_any};
ghost use Rattle.kt_text.specs.Words.{words_of};
ghost use Rattle.kt_eval.specs.files.Including.{each_include, include_line, include_named, is_shell_pattern};
ghost use Rattle.kt_eval.specs.files.Files.{AgreeWith, Store};
ghost use Rattle.kt_eval.specs.reading.Reading.{included, read_file, read_first, read_included};
ghost use Rattle.kt_eval.specs.inner.Doing.{Does, DoesIn};
ghost use Rattle.kt_eval.specs.expanding.Levels.{evaluator};
ghost use Rattle.kt_eval.specs.views.Outcome.{Gives, IfCut, Blames};
ghost use Rattle.kt_eval.specs.Outcome.{left_of};
ghost use Rattle.kt_eval.specs.inner.Evaluation.{GoesOn, Keeps, files_of};

use crate::evaluation::Evaluation;
use crate::files::Files;
use crate::macros::scope::MacroScope;
use crate::reading::page::Source;
use crate::stop::Stop;
use kt_list::Shared;
use kt_rules::FaultKind;
use kt_text::words;
use std::str::from_utf8;

/// The maximum size of a makefile, an include or a list of files, in bytes.
pub const LARGEST_FILE: usize = 16_777_216;

// Whether the name is a shell pattern.
#[tactic(auto, unfolding(crate::specs::files::Including::is_shell_pattern))]
fn is_pattern(name: &[u8]) -> bool
    ensures { result ≡ is_shell_pattern name.now }
{
    match name {
        [] => false,
        [first, ..] => *first == b'~' || has_wildcard(name),
    }
}

// The name as text, if it is UTF-8.
#[tactic(auto, using(crate::proofs::lemmas::TextLemmas::utf8_found, crate::proofs::lemmas::TextLemmas::utf8_not_found))]
fn as_text(name: &[u8]) -> Option<&str>
    ensures { MatchOption result (is_utf8 name.now ≡ false) (λ text. (is_utf8 name.now ≡ true)
        × (text.now ≡ name.now)) }
{
    match from_utf8(name) {
        Ok(text) => Some(text),
        Err(_fault) => None,
    }
}

fn has_wildcard(name: &[u8]) -> bool
    ensures { result ≡ list_any (λ byte. byte == 42 || (byte == 63 || byte == 91)) name.now }
{
    name.iter()
        .any(|byte| *byte == b'*' || *byte == b'?' || *byte == b'[')
}

impl<'a, M: MacroScope, F: Files> Evaluation<'a, M, F> {
    #[cycle(evaluate)]
    #[tactic(auto, using(crate::proofs::Steps::each_include_goes), unfolding(crate::proofs::Common::include_line))]
    pub(crate) fn include_line(
        &mut self,
        below: u64,
        optional: bool,
        text: &[u8],
    ) -> Result<(), Stop>
        requires { M.writable ≡ true }
        ensures { Does (λ u. u) M.writable below (λ e. include_line e optional text.now) result self.old self.new }
    {
        let x = self.expand_text(below, text)?;
        self.each_include(below, optional, x.as_slice())
    }

    #[cycle(evaluate)]
    #[tactic(auto, using(crate::proofs::Steps::each_include_goes), unfolding(crate::proofs::Common::each_include))]
    pub(crate) fn each_include(
        &mut self,
        below: u64,
        optional: bool,
        names: &[u8],
    ) -> Result<(), Stop>
        requires { M.writable ≡ true }
        ensures { Does (λ u. u) M.writable below
            (λ e. each_include e optional (words_of names.now)) result self.old self.new }
    {
        let mut rest = words(names);
        'names: while let Some(name) = rest.next() {
            self.include_named(below, optional, name)?;
        }
        Ok(())
    }

    #[cycle(evaluate)]
    #[tactic(auto, unfolding(crate::specs::files::Including::include_named))]
    pub(crate) fn include_named(
        &mut self,
        below: u64,
        optional: bool,
        name: &[u8],
    ) -> Result<(), Stop>
        requires { M.writable ≡ true }
        ensures { Does (λ u. u) M.writable below (λ e. include_named e optional name.now) result self.old self.new }
    {
        let Some(text) = as_text(name) else {
            return Err(Stop::Fault(self.fault(FaultKind::IncludeNameNotUtf8, b"")?));
        };
        if is_pattern(name) {
            return Err(Stop::Fault(self.fault(FaultKind::RefusedName, name)?));
        }
        self.include(below, optional, text)
    }

    // Reads a file one level deeper than its caller.
    #[cycle(evaluate)]
    #[tactic(auto, using(crate::proofs::LevelLemmas::evaluator_above), unfolding(crate::proofs::LevelLemmas::opened))]
    pub(crate) fn include(&mut self, levels: u64, optional: bool, name: &str) -> Result<(), Stop>
        requires { M.writable ≡ true }
        ensures { Does (λ u. u) M.writable levels (λ e. e.include optional name.now) result self.old self.new }
    {
        if levels == 0 {
            return Err(Stop::Fault(self.fault(FaultKind::NestingTooDeep, b"")?));
        }
        self.included(levels - 1, optional, name)
    }

    #[cycle(evaluate)]
    #[tactic(auto, using(crate::proofs::Steps::read_included_goes), unfolding(crate::proofs::Common::included))]
    pub(crate) fn included(&mut self, below: u64, optional: bool, name: &str) -> Result<(), Stop>
        requires { M.writable ≡ true }
        ensures { DoesIn (λ u. u) M.writable below
            (λ store e. included store e optional name.now) result self.old self.new }
    {
        let found = self.read_bytes(name)?;
        self.read_included(below, optional, name, found)
    }

    // Afterwards the place is that of the include again.
    #[cycle(evaluate)]
    #[tactic(auto, using(crate::proofs::Steps::read_included_steps))]
    pub(crate) fn read_included(
        &mut self,
        below: u64,
        optional: bool,
        name: &str,
        found: Option<Vec<u8>>,
    ) -> Result<(), Stop>
        requires { M.writable ≡ true }
        ensures { Does (λ u. u) M.writable below
            (λ e. read_included e optional name.now (option_map (λ v. v.items) found)) result self.old self.new }
    {
        match found {
            None => {
                if optional {
                    return Ok(());
                }
                Err(Stop::Fault(self.fault(FaultKind::NoFile, name.as_bytes())?))
            }
            Some(text) => {
                let place = self.place()?;
                self.read_file(below, name, &text)?;
                self.set_place(place);
                Ok(())
            }
        }
    }

    #[cycle(evaluate)]
    #[tactic(auto, using(crate::proofs::Steps::read_text_goes), unfolding(crate::specs::reading::Reading::read_file))]
    pub(crate) fn read_file(&mut self, below: u64, name: &str, text: &[u8]) -> Result<(), Stop>
        requires { M.writable ≡ true }
        ensures { Does (λ u. u) M.writable below (λ e. read_file e name.now text.now) result self.old self.new }
    {
        if LARGEST_FILE < text.len() {
            return Err(Stop::Fault(self.fault(FaultKind::FileTooLarge, name.as_bytes())?));
        }
        let file = Shared::from_vec(Vec::from_slice(self.alloc, name.as_bytes())?)?;
        self.read_text(below, &Source::File(file), text)
    }

    // Reads the first of these files that exists.
    #[tactic(auto, using(crate::proofs::Steps::read_first_goes), unfolding(crate::specs::reading::Reading::read_first))]
    pub(crate) fn read_first(&mut self, limit: u64, names: &[&str]) -> Result<(), Stop>
        requires { M.writable ≡ true }
        ensures gives { (store : Store) → AgreeWith store self.new.answers → Gives (λ u. u) result self.new.world
            (read_first store (evaluator M.writable store limit)
            (map (λ name. name.now) names.now) self.old.world) }
        ensures cut { (store : Store) → AgreeWith store self.new.answers → IfCut result (GoesOn self.new.world (left_of
            (read_first store (evaluator M.writable store limit)
            (map (λ name. name.now) names.now) self.old.world))) }
        ensures kept { Keeps self.old self.new }
        ensures blames { Blames result (files_of self.old) (files_of self.new) }
    {
        for name in names {
            if let Some(text) = self.read_bytes(name)? {
                return self.read_file(limit, name, &text);
            }
        }
        Err(Stop::Fault(self.fault(FaultKind::NoMakefile, b"")?))
    }
}
