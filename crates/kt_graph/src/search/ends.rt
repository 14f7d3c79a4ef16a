//! Pattern rules by the text after the percent sign of their targets.
//! Fast: the pattern rules of a name are looked up by the text after the percent sign, once for each length of such a
//! text. Spares a look-up for each such text, and a match with each rule.
ghost use Rattle.std.specs.Prelude.{◌≡◌, ◌++◌, ◌∷◌, [], ℕ, List, IfOk, OnOk};
ghost use Rattle.kt_text.specs.Match.{pattern_back};
ghost use Rattle.kt_graph.specs.inner.search.Ends.{HasAll, NotesEnd, NotesAll};

use indexmap::IndexSet;
use kt_rules::{Index, Target};
use memchr::memchr;
use std::alloc::{AllocError, Global};

/// The numbers of rules, by the ends of their targets.
#[derive(Drop)]
pub(crate) struct TargetEnds {
    alloc: Global,
    // The lengths of the ends: a name is looked up once for each length instead of once for each end.
    lengths: IndexSet<usize>,
    numbers: Index<usize>,
}

impl TargetEnds {
    pub(crate) fn none(alloc: Global) -> TargetEnds {
        TargetEnds {
            alloc,
            lengths: IndexSet::new(alloc),
            numbers: Index::new(alloc),
        }
    }

    /// Notes the number of a rule at the ends of its targets.
    #[tactic(auto, using(std::proofs::lemmas::List::take_all))]
    pub(crate) fn note_targets(
        &mut self,
        targets: &[Target],
        number: usize,
    ) -> Result<(), AllocError>
        ensures { OnOk result (NotesAll self.old self.new targets.now number) }
    {
        for target in targets {
            self.note(end_of(target.name.as_slice()), number)?;
        }
        Ok(())
    }

    fn note(&mut self, end: &[u8], number: usize) -> Result<(), AllocError>
        ensures { OnOk result (NotesEnd self.old self.new end.now number) }
    {
        self.lengths.insert(end.len())?;
        self.numbers.note(end, number)
    }

    /// The numbers that were noted at the ends of a name, in any order.
    pub(crate) fn found(&self, name: &[u8]) -> Result<Vec<usize>, AllocError>
        ensures { IfOk result (λ found. HasAll self.now name.now self.now.lengths.keys found.items) }
    {
        let mut found = Vec::new(self.alloc);
        for length in self.lengths.as_slice() {
            self.add_found(name, *length, &mut found)?;
        }
        Ok(found)
    }

    // Adds the numbers that were noted at the end of a name with this length.
    fn add_found(
        &self,
        name: &[u8],
        length: usize,
        found: &mut Vec<usize>,
    ) -> Result<(), AllocError>
        ensures { OnOk result ((lengths : List ℕ) → HasAll self.now name.now lengths found.old.items
            → HasAll self.now name.now (lengths ++ length ∷ []) found.new.items) }
    {
        if length <= name.len() {
            found.extend_from_slice(self.numbers.noted(&name[name.len() - length..]))?;
        }
        Ok(())
    }
}

/// The text after the first percent sign of a pattern.
pub(crate) fn end_of(pattern: &[u8]) -> &[u8]
    ensures { result.now ≡ pattern_back pattern.now }
{
    match memchr(b'%', pattern) {
        Some(place) => &pattern[place + 1..],
        None => &[],
    }
}
