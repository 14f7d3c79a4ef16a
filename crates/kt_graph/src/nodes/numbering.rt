//! Numbers for names.
ghost use Rattle.std.specs.Prelude.{◌≡◌, ◌^◌, ◌+◌, ◌<◌, ◌++◌, [], Some, bytes_eq, fold, is_some};
ghost use Rattle.std.specs.Prelude.{length, map, option_map, slice_get, IfOk, OnOk};
ghost use Rattle.std.specs.List.{IsDistinct};
ghost use Rattle.kt_list.specs.Names.{is_among};
ghost use Rattle.kt_list.specs.views.Names.{name_at, place_of};
ghost use Rattle.kt_rules.specs.Names.{with_name};
ghost use Rattle.kt_rules.specs.views.Targets.{rule_view, names_view, needed_view};
ghost use Rattle.kt_rules.specs.Suffixes.{all_needs};
ghost use Rattle.kt_graph.specs.inner.nodes.Needed.{first_needs, needing_as, needing_view, rules_needs};
ghost use Rattle.kt_graph.specs.inner.nodes.Numbering.{AddsNumbers, SaysNeeds};
ghost use Rattle.kt_graph.specs.inner.nodes.Reached.{reached_text};
ghost use Rattle.kt_list.specs.views.Prefixes.{HasMore};

use crate::nodes::needing::{Needing, Sort, needed_as};
use crate::nodes::part::NumberedNeeds;
use crate::nodes::reached::ReachedNumbers;
use crate::nodes::reached_name::ReachedName;
use crate::nodes::tables::Tables;
use kt_list::{Names, narrow};
use kt_rules::{Name, NeededName, NeededNames, NeedsView, TargetRule};
use std::alloc::{AllocError, Global};
use std::marker::Model;

/// The names reached so far. The number of a name is its place.
///
/// A name that stands in the tables is told by its number there, and takes 8 bytes.
#[derive(Drop)]
pub(crate) struct NameNumbers<'a> {
    alloc: Global,
    // All names of a book, and of a list of files.
    tables: Tables<'a>,
    // Names that don't stand there. Their numbers come after those.
    others: Names,
    reached: ReachedNumbers,
}

impl<'a> Model for NameNumbers<'a> {
    ghost use Rattle.std.specs.Prelude.{ℕ, List, ◌++◌};

    ghost Value = { List (List ℕ) };

    ghost use Rattle.kt_graph.specs.inner.nodes.Reached.{IsPlaced};
    ghost use Rattle.kt_list.specs.views.Names.{names_at};

    ghost view = { λ s. names_at (s.tables ++ s.others) s.reached.numbers.items };

    ghost invariant = { λ s. IsPlaced (s.tables ++ s.others) s.reached.numbers.items s.reached.marks.items };
}

impl<'a> NameNumbers<'a> {
    /// No names. Those of the tables take no memory of their own later on.
    pub(crate) fn new(alloc: Global, tables: Tables<'a>) -> Result<NameNumbers<'a>, AllocError>
        ensures { IfOk result (λ numbers. numbers ≡ []) }
    {
        let room = tables.len();
        NameNumbers::with_room(alloc, tables, room)
    }

    /// No names. So many of the tables take no memory of their own later on.
    pub(crate) fn with_room(
        alloc: Global,
        tables: Tables<'a>,
        room: usize,
    ) -> Result<NameNumbers<'a>, AllocError>
        ensures { IfOk result (λ numbers. numbers ≡ []) }
    {
        Ok(NameNumbers {
            alloc,
            tables,
            others: Names::new(alloc),
            reached: ReachedNumbers::none(alloc, room)?,
        })
    }

    /// The number of names.
    pub(crate) fn len(&self) -> usize
        ensures len { result ≡ length self.now }
        ensures small { result < 2 ^ 63 }
        ensures differ { IsDistinct bytes_eq self.now }
    {
        self.reached.len()
    }

    /// The name with a number.
    pub(crate) fn get(&self, number: usize) -> Option<&[u8]>
        ensures { option_map (λ name. name.now) result ≡ slice_get self.now number }
    {
        let number = self.reached.at(number)?;
        Some(name_among(&self.tables, &self.others, number))
    }

    /// The names that don't stand in the tables.
    pub(crate) fn others(&self) -> &Names {
        &self.others
    }

    /// The number in the book of the name with a number. Nothing is promised of it.
    pub(crate) fn number_in_book(&self, number: usize) -> usize {
        self.reached.at(number).unwrap_or(0)
    }

    /// The name with a number, for as long as there are the tables.
    pub(crate) fn name(&self, number: usize) -> Result<Option<ReachedName<'a>>, AllocError>
        ensures { IfOk result (λ name. option_map reached_text name ≡ slice_get self.now number) }
    {
        match self.reached.at(number) {
            Some(number) => Ok(Some(reached_name(self.alloc, &self.tables, &self.others, number)?)),
            None => Ok(None),
        }
    }

    /// The number of a name, if it was reached.
    #[tactic(auto, using(crate::proofs::lemmas::nodes::ReachedNames::placed_among))]
    pub(crate) fn number_of(&self, name: &[u8]) -> Option<usize>
        ensures place { result ≡ place_of self.now name.now }
        ensures found { is_some result ≡ is_among self.now name.now }
    {
        let number = number_among(&self.tables, &self.others, name)?;
        self.reached.place(number)
    }

    /// Whether a name was reached. Takes no memory.
    #[tactic(auto, using(crate::proofs::lemmas::nodes::NumberLemmas::none_among))]
    pub(crate) fn contains(&self, name: &[u8]) -> bool
        ensures { result ≡ is_among self.now name.now }
    {
        self.len() > 0 && self.number_of(name).is_some()
    }

    /// Adds a name, unless it is there.
    pub(crate) fn add(&mut self, name: &[u8]) -> Result<(), AllocError>
        ensures { OnOk result (self.new ≡ with_name self.old name.now) }
    {
        let _ = self.number(name)?;
        Ok(())
    }

    // The number of a name, which is reached from then on.
    #[tactic(auto, using(crate::proofs::lemmas::nodes::ReachedNames::step_reached))]
    fn number(&mut self, name: &[u8]) -> Result<usize, AllocError>
        ensures numbered { IfOk result (λ number. slice_get self.new number ≡ Some name.now) }
        ensures reached { OnOk result (self.new ≡ with_name self.old name.now) }
    {
        let number = note(&self.tables, &mut self.others, name)?;
        self.reached.reach(number)
    }

    // As `number`, for a name that is needed. One that stands in the book is neither hashed nor copied.
    fn needed_number(&mut self, name: NeededName<'_>) -> Result<usize, AllocError>
        ensures numbered { IfOk result (λ number. slice_get self.new number ≡ Some (needed_view name.entry)) }
        ensures reached { OnOk result (self.new ≡ with_name self.old (needed_view name.entry)) }
    {
        match self.tables.needed(name) {
            Some(number) => self.reached.reach(number),
            None => {
                let text = name.text(self.alloc)?;
                self.number(text.as_slice())
            }
        }
    }

    /// Adds names, each unless it is there.
    pub(crate) fn reach(&mut self, names: &[Name]) -> Result<(), AllocError>
        ensures { OnOk result (self.new ≡ fold with_name self.old names.now) }
    {
        for name in names {
            self.add(name.as_slice())?;
        }
        Ok(())
    }

    /// The numbers of prerequisites, in place of those that were there. The names become reached.
    pub(crate) fn number_needs(
        &mut self,
        needing: Needing<'_, '_, '_>,
        numbered: &mut NumberedNeeds,
    ) -> Result<(), AllocError>
        ensures says { OnOk result (SaysNeeds self.new (needing_view needing.entry)
            numbered.new.prerequisites.items numbered.new.order_only.items) }
        ensures reached { OnOk result (self.new ≡ fold with_name self.old (all_needs (needing_view needing.entry))) }
    {
        numbered.prerequisites.clear();
        numbered.order_only.clear();
        self.add_needs(needing, Sort::Prerequisite, &mut numbered.prerequisites)?;
        self.add_needs(needing, Sort::OrderOnly, &mut numbered.order_only)
    }

    // Adds the numbers of prerequisites of one sort at the end.
    fn add_needs(
        &mut self,
        needing: Needing<'_, '_, '_>,
        sort: Sort,
        numbers: &mut Vec<u32>,
    ) -> Result<(), AllocError>
        ensures { OnOk result (AddsNumbers self.old numbers.old.items (needing_as sort needing.entry)
            self.new numbers.new.items) }
    {
        self.add_first(needing.first, sort, numbers)?;
        self.add_rules(needing.earlier, sort, numbers)?;
        self.add_rules(needing.later, sort, numbers)
    }

    fn add_first(
        &mut self,
        first: Option<NeedsView<'_>>,
        sort: Sort,
        numbers: &mut Vec<u32>,
    ) -> Result<(), AllocError>
        ensures { OnOk result (AddsNumbers self.old numbers.old.items (first_needs sort first.entry)
            self.new numbers.new.items) }
    {
        match first {
            Some(needs) => self.add_names(numbers, needed_as(needs, sort)),
            None => Ok(()),
        }
    }

    fn add_rules(
        &mut self,
        rules: &[TargetRule],
        sort: Sort,
        numbers: &mut Vec<u32>,
    ) -> Result<(), AllocError>
        ensures { OnOk result (AddsNumbers self.old numbers.old.items (rules_needs sort
            (map rule_view rules.now)) self.new numbers.new.items) }
    {
        for rule in rules {
            self.add_names(numbers, needed_as(rule.needs(), sort))?;
        }
        Ok(())
    }

    // Adds the numbers of names at the end. One beyond 4,294,967,295 is refused as if memory were.
    fn add_names(
        &mut self,
        numbers: &mut Vec<u32>,
        names: NeededNames<'_>,
    ) -> Result<(), AllocError>
        ensures { OnOk result (AddsNumbers self.old numbers.old.items (names_view names.entry)
            self.new numbers.new.items) }
    {
        numbers.reserve(names.len())?;
        for name in names {
            let number = self.needed_number(name)?;
            numbers.push(narrow(number)?)?;
        }
        Ok(())
    }
}

// The name with a number among those of tables and others, of which it is a copy.
fn reached_name<'a>(
    alloc: Global,
    tables: &Tables<'a>,
    others: &Names,
    number: usize,
) -> Result<ReachedName<'a>, AllocError>
    ensures { IfOk result (λ name. reached_text name ≡ name_at (tables.now ++ others.now) number) }
{
    if number < tables.len() {
        Ok(ReachedName::InTables(tables.name(number), number))
    } else {
        let other = others.name_at(number - tables.len());
        Ok(ReachedName::Other(Name::copied(alloc, other)?))
    }
}

// The name with a number among those of tables and others.
fn name_among<'n>(tables: &'n Tables<'_>, others: &'n Names, number: usize) -> &'n [u8]
    ensures { result.now ≡ name_at (tables.now ++ others.now) number }
{
    if number < tables.len() {
        tables.name(number)
    } else {
        others.name_at(number - tables.len())
    }
}

// The number of a name among those of tables and others.
fn number_among(tables: &Tables<'_>, others: &Names, name: &[u8]) -> Option<usize>
    ensures { result ≡ place_of (tables.now ++ others.now) name.now }
{
    match tables.number_of(name) {
        Some(number) => Some(number),
        None => number_after(tables, others, name),
    }
}

// The number of a name among others, which come after those of tables.
fn number_after(tables: &Tables<'_>, others: &Names, name: &[u8]) -> Option<usize>
    ensures { result ≡ option_map (λ number. length tables.now + number) (place_of others.now name.now) }
{
    let number = others.number_of(name)?;
    let _count = others.len();
    Some(tables.len() + number)
}

// The number of a name among those of tables and others, to which it is added if it stands nowhere.
fn note(tables: &Tables<'_>, others: &mut Names, name: &[u8]) -> Result<usize, AllocError>
    ensures noted { IfOk result (λ number. place_of (tables.now ++ others.new) name.now ≡ Some number) }
    ensures grown { HasMore others.old others.new }
{
    match tables.number_of(name) {
        Some(number) => Ok(number),
        None => note_after(tables, others, name),
    }
}

#[tactic(auto, using(kt_rules::proofs::lemmas::book::NoteLemmas::place_at))]
fn note_after(tables: &Tables<'_>, others: &mut Names, name: &[u8]) -> Result<usize, AllocError>
    ensures noted { IfOk result (λ number. option_map (λ place. length tables.now + place)
        (place_of others.new name.now) ≡ Some number) }
    ensures grown { HasMore others.old others.new }
{
    let number = others.number(name)?;
    // The contract of `len` makes known that the names differ.
    let _count = others.len();
    Ok(tables.len() + number)
}
