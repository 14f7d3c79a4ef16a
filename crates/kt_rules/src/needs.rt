//! The prerequisites of targets, borrowed from their entry.
ghost use Rattle.std.specs.Prelude.{◌≡◌, Some, length, slice_get, IfOk, IfSome};
ghost use Rattle.std.specs.Cow.{cow_slice_items};
ghost use Rattle.std.specs.Iterator.{YieldsFirstBy, item_count};
ghost use Rattle.kt_text.specs.Words.{Text};
ghost use Rattle.kt_rules.specs.Entry.{no_needs, shared_needs, stemmed};
ghost use Rattle.kt_rules.specs.Suffixes.{needs_nothing};
ghost use Rattle.kt_rules.specs.views.Targets.{listed_needs, needed_view, names_view, needs_view, stemmed_name};
ghost use Rattle.kt_rules.specs.views.Targets.{text_in};

use crate::line::entry::Needs;
use crate::listed::{AnyNames, ListedNeeds};
use crate::name::{stemmed_name, without_dots};
use kt_list::Names;
use kt_text::has_percent;
use std::alloc::{AllocError, Global};
use std::borrow::CowSlice;

/// The prerequisites of a target. A stem is put into a name only when the name's text is requested.
#[derive(Clone, Copy)]
pub struct NeedsView<'a> {
    needs: ListedNeeds<'a>,
    stem: Option<&'a [u8]>,
}

impl<'a> NeedsView<'a> {
    /// The prerequisites as they are.
    pub fn of(needs: &'a Needs) -> NeedsView<'a>
        ensures { needs_view result ≡ needs.now }
    {
        NeedsView::listed(ListedNeeds::of(needs))
    }

    /// The prerequisites with a stem put in.
    pub(crate) fn stemmed(needs: ListedNeeds<'a>, stem: &'a [u8]) -> NeedsView<'a>
        ensures { needs_view result ≡ (stemmed (listed_needs needs.entry) stem.now).needs }
    {
        NeedsView {
            needs,
            stem: Some(stem),
        }
    }

    /// No prerequisites.
    pub(crate) fn none() -> NeedsView<'a>
        ensures { needs_view result ≡ no_needs }
    {
        NeedsView::listed(ListedNeeds::none())
    }

    /// The listed prerequisites, without a stem.
    pub(crate) fn listed(needs: ListedNeeds<'a>) -> NeedsView<'a>
        ensures { needs_view result ≡ listed_needs needs.entry }
    {
        NeedsView { needs, stem: None }
    }

    /// The prerequisites.
    pub fn prerequisites(&self) -> NeededNames<'a>
        ensures { names_view result ≡ (needs_view self.now).prerequisites }
    {
        NeededNames {
            names: self.needs.prerequisites,
            stem: self.stem,
        }
    }

    /// The prerequisites after `|` (GNU make manual, "Types of Prerequisites").
    pub fn order_only(&self) -> NeededNames<'a>
        ensures { names_view result ≡ (needs_view self.now).order_only }
    {
        NeededNames {
            names: self.needs.order_only,
            stem: self.stem,
        }
    }

    /// Whether there are no prerequisites.
    #[tactic(auto, using(crate::proofs::lemmas::TargetLemmas::empty_put))]
    pub fn is_empty(&self) -> bool
        ensures { result ≡ needs_nothing (needs_view self.now) }
    {
        self.needs.prerequisites.is_empty() && self.needs.order_only.is_empty()
    }
}

/// The prerequisites that all targets of a line share: none in a static pattern rule.
pub(crate) fn shared_needs<'a>(pattern: Option<&[u8]>, needs: ListedNeeds<'a>) -> NeedsView<'a>
    ensures { needs_view result ≡ shared_needs (text_in pattern.entry) (listed_needs needs.entry) }
{
    match pattern {
        None => NeedsView::listed(needs),
        Some(_) => NeedsView::none(),
    }
}

/// Names of prerequisites, in order and with repeats.
#[derive(Drop)]
pub struct NeededNames<'a> {
    names: AnyNames<'a>,
    stem: Option<&'a [u8]>,
}

impl<'a> NeededNames<'a> {
    /// The number of names that remain. Takes no memory.
    #[tactic(auto, using(crate::proofs::lemmas::TargetLemmas::count_put))]
    pub fn len(&self) -> usize
        ensures { result ≡ length (names_view self.now) }
    {
        self.names.len()
    }
}

impl<'a> Iterator for NeededNames<'a> {
    type Item = NeededName<'a>;

    ghost next_gives = { YieldsFirstBy needed_view names_view };

    ghost remaining = { item_count names_view };

    #[tactic(auto, using(crate::proofs::lemmas::TargetLemmas::first_put, crate::proofs::lemmas::TargetLemmas::none_put))]
    fn next(&mut self) -> Option<NeededName<'a>> {
        let (listed, after) = self.names.split_first()?;
        self.names = after;
        Some(NeededName {
            name: listed.name,
            number: listed.number,
            stem: self.stem,
        })
    }
}

/// The name of a prerequisite.
#[derive(Clone, Copy)]
pub struct NeededName<'a> {
    name: &'a [u8],
    // Where a rule of a book lists the name, that of the name among the book's. Nothing is promised of it.
    number: Option<usize>,
    stem: Option<&'a [u8]>,
}

impl<'a> NeededName<'a> {
    /// Its bytes. Allocates only where a stem is put in.
    pub fn text(self, alloc: Global) -> Result<CowSlice<'a, u8>, AllocError>
        ensures { IfOk result (λ text. cow_slice_items text ≡ needed_view self.entry) }
    {
        match self.stem {
            None => Ok(CowSlice::Borrowed(self.name)),
            Some(stem) => stemmed_text(alloc, self.name, stem),
        }
    }

    /// Its number in a table, found without hashing: where the table is that of the book whose rule needs the name, and
    /// no stem is put in. Takes no memory.
    pub fn number_in(self, table: &Names) -> Option<usize>
        ensures quick { IfSome result (λ number. slice_get table.now number ≡ Some (needed_view self.entry)) }
    {
        let number = self.number?;
        let name = self.plain_text()?;
        if table.get(number)? == name {
            Some(number)
        } else {
            None
        }
    }

    // Its bytes, where no stem is put in.
    fn plain_text(self) -> Option<&'a [u8]>
        ensures quick { IfSome result (λ name. name.now ≡ needed_view self.entry) }
    {
        match self.stem {
            None => Some(self.name),
            Some(_) => stemless_text(self.name),
        }
    }
}

// A name without percent sign, into which no stem is put.
#[tactic(auto, using(crate::proofs::lemmas::TargetLemmas::plain_put))]
fn stemless_text(name: &[u8]) -> Option<&[u8]>
    ensures quick { IfSome result (λ text. (stem : Text) → text.now ≡ stemmed_name stem name.now) }
{
    if has_percent(name) {
        None
    } else {
        Some(without_dots(name))
    }
}

// A name with the stem put in. A name without a percent sign is borrowed, without leading `./`.
#[tactic(auto, using(crate::proofs::lemmas::TargetLemmas::plain_put))]
fn stemmed_text<'a>(
    alloc: Global,
    name: &'a [u8],
    stem: &[u8],
) -> Result<CowSlice<'a, u8>, AllocError>
    ensures { IfOk result (λ text. cow_slice_items text ≡ stemmed_name stem.now name.now) }
{
    if has_percent(name) {
        Ok(CowSlice::Owned(stemmed_name(alloc, name, stem)?))
    } else {
        Ok(CowSlice::Borrowed(without_dots(name)))
    }
}
