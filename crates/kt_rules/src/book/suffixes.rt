//! The suffixes of a book.
//! Fast: the suffix of a name is looked up by its length where there are more than 20, and fewer are compared. Spares
//! a comparison with each of many, and the hashes where they are few.
ghost use Rattle.std.specs.Prelude.{◌≡◌, ◌≤◌, [], find, fold, length, nat_eq, option_map, IfOk, IfSome, OnErr, OnOk};
ghost use Rattle.std.specs.List.{ends_with};
ghost use Rattle.kt_rules.specs.Names.{is_among, with_name};
ghost use Rattle.kt_rules.specs.inner.SuffixCuts.{KeepLengths, lengths_with};
ghost use Rattle.kt_rules.specs.Suffixes.{all_needs, start_suffixes, suffix_cut};
ghost use Rattle.kt_rules.specs.views.Targets.{names_view, needs_view};

use super::special::{add_needs, start_names};
use super::suffix::{first_cut, first_end};
use crate::needs::{NeededNames, NeedsView};
use indexmap::IndexSet;
use kt_list::Names;
use std::alloc::{AllocError, Global};
use std::marker::Model;

// Up to this many suffixes are compared with the end of a name one by one, which is faster than by length.
const FEW: usize = 20;

/// Suffixes without repeats, in the order in which they were added.
///
/// A few are compared with the end of a name one by one. More are looked up by their lengths, so that the time doesn't
/// depend on how many have the same length.
#[derive(Drop)]
pub(crate) struct Suffixes {
    names: Names,
    // The length of each suffix, and maybe other lengths.
    lengths: IndexSet<usize>,
}

impl Model for Suffixes {
    ghost use Rattle.std.specs.Prelude.{List};
    ghost use Rattle.kt_text.specs.Words.{Text};

    ghost Value = { List Text };

    ghost view = { λ suffixes. suffixes.names };

    ghost use Rattle.kt_rules.specs.inner.SuffixCuts.{HaveLengths};

    ghost invariant = { λ suffixes. HaveLengths suffixes.names suffixes.lengths.keys };
}

impl Suffixes {
    /// The suffixes before any rule is read.
    #[tactic(auto, using(crate::proofs::lemmas::book::SuffixLemmas::own_lengths))]
    pub(crate) fn start(alloc: Global) -> Result<Suffixes, AllocError>
        ensures { IfOk result (λ suffixes. suffixes ≡ start_suffixes) }
    {
        let names = start_names(alloc)?;
        let mut lengths = IndexSet::new(alloc);
        note_lengths(&mut lengths, &names)?;
        Ok(Suffixes { names, lengths })
    }

    /// The suffixes, in order.
    pub(crate) fn names(&self) -> &Names
        ensures { result.now ≡ self.now }
    {
        &self.names
    }

    /// Whether a name is a suffix.
    pub(crate) fn contains(&self, name: &[u8]) -> bool
        ensures { result ≡ is_among self.now name.now }
    {
        self.names.contains(name)
    }

    /// The first place at which the name is cut into two suffixes.
    #[tactic(auto, using(crate::proofs::lemmas::book::SuffixLemmas::all_cuts))]
    pub(crate) fn cut(&self, name: &[u8]) -> Option<usize>
        ensures cut { result ≡ suffix_cut self.now name.now }
        ensures within { IfSome result (λ place. place ≤ length name.now) }
    {
        first_cut(&self.names, self.lengths.as_slice(), name)
    }

    /// The first suffix that the name ends with.
    #[tactic(auto, using(crate::proofs::lemmas::book::SuffixLemmas::all_ends))]
    pub(crate) fn end_of(&self, name: &[u8]) -> Option<&[u8]>
        ensures { option_map (λ suffix. suffix.now) result ≡ find
            (λ suffix. ends_with nat_eq name.now suffix) self.now }
    {
        if self.names.len() <= FEW {
            return first_of(&self.names, name);
        }
        let number = first_end(&self.names, self.lengths.as_slice(), name)?;
        self.names.get(number)
    }

    /// Adds all names of the prerequisites. If memory runs out, none is added.
    pub(crate) fn add_needs(
        &mut self,
        alloc: Global,
        needs: NeedsView<'_>,
    ) -> Result<(), AllocError>
        ensures added { OnOk result (self.new ≡ fold with_name self.old (all_needs (needs_view needs.entry))) }
        ensures refused { OnErr result (self.new ≡ self.old) }
    {
        note_needed(alloc, &mut self.lengths, needs.prerequisites())?;
        note_needed(alloc, &mut self.lengths, needs.order_only())?;
        add_needs(alloc, &mut self.names, needs)
    }

    /// Removes all suffixes.
    pub(crate) fn clear(&mut self)
        ensures { self.new ≡ [] }
    {
        self.names.clear();
        self.lengths.clear();
    }
}

// The first of the names that the name ends with.
#[tactic(auto, using(kt_list::proofs::NameLemmas::drop_named))]
fn first_of<'s>(suffixes: &'s Names, name: &[u8]) -> Option<&'s [u8]>
    ensures { option_map (λ suffix. suffix.now) result ≡ find
        (λ suffix. ends_with nat_eq name.now suffix) suffixes.now }
{
    for number in 0..suffixes.len() {
        let suffix = suffixes.name_at(number);
        if name.ends_with(suffix) {
            return Some(suffix);
        }
    }
    None
}

// Adds the length of each name. If memory runs out, some may be added.
#[tactic(auto, using(crate::proofs::lemmas::book::SuffixLemmas::lengths_end))]
fn note_lengths(lengths: &mut IndexSet<usize>, names: &Names) -> Result<(), AllocError>
    ensures noted { OnOk result (lengths.new.keys ≡ lengths_with lengths.old.keys names.now) }
    ensures kept { KeepLengths lengths.old.keys lengths.new.keys }
{
    for number in 0..names.len() {
        lengths.insert(names.name_at(number).len())?;
    }
    Ok(())
}

// As `note_lengths`, for prerequisites.
#[tactic(auto, using(crate::proofs::lemmas::book::SuffixLemmas::lengths_none))]
fn note_needed(
    alloc: Global,
    lengths: &mut IndexSet<usize>,
    names: NeededNames<'_>,
) -> Result<(), AllocError>
    ensures noted { OnOk result (lengths.new.keys ≡ lengths_with lengths.old.keys (names_view names.entry)) }
    ensures kept { KeepLengths lengths.old.keys lengths.new.keys }
{
    for name in names {
        let text = name.text(alloc)?;
        lengths.insert(text.as_slice().len())?;
    }
    Ok(())
}
