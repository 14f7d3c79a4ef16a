//! The prerequisites of a pattern rule for a name.
ghost use Rattle.std.specs.Prelude.{◌≡◌, ◌-◌, ◌^◌, ◌++◌, length, min, take, IfOk, nat_le};
ghost use Rattle.std.specs.List.{list_all, slice_range};
ghost use Rattle.kt_text.specs.Functions.{with_stem};
ghost use Rattle.kt_graph.specs.search.Candidates.{are_short, name_limit, needed_name, needed_names, needs_with};
ghost use Rattle.kt_graph.specs.search.Candidates.{spelled_out};
ghost use Rattle.kt_graph.specs.inner.search.Candidates.{IsFitWithin};

use crate::search::candidate::Fit;
use kt_list::Sequence;
use kt_rules::{Name, Needs, dotless};
use kt_text::{has_percent, push_with_stem};
use memchr::memchr;
use std::alloc::{AllocError, Global};

/// The maximum length of a prerequisite, before a leading `./` is removed. It ends a search whose rules make names
/// longer and longer.
const NAME_LIMIT: usize = 4096;

/// The directory and stem that are put into the prerequisites of a pattern rule.
#[derive(Clone, Copy)]
pub(crate) struct Stemming<'n> {
    pub(crate) directory: &'n [u8],
    pub(crate) stem: &'n [u8],
}

impl<'n> Stemming<'n> {
    pub(crate) fn new(fit: &Fit, name: &'n [u8]) -> Stemming<'n>
        requires { IsFitWithin name.now fit.now }
        ensures directory { result.directory.now ≡ take fit.now.directory name.now }
        ensures stem { result.stem.now ≡ slice_range name.now fit.now.start fit.now.end }
    {
        Stemming {
            directory: fit.directory(name),
            stem: fit.stem(name),
        }
    }

    /// Whether no prerequisite gets too long.
    pub(crate) fn keeps_short(self, needs: &Needs) -> bool
        ensures { result ≡ are_short self.entry.directory.now self.entry.stem.now needs.now }
    {
        self.all_short(needs.prerequisites.as_slice())
            && self.all_short(needs.order_only.as_slice())
    }

    fn all_short(self, names: &[Name]) -> bool
        ensures { result ≡ list_all (λ name. nat_le
            (length (spelled_out self.entry.directory.now self.entry.stem.now name)) name_limit) names.now }
    {
        names.iter().all(|name| self.is_short(name.as_slice()))
    }

    fn is_short(self, name: &[u8]) -> bool
        ensures { result ≡ nat_le (length (spelled_out self.entry.directory.now self.entry.stem.now name.now))
            name_limit }
    {
        self.len(name) <= NAME_LIMIT
    }

    // The length of a prerequisite, before a leading `./` is removed, or the greatest number if it overflows.
    #[tactic(auto, using(crate::proofs::lemmas::search::NeedLemmas::cut_length))]
    fn len(self, name: &[u8]) -> usize
        ensures { result ≡ min (length (spelled_out self.entry.directory.now self.entry.stem.now name.now))
            (2 ^ 64 - 1) }
    {
        match memchr(b'%', name) {
            None => name.len(),
            Some(_percent) => (name.len() - 1)
                .saturating_add(self.directory.len())
                .saturating_add(self.stem.len()),
        }
    }

    /// A prerequisite with the stem put in and the directory before it; one without a percent sign is unchanged.
    pub(crate) fn name(self, alloc: Global, name: &[u8]) -> Result<Vec<u8>, AllocError>
        ensures { IfOk result (λ made. made.items ≡ needed_name self.entry.directory.now self.entry.stem.now name.now) }
    {
        if !has_percent(name) {
            return Vec::from_slice(alloc, name);
        }
        dotless(alloc, self.spelled_out(alloc, name)?)
    }

    // A name with the stem put in and the directory before it.
    fn spelled_out(self, alloc: Global, name: &[u8]) -> Result<Vec<u8>, AllocError>
        ensures { IfOk result (λ text. text.items ≡ self.entry.directory.now
            ++ with_stem name.now self.entry.stem.now) }
    {
        let mut text = Vec::with_capacity(alloc, self.len(name))?;
        text.extend_from_slice(self.directory)?;
        push_with_stem(&mut text, name, self.stem)?;
        Ok(text)
    }

    // Prerequisites with the stem put in.
    #[tactic(auto, unfolding(crate::specs::search::Candidates::needed_names))]
    fn names(self, alloc: Global, names: &[Name]) -> Result<Vec<Name>, AllocError>
        ensures { IfOk result (λ made. made.items
            ≡ needed_names self.entry.directory.now self.entry.stem.now names.now) }
    {
        let mut made = Vec::with_capacity(alloc, names.len())?;
        for name in names {
            made.push(Name::from(self.name(alloc, name.as_slice())?))?;
        }
        Ok(made)
    }

    /// All prerequisites, with the stem put in.
    pub(crate) fn needs(self, alloc: Global, needs: &Needs) -> Result<Needs, AllocError>
        ensures { IfOk result (λ made. made ≡ needs_with self.entry.directory.now self.entry.stem.now needs.now) }
    {
        let prerequisites = self.names(alloc, needs.prerequisites.as_slice())?;
        let order_only = self.names(alloc, needs.order_only.as_slice())?;
        Ok(Needs {
            prerequisites: Sequence::from(prerequisites),
            order_only: Sequence::from(order_only),
        })
    }
}
