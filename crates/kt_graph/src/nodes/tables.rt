//! Names that are held as long as a book.
//! Fast: names of the book and of the list of files are read where they are held. Spares a copy of each, and a place
//! in a second table.
ghost use Rattle.std.specs.Prelude.{◌≡◌, ◌^◌, ◌+◌, ◌<◌, ◌++◌, Some, length, option_map, IfOk, IfSome, OnErr};
ghost use Rattle.kt_list.specs.views.Names.{name_at, place_of};
ghost use Rattle.kt_rules.specs.views.Targets.{needed_view};
ghost use Rattle.kt_graph.specs.inner.nodes.Reached.{listed_in};

use kt_list::{Names, narrow};
use kt_rules::NeededName;
use std::alloc::AllocError;
use std::marker::Model;

/// The names of a book, and after them those of a list of files, by numbers. A graph copies none of them.
///
/// A contract sees them as one list.
#[derive(Drop)]
pub(crate) struct Tables<'a> {
    book: &'a Names,
    list: Option<&'a Names>,
}

impl<'a> Model for Tables<'a> {
    ghost use Rattle.std.specs.Prelude.{ℕ, List, ◌++◌, ◌^◌, ◌<◌, length};
    ghost use Rattle.kt_graph.specs.inner.nodes.Reached.{listed_in};

    ghost Value = { List (List ℕ) };

    ghost view = { λ tables. tables.book.now ++ listed_in tables.list };

    ghost invariant = { λ tables. length (tables.book.now ++ listed_in tables.list) < 2 ^ 63 };
}

impl<'a> Tables<'a> {
    /// The names of a book alone.
    pub(crate) fn of_book(book: &'a Names) -> Tables<'a> {
        let _count = book.len();
        let list: Option<&'a Names> = None;
        Tables { book, list }
    }

    /// The names of a book and of a list. More than 4,294,967,295 are refused as if memory were.
    pub(crate) fn of_both(book: &'a Names, list: &'a Names) -> Result<Tables<'a>, AllocError>
        ensures both { IfOk result (λ tables. tables ≡ book.now ++ list.now) }
        ensures large { OnErr result (4294967295 < length book.now + length list.now) }
    {
        let _count = narrow(book.len() + list.len())?;
        let list = Some(list);
        Ok(Tables { book, list })
    }

    /// How many there are.
    #[inline(always)]
    pub(crate) fn len(&self) -> usize
        ensures len { result ≡ length self.now }
        ensures small { result < 2 ^ 63 }
    {
        match self.list {
            None => self.book.len(),
            Some(list) => self.book.len() + list.len(),
        }
    }

    /// The name with a number, or nothing.
    #[inline(always)]
    pub(crate) fn name(&self, number: usize) -> &'a [u8]
        ensures { result.now ≡ name_at self.now number }
    {
        if number < self.book.len() {
            self.book.name_at(number)
        } else {
            name_listed(self.list, number - self.book.len())
        }
    }

    /// The number of a name, if it has one. Takes no memory.
    #[tactic(auto, using(crate::proofs::lemmas::nodes::ReachedNames::place_first))]
    pub(crate) fn number_of(&self, name: &[u8]) -> Option<usize>
        ensures { result ≡ place_of self.now name.now }
    {
        match self.book.number_of(name) {
            Some(number) => Some(number),
            None => number_listed(self.book, self.list, name),
        }
    }

    /// The number of a name that a rule of the book needs, found without hashing.
    pub(crate) fn needed(&self, name: NeededName<'_>) -> Option<usize>
        ensures quick { IfSome result (λ number. place_of self.now (needed_view name.entry) ≡ Some number) }
    {
        let number = name.number_in(self.book)?;
        // The contract of `len` makes known that the names differ.
        let _count = self.book.len();
        Some(number)
    }
}

// The number of a name among a list's, which come after a book's.
fn number_listed(book: &Names, list: Option<&Names>, name: &[u8]) -> Option<usize>
    ensures { result ≡ option_map (λ number. length book.now + number) (place_of (listed_in list.entry) name.now) }
{
    match list {
        None => None,
        Some(list) => number_after(book, list, name),
    }
}

fn number_after(book: &Names, list: &Names, name: &[u8]) -> Option<usize>
    ensures { result ≡ option_map (λ number. length book.now + number) (place_of list.now name.now) }
{
    let number = list.number_of(name)?;
    let _count = list.len();
    let _before = book.len();
    Some(book.len() + number)
}

fn name_listed<'a>(list: Option<&'a Names>, place: usize) -> &'a [u8]
    ensures { result.now ≡ name_at (listed_in list.entry) place }
{
    match list {
        None => b"",
        Some(list) => list.name_at(place),
    }
}
