//! The names that the search takes to exist.
ghost use Rattle.std.specs.Prelude.{◌≡◌, ◌≤◌, ◌++◌, false, fold, length, IfOk, OnOk};
ghost use Rattle.kt_rules.specs.Names.{is_among, with_name};
ghost use Rattle.kt_text.specs.Words.{Text};
ghost use Rattle.kt_graph.specs.Known.{known_names, listed_names};
ghost use Rattle.kt_graph.specs.inner.EndMarks.{AreMarked, KeepsEnds, with_end};

mod end_marks;

use crate::nodes::numbering::NameNumbers;
use crate::nodes::tables::Tables;
use bstr::ByteSlice;
use end_marks::EndMarks;
use kt_list::Names;
use kt_rules::{Book, BookNames, without_dots};
use std::alloc::{AllocError, Global};
use std::marker::Model;

/// The known names: those of a list of files, those of explicit rules, and the phony ones.
///
/// A pattern rule may have a known name as a prerequisite without a rule that makes it.
#[derive(Drop)]
pub struct Known<'a> {
    book: BookNames<'a>,
    // The names of the list of files.
    list: NameNumbers<'a>,
    // Marks for the ends of both.
    ends: EndMarks,
}

impl<'a> Model for Known<'a> {
    ghost use Rattle.std.specs.Prelude.{ℕ, List, fold};

    ghost Value = { List (List ℕ) };

    ghost use Rattle.kt_rules.specs.Names.{with_name};
    ghost use Rattle.kt_graph.specs.inner.EndMarks.{AreMarked};

    ghost view = { λ known. fold with_name known.list known.book };

    ghost invariant = { λ known. AreMarked known.ends.marks.items (fold with_name known.list known.book) };
}

impl<'a> Known<'a> {
    /// The known names of a book and a list of files. The list has one name per line; empty lines are ignored.
    pub fn of(alloc: Global, book: &'a Book, files: &[u8]) -> Result<Known<'a>, AllocError>
        ensures { IfOk result (λ known. known ≡ known_names book.now files.now) }
    {
        let table = book.name_table();
        // Without a list, no name of the book is one of its names.
        let room = if files.is_empty() { 0 } else { table.len() };
        let mut list = NameNumbers::with_room(alloc, Tables::of_book(table), room)?;
        let mut ends = EndMarks::none(alloc)?;
        add_listed(&mut list, &mut ends, files)?;
        let book = book.names()?;
        mark_named(&mut ends, &book);
        Ok(Known { book, list, ends })
    }

    /// Whether a name is known. Takes no memory.
    pub fn contains(&self, name: &[u8]) -> bool
        ensures { result ≡ is_among self.now name.now }
    {
        self.ends.is_marked(name) && self.has(name)
    }

    // As `contains`, by looking the name up.
    #[tactic(auto, using(kt_rules::proofs::lemmas::book::BookLemmas::among_fold))]
    fn has(&self, name: &[u8]) -> bool
        ensures { result ≡ is_among self.now name.now }
    {
        self.list.contains(name) || self.book.contains(name)
    }

    /// The names of the list that don't stand in the book. Nothing is promised of them.
    pub(crate) fn listed(&self) -> &Names {
        self.list.others()
    }

    /// Whether a known name may end with a text of at least two bytes. Takes no memory.
    pub(crate) fn may_end(&self, end: &[u8]) -> bool
        ensures quick { result ≡ false → 2 ≤ length end.now → (front : Text) → is_among self.now (front ++ end.now) ≡ false }
    {
        self.ends.is_marked(end)
    }
}

// Marks the ends of a book's names.
#[tactic(auto, using(crate::proofs::lemmas::EndMarkLemmas::ends_kept))]
fn mark_named(ends: &mut EndMarks, book: &BookNames<'_>)
    ensures kept { KeepsEnds ends.old.marks.items ends.new.marks.items }
    ensures marked { AreMarked ends.new.marks.items book.now }
{
    let (names, chosen, others) = book.marked();
    ends.mark_chosen(names, chosen);
    ends.mark_all(others);
}

// Adds the names of a list, one per line, and marks their ends.
#[tactic(auto, unfolding(crate::specs::Known::listed_names))]
fn add_listed(
    names: &mut NameNumbers<'_>,
    ends: &mut EndMarks,
    files: &[u8],
) -> Result<(), AllocError>
    ensures added { OnOk result (names.new ≡ fold with_name names.old (listed_names files.now)) }
    ensures marked { OnOk result (ends.new.marks.items ≡ fold with_end ends.old.marks.items (listed_names files.now)) }
{
    for name in files.lines() {
        if !name.is_empty() {
            let name = without_dots(name);
            names.add(name)?;
            ends.mark(name);
        }
    }
    Ok(())
}
