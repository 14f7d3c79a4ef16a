//! The entries of a book, one after another.
ghost use Rattle.std.specs.Prelude.{◌≡◌, ◌∷◌, [], MatchOption, drop};
ghost use Rattle.std.specs.Iterator.{YieldsFirstBy, item_count};
ghost use Rattle.kt_rules.specs.views.Targets.{entry_view};

use super::book_rule::BookRule;
use super::rules::Rules;
use std::marker::Model;

/// The entries of a book, in the order in which they were added.
#[derive(Drop)]
pub struct Entries<'a> {
    rules: &'a Rules,
    // The place of the next rule.
    place: usize,
}

impl<'a> Model for Entries<'a> {
    ghost use Rattle.std.specs.Prelude.{List, drop};
    ghost use Rattle.kt_rules.specs.Entry.{Entry};

    ghost Value = { List Entry };

    ghost view = { λ entries. drop entries.place entries.rules.now.1 };
}

impl<'a> Entries<'a> {
    pub(crate) fn new(rules: &'a Rules) -> Entries<'a>
        ensures { result ≡ rules.now.1 }
    {
        Entries { rules, place: 0 }
    }
}

impl<'a> Iterator for Entries<'a> {
    type Item = BookRule<'a>;

    ghost next_gives = { YieldsFirstBy entry_view (λ entries. entries) };

    ghost remaining = { item_count (λ entries. entries) };

    fn next(&mut self) -> Option<BookRule<'a>> {
        let (entry, place) = first_entry(self.rules, self.place)?;
        self.place = place;
        Some(entry)
    }
}

// The entry at a place, and the place after it.
fn first_entry(rules: &Rules, from: usize) -> Option<(BookRule<'_>, usize)>
    ensures { MatchOption result (drop from rules.now.1 ≡ [])
        (λ cut. drop from rules.now.1 ≡ entry_view cut.0 ∷ drop cut.1 rules.now.1) }
{
    if from < rules.len() {
        let rule = rules.get(from)?;
        return Some((rule, from + 1));
    }
    None
}
