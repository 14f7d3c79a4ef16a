//! Names held either directly or by number.
ghost use Rattle.std.specs.Prelude.{◌≡◌, ◌∷◌, [], MatchOption, length, option_map, slice_get};
ghost use Rattle.kt_rules.specs.Entry.{no_needs};
ghost use Rattle.kt_rules.specs.Suffixes.{has_no_names};
ghost use Rattle.kt_list.specs.views.Names.{names_at};
ghost use Rattle.kt_rules.specs.views.Targets.{listed_needs, listed_view};

use crate::line::entry::{Name, Needs};
use kt_list::Names;

/// A list of names.
#[derive(Clone, Copy)]
pub(crate) enum AnyNames<'a> {
    Own(&'a [Name]),
    ByNumber(NumberedNames<'a>),
}

/// A list of names, held by number.
#[derive(Clone, Copy)]
pub(crate) struct NumberedNames<'a> {
    pub(crate) names: &'a Names,
    pub(crate) numbers: &'a [u32],
}

/// A name of a list.
#[derive(Clone, Copy)]
pub(crate) struct ListedName<'a> {
    pub(crate) name: &'a [u8],
    /// Its number, if the list has one: nothing is promised of it, so who uses it looks.
    pub(crate) number: Option<usize>,
}

/// The prerequisites, without a stem.
#[derive(Clone, Copy)]
pub(crate) struct ListedNeeds<'a> {
    pub(crate) prerequisites: AnyNames<'a>,
    pub(crate) order_only: AnyNames<'a>,
}

impl<'a> AnyNames<'a> {
    pub(crate) fn len(self) -> usize
        ensures { result ≡ length (listed_view self.entry) }
    {
        match self {
            AnyNames::Own(names) => names.len(),
            AnyNames::ByNumber(list) => list.numbers.len(),
        }
    }

    pub(crate) fn is_empty(self) -> bool
        ensures { result ≡ has_no_names (listed_view self.entry) }
    {
        match self {
            AnyNames::Own(names) => matches!(names, []),
            AnyNames::ByNumber(list) => matches!(list.numbers, []),
        }
    }

    /// The name at a place.
    pub(crate) fn get(self, place: usize) -> Option<&'a [u8]>
        ensures { option_map (λ name. name.now) result ≡ slice_get (listed_view self.entry) place }
    {
        match self {
            AnyNames::Own(names) => own_at(names, place),
            AnyNames::ByNumber(list) => list.at(place),
        }
    }

    /// The first name, and the others.
    pub(crate) fn split_first(self) -> Option<(ListedName<'a>, AnyNames<'a>)>
        ensures { MatchOption result (listed_view self.entry ≡ [])
            (λ cut. listed_view self.entry ≡ cut.0.name.now ∷ listed_view cut.1) }
    {
        match self {
            AnyNames::Own(names) => first_own(names),
            AnyNames::ByNumber(list) => first_numbered(list),
        }
    }
}

fn own_at(names: &[Name], place: usize) -> Option<&[u8]>
    ensures { option_map (λ name. name.now) result ≡ slice_get names.now place }
{
    Some(names.get(place)?.as_slice())
}

fn first_own(names: &[Name]) -> Option<(ListedName<'_>, AnyNames<'_>)>
    ensures { MatchOption result (names.now ≡ []) (λ cut. names.now ≡ cut.0.name.now ∷ listed_view cut.1) }
{
    let (name, after) = names.split_first()?;
    let name = name.as_slice();
    Some((ListedName { name, number: None }, AnyNames::Own(after)))
}

fn first_numbered<'a>(list: NumberedNames<'a>) -> Option<(ListedName<'a>, AnyNames<'a>)>
    ensures { MatchOption result (names_at list.entry.names.now list.entry.numbers.now ≡ [])
        (λ cut. names_at list.entry.names.now list.entry.numbers.now ≡ cut.0.name.now ∷ listed_view cut.1) }
{
    let (number, numbers) = list.numbers.split_first()?;
    let name = list.names.name_at(*number as usize);
    let number = Some(*number as usize);
    let names = list.names;
    Some((
        ListedName { name, number },
        AnyNames::ByNumber(NumberedNames { names, numbers }),
    ))
}

impl<'a> NumberedNames<'a> {
    fn at(self, place: usize) -> Option<&'a [u8]>
        ensures { option_map (λ name. name.now) result
            ≡ slice_get (names_at self.entry.names.now self.entry.numbers.now) place }
    {
        let number = self.numbers.get(place)?;
        Some(self.names.name_at(*number as usize))
    }
}

impl<'a> ListedNeeds<'a> {
    pub(crate) fn of(needs: &'a Needs) -> ListedNeeds<'a>
        ensures { listed_needs result ≡ needs.now }
    {
        ListedNeeds {
            prerequisites: AnyNames::Own(needs.prerequisites.as_slice()),
            order_only: AnyNames::Own(needs.order_only.as_slice()),
        }
    }

    pub(crate) fn none() -> ListedNeeds<'a>
        ensures { listed_needs result ≡ no_needs }
    {
        ListedNeeds {
            prerequisites: AnyNames::Own(&[]),
            order_only: AnyNames::Own(&[]),
        }
    }
}
