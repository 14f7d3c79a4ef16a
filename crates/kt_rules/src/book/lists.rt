//! Lists of spots by number.
ghost use Rattle.std.specs.Prelude.{◌≡◌, ◌++◌, ◌∷◌, [], ℕ, ◌<◌, ◌≤◌, OnErr, OnOk, length, nat_eq, if◌then◌else◌};
ghost use Rattle.kt_rules.specs.inner.Slots.{ForgotFrom};
ghost use Rattle.kt_rules.specs.inner.Lists.{SameAt, list_at};

use super::few::Few;
use super::spot::Spot;
use std::alloc::{AllocError, Global};
use std::marker::Model;

/// A list of spots at each number, in the order in which they were noted.
#[derive(Drop)]
pub(crate) struct SpotLists {
    alloc: Global,
    lists: Vec<Few>,
}

impl Model for SpotLists {
    ghost use Rattle.std.specs.Prelude.{List};
    ghost use Rattle.kt_rules.specs.declared.book.spot.Spot.{Spot};

    ghost Value = { List (List Spot) };

    ghost view = { λ lists. lists.lists.items };
}

impl SpotLists {
    /// No spots.
    pub(crate) fn new(alloc: Global) -> SpotLists
        ensures { result ≡ [] }
    {
        SpotLists {
            alloc,
            lists: Vec::new(alloc),
        }
    }

    /// The spots at a number.
    pub(crate) fn noted(&self, number: usize) -> &[Spot]
        ensures { result.now ≡ list_at self.now number }
    {
        match self.lists.get(number) {
            Some(noted) => noted.as_slice(),
            None => &[],
        }
    }

    /// Adds a spot at a number. An `Err` is out of memory, and leaves all spots as they were.
    pub(crate) fn note(&mut self, number: usize, spot: Spot) -> Result<(), AllocError>
        ensures noted { OnOk result ((other : ℕ) → list_at self.new other
            ≡ list_at self.old other ++ (if nat_eq other number then spot ∷ [] else [])) }
        ensures refused { OnErr result (SameAt self.old self.new) }
        ensures within { (count : ℕ) → length self.old ≤ count → number < count → length self.new ≤ count }
    {
        reach(&mut self.lists, number)?;
        note_at(self.alloc, &mut self.lists, number, spot)
    }

    /// Takes the spots away that aren't of the rules before a place. Takes no memory.
    pub(crate) fn forget(&mut self, place: usize)
        ensures forgotten { ForgotFrom place self.old self.new }
        ensures many { length self.new ≡ length self.old }
    {
        forget_all(&mut self.lists, place);
    }
}

// As `forget`, at each number.
fn forget_all(lists: &mut Vec<Few>, place: usize)
    ensures forgotten { ForgotFrom place lists.old.items lists.new.items }
    ensures many { length lists.new.items ≡ length lists.old.items }
{
    for number in 0..lists.len() {
        lists[number].forget(place);
    }
}

// Adds empty lists until there is one at the number.
fn reach(lists: &mut Vec<Few>, number: usize) -> Result<(), AllocError>
    ensures same { SameAt lists.old.items lists.new.items }
    ensures reached { OnOk result (number < length lists.new.items) }
    ensures within { (count : ℕ) → length lists.old.items ≤ count → number < count → length lists.new.items ≤ count }
{
    while lists.len() <= number {
        lists.push(Few::none())?;
    }
    Ok(())
}

// Adds a spot at a number that has a list.
fn note_at(alloc: Global, lists: &mut Vec<Few>, number: usize, spot: Spot) -> Result<(), AllocError>
    requires { number < length lists.old.items }
    ensures noted { OnOk result ((other : ℕ) → list_at lists.new.items other
        ≡ list_at lists.old.items other ++ (if nat_eq other number then spot ∷ [] else [])) }
    ensures refused { OnErr result (SameAt lists.old.items lists.new.items) }
    ensures many { length lists.new.items ≡ length lists.old.items }
{
    let list = &mut lists[number];
    list.push(alloc, spot)
}
