//! Lists of spots, most of which have one spot.
//! Fast: a single spot lies where a list would. Spares two allocations of a one-line rule.
ghost use Rattle.std.specs.Prelude.{◌≡◌, ◌++◌, ◌∷◌, [], IfOk, OnErr, OnOk};
ghost use Rattle.kt_rules.specs.inner.Slots.{spots_before};
ghost use Rattle.kt_rules.specs.inner.Lists.{few_of};

use super::spot::Spot;
use std::alloc::{AllocError, Global};
use std::boxed::Box;
use std::marker::Model;
use std::slice::from_ref;

/// A list of spots. A single spot takes no memory of its own, and any list two words.
#[derive(Drop)]
pub(crate) struct Few {
    form: SpotStorage,
}

#[derive(Drop)]
enum SpotStorage {
    None,
    One(Spot),
    Several(Box<Vec<Spot>>),
}

impl Model for Few {
    ghost use Rattle.std.specs.Prelude.{List};
    ghost use Rattle.kt_rules.specs.declared.book.spot.Spot.{Spot};

    ghost Value = { List Spot };

    ghost use Rattle.kt_rules.specs.inner.Lists.{few_of};

    ghost view = { λ few. few_of few.form };
}

impl Few {
    /// No spots.
    pub(crate) fn none() -> Few
        ensures { result ≡ [] }
    {
        Few {
            form: SpotStorage::None,
        }
    }

    /// The spots, borrowed.
    pub(crate) fn as_slice(&self) -> &[Spot]
        ensures { result.now ≡ self.now }
    {
        match &self.form {
            SpotStorage::None => &[],
            SpotStorage::One(spot) => from_ref(spot),
            SpotStorage::Several(spots) => spots.as_ref().as_slice(),
        }
    }

    /// Takes the spots away that aren't of the rules before a place. Takes no memory.
    pub(crate) fn forget(&mut self, place: usize)
        ensures { self.new ≡ spots_before place self.old }
    {
        match &mut self.form {
            SpotStorage::None => {}
            SpotStorage::One(spot) => {
                if (spot.entry as usize) >= place {
                    self.form = SpotStorage::None;
                }
            }
            SpotStorage::Several(spots) => keep_before(spots, place),
        }
    }

    /// Adds a spot to the end. An `Err` is out of memory, and leaves the list as it was.
    pub(crate) fn push(&mut self, alloc: Global, spot: Spot) -> Result<(), AllocError>
        ensures pushed { OnOk result (self.new ≡ self.old ++ spot ∷ []) }
        ensures refused { OnErr result (self.new ≡ self.old) }
    {
        match &mut self.form {
            SpotStorage::None => self.form = SpotStorage::One(spot),
            SpotStorage::One(first) => {
                let both = pair(alloc, *first, spot)?;
                hold(&mut self.form, both);
            }
            SpotStorage::Several(spots) => spots.push(spot)?,
        }
        Ok(())
    }
}

// Keeps the spots of the rules before a place.
fn keep_before(spots: &mut Vec<Spot>, place: usize)
    ensures { spots.new.items ≡ spots_before place spots.old.items }
{
    spots.retain(|spot| (spot.entry as usize) < place);
}

fn hold(form: &mut SpotStorage, spots: Box<Vec<Spot>>)
    ensures { few_of form.new ≡ spots.value.items }
{
    *form = SpotStorage::Several(spots);
}

fn pair(alloc: Global, first: Spot, second: Spot) -> Result<Box<Vec<Spot>>, AllocError>
    ensures { IfOk result (λ both. both.value.items ≡ first ∷ second ∷ []) }
{
    let mut both = Vec::with_capacity(alloc, 2)?;
    both.push(first)?;
    both.push(second)?;
    Ok(Box::new(alloc, both)?)
}
