//! Where a target is in a book.
ghost use Rattle.std.specs.Prelude.{◌≡◌, ◌<◌, ◌⊎◌, IfOk, OnErr};
ghost use Rattle.kt_rules.specs.inner.Slots.{spot_at};

use kt_list::narrow;
use std::alloc::AllocError;

/// A target of an entry: the entry's place and the target's place in it.
#[derive(Clone, Copy)]
pub(crate) struct Spot {
    pub(crate) entry: u32,
    pub(crate) target: u32,
}

impl Spot {
    /// The spot of two places. One beyond 4,294,967,295 is refused as if memory were.
    pub(crate) fn at(entry: usize, target: usize) -> Result<Spot, AllocError>
        ensures same { IfOk result (λ spot. spot ≡ spot_at entry target) }
        ensures large { OnErr result ((4294967295 < entry) ⊎ (4294967295 < target)) }
    {
        Ok(Spot {
            entry: narrow(entry)?,
            target: narrow(target)?,
        })
    }
}
