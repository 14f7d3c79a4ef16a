//! Owned copies of targets and their prerequisites.
ghost use Rattle.std.specs.Prelude.{◌≡◌, IfOk};
ghost use Rattle.kt_rules.specs.Entry.{stemmed};
ghost use Rattle.kt_rules.specs.views.Targets.{listed_needs, names_view, needs_view, target_view, targets_view};

use crate::line::entry::{Name, Needs, StemmedNeeds, Target};
use crate::listed::ListedNeeds;
use crate::needs::{NeededNames, NeedsView};
use crate::target::{TargetView, Targets};
use kt_list::Sequence;
use std::alloc::{AllocError, Global};

/// Copies of targets.
pub(crate) fn copied_targets(alloc: Global, targets: Targets<'_>) -> Result<Vec<Target>, AllocError>
    ensures { IfOk result (λ copies. copies.items ≡ targets_view targets.entry) }
{
    let mut copies = Vec::with_capacity(alloc, targets.len())?;
    for target in targets {
        copies.push(copied_target(alloc, target)?)?;
    }
    Ok(copies)
}

fn copied_target(alloc: Global, target: TargetView<'_>) -> Result<Target, AllocError>
    ensures { IfOk result (λ copy. copy ≡ target_view target.entry) }
{
    Ok(Target {
        name: Name::copied(alloc, target.name)?,
        stemmed: given(alloc, target)?,
    })
}

// The stem of a target in a static pattern rule, and its prerequisites.
fn given(alloc: Global, target: TargetView<'_>) -> Result<Option<StemmedNeeds>, AllocError>
    ensures { IfOk result (λ given. given ≡ (target_view target.entry).stemmed) }
{
    match target.stem() {
        None => Ok(None),
        Some(stem) => Ok(Some(stemmed(alloc, target.needs, stem)?)),
    }
}

// A stem with the prerequisites that it gives in a static pattern rule.
fn stemmed<'a>(
    alloc: Global,
    needs: ListedNeeds<'a>,
    stem: &'a [u8],
) -> Result<StemmedNeeds, AllocError>
    ensures { IfOk result (λ given. given ≡ stemmed (listed_needs needs.entry) stem.now) }
{
    Ok(StemmedNeeds {
        stem: Name::copied(alloc, stem)?,
        needs: copied_needs(alloc, NeedsView::stemmed(needs, stem))?,
    })
}

/// A copy of the prerequisites.
pub(crate) fn copied_needs(alloc: Global, needs: NeedsView<'_>) -> Result<Needs, AllocError>
    ensures { IfOk result (λ copy. copy ≡ needs_view needs.entry) }
{
    Ok(Needs {
        prerequisites: copies(alloc, needs.prerequisites())?,
        order_only: copies(alloc, needs.order_only())?,
    })
}

fn copies(alloc: Global, names: NeededNames<'_>) -> Result<Sequence<Name>, AllocError>
    ensures { IfOk result (λ list. list ≡ names_view names.entry) }
{
    let mut list = Vec::with_capacity(alloc, names.len())?;
    for name in names {
        let text = name.text(alloc)?;
        list.push(Name::copied(alloc, text.as_slice())?)?;
    }
    Ok(Sequence::from(list))
}
