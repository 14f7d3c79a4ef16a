//! Whether the prerequisites of a pattern rule for a name are known.
ghost use Rattle.std.specs.Prelude.{◌≡◌, false, IfOk, IfSome};
ghost use Rattle.std.specs.List.{list_all};
ghost use Rattle.kt_text.specs.Words.{Text};
ghost use Rattle.kt_rules.specs.Names.{is_among};
ghost use Rattle.kt_rules.specs.Suffixes.{all_needs};
ghost use Rattle.kt_graph.specs.search.Candidates.{needed_name, needed_names, needs_with};
ghost use Rattle.kt_graph.specs.inner.search.Ends.{IsFixedEnd};

use crate::known::Known;
use crate::search::candidate::has_slash;
use crate::search::ends::end_of;
use crate::search::stemming::Stemming;
use kt_rules::{Name, Needs};
use kt_text::has_percent;
use std::alloc::{AllocError, Global};

/// Whether all of them are known. Stops at the first that isn't.
#[tactic(auto, using(crate::proofs::lemmas::search::UnknownLemmas::known_first))]
pub(crate) fn knows_all(
    alloc: Global,
    known: &Known<'_>,
    stemming: Stemming,
    needs: &Needs,
) -> Result<bool, AllocError>
    ensures { IfOk result (λ all. all ≡ list_all (is_among known.now)
        (all_needs (needs_with stemming.entry.directory.now stemming.entry.stem.now needs.now))) }
{
    if knows_each(alloc, known, stemming, needs.prerequisites.as_slice())? {
        knows_each(alloc, known, stemming, needs.order_only.as_slice())
    } else {
        Ok(false)
    }
}

#[tactic(auto, unfolding(crate::specs::search::Candidates::needed_names))]
fn knows_each(
    alloc: Global,
    known: &Known<'_>,
    stemming: Stemming,
    names: &[Name],
) -> Result<bool, AllocError>
    ensures { IfOk result (λ all. all ≡ list_all (is_among known.now)
        (needed_names stemming.entry.directory.now stemming.entry.stem.now names.now)) }
{
    for name in names {
        if !knows(alloc, known, stemming, name.as_slice())? {
            return Ok(false);
        }
    }
    Ok(true)
}

// Whether a prerequisite is known. Without a percent sign, or where no known name ends as it does, it takes no memory.
fn knows(
    alloc: Global,
    known: &Known<'_>,
    stemming: Stemming,
    name: &[u8],
) -> Result<bool, AllocError>
    ensures { IfOk result (λ yes. yes
        ≡ is_among known.now (needed_name stemming.entry.directory.now stemming.entry.stem.now name.now)) }
{
    if !may_be_known(known, name) {
        return Ok(false);
    }
    if !has_percent(name) {
        return Ok(known.contains(name));
    }
    let needed = stemming.name(alloc, name)?;
    Ok(known.contains(needed.as_slice()))
}

// Whether a prerequisite may be known, told by what stands after its percent sign.
#[tactic(auto, using(crate::proofs::lemmas::EndMarkLemmas::unknown_need))]
fn may_be_known(known: &Known<'_>, name: &[u8]) -> bool
    ensures quick { result ≡ false
        → (directory stem : Text) → is_among known.now (needed_name directory stem name.now) ≡ false }
{
    match fixed_end(end_of(name)) {
        Some(end) => known.may_end(end),
        None => true,
    }
}

// The last two bytes of a text, unless a slash is among them. They stay when a leading `./` is removed.
fn fixed_end(text: &[u8]) -> Option<&[u8]>
    ensures quick { IfSome result (λ end. IsFixedEnd text.now end.now) }
{
    if text.len() < 2 {
        return None;
    }
    let end = &text[text.len() - 2..];
    if has_slash(end) {
        return None;
    }
    Some(end)
}
