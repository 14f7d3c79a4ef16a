//! What the special targets of an entry change.
//! Fast: up to 8 phony names are compared one by one. Spares a hash a name.
//! Fast: special targets are looked for among names alone. Spares a view of each target, three times a rule.
ghost use Rattle.std.specs.Prelude.{◌≡◌, ◌++◌, ◌∷◌, [], List, IfOk, OnErr, OnOk, bytes_eq, find, fold, option_map};
ghost use Rattle.kt_text.specs.Words.{Text};
ghost use Rattle.kt_rules.specs.Book.{phony_of};
ghost use Rattle.kt_rules.specs.Names.{is_among, with_name};
ghost use Rattle.kt_rules.specs.Suffixes.{all_needs, special_needs, start_suffixes, suffixes_after};
ghost use Rattle.kt_rules.specs.views.Targets.{entry_view, names_view, needs_view, target_view};

use super::book_rule::BookRule;
use super::suffixes::Suffixes;
use crate::needs::{NeededNames, NeedsView};
use crate::target::TargetView;
use kt_list::Names;
use kt_text::words;
use std::alloc::{AllocError, Global};

// Up to this many names are compared one by one, which is faster than to hash.
const FEW: usize = 8;

/// The suffixes before any rule is read.
#[tactic(auto, unfolding(crate::specs::Suffixes::start_suffixes))]
pub(crate) fn start_names(alloc: Global) -> Result<Names, AllocError>
    ensures { IfOk result (λ names. names ≡ start_suffixes) }
{
    let mut names = Names::new(alloc);
    for suffix in words(b".o .c .cc .cpp .s .S .y .l .h .sh .a .f") {
        names.add(suffix)?;
    }
    Ok(names)
}

/// Whether a name is among names, of which there are mostly few.
pub(crate) fn is_among(names: &Names, name: &[u8]) -> bool
    ensures { result ≡ is_among names.now name.now }
{
    if names.len() > FEW {
        return names.contains(name);
    }
    is_one_of(names, name)
}

// As `is_among`, by comparing, the lengths first.
#[tactic(auto, using(kt_list::proofs::NameLemmas::drop_named))]
fn is_one_of(names: &Names, name: &[u8]) -> bool
    ensures { result ≡ is_among names.now name.now }
{
    for number in 0..names.len() {
        if name == names.name_at(number) {
            return true;
        }
    }
    false
}

/// Makes the prerequisites of the entry's `.PHONY` phony.
pub(crate) fn learn_phony(
    alloc: Global,
    phony: &mut Names,
    entry: BookRule<'_>,
) -> Result<(), AllocError>
    ensures learned { OnOk result (phony.new ≡ fold with_name phony.old (phony_of (entry_view entry.entry))) }
    ensures refused { OnErr result (phony.new ≡ phony.old) }
{
    match special_needs(entry, b".PHONY") {
        Some(needs) => add_needs(alloc, phony, needs),
        None => Ok(()),
    }
}

/// Changes the suffixes by the entry's `.SUFFIXES`.
pub(crate) fn learn_suffixes(
    alloc: Global,
    suffixes: &mut Suffixes,
    entry: BookRule<'_>,
) -> Result<(), AllocError>
    ensures learned { OnOk result (suffixes.new ≡ suffixes_after suffixes.old (entry_view entry.entry)) }
    ensures refused { OnErr result (suffixes.new ≡ suffixes.old) }
{
    let Some(needs) = special_needs(entry, b".SUFFIXES") else {
        return Ok(());
    };
    if needs.is_empty() {
        suffixes.clear();
        return Ok(());
    }
    suffixes.add_needs(alloc, needs)
}

// The prerequisites of the entry's special target with this name.
fn special_needs<'a>(entry: BookRule<'a>, special: &[u8]) -> Option<NeedsView<'a>>
    ensures { option_map (λ needs. all_needs (needs_view needs)) result
        ≡ special_needs special.now (entry_view entry.entry) }
{
    let target = named_target(entry, special)?;
    Some(entry.needs(target))
}

// The target with this name. It alone is made a view: the others are told by their names.
pub(crate) fn named_target<'a>(rule: BookRule<'a>, name: &[u8]) -> Option<TargetView<'a>>
    ensures { option_map target_view result
        ≡ find (λ target. bytes_eq target.name name.now) (entry_view rule.entry).targets }
{
    for number in rule.targets {
        let number = *number as usize;
        if rule.names.name_at(number) == name {
            return Some(rule.target(number));
        }
    }
    None
}

/// Adds all names of the prerequisites. If memory runs out, none is added.
pub(crate) fn add_needs(
    alloc: Global,
    names: &mut Names,
    needs: NeedsView<'_>,
) -> Result<(), AllocError>
    ensures added { OnOk result (names.new ≡ fold with_name names.old (all_needs (needs_view needs.entry))) }
    ensures refused { OnErr result (names.new ≡ names.old) }
{
    let len = names.len();
    let added = add_some_needs(alloc, names, needs);
    if added.is_err() {
        names.truncate(len);
    }
    added
}

// Adds all names of the prerequisites. If memory runs out, some may be added.
fn add_some_needs(alloc: Global, names: &mut Names, needs: NeedsView<'_>) -> Result<(), AllocError>
    ensures added { OnOk result (names.new ≡ fold with_name names.old (all_needs (needs_view needs.entry))) }
    ensures refused { OnErr result ((more : List Text) × (names.new ≡ names.old ++ more)) }
{
    add_all(alloc, names, needs.prerequisites())?;
    add_all(alloc, names, needs.order_only())
}

// Adds names in turn. If memory runs out, some may be added.
fn add_all(alloc: Global, names: &mut Names, more: NeededNames<'_>) -> Result<(), AllocError>
    ensures added { OnOk result (names.new ≡ fold with_name names.old (names_view more.entry)) }
    ensures refused { OnErr result ((added : List Text) × (names.new ≡ names.old ++ added)) }
{
    for name in more {
        let text = name.text(alloc)?;
        names.add(text.as_slice())?;
    }
    Ok(())
}
