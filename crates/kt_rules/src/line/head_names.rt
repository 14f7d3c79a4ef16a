//! The names of a rule line.
ghost use Rattle.std.specs.Prelude.{◌≡◌, ◌∷◌, [], false, map, option_map, IfOk, IfSome};
ghost use Rattle.kt_rules.specs.Names.{name_of, without_repeats, written_words};
ghost use Rattle.kt_rules.specs.Entry.{empty_line};
ghost use Rattle.std.specs.List.{list_any};
ghost use Rattle.kt_rules.specs.inner.Telling.{is_backslash, signs_of};
ghost use Rattle.kt_rules.specs.inner.Heads.{head_view};
ghost use Rattle.kt_rules.specs.RuleLine.{is_bar, line_of, needs_of};

use crate::line::entry::{Name, Needs};
use crate::line::head::{Head, Separator};
use crate::line::held_needs::HeldNeeds;
use crate::line::refused::are_same;
use crate::line::signs::Signs;
use crate::line::written::first_word;
use crate::name::{named, without_dots};
use indexmap::IndexSet;
use kt_list::Sequence;
use kt_text::words;
use std::alloc::{AllocError, Global};

// How many bytes of text a name is expected to take. Room for more names is made as they come.
const NAME_SIZE: usize = 16;

/// The names of a head, unquoted and without leading `./`.
#[derive(Drop)]
pub struct HeadNames {
    pub(crate) separator: Separator,
    /// Without repeats.
    pub(crate) targets: Sequence<Name>,
    /// The target pattern of a static pattern rule.
    pub(crate) pattern: Option<Name>,
    pub(crate) needs: HeldNeeds,
}

impl HeadNames {
    /// A line without names.
    pub(crate) fn empty(alloc: Global) -> HeadNames
        ensures { result ≡ empty_line }
    {
        HeadNames {
            separator: Separator::Single,
            targets: Sequence::from(Vec::new(alloc)),
            pattern: None,
            needs: HeldNeeds::none(alloc),
        }
    }

    /// The names of a head.
    pub(crate) fn of(alloc: Global, head: &Head<'_>, signs: Signs) -> Result<HeadNames, AllocError>
        requires { signs ≡ signs_of (head_view head.now) }
        ensures { IfOk result (λ line. line ≡ line_of (head_view head.now)) }
    {
        Ok(HeadNames {
            separator: head.separator,
            targets: targets(alloc, head.targets, signs.telling)?,
            pattern: pattern(alloc, head.pattern)?,
            needs: HeldNeeds::own(needs(alloc, head.needs, signs.telling)?),
        })
    }
}

// The names of words, each at its first place. Most lines have one target.
#[inline(always)]
pub(crate) fn targets(
    alloc: Global,
    text: &[u8],
    quotes: bool,
) -> Result<Sequence<Name>, AllocError>
    requires { quotes ≡ false → list_any is_backslash text.now ≡ false }
    ensures { IfOk result (λ names. names ≡ without_repeats (map name_of (written_words text.now))) }
{
    match only_word(text) {
        Some(word) => one_target(alloc, word),
        None if quotes => several_targets(alloc, text),
        None => plain_targets(alloc, text),
    }
}

// The only word of a text, or `None` if there are others or none.
fn only_word(text: &[u8]) -> Option<&[u8]>
    ensures quick { IfSome result (λ word. written_words text.now ≡ word.now ∷ []) }
{
    let (word, after) = first_word(text)?;
    match first_word(after) {
        None => Some(word),
        Some(_) => None,
    }
}

#[tactic(auto, unfolding(kt_list::specs::Names::without_repeats))]
fn one_target(alloc: Global, word: &[u8]) -> Result<Sequence<Name>, AllocError>
    ensures { IfOk result (λ names. names ≡ without_repeats (name_of word.now ∷ [])) }
{
    let mut names = Vec::with_capacity(alloc, 1)?;
    names.push(named(alloc, word)?)?;
    Ok(Sequence::from(names))
}

#[tactic(auto, unfolding(kt_list::specs::Names::without_repeats))]
#[inline(never)]
fn several_targets(alloc: Global, text: &[u8]) -> Result<Sequence<Name>, AllocError>
    ensures { IfOk result (λ names. names ≡ without_repeats (map name_of (written_words text.now))) }
{
    let mut names: IndexSet<Name> = IndexSet::new(alloc);
    let mut rest = text;
    while let Some((word, after)) = first_word(rest) {
        names.insert(named(alloc, word)?)?;
        rest = after;
    }
    let list: Vec<Name> = names.into_iter().collect(alloc)?;
    Ok(Sequence::from(list))
}

// As `targets`, for a text without a backslash.
#[tactic(auto, using(crate::proofs::lemmas::line::PlainLemmas::plain_names), unfolding(kt_list::specs::Names::without_repeats))]
#[inline(never)]
fn plain_targets(alloc: Global, text: &[u8]) -> Result<Sequence<Name>, AllocError>
    requires { list_any is_backslash text.now ≡ false }
    ensures { IfOk result (λ names. names ≡ without_repeats (map name_of (written_words text.now))) }
{
    let mut names: IndexSet<Name> = IndexSet::new(alloc);
    for word in words(text) {
        names.insert(Name::copied(alloc, without_dots(word))?)?;
    }
    let list: Vec<Name> = names.into_iter().collect(alloc)?;
    Ok(Sequence::from(list))
}

// The name of a static pattern, if there is one.
fn pattern(alloc: Global, word: Option<&[u8]>) -> Result<Option<Name>, AllocError>
    ensures { IfOk result (λ name. name ≡ option_map (λ text. name_of text.now) word.entry) }
{
    match word {
        None => Ok(None),
        Some(word) => Ok(Some(named(alloc, word)?)),
    }
}

// The names of prerequisites. Few texts have a backslash.
fn needs(alloc: Global, text: &[u8], quotes: bool) -> Result<Needs, AllocError>
    requires { quotes ≡ false → list_any is_backslash text.now ≡ false }
    ensures { IfOk result (λ needs. needs ≡ needs_of (written_words text.now)) }
{
    if quotes {
        quoted_needs(alloc, text)
    } else {
        plain_needs(alloc, text)
    }
}

// The names of prerequisites; those after the first word `|` are order-only.
#[tactic(auto, using(crate::proofs::lemmas::line::NeedsLemmas::needs_from_start), unfolding(crate::proofs::lemmas::line::NeedsLemmas::needs_from))]
#[inline(never)]
fn quoted_needs(alloc: Global, text: &[u8]) -> Result<Needs, AllocError>
    ensures { IfOk result (λ needs. needs ≡ needs_of (written_words text.now)) }
{
    let mut prerequisites = Vec::with_capacity(alloc, text.len() / NAME_SIZE)?;
    let mut order_only = Vec::new(alloc);
    let mut after_bar = false;
    let mut rest = text;
    while let Some((word, after)) = first_word(rest) {
        if after_bar {
            order_only.push(named(alloc, word)?)?;
        } else if is_bar(word) {
            after_bar = true;
        } else {
            prerequisites.push(named(alloc, word)?)?;
        }
        rest = after;
    }
    Ok(Needs {
        prerequisites: Sequence::from(prerequisites),
        order_only: Sequence::from(order_only),
    })
}

// As `quoted_needs`, for a text without a backslash.
#[tactic(auto, using(crate::proofs::lemmas::line::PlainLemmas::plain_needs_from), unfolding(crate::proofs::lemmas::line::NeedsLemmas::needs_from))]
#[inline(always)]
pub(crate) fn plain_needs(alloc: Global, text: &[u8]) -> Result<Needs, AllocError>
    requires { list_any is_backslash text.now ≡ false }
    ensures { IfOk result (λ needs. needs ≡ needs_of (written_words text.now)) }
{
    let mut prerequisites = Vec::with_capacity(alloc, text.len() / NAME_SIZE)?;
    let mut order_only = Vec::new(alloc);
    let mut after_bar = false;
    for word in words(text) {
        if after_bar {
            order_only.push(Name::copied(alloc, without_dots(word))?)?;
        } else if is_bar(word) {
            after_bar = true;
        } else {
            prerequisites.push(Name::copied(alloc, without_dots(word))?)?;
        }
    }
    Ok(Needs {
        prerequisites: Sequence::from(prerequisites),
        order_only: Sequence::from(order_only),
    })
}

#[tactic(auto, unfolding(crate::specs::RuleLine::is_bar))]
fn is_bar(word: &[u8]) -> bool
    ensures { result ≡ is_bar word.now }
{
    are_same(word, b"|")
}
