//! The rules of a book, which stores each name and each list of names once.
//! Fast: where line after line has the same long text of prerequisites, their numbers are those of the line before.
//! Spares a look-up for each name.
//! Fast: where reading ends, the book lets go of the last such text. Spares 50 bytes for each name of an `all` that
//! names everything.
ghost use Rattle.std.specs.Prelude.{◌≡◌, ◌++◌, ◌∷◌, [], ℕ, All, List, Some, false, flat_map, length, take};
ghost use Rattle.std.specs.Prelude.{None, option_map, slice_get, unwrap_or, if◌then◌else◌, IfOk, IfSome, IsTrue, OnErr, OnOk};
ghost use Rattle.std.specs.List.{Contains};
ghost use Rattle.kt_list.specs.views.Names.{AreBelow, place_of};
ghost use Rattle.kt_list.specs.views.Prefixes.{HasMore};
ghost use Rattle.kt_text.specs.Words.{Text};
ghost use Rattle.kt_rules.specs.Book.{is_double, is_group};
ghost use Rattle.kt_rules.specs.views.Known.{names_in};
ghost use Rattle.kt_rules.specs.views.Targets.{entry_view};
ghost use Rattle.kt_rules.specs.inner.Alike.{HaveSameNeeds, SaySame};
ghost use Rattle.kt_rules.specs.inner.Dictionary.{GrowsDictionary, IsNumberOf};
ghost use Rattle.kt_rules.specs.inner.Held.{AreNeeds, AreRuleNumbers, IsLast, rule_held};

use super::book_rule::BookRule;
use super::kinds::Kinds;
use super::row::{NeedsNumbers, Row, RuleNumbers};
use crate::dictionary::Dictionary;
use crate::line::entry::{Entry, Name, Needs, RecipeLine};
use crate::line::held_needs::{HeldNeeds, PlainNeeds};
use crate::line::static_pattern::StaticPattern;
use kt_list::{Names, Rows};
use std::alloc::{AllocError, Global};
use std::marker::Model;
use std::rc::Rc;

/// Rules, and a dictionary, all names of the rules among its names.
#[derive(Drop)]
pub(crate) struct Rules {
    dictionary: Dictionary,
    // For each rule, the lines of its recipe.
    lines: Rows<RecipeLine>,
    // Each rule by its numbers.
    rows: Vec<Row>,
    // Of the rules, and maybe of some that were taken out again.
    kinds: Kinds,
    // The last prerequisites that several entries may hold, and their numbers.
    last: Option<LastNeeds>,
}

#[derive(Drop)]
pub(crate) struct LastNeeds {
    needs: Rc<PlainNeeds>,
    numbers: NeedsNumbers,
}

impl Model for Rules {
    ghost use Rattle.std.specs.Prelude.{List, Option};
    ghost use Rattle.kt_text.specs.Words.{Text};
    ghost use Rattle.kt_rules.specs.Entry.{Entry};
    ghost use Rattle.kt_rules.specs.inner.Held.{AreHeld, rules_held};

    ghost Value = { List Text × List Entry };

    ghost view = { λ rules. (rules.dictionary.0, rules_held rules.dictionary rules.lines rules.rows.items) };

    ghost invariant = { λ rules. AreHeld rules.dictionary rules.lines rules.rows.items rules.kinds rules.last };
}

impl Rules {
    /// No rules, and no names.
    pub(crate) fn new(alloc: Global) -> Rules
        ensures { result ≡ ([], []) }
    {
        Rules {
            dictionary: Dictionary::new(alloc),
            lines: Rows::new(alloc),
            rows: Vec::new(alloc),
            kinds: Kinds::none(),
            last: None,
        }
    }

    /// The number of rules.
    #[tactic(auto, using(crate::proofs::lemmas::book::HeldLemmas::rules_many))]
    pub(crate) fn len(&self) -> usize
        ensures { result ≡ length self.now.1 }
    {
        self.rows.len()
    }

    /// The number of names.
    pub(crate) fn name_count(&self) -> usize
        ensures { result ≡ length self.now.0 }
    {
        self.dictionary.names().len()
    }

    /// The names, among them all that stand in the rules.
    pub(crate) fn names(&self) -> &Names
        ensures names { result.now ≡ self.now.0 }
        ensures all { All (Contains self.now.0) (flat_map names_in self.now.1) }
    {
        self.dictionary.names()
    }

    /// The number of a name.
    pub(crate) fn number_of(&self, name: &[u8]) -> Option<usize>
        ensures { result ≡ place_of self.now.0 name.now }
    {
        self.dictionary.names().number_of(name)
    }

    /// Whether a name has this number, told without hashing.
    pub(crate) fn has_number(&self, name: &[u8], number: usize) -> bool
        ensures quick { IsTrue result → place_of self.now.0 name.now ≡ Some number }
    {
        self.dictionary.has_number(name, number)
    }

    /// Whether there may be rules with two colons.
    pub(crate) fn may_have_double(&self) -> bool
        ensures quick { result ≡ false → All (λ rule. is_double rule.kind ≡ false) self.now.1 }
    {
        self.kinds.double
    }

    /// Whether there may be groups.
    pub(crate) fn may_have_group(&self) -> bool
        ensures quick { result ≡ false → All (λ rule. is_group rule.kind ≡ false) self.now.1 }
    {
        self.kinds.group
    }

    /// The rule at a place.
    pub(crate) fn get(&self, place: usize) -> Option<BookRule<'_>>
        ensures told { option_map entry_view result ≡ slice_get self.now.1 place }
        ensures names { IfSome result (λ rule. rule.names.now ≡ self.now.0) }
        ensures below { IfSome result (λ rule. AreBelow (length self.now.0) rule.targets.now) }
        ensures needs_below { IfSome result (λ rule. AreBelow (length self.now.0) rule.prerequisites.now) }
        ensures orders_below { IfSome result (λ rule. AreBelow (length self.now.0) rule.order_only.now) }
    {
        let row = held_at(self.rows.as_slice(), place)?;
        Some(rule_of(&self.dictionary, self.lines.row_at(place), row))
    }

    /// Whether the rules at two places say the same of all their targets: they have the same lists of prerequisites,
    /// without a static pattern.
    pub(crate) fn say_same(&self, place: usize, other: usize) -> bool
        ensures quick { IsTrue result → SaySame (slice_get self.now.1 place) (slice_get self.now.1 other) }
    {
        let rows = self.rows.as_slice();
        match held_at(rows, place) {
            Some(row) => match held_at(rows, other) {
                Some(second) => have_same_needs(row, second),
                None => false,
            },
            None => false,
        }
    }

    /// Adds a rule. If memory runs out, some of its names may be added. A number beyond 4,294,967,295 is
    /// refused as if memory were.
    pub(crate) fn push(&mut self, entry: Entry) -> Result<(), AllocError>
        ensures pushed { OnOk result (self.new.1 ≡ self.old.1 ++ entry ∷ []) }
        ensures refused { OnErr result (self.new.1 ≡ self.old.1) }
        ensures grown { HasMore self.old.0 self.new.0 }
    {
        let Entry {
            alloc: _,
            kind,
            targets,
            pattern,
            needs,
            recipe,
            place,
        } = entry;
        let has_recipe = recipe.is_some();
        self.rows.reserve(1)?;
        let numbers = number_rule(
            &mut self.dictionary,
            &self.last,
            targets.as_slice(),
            &pattern,
            &needs,
        )?;
        add_lines(&mut self.lines, recipe)?;
        self.rows.push_reserved(Row {
            place,
            numbers,
            kind,
            has_recipe,
        });
        self.kinds = self.kinds.with(kind);
        remember(&mut self.last, needs, numbers.needs);
        Ok(())
    }

    /// Forgets the prerequisites that the next rule may have, too.
    pub(crate) fn forget_last(&mut self)
        ensures { self.new ≡ self.old }
    {
        self.last = None;
    }

    /// Takes all rules out again but the first ones. Their names stay.
    #[tactic(auto, using(crate::proofs::lemmas::book::HeldLemmas::rules_first))]
    pub(crate) fn truncate(&mut self, len: usize)
        ensures names { self.new.0 ≡ self.old.0 }
        ensures rules { self.new.1 ≡ take len self.old.1 }
    {
        self.rows.truncate(len);
        self.lines.truncate(len);
    }
}

// The row at a place.
fn held_at(rows: &[Row], place: usize) -> Option<&Row>
    ensures { option_map (λ row. row.now) result ≡ slice_get rows.now place }
{
    rows.get(place)
}

// The rule of a row.
fn rule_of<'a>(dictionary: &'a Dictionary, lines: &'a [RecipeLine], row: &'a Row) -> BookRule<'a>
    ensures told { entry_view result ≡ rule_held dictionary.now lines.now row.now }
    ensures names { result.names.now ≡ dictionary.now.0 }
    ensures below { AreBelow (length dictionary.now.0) result.targets.now }
    ensures needs_below { AreBelow (length dictionary.now.0) result.prerequisites.now }
    ensures orders_below { AreBelow (length dictionary.now.0) result.order_only.now }
{
    let numbers = row.numbers;
    BookRule {
        names: dictionary.names(),
        kind: row.kind,
        targets: dictionary.list(numbers.targets),
        pattern: dictionary.name_if(numbers.pattern),
        prerequisites: dictionary.list(numbers.needs.prerequisites),
        order_only: dictionary.list(numbers.needs.order_only),
        recipe: lines_if(row.has_recipe, lines),
        place: &row.place,
    }
}

// The lines of a recipe, if there is one.
fn lines_if(has_recipe: bool, lines: &[RecipeLine]) -> Option<&[RecipeLine]>
    ensures { option_map (λ own. own.now) result ≡ (if has_recipe then Some lines.now else None) }
{
    if has_recipe { Some(lines) } else { None }
}

// Whether both rows have rules that say the same of their targets, by numbers, and none has a static pattern.
fn have_same_needs(row: &Row, other: &Row) -> bool
    ensures quick { IsTrue result → HaveSameNeeds row.now other.now }
{
    row.kind == other.kind
        && row.has_recipe == other.has_recipe
        && row.numbers.needs.prerequisites == other.numbers.needs.prerequisites
        && row.numbers.needs.order_only == other.numbers.needs.order_only
        && row.numbers.pattern.is_none()
        && other.numbers.pattern.is_none()
}

// The numbers of the last prerequisites that several entries hold, where these have the same text.
fn known_needs(last: &Option<LastNeeds>, needs: &HeldNeeds) -> Option<NeedsNumbers>
    ensures quick { (dictionary : List Text × List (List ℕ)) → IsLast dictionary last.now
        → IfSome result (AreNeeds dictionary needs.now) }
{
    match last {
        Some(last) => match needs.as_shared() {
            Some(plain) if last.needs.are_same(plain) => Some(last.numbers),
            _ => None,
        },
        None => None,
    }
}

// Remembers the numbers of prerequisites that several entries may hold.
// Idle: does nothing.
fn remember(last: &mut Option<LastNeeds>, needs: HeldNeeds, numbers: NeedsNumbers)
    ensures quick { (dictionary : List Text × List (List ℕ)) → IsLast dictionary last.old
        → AreNeeds dictionary needs numbers → IsLast dictionary last.new }
{
    if let Some(needs) = needs.into_shared() {
        *last = Some(LastNeeds { needs, numbers });
    }
}

// The numbers of a rule's names.
fn number_rule(
    dictionary: &mut Dictionary,
    last: &Option<LastNeeds>,
    targets: &[Name],
    pattern: &StaticPattern,
    needs: &HeldNeeds,
) -> Result<RuleNumbers, AllocError>
    ensures numbered { IsLast dictionary.old last.now
        → IfOk result (AreRuleNumbers dictionary.new targets.now pattern.now needs.now) }
    ensures grown { GrowsDictionary dictionary.old dictionary.new }
{
    let targets = dictionary.number_list(targets)?;
    let needs = number_needs(dictionary, last, needs)?;
    let pattern = number_pattern(dictionary, pattern)?;
    Ok(RuleNumbers {
        targets,
        needs,
        pattern,
    })
}

// The number of a target pattern, if there is one.
fn number_pattern(
    dictionary: &mut Dictionary,
    pattern: &StaticPattern,
) -> Result<Option<u32>, AllocError>
    ensures numbered { IfOk result (λ number. IsNumberOf dictionary.new.0 number pattern.now) }
    ensures grown { GrowsDictionary dictionary.old dictionary.new }
{
    match pattern.text() {
        Some(name) => Ok(Some(dictionary.number(name)?)),
        None => Ok(None),
    }
}

// The numbers of prerequisites, which are looked up unless they are known.
fn number_needs(
    dictionary: &mut Dictionary,
    last: &Option<LastNeeds>,
    needs: &HeldNeeds,
) -> Result<NeedsNumbers, AllocError>
    ensures numbered { IsLast dictionary.old last.now → IfOk result (AreNeeds dictionary.new needs.now) }
    ensures grown { GrowsDictionary dictionary.old dictionary.new }
{
    match known_needs(last, needs) {
        Some(known) => Ok(known),
        None => number_lists(dictionary, needs.get()),
    }
}

#[tactic(auto, using(crate::proofs::lemmas::DictionaryLemmas::list_stays))]
fn number_lists(dictionary: &mut Dictionary, needs: &Needs) -> Result<NeedsNumbers, AllocError>
    ensures numbered { IfOk result (AreNeeds dictionary.new needs.now) }
    ensures grown { GrowsDictionary dictionary.old dictionary.new }
{
    let prerequisites = dictionary.number_list(needs.prerequisites.as_slice())?;
    let order_only = dictionary.number_list(needs.order_only.as_slice())?;
    Ok(NeedsNumbers {
        prerequisites,
        order_only,
    })
}

// Adds a row with the lines of a recipe.
fn add_lines(
    lines: &mut Rows<RecipeLine>,
    recipe: Option<Vec<RecipeLine>>,
) -> Result<(), AllocError>
    ensures added { OnOk result (lines.new ≡ lines.old ++ unwrap_or (option_map (λ own. own.items) recipe) [] ∷ []) }
    ensures refused { OnErr result (lines.new ≡ lines.old) }
{
    match recipe {
        Some(mut own) => lines.append_row(&mut own),
        None => lines.open_row(),
    }
}
