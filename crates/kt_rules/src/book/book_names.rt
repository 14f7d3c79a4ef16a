//! The names that the rules of a book mention.
//! Fast: a target is marked by its name's number. Spares a hash a target.
ghost use Rattle.std.specs.Prelude.{◌≡◌, ◌||◌, List, bytes_eq, codes, false, find, flat_map, get_or, length, ◌<◌};
ghost use Rattle.std.specs.Prelude.{option_map, true, unwrap_or, IfOk, OnOk};
ghost use Rattle.kt_text.specs.Words.{Text};
ghost use Rattle.kt_list.specs.views.Names.{AreBelow, name_at, names_at, place_of};
ghost use Rattle.kt_rules.specs.Known.{named_by, named_with};
ghost use Rattle.kt_rules.specs.Entry.{needs_for};
ghost use Rattle.kt_rules.specs.Names.{is_among};
ghost use Rattle.kt_rules.specs.Suffixes.{all_needs};
ghost use Rattle.kt_rules.specs.views.Targets.{entry_view, names_view, needs_view, target_view};
ghost use Rattle.kt_rules.specs.inner.Held.{numbered_target};
ghost use Rattle.kt_rules.specs.inner.Marks.{HasShared, IsOf, is_marked};

use super::book_rule::BookRule;
use super::rules::Rules;
use super::special::named_target;
use super::suffixes::Suffixes;
use super::target_rule::{TargetRule, is_explicit};
use crate::needs::{NeededNames, NeedsView};
use crate::target::TargetView;
use kt_list::Names;
use std::alloc::{AllocError, Global};
use std::marker::Model;

/// The names of a book's explicit rules, with the phony names.
///
/// A name that the rules have is marked by its number, which takes a byte.
#[derive(Drop)]
pub struct BookNames<'a> {
    rules: &'a Rules,
    suffixes: &'a Suffixes,
    marks: Marks,
}

// Which names are marked.
#[derive(Drop)]
struct Marks {
    alloc: Global,
    // By the number of a name in the book.
    numbers: Vec<bool>,
    // Names with a stem put in, which the rules have only with a percent sign.
    others: Names,
}

impl<'a> Model for BookNames<'a> {
    ghost use Rattle.std.specs.Prelude.{◌≡◌, List, flat_map};
    ghost use Rattle.kt_text.specs.Words.{Text};

    ghost Value = { List Text };

    ghost use Rattle.kt_rules.specs.Known.{named_by};
    ghost use Rattle.kt_rules.specs.Names.{is_among};
    ghost use Rattle.kt_rules.specs.inner.Marks.{is_marked};

    ghost view = { λ s. flat_map (named_by s.suffixes.now) s.rules.now.1 };

    ghost invariant = { λ s. (name : Text) → is_marked s.rules.now.0 s.marks name
        ≡ is_among (flat_map (named_by s.suffixes.now) s.rules.now.1) name };
}

impl<'a> BookNames<'a> {
    #[tactic(auto, using(crate::proofs::lemmas::book::MarkLemmas::marked_start))]
    pub(crate) fn of(
        alloc: Global,
        rules: &'a Rules,
        suffixes: &'a Suffixes,
    ) -> Result<BookNames<'a>, AllocError>
        ensures { IfOk result (λ names. names ≡ flat_map (named_by suffixes.now) rules.now.1) }
    {
        let mut marks = Marks::none(alloc, rules.name_count())?;
        for place in 0..rules.len() {
            match rules.get(place) {
                Some(rule) => marks.mark_rule(suffixes, rule)?,
                None => {}
            }
        }
        Ok(BookNames {
            rules,
            suffixes,
            marks,
        })
    }

    /// Whether a name is among them. Takes no memory.
    pub fn contains(&self, name: &[u8]) -> bool
        ensures { result ≡ is_among self.now name.now }
    {
        match self.rules.number_of(name) {
            Some(number) => self.marks.has_number(number),
            None => self.marks.others.contains(name),
        }
    }

    /// The names as they are held: all names of the book, a mark for each by its number, and other names.
    pub fn marked(&self) -> (&Names, &[bool], &Names)
        ensures { (name : Text) → is_among self.now name
            ≡ unwrap_or (option_map (λ number. get_or result.1.now number false) (place_of result.0.now name))
            (is_among result.2.now name) }
    {
        (
            self.rules.names(),
            self.marks.numbers.as_slice(),
            &self.marks.others,
        )
    }
}

impl Marks {
    // No marks, for a given number of names.
    fn none(alloc: Global, count: usize) -> Result<Marks, AllocError>
        ensures none { IfOk result (λ marks. (names : List Text) (name : Text) → is_marked names marks name ≡ false) }
        ensures many { IfOk result (λ marks. length marks.numbers.items ≡ count) }
    {
        Ok(Marks {
            alloc,
            numbers: Vec::from_elem(alloc, false, count)?,
            others: Names::new(alloc),
        })
    }

    fn has_number(&self, number: usize) -> bool
        ensures { result ≡ get_or self.now.numbers.items number false }
    {
        match self.numbers.get(number) {
            Some(mark) => *mark,
            None => false,
        }
    }

    // Marks the names that a rule mentions.
    fn mark_rule(&mut self, suffixes: &Suffixes, rule: BookRule<'_>) -> Result<(), AllocError>
        requires { IsOf (length self.old.numbers.items) rule }
        ensures marked { OnOk result ((name : Text) → is_marked rule.entry.names.now self.new name
            ≡ (is_marked rule.entry.names.now self.old name
            || is_among (named_by suffixes.now (entry_view rule.entry)) name)) }
        ensures many { length self.new.numbers.items ≡ length self.old.numbers.items }
    {
        let mut shared = false;
        for number in rule.targets {
            shared = self.mark_target(suffixes, rule, *number as usize, shared)?;
        }
        match phony_target(rule) {
            Some(target) => {
                self.mark_needs(rule, target, shared)?;
                Ok(())
            }
            None => Ok(()),
        }
    }

    // Marks the target whose name has the number, and its prerequisites, if the rule is explicit for it. Takes and
    // returns whether those that all targets share are marked: that is done once a rule.
    fn mark_target(
        &mut self,
        suffixes: &Suffixes,
        rule: BookRule<'_>,
        number: usize,
        shared: bool,
    ) -> Result<bool, AllocError>
        requires count { IsOf (length self.old.numbers.items) rule }
        requires below { number < length rule.names.now }
        requires shared { shared ≡ true → HasShared rule self.old }
        ensures marked { OnOk result ((name : Text) → is_marked rule.entry.names.now self.new name
            ≡ (is_marked rule.entry.names.now self.old name || is_among (named_with suffixes.now (entry_view rule.entry)
            (numbered_target rule.entry number)) name)) }
        ensures many { length self.new.numbers.items ≡ length self.old.numbers.items }
        ensures quick_shared { IfOk result (λ shared. shared ≡ true → HasShared rule.entry self.new) }
    {
        let target = rule.target(number);
        if !is_explicit(
            suffixes,
            TargetRule {
                entry: rule,
                target,
            },
        ) {
            return Ok(shared);
        }
        self.mark_number(rule.names, number);
        self.mark_needs(rule, target, shared)
    }

    // Marks the prerequisites of a target. Takes and returns whether those that all targets share are marked.
    fn mark_needs(
        &mut self,
        rule: BookRule<'_>,
        target: TargetView<'_>,
        shared: bool,
    ) -> Result<bool, AllocError>
        requires count { IsOf (length self.old.numbers.items) rule }
        requires shared { shared ≡ true → HasShared rule self.old }
        ensures marked { OnOk result ((name : Text) → is_marked rule.entry.names.now self.new name
            ≡ (is_marked rule.entry.names.now self.old name
            || is_among (all_needs (needs_for (entry_view rule.entry) (target_view target.entry))) name)) }
        ensures many { length self.new.numbers.items ≡ length self.old.numbers.items }
        ensures quick_shared { IfOk result (λ shared. shared ≡ true → HasShared rule.entry self.new) }
    {
        match target.stem() {
            Some(stem) => {
                self.mark_stemmed(rule.names, NeedsView::stemmed(target.needs, stem))?;
                Ok(shared)
            }
            None => {
                if !shared {
                    self.mark_shared(rule);
                }
                Ok(true)
            }
        }
    }

    // Marks the prerequisites that all targets of a rule share: none in a static pattern rule.
    fn mark_shared(&mut self, rule: BookRule<'_>)
        requires { IsOf (length self.old.numbers.items) rule }
        ensures marked { (name : Text) → is_marked rule.entry.names.now self.new name
            ≡ (is_marked rule.entry.names.now self.old name
            || is_among (all_needs (entry_view rule.entry).needs) name) }
        ensures many { length self.new.numbers.items ≡ length self.old.numbers.items }
    {
        if rule.pattern.is_none() {
            self.mark_numbers(rule.names, rule.prerequisites);
            self.mark_numbers(rule.names, rule.order_only);
        }
    }

    // Marks names with the stem put in.
    fn mark_stemmed(&mut self, names: &Names, needs: NeedsView<'_>) -> Result<(), AllocError>
        requires { length self.old.numbers.items ≡ length names.now }
        ensures marked { OnOk result ((name : Text) → is_marked names.now self.new name
            ≡ (is_marked names.now self.old name || is_among (all_needs (needs_view needs.entry)) name)) }
        ensures many { length self.new.numbers.items ≡ length self.old.numbers.items }
    {
        self.mark_names(names, needs.prerequisites())?;
        self.mark_names(names, needs.order_only())
    }

    fn mark_names(&mut self, names: &Names, list: NeededNames<'_>) -> Result<(), AllocError>
        requires { length self.old.numbers.items ≡ length names.now }
        ensures marked { OnOk result ((name : Text) → is_marked names.now self.new name
            ≡ (is_marked names.now self.old name || is_among (names_view list.entry) name)) }
        ensures many { length self.new.numbers.items ≡ length self.old.numbers.items }
    {
        for name in list {
            let text = name.text(self.alloc)?;
            self.mark_name(names, text.as_slice())?;
        }
        Ok(())
    }

    #[tactic(auto, using(std::proofs::lemmas::Result::on_ok_weaker, crate::proofs::lemmas::book::MarkLemmas::other_marked))]
    fn mark_name(&mut self, names: &Names, name: &[u8]) -> Result<(), AllocError>
        requires { length self.old.numbers.items ≡ length names.now }
        ensures marked { OnOk result ((other : Text) → is_marked names.now self.new other
            ≡ (is_marked names.now self.old other || bytes_eq other name.now)) }
        ensures many { length self.new.numbers.items ≡ length self.old.numbers.items }
    {
        match names.number_of(name) {
            Some(number) => {
                self.numbers[number] = true;
                Ok(())
            }
            None => self.others.add(name),
        }
    }

    fn mark_numbers(&mut self, names: &Names, numbers: &[u32])
        requires count { length self.old.numbers.items ≡ length names.now }
        requires below { AreBelow (length names.now) numbers.now }
        ensures marked { (name : Text) → is_marked names.now self.new name
            ≡ (is_marked names.now self.old name || is_among (names_at names.now numbers.now) name) }
        ensures many { length self.new.numbers.items ≡ length self.old.numbers.items }
    {
        // The contract of `len` makes known that the names differ.
        let _count = names.len();
        for number in numbers {
            self.numbers[*number as usize] = true;
        }
    }

    // Marks the name with a number.
    fn mark_number(&mut self, names: &Names, number: usize)
        requires count { length self.old.numbers.items ≡ length names.now }
        requires below { number < length names.now }
        ensures marked { (name : Text) → is_marked names.now self.new name
            ≡ (is_marked names.now self.old name || bytes_eq name (name_at names.now number)) }
        ensures many { length self.new.numbers.items ≡ length self.old.numbers.items }
    {
        // The contract of `len` makes known that the names differ.
        let _count = names.len();
        self.numbers[number] = true;
    }
}

// The target `.PHONY` of a rule, if it has one.
fn phony_target<'a>(rule: BookRule<'a>) -> Option<TargetView<'a>>
    ensures { option_map target_view result
        ≡ find (λ target. bytes_eq target.name (codes ".PHONY")) (entry_view rule.entry).targets }
{
    named_target(rule, b".PHONY")
}
