//! Reads rule lines one after another.
//! Fast: a long text of prerequisites that stands in line after line is read once. Spares its reading, and a copy of
//! each name.
ghost use Rattle.std.specs.Prelude.{◌≡◌, IfOk, IfSome, IsTrue, None, Some, false, map};
ghost use Rattle.std.specs.List.{list_any};
ghost use Rattle.kt_text.specs.Match.{has_percent};
ghost use Rattle.kt_text.specs.Words.{words_of};
ghost use Rattle.kt_rules.specs.Entry.{is_nil, rule_of};
ghost use Rattle.kt_rules.specs.Names.{name_of, without_repeats, written_words};
ghost use Rattle.kt_rules.specs.views.Refusals.{GivesExpected};
ghost use Rattle.kt_rules.specs.RuleLine.{colon_cut, group_targets, needs_of};
ghost use Rattle.kt_rules.specs.inner.Remembered.{IsLongCut, IsPlain, NamesNeeds, ReadsAsLong, long_line};
ghost use Rattle.kt_rules.specs.inner.Telling.{is_telling};

use crate::fault::RuleFault;
use crate::line::cutting::colon_cut;
use crate::line::entry::Entry;
use crate::line::head::{Separator, group_targets};
use crate::line::head_names::{HeadNames, plain_needs, targets};
use crate::line::held_needs::{HeldNeeds, PlainNeeds};
use crate::line::reading::{accepted, is_blank, read_rule};
use crate::line::signs::{Signs, has_telling};
use crate::place::Place;
use kt_list::Shared;
use kt_text::{has_byte, has_percent};
use std::alloc::{AllocError, Global};
use std::marker::Model;
use std::rc::Rc;

// The size from which on a text of prerequisites is remembered: to read a shorter one again costs less.
const LONG: usize = 64;

/// Reads rule lines as entries.
///
/// Where a line has the same long text of prerequisites as an earlier one, as `$(HEADERS)` gives in line after line,
/// the text isn't read again, and the entries hold the same prerequisites together.
#[derive(Drop)]
pub struct RuleReader {
    alloc: Global,
    // The last long text of prerequisites without a byte that needs a second look.
    last: Option<Rc<PlainNeeds>>,
}

impl Model for RuleReader {
    ghost Value = { Unit {0} };

    ghost view = { λ reader. tt };
}

// A line with long prerequisites, and what its text tells of its names.
#[derive(Drop)]
struct LongLine {
    line: HeadNames,
    signs: Signs,
}

impl RuleReader {
    /// A reader that has read nothing yet.
    pub fn new(alloc: Global) -> RuleReader {
        RuleReader { alloc, last: None }
    }

    /// The entry of a rule line, as [`read_rule`] reads it.
    pub fn read(
        &mut self,
        text: &[u8],
        recipe: Option<Shared<u8>>,
        place: Place,
    ) -> Result<Entry, RuleFault>
        ensures { GivesExpected result (rule_of text.now recipe place) }
    {
        match self.long_line(text) {
            Ok(Some(long)) => accepted(self.alloc, long.line, long.signs, recipe, place),
            Ok(None) => read_rule(self.alloc, text, recipe, place),
            Err(AllocError) => Err(RuleFault::Memory),
        }
    }

    // The line of a text, if its prerequisites are long and plain.
    #[inline(never)]
    fn long_line(&mut self, text: &[u8]) -> Result<Option<LongLine>, AllocError>
        ensures quick { IfOk result (λ found. IfSome found (ReadsAsLong text.now)) }
    {
        match long_cut(text) {
            None => Ok(None),
            Some((targets, needs)) => match self.needs(needs)? {
                None => Ok(None),
                Some(needs) => Ok(Some(LongLine::of(self.alloc, targets, needs)?)),
            },
        }
    }

    // The prerequisites of a text, if it is plain.
    fn needs(&mut self, text: &[u8]) -> Result<Option<HeldNeeds>, AllocError>
        ensures quick { IfOk result (λ found. IfSome found (NamesNeeds text.now)) }
    {
        match &self.last {
            Some(last) if last.are_of(text) => Ok(Some(HeldNeeds::shared(last)?)),
            _ if is_plain(text) => Ok(Some(self.learned(text)?)),
            _ => Ok(None),
        }
    }

    // The prerequisites of a plain text, which is remembered.
    #[tactic(auto, using(crate::proofs::lemmas::line::SignLemmas::no_backslash_in))]
    fn learned(&mut self, text: &[u8]) -> Result<HeldNeeds, AllocError>
        requires { IsPlain text.now }
        ensures { IfOk result (NamesNeeds text.now) }
    {
        let needs = plain_needs(self.alloc, text)?;
        let plain = Rc::new(self.alloc, PlainNeeds::of(self.alloc, text, needs)?)?;
        let held = HeldNeeds::shared(&plain)?;
        self.last = Some(plain);
        Ok(held)
    }
}

impl LongLine {
    // The line of a text of targets, with plain prerequisites.
    #[tactic(auto, using(crate::proofs::lemmas::line::SignLemmas::no_backslash_in))]
    fn of(alloc: Global, text: &[u8], needs: HeldNeeds) -> Result<LongLine, AllocError>
        ensures { IfOk result (λ long. long ≡ long_line text.now needs) }
    {
        let signs = Signs {
            telling: has_telling(text),
            percent: has_percent(text),
        };
        let line = HeadNames {
            separator: Separator::Single,
            targets: targets(alloc, text, signs.telling)?,
            pattern: None,
            needs,
        };
        Ok(LongLine { line, signs })
    }
}

// The texts before and after the first colon of a line, unless it makes a group or the prerequisites are short.
fn long_cut(text: &[u8]) -> Option<(&[u8], &[u8])>
    ensures quick { IfSome result (λ cut. IsLongCut text.now cut.0.now cut.1.now) }
{
    if text.len() < LONG || is_blank(text) {
        return None;
    }
    let (before, after) = colon_cut(text)?;
    if after.len() < LONG || group_targets(before).is_some() {
        None
    } else {
        Some((before, after))
    }
}

// Whether a text has no colon and no telling byte.
fn is_plain(text: &[u8]) -> bool
    ensures quick { IsTrue result → IsPlain text.now }
{
    !has_byte(text, b':') && !has_telling(text)
}
