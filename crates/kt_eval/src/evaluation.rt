//! An evaluation in progress: what it knows, and the small steps that change it.
ghost use Rattle.std.specs.Prelude.{◌≡◌, ◌++◌, IfOk, OnErr, OnOk, None, drop, option_map, true};
ghost use Rattle.kt_syntax.specs.views.Terms.{token_of};
ghost use Rattle.kt_eval.specs.State.{lookup};
ghost use Rattle.kt_eval.specs.inner.Plain.{left_by, put_by, put_of, still_deferred};

use crate::expanding::calls::names_plainly;
use crate::expanding::frames::innermost;
use crate::fault::{Fault, append_place};
use crate::files::{FileFault, Files};
use crate::macros::assigning::{Assigning, assignment_of};
use crate::macros::scope::MacroScope;
use crate::macros::{Flavour, Macro};
use crate::reading::page::{Page, RawLine, Source};
use crate::reading::recipe_texts::RecipeTexts;
use crate::state::{FoundValue, Frame, TermRest};
use crate::stop::Stop;
use crate::value::Value;
use kt_list::{Sequence, Shared};
use kt_rules::{Entry, FaultKind, Place, RuleReader};
use kt_syntax::{Operator, Term, Unterminated};
use kt_text::TextFault;
use std::alloc::{AllocError, Global};
use std::borrow::CowSlice;
use std::marker::Model;

/// The state of an evaluation.
#[derive(Drop)]
pub(crate) struct Evaluation<'a, M: MacroScope, F: Files> {
    pub(crate) alloc: Global,
    pub(crate) macros: M,
    pub(crate) frames: Vec<Frame>,
    pub(crate) messages: Vec<Sequence<u8>>,
    pub(crate) place: Option<Place>,
    pub(crate) rule: Option<Entry>,
    pub(crate) reader: RuleReader,
    pub(crate) recipe_texts: RecipeTexts,
    pub(crate) files: &'a mut F,
}

impl<'a, M: MacroScope, F: Files> Model for Evaluation<'a, M, F> {
    ghost use Rattle.kt_eval.specs.inner.Evaluation.{Evaluation};

    ghost Value = { Evaluation };

    ghost view = { λ s. record {
      world = record {
        table = M.table s.macros;
        automatic = M.automatic s.macros;
        frames = s.frames.items;
        said = s.messages.items;
        asked = (F.seen s.files.now).names;
        place = s.place;
        book = M.book s.macros;
        rule = s.rule;
      };
      answers = (F.seen s.files.now).answers;
      failed = (F.seen s.files.now).failed;
      lender = s.files.ghost_name;
    } };
}

impl<'a, M: MacroScope, F: Files> Evaluation<'a, M, F> {
    ghost use Rattle.std.specs.Prelude.{Option, List, ℕ};
    ghost use Rattle.kt_text.specs.Words.{Text};
    ghost use Rattle.kt_text.specs.views.Functions.{Answers};
    ghost use Rattle.kt_eval.specs.expanding.Expansion.{accepted, bad_argument};
    ghost use Rattle.kt_eval.specs.views.Outcome.{Gives, IfCut, Blames};
    ghost use Rattle.kt_eval.specs.Outcome.{left_of};
    ghost use Rattle.kt_eval.specs.inner.Evaluation.{GoesOn, files_of};
    ghost use Rattle.kt_eval.specs.State.{bind, unbind, say, warn, message_place};
    ghost use Rattle.kt_eval.specs.Step.{fault_of};

    // The flavour and value of a name.
    #[tactic(auto, unfolding(crate::specs::State::lookup))]
    pub(crate) fn lookup(&self, name: &[u8]) -> Result<Option<FoundValue>, AllocError>
        ensures { IfOk result (λ found. found ≡ lookup name.now self.now.world) }
    {
        match innermost(&self.frames, name) {
            Some(value) => Ok(Some(FoundValue {
                flavour: Flavour::Immediate,
                value: Value::copied(self.alloc, value)?,
            })),
            None => self.macros.find(name),
        }
    }

    // Appends the value of a name if it needs no expansion with `below` levels left, and otherwise returns it.
    #[tactic(auto, unfolding(crate::proofs::Steps::lookup_open))]
    pub(crate) fn put_value(
        &self,
        below: u64,
        name: &[u8],
        out: &mut Vec<u8>,
    ) -> Result<Option<Value>, AllocError>
        ensures put { OnOk result (out.new.items ≡ out.old.items ++ put_of below (lookup name.now self.now.world)) }
        ensures left { IfOk result (λ left. left ≡ still_deferred below (lookup name.now self.now.world)) }
    {
        if let Some(value) = innermost(&self.frames, name) {
            out.extend_from_slice(value)?;
            return Ok(None);
        }
        self.macros.put_value(name, below, out)
    }

    // Appends the text of a term, if this needs no further level, and returns what remains to be expanded.
    #[tactic(auto, unfolding(crate::proofs::Steps::plain_open))]
    pub(crate) fn put_plain(
        &self,
        below: u64,
        term: Result<Term<'_>, Unterminated>,
        out: &mut Vec<u8>,
    ) -> Result<TermRest, AllocError>
        ensures put { OnOk result (out.new.items
            ≡ out.old.items ++ put_by below (token_of term.entry) self.now.world) }
        ensures left { IfOk result (λ left. left ≡ left_by below (token_of term.entry) self.now.world) }
    {
        match term {
            Ok(Term::Lit(bytes)) => {
                out.extend_from_slice(bytes)?;
                Ok(TermRest::Nothing)
            }
            Ok(Term::Dollar) => {
                out.extend_from_slice(b"$")?;
                Ok(TermRest::Nothing)
            }
            Ok(Term::Ref(mark, body)) => {
                if !names_plainly(mark, body) {
                    return Ok(TermRest::Whole);
                }
                match self.put_value(below, body, out)? {
                    Some(value) => Ok(TermRest::Value(value)),
                    None => Ok(TermRest::Nothing),
                }
            }
            Err(Unterminated) => Ok(TermRest::Whole),
        }
    }

    pub(crate) fn is_writable(&self) -> bool
        ensures { result ≡ M.writable }
    {
        self.macros.is_writable()
    }

    // Adds an innermost binding.
    pub(crate) fn bind(&mut self, frame: Frame) -> Result<(), AllocError>
        ensures refused { OnErr result (self.new ≡ self.old) }
        ensures done { OnOk result (self.new ≡ record self.old { world = bind frame self.old.world }) }
    {
        self.frames.push(frame)?;
        Ok(())
    }

    // Removes the innermost binding.
    pub(crate) fn unbind(&mut self)
        ensures { self.new ≡ record self.old { world = unbind self.old.world } }
    {
        let _ = self.frames.pop();
    }

    pub(crate) fn say(&mut self, message: Vec<u8>) -> Result<(), AllocError>
        ensures refused { OnErr result (self.new ≡ self.old) }
        ensures done { OnOk result (self.new ≡ record self.old { world = say message.items self.old.world }) }
    {
        self.messages.push(Sequence::from(message))?;
        Ok(())
    }

    // Adds a message that begins with the current place.
    pub(crate) fn warn(&mut self, message: &[u8]) -> Result<(), AllocError>
        ensures refused { OnErr result (self.new ≡ self.old) }
        ensures done { OnOk result (self.new ≡ record self.old { world = warn message.now self.old.world }) }
    {
        let mut text = self.message_place()?;
        text.extend_from_slice(b": ")?;
        text.extend_from_slice(message)?;
        self.say(text)
    }

    fn message_place(&self) -> Result<Vec<u8>, AllocError>
        ensures { IfOk result (λ text. text.items ≡ message_place self.now.world.place) }
    {
        let mut text = Vec::new(self.alloc);
        append_place(&self.place, &mut text)?;
        Ok(text)
    }

    // A fault of this kind about this name, at the current place.
    pub(crate) fn fault(&self, kind: FaultKind, name: &[u8]) -> Result<Fault, AllocError>
        ensures { IfOk result (λ fault. fault ≡ fault_of self.now.world.place kind name.now) }
    {
        let place = self.place()?;
        Fault::new(self.alloc, kind, name, place)
    }

    // Fails because an argument of the function with this name is bad.
    pub(crate) fn bad_argument(&self, name: &[u8]) -> Result<Vec<u8>, Stop>
        ensures gives { Gives (λ v. v.items) result self.now.world (bad_argument name.now self.now.world) }
        ensures cut { IfCut result (GoesOn self.now.world (left_of (bad_argument {A = Text} name.now self.now.world))) }
        ensures blames { Blames result (files_of self.now) (files_of self.now) }
    {
        Err(Stop::Fault(self.fault(FaultKind::BadArgument, name)?))
    }

    // The result of a text function, with a bad argument as a fault.
    #[tactic(auto, using(crate::proofs::Steps::accepted_goes))]
    pub(crate) fn accept(
        &self,
        name: &[u8],
        outcome: Result<Vec<u8>, TextFault>,
    ) -> Result<Vec<u8>, Stop>
        ensures gives { (expected : Option (List ℕ)) → Answers outcome expected
            → Gives (λ v. v.items) result self.now.world (accepted name.now expected self.now.world) }
        ensures cut { (expected : Option (List ℕ))
            → IfCut result (GoesOn self.now.world (left_of (accepted name.now expected self.now.world))) }
        ensures blames { Blames result (files_of self.now) (files_of self.now) }
    {
        match outcome {
            Ok(text) => Ok(text),
            Err(TextFault::BadArgument) => self.bad_argument(name),
            Err(TextFault::Memory) => Err(Stop::Memory),
        }
    }
}

impl<'a, M: MacroScope, F: Files> Evaluation<'a, M, F> {
    ghost use Rattle.kt_eval.specs.reading.Reading.{at_line, at_number, line_at, read_bytes};
    ghost use Rattle.kt_syntax.specs.Recipes.{recipe_of};
    ghost use Rattle.kt_eval.specs.reading.Rules.{close_rule, enter_rule, open_rule, recipe_line, rule_place};
    ghost use Rattle.kt_eval.specs.State.{move_to, set_macro, set_rule};
    ghost use Rattle.kt_eval.specs.views.Outcome.{Gives, IfCut, Blames};
    ghost use Rattle.kt_eval.specs.Outcome.{left_of};
    ghost use Rattle.kt_eval.specs.inner.Evaluation.{GoesOn, Keeps, files_of};
    ghost use Rattle.kt_eval.specs.files.Files.{AgreeWith, Store};
    ghost use Rattle.kt_eval.specs.macros.Macros.{assigning, find, set_by_makefile};
    ghost use Rattle.std.specs.Cow.{cow_slice_items};
    ghost use Rattle.kt_eval.specs.inner.Doing.{DoesWithoutFiles};
    ghost use Rattle.kt_eval.specs.inner.Views.{assigning_view, front_view, raw_view};

    // Moves to a line of a source. All lines of an `eval` are at the place of the `eval`.
    #[tactic(auto, unfolding(crate::specs::reading::Reading::at_number))]
    pub(crate) fn move_to(&mut self, source: &Source, number: u64) -> Result<(), AllocError>
        ensures refused { OnErr result (self.new ≡ self.old) }
        ensures done { OnOk result (self.new ≡ record self.old { world = at_number source.now number self.old.world }) }
        ensures said { self.new.world.said ≡ self.old.world.said }
        ensures asked { self.new.world.asked ≡ self.old.world.asked }
    {
        match source {
            Source::Held => Ok(()),
            Source::File(name) => {
                let file = name.share()?;
                self.place = Some(Place { file, line: number });
                Ok(())
            }
        }
    }

    // Moves to the line at a place of a page, and returns the line.
    pub(crate) fn at_line<'p>(
        &mut self,
        page: &'p Page<'_>,
        place: usize,
    ) -> Result<RawLine<'p>, AllocError>
        ensures refused { OnErr result (self.new ≡ self.old) }
        ensures done { OnOk result (self.new ≡ record self.old { world = at_line page.now place self.old.world }) }
        ensures said { self.new.world.said ≡ self.old.world.said }
        ensures asked { self.new.world.asked ≡ self.old.world.asked }
        ensures line { IfOk result (λ line. raw_view line ≡ line_at page.now.lines place) }
    {
        let line = page.line(place);
        self.move_to(page.source(), line.number)?;
        Ok(line)
    }

    // The current place, to return to later.
    pub(crate) fn place(&self) -> Result<Option<Place>, AllocError>
        ensures { IfOk result (λ place. place ≡ self.now.world.place) }
    {
        match &self.place {
            None => Ok(None),
            Some(place) => Ok(Some(place.share()?)),
        }
    }

    pub(crate) fn set_place(&mut self, place: Option<Place>)
        ensures { self.new ≡ record self.old { world = move_to place self.old.world } }
    {
        self.place = place;
    }

    // What an assignment to a name does.
    pub(crate) fn assigning(&self, operator: Operator, name: &[u8]) -> Result<Assigning, AllocError>
        ensures { IfOk result (λ found. assigning_view found
            ≡ assigning operator (find name.now self.now.world.table)) }
    {
        assignment_of(operator, self.macros.get(name))
    }

    // Sets a macro to a text, after an old value and a space if an old value is given.
    pub(crate) fn set_macro(
        &mut self,
        name: &[u8],
        flavour: Flavour,
        front: Option<Value>,
        text: CowSlice<'_, u8>,
    ) -> Result<(), AllocError>
        requires { M.writable ≡ true }
        ensures done { OnOk result (self.new
            ≡ record self.old {
              world = set_macro name.now (set_by_makefile flavour (front_view front ++ cow_slice_items text.entry))
                  self.old.world;
            }) }
        ensures kept { Keeps self.old self.new }
        ensures unfailed { self.new.failed ≡ self.old.failed }
        ensures said { self.new.world.said ≡ self.old.world.said }
        ensures asked { self.new.world.asked ≡ self.old.world.asked }
    {
        match front {
            Some(front) => self
                .macros
                .append(name, flavour, front, text.as_slice())
                .unwrap(),
            None => {
                let value = Value::from_text(self.alloc, text)?;
                let value = Macro::of_makefile(flavour, value);
                self.macros.put(name, value).unwrap()
            }
        }
    }

    // Takes the open rule, so that none is open.
    pub(crate) fn take_rule(&mut self) -> Option<Entry>
        ensures taken { result ≡ self.old.world.rule }
        ensures left { self.new ≡ record self.old { world = set_rule None self.old.world } }
    {
        self.rule.take()
    }

    pub(crate) fn set_rule(&mut self, rule: Option<Entry>)
        ensures { self.new ≡ record self.old { world = set_rule rule self.old.world } }
    {
        self.rule = rule;
    }

    // The place of a rule that is read here.
    fn rule_place(&self) -> Result<Place, AllocError>
        ensures { IfOk result (λ place. place ≡ rule_place self.now.world.place) }
    {
        match &self.place {
            Some(place) => place.share(),
            None => {
                let file = Shared::from_vec(Vec::new(self.alloc))?;
                Ok(Place { file, line: 0 })
            }
        }
    }

    // Closes the open rule, if there is one.
    #[tactic(auto, unfolding(crate::specs::reading::Rules::close_rule))]
    pub(crate) fn close_rule(&mut self) -> Result<(), Stop>
        requires { M.writable ≡ true }
        ensures { DoesWithoutFiles close_rule result self.old self.new }
    {
        match self.take_rule() {
            None => Ok(()),
            Some(rule) => self.enter_rule(rule),
        }
    }

    // Adds a rule to the book.
    #[tactic(auto, using(crate::proofs::Steps::enter_rule_steps), unfolding(crate::specs::reading::Rules::enter_rule))]
    fn enter_rule(&mut self, rule: Entry) -> Result<(), Stop>
        requires { M.writable ≡ true }
        ensures { DoesWithoutFiles (enter_rule rule) result self.old self.new }
    {
        match self.macros.add(rule).unwrap() {
            Ok(warnings) => {
                self.messages.append(&mut warnings.into_vec())?;
                Ok(())
            }
            Err(refused) => Err(Stop::from(refused)),
        }
    }

    // Opens the rule of an expanded head.
    #[tactic(auto, using(crate::proofs::Steps::open_rule_goes), unfolding(crate::specs::reading::Rules::open_rule))]
    pub(crate) fn open_rule(&mut self, recipe: Option<&[u8]>, head: &[u8]) -> Result<(), Stop>
        ensures { DoesWithoutFiles
            (open_rule (option_map recipe_of (option_map (λ text. text.now) recipe.entry)) head.now)
            result self.old self.new }
    {
        let place = self.rule_place()?;
        let recipe = self.recipe_texts.first_text(recipe)?;
        match self.reader.read(head, recipe, place) {
            Ok(rule) => {
                self.rule = Some(rule);
                Ok(())
            }
            Err(refused) => Err(Stop::from(refused)),
        }
    }

    // Adds a line to the recipe of a rule, and makes it the open rule again.
    #[tactic(auto, unfolding(crate::specs::reading::Rules::recipe_line))]
    pub(crate) fn recipe_line(&mut self, rule: Entry, text: &[u8]) -> Result<(), Stop>
        ensures { DoesWithoutFiles (recipe_line rule text.now) result self.old self.new }
    {
        let mut rule = rule;
        let place = self.rule_place()?;
        let line = self
            .recipe_texts
            .text(recipe_len(&rule), after_first(text))?;
        rule.push(line, place)?;
        self.rule = Some(rule);
        Ok(())
    }

    // Reads the bytes of a file, if it exists. The name is copied first, so that a failure of the device isn't reported
    // as out of memory.
    #[tactic(auto, using(crate::proofs::Steps::read_bytes_steps), unfolding(crate::proofs::Common::read_bytes))]
    pub(crate) fn read_bytes(&mut self, name: &str) -> Result<Option<Vec<u8>>, Stop>
        ensures gives { (store : Store) → AgreeWith store self.new.answers → Gives (λ found. option_map
            (λ v. v.items) found) result self.new.world (read_bytes store name.now self.old.world) }
        ensures cut { (store : Store) → AgreeWith store self.new.answers → IfCut result
            (GoesOn self.new.world (left_of (read_bytes store name.now self.old.world))) }
        ensures kept { Keeps self.old self.new }
        ensures blames { Blames result (files_of self.old) (files_of self.new) }
    {
        let copy = name.to_string(self.alloc)?;
        match self.files.read(name) {
            Ok(found) => Ok(found),
            Err(FileFault::Device) => Err(Stop::Device(copy)),
            Err(FileFault::Memory) => Err(Stop::Memory),
        }
    }
}

// How many lines the recipe of a rule has.
fn recipe_len(rule: &Entry) -> usize {
    match rule.recipe() {
        Some(lines) => lines.len(),
        None => 0,
    }
}

fn after_first(text: &[u8]) -> &[u8]
    ensures { result.now ≡ drop 1 text.now }
{
    match text {
        [_, rest @ ..] => rest,
        [] => text,
    }
}
