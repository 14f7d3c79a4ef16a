//! Reads makefiles to their end.

ghost use Rattle.std.specs.Prelude.{◌≡◌, ◌≤◌, IfOk, None, OnOk, Some, map};
ghost use Rattle.kt_eval.specs.files.Files.{AgreeWith, Store};
ghost use Rattle.kt_eval.specs.views.files.Files.{AnswersGrow};
ghost use Rattle.kt_list.specs.Prefixes.{IsPrefix};
ghost use Rattle.kt_eval.specs.views.reading.Machine.{ComesBefore, IsCopy, Remembers, Repeats, new_machine, read_by};
ghost use Rattle.kt_eval.specs.views.reading.Machine.{reading_by, traced_by};
ghost use Rattle.kt_eval.specs.reading.Machine.{read_of, reading, traced, with_default};
ghost use Rattle.kt_eval.specs.views.Outcome.{Gives, IfCut, Blames};
ghost use Rattle.kt_eval.specs.Outcome.{left_of};
ghost use Rattle.kt_eval.specs.declared.stop.Stop.{Stop as StopType};

use crate::evaluation::Evaluation;
use crate::fault::Fault;
use crate::files::Files;
use crate::macros::scope::Makefile;
use crate::macros::{Flavour, Macro, Macros, Origin};
use crate::reading::recipe_texts::RecipeTexts;
use crate::stop::Stop;
use crate::value::Value;
use kt_list::Sequence;
use kt_rules::{Book, RuleReader};
use std::alloc::{AllocError, Global};
use std::marker::Model;
use std::mem;

/// The result of reading makefiles.
#[derive(Drop)]
pub struct Reading {
    pub macros: Macros,
    pub book: Book,
    /// Without their newlines.
    pub messages: Sequence<Sequence<u8>>,
}

/// Reads makefiles.
#[derive(Drop)]
pub struct Machine {
    alloc: Global,
    limit: u64,
    macros: Macros,
    book: Book,
    messages: Vec<Sequence<u8>>,
    refusal: Option<Stop>,
}

impl Model for Machine {
    ghost use Rattle.kt_eval.specs.views.reading.Machine.{Machine};

    ghost Value = { Machine };

    ghost view = { λ machine. record {
      limit = machine.limit;
      table = machine.macros;
      book = machine.book;
      said = machine.messages.items;
      refusal = machine.refusal;
    } };
}

impl Machine {
    /// A machine that has read nothing yet. Sets `SHELL`, `.SHELLFLAGS` and `MAKE`, unless they are set.
    pub fn new(alloc: Global, macros: Macros, limit: u64) -> Result<Machine, AllocError>
        ensures { IfOk result (λ machine. machine ≡ new_machine limit macros) }
    {
        let mut macros = macros;
        set_default(alloc, &mut macros, b"SHELL", b"/bin/sh")?;
        set_default(alloc, &mut macros, b".SHELLFLAGS", b"-c")?;
        set_default(alloc, &mut macros, b"MAKE", b"make")?;
        Ok(Machine {
            alloc,
            limit,
            macros,
            book: Book::new(alloc)?,
            messages: Vec::new(alloc),
            refusal: None,
        })
    }

    /// Reads the first of these files that exists.
    ///
    /// After a refusal each further call returns it again, or out of memory if it can't be copied, and asks for no
    /// file. Messages are appended in order. If memory runs out or a device fails, only a prefix of them is, and only a
    /// prefix of the names is asked for. A failed device is reported with the name asked for last; after such a failure
    /// nothing else is returned.
    pub fn read_file<F: Files>(&mut self, files: &mut F, names: &[&str]) -> Result<(), Stop>
        ensures reads { self.old.refusal ≡ None → (store : Store) → AgreeWith store (F.seen files.new).answers → Gives
            (λ _. read_by self.new) result (traced_by self.new (F.seen files.new).names)
            (reading_by store (map (λ name. name.now) names.now) self.old (F.seen files.old).names) }
        ensures cut { self.old.refusal ≡ None → (store : Store) → AgreeWith store (F.seen files.new).answers
            → IfCut result (ComesBefore (traced_by self.new (F.seen files.new).names)
            (left_of (reading_by store (map (λ name. name.now) names.now) self.old (F.seen files.old).names))) }
        ensures repeats { (stop : StopType) → self.old.refusal ≡ Some stop → Repeats result stop }
        ensures untouched { (stop : StopType) → self.old.refusal ≡ Some stop → (files.new ≡ files.old)
            × (self.new ≡ self.old) }
        ensures remembers { self.old.refusal ≡ None → Remembers result self.new.refusal }
        ensures limited { self.new.limit ≡ self.old.limit }
        ensures said { IsPrefix self.old.said self.new.said }
        ensures asked { IsPrefix (F.seen files.old).names (F.seen files.new).names }
        ensures grows { AnswersGrow (F.seen files.old).answers (F.seen files.new).answers }
        ensures counts { (F.seen files.old).failed ≤ (F.seen files.new).failed }
        ensures blames { self.old.refusal ≡ None
            → Blames result (F.seen files.old) (F.seen files.new) }
    {
        if let Some(refusal) = &self.refusal {
            return Err(copy_or_memory(self.alloc, refusal));
        }
        let result = self.read(files, names);
        if let Err(stop) = &result {
            self.refusal = Some(copy_or_memory(self.alloc, stop));
        }
        result
    }

    // Reads once. Meanwhile an empty book is in place of the machine's own.
    fn read<F: Files>(&mut self, files: &mut F, names: &[&str]) -> Result<(), Stop>
        ensures reads { (store : Store) → AgreeWith store (F.seen files.new).answers → Gives (λ _. read_by self.new)
            result (traced_by self.new (F.seen files.new).names)
            (reading_by store (map (λ name. name.now) names.now) self.old (F.seen files.old).names) }
        ensures cut { (store : Store) → AgreeWith store (F.seen files.new).answers
            → IfCut result (ComesBefore (traced_by self.new (F.seen files.new).names)
            (left_of (reading_by store (map (λ name. name.now) names.now) self.old (F.seen files.old).names))) }
        ensures limited { self.new.limit ≡ self.old.limit }
        ensures refusal { self.new.refusal ≡ self.old.refusal }
        ensures said { IsPrefix self.old.said self.new.said }
        ensures asked { IsPrefix (F.seen files.old).names (F.seen files.new).names }
        ensures grows { AnswersGrow (F.seen files.old).answers (F.seen files.new).answers }
        ensures counts { (F.seen files.old).failed ≤ (F.seen files.new).failed }
        ensures blames { Blames result (F.seen files.old) (F.seen files.new) }
    {
        let empty = Book::new(self.alloc)?;
        let book = mem::replace(&mut self.book, empty);
        let macros = mem::replace(&mut self.macros, Macros::new(self.alloc));
        let messages = mem::replace(&mut self.messages, Vec::new(self.alloc));
        let makefile = Makefile { macros, book };
        let (makefile, messages, result) = read_once(
            self.alloc, self.limit, makefile, messages, files, names,
        );
        let Makefile { macros, book } = makefile;
        self.macros = macros;
        self.book = book;
        self.messages = messages;
        result
    }

    /// What was read. After a refusal the messages are those before it. Takes no memory.
    pub fn finish(self) -> Reading
        ensures { result ≡ record { macros = self.table; book = self.book; messages = self.said } }
    {
        let Machine {
            alloc: _,
            limit: _,
            macros,
            mut book,
            messages,
            refusal: _,
        } = self;
        book.finish_adding();
        Reading {
            macros,
            book,
            messages: Sequence::from(messages),
        }
    }
}

// Reads the first of these files that exists, from its first line to its end. The evaluation begins and ends here, in a
// function without branches, so that the caller has the files again.
fn read_once<F: Files>(
    alloc: Global,
    limit: u64,
    makefile: Makefile,
    messages: Vec<Sequence<u8>>,
    files: &mut F,
    names: &[&str],
) -> (Makefile, Vec<Sequence<u8>>, Result<(), Stop>)
    ensures reads { (store : Store) → AgreeWith store (F.seen files.new).answers
        → Gives (λ _. read_of result.0.macros result.0.book) result.2 (traced result.1.items (F.seen files.new).names)
        (reading store (map (λ name. name.now) names.now) limit (read_of makefile.macros makefile.book)
        (traced messages.items (F.seen files.old).names)) }
    ensures cut { (store : Store) → AgreeWith store (F.seen files.new).answers
        → IfCut result.2 (ComesBefore (traced result.1.items (F.seen files.new).names)
        (left_of (reading store (map (λ name. name.now) names.now) limit (read_of makefile.macros makefile.book)
        (traced messages.items (F.seen files.old).names)))) }
    ensures said { IsPrefix messages.items result.1.items }
    ensures asked { IsPrefix (F.seen files.old).names (F.seen files.new).names }
    ensures grows { AnswersGrow (F.seen files.old).answers (F.seen files.new).answers }
    ensures counts { (F.seen files.old).failed ≤ (F.seen files.new).failed }
    ensures blames { Blames result.2 (F.seen files.old) (F.seen files.new) }
{
    let mut evaluation = Evaluation {
        alloc,
        macros: makefile,
        frames: Vec::new(alloc),
        messages,
        place: None,
        rule: None,
        reader: RuleReader::new(alloc),
        recipe_texts: RecipeTexts::new(alloc),
        files,
    };
    let result = evaluation.read_first(limit, names);
    let Evaluation {
        alloc: _alloc,
        macros,
        frames: _frames,
        messages,
        place: _place,
        rule: _rule,
        reader: _reader,
        recipe_texts: _recipe_texts,
        files,
    } = evaluation;
    let _ = &*files;
    (macros, messages, result)
}

// Sets a deferred macro, unless it is set.
#[tactic(auto, unfolding(crate::specs::reading::Machine::with_default))]
fn set_default(
    alloc: Global,
    macros: &mut Macros,
    name: &[u8],
    value: &[u8],
) -> Result<(), AllocError>
    ensures { OnOk result (macros.new ≡ with_default name.now value.now macros.old) }
{
    if macros.get(name).is_some() {
        return Ok(());
    }
    let value = Value::copied(alloc, value)?;
    macros.insert(
        Vec::from_slice(alloc, name)?,
        Macro {
            flavour: Flavour::Deferred,
            origin: Origin::Makefile,
            value,
        },
    )
}

// A copy of the refusal, or out of memory if it can't be copied.
fn copy_or_memory(alloc: Global, stop: &Stop) -> Stop
    ensures { IsCopy result stop.now }
{
    match copy(alloc, stop) {
        Ok(copied) => copied,
        Err(_refused) => Stop::Memory,
    }
}

fn copy(alloc: Global, stop: &Stop) -> Result<Stop, AllocError>
    ensures { IfOk result (λ copied. IsCopy copied stop.now) }
{
    match stop {
        Stop::Fault(fault) => Ok(Stop::Fault(copy_fault(alloc, fault)?)),
        Stop::Device(name) => Ok(Stop::Device(name.as_str().to_string(alloc)?)),
        Stop::Memory => Ok(Stop::Memory),
    }
}

fn copy_fault(alloc: Global, fault: &Fault) -> Result<Fault, AllocError>
    ensures { IfOk result (λ copied. copied ≡ fault.now) }
{
    let place = match &fault.place {
        None => None,
        Some(place) => Some(place.share()?),
    };
    let words = Vec::from_slice(alloc, fault.words.as_slice())?;
    Ok(Fault {
        place,
        number: fault.number,
        words: Sequence::from(words),
    })
}
