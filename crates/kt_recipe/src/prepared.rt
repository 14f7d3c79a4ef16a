//! Texts of which all but the automatic macros is known before any node is.
//! Fast: a line of which all but the automatic macros is known, calls of text functions and conditions too, is
//! expanded once, to pieces. Spares the search for references, a hash for each macro, and each call.
ghost use Rattle.std.specs.Prelude.{◌≡◌, ◌++◌, [], IfOk, IfSome, OnOk, false, map, option_map, true};
ghost use Rattle.kt_text.specs.Words.{stripped};
ghost use Rattle.kt_syntax.specs.Terms.{reference};
ghost use Rattle.kt_syntax.specs.views.Terms.{token_of};
ghost use Rattle.kt_eval.specs.State.{lookup};
ghost use Rattle.kt_eval.specs.expanding.Expansion.{apply, apply_if, apply_text, each_argument, expanded, flavoured};
ghost use Rattle.kt_eval.specs.expanding.Expansion.{term_of, value_of};
ghost use Rattle.kt_eval.specs.expanding.Levels.{evaluator};
ghost use Rattle.kt_recipe.specs.inner.Prepared.{Adds, AddsMacro, AddsResult, AddsText, AreText, IsKnown, IsPrepared};
ghost use Rattle.kt_recipe.specs.inner.Prepared.{filled};

use crate::automatic::put_told;
use crate::forms::NamePart;
use crate::subjects::{Subject, asked_by};
use kt_eval::{
    Flavour, Function, Macros, Request, TextFunction, Value, names_plainly, text_result,
};
use kt_graph::Node;
use kt_syntax::{Mark, Term, Unterminated, terms};
use kt_text::{TextFault, stripped};
use std::alloc::{AllocError, Global};

/// An automatic macro, and the text before it.
#[derive(Drop)]
pub(crate) struct Gap {
    before: Value,
    subject: Subject,
    form: NamePart,
}

/// What a text expands to in the recipe of any node: what is known, with the automatic macros in between.
#[derive(Drop)]
pub(crate) struct PreparedText {
    alloc: Global,
    gaps: Vec<Gap>,
    end: Vec<u8>,
}

impl PreparedText {
    /// The pieces of a text, if all but automatic macros is known: it has only literals, plain names, text functions
    /// without an automatic macro in their arguments, and `if` without one in its condition, and so have the values of
    /// the names that are expanded at each use.
    pub(crate) fn of(
        alloc: Global,
        macros: &Macros,
        limit: u64,
        text: &[u8],
    ) -> Result<Option<PreparedText>, AllocError>
        ensures quick { IfOk result (λ found. IfSome found (λ pieces. IsPrepared macros.now limit text.now pieces)) }
    {
        let mut pieces = PreparedText::none(alloc);
        if put_text(macros, limit, text, &mut pieces)? {
            Ok(Some(pieces))
        } else {
            Ok(None)
        }
    }

    fn none(alloc: Global) -> PreparedText
        ensures gaps { result.gaps.items ≡ [] }
        ensures end { result.end.items ≡ [] }
    {
        PreparedText {
            alloc,
            gaps: Vec::new(alloc),
            end: Vec::new(alloc),
        }
    }

    // The text of pieces without an automatic macro.
    #[tactic(auto, unfolding(crate::specs::inner::Prepared::filled, crate::specs::inner::Prepared::filled_gaps))]
    fn whole(self) -> Option<Vec<u8>>
        ensures quick { IfSome result (λ text. AreText self text.items) }
    {
        let PreparedText {
            alloc: _alloc,
            gaps,
            end,
        } = self;
        if gaps.is_empty() { Some(end) } else { None }
    }

    /// Appends what the text expands to in a part of a node.
    #[tactic(auto, unfolding(crate::specs::inner::Prepared::filled, crate::specs::inner::Prepared::filled_gaps))]
    pub(crate) fn fill(&self, node: &Node, part: usize, out: &mut Vec<u8>) -> Result<(), AllocError>
        ensures { OnOk result (out.new.items ≡ out.old.items ++ filled node.now part self.now) }
    {
        for gap in &self.gaps {
            out.extend_from_slice(gap.before.as_slice())?;
            put_told(self.alloc, node, part, gap.subject, gap.form, out)?;
        }
        out.extend_from_slice(&self.end)
    }
}

// Appends the expansion of a text. Returns whether all of it is known; if not, the pieces are of no use.
#[cycle(prepare)]
fn put_text(
    macros: &Macros,
    limit: u64,
    text: &[u8],
    pieces: &mut PreparedText,
) -> Result<bool, AllocError>
    ensures quick { IfOk result (λ known. known ≡ true
        → Adds macros.now (expanded (evaluator false [] limit) text.now) pieces.old pieces.new) }
{
    let mut rest = terms(text);
    'terms: while let Some(term) = rest.next() {
        if !put_term(macros, limit, term, pieces)? {
            return Ok(false);
        }
    }
    Ok(true)
}

#[cycle(prepare)]
fn put_term(
    macros: &Macros,
    limit: u64,
    term: Result<Term<'_>, Unterminated>,
    pieces: &mut PreparedText,
) -> Result<bool, AllocError>
    ensures quick { IfOk result (λ known. known ≡ true
        → Adds macros.now (term_of (evaluator false [] limit) (token_of term.entry)) pieces.old pieces.new) }
{
    match term {
        Ok(Term::Lit(bytes)) => put_known(pieces, bytes),
        Ok(Term::Dollar) => put_known(pieces, b"$"),
        Ok(Term::Ref(mark, body)) => {
            if names_plainly(mark, body) {
                return put_name(macros, limit, body, pieces);
            }
            put_asked(macros, limit, mark, body, pieces)
        }
        Err(Unterminated) => Ok(false),
    }
}

// Appends the expansion of a reference that isn't just a name: that of a call may be known.
#[cycle(prepare)]
fn put_asked(
    macros: &Macros,
    limit: u64,
    mark: Mark,
    body: &[u8],
    pieces: &mut PreparedText,
) -> Result<bool, AllocError>
    ensures quick { IfOk result (λ known. known ≡ true
        → Adds macros.now (term_of (evaluator false [] limit) (reference mark body.now)) pieces.old pieces.new) }
{
    match Request::by(pieces.alloc, mark, body)? {
        Request::Calls(function, arguments) => {
            put_call(macros, limit, function, &arguments, pieces)
        }
        Request::Refuses(_) | Request::Refers(_) => Ok(false),
    }
}

// Appends what a function gives, which is known only of text functions and of `if`.
#[cycle(prepare)]
#[tactic(auto, unfolding(kt_eval::specs::expanding::Expansion::apply))]
fn put_call(
    macros: &Macros,
    limit: u64,
    function: Function,
    arguments: &[&[u8]],
    pieces: &mut PreparedText,
) -> Result<bool, AllocError>
    ensures quick { IfOk result (λ known. known ≡ true
        → Adds macros.now (apply (evaluator false [] limit) function (map (λ a. a.now) arguments.now))
        pieces.old pieces.new) }
{
    match function {
        Function::Text(text_function) => {
            put_applied(macros, limit, text_function, arguments, pieces)
        }
        Function::If => match arguments {
            [condition, chosen] => put_if(macros, limit, condition, chosen, None, pieces),
            [condition, chosen, other] => {
                put_if(macros, limit, condition, chosen, Some(other), pieces)
            }
            _ => Ok(false),
        },
        _ => Ok(false),
    }
}

#[cycle(prepare)]
fn put_applied(
    macros: &Macros,
    limit: u64,
    function: TextFunction,
    texts: &[&[u8]],
    pieces: &mut PreparedText,
) -> Result<bool, AllocError>
    ensures quick { IfOk result (λ known. known ≡ true
        → Adds macros.now (apply_text (evaluator false [] limit) function (map (λ a. a.now) texts.now))
        pieces.old pieces.new) }
{
    if texts.len() != function.arity() {
        return Ok(false);
    }
    match known_arguments(pieces.alloc, macros, limit, texts)? {
        Some(arguments) => put_result(function, &arguments, pieces),
        None => Ok(false),
    }
}

// The expansion of each argument, if all are known.
#[cycle(prepare)]
fn known_arguments(
    alloc: Global,
    macros: &Macros,
    limit: u64,
    texts: &[&[u8]],
) -> Result<Option<Vec<Value>>, AllocError>
    ensures quick { IfOk result (λ found. IfSome found (λ values. IsKnown macros.now
        (each_argument (evaluator false [] limit) [] (map (λ a. a.now) texts.now)) values.items)) }
{
    let mut values = Vec::new(alloc);
    let mut place = 0;
    'arguments: while place < texts.len() {
        match known_text(alloc, macros, limit, texts[place])? {
            Some(text) => values.push(Value::from_vec(text)?)?,
            None => return Ok(None),
        }
        place += 1;
    }
    Ok(Some(values))
}

// Appends the branch that is taken, if the condition is known.
#[cycle(prepare)]
fn put_if(
    macros: &Macros,
    limit: u64,
    condition: &[u8],
    chosen: &[u8],
    other: Option<&[u8]>,
    pieces: &mut PreparedText,
) -> Result<bool, AllocError>
    ensures quick { IfOk result (λ known. known ≡ true
        → Adds macros.now (apply_if (evaluator false [] limit) condition.now chosen.now
        (option_map (λ t. t.now) other.entry)) pieces.old pieces.new) }
{
    match known_text(pieces.alloc, macros, limit, stripped(condition))? {
        None => Ok(false),
        Some(text) => {
            if !text.is_empty() {
                return put_deeper(macros, limit, chosen, pieces);
            }
            match other {
                None => Ok(true),
                Some(other) => put_deeper(macros, limit, other, pieces),
            }
        }
    }
}

// The expansion of a text one level deeper, if it is known and has no automatic macro.
#[cycle(prepare)]
fn known_text(
    alloc: Global,
    macros: &Macros,
    limit: u64,
    text: &[u8],
) -> Result<Option<Vec<u8>>, AllocError>
    ensures quick { IfOk result (λ found. IfSome found (λ bytes. IsKnown macros.now
        ((evaluator false [] limit).expand text.now) bytes.items)) }
{
    let mut pieces = PreparedText::none(alloc);
    if put_deeper(macros, limit, text, &mut pieces)? {
        Ok(pieces.whole())
    } else {
        Ok(None)
    }
}

// Appends the value of a name: that of an automatic macro isn't known.
#[cycle(prepare)]
fn put_name(
    macros: &Macros,
    limit: u64,
    name: &[u8],
    pieces: &mut PreparedText,
) -> Result<bool, AllocError>
    ensures quick { IfOk result (λ known. known ≡ true
        → Adds macros.now (λ w. value_of (evaluator false [] limit) (lookup name.now w) w) pieces.old pieces.new) }
{
    if let Some((subject, form)) = asked_by(name) {
        return put_gap(pieces, subject, form);
    }
    match macros.get(name) {
        Some(entry) => put_value(macros, limit, entry.flavour, entry.value.as_slice(), pieces),
        None => Ok(true),
    }
}

#[cycle(prepare)]
fn put_value(
    macros: &Macros,
    limit: u64,
    flavour: Flavour,
    value: &[u8],
    pieces: &mut PreparedText,
) -> Result<bool, AllocError>
    ensures quick { IfOk result (λ known. known ≡ true
        → Adds macros.now (flavoured (evaluator false [] limit) flavour value.now) pieces.old pieces.new) }
{
    match flavour {
        Flavour::Immediate => put_known(pieces, value),
        Flavour::Deferred => put_deeper(macros, limit, value, pieces),
    }
}

// Appends the expansion of a text one level deeper.
#[cycle(prepare)]
fn put_deeper(
    macros: &Macros,
    limit: u64,
    text: &[u8],
    pieces: &mut PreparedText,
) -> Result<bool, AllocError>
    ensures quick { IfOk result (λ known. known ≡ true
        → Adds macros.now ((evaluator false [] limit).expand text.now) pieces.old pieces.new) }
{
    if limit == 0 {
        return Ok(false);
    }
    put_text(macros, limit - 1, text, pieces)
}

fn put_known(pieces: &mut PreparedText, bytes: &[u8]) -> Result<bool, AllocError>
    ensures { IfOk result (λ _. AddsText bytes.now pieces.old pieces.new) }
{
    pieces.end.extend_from_slice(bytes)?;
    Ok(true)
}

// Appends what a text function gives, unless it refuses its arguments.
fn put_result(
    function: TextFunction,
    arguments: &[Value],
    pieces: &mut PreparedText,
) -> Result<bool, AllocError>
    ensures quick { IfOk result (λ known. known ≡ true → AddsResult function arguments.now pieces.old pieces.new) }
{
    match text_result(pieces.alloc, function, arguments) {
        Ok(text) => put_known(pieces, &text),
        Err(TextFault::BadArgument) => Ok(false),
        Err(TextFault::Memory) => Err(AllocError),
    }
}

// Appends an automatic macro, which takes the text before it.
fn put_gap(pieces: &mut PreparedText, subject: Subject, form: NamePart) -> Result<bool, AllocError>
    ensures { IfOk result (λ _. AddsMacro subject form pieces.old pieces.new) }
{
    let before = Value::copied(pieces.alloc, &pieces.end)?;
    pieces.gaps.push(Gap {
        before,
        subject,
        form,
    })?;
    pieces.end.clear();
    Ok(true)
}
