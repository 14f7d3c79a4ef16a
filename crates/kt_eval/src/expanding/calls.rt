//! What references ask for.
ghost use Rattle.std.specs.Prelude.{◌≡◌, ◌≤◌, ◌+◌, ◌-◌, ◌==◌, ◌∷◌, [], IfOk, OnOk, ◌++◌, length, map, not};
ghost use Rattle.std.specs.Prelude.{Some, MatchOption, true, false, ◌<◌, ◌^◌};
ghost use Rattle.std.specs.List.{after_first, before_first, list_all, list_any, position_or_len};
ghost use Rattle.std.specs.Str.{bytes_eq};
ghost use Rattle.kt_text.specs.Words.{is_separator};
ghost use Rattle.kt_eval.specs.expanding.Calls.{arguments_of, asked_of, byte_name, closer, request_by_mark};
ghost use Rattle.kt_eval.specs.views.expanding.Calls.{asked_view, is_name_byte, names_plainly};
ghost use Rattle.kt_eval.specs.expanding.Calls.{commas, cuts_arguments, function_of, is_function_name};
ghost use Rattle.kt_eval.specs.expanding.Calls.{is_refused_function, may_cut, naming_of, nested, one_less};
ghost use Rattle.kt_eval.specs.expanding.Calls.{opener, other_function};
ghost use Rattle.kt_eval.specs.inner.Views.{naming_view};

use crate::expanding::function::Function;
use kt_syntax::Mark;
use kt_text::functions::TextFunction;
use kt_text::{has_percent, is_separator, stripped_start};
use memchr::memchr;
use std::alloc::{AllocError, Global};

/// What a reference asks for.
#[derive(Drop)]
pub enum Request<'a> {
    /// A call of a function with its arguments, unexpanded.
    Calls(Function, Vec<&'a [u8]>),
    /// A call of a function with this name, which is refused.
    Refuses(&'a [u8]),
    /// The macro that this body names once it is expanded.
    Refers(&'a [u8]),
}

impl<'a> Request<'a> {
    /// What a reference asks for, from its mark and its body.
    #[tactic(auto, unfolding(crate::specs::expanding::Calls::request_by_mark))]
    pub fn by(alloc: Global, mark: Mark, body: &'a [u8]) -> Result<Request<'a>, AllocError>
        ensures { IfOk result (λ asked. asked_view asked ≡ request_by_mark mark body.now) }
    {
        match mark {
            Mark::Byte => Ok(Request::Refers(byte_name(body))),
            Mark::Parentheses | Mark::Braces => asked_of(alloc, mark, body),
        }
    }
}

/// A name alone, or one with a pattern and a replacement for the words of its value.
#[derive(Drop)]
pub(crate) enum Naming<'a> {
    Plainly(&'a [u8]),
    Substituting(&'a [u8], Vec<u8>, Vec<u8>),
}

// The name in a reference of one byte.
fn byte_name(body: &[u8]) -> &[u8]
    ensures { result.now ≡ byte_name body.now }
{
    if body.len() == 1 { body } else { b" " }
}

// A function's name directly after the opening mark, with a separator after it, makes a call.
#[tactic(auto, unfolding(crate::specs::expanding::Calls::asked_of))]
fn asked_of(alloc: Global, mark: Mark, body: &[u8]) -> Result<Request<'_>, AllocError>
    ensures { IfOk result (λ asked. asked_view asked ≡ asked_of mark body.now) }
{
    let place = word_end(body);
    if place == body.len() {
        return Ok(Request::Refers(body));
    }
    let name = &body[..place];
    match function_of(name) {
        Some(function) => {
            let rest = stripped_start(&body[place..]);
            Ok(Request::Calls(function, arguments_of(alloc, mark, commas(function), rest)?))
        }
        None if is_refused_function(name) => Ok(Request::Refuses(name)),
        None => Ok(Request::Refers(body)),
    }
}

/// Whether the body of a reference is just the name of a macro, without a reference in it. A body with a colon may be a
/// substitution reference, and isn't taken for a name.
#[tactic(auto, unfolding(crate::specs::views::expanding::Calls::names_plainly))]
pub fn names_plainly(mark: Mark, body: &[u8]) -> bool
    ensures { result ≡ names_plainly mark body.now }
{
    match mark {
        Mark::Byte => body.len() == 1 && is_plain_name(body),
        Mark::Parentheses | Mark::Braces => is_plain_name(body),
    }
}

fn is_plain_name(body: &[u8]) -> bool
    ensures { result ≡ list_all is_name_byte body.now }
{
    body.iter().all(|byte| is_name_byte(*byte))
}

// Neither a dollar, nor a colon, nor a separator.
#[tactic(auto, unfolding(crate::specs::views::expanding::Calls::is_name_byte))]
fn is_name_byte(byte: u8) -> bool
    ensures { result ≡ is_name_byte byte }
{
    byte != b'$' && byte != b':' && !is_separator(byte)
}

// The number of bytes before the first separator.
fn word_end(text: &[u8]) -> usize
    ensures value { result ≡ position_or_len is_separator text.now }
    ensures bound { result ≤ length text.now }
{
    text.iter().take_while(|byte| !is_separator(**byte)).count()
}

// The arguments, cut at commas outside nested marks of the reference's own kind.
#[tactic(auto, unfolding(crate::specs::expanding::Calls::arguments_of, crate::specs::expanding::Calls::arguments_from))]
fn arguments_of(
    alloc: Global,
    mark: Mark,
    commas: Option<usize>,
    text: &[u8],
) -> Result<Vec<&[u8]>, AllocError>
    ensures { IfOk result (λ arguments. map (λ argument. argument.now) arguments.items
        ≡ arguments_of mark commas text.now) }
{
    let mut arguments = Vec::new(alloc);
    let mut left = commas;
    let mut depth: usize = 0;
    let mut start = 0;
    for (place, byte) in text.iter().enumerate() {
        if cuts(*byte, depth, left) {
            push(&mut arguments, &text[start..place])?;
            left = one_less(left);
            start = place + 1;
        } else {
            depth = nested(mark, depth, *byte);
        }
    }
    push(&mut arguments, &text[start..])?;
    Ok(arguments)
}

fn push<'a>(arguments: &mut Vec<&'a [u8]>, argument: &'a [u8]) -> Result<(), AllocError>
    ensures { OnOk result (map (λ a. a.now) arguments.new.items ≡ map (λ a. a.now) arguments.old.items
        ++ argument.now ∷ []) }
{
    arguments.push(argument)?;
    Ok(())
}

// Whether a byte cuts: a comma that isn't nested, if one more may cut.
fn cuts(byte: u8, depth: usize, left: Option<usize>) -> bool
    ensures { result ≡ cuts_arguments byte depth left }
{
    byte == b',' && depth == 0 && may_cut(left)
}

fn may_cut(left: Option<usize>) -> bool
    ensures { result ≡ may_cut left }
{
    left != Some(0)
}

fn one_less(left: Option<usize>) -> Option<usize>
    ensures { result ≡ one_less left }
{
    match left {
        None => None,
        Some(more) => Some(more.saturating_sub(1)),
    }
}

fn nested(mark: Mark, depth: usize, byte: u8) -> usize
    requires { depth < 2 ^ 63 }
    ensures value { result ≡ nested mark depth byte }
    ensures bound { result ≤ depth + 1 }
{
    if byte == opener(mark) {
        depth + 1
    } else if byte == closer(mark) {
        depth.saturating_sub(1)
    } else {
        depth
    }
}

fn opener(mark: Mark) -> u8
    ensures { result ≡ opener mark }
{
    match mark {
        Mark::Braces => b'{',
        Mark::Parentheses | Mark::Byte => b'(',
    }
}

fn closer(mark: Mark) -> u8
    ensures { result ≡ closer mark }
{
    match mark {
        Mark::Braces => b'}',
        Mark::Parentheses | Mark::Byte => b')',
    }
}

// The name in an expanded body, with a pattern and a replacement if it has them.
#[tactic(auto, unfolding(crate::specs::expanding::Calls::naming_of))]
pub(crate) fn name_in(alloc: Global, body: &[u8]) -> Result<Naming<'_>, AllocError>
    ensures { IfOk result (λ named. naming_view named ≡ naming_of body.now) }
{
    let Some((name, rest)) = cut_at(b':', body) else {
        return Ok(Naming::Plainly(body));
    };
    let Some((pattern, replacement)) = cut_at(b'=', rest) else {
        return Ok(Naming::Plainly(body));
    };
    if has_percent(pattern) {
        return Ok(Naming::Substituting(
            name,
            Vec::from_slice(alloc, pattern)?,
            Vec::from_slice(alloc, replacement)?,
        ));
    }
    Ok(Naming::Substituting(
        name,
        after_percent(alloc, pattern)?,
        after_percent(alloc, replacement)?,
    ))
}

// The text before the first such byte, and the text after it.
fn cut_at(wanted: u8, text: &[u8]) -> Option<(&[u8], &[u8])>
    ensures { MatchOption result (list_any (λ byte. byte == wanted) text.now ≡ false)
        (λ cut. (list_any (λ byte. byte == wanted) text.now ≡ true)
        × (cut.0.now ≡ before_first (λ byte. byte == wanted) text.now)
        × (cut.1.now ≡ after_first (λ byte. byte == wanted) text.now)) }
{
    let place = memchr(wanted, text)?;
    Some((&text[..place], &text[place + 1..]))
}

fn after_percent(alloc: Global, text: &[u8]) -> Result<Vec<u8>, AllocError>
    ensures { IfOk result (λ whole. whole.items ≡ 37 ∷ text.now) }
{
    let mut whole = Vec::from_slice(alloc, b"%")?;
    whole.extend_from_slice(text)?;
    Ok(whole)
}

// The function with this name. No name is that of two, and those that modules are made of are looked for first.
#[tactic(auto, unfolding(crate::specs::expanding::Calls::function_of))]
fn function_of(name: &[u8]) -> Option<Function>
    ensures { result ≡ function_of name.now }
{
    match other_function(name) {
        Some(function) => Some(function),
        None => match TextFunction::named(name) {
            Some(function) => Some(Function::Text(function)),
            None => None,
        },
    }
}

#[tactic(auto, unfolding(crate::specs::expanding::Calls::other_function))]
fn other_function(name: &[u8]) -> Option<Function>
    ensures { result ≡ other_function name.now }
{
    if is_name(name, b"if") {
        Some(Function::If)
    } else if is_name(name, b"or") {
        Some(Function::Or)
    } else if is_name(name, b"and") {
        Some(Function::And)
    } else if is_name(name, b"foreach") {
        Some(Function::Foreach)
    } else if is_name(name, b"call") {
        Some(Function::Call)
    } else if is_name(name, b"value") {
        Some(Function::Value)
    } else if is_name(name, b"eval") {
        Some(Function::Eval)
    } else if is_name(name, b"error") {
        Some(Function::Error)
    } else if is_name(name, b"warning") {
        Some(Function::Warning)
    } else if is_name(name, b"info") {
        Some(Function::Info)
    } else {
        None
    }
}

#[tactic(auto, unfolding(crate::specs::expanding::Calls::is_refused_function))]
fn is_refused_function(name: &[u8]) -> bool
    ensures { result ≡ is_refused_function name.now }
{
    is_name(name, b"shell")
        || is_name(name, b"wildcard")
        || is_name(name, b"realpath")
        || is_name(name, b"abspath")
        || is_name(name, b"origin")
        || is_name(name, b"flavor")
        || is_name(name, b"file")
        || is_name(name, b"guile")
        || is_name(name, b"let")
        || is_name(name, b"intcmp")
}

// Whether a function has this name, refused or not.
pub(crate) fn is_function_name(name: &[u8]) -> bool
    ensures { result ≡ is_function_name name.now }
{
    function_of(name).is_some() || is_refused_function(name)
}

fn is_name(name: &[u8], other: &[u8]) -> bool
    ensures { result ≡ bytes_eq name.now other.now }
{
    name == other
}

// The maximum number of commas at which the arguments are cut, if there is a limit.
fn commas(function: Function) -> Option<usize>
    ensures { result ≡ commas function }
{
    match function {
        Function::Text(text_function) => Some(text_function.arity() - 1),
        Function::Or | Function::And | Function::Call => None,
        Function::If | Function::Foreach => Some(2),
        Function::Value | Function::Eval | Function::Error | Function::Warning | Function::Info =>
            Some(0),
    }
}
