//! Names that are refused or special.
//! Fast: special names are looked for behind a dot alone. Spares a comparison with each of them, for most names.
ghost use Rattle.std.specs.Prelude.{◌≡◌, ◌==◌, nat_eq};
ghost use Rattle.std.specs.List.{list_any};
ghost use Rattle.std.specs.Cmp.Lexicographic.{pointwise};
ghost use Rattle.kt_text.specs.Functions.{quotes_percent};
ghost use Rattle.kt_rules.specs.Names.{is_member, is_refused_name, is_refused_target, is_special, is_wildcard};
ghost use Rattle.kt_rules.specs.Names.{is_without_effect};
ghost use Rattle.kt_rules.specs.inner.Telling.{is_telling, tells_early};
ghost use Rattle.kt_rules.specs.Book.{begins_with_dot};

use crate::name::has_backslash;
use memchr::memmem;

/// The name that orders prerequisites in GNU make, which kati refuses.
pub(crate) const WAIT: &[u8] = b".WAIT";

// Whether kati refuses the name. Each refused name has one of a few bytes, which few names have.
#[tactic(auto, using(crate::proofs::lemmas::line::RefusedLemmas::plain_name_taken))]
pub(crate) fn is_refused_name(name: &[u8]) -> bool
    ensures { result ≡ is_refused_name name.now }
{
    has_telling_byte(name) && is_refused(name)
}

pub(crate) fn has_telling_byte(name: &[u8]) -> bool
    ensures { result ≡ list_any is_telling name.now }
{
    // Names are short: a loop is faster than `any`, which tests bytes in groups.
    for byte in name {
        if is_telling(*byte) {
            return true;
        }
    }
    false
}

// The tilde is the last of these bytes: one comparison rules out the others for small letters, which most bytes of
// names are.
#[tactic(auto, using(crate::proofs::lemmas::line::RefusedLemmas::last_tells, crate::proofs::lemmas::line::RefusedLemmas::others_tell))]
fn is_telling(byte: u8) -> bool
    ensures { result ≡ is_telling byte }
{
    if byte > b'\\' {
        byte == b'~'
    } else {
        tells_early(byte)
    }
}

#[tactic(auto, unfolding(crate::specs::Names::is_wildcard))]
fn tells_early(byte: u8) -> bool
    ensures { result ≡ tells_early byte }
{
    matches!(byte, b'*' | b'?' | b'[' | b'\\' | b')')
}

// As `is_refused_name`, for a name that has such a byte.
#[tactic(auto, unfolding(crate::specs::Names::is_refused_name))]
fn is_refused(name: &[u8]) -> bool
    ensures { result ≡ is_refused_name name.now }
{
    has_wildcard(name) || quotes_percent(name) || name.starts_with(b"~") || is_member(name)
}

fn has_wildcard(name: &[u8]) -> bool
    ensures { result ≡ list_any is_wildcard name.now }
{
    name.iter().any(|byte| is_wildcard(*byte))
}

#[tactic(auto, unfolding(crate::specs::Names::is_wildcard))]
fn is_wildcard(byte: u8) -> bool
    ensures { result ≡ is_wildcard byte }
{
    matches!(byte, b'*' | b'?' | b'[')
}

// Whether the name has a quoted percent sign. Few names have a backslash.
#[tactic(auto, using(crate::proofs::lemmas::line::BackslashLemmas::quotes_no_percent))]
fn quotes_percent(name: &[u8]) -> bool
    ensures { result ≡ quotes_percent name.now }
{
    has_backslash(name) && finds_quoted_percent(name)
}

fn finds_quoted_percent(name: &[u8]) -> bool
    ensures { result ≡ quotes_percent name.now }
{
    memmem::find(name, b"\\%").is_some()
}

// Whether the name is that of an archive member.
#[tactic(auto, unfolding(crate::specs::Names::is_member))]
fn is_member(name: &[u8]) -> bool
    ensures { result ≡ is_member name.now }
{
    match name {
        [_, rest @ ..] => name.ends_with(b")") && has_parenthesis(rest),
        [] => false,
    }
}

fn has_parenthesis(name: &[u8]) -> bool
    ensures { result ≡ list_any (λ byte. byte == 40) name.now }
{
    name.iter().any(|byte| *byte == b'(')
}

// Whether the special target is accepted and does nothing.
#[tactic(auto, unfolding(crate::specs::Names::is_without_effect))]
pub(crate) fn is_without_effect(name: &[u8]) -> bool
    ensures { result ≡ is_without_effect name.now }
{
    are_same(name, b".POSIX")
        || are_same(name, b".PRECIOUS")
        || are_same(name, b".SECONDARY")
        || are_same(name, b".INTERMEDIATE")
        || are_same(name, b".SILENT")
        || are_same(name, b".DELETE_ON_ERROR")
        || are_same(name, b".NOTPARALLEL")
}

// Whether the name is that of a special target that is accepted. Few names begin with a dot.
#[tactic(auto, using(crate::proofs::lemmas::line::SpecialLemmas::plain_name))]
pub(crate) fn is_special(name: &[u8]) -> bool
    ensures { result ≡ is_special name.now }
{
    begins_with_dot(name) && is_special_name(name)
}

// As `is_special`, for a name that begins with a dot.
#[tactic(auto, unfolding(crate::specs::Names::is_special))]
fn is_special_name(name: &[u8]) -> bool
    ensures { result ≡ is_special name.now }
{
    are_same(name, b".PHONY") || are_same(name, b".SUFFIXES") || is_without_effect(name)
}

fn begins_with_dot(name: &[u8]) -> bool
    ensures { result ≡ begins_with_dot name.now }
{
    matches!(name, [b'.', ..])
}

// Whether the name is that of a special target that kati refuses. Few names begin with a dot.
#[tactic(auto, using(crate::proofs::lemmas::line::SpecialLemmas::plain_target))]
pub(crate) fn is_refused_target(name: &[u8]) -> bool
    ensures { result ≡ is_refused_target name.now }
{
    begins_with_dot(name) && is_refused_special(name)
}

// As `is_refused_target`, for a name that begins with a dot.
#[tactic(auto, unfolding(crate::specs::Names::is_refused_target))]
fn is_refused_special(name: &[u8]) -> bool
    ensures { result ≡ is_refused_target name.now }
{
    are_same(name, b".SECONDEXPANSION")
        || are_same(name, b".ONESHELL")
        || are_same(name, b".DEFAULT")
        || are_same(name, b".IGNORE")
        || are_same(name, WAIT)
        || are_same(name, b".EXPORT_ALL_VARIABLES")
}

pub(crate) fn are_same(name: &[u8], other: &[u8]) -> bool
    ensures { result ≡ pointwise nat_eq name.now other.now }
{
    name == other
}
