//! Where Ninja wants a dollar before a byte.
//! Fast: a short name is looked through byte by byte, a longer one by many bytes at once. Spares half of the look at a
//! name of usual length.
ghost use Rattle.std.specs.Prelude.{◌<◌, ◌≡◌, IfSome, length};
ghost use Rattle.memchr.specs.Find.{IsFirstByte};
ghost use Rattle.kt_ninja.specs.inner.Escaping.{is_escaped};
ghost use Rattle.kt_ninja.specs.Text.{is_special_in_name};

use memchr::{memchr, memchr3};

// From this many bytes on a name is looked through by many bytes at once.
const LONG: usize = 32;

/// What is escaped (Ninja manual, "Lexical syntax").
#[derive(Clone, Copy)]
pub enum Escapes {
    /// In a path: dollar, space and colon.
    InName,
    /// In a value: the dollar.
    InCommand,
}

impl Escapes {
    /// The place of the first special byte.
    pub fn first_in(self, text: &[u8]) -> Option<usize>
        ensures first { IsFirstByte (is_escaped self) text.now result }
        ensures within { IfSome result (λ at. at < length text.now) }
    {
        match self {
            Escapes::InName => first_in_name(text),
            Escapes::InCommand => memchr(b'$', text),
        }
    }
}

// The place of the first byte that is special in a name.
fn first_in_name(text: &[u8]) -> Option<usize>
    ensures first { IsFirstByte is_special_in_name text.now result }
    ensures within { IfSome result (λ at. at < length text.now) }
{
    if text.len() < LONG {
        first_by_byte(text)
    } else {
        memchr3(b'$', b' ', b':', text)
    }
}

// As `first_in_name`, by a look at each byte.
fn first_by_byte(text: &[u8]) -> Option<usize>
    ensures first { IsFirstByte is_special_in_name text.now result }
    ensures within { IfSome result (λ at. at < length text.now) }
{
    for at in 0..text.len() {
        if is_special_in_name(text[at]) {
            return Some(at);
        }
    }
    None
}

#[inline(always)]
fn is_special_in_name(byte: u8) -> bool
    ensures { result ≡ is_special_in_name byte }
{
    matches!(byte, b'$' | b' ' | b':')
}
