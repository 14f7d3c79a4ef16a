//! Texts cut into terms.
ghost use Rattle.std.specs.Prelude.{◌≡◌, ◌≤◌, List, length};
ghost use Rattle.kt_syntax.specs.views.Terms.{IsSplitting};
ghost use Rattle.kt_syntax.specs.Terms.{Term, terms_of};

use crate::term_list::Terms;

/// The terms of `text`, from left to right.
///
/// There are no continuations in it: a backslash and a newline are two bytes. Takes no memory, and
/// each byte is looked at once. POSIX.1-2024 make, "Macros"; GNU make manual, "Basics of Variable
/// References".
pub fn terms(text: &[u8]) -> Terms<'_>
    ensures value { result ≡ terms_of text.now }
    ensures splits { IsSplitting text.now result }
    ensures one { (pieces : List Term) → IsSplitting text.now pieces → pieces ≡ result }
    ensures count { length result ≤ length text.now }
{
    Terms::new(text)
}
