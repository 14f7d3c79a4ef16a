//! The terms of a text, one after another.
ghost use Rattle.std.specs.Prelude.{◌≡◌, List};
ghost use Rattle.std.specs.Iterator.{YieldsFirstBy, item_count};
ghost use Rattle.kt_syntax.specs.Terms.{Term as TermSeen, terms_of};
ghost use Rattle.kt_syntax.specs.views.Terms.{token_of};

use crate::next_term::next_term;
use crate::term::{Term, Unterminated};
use std::marker::Model;

/// The terms of a text, in order; `Unterminated` is the last item.
///
/// Each one borrows the text that `terms` was given.
#[derive(Drop)]
pub struct Terms<'a> {
    rest: &'a [u8],
}

impl<'a> Model for Terms<'a> {
    ghost Value = { List TermSeen };

    ghost view = { λ terms. terms_of terms.rest.now };
}

impl<'a> Terms<'a> {
    pub(crate) fn new(text: &'a [u8]) -> Terms<'a>
        ensures { result ≡ terms_of text.now }
    {
        Terms { rest: text }
    }
}

impl<'a> Iterator for Terms<'a> {
    type Item = Result<Term<'a>, Unterminated>;

    ghost next_gives = { YieldsFirstBy token_of (λ rest. rest) };

    ghost remaining = { item_count (λ rest. rest) };

    fn next(&mut self) -> Option<Result<Term<'a>, Unterminated>> {
        let (term, rest) = next_term(self.rest)?;
        self.rest = rest;
        Some(term)
    }
}
