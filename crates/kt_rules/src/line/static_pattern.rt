//! The target pattern of a static pattern rule.
ghost use Rattle.std.specs.Prelude.{◌≡◌, IfOk, is_none, option_map};

use crate::line::entry::Name;
use std::alloc::{AllocError, Global};
use std::boxed::Box;
use std::marker::Model;

/// The target pattern of a static pattern rule, if there is one. Most rules have none, which takes a word.
#[derive(Drop)]
pub(crate) struct StaticPattern {
    name: Option<Box<Name>>,
}

impl Model for StaticPattern {
    ghost use Rattle.std.specs.Prelude.{Option, option_map};
    ghost use Rattle.kt_text.specs.Words.{Text};

    ghost Value = { Option Text };

    ghost view = { λ pattern. option_map (λ name. name.value) pattern.name };
}

impl StaticPattern {
    /// The pattern of a line.
    pub(crate) fn of(alloc: Global, name: Option<Name>) -> Result<StaticPattern, AllocError>
        ensures { IfOk result (λ pattern. pattern ≡ name) }
    {
        match name {
            Some(name) => Ok(StaticPattern {
                name: Some(Box::new(alloc, name)?),
            }),
            None => Ok(StaticPattern { name: None }),
        }
    }

    /// Its bytes, if there is one.
    pub(crate) fn text(&self) -> Option<&[u8]>
        ensures { option_map (λ text. text.now) result ≡ self.now }
    {
        match &self.name {
            Some(name) => Some(name.as_ref().as_slice()),
            None => None,
        }
    }

    /// Whether there is none.
    pub(crate) fn is_none(&self) -> bool
        ensures { result ≡ is_none self.now }
    {
        self.name.is_none()
    }
}
