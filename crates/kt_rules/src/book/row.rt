//! The rows of a book.
//! Fast: a rule is a row of 40 bytes, with numbers in the place of its lists and of its static pattern. Spares 20
//! bytes a list, and the list where another rule has it, too.
use crate::line::entry::Kind;
use crate::place::Place;

/// A row of a book: a rule by numbers of a dictionary.
///
/// The lines of its recipe are those of the book at the same place.
#[derive(Drop)]
pub(crate) struct Row {
    pub(crate) place: Place,
    pub(crate) numbers: RuleNumbers,
    pub(crate) kind: Kind,
    /// A recipe without lines is one, too.
    pub(crate) has_recipe: bool,
}

/// The numbers of a rule's names.
#[derive(Clone, Copy)]
pub(crate) struct RuleNumbers {
    /// That of a list.
    pub(crate) targets: u32,
    pub(crate) needs: NeedsNumbers,
    /// That of the target pattern of a static pattern rule.
    pub(crate) pattern: Option<u32>,
}

/// The numbers of the lists of prerequisites.
#[derive(Clone, Copy)]
pub(crate) struct NeedsNumbers {
    pub(crate) prerequisites: u32,
    pub(crate) order_only: u32,
}
