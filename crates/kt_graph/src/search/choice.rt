//! What a search chooses.
use kt_rules::Name;

/// A pattern rule that makes a name.
#[derive(Debug, Drop)]
pub struct Chosen {
    /// Its number among the book's `patterns`.
    pub rule: usize,
    /// The part of the name before the part that the rule matches.
    pub directory: Name,
    pub stem: Name,
}

/// The pattern rule that makes a name, if one does.
pub type Choice = Option<Chosen>;
