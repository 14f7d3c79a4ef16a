//! A name that was reached.
ghost use Rattle.std.specs.Prelude.{◌≡◌};
ghost use Rattle.kt_graph.specs.inner.nodes.Reached.{reached_text};

use kt_rules::Name;

/// A name that was reached. One that stands in the book or in the list of files isn't copied.
#[derive(Drop)]
pub(crate) enum ReachedName<'a> {
    /// With its number in the tables of names.
    InTables(&'a [u8], usize),
    Other(Name),
}

impl<'a> ReachedName<'a> {
    pub(crate) fn as_slice(&self) -> &[u8]
        ensures { result.now ≡ reached_text self.now }
    {
        match self {
            ReachedName::InTables(name, _) => name,
            ReachedName::Other(name) => name.as_slice(),
        }
    }
}
