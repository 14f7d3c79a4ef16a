//! Lists of items, each at a name.
ghost use Rattle.std.specs.Prelude.{◌≡◌, ◌++◌, ◌∷◌, [], OnErr, OnOk, bytes_eq, if◌then◌else◌};
ghost use Rattle.kt_text.specs.Words.{Text};
ghost use Rattle.kt_rules.specs.views.Indexes.{noted_at};

use crate::line::entry::Name;
use indexmap::IndexMap;
use kt_list::Key;
use std::alloc::{AllocError, Global};

/// A list of items at each name, in the order in which they were noted.
#[derive(Drop)]
pub struct Index<T: Copy> {
    alloc: Global,
    lists: IndexMap<Name, Vec<T>>,
}

impl<T: Copy> Index<T> {
    /// An index without items.
    pub fn new(alloc: Global) -> Index<T>
        ensures { (name : Text) → noted_at result name ≡ [] }
    {
        Index {
            alloc,
            lists: IndexMap::new(alloc),
        }
    }

    /// The items at a name.
    pub fn noted(&self, name: &[u8]) -> &[T]
        ensures { result.now ≡ noted_at self.now name.now }
    {
        match self.lists.get(Key(name)) {
            Some(noted) => noted.as_slice(),
            None => &[],
        }
    }

    /// Adds an item at a name. An `Err` is out of memory, and leaves the index as it was.
    pub fn note(&mut self, name: &[u8], item: T) -> Result<(), AllocError>
        ensures noted { OnOk result ((other : Text) → noted_at self.new other ≡ noted_at self.old other
            ++ (if bytes_eq other name.now then item ∷ [] else [])) }
        ensures refused { OnErr result ((other : Text) → noted_at self.new other ≡ noted_at self.old other) }
    {
        let key = Name::copied(self.alloc, name)?;
        let noted = self.lists.entry(key)?.or_insert(Vec::new(self.alloc));
        add(noted, item)
    }
}

// Adds an item. Most lists have one item, so the first takes no more room than that.
fn add<T: Copy>(items: &mut Vec<T>, item: T) -> Result<(), AllocError>
    ensures added { OnOk result (items.new.items ≡ items.old.items ++ item ∷ []) }
    ensures refused { OnErr result (items.new.items ≡ items.old.items) }
{
    if items.is_empty() {
        items.reserve_exact(1)?;
    }
    items.push(item)?;
    Ok(())
}
