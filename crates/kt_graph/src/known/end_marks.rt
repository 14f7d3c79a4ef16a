//! How names end.
//! Fast: a prerequisite that ends as no known name does is told by a mark, before it is spelled out. Spares a text and
//! two hashes for each candidate of a pattern rule.
ghost use Rattle.std.specs.Prelude.{◌≡◌, ◌-◌, ◌<◌, fold, get_or, length, slice_get, if◌then◌else◌};
ghost use Rattle.kt_graph.specs.inner.EndMarks.{AreMarkedTo, KeepsEnds, end_mark_place, has_marked_end, with_end};
ghost use Rattle.kt_graph.specs.inner.EndMarks.{with_end_of};

use kt_list::Names;
use std::alloc::{AllocError, Global};

/// How many marks there are.
const COUNT: usize = 4096;

/// Marks for the last two bytes of names: what has no mark ends none of them. Several ends share a mark.
///
/// Most pattern rules that are tried for a name need one of an ending that no file has. A mark tells that without a
/// look-up, for which that name would have to be spelled out.
#[derive(Drop)]
pub(crate) struct EndMarks {
    marks: Vec<bool>,
}

impl EndMarks {
    pub(crate) fn none(alloc: Global) -> Result<EndMarks, AllocError> {
        Ok(EndMarks {
            marks: Vec::from_elem(alloc, false, COUNT)?,
        })
    }

    /// Marks the end of a name.
    pub(crate) fn mark(&mut self, name: &[u8])
        ensures { self.new.marks.items ≡ with_end self.old.marks.items name.now }
    {
        if let Some(mark) = self.marks.get_mut(end_place(name)) {
            *mark = true;
        }
    }

    /// Marks the ends of names.
    pub(crate) fn mark_all(&mut self, names: &Names)
        ensures { self.new.marks.items ≡ fold with_end self.old.marks.items names.now }
    {
        for number in 0..names.len() {
            self.mark(names.name_at(number));
        }
    }

    /// Marks the ends of the names that are chosen by their numbers.
    pub(crate) fn mark_chosen(&mut self, names: &Names, chosen: &[bool])
        ensures kept { KeepsEnds self.old.marks.items self.new.marks.items }
        ensures marked { AreMarkedTo (length chosen.now) self.new.marks.items names.now chosen.now }
    {
        for (number, is_chosen) in chosen.iter().enumerate() {
            self.mark_if(*is_chosen, names, number);
        }
    }

    fn mark_if(&mut self, is_chosen: bool, names: &Names, number: usize)
        ensures { self.new.marks.items
            ≡ (if is_chosen then with_end_of self.old.marks.items (slice_get names.now number)
            else self.old.marks.items) }
    {
        if is_chosen {
            self.mark_numbered(names, number);
        }
    }

    fn mark_numbered(&mut self, names: &Names, number: usize)
        ensures { self.new.marks.items ≡ with_end_of self.old.marks.items (slice_get names.now number) }
    {
        if let Some(name) = names.get(number) {
            self.mark(name);
        }
    }

    /// Whether the end of a text is marked.
    pub(crate) fn is_marked(&self, text: &[u8]) -> bool
        ensures { result ≡ has_marked_end self.now.marks.items text.now }
    {
        match self.marks.get(end_place(text)) {
            Some(mark) => *mark,
            None => true,
        }
    }
}

// The place of the mark for a text's last two bytes.
fn end_place(text: &[u8]) -> usize
    ensures { result ≡ end_mark_place text.now }
{
    byte_before_end(text, 2) % 64 * 64 + byte_before_end(text, 1) % 64
}

// The byte that so many bytes from the end begin with, or 0.
fn byte_before_end(text: &[u8], count: usize) -> usize
    ensures value { result ≡ get_or text.now (length text.now - count) 0 }
    ensures byte { result < 256 }
{
    match text.get(text.len().saturating_sub(count)) {
        Some(byte) => *byte as usize,
        None => 0,
    }
}
