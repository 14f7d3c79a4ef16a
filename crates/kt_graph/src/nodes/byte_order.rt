//! Names in byte order.
//! Fast: names are put in byte order by their first eight bytes. Spares a look at where each name lies.
ghost use Rattle.std.specs.Prelude.{◌≡◌, length, map, IfOk};
ghost use Rattle.kt_graph.specs.inner.nodes.Graph.{IsByteOrder};
ghost use Rattle.kt_graph.specs.inner.nodes.Fronts.{AreFronts, front_cmp};
ghost use Rattle.kt_list.specs.views.Names.{name_at};

use crate::nodes::node::name_of;
use crate::nodes::numbering::NameNumbers;
use kt_list::narrow;
use kt_text::front_number;
use std::alloc::{AllocError, Global};
use std::cmp::Ordering;

/// The first bytes of a name as a number, and the name's number. Most names are told apart by the former without a look
/// at them: long lists don't fit the caches.
#[derive(Clone, Copy)]
pub(crate) struct Front {
    bytes: u64,
    number: u32,
}

/// The numbers of names, in byte order of the names.
pub(crate) fn byte_order(alloc: Global, names: &NameNumbers) -> Result<Vec<u32>, AllocError>
    ensures { IfOk result (λ order. IsByteOrder names.now order.items) }
{
    let texts = texts_of(alloc, names)?;
    let texts = texts.as_slice();
    let mut fronts = fronts_of(alloc, texts)?;
    // This tells that no two names are equal.
    let _count = names.len();
    fronts.sort_unstable_by(|front, other| compare(texts, front, other));
    numbers(alloc, fronts.as_slice())
}

// The names by their numbers. Those that begin alike are compared in this list, where each lies one step away.
fn texts_of<'n>(alloc: Global, names: &'n NameNumbers) -> Result<Vec<&'n [u8]>, AllocError>
    ensures { IfOk result (λ texts. map (λ text. text.now) texts.items ≡ names.now) }
{
    let count = names.len();
    let mut texts = Vec::with_capacity(alloc, count)?;
    for number in 0..count {
        texts.push(name_of(names, number))?;
    }
    Ok(texts)
}

// More than 4,294,967,295 texts are refused as if memory were.
fn fronts_of(alloc: Global, texts: &[&[u8]]) -> Result<Vec<Front>, AllocError>
    ensures { IfOk result (λ fronts. AreFronts (map (λ text. text.now) texts.now) (length texts.now) fronts.items) }
{
    let mut fronts = Vec::with_capacity(alloc, texts.len())?;
    for number in 0..texts.len() {
        fronts.push(Front {
            bytes: front_number(text_at(texts, number)),
            number: narrow(number)?,
        })?;
    }
    Ok(fronts)
}

fn compare(texts: &[&[u8]], front: &Front, other: &Front) -> Ordering
    ensures { result ≡ front_cmp (map (λ text. text.now) texts.now) front.now other.now }
{
    match front.bytes.cmp(&other.bytes) {
        Ordering::Equal => {
            text_at(texts, front.number as usize).cmp(text_at(texts, other.number as usize))
        }
        decided => decided,
    }
}

fn text_at<'n>(texts: &[&'n [u8]], number: usize) -> &'n [u8]
    ensures { result.now ≡ name_at (map (λ text. text.now) texts.now) number }
{
    match texts.get(number) {
        Some(text) => text,
        None => b"",
    }
}

fn numbers(alloc: Global, fronts: &[Front]) -> Result<Vec<u32>, AllocError>
    ensures { IfOk result (λ numbers. numbers.items ≡ map (λ front. front.number) fronts.now) }
{
    let mut numbers = Vec::with_capacity(alloc, fronts.len())?;
    for front in fronts {
        numbers.push(front.number)?;
    }
    Ok(numbers)
}
