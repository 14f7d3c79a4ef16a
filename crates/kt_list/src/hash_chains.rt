//! Numbers in chains, by their hashes.
//! Fast: a number is kept in 10 to 12 bytes, and its key nowhere but in its row. Spares half of a table with keys.
ghost use Rattle.std.specs.Prelude.{◌≡◌, ◌⊎◌, ◌++◌, ◌∷◌, ◌+◌, ◌-◌, ◌*◌, ◌%◌, ◌<◌, [], ℕ, Some, false, length, set, slice_get};
ghost use Rattle.std.specs.Prelude.{take, true, IfNone, IfSome, OnErr, OnOk};
ghost use Rattle.kt_list.specs.inner.HashChains.{AreAllChained, AreChained, hashes_of, last_of};

use crate::narrowing::narrow;
use crate::rows::Rows;
use std::alloc::{AllocError, Global};
use std::marker::Model;

/// The hashes of numbers from 0 on. A look-up goes through the numbers of one chain, and takes no memory.
///
/// A contract sees them as a plain list.
#[derive(Drop)]
pub(crate) struct HashChains {
    links: Vec<HashLink>,
    // For each chain, one more than its last number, or 0.
    lasts: Vec<u32>,
}

// A number in its chain.
#[derive(Clone, Copy)]
struct HashLink {
    hash: u32,
    // One more than the number before it in the chain, or 0.
    before: u32,
}

impl Model for HashChains {
    ghost use Rattle.std.specs.Prelude.{ℕ, List};
    ghost use Rattle.kt_list.specs.inner.HashChains.{AreAllChained, hashes_of};

    ghost Value = { List ℕ };

    ghost view = { λ chains. hashes_of chains.links.items };

    ghost invariant = { λ chains. AreAllChained chains.links.items chains.lasts.items };
}

impl HashChains {
    /// No numbers.
    pub(crate) fn new(alloc: Global) -> HashChains
        ensures { result ≡ [] }
    {
        HashChains {
            links: Vec::new(alloc),
            lasts: Vec::new(alloc),
        }
    }

    /// The number with this hash that is the one.
    #[inline(always)]
    pub(crate) fn find<F: Fn(usize) -> bool>(&self, hash: u32, is_it: F) -> Option<u32>
        requires { (number : ℕ) → F.pre is_it number }
        ensures found { IfSome result (λ number. F.post is_it number true) }
        ensures lacks { IfNone result ((number : ℕ) → slice_get self.now number ≡ Some hash
            → F.post is_it number false) }
    {
        let mut left = last_of(self.lasts.as_slice(), hash);
        while let Some(link) = link_before(self.links.as_slice(), left) {
            let number = left - 1;
            if link.hash == hash && is_it(number as usize) {
                return Some(number);
            }
            left = link.before;
        }
        None
    }

    /// Adds the next number, with its hash. An `Err` is out of memory, and leaves the numbers as they were.
    pub(crate) fn push(&mut self, hash: u32) -> Result<(), AllocError>
        ensures added { OnOk result (self.new ≡ self.old ++ hash ∷ []) }
        ensures refused { OnErr result (self.new ≡ self.old) }
    {
        let number = self.links.len();
        let next = narrow(number.wrapping_add(1))?;
        grow(&mut self.links, &mut self.lasts)?;
        self.links.push(HashLink { hash, before: 0 })?;
        chain_up(&mut self.links, &mut self.lasts, number, next);
        Ok(())
    }

    /// Takes all numbers away but the first ones.
    pub(crate) fn truncate(&mut self, len: usize)
        ensures { self.new ≡ take len self.old }
    {
        while len < self.links.len() {
            match self.links.pop() {
                Some(link) => set_last(&mut self.lasts, link.hash, link.before),
                None => {}
            }
        }
    }
}

// What is kept of a hash's chain.
fn last_of(lasts: &[u32], hash: u32) -> u32
    ensures { result ≡ last_of lasts.now hash }
{
    if lasts.is_empty() {
        return 0;
    }
    lasts[hash as usize % lasts.len()]
}

// Keeps another number of a hash's chain.
fn set_last(lasts: &mut Vec<u32>, hash: u32, next: u32)
    ensures { lasts.new.items ≡ set lasts.old.items (hash % length lasts.old.items) next }
{
    if lasts.is_empty() {
        return;
    }
    let chain = hash as usize % lasts.len();
    lasts[chain] = next;
}

// The link of the number that is one less than this, if there is one.
fn link_before(links: &[HashLink], next: u32) -> Option<&HashLink>
    ensures none { IfNone result ((next ≡ 0) ⊎ (length links.now < next)) }
    ensures some { IfSome result (λ link. (0 < next) × (slice_get links.now (next - 1) ≡ Some link.now)) }
{
    if next == 0 {
        return None;
    }
    links.get(next as usize - 1)
}

// Makes a number the last of its chain.
fn chain_up(links: &mut Vec<HashLink>, lasts: &mut Vec<u32>, number: usize, next: u32)
    requires within { number < length links.old.items }
    requires next { next ≡ number + 1 }
    requires chains { 0 < length lasts.old.items }
    requires chained { AreChained number links.old.items lasts.old.items }
    ensures same { hashes_of links.new.items ≡ hashes_of links.old.items }
    ensures count { length lasts.new.items ≡ length lasts.old.items }
    ensures chained { AreChained (number + 1) links.new.items lasts.new.items }
{
    let hash = links[number].hash;
    let before = last_of(lasts.as_slice(), hash);
    links[number] = HashLink { hash, before };
    set_last(lasts, hash, next);
}

// Makes room for one more number: doubles the chains where there are two numbers for each.
fn grow(links: &mut Vec<HashLink>, lasts: &mut Vec<u32>) -> Result<(), AllocError>
    requires { AreAllChained links.old.items lasts.old.items }
    ensures same { hashes_of links.new.items ≡ hashes_of links.old.items }
    ensures chained { AreAllChained links.new.items lasts.new.items }
    ensures room { OnOk result (length links.new.items < 2 * length lasts.new.items) }
{
    let count = links.len();
    if count / 2 < lasts.len() {
        return Ok(());
    }
    // In place: a vector that takes another's place would be copied by the allocator each time that it grows.
    lasts.resize(lasts.len().saturating_mul(2).saturating_add(8), 0)?;
    empty_chains(lasts);
    for number in 0..count {
        chain_up(links, lasts, number, number as u32 + 1);
    }
    Ok(())
}

// Takes all numbers out of their chains.
fn empty_chains(lasts: &mut Vec<u32>)
    ensures count { length lasts.new.items ≡ length lasts.old.items }
    ensures empty { (chain last : ℕ) → slice_get lasts.new.items chain ≡ Some last → last ≡ 0 }
{
    for chain in 0..lasts.len() {
        lasts[chain] = 0;
    }
}

/// Adds a row, and its hash. An `Err` is out of memory, and leaves both as they were.
pub(crate) fn put<T: Copy + Drop>(
    rows: &mut Rows<T>,
    chains: &mut HashChains,
    row: &[T],
    hash: u32,
) -> Result<(), AllocError>
    ensures added { OnOk result (rows.new ≡ rows.old ++ row.now ∷ []) }
    ensures hashed { OnOk result (chains.new ≡ chains.old ++ hash ∷ []) }
    ensures refused { OnErr result (rows.new ≡ rows.old) }
    ensures kept { OnErr result (chains.new ≡ chains.old) }
{
    let count = rows.len();
    rows.push_row(row)?;
    match chains.push(hash) {
        Ok(()) => Ok(()),
        Err(error) => {
            rows.truncate(count);
            Err(error)
        }
    }
}
