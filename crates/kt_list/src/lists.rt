//! Lists of numbers by numbers.
ghost use Rattle.std.specs.Prelude.{◌≡◌, ◌<◌, ◌≤◌, ◌^◌, ℕ, List, [], false, Some, is_some, length, option_map, slice_get};
ghost use Rattle.std.specs.Prelude.{IfNone, IfOk, IfSome, OnErr, OnOk};
ghost use Rattle.std.specs.List.{IsDistinct};
ghost use Rattle.std.specs.Str.{bytes_eq};
ghost use Rattle.kt_list.specs.inner.Hashes.{hash_with, is_at, list_hash};
ghost use Rattle.kt_list.specs.Names.{is_among, with_name};
ghost use Rattle.kt_list.specs.views.Names.{place_of};

use crate::hash_chains::{HashChains, put};
use crate::narrowing::narrow;
use crate::rows::Rows;
use std::alloc::{AllocError, Global};
use std::marker::Model;

/// Lists of numbers, each once, in the order in which they came. The place of a list is its number.
///
/// A contract sees them as a plain list of lists. A look-up hashes the list once and takes no memory; the lists lie one
/// after another in one vector.
#[derive(Drop)]
pub struct Lists {
    lists: Rows<u32>,
    chains: HashChains,
}

impl Model for Lists {
    ghost use Rattle.std.specs.Prelude.{ℕ, List};
    ghost use Rattle.kt_list.specs.inner.HashChains.{AreRowsOnce};
    ghost use Rattle.kt_list.specs.inner.Hashes.{list_hash};

    ghost Value = { List (List ℕ) };

    ghost view = { λ lists. lists.lists };

    ghost invariant = { λ lists. AreRowsOnce list_hash lists.lists lists.chains };
}

impl Lists {
    /// No lists.
    pub fn new(alloc: Global) -> Lists
        ensures { result ≡ [] }
    {
        Lists {
            lists: Rows::new(alloc),
            chains: HashChains::new(alloc),
        }
    }

    /// How many there are.
    pub fn len(&self) -> usize
        ensures len { result ≡ length self.now }
        ensures small { result < 2 ^ 63 }
    {
        self.lists.len()
    }

    /// The list with a number.
    pub fn get(&self, number: usize) -> Option<&[u32]>
        ensures list { option_map (λ list. list.now) result ≡ slice_get self.now number }
        ensures differ { IsDistinct bytes_eq self.now }
    {
        self.lists.row(number)
    }

    /// The number of a list, if it has one. Takes no memory.
    #[tactic(auto, using(crate::proofs::ListLemmas::number_if))]
    pub fn number_of(&self, list: &[u32]) -> Option<u32>
        ensures place { result ≡ place_of self.now list.now }
        ensures found { is_some result ≡ is_among self.now list.now }
    {
        number_among(&self.lists, &self.chains, list, hash_of(list))
    }

    /// The number of a list, which gets the next one if it has none. An `Err` is out of memory, and leaves the lists as
    /// they were.
    #[tactic(auto, using(crate::proofs::ListLemmas::among, crate::proofs::ListLemmas::stays))]
    pub fn add(&mut self, list: &[u32]) -> Result<u32, AllocError>
        ensures numbered { IfOk result (λ number. Some number ≡ place_of self.new list.now) }
        ensures added { OnOk result (self.new ≡ with_name self.old list.now) }
        ensures refused { OnErr result (self.new ≡ self.old) }
        ensures lacking { OnErr result (is_among self.old list.now ≡ false) }
    {
        let hash = hash_of(list);
        match number_among(&self.lists, &self.chains, list, hash) {
            Some(number) => Ok(number),
            None => {
                let number = narrow(self.lists.len())?;
                put(&mut self.lists, &mut self.chains, list, hash)?;
                Ok(number)
            }
        }
    }
}

// The hash of a list.
#[tactic(auto, using(crate::proofs::HashLemmas::two_hashed), unfolding(crate::specs::inner::Hashes::list_hash))]
fn hash_of(list: &[u32]) -> u32
    ensures { result ≡ list_hash list.now }
{
    let mut hash = list.len() as u64;
    let mut left = list;
    while let [one, two, rest @ ..] = left {
        hash = hash_with(hash, *one as u64 + *two as u64 * 4_294_967_296);
        left = rest;
    }
    if let [one] = left {
        hash = hash_with(hash, *one as u64);
    }
    (hash_with(hash, 0) >> 32) as u32
}

// The hash after one more number.
fn hash_with(hash: u64, number: u64) -> u64
    ensures { result ≡ hash_with hash number }
{
    hash.wrapping_mul(11_400_714_819_323_198_485)
        .wrapping_add(number)
}

// The number of a list with a hash, if it has one.
fn number_among(lists: &Rows<u32>, chains: &HashChains, list: &[u32], hash: u32) -> Option<u32>
    ensures found { IfSome result (λ number. slice_get lists.now number ≡ Some list.now) }
    ensures lacks { IfNone result ((number : ℕ) → slice_get chains.now number ≡ Some hash
        → is_at lists.now list.now number ≡ false) }
{
    chains.find(hash, |number| is_at(lists, list, number))
}

// Whether a list has this number.
fn is_at(lists: &Rows<u32>, list: &[u32], number: usize) -> bool
    ensures { result ≡ is_at lists.now list.now number }
{
    match lists.row(number) {
        Some(other) => other == list,
        None => false,
    }
}
