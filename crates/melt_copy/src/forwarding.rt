//! Where each object that a collection finds goes.
//!
//! The objects that were found stand in a list, in the order in which they are to lie from word 1 on. A table tells the
//! new address of each by its old one, and 0 for every other address. Both only grow: an object keeps the place that it
//! got when it was found first, so a reference that was moved stays right while more objects are found, and an object
//! to which many references are is copied once.
//!
//! Objects lie apart from each other among the words in use. So those that were found take no more words than these,
//! whatever refers to what: each new address is one of the space, and the copy has room in it.
//!
//! Each takes two words at least. So of two addresses `2 * k` and `2 * k + 1` an object starts at one at most, and the
//! table has one entry for both: the new address, and in the lowest bit which of the two it is for. Half as many
//! entries are half as much memory to clear for each collection.
ghost use Rattle.std.specs.Prelude.{◌≡◌, ◌≢◌, ℕ, ◌+◌, ◌/◌, ◌^◌, ◌<◌, ◌≤◌, ◌⊎◌, [], slice_get, slice_index, length};
ghost use Rattle.std.specs.Prelude.{replicate, Some, IfOk, OnOk};
ghost use Rattle.melt_scion.specs.State.{State, RefersTo};
ghost use Rattle.melt_copy.specs.declared.forwarding.Relocation.{Relocation};
ghost use Rattle.melt_copy.specs.Tracking.{Grows, Tracks, TracksAt, TracksFor, entry_of, goes, target_of};

use melt_model::NoMemory;
use melt_space::Space;
use melt_word::{Ref, Shape, cost, reference_of};
use std::alloc::Global;

/// An object that was found: its address, the address that it gets, and its shape.
#[derive(Clone, Copy, Debug, PartialEq, Eq)]
pub struct Relocation {
    pub from: u32,
    pub to: u32,
    pub shape: Shape,
}

/// The objects that were found so far, in the order in which they are to stand from word 1 on.
#[derive(Drop)]
pub struct Forwarding {
    /// An entry for each two addresses from 0 on, 0 where no object was found at either.
    pub entries: Vec<u32>,
    pub moves: Vec<Relocation>,
    /// The first place after the objects that were found.
    pub next: u32,
}

/// The entry of an object that moves from one address to another. It stands in the table alone, and is no word of a
/// heap.
#[inline(always)]
fn entry(from: u32, to: u32) -> u32
    requires { to < 2 ^ 30 }
    ensures { result ≡ entry_of from to }
{
    2 * to + from % 2
}

/// The new address that an entry tells for one of its two addresses, 0 where it is for the other.
#[inline(always)]
fn target(entry: u32, address: u32) -> u32
    ensures { result ≡ target_of entry address }
{
    if entry % 2 == address % 2 {
        entry / 2
    } else {
        0
    }
}

impl Forwarding {
    /// A forwarding without objects, for a space of which so many words are in use.
    pub fn new(alloc: Global, used: u32) -> Result<Forwarding, NoMemory>
        requires { used < 2 ^ 30 }
        ensures entries { IfOk result (λ forwarding. forwarding.entries.items ≡ replicate (used / 2 + 1) 0) }
        ensures moves { IfOk result (λ forwarding. forwarding.moves.items ≡ []) }
        ensures next { IfOk result (λ forwarding. forwarding.next ≡ 1) }
    {
        Ok(Forwarding {
            entries: vec![in alloc; 0; used as usize / 2 + 1]?,
            moves: Vec::new(alloc),
            next: 1,
        })
    }

    /// The new address of the object at an address, or 0 where none was found.
    pub fn forwarded(&self, address: u32) -> u32
        ensures { result ≡ goes self.now address }
    {
        let pair = address as usize / 2;
        target(self.entries.get(pair).copied().unwrap_or(0), address)
    }

    /// Finds the object at an address, and answers its new one. An object that was found before keeps its place.
    #[inline(always)]
    pub fn find(&mut self, space: &Space, address: u32) -> Result<u32, NoMemory>
        requires { (s : State) × TracksAt space.now s self.old address }
        ensures found { IfOk result (λ to. (goes self.new address ≡ to) × (to ≢ 0)) }
        ensures small { IfOk result (λ to. to < 2 ^ 30) }
        ensures grows { Grows self.old self.new }
        ensures only { (k : ℕ) (m : Relocation) → slice_get self.new.moves.items k ≡ Some m
            → (slice_get self.old.moves.items k ≡ Some m) ⊎ (m.from ≡ address) }
        ensures tracks { (s : State) → TracksAt space.now s self.old address → Tracks space.now s self.new }
    {
        let pair = address as usize / 2;
        // An object starts at this address, so none does at the other of the two.
        let known = self.entries[pair] / 2;
        if known != 0 {
            return Ok(known);
        }
        let shape = space.shape(address);
        let to = self.next;
        self.moves.push(Relocation {
            from: address,
            to,
            shape,
        })?;
        self.entries[pair] = entry(address, to);
        self.next += cost(shape);
        Ok(to)
    }

    /// Finds the object to which the word of a reference refers, if it refers to one.
    pub fn find_word(&mut self, space: &Space, word: u64) -> Result<(), NoMemory>
        requires { (s : State) × TracksFor space.now s self.old word }
        ensures found { OnOk result ((address : ℕ) → RefersTo word address → goes self.new address ≢ 0) }
        ensures grows { Grows self.old self.new }
        ensures tracks { (s : State) → TracksFor space.now s self.old word → Tracks space.now s self.new }
    {
        if let Ref::Clean(address) | Ref::Stale(address) = reference_of(word) {
            self.find(space, address)?;
        }
        Ok(())
    }
}
