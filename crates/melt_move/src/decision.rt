//! All that a collection decides before its first change.
ghost use Rattle.std.specs.Prelude.{◌≡◌, ℕ, ◌+◌, ◌*◌, ◌≤◌, length, IfOk};
ghost use Rattle.melt_space.specs.Space.{word_at};
ghost use Rattle.melt_scion.specs.State.{State, Reached};
ghost use Rattle.melt_scion.specs.Placed.{Maps, Formed};
ghost use Rattle.melt_scion.specs.Heaps.{IsFormed, IsSettled, OnDisk, state_of};
ghost use Rattle.melt_copy.specs.Visits.{CountsReached};
ghost use Rattle.melt_move.specs.Plans.{HasRoom, IsDecision, home_by};

use crate::choice::{Choice, choose};
use crate::homes::{NewHomes, give_homes};
use melt_copy::reach;
use melt_model::{NoMemory, Steps};
use melt_scion::{Heap, Registers};
use melt_space::Space;
use melt_word::decode_home;
use std::alloc::Global;
use std::sync::ledger::Ledger;

/// Who stays, who leaves, and who gets a home.
#[derive(Drop)]
pub struct Decision {
    pub choice: Choice,
    pub homes: NewHomes,
    /// How many of those that stay registers hold: the first ones.
    pub held_count: usize,
    /// The words of these.
    pub held_words: u32,
}

/// Decides what a Move collection of a heap does. New homes begin at the word `first` of the disk.
pub fn decide<L: Ledger>(
    alloc: Global,
    heap: &Heap,
    held: &[Registers],
    first: u32,
    steps: &mut Steps<L>,
) -> Result<Decision, NoMemory>
    requires formed { IsFormed heap.now held.now }
    requires settled { IsSettled heap.now }
    ensures first { IfOk result (λ decision. decision.homes.first ≡ first) }
    ensures decides { IfOk result (λ decision. (maps : Maps) (disk : OnDisk) → disk.end ≡ first
        → Formed maps (state_of heap.now held.now disk)
        → IsDecision heap.now.space (state_of heap.now held.now disk) decision) }
    ensures visits { (objects : ℕ) → CountsReached heap.now held.now objects
        → steps.new ≤ steps.old + 17 * length held.now + length heap.now.globals
        + 2 * length heap.now.scions.live + 3 * objects }
{
    let live = reach(alloc, heap, held, steps)?;
    let choice = choose(alloc, &heap.space, &live, steps)?;
    let homes = give_homes(alloc, &heap.space, &choice, first, steps)?;
    Ok(Decision {
        choice,
        homes,
        held_count: live.held_count,
        held_words: live.held_words,
    })
}

impl Decision {
    /// The home that an object which can be reached has when the collection is over: that from before, or its new one.
    /// 0 where it has none.
    pub fn home_of(&self, space: &Space, address: u32) -> u32
        requires room { HasRoom self.now }
        requires reached { (s : State) × IsDecision space.now s self.now × Reached s address }
        ensures { result ≡ home_by (word_at space.now) self.now address }
    {
        match decode_home(space.word(address + 1)) {
            Ok(Some(old)) => old.home,
            Ok(None) => self.homes.new_home(address),
            Err(_) => unreachable!(),
        }
    }
}
