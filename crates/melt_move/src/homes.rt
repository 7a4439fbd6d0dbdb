//! Which objects get a home, and which home.
//!
//! A Body refers to homes alone. So beside the objects that leave, those that stay and to which they refer get a home.
//! The new homes lie one after the other, first those of the objects that leave, then the others, each in the order in
//! which they were found. Before the disk was asked for room only their distances from the first one are known.
ghost use Rattle.std.specs.Prelude.{◌≡◌, ◌≢◌, ◌↔◌, ◌^◌, ◌+◌, ◌<◌, ◌≤◌, ℕ, [], length, slice_index, Some, IfOk, OnOk};
ghost use Rattle.melt_space.specs.Space.{word_at};
ghost use Rattle.melt_scion.specs.State.{State, RefersTo};
ghost use Rattle.melt_copy.specs.Moving.{IsRefWord};
ghost use Rattle.melt_copy.specs.declared.live.LiveSet.{LiveSet};
ghost use Rattle.melt_move.specs.GivingHomes.{AreSlots, GivesTo, HasGiven, HasMarks, IsAmong, IsAmongMarked, IsOffered};
ghost use Rattle.melt_move.specs.GivingHomes.{MarksSlots, WasChosen, offset_at};
ghost use Rattle.melt_move.specs.Plans.{AreDepartures, GivesNew, IsChoice, IsSeen, new_home};
ghost use Rattle.melt_move.specs.Visits.{leaving_words};

use crate::choice::{Choice, Departure};
use melt_model::{NoMemory, Steps};
use melt_space::Space;
use melt_word::{Ref, Shape, cost, reference_of};
use std::alloc::Global;
use std::sync::ledger::Ledger;

/// An object that gets a home: its address, and its shape.
#[derive(Clone, Copy)]
pub struct Given {
    pub from: u32,
    pub shape: Shape,
}

/// The homes that a collection gives.
#[derive(Drop)]
pub struct NewHomes {
    /// The first word of the first of them.
    pub first: u32,
    /// At the address of each object, one more than the words of the homes before its own; 0 where it gets none.
    pub offsets: Vec<u32>,
    /// The objects, in the order of their homes.
    pub given: Vec<Given>,
    /// How many homes there are of each cost.
    pub counts: [u32; 127],
}

impl NewHomes {
    /// The home that the object at an address gets, 0 where it gets none.
    pub fn new_home(&self, address: u32) -> u32
        requires { new_home self.now.first (slice_index self.now.offsets.items address) < 2 ^ 32 }
        ensures { result ≡ new_home self.now.first (slice_index self.now.offsets.items address) }
    {
        match self.offsets.get(address as usize).copied().unwrap_or(0) {
            0 => 0,
            offset => self.first + (offset - 1),
        }
    }
}

/// Homes that are being given, and the words that they take so far.
#[derive(Drop)]
struct Giving {
    homes: NewHomes,
    need: u32,
}

/// The address in the word of a reference, if it has one.
fn address_in(word: u64) -> Option<u32>
    requires { IsRefWord word }
    ensures { (address : ℕ) → (result ≡ Some address) ↔ RefersTo word address }
{
    match reference_of(word) {
        Ref::Clean(address) | Ref::Stale(address) => Some(address),
        Ref::Null | Ref::Disk(_) => None,
    }
}

/// Marks the objects to which the slots of an object refer.
fn mark_slots<L: Ledger>(marks: &mut [bool], slots: &[u64], steps: &mut Steps<L>)
    requires { AreSlots slots.now (length marks.old) }
    ensures marks { MarksSlots slots.now (length slots.now) marks.old marks.new }
    ensures visits { steps.new ≡ steps.old + length slots.now }
{
    for slot in slots {
        steps.tick();
        if let Some(address) = address_in(*slot) {
            marks[address as usize] = true;
        }
    }
}

/// Marks, by address, the objects to which those that leave refer.
fn mark_named<L: Ledger>(
    alloc: Global,
    space: &Space,
    leaving: &[Departure],
    steps: &mut Steps<L>,
) -> Result<Vec<bool>, NoMemory>
    requires { (s : State) × IsSeen space.now s × AreDepartures s leaving.now }
    ensures marks { IfOk result (λ marks. (s : State) → IsSeen space.now s → AreDepartures s leaving.now
        → HasMarks s marks.items) }
    ensures visits { steps.new ≤ steps.old + leaving_words leaving.now }
{
    let mut marks = vec![in alloc; false; space.used() as usize + 1]?;
    for d in leaving {
        steps.tick();
        let slots = space.words_at(d.from + 2, u32::from(d.shape.refs));
        mark_slots(&mut marks, slots, steps);
    }
    Ok(marks)
}

impl Giving {
    /// Homes of which none was given yet. They are to begin at the word `first`.
    fn new(alloc: Global, space: &Space, first: u32) -> Result<Giving, NoMemory>
        ensures all { IfOk result (λ giving. (s : State) → IsSeen space.now s → HasGiven space.now s giving) }
        ensures nobody { IfOk result (λ giving. giving.homes.given.items ≡ []) }
        ensures first { IfOk result (λ giving. giving.homes.first ≡ first) }
    {
        let homes = NewHomes {
            first,
            offsets: vec![in alloc; 0; space.used() as usize + 1]?,
            given: Vec::new(alloc),
            counts: [0; 127],
        };
        Ok(Giving { homes, need: 0 })
    }

    /// Gives the next home to an object, where it has none.
    fn give_missing(&mut self, space: &Space, from: u32, shape: Shape) -> Result<(), NoMemory>
        requires offered { (s : State) × HasGiven space.now s self.old × IsOffered s from shape }
        requires not_yet { offset_at self.old.homes from ≡ 0 }
        ensures gives { OnOk result (GivesTo (word_at space.now) (λ a. a ≡ from) self.old.homes self.new.homes) }
        ensures all { OnOk result ((s : State) → HasGiven space.now s self.old → IsOffered s from shape
            → HasGiven space.now s self.new) }
    {
        if space.word(from + 1) != 0 {
            return Ok(());
        }
        let need = cost(shape);
        self.homes.given.push(Given { from, shape })?;
        // One more than the distance from the first new home, so that 0 is left for an object that gets none.
        self.homes.offsets[from as usize] = self.need + 1;
        self.homes.counts[need as usize] += 1;
        self.need += need;
        Ok(())
    }

    /// Gives homes to the objects that leave. Nobody has a new one yet.
    fn give_leaving<L: Ledger>(
        &mut self,
        space: &Space,
        choice: &Choice,
        steps: &mut Steps<L>,
    ) -> Result<(), NoMemory>
        requires chosen { (s : State) × HasGiven space.now s self.old × WasChosen s choice.now }
        requires nobody { self.old.homes.given.items ≡ [] }
        ensures gives { OnOk result (GivesTo (word_at space.now)
            (IsAmong choice.now.leaving.items (length choice.now.leaving.items)) self.old.homes self.new.homes) }
        ensures all { OnOk result ((s : State) → HasGiven space.now s self.old → WasChosen s choice.now
            → HasGiven space.now s self.new) }
        ensures visits { steps.new ≤ steps.old + length choice.now.leaving.items }
    {
        for d in &choice.leaving {
            steps.tick();
            self.give_missing(space, d.from, d.shape)?;
        }
        Ok(())
    }

    /// Gives homes to the objects that stay and were marked. Only objects that leave have a new one yet.
    fn give_named<L: Ledger>(
        &mut self,
        space: &Space,
        choice: &Choice,
        marks: &[bool],
        steps: &mut Steps<L>,
    ) -> Result<(), NoMemory>
        requires chosen { (s : State) × HasGiven space.now s self.old × WasChosen s choice.now × HasMarks s marks.now }
        requires leaving { (a : ℕ) → offset_at self.old.homes a ≢ 0
            → IsAmong choice.now.leaving.items (length choice.now.leaving.items) a }
        ensures gives { OnOk result (GivesTo (word_at space.now)
            (IsAmongMarked choice.now.stay.moves.items marks.now (length choice.now.stay.moves.items))
            self.old.homes self.new.homes) }
        ensures all { OnOk result ((s : State) → HasGiven space.now s self.old → WasChosen s choice.now
            → HasMarks s marks.now → HasGiven space.now s self.new) }
        ensures visits { steps.new ≤ steps.old + length choice.now.stay.moves.items }
    {
        for m in &choice.stay.moves {
            steps.tick();
            if marks[m.from as usize] {
                self.give_missing(space, m.from, m.shape)?;
            }
        }
        Ok(())
    }
}

/// Gives a home to each object that leaves and to each that stays and is referred to by one that leaves, where it has
/// none. The homes begin at the word `first` of the disk.
pub fn give_homes<L: Ledger>(
    alloc: Global,
    space: &Space,
    choice: &Choice,
    first: u32,
    steps: &mut Steps<L>,
) -> Result<NewHomes, NoMemory>
    requires { (s : State) × (live : LiveSet) × IsSeen space.now s × IsChoice s live choice.now }
    ensures first { IfOk result (λ homes. homes.first ≡ first) }
    ensures gives { IfOk result (λ homes. (s : State) (live : LiveSet) → IsSeen space.now s → IsChoice s live choice.now
        → GivesNew s homes) }
    ensures visits { steps.new ≤ steps.old + leaving_words choice.now.leaving.items
        + length choice.now.leaving.items + length choice.now.stay.moves.items }
{
    let marks = mark_named(alloc, space, &choice.leaving, steps)?;
    let mut giving = Giving::new(alloc, space, first)?;
    // What leaves comes before what is named by it, so the new Bodies of a collection lie together on disk.
    giving.give_leaving(space, choice, steps)?;
    giving.give_named(space, choice, &marks, steps)?;
    Ok(giving.homes)
}
