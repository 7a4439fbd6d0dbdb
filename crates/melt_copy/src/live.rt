//! Finds all that a collection can reach, and copies nothing.
//!
//! A collection that moves objects to the disk has to know all of them before it decides: an object that stays gets a
//! home only where one that leaves refers to it. The objects are found in the order in which `collect_copy` finds
//! them: those in registers first, then what globals refer to, then the objects of live scions, then what slots do. So
//! the number of those in registers tells of each whether a register holds it.
ghost use Rattle.std.specs.Prelude.{◌≡◌, ◌≢◌, ℕ, ◌+◌, ◌*◌, ◌≤◌, length, slice_index, IfOk, OnOk};
ghost use Rattle.melt_scion.specs.Heaps.{IsFormed};
ghost use Rattle.melt_scion.specs.State.{State};
ghost use Rattle.melt_copy.specs.Moving.{words_in};
ghost use Rattle.melt_copy.specs.Reaching.{FindsAll, FindsHeldAlone, FindsSlots, FindsWords, ReachesLive};
ghost use Rattle.melt_copy.specs.Tracking.{FindsHeld, FindsThreads, Grows, Tracks, TracksHeld, TracksIn, TracksOf};
ghost use Rattle.melt_copy.specs.Tracking.{TracksThreads, goes};
ghost use Rattle.melt_copy.specs.Visits.{CountsReached};

use crate::forwarding::{Forwarding, Relocation};
use crate::scions::{find_scions, live_scions};
use melt_model::{NoMemory, Steps};
use melt_scion::{Heap, Registers};
use melt_space::Space;
use std::alloc::Global;
use std::sync::ledger::Ledger;

/// What was found of a heap.
#[derive(Drop)]
pub struct LiveSet {
    /// The objects that were found, each with the place that it would have if all of them stayed.
    pub forwarding: Forwarding,
    /// How many of them registers hold: the first ones.
    pub held_count: usize,
    /// The words of these.
    pub held_words: u32,
}

/// Finds the objects in the registers of a thread.
fn find_held<L: Ledger>(
    forwarding: &mut Forwarding,
    space: &Space,
    registers: &Registers,
    steps: &mut Steps<L>,
) -> Result<(), NoMemory>
    requires { (s : State) × TracksHeld space.now s forwarding.old (slice_index registers.now.regs) }
    ensures finds { OnOk result (FindsHeld forwarding.old forwarding.new (slice_index registers.now.regs)) }
    ensures grows { Grows forwarding.old forwarding.new }
    ensures tracks { (s : State) → TracksHeld space.now s forwarding.old (slice_index registers.now.regs)
        → Tracks space.now s forwarding.new }
    ensures visits { steps.new ≤ steps.old + 16 }
{
    for address in &registers.regs {
        steps.tick();
        if *address != 0 {
            forwarding.find(space, *address)?;
        }
    }
    Ok(())
}

/// Finds the objects in the registers of all threads.
fn find_all_held<L: Ledger>(
    forwarding: &mut Forwarding,
    space: &Space,
    held: &[Registers],
    steps: &mut Steps<L>,
) -> Result<(), NoMemory>
    requires { (s : State) × TracksThreads space.now s forwarding.old held.now }
    ensures finds { OnOk result (FindsThreads forwarding.old forwarding.new held.now) }
    ensures grows { Grows forwarding.old forwarding.new }
    ensures tracks { (s : State) → TracksThreads space.now s forwarding.old held.now
        → Tracks space.now s forwarding.new }
    ensures visits { steps.new ≤ steps.old + 17 * length held.now }
{
    for registers in held {
        steps.tick();
        find_held(forwarding, space, registers, steps)?;
    }
    Ok(())
}

/// Finds the objects in registers, before all others.
pub fn begin_with_held<L: Ledger>(
    alloc: Global,
    heap: &Heap,
    held: &[Registers],
    steps: &mut Steps<L>,
) -> Result<LiveSet, NoMemory>
    requires formed { IsFormed heap.now held.now }
    ensures finds { IfOk result (FindsHeldAlone heap.now held.now) }
    ensures visits { steps.new ≤ steps.old + 17 * length held.now }
{
    let mut forwarding = Forwarding::new(alloc, heap.space.used())?;
    find_all_held(&mut forwarding, &heap.space, held, steps)?;
    let held_count = forwarding.moves.len();
    let held_words = forwarding.next - 1;
    Ok(LiveSet {
        forwarding,
        held_count,
        held_words,
    })
}

/// Finds the objects to which these words refer.
fn find_words<L: Ledger>(
    forwarding: &mut Forwarding,
    space: &Space,
    words: &[u64],
    steps: &mut Steps<L>,
) -> Result<(), NoMemory>
    requires { (s : State) × TracksIn space.now s forwarding.old words.now }
    ensures finds { OnOk result (FindsWords (goes forwarding.new) words.now) }
    ensures grows { Grows forwarding.old forwarding.new }
    ensures tracks { (s : State) → TracksIn space.now s forwarding.old words.now → Tracks space.now s forwarding.new }
    ensures visits { steps.new ≤ steps.old + length words.now }
{
    for word in words {
        steps.tick();
        forwarding.find_word(space, *word)?;
    }
    Ok(())
}

/// Finds the objects to which the slots of an object that was found refer.
fn find_slots<L: Ledger>(
    forwarding: &mut Forwarding,
    space: &Space,
    m: Relocation,
    steps: &mut Steps<L>,
) -> Result<(), NoMemory>
    requires { (s : State) × TracksOf space.now s forwarding.old m }
    ensures finds { OnOk result ((s : State) → TracksOf space.now s forwarding.old m
        → FindsSlots s (goes forwarding.new) m) }
    ensures grows { Grows forwarding.old forwarding.new }
    ensures tracks { (s : State) → TracksOf space.now s forwarding.old m → Tracks space.now s forwarding.new }
    ensures visits { steps.new ≤ steps.old + m.shape.refs }
{
    // Before the slots stand the header and the home word.
    let slots = space.words_at(m.from + 2, u32::from(m.shape.refs));
    find_words(forwarding, space, slots, steps)
}

/// Finds the objects to which those that were found refer, and what these refer to.
fn find_rest<L: Ledger>(
    forwarding: &mut Forwarding,
    space: &Space,
    steps: &mut Steps<L>,
) -> Result<(), NoMemory>
    requires { (s : State) × Tracks space.now s forwarding.old }
    ensures finds { OnOk result ((s : State) → Tracks space.now s forwarding.old
        → FindsAll s (goes forwarding.new) forwarding.new.moves.items) }
    ensures grows { Grows forwarding.old forwarding.new }
    ensures tracks { (s : State) → Tracks space.now s forwarding.old → Tracks space.now s forwarding.new }
    ensures visits { steps.new ≤ steps.old + words_in forwarding.new.moves.items }
{
    let mut done = 0;
    while done < forwarding.moves.len() {
        steps.tick();
        let m = forwarding.moves[done];
        find_slots(forwarding, space, m, steps)?;
        done += 1;
    }
    Ok(())
}

/// Finds all that registers, globals and live scions reach in a heap. Counts one step for each turn of a loop.
///
/// Takes memory for a number for each two words in use, for what is found, and for a list of the live scions, and
/// answers `NoMemory` where it is wanted.
pub fn reach<L: Ledger>(
    alloc: Global,
    heap: &Heap,
    held: &[Registers],
    steps: &mut Steps<L>,
) -> Result<LiveSet, NoMemory>
    requires formed { IsFormed heap.now held.now }
    ensures reaches { IfOk result (ReachesLive heap.now held.now) }
    ensures visits { (objects : ℕ) → CountsReached heap.now held.now objects
        → steps.new ≤ steps.old + 17 * length held.now + length heap.now.globals
        + 2 * length heap.now.scions.live + objects }
{
    let mut live = begin_with_held(alloc, heap, held, steps)?;
    let found = &mut live.forwarding;
    find_words(found, &heap.space, &heap.globals.items, steps)?;
    let scions = live_scions(alloc, &heap.scions, steps)?;
    find_scions(found, &heap.space, &heap.scions, &scions, steps)?;
    find_rest(found, &heap.space, steps)?;
    Ok(live)
}
