//! The Move collection of a heap.
//!
//! All that can be refused is refused before the first change: memory is taken while everything is decided and copied,
//! and the disk is asked for room for all new homes at once. Then only a write to the disk may fail, and since homes
//! from before may be written by then, the heap is given up where one does.
ghost use Rattle.std.specs.Prelude.{◌≡◌, ◌≤◌, ◌<◌, ◌+◌, ◌*◌, ◌^◌, ℕ, [], length, IfOk, IfErr, OnOk, OnErr, MatchOption};
ghost use Rattle.std.specs.Prelude.{IsErrOf};
ghost use Rattle.std.specs.Vec.{vec_capacity};
ghost use Rattle.melt_io.specs.Outside.{Rose};
ghost use Rattle.melt_disk.specs.Homes.{need_of};
ghost use Rattle.melt_word.specs.Words.{IsShape};
ghost use Rattle.melt_scion.specs.Heaps.{HasMaps, IsFormed, IsSettled, KeepsTables, OnDisk, Shows, state_of};
ghost use Rattle.melt_scion.specs.Placed.{Maps, Formed};
ghost use Rattle.melt_move.specs.Collecting.{CarriesOut, CopiesOut, Decides, HoldNothing, IsAsBefore, IsFormedOn};
ghost use Rattle.melt_move.specs.Collecting.{LacksDisk};
ghost use Rattle.melt_move.specs.Collecting.{Moves, AreShapes, HasRoomForNames, IsRefused, SameNames};
ghost use Rattle.melt_copy.specs.Copied.{NumbersAre};
ghost use Rattle.melt_copy.specs.Moving.{words_in};
ghost use Rattle.melt_copy.specs.Settling.{RisesBy};
ghost use Rattle.melt_copy.specs.Visits.{CountsReached, VisitsAtMost};
ghost use Rattle.melt_move.specs.KeptDisk.{KeepsDisk};
ghost use Rattle.melt_move.specs.GivenScions.{given_count};
ghost use Rattle.melt_move.specs.NamedHomes.{HasSpare};
ghost use Rattle.melt_move.specs.Plans.{HasRoom, need_for};
ghost use Rattle.melt_move.specs.Visits.{leaving_words, visits_in};

use crate::bodies::write_bodies;
use crate::commit::{Copied, put_back};
use crate::decision::{Decision, decide};
use crate::homes::{Given, NewHomes};
use crate::scions::{free_scions, give_scions};
use crate::staying::{copy_staying, copy_words};
use melt_copy::numbers_for;
use melt_disk::{DiskFull, StaleSpace};
use melt_io::{Failed, StaleDisk};
use melt_model::{Journal, NoMemory, Phase, Steps};
use melt_scion::{Heap, Names, Registers};
use std::alloc::Global;
use std::sync::ledger::Ledger;
use thiserror::Error;

/// Why a Move collection was not made. What hands the heap back leaves heap, registers and disk as they were.
#[derive(Debug, Drop, Error)]
pub enum MoveRefusal {
    /// There was no memory.
    #[error("out of memory")]
    NoMemory(Heap),
    /// The new homes reach past the limit of the disk.
    #[error("{full}")]
    DiskFull { heap: Heap, full: DiskFull },
    /// A write to the disk failed. The heap is given up, since homes may hold records that no heap knows.
    #[error("a write to the disk failed")]
    DiskFault,
}

/// Makes room for the names of so many homes more, where the heap keeps names.
fn reserve_names(names: &mut Option<Names>, more: usize) -> Result<(), NoMemory>
    requires { more < 2 ^ 32 }
    ensures same { SameNames names.old names.new }
    ensures spare { OnOk result (HasRoomForNames more names.new) }
{
    if let Some(names) = names {
        names.homes.reserve(more as u32)?;
    }
    Ok(())
}

/// Decides what a collection does, and takes the memory that the copy and the names will need.
fn prepare<L: Ledger>(
    alloc: Global,
    heap: &mut Heap,
    held: &[Registers],
    first: u32,
    steps: &mut Steps<L>,
) -> Result<(Decision, Vec<u64>), NoMemory>
    requires formed { IsFormedOn heap.old held.now first }
    requires settled { IsSettled heap.old }
    ensures as_before { IsAsBefore heap.old heap.new }
    ensures decides { IfOk result (λ prepared. Decides heap.new held.now prepared.0) }
    ensures first { IfOk result (λ prepared. prepared.0.homes.first ≡ first) }
    ensures room { IfOk result (λ prepared. prepared.1.items ≡ []) }
    ensures capacity { IfOk result (λ prepared. heap.new.space.used ≤ vec_capacity prepared.1) }
    ensures spare { IfOk result (λ prepared. HasSpare prepared.0.homes heap.new.names) }
    ensures visits { (objects : ℕ) → CountsReached heap.old held.now objects
        → steps.new ≤ steps.old + 17 * length held.now + length heap.old.globals
        + 2 * length heap.old.scions.live + 3 * objects }
{
    let decision = decide(alloc, heap, held, first, steps)?;
    let room = heap.space.room_for_copy(alloc)?;
    reserve_names(&mut heap.names, decision.homes.given.len())?;
    Ok((decision, room))
}

/// Why the new homes have no room on the disk, if they have none.
fn lacks_room<D: StaleDisk>(disk: &StaleSpace<'_, D>, homes: &NewHomes) -> Option<DiskFull>
    requires small { need_of homes.now.counts < 2 ^ 30 }
    ensures limit { disk.now.limit < 2 ^ 32 }
    ensures room { MatchOption result (disk.now.end + need_of homes.now.counts ≤ disk.now.limit) (λ full.
        (full ≡ record { end = disk.now.end; need = need_of homes.now.counts; limit = disk.now.limit })
        × (disk.now.limit < disk.now.end + need_of homes.now.counts)) }
{
    let end = disk.end();
    let limit = disk.limit();
    let need = disk.need(&homes.counts);
    if u64::from(end) + u64::from(need) <= u64::from(limit) {
        return None;
    }
    Some(DiskFull { end, need, limit })
}

/// Copies what stays, the words of objects into `room`, which has room for all words in use. The heap and the registers
/// stay.
fn copy_out<L: Ledger>(
    alloc: Global,
    heap: &Heap,
    held: &[Registers],
    room: Vec<u64>,
    decision: &Decision,
    steps: &mut Steps<L>,
) -> Result<Copied, NoMemory>
    requires empty { room.items ≡ [] }
    requires capacity { heap.now.space.used ≤ vec_capacity room }
    requires formed { IsFormedOn heap.now held.now decision.now.homes.first }
    requires decides { Decides heap.now held.now decision.now }
    requires room { HasRoom decision.now }
    ensures copies { IfOk result (CopiesOut heap.now held.now decision.now) }
    ensures numbers { IfOk result (λ copied. NumbersAre heap.now.names decision.now.choice.stay.moves.items
        copied.numbers.items) }
    ensures visits { steps.new ≤ steps.old + length heap.now.globals
        + length decision.now.choice.stay.moves.items + 2 * words_in decision.now.choice.stay.moves.items }
{
    let globals = Vec::with_capacity(alloc, heap.globals.items.len())?;
    let numbers = numbers_for(alloc, &heap.names, &decision.choice.stay.moves, steps)?;
    let globals = copy_words(globals, decision, &heap.space, &heap.globals.items, steps);
    let words = copy_staying(room, decision, &heap.space, steps);
    Ok(Copied {
        words,
        globals,
        numbers,
    })
}

/// Reserves homes of these shapes, for which there is room.
fn reserve_homes<D: StaleDisk, L: Ledger>(
    disk: &mut StaleSpace<'_, D>,
    given: &[Given],
    steps: &mut Steps<L>,
)
    requires shapes { AreShapes given.now }
    requires room { disk.old.end + need_for given.now ≤ disk.old.limit }
    ensures end { disk.new.end ≡ disk.old.end + need_for given.now }
    ensures limit { disk.new.limit ≡ disk.old.limit }
    ensures same_disk { disk.new.disk.ghost_name ≡ disk.old.disk.ghost_name }
    ensures disk { disk.new.disk.now ≡ disk.old.disk.now }
    ensures visits { steps.new ≡ steps.old + length given.now }
{
    for g in given {
        steps.tick();
        // There is room for all of them.
        let _home = disk.reserve_home(g.shape);
    }
}

/// Carries a decision out. Answers how many Stubs were written. After an `Err` the heap is of no use.
fn carry_out<D: StaleDisk, L: Ledger>(
    heap: &mut Heap,
    held: &mut [Registers],
    disk: &mut StaleSpace<'_, D>,
    decision: &Decision,
    copied: Copied,
    steps: &mut Steps<L>,
) -> Result<u32, Failed>
    requires formed { IsFormedOn heap.old held.old disk.old.end }
    requires settled { IsSettled heap.old }
    requires first { decision.now.homes.first ≡ disk.old.end }
    requires decides { Decides heap.old held.old decision.now }
    requires copies { CopiesOut heap.old held.old decision.now copied }
    requires numbers { NumbersAre heap.old.names decision.now.choice.stay.moves.items copied.numbers.items }
    requires spare { HasSpare decision.now.homes heap.old.names }
    requires room { disk.old.end + need_for decision.now.homes.given.items ≤ disk.old.limit }
    requires small { HasRoom decision.now }
    ensures carries { OnOk result ((maps : Maps) (later : OnDisk) → later.end ≡ disk.old.end
        → Shows (D.image disk.old.disk.now) later.image → HasMaps heap.old maps
        → Formed maps (state_of heap.old held.old later)
        → CarriesOut maps later heap.old heap.new held.old held.new decision.now disk.new.end
        (D.image disk.new.disk.now)) }
    ensures tables { OnOk result (KeepsTables heap.old heap.new) }
    ensures settled { OnOk result (IsSettled heap.new) }
    ensures stubs { IfOk result (λ count. count ≡ given_count decision.now.homes decision.now.choice.stay.moves.items) }
    ensures few { IfOk result (λ count. count < 2 ^ 30) }
    ensures writes { IfOk result (λ count. RisesBy (length decision.now.choice.leaving.items + count)
        (D.writes disk.old.disk.now) (D.writes disk.new.disk.now)) }
    ensures grows { disk.new.end ≡ disk.old.end + need_for decision.now.homes.given.items }
    ensures visits { steps.new ≤ steps.old + 17 * length held.old + 2 * length decision.now.homes.given.items
        + 2 * leaving_words decision.now.choice.leaving.items + length decision.now.choice.leaving.items
        + 2 * length decision.now.choice.stay.moves.items }
    ensures failed { OnErr result (Rose (D.faults disk.old.disk.now) (D.faults disk.new.disk.now)) }
    ensures keeps { KeepsDisk D.image D.faults D.read_faults D.lends disk.old disk.new }
{
    reserve_homes(disk, &decision.homes.given, steps);
    write_bodies(disk, decision, &heap.space, steps)?;
    free_scions(&mut heap.scions, decision, &heap.space, steps);
    put_back(heap, held, decision, copied, steps);
    give_scions(heap, disk, decision, steps)
}

/// Makes all registers hold nothing.
pub fn drop_held<L: Ledger>(held: &mut [Registers], steps: &mut Steps<L>)
    ensures nothing { HoldNothing held.new }
    ensures visits { steps.new ≡ steps.old + length held.old }
{
    for registers in held.iter_mut() {
        steps.tick();
        registers.regs = [0; 16];
    }
}

/// Collects a heap, and moves to the disk what has the stale bit and is in no register: a Body is written for each such
/// object that can be reached, and for no other. An object that stays and to which one that left refers gets a home
/// with a Stub. What stays is marked as in phase Mark. Nothing is read from the disk. Counts one step for each turn of
/// a loop, and for each word that is copied with others at once: at most eight for each word of what can be reached,
/// and for each live scion, global and register.
///
/// Takes all its memory before the first change, and asks for all its room on the disk before the first write.
pub fn collect_move<D: StaleDisk, L: Ledger>(
    alloc: Global,
    mut heap: Heap,
    held: &mut [Registers],
    disk: &mut StaleSpace<'_, D>,
    steps: &mut Steps<L>,
) -> Result<(Heap, Journal), MoveRefusal>
    requires formed { IsFormedOn heap held.old disk.old.end }
    requires settled { IsSettled heap }
    ensures moves { IfOk result (λ done. Moves heap done.0 held.old held.new disk.old.end disk.new.end
        (D.image disk.old.disk.now) (D.image disk.new.disk.now) done.1) }
    ensures few { IfOk result (λ done. done.1.stubs < 2 ^ 30) }
    ensures writes { IfOk result (λ done.
        RisesBy (done.1.bodies + done.1.stubs) (D.writes disk.old.disk.now) (D.writes disk.new.disk.now)) }
    ensures fits { OnOk result (disk.new.end ≤ disk.old.limit) }
    ensures visits { VisitsAtMost (visits_in Phase.Move) heap held.old steps.old steps.new }
    ensures refused { IfErr result (λ refusal. IsRefused heap held.old held.new disk.old disk.new refusal) }
    ensures failed { IsErrOf result MoveRefusal.DiskFault
        → Rose (D.faults disk.old.disk.now) (D.faults disk.new.disk.now) }
    ensures keeps { KeepsDisk D.image D.faults D.read_faults D.lends disk.old disk.new }
{
    let (decision, room) = match prepare(alloc, &mut heap, held, disk.end(), steps) {
        Ok(prepared) => prepared,
        Err(NoMemory) => return Err(MoveRefusal::NoMemory(heap)),
    };
    if let Some(full) = lacks_room(disk, &decision.homes) {
        return Err(MoveRefusal::DiskFull { heap, full });
    }
    let copied = match copy_out(alloc, &heap, held, room, &decision, steps) {
        Ok(copied) => copied,
        Err(NoMemory) => return Err(MoveRefusal::NoMemory(heap)),
    };
    let Ok(stubs) = carry_out(&mut heap, held, disk, &decision, copied, steps) else {
        drop_held(held, steps);
        return Err(MoveRefusal::DiskFault);
    };
    let journal = Journal {
        phase: Phase::Move,
        held: decision.held_words,
        live: heap.space.used(),
        bodies: decision.choice.leaving.len() as u32,
        stubs,
        end: disk.end(),
    };
    Ok((heap, journal))
}
