//! The copying collection.
//!
//! All memory is taken before the first change. So want of memory leaves heap and registers as they were, at whatever
//! moment it comes, and what is left then takes none.
//!
//! Objects in registers are found before all others. So their copies are the first, and one number tells of each copy
//! whether a register holds its object, on which its stale bit depends: that of the words of the copies when the last
//! register was looked at. Each is counted once there, however many registers hold it. What globals refer to comes
//! after them, then the objects of live scions, to which records on disk refer, and then what slots do.
ghost use Rattle.std.specs.Prelude.{◌≡◌, ℕ, ◌+◌, ◌*◌, ◌<◌, ◌≤◌, length, None, Option, IfOk, OnErr};
ghost use Rattle.melt_space.specs.Space.{Replaces};
ghost use Rattle.melt_scion.specs.Heaps.{IsFormed, IsSettled};
ghost use Rattle.melt_scion.specs.declared.heap.Names.{Names};
ghost use Rattle.melt_copy.specs.Copying.{Collects, IsCopying};
ghost use Rattle.melt_copy.specs.Copied.{AreRenamed, MayRename, NumbersAre};
ghost use Rattle.melt_copy.specs.Evacuating.{AreCarried, copies_of};
ghost use Rattle.melt_copy.specs.Visits.{VisitsAtMost};

use crate::commit::{numbers_of, rename};
use crate::forwarding::Relocation;
use crate::names::{Renaming, take_names};
use crate::scions::live_scions;
use crate::to_space::ToSpace;
use melt_model::{Journal, NoMemory, Phase, Steps};
use melt_scion::{GhostMaps, Heap, Names, Registers};
use std::alloc::Global;
use std::sync::ledger::Ledger;

/// The numbers of the objects that move, where the heap keeps names.
pub fn numbers_for<L: Ledger>(
    alloc: Global,
    names: &Option<Names>,
    moves: &[Relocation],
    steps: &mut Steps<L>,
) -> Result<Vec<Option<u32>>, NoMemory>
    ensures numbers { IfOk result (λ numbers. NumbersAre names.now moves.now numbers.items) }
    ensures visits { steps.new ≤ steps.old + length moves.now }
{
    match names {
        Some(names) => numbers_of(alloc, &names.addresses, moves, steps),
        None => Ok(Vec::new(alloc)),
    }
}

/// A vector of as many words as are in use, or more.
fn words_for_copy(alloc: Global, heap: &mut Heap) -> Result<Vec<u64>, NoMemory>
    ensures room { IfOk result (λ words. heap.old.space.used ≤ length words.items) }
    ensures unchanged { heap.new ≡ heap.old }
{
    heap.space.words_for_copy(alloc)
}

/// Gives the objects that moved their numbers at their new addresses, where the heap keeps names, and else to contracts
/// alone.
pub fn rename_all<L: Ledger>(
    names: &mut Option<Names>,
    maps: &mut GhostMaps,
    used: u32,
    moves: &[Relocation],
    numbers: &[Option<u32>],
    steps: &mut Steps<L>,
)
    requires { MayRename used names.old moves.now numbers.now }
    ensures names { AreRenamed names.old maps.old names.new maps.new moves.now }
    ensures visits { steps.new ≤ steps.old + length moves.now }
{
    match names {
        Some(names) => rename(&mut names.addresses, used, moves, numbers, steps),
        None => *maps = GhostMaps::pick(&(&*maps, moves)),
    }
}

/// Puts the copies into the place of what was there, and gives the heap its names again.
fn put_back(heap: &mut Heap, to: ToSpace)
    requires given { to.next ≤ length to.words.items }
    requires fits { to.next ≤ length heap.old.space.list }
    requires taken { heap.old.names ≡ None }
    ensures space { Replaces heap.old.space heap.new.space (copies_of to) }
    ensures names { (names : Option Names) → AreCarried names to.names to.moves
        → AreRenamed names heap.old.maps heap.new.names heap.new.maps to.moves }
    ensures globals { heap.new.globals ≡ heap.old.globals }
    ensures scions { heap.new.scions ≡ heap.old.scions }
    ensures forward { heap.new.forward ≡ heap.old.forward }
{
    let ToSpace {
        words,
        next,
        moves,
        names,
    } = to;
    heap.space.replace_first(words, next);
    match names {
        Some(Renaming { names, moved }) => {
            heap.names = Some(Names {
                addresses: moved,
                homes: names.homes,
            });
        }
        None => heap.maps = GhostMaps::pick(&(&heap.maps, &moves)),
    }
}

/// Collects a heap: the objects that registers, globals and live scions reach stay in use, packed from word 1 on, and
/// all others are gone. Nothing is written to a disk or read from one. Phase Inactive keeps all tags and stale bits.
/// Phase Mark makes each object stale that no register holds, and each direct reference in slots and globals. Counts
/// one step for each turn of a loop, and for each word that is copied with others at once: at most four for each word
/// of what can be reached, and for each live scion, global and register.
///
/// Takes all its memory before the first change.
pub fn collect_copy<L: Ledger>(
    alloc: Global,
    heap: &mut Heap,
    held: &mut [Registers],
    phase: Phase,
    steps: &mut Steps<L>,
) -> Result<Journal, NoMemory>
    requires formed { IsFormed heap.old held.old }
    requires settled { IsSettled heap.old }
    requires phase { IsCopying phase }
    ensures collected { IfOk result (Collects heap.old held.old heap.new held.new phase) }
    ensures heap_stays { OnErr result (heap.new ≡ heap.old) }
    ensures registers_stay { OnErr result (held.new ≡ held.old) }
    ensures visits { VisitsAtMost 4 heap.old held.old steps.old steps.new }
{
    // From here to `ToSpace::new` all memory is taken. After that nothing can fail, so nothing has to be undone.
    let words = words_for_copy(alloc, heap)?;
    let live = live_scions(alloc, &heap.scions, steps)?;
    let names = take_names(alloc, &mut heap.names, heap.space.words())?;
    let mut to = ToSpace::new(words, names);
    to.evacuate_held(&mut heap.space, held, steps);
    // Objects in registers are copied before all others: where a copy stands tells whether it is held.
    let held_words = to.next;
    to.move_globals(&mut heap.space, phase, &mut heap.globals.items, steps);
    to.evacuate_scions(&mut heap.space, &mut heap.scions, &live, steps);
    to.scan(&mut heap.space, phase, held_words, steps);
    put_back(heap, to);
    Ok(Journal {
        phase,
        held: held_words as u32,
        live: heap.space.used(),
        bodies: 0,
        stubs: 0,
        end: 0,
    })
}
