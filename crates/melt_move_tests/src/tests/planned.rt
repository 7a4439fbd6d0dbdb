ghost use Rattle.melt_move.specs.Collecting.{IsFormedOn};
ghost use Rattle.melt_move_tests.specs.Held.{third_holds};

use super::given::{
    EAGER, PAIR, Told, ToldFull, box_and_pair_back, box_and_pair_words, collect_forced,
    collect_full, collect_told, expect_fault, failing, same_full, third_holds,
};
use melt_copy_tests::heaps::used_words;
use melt_disk::{DiskFull, StaleSpace};
use melt_io::{MemDisk, SteadyDisk};
use melt_model::{Journal, Phase};
use melt_same::same;
use melt_scion::{Heap, Registers};
use melt_word::{HomeWord, Ref, encode_home, encode_ref};
use std::alloc::Global;
use std::test::Fail;

/// Fails where other collections are told than one in each phase, of which the first settles the pair.
fn same_phases(told: [Told; 3]) -> Result<(), Fail> {
    let inactive = Journal {
        phase: Phase::Inactive,
        held: 4,
        live: 8,
        bodies: 0,
        stubs: 1,
        end: 5,
    };
    let mark = Journal {
        phase: Phase::Mark,
        stubs: 0,
        ..inactive
    };
    let moved = Journal {
        phase: Phase::Move,
        held: 4,
        live: 4,
        bodies: 1,
        stubs: 0,
        end: 9,
    };
    let wanted = [
        (inactive, Phase::Mark, 5),
        (mark, Phase::Move, 5),
        (moved, Phase::Move, 9),
    ];
    same(told, wanted)
}

/// Fails where other collections are told, the box has not left the heap after them, or the pair has not stayed.
fn same_left(heap: &Heap, held: [Registers; 1], told: [Told; 3]) -> Result<(), Fail> {
    same_phases(told)?;
    let globals = [encode_ref(Ref::Disk(5)), encode_ref(Ref::Stale(1))];
    same(
        (heap.globals.items.as_slice(), heap.scions.get(1), held),
        (globals.as_slice(), Some((1, 1)), third_holds(1)),
    )
}

/// Collects a heap three times, once in each phase. Answers what is told, and what registers hold then.
fn collect_in_phases(
    alloc: Global,
    heap: Heap,
    disk: &mut StaleSpace<'_, SteadyDisk>,
) -> Result<(Heap, ([Told; 3], [Registers; 1])), Fail>
    requires { IsFormedOn heap (third_holds 5) disk.old.end }
{
    let mut held = third_holds(5);
    let mut plan = EAGER;
    let (heap, first) = collect_told(alloc, heap, &mut held, disk, &mut plan, false)?;
    let (heap, second) = collect_told(alloc, heap, &mut held, disk, &mut plan, false)?;
    let (heap, third) = collect_told(alloc, heap, &mut held, disk, &mut plan, false)?;
    Ok((heap, ([first, second, third], held)))
}

/// Collects the heap in which the pair came back in each phase, and compares what is told and what it is then.
fn expect_phases(alloc: Global, disk: &mut SteadyDisk) -> Result<(), Fail> {
    let mut stale = StaleSpace::new(disk, 9);
    same(stale.reserve_home(PAIR)?, 1)?;
    let heap = box_and_pair_back(alloc)?;
    let (heap, (told, held)) = collect_in_phases(alloc, heap, &mut stale)?;
    let compared = same_left(&heap, held, told);
    drop(heap);
    compared
}

#[test]
fn the_pair_is_settled_once_and_the_box_leaves_in_the_third_phase(
    rt: HostRuntime,
) -> Result<(), Fail> {
    let alloc = rt.alloc();
    let mut disk = SteadyDisk::new(alloc);
    expect_phases(alloc, &mut disk)?;
    // The Stub of the pair, and the Body of the box, whose slots have the homes of the pair and of itself.
    let image = [0, 4_295_033_090, 1, 0, 0, 21_474_836_993, 0, 7, 23];
    same((disk.image.as_slice(), disk.writes), (image.as_slice(), 2))
}

/// Makes a forced collection of the same heap. Answers the home of the pair besides.
fn force(alloc: Global, disk: &mut SteadyDisk) -> Result<(u32, Told), Fail> {
    let mut stale = StaleSpace::new(disk, 9);
    let home = stale.reserve_home(PAIR)?;
    let heap = box_and_pair_back(alloc)?;
    let (heap, (told, _held)) = collect_forced(alloc, heap, &mut stale)?;
    drop(heap);
    Ok((home, told))
}

#[test]
fn a_forced_collection_is_a_move_and_counts_what_it_settled(rt: HostRuntime) -> Result<(), Fail> {
    let alloc = rt.alloc();
    let mut disk = SteadyDisk::new(alloc);
    let told = force(alloc, &mut disk)?;
    let wanted = Journal {
        phase: Phase::Move,
        held: 4,
        live: 4,
        bodies: 1,
        stubs: 1,
        end: 9,
    };
    same((told, disk.writes), ((1, (wanted, Phase::Move, 9)), 2))
}

/// Collects the same heap, and expects that a write fails. Answers the home of the pair.
fn expect_given_up(alloc: Global, disk: &mut MemDisk) -> Result<u32, Fail> {
    let mut stale = StaleSpace::new(disk, 9);
    let home = stale.reserve_home(PAIR)?;
    let heap = box_and_pair_back(alloc)?;
    expect_fault(alloc, heap, &mut stale, false)?;
    Ok(home)
}

#[test]
fn a_failing_stub_gives_the_heap_up_and_leaves_the_plan(rt: HostRuntime) -> Result<(), Fail> {
    let alloc = rt.alloc();
    let mut disk = failing(alloc)?;
    let home = expect_given_up(alloc, &mut disk)?;
    same((home, disk.writes), (1, 1))
}

/// Fails where the pair is not settled, the box has not stayed, or something else is told than that the disk lacks a word.
fn same_settled(heap: &Heap, told: ToldFull) -> Result<(), Fail> {
    let full = DiskFull {
        end: 5,
        need: 4,
        limit: 8,
    };
    same_full(told, full)?;
    let words = box_and_pair_words(encode_home(Some(HomeWord { home: 1, scion: 1 })));
    same(
        (
            used_words(&heap.space),
            heap.scions.get(1),
            heap.forward.items.as_slice(),
        ),
        (words.as_slice(), Some((1, 5)), [0].as_slice()),
    )
}

/// Makes a forced collection of the same heap, for which the disk lacks room, and compares what is handed back.
fn expect_settled(alloc: Global, disk: &mut SteadyDisk) -> Result<(), Fail> {
    let mut stale = StaleSpace::new(disk, 8);
    same(stale.reserve_home(PAIR)?, 1)?;
    let heap = box_and_pair_back(alloc)?;
    let (heap, told) = collect_full(alloc, heap, &mut stale)?;
    let compared = same_settled(&heap, told);
    drop(heap);
    compared
}

#[test]
fn a_disk_without_room_leaves_a_settled_heap_and_the_plan(rt: HostRuntime) -> Result<(), Fail> {
    let alloc = rt.alloc();
    let mut disk = SteadyDisk::new(alloc);
    expect_settled(alloc, &mut disk)?;
    // The Stub of the pair.
    same(disk.image.as_slice(), [0, 4_295_033_090, 1].as_slice())
}
