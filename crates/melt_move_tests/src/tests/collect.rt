use super::given::{
    PAIR, Told, ToldFull, box_and_pair, box_and_pair_globals, box_and_pair_words, collect_forced,
    collect_full, expect_fault, failing, same_full, third_holds,
};
use melt_copy_tests::heaps::used_words;
use melt_disk::{DiskFull, StaleSpace};
use melt_io::{MemDisk, SteadyDisk};
use melt_model::{Journal, Phase};
use melt_same::same;
use melt_scion::{Heap, Names, Registers};
use melt_word::{Header, HomeWord, Ref, encode_header, encode_home, encode_ref};
use std::alloc::Global;
use std::test::Fail;

/// Fails where the pair has not stayed as the only one at 1, with its scion, and with references to the home of the box.
fn same_words(heap: &Heap) -> Result<(), Fail> {
    let header = encode_header(Header {
        shape: PAIR,
        stale: false,
    });
    let home = encode_home(Some(HomeWord { home: 5, scion: 1 }));
    let to_box = encode_ref(Ref::Disk(1));
    let words = [header, home, to_box, 9];
    let globals = [to_box, encode_ref(Ref::Stale(1))];
    let scions = [Some((5, 1)), None];
    same(
        (
            heap.space.words(),
            used_words(&heap.space),
            heap.globals.items.as_slice(),
            [heap.scions.get(1), heap.scions.get(2)],
        ),
        (8, words.as_slice(), globals.as_slice(), scions),
    )
}

/// Fails where an object or a home has another number than is wanted.
fn same_numbers(names: &Option<Names>) -> Result<(), Fail> {
    let names = names.as_ref().ok_or("no names")?;
    let objects = [names.addresses.get(1), names.addresses.get(5)];
    let homes = [names.homes.get(1), names.homes.get(5), names.homes.get(9)];
    same(
        (objects, homes),
        ([Some(0), None], [Some(1), Some(0), None]),
    )
}

/// Fails where another collection is told, or the heap or the registers are not as they are to be after it.
fn same_moved(heap: &Heap, held: [Registers; 1], told: Told) -> Result<(), Fail> {
    let journal = Journal {
        phase: Phase::Move,
        held: 4,
        live: 4,
        bodies: 1,
        stubs: 1,
        end: 9,
    };
    same((held, told), (third_holds(1), (journal, Phase::Move, 9)))?;
    same_words(heap)?;
    same_numbers(&heap.names)
}

/// Collects the heap in which the pair has no home, and compares what is told and what it is then.
fn expect_moved(alloc: Global, disk: &mut SteadyDisk) -> Result<(), Fail> {
    let mut stale = StaleSpace::new(disk, 9);
    let heap = box_and_pair(alloc)?;
    let (heap, (told, held)) = collect_forced(alloc, heap, &mut stale)?;
    let compared = same_moved(&heap, held, told);
    drop(heap);
    compared
}

#[test]
fn a_stale_box_leaves_with_its_number_and_the_pair_that_it_names_gets_a_stub(
    rt: HostRuntime,
) -> Result<(), Fail> {
    let alloc = rt.alloc();
    let mut disk = SteadyDisk::new(alloc);
    expect_moved(alloc, &mut disk)?;
    // The Body of the box, whose slots have the homes of the pair and of itself, and the Stub of the pair with its scion.
    let image = [0, 4_294_967_809, 0, 23, 7, 21_474_902_274, 1];
    same((disk.writes, disk.image.as_slice()), (2, image.as_slice()))
}

/// Fails where the heap is not that of both, or something else is told than that the disk lacks a word.
fn same_both(heap: &Heap, told: ToldFull) -> Result<(), Fail> {
    let full = DiskFull {
        end: 1,
        need: 8,
        limit: 8,
    };
    same_full(told, full)?;
    let words = box_and_pair_words(0);
    let globals = box_and_pair_globals();
    same(
        (
            heap.scions.first(),
            used_words(&heap.space),
            heap.globals.items.as_slice(),
        ),
        (None, words.as_slice(), globals.as_slice()),
    )
}

/// Collects the same heap, for which the disk lacks a word, and compares what is handed back.
fn expect_both(alloc: Global, disk: &mut SteadyDisk) -> Result<(), Fail> {
    let mut stale = StaleSpace::new(disk, 8);
    let heap = box_and_pair(alloc)?;
    let (heap, told) = collect_full(alloc, heap, &mut stale)?;
    let compared = same_both(&heap, told);
    drop(heap);
    compared
}

#[test]
fn a_disk_with_one_word_too_few_leaves_the_heap_as_it_was(rt: HostRuntime) -> Result<(), Fail> {
    let alloc = rt.alloc();
    let mut disk = SteadyDisk::new(alloc);
    expect_both(alloc, &mut disk)?;
    same(disk.writes, 0)
}

/// Collects the same heap, and expects that a write fails.
fn expect_given_up(alloc: Global, disk: &mut MemDisk) -> Result<(), Fail> {
    let mut stale = StaleSpace::new(disk, 9);
    let heap = box_and_pair(alloc)?;
    expect_fault(alloc, heap, &mut stale, true)
}

#[test]
fn a_failing_write_gives_the_heap_up(rt: HostRuntime) -> Result<(), Fail> {
    let alloc = rt.alloc();
    let mut disk = failing(alloc)?;
    expect_given_up(alloc, &mut disk)?;
    same((disk.writes, disk.image.is_empty()), (1, true))
}
