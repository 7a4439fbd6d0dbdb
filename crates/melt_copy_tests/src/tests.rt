ghost use Rattle.std.specs.Prelude.{◌≡◌, ◌<◌, ◌∷◌, [], length, replicate, true, IfOk, OnOk};
ghost use Rattle.melt_word.specs.Words.{IsShape, header_word};
ghost use Rattle.melt_scion.specs.Heaps.{IsFormed, IsNewHeap, IsSettled};
ghost use Rattle.melt_copy.specs.Copying.{IsCopying};
ghost use Rattle.melt_copy.specs.Settling.{IsFormedTo};

use crate::heaps::{heap_of, used_words};
use melt_copy::{Forwarding, LiveSet, Relocation, collect_copy, reach, settle};
use melt_disk::StaleSpace;
use melt_forward::pack;
use melt_io::{Failed, MemDisk, StaleDisk, SteadyDisk};
use melt_model::{Journal, NoMemory, Phase, Steps};
use melt_same::same;
use melt_scion::{AddressNames, Heap, Names, Registers};
use melt_word::{Header, HomeWord, Ref, Shape, encode_header, encode_home, encode_ref};
use std::alloc::Global;
use std::marker::Brand;
use std::sync::ledger::{Blank, Ledger};
use std::test::Fail;

/// Collects a heap, and counts no steps.
fn collect_uncounted<L: Ledger>(
    alloc: Global,
    heap: &mut Heap,
    held: &mut [Registers],
    phase: Phase,
    blank: Blank,
) -> Result<Journal, NoMemory>
    requires name { blank.name ≡ L.name }
    requires parts { blank.parts ≡ L.parts }
    requires some { 0 < blank.parts }
    requires formed { IsFormed heap.old held.old }
    requires settled { IsSettled heap.old }
    requires phase { IsCopying phase }
{
    let mut steps = Steps::<L>::new(blank);
    collect_copy(alloc, heap, held, phase, &mut steps)
}

/// Finds what can be reached in a heap, and counts no steps.
fn reach_uncounted<L: Ledger>(
    alloc: Global,
    heap: &Heap,
    held: &[Registers],
    blank: Blank,
) -> Result<LiveSet, NoMemory>
    requires name { blank.name ≡ L.name }
    requires parts { blank.parts ≡ L.parts }
    requires some { 0 < blank.parts }
    requires formed { IsFormed heap.now held.now }
{
    let mut steps = Steps::<L>::new(blank);
    reach(alloc, heap, held, &mut steps)
}

/// The journal of a collection after which so many words are in use, and so many of these are those of objects in
/// registers.
fn journal_of(phase: Phase, live: u32, held: u32) -> Journal
    ensures { result.phase ≡ phase }
{
    Journal {
        phase,
        held,
        live,
        bodies: 0,
        stubs: 0,
        end: 0,
    }
}

const PAIR: Shape = Shape { refs: 1, nums: 1 };

const LEAF: Shape = Shape { refs: 0, nums: 0 };

/// Registers of two threads. Register 3 of the second one holds an object, and all others nothing.
fn second_holds(address: u32) -> [Registers; 2]
    ensures { result ≡ record { regs = replicate 16 0 }
        ∷ record { regs = 0 ∷ 0 ∷ 0 ∷ address ∷ replicate 12 0 } ∷ [] }
{
    let mut regs = [0; 16];
    regs[3] = address;
    [Registers { regs: [0; 16] }, Registers { regs }]
}

/// A heap of 10 words with three objects. The first is not reached. The second is a pair in register 3 of thread 1,
/// with a stale reference to the third and the number 9. The third is a leaf, to which a global refers.
fn three_objects(alloc: Global) -> Result<(Heap, [Registers; 2]), Fail>
    ensures formed { IfOk result (λ made. IsFormed made.0 made.1) }
    ensures settled { IfOk result (λ made. IsSettled made.0) }
{
    let first = header(Shape { refs: 0, nums: 1 }, false);
    let second = header(PAIR, false);
    let third = header(LEAF, false);
    let slot = encode_ref(Ref::Stale(8));
    let words = [first, 0, 0, second, 0, slot, 9, third, 0];
    let global = encode_ref(Ref::Clean(8));
    let mut addresses = AddressNames::new(alloc, 10)?;
    addresses.set(1, 0);
    addresses.set(4, 1);
    addresses.set(8, 2);
    let heap = heap_of(alloc, 10, &words, addresses, &[global], &[])?;
    Ok((heap, second_holds(4)))
}

/// The home of the object that a scion names.
const HOME: HomeWord = HomeWord { home: 1, scion: 1 };

/// A heap of 4 words with two leaves, the second of which a live scion names. Nothing refers to the first one.
fn two_leaves(alloc: Global) -> Result<(Heap, [Registers; 1]), Fail>
    ensures formed { IfOk result (λ made. IsFormed made.0 made.1) }
    ensures settled { IfOk result (λ made. IsSettled made.0) }
{
    let leaf = header(LEAF, false);
    let words = [leaf, 0, leaf, encode_home(Some(HOME))];
    let mut addresses = AddressNames::new(alloc, 4)?;
    addresses.set(3, 0);
    let mut heap = heap_of(alloc, 4, &words, addresses, &[], &[])?;
    let _scion = heap.scions.add(HOME.home, 3);
    Ok((heap, [Registers { regs: [0; 16] }]))
}

/// The word of a header.
fn header(shape: Shape, stale: bool) -> u64
    requires { IsShape shape }
    ensures { result ≡ header_word (record { shape = shape; stale = stale }) }
{
    encode_header(Header { shape, stale })
}

/// Collects a heap in the phase of this journal. Fails where the journal, the words in use, globals or registers are
/// others than these, or there are more words or fewer than before.
fn collect_to(
    alloc: Global,
    heap: &mut Heap,
    held: &mut [Registers],
    journal: Journal,
    words: &[u64],
    globals: &[u64],
    registers: &[Registers],
) -> Result<(), Fail>
    requires formed { IsFormed heap.old held.old }
    requires settled { IsSettled heap.old }
    requires phase { IsCopying journal.phase }
{
    let count = heap.space.words();
    let made = collect_uncounted::<Brand>(alloc, heap, held, journal.phase, Blank::new(1))?;
    same((made, heap.space.words()), (journal, count))?;
    same(
        (
            used_words(&heap.space),
            heap.globals.items.as_slice(),
            &*held,
        ),
        (words, globals, registers),
    )
}

/// Fails where an object has another number than is wanted at its address.
fn same_numbers(names: &Option<Names>, wanted: &[(u32, Option<u32>)]) -> Result<(), Fail> {
    let names = names.as_ref().ok_or("no names")?;
    for (address, want) in wanted {
        same((*address, names.addresses.get(*address)), (*address, *want))?;
    }
    Ok(())
}

/// Fails where an object goes to another address than is wanted, or one was found where none is.
fn same_places(forwarding: &Forwarding, wanted: &[(u32, u32)]) -> Result<(), Fail> {
    for (address, want) in wanted {
        same(
            (*address, forwarding.forwarded(*address)),
            (*address, *want),
        )?;
    }
    Ok(())
}

/// Collects a new heap of 4 words with one global.
fn collect_none(alloc: Global, heap: &mut Heap) -> Result<(), Fail>
    requires { IsNewHeap 4 1 2 true heap.old }
{
    let mut held = [Registers { regs: [0; 16] }];
    let journal = journal_of(Phase::Inactive, 0, 0);
    let registers = [Registers { regs: [0; 16] }];
    collect_to(alloc, heap, &mut held, journal, &[], &[0], &registers)
}

#[test]
fn a_heap_without_objects_stays_so(rt: HostRuntime) -> Result<(), Fail> {
    let alloc = rt.alloc();
    let mut heap = Heap::new(alloc, 4, 1, 2, true)?;
    let compared = collect_none(alloc, &mut heap);
    // Each heap here is let go by name, which is proved once: one that goes at the end of its function is proved there, part
    // by part.
    drop(heap);
    compared
}

/// Collects the heap of `three_objects` in a phase. After it the leaf has the stale bit or has not, and the global
/// refers
/// to it by this word.
fn collect_three(
    alloc: Global,
    heap: &mut Heap,
    held: &mut [Registers],
    phase: Phase,
    stale: bool,
    global: u64,
) -> Result<(), Fail>
    requires formed { IsFormed heap.old held.old }
    requires settled { IsSettled heap.old }
    requires phase { IsCopying phase }
{
    let journal = journal_of(phase, 6, 4);
    let pair = header(PAIR, false);
    let leaf = header(LEAF, stale);
    let words = [pair, 0, encode_ref(Ref::Stale(5)), 9, leaf, 0];
    let registers = second_holds(1);
    collect_to(alloc, heap, held, journal, &words, &[global], &registers)?;
    let numbers = [(1, Some(1)), (4, None), (5, Some(2)), (8, None)];
    same_numbers(&heap.names, &numbers)
}

#[test]
fn what_is_reached_moves_to_the_front_with_its_numbers(rt: HostRuntime) -> Result<(), Fail> {
    let alloc = rt.alloc();
    let (mut heap, mut held) = three_objects(alloc)?;
    let global = encode_ref(Ref::Clean(5));
    let phase = Phase::Inactive;
    let compared = collect_three(alloc, &mut heap, &mut held, phase, false, global);
    drop(heap);
    compared
}

#[test]
fn mark_leaves_only_held_objects_without_the_stale_bit(rt: HostRuntime) -> Result<(), Fail> {
    let alloc = rt.alloc();
    let (mut heap, mut held) = three_objects(alloc)?;
    let global = encode_ref(Ref::Stale(5));
    let phase = Phase::Mark;
    let compared = collect_three(alloc, &mut heap, &mut held, phase, true, global);
    drop(heap);
    compared
}

/// Collects the heap of `two_leaves`.
fn collect_leaf(alloc: Global, heap: &mut Heap, held: &mut [Registers]) -> Result<(), Fail>
    requires formed { IsFormed heap.old held.old }
    requires settled { IsSettled heap.old }
{
    let journal = journal_of(Phase::Inactive, 2, 0);
    let words = [header(LEAF, false), encode_home(Some(HOME))];
    let registers = [Registers { regs: [0; 16] }];
    collect_to(alloc, heap, held, journal, &words, &[], &registers)?;
    same_leaf(heap)
}

/// Fails where the leaf that a scion named is not at 1, with its scion and its number.
fn same_leaf(heap: &Heap) -> Result<(), Fail> {
    let scions = [heap.scions.get(1), heap.scions.get(2)];
    same(
        (heap.scions.first(), scions),
        (Some(1), [Some((HOME.home, 1)), None]),
    )?;
    same_numbers(&heap.names, &[(1, Some(0)), (3, None)])
}

#[test]
fn an_object_that_a_scion_alone_names_stays(rt: HostRuntime) -> Result<(), Fail> {
    let alloc = rt.alloc();
    let (mut heap, mut held) = two_leaves(alloc)?;
    let compared = collect_leaf(alloc, &mut heap, &mut held);
    drop(heap);
    compared
}

/// Finds what can be reached in a heap. Fails where other objects are found than are wanted, of other sizes, or they go to
/// other places.
fn expect_live(
    alloc: Global,
    heap: &Heap,
    held: &[Registers],
    moves: &[Relocation],
    sizes: (u32, usize, u32),
    places: &[(u32, u32)],
) -> Result<(), Fail>
    requires { IsFormed heap.now held.now }
{
    let live = reach_uncounted::<Brand>(alloc, heap, held, Blank::new(1))?;
    same_live(&live, moves, sizes, places)
}

fn same_live(
    live: &LiveSet,
    moves: &[Relocation],
    sizes: (u32, usize, u32),
    places: &[(u32, u32)],
) -> Result<(), Fail> {
    let found = (live.forwarding.next, live.held_count, live.held_words);
    same((live.forwarding.moves.as_slice(), found), (moves, sizes))?;
    same_places(&live.forwarding, places)
}

#[test]
fn what_is_reached_is_found_once_and_the_held_first(rt: HostRuntime) -> Result<(), Fail> {
    let alloc = rt.alloc();
    let (heap, held) = three_objects(alloc)?;
    let pair = Relocation {
        from: 4,
        to: 1,
        shape: PAIR,
    };
    let leaf = Relocation {
        from: 8,
        to: 5,
        shape: LEAF,
    };
    let places = [(0, 0), (1, 0), (4, 1), (5, 0), (8, 5), (9, 0), (10, 0)];
    let compared = expect_live(alloc, &heap, &held, &[pair, leaf], (7, 1, 4), &places);
    drop(heap);
    compared
}

#[test]
fn an_object_that_a_scion_alone_names_is_found(rt: HostRuntime) -> Result<(), Fail> {
    let alloc = rt.alloc();
    let (heap, held) = two_leaves(alloc)?;
    let leaf = Relocation {
        from: 3,
        to: 1,
        shape: LEAF,
    };
    let places = [(1, 0), (2, 0), (3, 1)];
    let compared = expect_live(alloc, &heap, &held, &[leaf], (3, 0, 0), &places);
    drop(heap);
    compared
}

#[test]
fn objects_at_an_even_and_at_the_next_odd_address_are_told_apart(
    rt: HostRuntime,
) -> Result<(), Fail> {
    let mut forwarding = Forwarding::new(rt.alloc(), 9)?;
    // The object at 1 goes to 5, that at 4 to 1, and that at 7 to 2.
    forwarding.entries[0] = 11;
    forwarding.entries[2] = 2;
    forwarding.entries[3] = 5;
    let places = [
        (0, 0),
        (1, 5),
        (2, 0),
        (3, 0),
        (4, 1),
        (5, 0),
        (6, 0),
        (7, 2),
        (8, 0),
        (9, 0),
        (10, 0),
    ];
    same_places(&forwarding, &places)
}

/// A heap of 4 words with two leaves that came back from the homes 1 and 3. The second of its three forwarding words is
/// empty.
fn two_forwarded(alloc: Global) -> Result<Heap, Fail>
    ensures formed { IfOk result (λ heap. IsFormedTo heap 5) }
    ensures size { IfOk result (λ heap. length heap.space.list ≡ 4) }
{
    let leaf = header(LEAF, false);
    let first = encode_home(Some(HomeWord { home: 1, scion: 0 }));
    let second = encode_home(Some(HomeWord { home: 3, scion: 0 }));
    let words = [leaf, first, leaf, second];
    let forward = [pack(1, 1), 0, pack(3, 3)];
    let mut addresses = AddressNames::new(alloc, 4)?;
    addresses.set(1, 0);
    addresses.set(3, 1);
    Ok(heap_of(alloc, 4, &words, addresses, &[], &forward)?)
}

/// Reserves the homes 1 and 3, for two leaves.
fn reserve_two<D: StaleDisk>(space: &mut StaleSpace<'_, D>) -> Result<(), Fail>
    requires { space.old.end ≡ 1 }
    ensures { OnOk result (space.new.end ≡ 5) }
{
    let first = space.reserve_home(LEAF)?;
    let second = space.reserve_home(LEAF)?;
    same((first, second), (1, 3))
}

/// The words of the disk after both are settled: the Stub of each leaf, with its scion.
const STUBS: [u64; 5] = [0, 4_294_967_298, 1, 12_884_901_890, 2];

/// Settles the heap of `two_forwarded` over a disk, and compares what is settled, and the heap then.
fn settle_two(heap: &mut Heap, disk: &mut SteadyDisk) -> Result<(), Fail>
    requires { IsFormedTo heap.old 5 }
{
    let mut space = StaleSpace::new(disk, 9);
    reserve_two(&mut space)?;
    let settled = settle(heap, &mut space);
    let scions = [heap.scions.get(1), heap.scions.get(2)];
    same((settled, scions), (Ok(2), [Some((1, 1)), Some((3, 3))]))?;
    let words = [1, 4_294_967_300, 1, 12_884_901_896];
    same(
        (heap.forward.items.as_slice(), used_words(&heap.space)),
        ([0, 0, 0].as_slice(), words.as_slice()),
    )
}

/// The same over a new disk, of which the words are compared too.
fn expect_two(alloc: Global, heap: &mut Heap) -> Result<(), Fail>
    requires { IsFormedTo heap.old 5 }
{
    let mut disk = SteadyDisk::new(alloc);
    settle_two(heap, &mut disk)?;
    same(disk.image.as_slice(), STUBS.as_slice())
}

#[test]
fn objects_that_came_back_are_settled(rt: HostRuntime) -> Result<(), Fail> {
    let alloc = rt.alloc();
    let mut heap = two_forwarded(alloc)?;
    let compared = expect_two(alloc, &mut heap);
    drop(heap);
    compared
}

/// Settles the heap of `two_forwarded` over a disk of which the second write fails, and then once more.
fn settle_twice(heap: &mut Heap, disk: &mut MemDisk) -> Result<(), Fail>
    requires { IsFormedTo heap.old 5 }
{
    let mut space = StaleSpace::new(disk, 9);
    reserve_two(&mut space)?;
    let refused = (settle(heap, &mut space), heap.scions.get(2));
    let forward = [0, 0, 12_884_901_900];
    same(
        (refused, heap.forward.items.as_slice()),
        ((Err(Failed), None), forward.as_slice()),
    )?;
    let settled = (settle(heap, &mut space), heap.scions.get(2));
    same(settled, (Ok(1), Some((3, 3))))
}

/// The same over a new disk, of which the words and the faults are compared too.
fn expect_fault(alloc: Global, heap: &mut Heap) -> Result<(), Fail>
    requires { IsFormedTo heap.old 5 }
{
    let mut disk = MemDisk::new(alloc);
    disk.fail_writes.push(2)?;
    settle_twice(heap, &mut disk)?;
    same(
        (disk.image.as_slice(), disk.writes, disk.faults.count()),
        (STUBS.as_slice(), 3, 1),
    )
}

#[test]
fn a_stub_that_cannot_be_written_leaves_its_object_forwarded(rt: HostRuntime) -> Result<(), Fail> {
    let alloc = rt.alloc();
    let mut heap = two_forwarded(alloc)?;
    let compared = expect_fault(alloc, &mut heap);
    drop(heap);
    compared
}

#[test]
fn a_heap_without_forwardings_is_settled(rt: HostRuntime) -> Result<(), Fail> {
    let alloc = rt.alloc();
    let mut heap = Heap::new(alloc, 4, 1, 2, true)?;
    let mut disk = SteadyDisk::new(alloc);
    let mut space = StaleSpace::new(&mut disk, 9);
    same(settle(&mut heap, &mut space), Ok(0))?;
    same(disk.writes, 0)
}
