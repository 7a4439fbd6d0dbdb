ghost use Rattle.std.specs.Prelude.{◌≡◌, ◌<◌, ◌∷◌, [], Some, IfOk};
ghost use Rattle.melt_word.specs.Words.{home_word};
ghost use Rattle.melt_forward.specs.Forwarding.{forward_word};
ghost use Rattle.melt_move.specs.Collecting.{IsFormedOn};
ghost use Rattle.melt_move_tests.specs.Held.{third_holds};

use melt_copy_tests::heaps::heap_of;
use melt_disk::{DiskFull, StaleSpace};
use melt_forward::pack;
use melt_io::{MemDisk, StaleDisk, SteadyDisk};
use melt_model::{Journal, NoMemory, Phase, Steps};
use melt_move::collect::MoveRefusal;
use melt_move::planned::{Plan, collect_planned};
use melt_same::same;
use melt_scion::{AddressNames, Heap, Registers};
use melt_word::{Header, HomeWord, Ref, Shape, encode_header, encode_home, encode_ref};
use std::alloc::Global;
use std::marker::Brand;
use std::sync::ledger::{Blank, Ledger};
use std::test::Fail;

pub const PAIR: Shape = Shape { refs: 1, nums: 1 };

const BOX: Shape = Shape { refs: 2, nums: 0 };

/// The words of a stale box at 1, which has no home and refers to a pair and to itself, and of the pair at 5, which has
/// this home word, refers to the box, and has the number 9.
pub fn box_and_pair_words(home: u64) -> [u64; 8]
    ensures { result ≡ 515 ∷ 0 ∷ 20 ∷ 5 ∷ 65793 ∷ home ∷ 5 ∷ 9 ∷ [] }
{
    let stale_box = encode_header(Header {
        shape: BOX,
        stale: true,
    });
    let pair = encode_header(Header {
        shape: PAIR,
        stale: false,
    });
    let to_pair = encode_ref(Ref::Clean(5));
    let to_box = encode_ref(Ref::Stale(1));
    [stale_box, 0, to_pair, to_box, pair, home, to_box, 9]
}

/// The globals of a heap of both: the first refers to the box, and the second to the pair.
pub fn box_and_pair_globals() -> [u64; 2]
    ensures { result ≡ 5 ∷ 20 ∷ [] }
{
    [encode_ref(Ref::Stale(1)), encode_ref(Ref::Clean(5))]
}

/// Registers of one thread, of which the one with the number 2 holds what is at an address.
pub fn third_holds(address: u32) -> [Registers; 1]
    ensures { result ≡ third_holds address }
{
    let mut regs = [0; 16];
    regs[2] = address;
    [Registers { regs }]
}

/// A heap of 8 words with both and with these forwarding words. The pair has the number 0, and the box the number 1.
fn heap_of_both(alloc: Global, home: u64, forward: &[u64]) -> Result<Heap, NoMemory>
    ensures alone { home ≡ 0 → forward.now ≡ [] → IfOk result (λ heap. IsFormedOn heap (third_holds 5) 1) }
    ensures back { home ≡ home_word (Some (record { home = 1; scion = 0 })) → forward.now ≡ forward_word 1 5 ∷ []
        → IfOk result (λ heap. IsFormedOn heap (third_holds 5) 5) }
{
    let mut addresses = AddressNames::new(alloc, 8)?;
    addresses.set(5, 0);
    addresses.set(1, 1);
    let words = box_and_pair_words(home);
    let globals = box_and_pair_globals();
    let heap = heap_of(alloc, 8, &words, addresses, &globals, forward)?;
    Ok(heap)
}

/// The heap in which the pair has no home.
pub fn box_and_pair(alloc: Global) -> Result<Heap, NoMemory>
    ensures { IfOk result (λ heap. IsFormedOn heap (third_holds 5) 1) }
{
    heap_of_both(alloc, 0, &[])
}

/// The heap in which the pair came back from the home 1.
pub fn box_and_pair_back(alloc: Global) -> Result<Heap, NoMemory>
    ensures { IfOk result (λ heap. IsFormedOn heap (third_holds 5) 5) }
{
    let home = encode_home(Some(HomeWord { home: 1, scion: 0 }));
    heap_of_both(alloc, home, &[pack(1, 5)])
}

/// Every phase but Inactive is planned as soon as it may be.
pub const EAGER: Plan = Plan {
    next: Phase::Inactive,
    mark: 0,
    move_: 0,
};

/// What is told of a collection: its journal, the phase that is planned after it, and where the homes end then.
pub type Told = (Journal, Phase, u32);

/// Makes a planned collection, and counts no steps.
fn collect_uncounted<D: StaleDisk, L: Ledger>(
    alloc: Global,
    heap: Heap,
    held: &mut [Registers],
    disk: &mut StaleSpace<'_, D>,
    plan: &mut Plan,
    force: bool,
    blank: Blank,
) -> Result<(Heap, Journal), MoveRefusal>
    requires name { blank.name ≡ L.name }
    requires parts { blank.parts ≡ L.parts }
    requires some { 0 < blank.parts }
    requires formed { IsFormedOn heap held.old disk.old.end }
    ensures { IfOk result (λ done. IsFormedOn done.0 held.new disk.new.end) }
{
    let mut steps = Steps::<L>::new(blank);
    collect_planned(alloc, heap, held, disk, plan, force, &mut steps)
}

/// Makes a planned collection.
fn collect<D: StaleDisk>(
    alloc: Global,
    heap: Heap,
    held: &mut [Registers],
    disk: &mut StaleSpace<'_, D>,
    plan: &mut Plan,
    force: bool,
) -> Result<(Heap, Journal), MoveRefusal>
    requires { IsFormedOn heap held.old disk.old.end }
    ensures { IfOk result (λ done. IsFormedOn done.0 held.new disk.new.end) }
{
    collect_uncounted::<D, Brand>(alloc, heap, held, disk, plan, force, Blank::new(1))
}

/// Makes a planned collection, which is not refused.
pub fn collect_told(
    alloc: Global,
    heap: Heap,
    held: &mut [Registers],
    disk: &mut StaleSpace<'_, SteadyDisk>,
    plan: &mut Plan,
    force: bool,
) -> Result<(Heap, Told), Fail>
    requires { IsFormedOn heap held.old disk.old.end }
    ensures { IfOk result (λ done. IsFormedOn done.0 held.new disk.new.end) }
{
    match collect(alloc, heap, held, disk, plan, force) {
        Ok((heap, journal)) => Ok((heap, (journal, plan.next, disk.end()))),
        // What goes at the end of a function is proved there, part by part, and what goes by name once for all.
        Err(refusal) => {
            drop(refusal);
            Err("refused".into())
        }
    }
}

/// Makes a forced collection, which is not refused. Answers what is told, and what registers hold then.
pub fn collect_forced(
    alloc: Global,
    heap: Heap,
    disk: &mut StaleSpace<'_, SteadyDisk>,
) -> Result<(Heap, (Told, [Registers; 1])), Fail>
    requires { IsFormedOn heap (third_holds 5) disk.old.end }
{
    let mut held = third_holds(5);
    let mut plan = EAGER;
    let (heap, told) = collect_told(alloc, heap, &mut held, disk, &mut plan, true)?;
    Ok((heap, (told, held)))
}

/// What is handed back where the disk lacks room.
fn handed_back(made: Result<(Heap, Journal), MoveRefusal>) -> Result<(Heap, DiskFull), Fail> {
    match made {
        Err(MoveRefusal::DiskFull { heap, full }) => Ok((heap, full)),
        other => {
            drop(other);
            Err("not refused for want of room".into())
        }
    }
}

/// What is told of a collection for which the disk lacks room: the room that it lacks, where the homes end then, what
/// registers hold, and what is planned.
pub type ToldFull = (DiskFull, u32, [Registers; 1], Plan);

/// Makes a forced collection, for which the disk lacks room.
pub fn collect_full(
    alloc: Global,
    heap: Heap,
    disk: &mut StaleSpace<'_, SteadyDisk>,
) -> Result<(Heap, ToldFull), Fail>
    requires { IsFormedOn heap (third_holds 5) disk.old.end }
{
    let mut held = third_holds(5);
    let mut plan = EAGER;
    let made = collect(alloc, heap, &mut held, disk, &mut plan, true);
    let (heap, full) = handed_back(made)?;
    Ok((heap, (full, disk.end(), held, plan)))
}

/// Fails where something else than this is told, or registers, homes or plan are not as they were.
pub fn same_full(told: ToldFull, full: DiskFull) -> Result<(), Fail> {
    same(told, (full, full.end, third_holds(5), EAGER))
}

/// A disk of which the first write fails.
pub fn failing(alloc: Global) -> Result<MemDisk, NoMemory> {
    let mut disk = MemDisk::new(alloc);
    disk.fail_writes.push(1)?;
    Ok(disk)
}

/// Whether a collection gave the heap up.
fn is_given_up(made: Result<(Heap, Journal), MoveRefusal>) -> bool {
    let given_up = matches!(made, Err(MoveRefusal::DiskFault));
    drop(made);
    given_up
}

/// Makes a collection over a disk of which the first write fails. Fails where the heap is not given up, registers hold
/// something, or the plan is not as it was.
pub fn expect_fault(
    alloc: Global,
    heap: Heap,
    disk: &mut StaleSpace<'_, MemDisk>,
    force: bool,
) -> Result<(), Fail>
    requires { IsFormedOn heap (third_holds 5) disk.old.end }
{
    let mut held = third_holds(5);
    let mut plan = EAGER;
    let made = collect(alloc, heap, &mut held, disk, &mut plan, force);
    same(
        (is_given_up(made), held, plan),
        (true, third_holds(0), EAGER),
    )
}
