ghost use Rattle.std.specs.Prelude.{◌≡◌, ◌^◌, ◌<◌, [], Some};
ghost use Rattle.melt_epoch.specs.Tests.{AllMayStart, HasBegun, MayCall};

use super::given::{NoDisk, begun, eight_mutators, two_mutators};
use crate::play::{Signals, number_at};
use crate::scene::call;
use crate::tests::calls::{gload, gstore, new, put};
use crate::tests::judge::Deed;
use crate::tests::judged::{is_legal, loads, stores};
use melt_epoch::{Epoch, Mutator};
use melt_model::{NoMemory, Op, Reply};
use melt_same::same;
use std::alloc::{AllocError, Global};
use std::process::Abort;
use std::sync::atomic::{AtomicU64, Ordering};
use std::test::Fail;
use std::thread;
use std::thread::Threads;

/// Makes a call that is to be answered, in an epoch with one global.
fn reply_of<R: Abort>(rt: &R, epoch: &Epoch, m: &mut Mutator<NoDisk>, op: Op) -> Reply
    requires global { 1 ≡ epoch.now.words.start.began.globals }
    requires may { MayCall (λ _. Some []) epoch.now.words m.old }
    ensures { MayCall (λ _. Some []) epoch.now.words m.new }
{
    let Some(Ok(reply)) = call(epoch, 1, m, op) else {
        panic!(rt; "a call was refused");
    };
    reply
}

/// Makes objects of two words, stores each in the global, and loads that.
fn share_objects<R: Abort>(rt: &R, epoch: &Epoch, m: &mut Mutator<NoDisk>, objects: u32)
    requires global { 1 ≡ epoch.now.words.start.began.globals }
    requires may { MayCall (λ _. Some []) epoch.now.words m.old }
    ensures { MayCall (λ _. Some []) epoch.now.words m.new }
{
    for _object in 0..objects {
        let replies = [
            reply_of(rt, epoch, m, new(0, 0, 0)),
            reply_of(rt, epoch, m, gstore(0, 0)),
            reply_of(rt, epoch, m, gload(1, 0)),
        ];
        if replies != [Reply::Done, Reply::Done, Reply::Ref] {
            panic!(rt; "a call had another reply");
        }
    }
}

/// Lets all mutators do so at once.
fn all_share_objects<R: Abort + Threads + Sync>(
    rt: &R,
    epoch: &Epoch,
    mutators: &mut [Mutator<NoDisk>],
    objects: u32,
)
    requires global { 1 ≡ epoch.now.words.start.began.globals }
    requires begun { HasBegun (λ _. Some []) epoch.now.words mutators.old }
    ensures { HasBegun (λ _. Some []) epoch.now.words mutators.new }
{
    let signals = Signals::new();
    let threads = mutators.len() as u64;
    let share = |_at: usize, m: &mut Mutator<NoDisk>|
        requires global { 1 ≡ epoch.now.words.start.began.globals }
        requires may { MayCall (λ _. Some []) epoch.now.words m.now }
        ensures { MayCall (λ _. Some []) epoch.entry.now.words m.exit.now }
    {
        signals.meet(threads);
        share_objects(rt, epoch, m, objects);
    };
    thread::for_each_mut(rt, mutators, 8, &share);
}

/// Lets mutators do so in an epoch on a new heap of so many words. Answers how many of them are in use after it.
fn used_after<R: Abort + Threads + Sync>(
    rt: &R,
    alloc: Global,
    words: u32,
    mutators: &mut [Mutator<NoDisk>],
) -> Result<u32, NoMemory>
    requires words { words < 2 ^ 30 }
    requires mutators { AllMayStart (λ _. Some []) mutators.old }
{
    let epoch = begun(alloc, words, 1, 0, mutators)?;
    all_share_objects(rt, &epoch, mutators, 100);
    let (heap, _pass) = epoch.finish(mutators);
    Ok(heap.space.used())
}

/// Lets two threads do so.
fn used_by_two<R: Abort + Threads + Sync>(rt: &R, alloc: Global) -> Result<u32, NoMemory> {
    let mut mutators = two_mutators();
    used_after(rt, alloc, 1024, &mut mutators)
}

/// Lets eight threads do so.
fn used_by_eight<R: Abort + Threads + Sync>(rt: &R, alloc: Global) -> Result<u32, NoMemory> {
    let mut mutators = eight_mutators();
    used_after(rt, alloc, 2048, &mut mutators)
}

#[test]
fn two_threads_make_objects_and_share_them(rt: HostRuntime) -> Result<(), Fail> {
    same(used_by_two(&rt, rt.alloc()), Ok(400))
}

/// How often eight threads do so; `bench/rounds` tries more.
const ROUNDS: u32 = 100;

#[test]
fn eight_threads_make_objects_and_share_them(rt: HostRuntime) -> Result<(), Fail> {
    for round in 0..ROUNDS {
        let used = used_by_eight(&rt, rt.alloc());
        same((round, used), (round, Ok(1600)))?;
    }
    Ok(())
}

/// Makes the two objects of a thread, with their numbers, in registers 0 and 1.
fn make_two<R: Abort>(rt: &R, epoch: &Epoch, m: &mut Mutator<NoDisk>, thread: usize)
    requires global { 1 ≡ epoch.now.words.start.began.globals }
    requires may { MayCall (λ _. Some []) epoch.now.words m.old }
    ensures { MayCall (λ _. Some []) epoch.now.words m.new }
{
    for r in 0..2_u8 {
        reply_of(rt, epoch, m, new(r, 0, 1));
        reply_of(rt, epoch, m, put(r, 0, number_in(thread, r)));
    }
}

/// The number in an object of a thread.
fn number_in(thread: usize, r: u8) -> u64 {
    if thread == 0 {
        1 + u64::from(r)
    } else {
        3 + u64::from(r)
    }
}

/// Stores both objects in the global, and loads it after each. Writes down the numbers in what it found.
fn store_and_load<R: Abort>(rt: &R, epoch: &Epoch, m: &mut Mutator<NoDisk>, found: &[AtomicU64; 2])
    requires global { 1 ≡ epoch.now.words.start.began.globals }
    requires may { MayCall (λ _. Some []) epoch.now.words m.old }
    ensures { MayCall (λ _. Some []) epoch.now.words m.new }
{
    for r in 0..2_u8 {
        reply_of(rt, epoch, m, gstore(0, r));
        reply_of(rt, epoch, m, gload(2 + r, 0));
    }
    for r in 0..2_u8 {
        let Some(number) = number_at(epoch, 1, m, 2 + r) else {
            panic!(rt; "no number");
        };
        found[r as usize].store(number, Ordering::SeqCst);
    }
}

/// A store of the object with this number in the global. All calls are made at one time, so that only the order of those
/// of one thread is known.
fn stored(number: u64) -> Deed {
    stores(number, 0, 1)
}

/// A load of the global that found the object with this number.
fn found(number: u64) -> Deed {
    loads(number, 0, 1)
}

/// What a thread did that found objects with these numbers.
fn calls_of(thread: usize, numbers: &[AtomicU64; 2]) -> [Deed; 4] {
    [
        stored(number_in(thread, 0)),
        found(numbers[0].load(Ordering::SeqCst)),
        stored(number_in(thread, 1)),
        found(numbers[1].load(Ordering::SeqCst)),
    ]
}

/// Lets two threads do so at once. Answers what they did.
fn both_store_and_load<R: Abort + Threads + Sync>(
    rt: &R,
    epoch: &Epoch,
    mutators: &mut [Mutator<NoDisk>],
) -> [[Deed; 4]; 2]
    requires global { 1 ≡ epoch.now.words.start.began.globals }
    requires begun { HasBegun (λ _. Some []) epoch.now.words mutators.old }
    ensures { HasBegun (λ _. Some []) epoch.now.words mutators.new }
{
    let signals = Signals::new();
    let first = [AtomicU64::new(0), AtomicU64::new(0)];
    let second = [AtomicU64::new(0), AtomicU64::new(0)];
    let play = |at: usize, m: &mut Mutator<NoDisk>|
        requires global { 1 ≡ epoch.now.words.start.began.globals }
        requires may { MayCall (λ _. Some []) epoch.now.words m.now }
        ensures { MayCall (λ _. Some []) epoch.entry.now.words m.exit.now }
    {
        let found = if at == 0 { &first } else { &second };
        signals.meet(2);
        store_and_load(rt, epoch, m, found);
    };
    thread::for_each_mut(rt, mutators, 2, &play);
    [calls_of(0, &first), calls_of(1, &second)]
}

/// Makes the objects of each thread.
fn make_all<R: Abort>(rt: &R, epoch: &Epoch, mutators: &mut [Mutator<NoDisk>])
    requires global { 1 ≡ epoch.now.words.start.began.globals }
    requires begun { HasBegun (λ _. Some []) epoch.now.words mutators.old }
    ensures { HasBegun (λ _. Some []) epoch.now.words mutators.new }
{
    for k in 0..mutators.len() {
        make_two(rt, epoch, &mut mutators[k], k);
    }
}

/// Lets two threads store and load so many times, and looks for an order each time. Answers how often there was one
/// before there was none.
fn play_rounds<R: Abort + Threads + Sync>(
    rt: &R,
    alloc: Global,
    epoch: &Epoch,
    mutators: &mut [Mutator<NoDisk>],
    rounds: u32,
) -> Result<u32, AllocError>
    requires global { 1 ≡ epoch.now.words.start.began.globals }
    requires begun { HasBegun (λ _. Some []) epoch.now.words mutators.old }
    ensures { HasBegun (λ _. Some []) epoch.now.words mutators.new }
{
    for round in 0..rounds {
        let [first, second] = both_store_and_load(rt, epoch, mutators);
        if !is_legal(alloc, &first, &second)? {
            return Ok(round);
        }
    }
    Ok(rounds)
}

#[test]
fn what_two_threads_find_in_a_global_stands_in_an_order(rt: HostRuntime) -> Result<(), Fail> {
    let mut mutators = two_mutators();
    let epoch = begun(rt.alloc(), 64, 1, 0, &mut mutators)?;
    make_all(&rt, &epoch, &mut mutators);
    let ordered = play_rounds(&rt, rt.alloc(), &epoch, &mut mutators, 1000);
    let (heap, _pass) = epoch.finish(&mut mutators);
    same((ordered, heap.space.used()), (Ok(1000), 12))
}

#[test]
fn an_order_of_calls_is_told(rt: HostRuntime) -> Result<(), Fail> {
    let first = [stored(1), stored(2), stored(1), stored(2)];
    for (numbers, wanted) in [
        ([0, 1, 2, 1], true),
        ([2, 1, 2, 2], true),
        ([2, 1, 2, 1], false),
        ([1, 0, 1, 1], false),
        ([3, 2, 2, 2], false),
    ] {
        let [a, b, c, d] = numbers;
        let second = [found(a), found(b), found(c), found(d)];
        let is_ordered = is_legal(rt.alloc(), &first, &second)?;
        same((numbers, is_ordered), (numbers, wanted))?;
    }
    Ok(())
}
