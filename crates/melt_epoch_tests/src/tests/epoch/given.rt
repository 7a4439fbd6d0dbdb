ghost use Rattle.std.specs.Prelude.{◌≡◌, ◌^◌, ◌<◌, ℕ, false, length, [], Some, IfOk};
ghost use Rattle.melt_scion.specs.Heaps.{IsNewHeap};
ghost use Rattle.melt_epoch.specs.Tests.{AllMayStart, HasBegun, HasSizes, MayStart};

use crate::scene::call;
use melt_core::{Pause, Refusal};
use melt_epoch::{Epoch, Mutator};
use melt_io::{Failed, RecordReader};
use melt_model::{NoMemory, Op, Reply};
use melt_rule::Pass;
use melt_same::same;
use melt_scion::Heap;
use std::alloc::Global;
use std::test::Fail;

/// The reader of a disk that has no words, whose reads fail.
#[derive(Drop)]
pub(super) struct NoDisk {
    faults: u64,
}

impl RecordReader for NoDisk {
    ghost use Rattle.std.specs.Prelude.{Some, []};

    ghost image = { λ _. Some [] };

    ghost faults = { λ reader. reader.faults };

    ghost reads = { λ _. 0 };

    fn read_at(&mut self, _at: u32, _words: &mut [u64]) -> Result<(), Failed> {
        self.faults = self.faults.saturating_add(1);
        Err(Failed)
    }
}

/// The mutator of a thread, with a reader of no disk.
fn new_mutator(thread: u32) -> Mutator<NoDisk>
    requires { thread < 8 }
    ensures thread { result.thread ≡ thread }
    ensures may_start { MayStart (λ _. Some []) result }
{
    let mut mutator = Mutator::new(thread);
    mutator.set_reader(NoDisk { faults: 0 });
    mutator
}

pub(super) fn one_mutator() -> [Mutator<NoDisk>; 1]
    ensures { AllMayStart (λ _. Some []) result }
{
    [new_mutator(0)]
}

pub(super) fn two_mutators() -> [Mutator<NoDisk>; 2]
    ensures { AllMayStart (λ _. Some []) result }
{
    [new_mutator(0), new_mutator(1)]
}

pub(super) fn eight_mutators() -> [Mutator<NoDisk>; 8]
    ensures { AllMayStart (λ _. Some []) result }
{
    [
        new_mutator(0),
        new_mutator(1),
        new_mutator(2),
        new_mutator(3),
        new_mutator(4),
        new_mutator(5),
        new_mutator(6),
        new_mutator(7),
    ]
}

/// Begins an epoch on a new heap, over a disk that has no words.
fn begin_empty<R: RecordReader>(
    alloc: Global,
    heap: Heap,
    mutators: &mut [Mutator<R>],
) -> Result<Epoch, NoMemory>
    requires heap { (words : ℕ) × (globals : ℕ) × (forwards : ℕ) × HasSizes words globals forwards
        × IsNewHeap words globals forwards false heap }
    requires mutators { AllMayStart R.image mutators.old }
    ensures begun { IfOk result (λ epoch. HasBegun R.image epoch.words mutators.new) }
    ensures globals { IfOk result (λ epoch. length heap.globals ≡ epoch.words.start.began.globals) }
{
    Epoch::begin(alloc, heap, Pass::new(), 1, mutators)
}

/// Begins the epoch of a new heap of so many words, globals and forwarding words.
pub(super) fn begun(
    alloc: Global,
    words: u32,
    globals: u8,
    forwards: u8,
    mutators: &mut [Mutator<NoDisk>],
) -> Result<Epoch, NoMemory>
    requires words { words < 2 ^ 30 }
    requires mutators { AllMayStart (λ _. Some []) mutators.old }
    ensures begun { IfOk result (λ epoch. HasBegun (λ _. Some []) epoch.words mutators.new) }
    ensures globals { IfOk result (λ epoch. globals ≡ epoch.words.start.began.globals) }
{
    let heap = Heap::new(alloc, words, globals.into(), forwards.into(), false)?;
    begin_empty(alloc, heap, mutators)
}

/// A call of a mutator, and what it comes to.
#[derive(Clone, Copy)]
pub(super) struct Wanted {
    mutator: usize,
    op: Op,
    result: Result<Reply, Refusal>,
}

/// A call that is answered.
pub(super) fn answered(mutator: usize, op: Op, reply: Reply) -> Wanted {
    let result = Ok(reply);
    Wanted {
        mutator,
        op,
        result,
    }
}

/// A call that pauses.
pub(super) fn paused(mutator: usize, op: Op, pause: Pause) -> Wanted {
    let result = Err(Refusal::Pause(pause));
    Wanted {
        mutator,
        op,
        result,
    }
}

/// Makes calls one after the other, and compares what they come to.
fn expect(
    epoch: &Epoch,
    globals: u8,
    mutators: &mut [Mutator<NoDisk>],
    calls: &[Wanted],
) -> Result<(), Fail>
    requires globals { globals ≡ epoch.now.words.start.began.globals }
    requires begun { HasBegun (λ _. Some []) epoch.now.words mutators.old }
    ensures begun { HasBegun (λ _. Some []) epoch.now.words mutators.new }
{
    for (at, wanted) in calls.iter().enumerate() {
        if wanted.mutator >= mutators.len() {
            return Err("no mutator".into());
        }
        let result = call(epoch, globals, &mut mutators[wanted.mutator], wanted.op);
        same((at, result), (at, Some(wanted.result)))?;
    }
    Ok(())
}

/// Compares what calls leave of a heap: how many words are in use, and what its globals hold.
fn expect_left(compared: Result<(), Fail>, heap: &Heap, left: (u32, &[u64])) -> Result<(), Fail> {
    compared?;
    same((heap.space.used(), heap.globals.items.as_slice()), left)
}

/// Makes calls so in an epoch on a new heap of so many words, globals and forwarding words, and compares what they
/// leave of it.
pub(super) fn expect_in(
    alloc: Global,
    words: u32,
    globals: u8,
    forwards: u8,
    mutators: &mut [Mutator<NoDisk>],
    calls: &[Wanted],
    left: (u32, &[u64]),
) -> Result<(), Fail>
    requires words { words < 2 ^ 30 }
    requires mutators { AllMayStart (λ _. Some []) mutators.old }
{
    let epoch = begun(alloc, words, globals, forwards, mutators)?;
    let compared = expect(&epoch, globals, mutators, calls);
    let (heap, _pass) = epoch.finish(mutators);
    expect_left(compared, &heap, left)
}
