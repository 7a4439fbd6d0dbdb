//! An epoch of a run: its threads go on at once, each as far as it can.
//!
//! What is said of each thread in the epoch is said of what its own seat has seen. At the end all that was seen is the
//! beginning of one history, with all entries of the thread in it: so its replies are those that this history gives it.
ghost use Rattle.std.specs.Prelude.{◌≡◌, ◌<◌, ◌≤◌, length, IfOk, IfSome, OnErr, Some};
ghost use Rattle.melt_trace.specs.Script.{Script};
ghost use Rattle.melt_epoch.specs.Ends.{HeapBegins, HistoryBegins, MutatorsBegin};
ghost use Rattle.melt_epoch.specs.Mutators.{HasReader};
ghost use Rattle.melt_pool.specs.Epochs.{AllMayRun, AllRead, AllRest, AllRun, Ended};
ghost use Rattle.melt_pool.specs.Firsts.{AllCame, LacksAt, MayCallAt};
ghost use Rattle.melt_pool.specs.Workers.{MayRun, Runs, image_of};

use crate::first::{First, call_first};
use crate::worker::{Worker, run_worker};
use melt_epoch::{Epoch, Mutator};
use melt_io::{Gate, RecordReader};
use melt_model::{Ghost, NoMemory};
use melt_rule::{Pass, Start};
use melt_scion::Heap;
use std::alloc::Global;
use std::thread;
use std::thread::Threads;

/// Runs all threads of an epoch at once, each in a thread of its own, until each of them waits or has ended.
fn run_all<X: Threads + Sync, R: RecordReader + Send + Drop, G: Gate + Sync>(
    rt: &X,
    epoch: &Epoch,
    mutators: &mut [Mutator<Worker<'_, R>>],
    every: u32,
    gate: &G,
)
    requires some { 0 < length mutators.old }
    requires runs { (script : Script) × AllMayRun script epoch.now.words mutators.old }
    requires readers { AllRead (image_of R.image) epoch.now.words mutators.old }
    ensures runs { AllRun R.faults epoch.now.end every epoch.now.words mutators.old mutators.new }
    ensures readers { AllRead (image_of R.image) epoch.now.words mutators.new }
{
    let threads = mutators.len();
    let run = |_at: usize, m: &mut Mutator<Worker<'_, R>>|
        requires runs { (script : Script) × MayRun script epoch.now.words m.now }
        requires reader { HasReader (image_of R.image) epoch.now.words m.now }
        ensures runs { Runs R.faults epoch.entry.now.end every epoch.entry.now.words m.entry.now m.exit.now }
        ensures reader { HasReader (image_of R.image) epoch.entry.now.words m.exit.now }
    {
        run_worker(epoch, m, every, gate);
    };
    thread::for_each_mut(rt, mutators, threads, &run);
}

/// Makes the call of one thread before any other runs, and runs all after it, if it goes on.
fn run_after<X: Threads + Sync, R: RecordReader + Send + Drop, G: Gate + Sync>(
    rt: &X,
    epoch: &Epoch,
    mutators: &mut [Mutator<Worker<'_, R>>],
    every: u32,
    t: u32,
    gate: &G,
) -> First
    requires place { t < length mutators.old }
    requires runs { (script : Script) × AllMayRun script epoch.now.words mutators.old }
    requires readers { AllRead (image_of R.image) epoch.now.words mutators.old }
    requires calls { MayCallAt mutators.old t }
    ensures came { AllCame R.faults epoch.now.end every (Some t) epoch.now.words mutators.old mutators.new result }
{
    let came = call_first(epoch, &mut mutators[t as usize], every);
    // Where the call lacks room still, no thread runs: nothing was done then, and a Move can be forced at once.
    if let First::Went = came {
        run_all(rt, epoch, mutators, every, gate);
    }
    came
}

/// Runs all threads of an epoch: after the call of the first, if there is one.
fn run_from<X: Threads + Sync, R: RecordReader + Send + Drop, G: Gate + Sync>(
    rt: &X,
    epoch: &Epoch,
    mutators: &mut [Mutator<Worker<'_, R>>],
    every: u32,
    first: Option<u32>,
    gate: &G,
) -> First
    requires some { 0 < length mutators.old }
    requires runs { (script : Script) × AllMayRun script epoch.now.words mutators.old }
    requires readers { AllRead (image_of R.image) epoch.now.words mutators.old }
    requires first { IfSome first (MayCallAt mutators.old) }
    ensures came { AllCame R.faults epoch.now.end every first epoch.now.words mutators.old mutators.new result }
{
    match first {
        Some(t) => run_after(rt, epoch, mutators, every, t, gate),
        None => {
            run_all(rt, epoch, mutators, every, gate);
            First::Went
        }
    }
}

/// Lets the threads of a run go through an epoch on a heap and the history that led to it, and answers both as they are
/// after it, and how many words the call of the first lacked, if it did. Each mutator has its worker, with a reader of
/// the disk as it is now. With what the epoch begins is given by a value that takes no bytes.
pub(crate) fn run_epoch<X: Threads + Sync, R: RecordReader + Send + Drop, G: Gate + Sync>(
    rt: &X,
    alloc: Global,
    start: &Ghost<Start>,
    heap: Heap,
    pass: Pass,
    end: u32,
    mutators: &mut [Mutator<Worker<'_, R>>],
    every: u32,
    first: Option<u32>,
    gate: &G,
) -> Result<(Heap, Pass, Option<u32>), NoMemory>
    requires heap { HeapBegins start.now.began heap end }
    requires history { HistoryBegins start.now heap pass }
    requires mutators { MutatorsBegin (image_of R.image) start.now mutators.old }
    requires rest { (script : Script) × AllRest script start.now.began mutators.old }
    requires first { IfSome first (LacksAt mutators.old) }
    requires some_forward { 1 ≤ start.now.began.forwards }
    ensures ended { IfOk result (λ done. Ended R.image R.faults end every first start.now.began mutators.old
        mutators.new done.0 done.1 done.2) }
    ensures refused { OnErr result (mutators.new ≡ mutators.old) }
{
    let epoch = Epoch::begin_with(alloc, start, heap, pass, end, mutators)?;
    let came = run_from(rt, &epoch, mutators, every, first, gate);
    let (heap, pass) = epoch.finish(mutators);
    match came {
        First::Went => Ok((heap, pass, None)),
        First::Lacked(need) => Ok((heap, pass, Some(need))),
        First::Stopped => unreachable!(),
    }
}
