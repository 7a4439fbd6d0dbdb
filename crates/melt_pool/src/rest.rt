//! A run between two epochs, and how it goes on.
//!
//! With what an epoch begins is told by the heap, its history and the mutators: the homes on disk by the names that the
//! heap has for contracts, each with the shape that its object has in the history; what registers hold by their
//! addresses. So a run keeps no account of the disk beside its heap.
ghost use Rattle.std.specs.Prelude.{◌≡◌, IfOk, IfSome, OnErr};
ghost use Rattle.melt_trace.specs.Script.{Script};
ghost use Rattle.melt_epoch.specs.Ends.{HeapBegins, HistoryBegins, MutatorsBegin};
ghost use Rattle.melt_pool.specs.Beginning.{IsAtRest, began_at, start_of};
ghost use Rattle.melt_pool.specs.Epochs.{AllRest, Ended};
ghost use Rattle.melt_pool.specs.Firsts.{LacksAt};
ghost use Rattle.melt_pool.specs.Workers.{image_of};

use crate::epoch::run_epoch;
use crate::worker::Worker;
use melt_epoch::Mutator;
use melt_io::{Gate, RecordReader};
use melt_model::{Ghost, NoMemory};
use melt_rule::{Pass, Start};
use melt_scion::Heap;
use std::alloc::Global;
use std::thread::Threads;

/// What a run has between two epochs beside its mutators.
#[derive(Drop)]
pub struct Paused {
    pub heap: Heap,
    /// The history that led to the heap.
    pub pass: Pass,
    /// The first word on disk past all homes.
    pub end: u32,
    /// Whether the heap stands for the history.
    pub told: Ghost<bool>,
}

/// With what the next epoch begins. The value takes no bytes.
fn start_from<Q: RecordReader>(paused: &Paused, mutators: &[Mutator<Q>]) -> Ghost<Start>
    requires rest { IsAtRest Q.image paused.now.told paused.now.heap paused.now.pass paused.now.end mutators.now }
    ensures start { result
        ≡ start_of Q.image paused.now.told paused.now.heap paused.now.pass paused.now.end mutators.now }
    ensures heap { HeapBegins result.began paused.now.heap paused.now.end }
    ensures history { HistoryBegins result paused.now.heap paused.now.pass }
    ensures mutators { MutatorsBegin Q.image result mutators.now }
{
    Ghost::pick(&(paused, mutators))
}

/// Lets the threads of a run that is paused go through an epoch, each as far as it can, and pauses the run again. A
/// thread that lacks room may be named as the first: its call is made before any other thread runs. Where that lacks
/// room again, no thread runs, and the words that it needs are answered.
pub fn resume<X: Threads + Sync, R: RecordReader + Send + Drop, G: Gate + Sync>(
    rt: &X,
    alloc: Global,
    paused: Paused,
    mutators: &mut [Mutator<Worker<'_, R>>],
    every: u32,
    first: Option<u32>,
    gate: &G,
) -> Result<(Paused, Option<u32>), NoMemory>
    requires rest { IsAtRest (image_of R.image) paused.told paused.heap paused.pass paused.end mutators.old }
    requires threads { (script : Script)
        × AllRest script (began_at (image_of R.image) paused mutators.old) mutators.old }
    requires first { IfSome first (LacksAt mutators.old) }
    ensures ended { IfOk result (λ done. Ended R.image R.faults paused.end every first
        (began_at (image_of R.image) paused mutators.old) mutators.old mutators.new done.0.heap done.0.pass done.1) }
    ensures refused { OnErr result (mutators.new ≡ mutators.old) }
    ensures end { IfOk result (λ done. done.0.end ≡ paused.end) }
    ensures told { IfOk result (λ done. done.0.told ≡ paused.told) }
{
    let start = start_from(&paused, mutators);
    let Paused {
        heap,
        pass,
        end,
        told,
    } = paused;
    let (heap, pass, lacked) = run_epoch(
        rt, alloc, &start, heap, pass, end, mutators, every, first, gate,
    )?;
    let paused = Paused {
        heap,
        pass,
        end,
        told,
    };
    Ok((paused, lacked))
}
