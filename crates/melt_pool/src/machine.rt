//! What a run of real threads has between two epochs.
//!
//! Registers lie apart from the mutators then, so that a collection changes them in one piece; what they stand for
//! stays with the mutators. The heap keeps no names: what its addresses stand for is told by maps that take no bytes.
ghost use Rattle.std.specs.Prelude.{◌≡◌, [], length, replicate, false, IfOk};
ghost use Rattle.melt_model.specs.Config.{InRanges};
ghost use Rattle.melt_scion.specs.Heaps.{IsNewHeap};
ghost use Rattle.melt_core.specs.Epochs.{no_registers};
ghost use Rattle.melt_pool.specs.Parts.{AreAway, IsNameless, parts_view};

use crate::worker::Worker;
use melt_epoch::Mutator;
use melt_model::{Config, Entries, NoMemory};
use melt_rule::Pass;
use melt_scion::{Heap, Registers};
use melt_trace::Trace;
use std::alloc::Global;

/// Registers that hold nothing.
pub(crate) const NO_REGISTERS: Registers = Registers { regs: [0; 16] };

/// The heap of a run and its history, and its threads: their registers, and their mutators, which have no reader.
#[derive(Drop)]
pub struct Parallel<'a, R: Drop> {
    pub heap: Heap,
    pub pass: Pass,
    pub registers: Vec<Registers>,
    pub mutators: Vec<Mutator<Worker<'a, R>>>,
    /// The entries that are stored, of which there are none.
    pub log: Entries,
    ghost nameless: { IsNameless heap },
    ghost away: { AreAway (parts_view heap pass registers.items) registers.items mutators.items },
    ghost none_stored: { log ≡ [] },
}

/// The machine of a run before its first epoch: the heap is empty, and the registers of all threads hold nothing.
pub(crate) fn new_parallel<'a, R: Drop>(
    alloc: Global,
    trace: &Trace,
    config: Config,
) -> Result<Parallel<'a, R>, NoMemory>
    requires ranges { InRanges config }
    ensures heap { IfOk result (λ machine. IsNewHeap config.heap trace.now.globals config.forward false machine.heap) }
    ensures history { IfOk result (λ machine. machine.pass ≡ []) }
    ensures registers { IfOk result
        (λ machine. machine.registers.items ≡ replicate (length trace.now.programs) no_registers) }
{
    let heap = Heap::new(alloc, config.heap, trace.globals(), config.forward, false)?;
    let threads = trace.threads();
    let registers = vec![in alloc; NO_REGISTERS; threads as usize]?;
    let mut mutators = Vec::with_capacity(alloc, threads as usize)?;
    for t in 0..threads {
        mutators.push(Mutator::new(t))?;
    }
    Ok(Parallel {
        heap,
        pass: Pass::new(),
        registers,
        mutators,
        log: Entries {
            items: Vec::new(alloc),
        },
    })
}
