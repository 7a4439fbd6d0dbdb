//! Whole traces.
ghost use Rattle.std.specs.Prelude.{◌≡◌, ◌*◌, ◌<◌, ◌≤◌, ◌↔◌, map, IfOk, IsErrOf};
ghost use Rattle.melt_trace.specs.Language.{operation_count};
ghost use Rattle.melt_gen.specs.declared.workload.GenRefusal.TheVariants.{TooMany};
ghost use Rattle.melt_gen.specs.Workloads.{generated, globals_of, programs_of};

use crate::counts::{draws_of, total_count};
use crate::programs::program;
use crate::workload::{GenRefusal, Workload};
use melt_model::NoMemory;
use melt_trace::{Program, Trace};
use std::alloc::Global;

/// The most operations that a trace may have.
pub(crate) const MAX_OPERATIONS: u32 = 1_048_576;

fn globals(kind: Workload, threads: u32) -> u32
    requires { threads ≤ 8 }
    ensures { result ≡ globals_of kind threads }
{
    match kind {
        Workload::Queue => 2 * threads,
        Workload::List | Workload::Table | Workload::Tree => threads,
    }
}

fn programs(
    alloc: Global,
    kind: Workload,
    seed: u64,
    size: u32,
    threads: u32,
) -> Result<Vec<Program>, NoMemory>
    requires size { size ≤ 100000 }
    requires threads { threads ≤ 8 }
    ensures { IfOk result (λ programs. programs.items ≡ programs_of kind seed size threads) }
{
    let mut programs = Vec::new(alloc);
    for thread in 0..threads {
        let items = program(alloc, kind, thread as u8, draws_of(seed, thread), size)?;
        let count = items.len() as u64;
        programs.push(Program::new(items, count))?;
    }
    Ok(programs)
}

/// The trace of this kind of work, without order lines and without blocks. Each thread makes `size` objects, and in
/// `Workload::Table` a table before them; thread t draws from `seed + t` modulo 2^64. `TooMany` is told before any
/// memory is taken.
pub fn generate(
    alloc: Global,
    kind: Workload,
    seed: u64,
    size: u32,
    threads: u32,
) -> Result<Trace, GenRefusal>
    requires size { (1 ≤ size) × (size ≤ 100000) }
    requires threads { (1 ≤ threads) × (threads ≤ 8) }
    ensures trace { IfOk result (λ trace. trace ≡ generated kind seed size threads) }
    ensures too_many { IsErrOf result TooMany
        ↔ (1048576 < operation_count (generated kind seed size threads).programs) }
{
    if total_count(kind, seed, size, threads) > MAX_OPERATIONS {
        return Err(GenRefusal::TooMany);
    }
    let programs = programs(alloc, kind, seed, size, threads)?;
    Ok(Trace::new(globals(kind, threads), Vec::new(alloc), programs))
}
