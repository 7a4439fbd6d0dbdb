//! Runs a trace by real threads.
//!
//! What a safepoint does is the same for all runs. Here is what is a run's own: its threads go through an epoch at
//! once, each with a reader of its own, lent for that epoch. Between two epochs the readers are given back, so that a
//! collection may write.
ghost use Rattle.std.specs.Prelude.{◌≡◌, ◌≤◌, ℕ, [], length, Bool, true, IfOk, IsSome};
ghost use Rattle.melt_model.specs.Config.{InRanges};
ghost use Rattle.melt_model.specs.declared.config.Config.{Config};
ghost use Rattle.melt_trace.specs.Script.{Script};
ghost use Rattle.melt_safepoint.specs.Collections.{MayCollect, NoneForwarded};
ghost use Rattle.melt_safepoint.specs.Engines.{CollectsSo, RunsSo};
ghost use Rattle.melt_safepoint.specs.Epochs.{SomeMayRun};
ghost use Rattle.melt_safepoint.specs.Lends.{LendsAtMost};
ghost use Rattle.melt_safepoint.specs.Losses.{CountsLosses, losses};
ghost use Rattle.melt_safepoint.specs.Passing.{NoneOwn};
ghost use Rattle.melt_safepoint.specs.Rows.{RunStands, SomeStands, journal_of, row_of};
ghost use Rattle.melt_safepoint.specs.Run.{CountsFaults, CountsLends, HasNoOperations, HasRun};
ghost use Rattle.melt_safepoint.specs.Shown.{Shown, shown_by};
ghost use Rattle.melt_safepoint.specs.Spaces.{sees_stale};
ghost use Rattle.melt_safepoint.specs.Threads.{AllEnded};
ghost use Rattle.melt_safepoint.specs.Writes.{CountsWrites};
ghost use Rattle.melt_pool.specs.Machines.{AreReady, MachineEnds, SomeMachineMayRun, parallel_view};
ghost use Rattle.melt_pool.specs.Parts.{AreAway, IsNameless, parts_view};

use crate::arming::{hand_out, lend_all, take_back};
use crate::collect::{collect_parallel, left_of};
use crate::machine::{Parallel, new_parallel};
use crate::rest::{Paused, resume};
use crate::worker::Worker;
use melt_disk::StaleSpace;
use melt_epoch::Mutator;
use melt_io::{Gate, LendRefusal, StaleDisk};
use melt_model::{Config, Ghost, Halt, NoMemory, Report};
use melt_safepoint::{
    Collector, Engine, Run, Stop, ThreadState, halt_run, new_states, run_by_engine, tells,
};
use melt_scion::{Heap, Registers};
use melt_trace::Trace;
use std::alloc::Global;
use std::thread::Threads;

/// Lets threads go through an epoch whose mutators have their readers and registers. They get their operations for it,
/// and after it operations, registers and readers are taken from them again.
fn go_through<'a, X: Threads + Sync, D: StaleDisk, G: Gate + Sync>(
    rt: &X,
    gate: &G,
    alloc: Global,
    paused: Paused,
    space: &mut StaleSpace<'_, D>,
    states: &mut Vec<ThreadState<'a>>,
    mutators: &mut [Mutator<Worker<'a, D::Reader>>],
    registers: &mut [Registers],
    every: u32,
    first: Option<u32>,
) -> Result<(Paused, Option<u32>), NoMemory>
    requires nameless { IsNameless paused.heap }
    requires end { paused.end ≡ space.old.end }
    requires ready { AreReady D.Reader.image D.Reader.faults (D.image space.old.disk.now)
        (parts_view paused.heap paused.pass registers.old) registers.old mutators.old }
    requires as_many { length states.old.items ≡ length mutators.old }
    requires some { 1 ≤ length mutators.old }
    requires may { SomeMachineMayRun (shown_by D.image space.old) first paused.heap paused.pass registers.old
        states.old.items every paused.told }
    ensures nameless { IfOk result (λ done. IsNameless done.0.heap) }
    ensures away { IfOk result (λ done. AreAway (parts_view done.0.heap done.0.pass registers.new) registers.new
        mutators.new) }
    ensures ends { IfOk result (λ done. MachineEnds (shown_by D.image space.old) first every paused.heap done.0.heap
        paused.pass done.0.pass registers.old registers.new states.old.items states.new.items paused.told done.0.told
        done.1) }
    ensures lost { IfOk result (λ done. CountsLosses states.old.items states.new.items
        (D.read_faults space.old.disk.now) (D.read_faults space.new.disk.now)) }
    ensures shown { shown_by D.image space.new ≡ shown_by D.image space.old }
    ensures count { D.faults space.new.disk.now ≡ D.faults space.old.disk.now }
    ensures lends { D.lends space.new.disk.now ≡ D.lends space.old.disk.now }
    ensures writes { D.writes space.new.disk.now ≡ D.writes space.old.disk.now }
    ensures same_disk { space.new.disk.ghost_name ≡ space.old.disk.ghost_name }
{
    hand_out(states, mutators);
    let (paused, lacks) = resume(rt, alloc, paused, mutators, every, first, gate)?;
    take_back(space, mutators, states, registers);
    Ok((paused, lacks))
}

/// Lets the threads of a run go through an epoch, each as far as it can, each with a reader that is lent for it. Where
/// one is to be the first, it makes its call before all others, and where that lacks words, no other goes on: these
/// words are answered.
fn run_parallel<'a, X: Threads + Sync, D: StaleDisk, G: Gate + Sync>(
    rt: &X,
    gate: &G,
    run: Run<'a, Parallel<'a, D::Reader>>,
    alloc: Global,
    space: &mut StaleSpace<'_, D>,
    first: Option<u32>,
) -> Result<(Run<'a, Parallel<'a, D::Reader>>, Option<u32>), Stop<'a>>
    requires may { SomeMayRun (shown_by D.image space.old) first (row_of parallel_view run) }
    ensures so { RunsSo parallel_view (λ _. []) (sees_stale D.image D.faults D.read_faults D.lends D.writes) run.entry space.old
        space.new first result }
    ensures lends { LendsAtMost (length run.entry.states.items) (D.lends space.old.disk.now)
        (D.lends space.new.disk.now) }
{
    if run.states.is_empty() {
        return Ok((run, None));
    }
    let mut run = run;
    let every = run.every;
    let told = run.told;
    let Parallel {
        heap,
        pass,
        mut registers,
        mut mutators,
        log,
    } = run.machine;
    let ms = mutators.as_mut_slice();
    let held = registers.as_mut_slice();
    match lend_all(alloc, space, ms, held) {
        Ok(()) => {}
        Err(LendRefusal::NoMemory) => return Err(Stop::NoMemory),
        Err(LendRefusal::Failed) => {
            let left = left_of(None, log, &pass);
            let ended = halt_run(left, run.states, run.collector.journal, Halt::DiskFault);
            return Err(Stop::Halted(ended));
        }
    }
    let paused = Paused {
        heap,
        pass,
        end: space.end(),
        told,
    };
    let states = &mut run.states;
    let Ok((paused, lacks)) = go_through(
        rt, gate, alloc, paused, space, states, ms, held, every, first,
    ) else {
        return Err(Stop::NoMemory);
    };
    let Paused {
        heap,
        pass,
        told,
        ..
    } = paused;
    let machine = Parallel {
        heap,
        pass,
        registers,
        mutators,
        log,
    };
    Ok((
        Run {
            machine,
            told,
            ..run
        },
        lacks,
    ))
}

/// A run of a trace before its first epoch, over a disk without homes. It is told only where the disk tells its words.
fn new_run<'a, R: Drop>(
    alloc: Global,
    trace: &'a Trace,
    config: Config,
    told: Ghost<bool>,
) -> Result<Run<'a, Parallel<'a, R>>, NoMemory>
    requires ranges { InRanges config }
    ensures stands { IfOk result (λ run. (shown : Shown) → shown.end ≡ 1 → shown.limit ≡ config.disk
        → (told ≡ true → IsSome shown.image)
        → RunStands told trace.now config shown (row_of parallel_view run)) }
    ensures settled { IfOk result (λ run. NoneForwarded (parallel_view run.machine)) }
    ensures own { IfOk result (λ run. NoneOwn run.states.items) }
    ensures none_lost { IfOk result (λ run. losses run.states.items ≡ 0) }
    ensures none_made { IfOk result (λ run. journal_of (row_of parallel_view run) ≡ []) }
    ensures idle { IfOk result (λ run. HasNoOperations trace.now → AllEnded run.states.items) }
{
    // No entry is stored by threads, so no room is taken for them.
    let (states, _entries) = new_states(alloc, trace)?;
    Ok(Run {
        machine: new_parallel(alloc, trace, config)?,
        states,
        collector: Collector::new(alloc, config),
        words: config.heap,
        every: config.every,
        told,
    })
}

/// Runs all epochs of a run that was just begun by real threads.
fn run_epochs<'a, X: Threads + Sync, D: StaleDisk, G: Gate + Sync>(
    rt: &X,
    gate: &G,
    run: Run<'a, Parallel<'a, D::Reader>>,
    alloc: Global,
    space: &mut StaleSpace<'_, D>,
) -> Result<(Report, Option<Heap>), NoMemory>
    requires stands { SomeStands (shown_by D.image space.old) (row_of parallel_view run) }
    requires settled { NoneForwarded (parallel_view run.machine) }
    requires own { NoneOwn run.states.items }
    requires none_lost { losses run.states.items ≡ 0 }
    requires none_made { journal_of (row_of parallel_view run) ≡ [] }
    ensures has_run { IfOk result (λ done. (told : Bool) (script : Script) (config : Config)
        → RunStands told script config (shown_by D.image space.old) (row_of parallel_view run.entry)
        → HasRun told script config (shown_by D.image space.new) done.0 done.1) }
    ensures same_disk { space.new.disk.ghost_name ≡ space.old.disk.ghost_name }
    ensures counts { IfOk result (λ done. CountsFaults done.0 (D.faults space.old.disk.now)
        (D.faults space.new.disk.now) (D.read_faults space.old.disk.now) (D.read_faults space.new.disk.now)) }
    ensures lends { IfOk result (λ done. (script : Script) → (HasNoOperations script → AllEnded run.entry.states.items)
        → CountsLends (length run.entry.states.items) script done.0 (D.lends space.old.disk.now)
        (D.lends space.new.disk.now)) }
    ensures wrote { IfOk result (λ done. (told : Bool) (script : Script) (config : Config)
        → RunStands told script config (shown_by D.image space.old) (row_of parallel_view run.entry)
        → CountsWrites config done.0.halt done.0.journal (D.writes space.old.disk.now)
        (D.writes space.new.disk.now)) }
    ensures log { IfOk result (λ done. done.0.log ≡ []) }
{
    let engine = Engine {
        collect: |machine: _, alloc: Global, collector: &mut Collector, space: &mut StaleSpace<
            '_,
            D,
        >, force: bool|
            requires may { MayCollect (shown_by D.image space.old).end (parallel_view machine) }
            ensures collects { CollectsSo parallel_view (λ _. []) (sees_stale D.image D.faults D.read_faults D.lends D.writes)
                machine.entry collector.old collector.new space.old space.new force result }
        { collect_parallel(machine, alloc, collector, space, force) },
        run_epoch: |run: _, alloc: Global, space: &mut StaleSpace<'_, D>, first: Option<u32>|
            requires may { SomeMayRun (shown_by D.image space.old) first (row_of parallel_view run) }
            ensures runs { RunsSo parallel_view (λ _. []) (sees_stale D.image D.faults D.read_faults D.lends D.writes) run.entry
                space.old space.new first result }
            ensures lends { LendsAtMost (length run.entry.states.items) (D.lends space.old.disk.now)
                (D.lends space.new.disk.now) }
        { run_parallel(rt, gate, run, alloc, space, first) },
    };
    run_by_engine(run, alloc, space, &engine)
}

/// Runs a trace by real threads, one for each of its threads, over a disk without homes, of which the space is to have
/// the limit of the configuration. The order of the trace is not used. The gate is told of each operation before it is
/// begun, but not of one that is made again.
///
/// Threads wait for each other at safepoints alone. What ends a thread, and what halts the run, is as in a run by
/// written order. No entries are stored: the history of the report is for contracts alone.
pub fn run_threads<X: Threads + Sync, D: StaleDisk, G: Gate + Sync>(
    rt: &X,
    alloc: Global,
    trace: &Trace,
    config: Config,
    space: &mut StaleSpace<'_, D>,
    gate: &G,
) -> Result<(Report, Option<Heap>), NoMemory>
    requires ranges { InRanges config }
    requires limit { space.old.limit ≡ config.disk }
    requires end { space.old.end ≡ 1 }
    ensures has_run { IfOk result (λ done. (told : Bool) → (told ≡ true → IsSome (D.image space.old.disk.now))
        → HasRun told trace.now config (shown_by D.image space.new) done.0 done.1) }
    ensures same_disk { space.new.disk.ghost_name ≡ space.old.disk.ghost_name }
    ensures counts { IfOk result (λ done. CountsFaults done.0 (D.faults space.old.disk.now)
        (D.faults space.new.disk.now) (D.read_faults space.old.disk.now) (D.read_faults space.new.disk.now)) }
    ensures lends { IfOk result (λ done. CountsLends (length trace.now.programs) trace.now done.0
        (D.lends space.old.disk.now) (D.lends space.new.disk.now)) }
    ensures wrote { IfOk result (λ done. CountsWrites config done.0.halt done.0.journal (D.writes space.old.disk.now)
        (D.writes space.new.disk.now)) }
    ensures log { IfOk result (λ done. done.0.log ≡ []) }
{
    let run = new_run::<D::Reader>(alloc, trace, config, tells(space))?;
    run_epochs(rt, gate, run, alloc, space)
}
