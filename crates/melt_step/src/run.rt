//! Runs a trace by its written order.
ghost use Rattle.std.specs.Prelude.{◌≡◌, [], Bool, true, IfOk, IsSome, ◌==◌, if◌then◌else◌};
ghost use Rattle.melt_model.specs.Config.{InRanges};
ghost use Rattle.melt_core.specs.Views.{stores, view};
ghost use Rattle.melt_safepoint.specs.Collections.{MayCollect, NoneForwarded};
ghost use Rattle.melt_safepoint.specs.Engines.{CollectsSo, RunsSo};
ghost use Rattle.melt_safepoint.specs.Epochs.{SomeMayRun};
ghost use Rattle.melt_safepoint.specs.Lends.{LendsAtMost};
ghost use Rattle.melt_safepoint.specs.Losses.{losses};
ghost use Rattle.melt_safepoint.specs.Passing.{NoneOwn};
ghost use Rattle.melt_safepoint.specs.Rows.{RunStands, journal_of, row_of};
ghost use Rattle.melt_safepoint.specs.Run.{CountsFaults, CountsLends, HasNoOperations, HasRun};
ghost use Rattle.melt_safepoint.specs.Shown.{Shown, shown_by};
ghost use Rattle.melt_safepoint.specs.Spaces.{sees_stale};
ghost use Rattle.melt_safepoint.specs.Tables.{KnowsStop};
ghost use Rattle.melt_safepoint.specs.Threads.{AllEnded};
ghost use Rattle.melt_safepoint.specs.Writes.{CountsWrites};
ghost use Rattle.melt_step.specs.Going.{core_view, kept_view};

use crate::machine::Ordered;
use crate::ordered::{collect_ordered, run_ordered};
use crate::turns::Turns;
use melt_core::{Core, Rest};
use melt_disk::StaleSpace;
use melt_io::StaleDisk;
use melt_model::{Config, Ghost, NoMemory, Report};
use melt_safepoint::{Collector, Engine, Run, new_states, run_by_engine, tells};
use melt_scion::Heap;
use melt_trace::Trace;
use std::alloc::Global;

/// A run of a trace before its first event, over a disk without homes. It is told only where the disk tells its words.
/// Its history is stored where `STORED` is 1; else no memory is taken for it, nor for the names of objects.
pub fn new_run<'a, const STORED: usize>(
    alloc: Global,
    trace: &'a Trace,
    config: Config,
    told: Ghost<bool>,
) -> Result<Run<'a, Ordered<'a, STORED>>, NoMemory>
    requires ranges { InRanges config }
    ensures stands { IfOk result (λ run. (shown : Shown) → shown.end ≡ 1 → shown.limit ≡ config.disk
        → (told ≡ true → IsSome shown.image) → RunStands told trace.now config shown (row_of core_view run)) }
    ensures settled { IfOk result (λ run. NoneForwarded (view run.machine.core)) }
    ensures own { IfOk result (λ run. NoneOwn run.states.items) }
    ensures stop { IfOk result (λ run. KnowsStop (view run.machine.core) run.states.items) }
    ensures none_lost { IfOk result (λ run. losses run.states.items ≡ 0) }
    ensures none_made { IfOk result (λ run. journal_of (row_of core_view run) ≡ []) }
    ensures idle { IfOk result (λ run. HasNoOperations trace.now → AllEnded run.states.items) }
    ensures stored { IfOk result (λ run. stores (view run.machine.core) ≡ (STORED == 1)) }
{
    let (states, entries) = new_states(alloc, trace)?;
    let heap = Heap::new(
        alloc,
        config.heap,
        trace.globals(),
        config.forward,
        STORED == 1,
    )?;
    // All of it now, so that no event of the run takes memory.
    let room = if STORED == 1 { entries } else { 0 };
    let rest = Rest::new(alloc, trace.threads(), room)?;
    Ok(Run {
        machine: Ordered {
            core: Core::begin(heap, rest),
            turns: Turns::new(),
            trace,
        },
        states,
        collector: Collector::new(alloc, config),
        words: config.heap,
        every: config.every,
        told,
    })
}

/// Runs a trace over a disk without homes, of which the space is to have the limit of the configuration.
fn run_ordered_trace<D: StaleDisk, const STORED: usize>(
    alloc: Global,
    trace: &Trace,
    config: Config,
    space: &mut StaleSpace<'_, D>,
) -> Result<(Report, Option<Heap>), NoMemory>
    requires ranges { InRanges config }
    requires limit { space.old.limit ≡ config.disk }
    requires end { space.old.end ≡ 1 }
    ensures has_run { IfOk result (λ done. (told : Bool) → (told ≡ true → IsSome (D.image space.old.disk.now))
        → HasRun told trace.now config (shown_by D.image space.new) done.0 done.1) }
    ensures same_disk { space.new.disk.ghost_name ≡ space.old.disk.ghost_name }
    ensures counts { IfOk result (λ done. CountsFaults done.0 (D.faults space.old.disk.now)
        (D.faults space.new.disk.now) (D.read_faults space.old.disk.now) (D.read_faults space.new.disk.now)) }
    ensures lends { IfOk result (λ done. CountsLends 1 trace.now done.0 (D.lends space.old.disk.now)
        (D.lends space.new.disk.now)) }
    ensures wrote { IfOk result (λ done. CountsWrites config done.0.halt done.0.journal (D.writes space.old.disk.now)
        (D.writes space.new.disk.now)) }
    ensures log { IfOk result (λ done. done.0.log ≡ (if STORED == 1 then done.0.history else [])) }
{
    let run = new_run::<STORED>(alloc, trace, config, tells(space))?;
    let engine = Engine {
        collect: |machine: _, alloc: Global, collector: &mut Collector, space: &mut StaleSpace<
            '_,
            D,
        >, force: bool|
            requires may { MayCollect (shown_by D.image space.old).end (kept_view machine) }
            ensures collects { CollectsSo kept_view (λ history. if STORED == 1 then history else [])
                (sees_stale D.image D.faults D.read_faults D.lends D.writes) machine.entry collector.old collector.new space.old
                space.new force result }
        { collect_ordered(machine, alloc, collector, space, force) },
        run_epoch: |run: _, alloc: Global, space: &mut StaleSpace<'_, D>, first: Option<u32>|
            requires may { SomeMayRun (shown_by D.image space.old) first (row_of kept_view run) }
            ensures runs { RunsSo kept_view (λ history. if STORED == 1 then history else [])
                (sees_stale D.image D.faults D.read_faults D.lends D.writes) run.entry space.old space.new first result }
            ensures lends { LendsAtMost 1 (D.lends space.old.disk.now) (D.lends space.new.disk.now) }
        { run_ordered(run, alloc, space, first) },
    };
    run_by_engine(run, alloc, space, &engine)
}

/// Runs a trace over a disk without homes, of which the space is to have the limit of the configuration. Objects that
/// are not used for some collections move to the disk, and come back when they are used. The history is stored where
/// `stored` says so, and takes memory only then.
///
/// A thread ends out of heap where its next operation needs more words than the heap has beside those of the objects
/// that registers hold; and it ends where the record that it needs cannot be read, or is none. A full disk, and one
/// whose writes or lends fail, halt the run.
pub fn run_schedule<D: StaleDisk>(
    alloc: Global,
    trace: &Trace,
    config: Config,
    space: &mut StaleSpace<'_, D>,
    stored: bool,
) -> Result<(Report, Option<Heap>), NoMemory>
    requires ranges { InRanges config }
    requires limit { space.old.limit ≡ config.disk }
    requires end { space.old.end ≡ 1 }
    ensures has_run { IfOk result (λ done. (told : Bool) → (told ≡ true → IsSome (D.image space.old.disk.now))
        → HasRun told trace.now config (shown_by D.image space.new) done.0 done.1) }
    ensures same_disk { space.new.disk.ghost_name ≡ space.old.disk.ghost_name }
    ensures counts { IfOk result (λ done. CountsFaults done.0 (D.faults space.old.disk.now)
        (D.faults space.new.disk.now) (D.read_faults space.old.disk.now) (D.read_faults space.new.disk.now)) }
    ensures lends { IfOk result (λ done. CountsLends 1 trace.now done.0 (D.lends space.old.disk.now)
        (D.lends space.new.disk.now)) }
    ensures wrote { IfOk result (λ done. CountsWrites config done.0.halt done.0.journal (D.writes space.old.disk.now)
        (D.writes space.new.disk.now)) }
    ensures log { IfOk result (λ done. done.0.log ≡ (if stored then done.0.history else [])) }
{
    if stored {
        run_ordered_trace::<D, 1>(alloc, trace, config, space)
    } else {
        run_ordered_trace::<D, 0>(alloc, trace, config, space)
    }
}
