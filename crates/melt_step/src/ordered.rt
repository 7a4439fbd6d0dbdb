//! The collections and the epochs of a run by the written order.
ghost use Rattle.std.specs.Prelude.{[], ◌==◌, if◌then◌else◌};
ghost use Rattle.melt_safepoint.specs.Collections.{MayCollect};
ghost use Rattle.melt_safepoint.specs.Engines.{CollectsSo, RunsSo};
ghost use Rattle.melt_safepoint.specs.Epochs.{SomeMayRun};
ghost use Rattle.melt_safepoint.specs.Lends.{LendsAtMost};
ghost use Rattle.melt_safepoint.specs.Rows.{row_of};
ghost use Rattle.melt_safepoint.specs.Shown.{shown_by};
ghost use Rattle.melt_safepoint.specs.Spaces.{sees_stale};
ghost use Rattle.melt_step.specs.Going.{kept_view};

use crate::collector::collect_core;
use crate::epoch::{begin_epoch, give_up, go_through};
use crate::machine::Ordered;
use melt_disk::StaleSpace;
use melt_io::{LendRefusal, StaleDisk};
use melt_safepoint::{CollectRefusal, Collector, Run, Stop};
use std::alloc::Global;

/// Makes a collection between two epochs: the one that is planned, or a Move where `force` says so.
pub(crate) fn collect_ordered<'a, D: StaleDisk, const STORED: usize>(
    machine: Ordered<'a, STORED>,
    alloc: Global,
    collector: &mut Collector,
    space: &mut StaleSpace<'_, D>,
    force: bool,
) -> Result<Ordered<'a, STORED>, CollectRefusal>
    requires may { MayCollect (shown_by D.image space.old).end (kept_view machine) }
    ensures collects { CollectsSo kept_view (λ history. if STORED == 1 then history else [])
        (sees_stale D.image D.faults D.read_faults D.lends D.writes) machine.entry collector.old collector.new space.old space.new
        force result }
{
    let Ordered { core, turns, trace } = machine;
    match collect_core(core, alloc, collector, space, force, STORED == 1) {
        Ok(core) => Ok(Ordered { core, turns, trace }),
        Err(refusal) => Err(refusal),
    }
}

/// Lends a reader, and lets the threads go through an epoch with it.
pub(crate) fn run_ordered<'a, D: StaleDisk, const STORED: usize>(
    run: Run<'a, Ordered<'a, STORED>>,
    alloc: Global,
    space: &mut StaleSpace<'_, D>,
    first: Option<u32>,
) -> Result<(Run<'a, Ordered<'a, STORED>>, Option<u32>), Stop<'a>>
    requires may { SomeMayRun (shown_by D.image space.old) first (row_of kept_view run) }
    ensures runs { RunsSo kept_view (λ history. if STORED == 1 then history else [])
        (sees_stale D.image D.faults D.read_faults D.lends D.writes) run.entry space.old space.new first result }
    ensures lends { LendsAtMost 1 (D.lends space.old.disk.now) (D.lends space.new.disk.now) }
{
    let mut reader = match space.lend(alloc) {
        Ok(reader) => reader,
        Err(LendRefusal::NoMemory) => return Err(Stop::NoMemory),
        Err(LendRefusal::Failed) => return Err(Stop::Halted(give_up(run))),
    };
    let mut run = begin_epoch(run);
    let lacks = go_through(&mut run, first, space.end(), &mut reader);
    space.give_back(reader);
    Ok((run, lacks))
}
