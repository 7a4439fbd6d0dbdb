//! The collections of a run of real threads.
ghost use Rattle.std.specs.Prelude.{◌≡◌, []};
ghost use Rattle.melt_pool.specs.Machines.{parallel_view};
ghost use Rattle.melt_safepoint.specs.Collections.{MayCollect};
ghost use Rattle.melt_safepoint.specs.Engines.{CollectsSo};
ghost use Rattle.melt_safepoint.specs.Spaces.{sees_stale};

use crate::machine::Parallel;
use melt_disk::StaleSpace;
use melt_io::StaleDisk;
use melt_model::{Entries, Ghost};
use melt_rule::Pass;
use melt_safepoint::{CollectRefusal, Collector, HeapRefusal, Left, collect_heap};
use melt_scion::Heap;
use std::alloc::Global;

/// What is left of a run: its heap, if there is one, and its history.
pub(crate) fn left_of(heap: Option<Heap>, log: Entries, pass: &Pass) -> Left
    ensures heap { result.heap ≡ heap }
    ensures log { result.log ≡ log }
    ensures history { result.history ≡ pass.now }
{
    let history = Ghost::pick(pass);
    Left { heap, log, history }
}

/// Makes a collection between two epochs: the one that is planned, or a Move where `force` says so.
pub(crate) fn collect_parallel<'a, D: StaleDisk>(
    machine: Parallel<'a, D::Reader>,
    alloc: Global,
    collector: &mut Collector,
    space: &mut StaleSpace<'_, D>,
    force: bool,
) -> Result<Parallel<'a, D::Reader>, CollectRefusal>
    requires may { MayCollect space.old.end (parallel_view machine) }
    ensures so { CollectsSo parallel_view (λ _. []) (sees_stale D.image D.faults D.read_faults D.lends D.writes) machine.entry
        collector.old collector.new space.old space.new force result }
{
    let Parallel {
        heap,
        pass,
        mut registers,
        mutators,
        log,
    } = machine;
    match collect_heap(alloc, heap, &mut registers, collector, space, force) {
        Ok(heap) => Ok(Parallel {
            heap,
            pass,
            registers,
            mutators,
            log,
        }),
        Err(HeapRefusal::NoMemory) => Err(CollectRefusal::NoMemory),
        Err(HeapRefusal::DiskFull { heap, full }) => Err(CollectRefusal::DiskFull {
            left: left_of(Some(heap), log, &pass),
            full,
        }),
        Err(HeapRefusal::DiskFault) => Err(CollectRefusal::DiskFault {
            left: left_of(None, log, &pass),
        }),
    }
}
