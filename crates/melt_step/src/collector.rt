//! The collections of a run.
//!
//! A collection is made between two epochs. It takes the heap and lends the registers, and so the core is taken apart
//! for it and put together again. Where it is refused these parts are left, and the report of the run is made of them.
ghost use Rattle.std.specs.Prelude.{◌≡◌, [], IfOk, IfErr, OnOk, OnErr, Err, if◌then◌else◌};
ghost use Rattle.melt_core.specs.Views.{history_in, stores, view};
ghost use Rattle.melt_io.specs.Outside.{Rose};
ghost use Rattle.melt_move.specs.KeptDisk.{KeepsDisk};
ghost use Rattle.melt_move.specs.Planned.{phase_done};
ghost use Rattle.melt_safepoint.specs.Shown.{shown_by};
ghost use Rattle.melt_safepoint.specs.declared.ending.Left.{Left};
ghost use Rattle.melt_safepoint.specs.Collections.{CollectsCore, IsRefusedCore, MayCollect};
ghost use Rattle.melt_safepoint.specs.Rows.{RefusalStores};
ghost use Rattle.melt_safepoint.specs.Writes.{RefusalWrote, WroteSince};

use melt_core::{Core, Rest};
use melt_disk::StaleSpace;
use melt_io::StaleDisk;
use melt_model::Ghost;
use melt_safepoint::{CollectRefusal, Collector, HeapRefusal, Left, collect_heap};
use melt_scion::Heap;
use std::alloc::Global;

/// What is left of a run: its heap, if there is one, and the history, which was stored or not.
pub fn left_of(heap: Option<Heap>, rest: Rest, stored: bool) -> Left
    ensures heap { result.heap ≡ heap }
    ensures log { result.log ≡ (if stored then result.history else []) }
    ensures history { result.history ≡ history_in stored rest }
{
    let history = Ghost::pick(&(&rest, stored));
    let mut log = rest.into_history();
    if !stored {
        log.items.clear();
    }
    Left { heap, log, history }
}

/// Makes a collection between two epochs: the one that is planned, or a Move where `force` says so. The history is
/// stored where `stored` says so.
pub fn collect_core<D: StaleDisk>(
    core: Core,
    alloc: Global,
    collector: &mut Collector,
    space: &mut StaleSpace<'_, D>,
    force: bool,
    stored: bool,
) -> Result<Core, CollectRefusal>
    requires may { MayCollect space.old.end (view core) }
    requires stored { stores (view core) ≡ stored }
    ensures collected { IfOk result (λ after. CollectsCore (phase_done force collector.old.plan.next)
        (shown_by D.image space.old) (shown_by D.image space.new) (view core) (view after) collector.old
        collector.new) }
    ensures refused { IfErr result (IsRefusedCore (phase_done force collector.old.plan.next)
        (shown_by D.image space.old) (shown_by D.image space.new) (view core)) }
    ensures journal_stays { OnErr result (collector.new.journal.items ≡ collector.old.journal.items) }
    ensures failed { (left : Left) → result ≡ Err (CollectRefusal.DiskFault left)
        → Rose (D.faults space.old.disk.now) (D.faults space.new.disk.now) }
    ensures stored { IfOk result (λ after. stores (view after) ≡ stored) }
    ensures stores { IfErr result (RefusalStores (λ history. if stored then history else [])) }
    ensures keeps { KeepsDisk D.image D.faults D.read_faults D.lends space.old space.new }
    ensures wrote { OnOk result (WroteSince collector.old.journal.items collector.new.journal.items
        (D.writes space.old.disk.now) (D.writes space.new.disk.now)) }
    ensures refused_wrote { IfErr result (RefusalWrote (D.writes space.old.disk.now) (D.writes space.new.disk.now)) }
{
    let (heap, mut rest) = core.finish();
    let registers = rest.registers();
    match collect_heap(alloc, heap, registers, collector, space, force) {
        Ok(heap) => Ok(Core::begin(heap, rest)),
        Err(HeapRefusal::NoMemory) => Err(CollectRefusal::NoMemory),
        Err(HeapRefusal::DiskFull { heap, full }) => Err(CollectRefusal::DiskFull {
            left: left_of(Some(heap), rest, stored),
            full,
        }),
        Err(HeapRefusal::DiskFault) => Err(CollectRefusal::DiskFault {
            left: left_of(None, rest, stored),
        }),
    }
}
