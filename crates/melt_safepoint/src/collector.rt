//! The collections of a run, and why one is not made.
ghost use Rattle.std.specs.Prelude.{◌≡◌, ◌+◌, ◌<◌, ◌≤◌, All, [], length, IfOk, IfErr, IsErrOf, OnOk, OnErr};
ghost use Rattle.melt_io.specs.Outside.{Rose};
ghost use Rattle.melt_model.specs.declared.reports.Phase.{Phase};
ghost use Rattle.melt_copy.specs.Settling.{RisesBy};
ghost use Rattle.melt_move.specs.Collecting.{IsFormedOn};
ghost use Rattle.melt_move.specs.KeptDisk.{KeepsDisk};
ghost use Rattle.melt_move.specs.Planned.{CollectsPlanned, IsRefusedPlanned, phase_done, plan_after};
ghost use Rattle.melt_safepoint.specs.Resting.{CollectsHeap, IsRefusedHeap, IsWrittenDown, LeavesHeap, MayCollectHeap};
ghost use Rattle.melt_safepoint.specs.Shown.{shown_by};
ghost use Rattle.melt_safepoint.specs.Writes.{HeapWrote, WroteSince};

use crate::ending::Left;
use melt_disk::{DiskFull, StaleSpace};
use melt_io::StaleDisk;
use melt_model::{Config, Journal, Phase, Steps};
use melt_move::collect::MoveRefusal;
use melt_move::planned::{Plan, collect_planned};
use melt_scion::{Heap, Registers};
use std::alloc::Global;
use std::marker::Brand;
use std::sync::ledger::{Blank, Ledger};
use thiserror::Error;

/// Why a collection was not made, and what is left then.
#[derive(Debug, Drop, Error)]
pub enum CollectRefusal {
    /// There was no memory.
    #[error("out of memory")]
    NoMemory,
    /// The disk has no room for the new homes. Objects that had come back from it are settled, and else nothing is
    /// changed.
    #[error("{full}")]
    DiskFull { left: Left, full: DiskFull },
    /// A write to the disk failed, and the heap is lost.
    #[error("a write to the disk failed")]
    DiskFault { left: Left },
}

/// Why a heap was not collected.
#[derive(Debug, Drop, Error)]
pub enum HeapRefusal {
    /// There was no memory.
    #[error("out of memory")]
    NoMemory,
    /// The disk has no room for the new homes. Objects that had come back from it are settled, and else nothing is
    /// changed.
    #[error("{full}")]
    DiskFull { heap: Heap, full: DiskFull },
    /// A write to the disk failed, and the heap is lost.
    #[error("a write to the disk failed")]
    DiskFault,
}

/// What collections there were, and of which phase the next one is to be.
#[derive(Drop)]
pub struct Collector {
    pub journal: Vec<Journal>,
    pub plan: Plan,
}

impl Collector {
    /// Before the first collection, which is to be Inactive.
    pub fn new(alloc: Global, config: Config) -> Collector
        ensures none { result.journal.items ≡ [] }
        ensures plan { result.plan ≡ record { next = Phase.Inactive; mark = config.mark; move_ = config.move_ } }
    {
        Collector {
            journal: Vec::new(alloc),
            plan: Plan {
                next: Phase::Inactive,
                mark: config.mark,
                move_: config.move_,
            },
        }
    }
}

/// How many registers a thread has is a part of the type, and is told here.
fn count_registers(registers: Registers)
    ensures { length registers.regs ≡ 16 }
{}

/// Each thread has 16 registers.
// (a loop for the proof alone: it has no effect, so that nothing of it is left in the program)
fn count_all_registers(all: &[Registers])
    ensures { All (λ each. length each.regs ≡ 16) all.now }
{
    for &registers in all {
        count_registers(registers);
    }
}

/// Collects a heap, and counts no steps. Whoever calls it picks a ledger for them, which is of a type that it names.
fn collect_uncounted<D: StaleDisk, L: Ledger>(
    alloc: Global,
    heap: Heap,
    registers: &mut [Registers],
    space: &mut StaleSpace<'_, D>,
    plan: &mut Plan,
    force: bool,
    blank: Blank,
) -> Result<(Heap, Journal), MoveRefusal>
    requires name { blank.name ≡ L.name }
    requires parts { blank.parts ≡ L.parts }
    requires some { 0 < blank.parts }
    requires formed { IsFormedOn heap registers.old space.old.end }
    ensures collects { IfOk result (λ done. CollectsPlanned (phase_done force plan.old.next) heap done.0
        registers.old registers.new space.old.end space.new.end (D.image space.old.disk.now)
        (D.image space.new.disk.now) done.1) }
    ensures formed { IfOk result (λ done. IsFormedOn done.0 registers.new space.new.end) }
    ensures plans { IfOk result (λ done. plan.new
        ≡ plan_after plan.old (phase_done force plan.old.next) done.1.live (length heap.space.list)) }
    ensures fits { OnOk result (phase_done force plan.old.next ≡ Phase.Move → space.new.end ≤ space.old.limit) }
    ensures refused { IfErr result (λ refusal. IsRefusedPlanned D.image D.writes (phase_done force plan.old.next) heap
        registers.old registers.new space.old space.new refusal) }
    ensures failed { IsErrOf result MoveRefusal.DiskFault
        → Rose (D.faults space.old.disk.now) (D.faults space.new.disk.now) }
    ensures keeps { KeepsDisk D.image D.faults D.read_faults D.lends space.old space.new }
    ensures writes { IfOk result (λ done. RisesBy (done.1.bodies + done.1.stubs) (D.writes space.old.disk.now)
        (D.writes space.new.disk.now)) }
    ensures before { All (λ each. length each.regs ≡ 16) registers.old }
    ensures after { OnOk result (All (λ each. length each.regs ≡ 16) registers.new) }
{
    count_all_registers(registers);
    let mut steps = Steps::<L>::new(blank);
    let done = collect_planned(alloc, heap, registers, space, plan, force, &mut steps)?;
    count_all_registers(registers);
    Ok(done)
}

/// Collects the heap of a run between two epochs, and the registers over it: as is planned, or by a Move where `force`
/// says so. The collection is written down, and the next one planned.
pub fn collect_heap<D: StaleDisk>(
    alloc: Global,
    heap: Heap,
    registers: &mut [Registers],
    collector: &mut Collector,
    space: &mut StaleSpace<'_, D>,
    force: bool,
) -> Result<Heap, HeapRefusal>
    requires { MayCollectHeap space.old.end heap registers.old }
    ensures collected { IfOk result (λ after. CollectsHeap (phase_done force collector.old.plan.next)
        (shown_by D.image space.old) (shown_by D.image space.new) heap after registers.old registers.new
        collector.old collector.new) }
    ensures planned { IfOk result (λ after. IsWrittenDown collector.old.journal.items collector.new.journal.items
        (CollectsPlanned (phase_done force collector.old.plan.next) heap after registers.old registers.new
        space.old.end space.new.end (D.image space.old.disk.now) (D.image space.new.disk.now))) }
    ensures leaves { IfOk result (LeavesHeap heap) }
    ensures refused { IfErr result (IsRefusedHeap (phase_done force collector.old.plan.next)
        (shown_by D.image space.old) (shown_by D.image space.new) heap registers.old) }
    ensures journal_stays { OnErr result (collector.new.journal.items ≡ collector.old.journal.items) }
    ensures failed { IsErrOf result HeapRefusal.DiskFault
        → Rose (D.faults space.old.disk.now) (D.faults space.new.disk.now) }
    ensures keeps { KeepsDisk D.image D.faults D.read_faults D.lends space.old space.new }
    ensures wrote { OnOk result (WroteSince collector.old.journal.items collector.new.journal.items
        (D.writes space.old.disk.now) (D.writes space.new.disk.now)) }
    ensures refused_wrote { IfErr result (HeapWrote (D.writes space.old.disk.now) (D.writes space.new.disk.now)) }
{
    let blank = Blank::new(1);
    let plan = &mut collector.plan;
    match collect_uncounted::<D, Brand>(alloc, heap, registers, space, plan, force, blank) {
        Ok((heap, journal)) => {
            if collector.journal.push(journal).is_err() {
                return Err(HeapRefusal::NoMemory);
            }
            Ok(heap)
        }
        Err(MoveRefusal::NoMemory(_)) => Err(HeapRefusal::NoMemory),
        Err(MoveRefusal::DiskFull { heap, full }) => Err(HeapRefusal::DiskFull { heap, full }),
        Err(MoveRefusal::DiskFault) => Err(HeapRefusal::DiskFault),
    }
}
