//! The collection that a plan says.
//!
//! Objects that came back from the disk are settled first, in every phase, so that the collection finds all of them
//! by scions. Settling takes no memory, and what a collection refuses for want of memory or of room is refused before
//! its first change: so the heap that is handed back then is the settled one, and the plan stays, to be tried again.
ghost use Rattle.std.specs.Prelude.{◌≡◌, ◌≤◌, ◌<◌, ◌+◌, ◌^◌, length, IfOk, IfErr, OnOk, OnErr, IsErrOf};
ghost use Rattle.melt_io.specs.Outside.{Rose};
ghost use Rattle.melt_scion.specs.Heaps.{IsSettled};
ghost use Rattle.melt_copy.specs.Settling.{RisesBy};
ghost use Rattle.melt_copy.specs.Visits.{VisitsAtMost};
ghost use Rattle.melt_move.specs.Collecting.{IsFormedOn};
ghost use Rattle.melt_move.specs.KeptDisk.{KeepsDisk};
ghost use Rattle.melt_move.specs.Planned.{CollectsIn, CollectsPlanned, IsRefusedIn, IsRefusedPlanned};
ghost use Rattle.melt_move.specs.Planned.{phase_done, plan_after};
ghost use Rattle.melt_move.specs.Visits.{VisitsPlanned, visits_in};

use crate::collect::{MoveRefusal, collect_move, drop_held};
use melt_copy::{collect_copy, settle};
use melt_disk::StaleSpace;
use melt_io::StaleDisk;
use melt_model::{Journal, NoMemory, Phase, Steps};
use melt_policy::next_phase;
use melt_scion::{Heap, Registers};
use std::alloc::Global;
use std::sync::ledger::Ledger;

/// What is planned for the collections of a heap: the phase of the next one, and by which the phase after that is
/// chosen.
#[derive(Clone, Copy, Debug, PartialEq, Eq)]
pub struct Plan {
    /// The phase of the next collection that is not forced.
    pub next: Phase,
    /// From so many hundredths of the heap in use on, a phase other than Inactive is planned.
    pub mark: u32,
    /// From so many hundredths on, Move is planned after Mark and after Move.
    pub move_: u32,
}

impl Plan {
    /// The phase that is to be done: Move where that is forced, and else the planned one.
    fn phase(&self, force: bool) -> Phase
        ensures { result ≡ phase_done force self.now.next }
    {
        if force { Phase::Move } else { self.next }
    }
}

/// Collects a settled heap in a phase.
fn collect_in<D: StaleDisk, L: Ledger>(
    alloc: Global,
    mut heap: Heap,
    held: &mut [Registers],
    disk: &mut StaleSpace<'_, D>,
    phase: Phase,
    steps: &mut Steps<L>,
) -> Result<(Heap, Journal), MoveRefusal>
    requires formed { IsFormedOn heap held.old disk.old.end }
    requires settled { IsSettled heap }
    ensures collects { IfOk result (λ done. CollectsIn phase heap done.0 held.old held.new disk.old.end disk.new.end
        (D.image disk.old.disk.now) (D.image disk.new.disk.now) done.1) }
    ensures formed { IfOk result (λ done. IsFormedOn done.0 held.new disk.new.end) }
    ensures few { IfOk result (λ done. done.1.stubs < 2 ^ 30) }
    ensures writes { IfOk result (λ done.
        RisesBy (done.1.bodies + done.1.stubs) (D.writes disk.old.disk.now) (D.writes disk.new.disk.now)) }
    ensures fits { OnOk result (phase ≡ Phase.Move → disk.new.end ≤ disk.old.limit) }
    ensures visits { VisitsAtMost (visits_in phase) heap held.old steps.old steps.new }
    ensures refused { IfErr result (λ refusal. IsRefusedIn phase heap held.old held.new disk.old disk.new refusal) }
    ensures failed { IsErrOf result MoveRefusal.DiskFault
        → Rose (D.faults disk.old.disk.now) (D.faults disk.new.disk.now) }
    ensures keeps { KeepsDisk D.image D.faults D.read_faults D.lends disk.old disk.new }
{
    match phase {
        Phase::Move => collect_move(alloc, heap, held, disk, steps),
        Phase::Inactive | Phase::Mark => {
            match collect_copy(alloc, &mut heap, held, phase, steps) {
                Ok(journal) => Ok((heap, journal)),
                Err(NoMemory) => Err(MoveRefusal::NoMemory(heap)),
            }
        }
    }
}

/// Settles a heap and collects it, in the planned phase, or in phase Move where `force` says so. Then plans the next
/// phase. In the journal `bodies` counts the Bodies that the collection wrote, and `stubs` its Stubs and those of the
/// settled objects. Counts one step for each turn of a loop of the collection.
///
/// A heap that is handed back for want of memory or of room on the disk is settled, and registers and plan are as they
/// were. Where a write fails, in settling or in a Move, the heap is given up.
pub fn collect_planned<D: StaleDisk, L: Ledger>(
    alloc: Global,
    mut heap: Heap,
    held: &mut [Registers],
    disk: &mut StaleSpace<'_, D>,
    plan: &mut Plan,
    force: bool,
    steps: &mut Steps<L>,
) -> Result<(Heap, Journal), MoveRefusal>
    requires { IsFormedOn heap held.old disk.old.end }
    ensures collects { IfOk result (λ done. CollectsPlanned (phase_done force plan.old.next) heap done.0
        held.old held.new disk.old.end disk.new.end (D.image disk.old.disk.now) (D.image disk.new.disk.now) done.1) }
    ensures formed { IfOk result (λ done. IsFormedOn done.0 held.new disk.new.end) }
    ensures plans { IfOk result (λ done. plan.new
        ≡ plan_after plan.old (phase_done force plan.old.next) done.1.live (length heap.space.list)) }
    ensures writes { IfOk result (λ done.
        RisesBy (done.1.bodies + done.1.stubs) (D.writes disk.old.disk.now) (D.writes disk.new.disk.now)) }
    ensures fits { OnOk result (phase_done force plan.old.next ≡ Phase.Move → disk.new.end ≤ disk.old.limit) }
    ensures visits { VisitsPlanned (phase_done force plan.old.next) heap held.old steps.old steps.new }
    ensures refused { IfErr result (λ refusal. IsRefusedPlanned D.image D.writes (phase_done force plan.old.next) heap
        held.old held.new disk.old disk.new refusal) }
    ensures plan_stays { OnErr result (plan.new ≡ plan.old) }
    ensures failed { IsErrOf result MoveRefusal.DiskFault
        → Rose (D.faults disk.old.disk.now) (D.faults disk.new.disk.now) }
    ensures keeps { KeepsDisk D.image D.faults D.read_faults D.lends disk.old disk.new }
{
    // In every phase: a collection finds what came back by its scion, and the next epoch needs empty forwarding words.
    let Ok(settled) = settle(&mut heap, disk) else {
        drop_held(held, steps);
        return Err(MoveRefusal::DiskFault);
    };
    let phase = plan.phase(force);
    let words = heap.space.words();
    let (heap, alone) = collect_in(alloc, heap, held, disk, phase, steps)?;
    let journal = Journal {
        stubs: settled + alone.stubs,
        end: disk.end(),
        ..alone
    };
    plan.next = next_phase(journal.live, words, phase, plan.mark, plan.move_);
    Ok((heap, journal))
}
