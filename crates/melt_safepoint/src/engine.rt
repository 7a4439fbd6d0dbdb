//! What runs the epochs of a run.
//!
//! Between two epochs no call is in flight, so heap, registers and history are all that a run has: its machine. What a
//! row of epochs does with it is written once; how the threads take turns inside an epoch is told by a function, as a
//! run by the written order and one of running threads differ there.
ghost use Rattle.std.specs.Prelude.{◌≡◌, ℕ, ◌<◌, ◌≤◌, true, List, length, IfOk, IfErr, OnOk, OnErr, Err};
ghost use Rattle.melt_io.specs.Outside.{Rose};
ghost use Rattle.melt_model.specs.Alive.{CostsSum, Held, words_of};
ghost use Rattle.melt_model.specs.declared.history.Entry.{Entry};
ghost use Rattle.melt_scion.specs.Heaps.{OnDisk};
ghost use Rattle.melt_move.specs.Planned.{phase_done};
ghost use Rattle.melt_core.specs.Epochs.{HasDropped};
ghost use Rattle.melt_core.specs.Holdings.{IsSound};
ghost use Rattle.melt_core.specs.Views.{IsQuiet, Standing, View, value};
ghost use Rattle.melt_safepoint.specs.declared.ending.Left.{Left};
ghost use Rattle.melt_safepoint.specs.Collections.{CollectsCore, IsRefusedCore, LeavesAll, MayCollect};
ghost use Rattle.melt_safepoint.specs.Engines.{IsEngine, LendsEach};
ghost use Rattle.melt_safepoint.specs.Epochs.{EndsEpoch, SomeMayRun};
ghost use Rattle.melt_safepoint.specs.Lends.{LendsAtMost};
ghost use Rattle.melt_safepoint.specs.Losses.{CountsLosses};
ghost use Rattle.melt_safepoint.specs.Rows.{RefusalStores, StopCounts, StopKeeps, StopStores, StopsBut, row_of};
ghost use Rattle.melt_safepoint.specs.Writes.{RefusalWrote, WroteSince};

use crate::collector::{CollectRefusal, Collector};
use crate::ending::{Left, Stop};
use crate::run::Run;
use crate::space::DiskSpace;
use std::alloc::Global;

/// The heap of a run, the registers of its threads and its history, between two epochs.
pub trait Machine: Sized + Drop {
    /// What it shows.
    ghost view: { Self → View };

    /// What it stores of its history.
    ghost stored: { List Entry → List Entry };

    /// How many words the objects take that registers hold, each counted once.
    fn held(&self) -> u32
        requires sound { IsSound (view self.now) }
        ensures held { (disk : OnDisk) → Standing true disk (view self.now)
            → CostsSum (words_of (view self.now).log) (Held (value (view self.now))) result };

    /// Lets the registers of a thread hold nothing.
    fn drop_all(&mut self, thread: u32)
        requires thread { thread < length (view self.old).held }
        requires quiet { IsQuiet (view self.old) }
        ensures dropped { HasDropped (view self.old) (view self.new) thread };

    /// The heap and the history that are left of the run.
    fn finish(self) -> Left
        requires quiet { IsQuiet (view self) }
        ensures left { LeavesAll (view self) result }
        ensures stores { result.log ≡ stored result.history };
}

/// How a run makes its collections and goes through its epochs.
///
/// These are functions and no methods of the machine: they hand on the disk, whose readers go to threads, and a trait
/// would have to promise that of every disk.
#[derive(Drop)]
pub struct Engine<C, F> {
    pub collect: C,
    pub run_epoch: F,
}

impl<C, F> Engine<C, F> {
    /// Makes a collection between two epochs: the one that is planned, or a Move where `force` says so.
    pub(crate) fn collect<'a, E: Machine, S: DiskSpace>(
        &self,
        machine: E,
        alloc: Global,
        collector: &mut Collector,
        space: &mut S,
        force: bool,
    ) -> Result<E, CollectRefusal>
    where
        C: Fn(E, Global, &mut Collector, &mut S, bool) -> Result<E, CollectRefusal>,
        F: Fn(
            Run<'a, E>,
            Global,
            &mut S,
            Option<u32>,
        ) -> Result<(Run<'a, E>, Option<u32>), Stop<'a>>,
        requires works { IsEngine C.Fn F.Fn E.view E.stored S.sees self.now }
        requires may { MayCollect (S.sees.shown space.old).end (E.view machine) }
        ensures collected { IfOk result (λ after. CollectsCore (phase_done force collector.old.plan.next)
            (S.sees.shown space.old) (S.sees.shown space.new) (E.view machine) (E.view after)
            collector.old collector.new) }
        ensures refused { IfErr result (IsRefusedCore (phase_done force collector.old.plan.next)
            (S.sees.shown space.old) (S.sees.shown space.new) (E.view machine)) }
        ensures stores { IfErr result (RefusalStores E.stored) }
        ensures journal_stays { OnErr result (collector.new.journal.items ≡ collector.old.journal.items) }
        ensures failed { (left : Left) → result ≡ Err (CollectRefusal.DiskFault left)
            → Rose (S.sees.faults space.old) (S.sees.faults space.new) }
        ensures same_disk { S.sees.name space.new ≡ S.sees.name space.old }
        ensures count { S.sees.faults space.old ≤ S.sees.faults space.new }
        ensures read_faults { S.sees.read_faults space.new ≡ S.sees.read_faults space.old }
        ensures lends { S.sees.lends space.new ≡ S.sees.lends space.old }
        ensures wrote { OnOk result (WroteSince collector.old.journal.items collector.new.journal.items
            (S.sees.writes space.old) (S.sees.writes space.new)) }
        ensures refused_wrote { IfErr result (RefusalWrote (S.sees.writes space.old) (S.sees.writes space.new)) }
    {
        (self.collect)(machine, alloc, collector, space, force)
    }

    /// Lets the threads go through an epoch, each as far as it can. Where a thread is to be the first, it makes its
    /// call before all others, and where that lacks words, no other goes on: these words are answered.
    pub(crate) fn run_epoch<'a, E: Machine, S: DiskSpace>(
        &self,
        run: Run<'a, E>,
        alloc: Global,
        space: &mut S,
        first: Option<u32>,
    ) -> Result<(Run<'a, E>, Option<u32>), Stop<'a>>
    where
        C: Fn(E, Global, &mut Collector, &mut S, bool) -> Result<E, CollectRefusal>,
        F: Fn(
            Run<'a, E>,
            Global,
            &mut S,
            Option<u32>,
        ) -> Result<(Run<'a, E>, Option<u32>), Stop<'a>>,
        requires works { IsEngine C.Fn F.Fn E.view E.stored S.sees self.now }
        requires may { SomeMayRun (S.sees.shown space.old) first (row_of E.view run) }
        ensures ends { IfOk result (λ done. EndsEpoch (S.sees.shown space.old) first (row_of E.view run.entry)
            (row_of E.view done.0) done.1) }
        ensures shown { S.sees.shown space.new ≡ S.sees.shown space.old }
        ensures same_disk { S.sees.name space.new ≡ S.sees.name space.old }
        ensures count { S.sees.faults space.old ≤ S.sees.faults space.new }
        ensures lost { IfOk result (λ done. CountsLosses run.entry.states.items done.0.states.items
            (S.sees.read_faults space.old) (S.sees.read_faults space.new)) }
        ensures lends { (readers : ℕ → ℕ) → LendsEach C.Fn F.Fn E.view E.stored S.sees self.now readers
            → LendsAtMost (readers (length run.entry.states.items)) (S.sees.lends space.old) (S.sees.lends space.new) }
        ensures stopped { IfErr result (StopsBut (S.sees.shown space.old) (S.sees.shown space.new)
            (row_of E.view run.entry)) }
        ensures stop_counts { IfErr result (λ stop. StopCounts stop run.entry.states.items (S.sees.faults space.old)
            (S.sees.faults space.new) (S.sees.read_faults space.old) (S.sees.read_faults space.new)) }
        ensures stop_keeps { IfErr result (StopKeeps run.entry.collector.journal.items) }
        ensures stores { IfErr result (StopStores E.stored) }
        ensures writes { S.sees.writes space.new ≡ S.sees.writes space.old }
    {
        (self.run_epoch)(run, alloc, space, first)
    }
}
