//! A run of a trace as a row of epochs.
//!
//! In an epoch the threads go on, each as far as it can, over the disk as it was when readers were lent. Between two
//! epochs no call is in flight, so that heap and registers are all there is, and collections are made there.
ghost use Rattle.std.specs.Prelude.{◌≡◌, ℕ, ◌<◌, ◌≤◌, length, slice_get, Some, None, true, false, Bool};
ghost use Rattle.std.specs.Prelude.{IfOk, IfErr, IfSome, IfNone};
ghost use Rattle.melt_model.specs.declared.config.Config.{Config};
ghost use Rattle.melt_trace.specs.Script.{Script};
ghost use Rattle.melt_safepoint.specs.Collections.{NoneForwarded};
ghost use Rattle.melt_safepoint.specs.Ended.{EndedStands};
ghost use Rattle.melt_safepoint.specs.Engines.{IsEngine, LendsEach};
ghost use Rattle.melt_safepoint.specs.Epochs.{GoesOnFrom, to_do};
ghost use Rattle.melt_safepoint.specs.Lends.{LendsAtMost, LendsTwice};
ghost use Rattle.melt_safepoint.specs.Losses.{CountsLosses};
ghost use Rattle.melt_safepoint.specs.Passing.{NoneOwn};
ghost use Rattle.melt_safepoint.specs.Rows.{KeepsRun, RunStands, SomeStands, StopCounts, StopKeeps, StopStores};
ghost use Rattle.melt_safepoint.specs.Rows.{StopTwice};
ghost use Rattle.melt_safepoint.specs.Rows.{StopsRun, journal_of, row_of};
ghost use Rattle.melt_safepoint.specs.Shown.{Shown};
ghost use Rattle.melt_safepoint.specs.Threads.{AllEnded, NoneBelow, SomeGoesOn};
ghost use Rattle.melt_safepoint.specs.Writes.{StopWrote, WroteSince};
ghost use Rattle.melt_safepoint.specs.declared.thread.ThreadState.{ThreadState};

use crate::collector::{CollectRefusal, Collector};
use crate::ending::{Ended, Stop};
use crate::engine::{Engine, Machine};
use crate::space::DiskSpace;
use crate::thread::{Mode, ThreadState};
use melt_model::Ghost;
use std::alloc::Global;

/// A run of a trace between two epochs.
#[derive(Drop)]
pub struct Run<'a, E: Drop> {
    pub machine: E,
    pub states: Vec<ThreadState<'a>>,
    pub collector: Collector,
    /// How many words the heap has.
    pub words: u32,
    pub every: u32,
    /// Whether what the run was told stands in its history. It takes no bytes.
    pub told: Ghost<bool>,
}

impl<'a, E: Machine> Run<'a, E> {
    /// Whether all threads have ended.
    pub fn has_ended(&self) -> bool
        ensures ended { result ≡ true → AllEnded self.now.states.items }
        ensures goes { result ≡ false → SomeGoesOn self.now.states.items }
    {
        for state in &self.states {
            if !state.has_ended() {
                return false;
            }
        }
        true
    }

    /// The lowest thread that waits for room.
    pub(crate) fn lacking(&self) -> Option<u32>
        requires few { length self.now.states.items ≤ 8 }
        ensures some { IfSome result
            (λ t. (s : ThreadState) × (slice_get self.now.states.items t ≡ Some s) × (s.mode ≡ Mode.Lacking)) }
        ensures first { IfSome result (NoneBelow (λ mode. mode ≡ Mode.Lacking) self.now.states.items) }
        ensures none { IfNone result
            ((t : ℕ) (s : ThreadState) → slice_get self.now.states.items t ≡ Some s → s.mode ≡ Mode.Lacking → ⊥) }
    {
        for (t, state) in self.states.iter().enumerate() {
            if let Mode::Lacking = state.mode {
                return Some(t as u32);
            }
        }
        None
    }

    /// What is left when all threads have ended.
    pub(crate) fn end(self) -> Ended<'a>
        requires stands { (shown : Shown) × SomeStands shown (row_of E.view self) }
        requires ended { AllEnded self.states.items }
        ensures stands { (told : Bool) (script : Script) (config : Config) (shown : Shown)
            → RunStands told script config shown (row_of E.view self.entry)
            → EndedStands told script config shown result }
        ensures states { result.states.items ≡ self.entry.states.items }
        ensures halt { result.halt ≡ None }
        ensures journal { result.journal ≡ self.entry.collector.journal }
        ensures stores { result.left.log ≡ E.stored result.left.history }
    {
        Ended {
            left: self.machine.finish(),
            states: self.states,
            journal: self.collector.journal,
            halt: None,
        }
    }

    /// Lets the threads go on in an epoch, unless all have ended.
    pub(crate) fn next_epoch<S: DiskSpace, C, F>(
        self,
        alloc: Global,
        space: &mut S,
        engine: &Engine<C, F>,
    ) -> Result<Run<'a, E>, Stop<'a>>
    where
        C: Fn(E, Global, &mut Collector, &mut S, bool) -> Result<E, CollectRefusal>,
        F: Fn(
            Run<'a, E>,
            Global,
            &mut S,
            Option<u32>,
        ) -> Result<(Run<'a, E>, Option<u32>), Stop<'a>>,
        requires engine { IsEngine C.Fn F.Fn E.view E.stored S.sees engine.now }
        requires stands { SomeStands (S.sees.shown space.old) (row_of E.view self) }
        requires settled { NoneForwarded (E.view self.machine) }
        requires own { NoneOwn self.states.items }
        ensures goes { IfOk result (λ run. GoesOnFrom (S.sees.shown space.old) (row_of E.view self.entry)
            (row_of E.view run)) }
        ensures shown { S.sees.shown space.new ≡ S.sees.shown space.old }
        ensures same_disk { S.sees.name space.new ≡ S.sees.name space.old }
        ensures count { S.sees.faults space.old ≤ S.sees.faults space.new }
        ensures lost { IfOk result (λ run. CountsLosses self.entry.states.items run.states.items
            (S.sees.read_faults space.old) (S.sees.read_faults space.new)) }
        ensures lends { (readers : ℕ → ℕ) → LendsEach C.Fn F.Fn E.view E.stored S.sees engine.now readers
            → LendsAtMost (readers (length self.entry.states.items)) (S.sees.lends space.old) (S.sees.lends space.new) }
        ensures idle { AllEnded self.entry.states.items → S.sees.lends space.new ≡ S.sees.lends space.old }
        ensures stopped { IfErr result (StopsRun (S.sees.shown space.old) (S.sees.shown space.new)
            (row_of E.view self.entry)) }
        ensures stop_counts { IfErr result (λ stop. StopCounts stop self.entry.states.items
            (S.sees.faults space.old) (S.sees.faults space.new) (S.sees.read_faults space.old)
            (S.sees.read_faults space.new)) }
        ensures stores { IfErr result (StopStores E.stored) }
        ensures stop_keeps { IfErr result (StopKeeps (journal_of (row_of E.view self.entry))) }
        ensures writes { S.sees.writes space.new ≡ S.sees.writes space.old }
    {
        if self.has_ended() {
            return Ok(self);
        }
        // No call is made first here, so there is none whose want of words is to be answered.
        let (run, _lacks) = engine.run_epoch(self, alloc, space, None)?;
        Ok(run)
    }

    /// Runs epoch after epoch until all threads have ended.
    pub(crate) fn run_all<S: DiskSpace, C, F>(
        self,
        alloc: Global,
        space: &mut S,
        engine: &Engine<C, F>,
    ) -> Result<Ended<'a>, Stop<'a>>
    where
        C: Fn(E, Global, &mut Collector, &mut S, bool) -> Result<E, CollectRefusal>,
        F: Fn(
            Run<'a, E>,
            Global,
            &mut S,
            Option<u32>,
        ) -> Result<(Run<'a, E>, Option<u32>), Stop<'a>>,
        requires engine { IsEngine C.Fn F.Fn E.view E.stored S.sees engine.now }
        requires stands { SomeStands (S.sees.shown space.old) (row_of E.view self) }
        requires settled { NoneForwarded (E.view self.machine) }
        requires own { NoneOwn self.states.items }
        ensures ended { IfOk result (λ ended. (told : Bool) (script : Script) (config : Config)
            → RunStands told script config (S.sees.shown space.old) (row_of E.view self.entry)
            → EndedStands told script config (S.sees.shown space.new) ended) }
        ensures done { IfOk result (λ ended. ended.halt ≡ None) }
        ensures kept { IfOk result (λ ended. ended.left.log ≡ E.stored ended.left.history) }
        ensures lost { IfOk result (λ ended. CountsLosses self.entry.states.items ended.states.items
            (S.sees.read_faults space.old) (S.sees.read_faults space.new)) }
        ensures same_disk { S.sees.name space.new ≡ S.sees.name space.old }
        ensures count { S.sees.faults space.old ≤ S.sees.faults space.new }
        ensures lends { IfOk result (λ ended. (readers : ℕ → ℕ)
            → LendsEach C.Fn F.Fn E.view E.stored S.sees engine.now readers
            → LendsTwice (readers (length self.entry.states.items)) 1
            (S.sees.lends space.old) (S.sees.lends space.new) (journal_of (row_of E.view self.entry))
            ended.journal.items) }
        ensures idle { AllEnded self.entry.states.items → S.sees.lends space.new ≡ S.sees.lends space.old }
        ensures stopped { IfErr result (StopsRun (S.sees.shown space.old) (S.sees.shown space.new)
            (row_of E.view self.entry)) }
        ensures stop_counts { IfErr result (λ stop. StopCounts stop self.entry.states.items
            (S.sees.faults space.old) (S.sees.faults space.new) (S.sees.read_faults space.old)
            (S.sees.read_faults space.new)) }
        ensures stores { IfErr result (StopStores E.stored) }
        ensures stop_lends { IfErr result (λ stop. (readers : ℕ → ℕ)
            → LendsEach C.Fn F.Fn E.view E.stored S.sees engine.now readers
            → StopTwice (readers (length self.entry.states.items)) 1
            (S.sees.lends space.old) (S.sees.lends space.new) (journal_of (row_of E.view self.entry))
            stop) }
        ensures wrote { IfOk result (λ ended. WroteSince (journal_of (row_of E.view self.entry))
            ended.journal.items (S.sees.writes space.old) (S.sees.writes space.new)) }
        ensures stop_wrote { IfErr result (StopWrote (journal_of (row_of E.view self.entry)) (S.sees.writes space.old)
            (S.sees.writes space.new)) }
    {
        let mut run = self.next_epoch(alloc, space, engine)?;
        while !run.has_ended() {
            run = run.pass_safepoint(alloc, space, engine)?;
        }
        Ok(run.end())
    }
}
