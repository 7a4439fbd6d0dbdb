//! How a run ends: when all threads have ended, or when the disk stops it.
//!
//! A collection that finds the disk full or failing, and a reader that cannot be lent, halt the whole run: no thread
//! can go on without its heap. What each thread was told until then stays true, and so
//! a report is made in the same way.
ghost use Rattle.std.specs.Prelude.{◌≡◌, ℕ, Bool, IfOk, Some, slice_get};
ghost use Rattle.melt_model.specs.declared.config.Config.{Config};
ghost use Rattle.melt_trace.specs.Script.{Script};
ghost use Rattle.melt_safepoint.specs.Ended.{EndedStands, SomeEnded};
ghost use Rattle.melt_safepoint.specs.Losses.{losses};
ghost use Rattle.melt_safepoint.specs.Run.{HasRun, lost_in};
ghost use Rattle.melt_safepoint.specs.Shown.{Shown};
ghost use Rattle.melt_safepoint.specs.Threads.{AreHalted};

use crate::thread::{Mode, ThreadState, halt_all};
use melt_model::{
    Entries, Ghost, Halt, Journal, Journals, NoMemory, Replies, Report, ThreadEnd, ThreadReport,
    ThreadReports,
};
use melt_scion::Heap;
use std::alloc::Global;

/// The heap of a run that is over, and its history. There is no heap where a fault of the disk halted the run.
#[derive(Debug, Drop)]
pub struct Left {
    pub heap: Option<Heap>,
    /// The entries that the run stored. A run of running threads stores none.
    pub log: Entries,
    /// The history, for contracts alone.
    pub history: Ghost<Entries>,
}

/// What is left of a run that has ended.
#[derive(Drop)]
pub struct Ended<'a> {
    pub left: Left,
    pub states: Vec<ThreadState<'a>>,
    pub journal: Vec<Journal>,
    pub halt: Option<Halt>,
}

/// Why a run does not go on though some thread could.
#[derive(Drop)]
pub enum Stop<'a> {
    /// There was no memory.
    NoMemory,
    /// The disk halted it.
    Halted(Ended<'a>),
}

impl<'a> From<NoMemory> for Stop<'a> {
    fn from(_: NoMemory) -> Stop<'a> {
        Stop::NoMemory
    }
}

/// What is left of a run that the disk halts: each thread that has not ended is halted.
pub fn halt_run<'a>(
    left: Left,
    mut states: Vec<ThreadState<'a>>,
    journal: Vec<Journal>,
    halt: Halt,
) -> Ended<'a>
    ensures left { result.left ≡ left }
    ensures states { AreHalted states.entry.items result.states.items }
    ensures journal { result.journal ≡ journal }
    ensures halt { result.halt ≡ Some halt }
{
    halt_all(&mut states);
    Ended {
        left,
        states,
        journal,
        halt: Some(halt),
    }
}

impl<'a> Ended<'a> {
    /// The report of a run, and the heap that is left.
    pub fn report(self, alloc: Global) -> Result<(Report, Option<Heap>), NoMemory>
        requires { (shown : Shown) × SomeEnded shown self }
        ensures has_run { IfOk result (λ done. (told : Bool) (script : Script) (config : Config) (shown : Shown)
            → EndedStands told script config shown self.entry → HasRun told script config shown done.0 done.1) }
        ensures lost { IfOk result (λ done. lost_in done.0 ≡ losses self.entry.states.items) }
        ensures halt { IfOk result (λ done. done.0.halt ≡ self.entry.halt) }
        ensures journal { IfOk result (λ done. done.0.journal ≡ self.entry.journal.items) }
        ensures log { IfOk result (λ done. done.0.log ≡ self.entry.left.log) }
        ensures history { IfOk result (λ done. done.0.history ≡ self.entry.left.history) }
        ensures heap { IfOk result (λ done. done.1 ≡ self.entry.left.heap) }
    {
        let mut threads = Vec::with_capacity(alloc, self.states.len())?;
        for state in self.states {
            let end = match state.mode {
                Mode::Ended(end) => end,
                // A run ends when all threads have ended, and a halt ends those that have not.
                _ => unreachable!(),
            };
            threads.push(ThreadReport {
                replies: Replies {
                    items: state.replies,
                },
                end,
            })?;
        }
        let report = Report {
            threads: ThreadReports { items: threads },
            journal: Journals {
                items: self.journal,
            },
            halt: self.halt,
            log: self.left.log,
            history: self.left.history,
        };
        Ok((report, self.left.heap))
    }
}
