//! A run of a trace from its first epoch to its report.
//!
//! Whoever gives out the events of a run makes an engine for it. From there on all runs are the same: epochs and
//! safepoints take turns until no thread goes on, and what is left then is reported.
ghost use Rattle.std.specs.Prelude.{◌≡◌, ℕ, Bool, length, IfOk};
ghost use Rattle.melt_model.specs.declared.config.Config.{Config};
ghost use Rattle.melt_trace.specs.Script.{Script};
ghost use Rattle.melt_safepoint.specs.Begun.{IsBegun};
ghost use Rattle.melt_safepoint.specs.Engines.{LendsEach};
ghost use Rattle.melt_safepoint.specs.Rows.{RunStands, row_of};
ghost use Rattle.melt_safepoint.specs.Run.{CountsFaults, CountsLends, HasNoOperations, HasRun};
ghost use Rattle.melt_safepoint.specs.Threads.{AllEnded};
ghost use Rattle.melt_safepoint.specs.Writes.{CountsWrites};

use crate::collector::{CollectRefusal, Collector};
use crate::ending::Stop;
use crate::engine::{Engine, Machine};
use crate::run::Run;
use crate::space::DiskSpace;
use melt_model::{NoMemory, Report};
use melt_scion::Heap;
use std::alloc::Global;

/// Runs all epochs of a run that was just begun by an engine, until its threads have ended or the disk halts it, and
/// answers what came of it.
pub fn run_by_engine<'a, E: Machine, S: DiskSpace, C, F>(
    run: Run<'a, E>,
    alloc: Global,
    space: &mut S,
    engine: &Engine<C, F>,
) -> Result<(Report, Option<Heap>), NoMemory>
where
    C: Fn(E, Global, &mut Collector, &mut S, bool) -> Result<E, CollectRefusal>,
    F: Fn(Run<'a, E>, Global, &mut S, Option<u32>) -> Result<(Run<'a, E>, Option<u32>), Stop<'a>>,
    requires begins { IsBegun C.Fn F.Fn E.view E.stored S.sees engine.now space.old run }
    ensures has_run { IfOk result (λ done. (told : Bool) (script : Script) (config : Config)
        → RunStands told script config (S.sees.shown space.old) (row_of E.view run.entry)
        → HasRun told script config (S.sees.shown space.new) done.0 done.1) }
    ensures same_disk { S.sees.name space.new ≡ S.sees.name space.old }
    ensures counts { IfOk result (λ done. CountsFaults done.0 (S.sees.faults space.old) (S.sees.faults space.new)
        (S.sees.read_faults space.old) (S.sees.read_faults space.new)) }
    ensures lends { IfOk result (λ done. (readers : ℕ → ℕ)
        → LendsEach C.Fn F.Fn E.view E.stored S.sees engine.now readers
        → (script : Script) → (HasNoOperations script → AllEnded run.entry.states.items)
        → CountsLends (readers (length run.entry.states.items)) script done.0
        (S.sees.lends space.old) (S.sees.lends space.new)) }
    ensures wrote { IfOk result (λ done. (told : Bool) (script : Script) (config : Config)
        → RunStands told script config (S.sees.shown space.old) (row_of E.view run.entry)
        → CountsWrites config done.0.halt done.0.journal (S.sees.writes space.old) (S.sees.writes space.new)) }
    ensures log { IfOk result (λ done. done.0.log ≡ E.stored done.0.history) }
{
    let ended = match run.run_all(alloc, space, engine) {
        Ok(ended) => ended,
        Err(Stop::Halted(ended)) => ended,
        Err(Stop::NoMemory) => return Err(NoMemory),
    };
    ended.report(alloc)
}
