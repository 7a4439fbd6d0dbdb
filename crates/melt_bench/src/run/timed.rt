//! How long a run by real threads takes.
ghost use Rattle.std.specs.Prelude.{◌≡◌, Bool, true, IfOk, IsSome};
ghost use Rattle.melt_model.specs.Config.{InRanges};
ghost use Rattle.melt_safepoint.specs.Run.{IsStepReport};

use anyhow::Result;
use melt_disk::StaleSpace;
use melt_io::{OpenGate, StaleDisk};
use melt_model::{Config, Report};
use melt_pool::run_threads;
use melt_trace::Trace;
use std::alloc::Global;
use std::thread::Threads;
use std::time::{Clock, Duration, Instant};

/// What a run came to, and how long it took.
#[derive(Drop)]
pub struct Timed {
    pub report: Report,
    pub took: Duration,
}

/// Runs a trace by real threads, each operation as soon as it comes, over a disk that has no homes yet. The time is
/// that of the run alone.
pub fn time_run<X: Threads + Sync + Clock, D: StaleDisk>(
    rt: &X,
    alloc: Global,
    trace: &Trace,
    config: Config,
    disk: &mut D,
) -> Result<Timed>
    requires { InRanges config }
    ensures { IfOk result (λ timed. (told : Bool) → (told ≡ true → IsSome (D.image disk.old))
        → IsStepReport told trace.now config timed.report) }
{
    let mut space = StaleSpace::new(disk, config.disk);
    let begun = Instant::now(rt)?;
    let outcome = run_threads(rt, alloc, trace, config, &mut space, &OpenGate);
    let ended = Instant::now(rt)?;
    let (report, _heap) = outcome?;
    Ok(Timed {
        report,
        took: ended.duration_since(begun),
    })
}
