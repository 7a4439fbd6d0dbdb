//! Runs a trace from standard input by real threads, over a disk in memory or in the file `melt.stale` of the current
//! folder. Its words are `file`, and numbers, as `heap=4096`. It tells how each thread ended and how many collections
//! there were, and with `time=9` makes nine runs and tells how long each took. `bench/threads` reads these times.
ghost use Rattle.melt_model.specs.Config.{InRanges};

mod asked;
mod timed;

use crate::run::asked::{Asked, asked_by};
use crate::run::timed::{Timed, time_run};
use anyhow::Result;
use melt_io::{FileDisk, StdSource, SteadyDisk, read_all};
use melt_model::Report;
use melt_safepoint::keep_memory;
use melt_trace::{MAX_BYTES, Trace, parse};
use std::alloc::Global;
use std::io;
use std::thread::Threads;
use std::time::{Clock, Duration};

fn tell(rt: &impl Print, report: &Report) -> io::Result<()> {
    for (t, thread) in report.threads.items.iter().enumerate() {
        let count = thread.replies.items.len();
        let end = thread.end;
        println!(rt; "thread {t}: {count} operations, {end:?}")?;
    }
    let collections = report.journal.items.len();
    println!(rt; "collections {collections}")
}

/// Runs the trace once, over a disk that is new.
fn run_once<X: Threads + Sync + Clock>(
    rt: &X,
    files: HostRuntime,
    alloc: Global,
    trace: &Trace,
    asked: Asked,
) -> Result<Timed>
    requires ranges { InRanges asked.config }
{
    if asked.is_on_file {
        let mut disk = FileDisk::new(alloc, files, 0);
        time_run(rt, alloc, trace, asked.config, &mut disk)
    } else {
        let mut disk = SteadyDisk::new(alloc);
        time_run(rt, alloc, trace, asked.config, &mut disk)
    }
}

fn tell_time(rt: &impl Print, took: Duration) -> io::Result<()> {
    println!(rt; "nanoseconds {}", took.as_nanos())
}

/// The trace on standard input.
fn read_trace(files: HostRuntime) -> Result<Trace> {
    let alloc = files.alloc();
    let bytes = read_all(alloc, &mut StdSource::new(files.stdin()), MAX_BYTES)?;
    Ok(parse(alloc, &bytes)?)
}

/// Runs the trace once, and tells how it ended. Answers how long that took.
fn run_first<X: Threads + Sync + Clock + Print>(
    rt: &X,
    files: HostRuntime,
    trace: &Trace,
    asked: Asked,
) -> Result<Duration>
    requires ranges { InRanges asked.config }
{
    let first = run_once(rt, files, files.alloc(), trace, asked)?;
    tell(rt, &first.report)?;
    Ok(first.took)
}

/// Makes all runs that are asked for.
fn run_all<X: Threads + Sync + Clock + Print>(
    rt: &X,
    files: HostRuntime,
    trace: &Trace,
    asked: Asked,
) -> Result<()>
    requires ranges { InRanges asked.config }
{
    let took = run_first(rt, files, trace, asked)?;
    if asked.timed > 0 {
        tell_time(rt, took)?;
    }
    for _ in 1..asked.timed {
        let took = run_once(rt, files, files.alloc(), trace, asked)?.took;
        tell_time(rt, took)?;
    }
    Ok(())
}

/// What the words after `run` ask for.
pub fn bench<X: Threads + Sync + Clock + Print>(
    rt: &X,
    files: HostRuntime,
    words: &[String],
) -> Result<()> {
    keep_memory(files.alloc());
    let asked = asked_by(words)?;
    let trace = read_trace(files)?;
    run_all(rt, files, &trace, asked)
}
