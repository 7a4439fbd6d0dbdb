ghost use Rattle.std.specs.Prelude.{◌≤◌};
ghost use Rattle.melt_model.specs.Config.{InRanges};

use melt_disk::StaleSpace;
use melt_io::{StaleDisk, SteadyDisk};
use melt_model::{Config, Halt, Journal, Phase, Reply, Report, ThreadEnd};
use melt_same::same;
use melt_step::run_schedule;
use melt_trace::parse;
use std::alloc::Global;
use std::fmt::Debug;
use std::test::Fail;

/// A collection, in the order of a line of a journal: its phase, the words of objects that registers hold, the words of
/// all objects, how many Bodies and how many Stubs were written, and where the homes end then.
pub(super) type Collection = (Phase, [u32; 5]);

/// The numbers of a run over so many words, in which objects leave once three quarters of them are in use. A silent
/// collection comes after each operation whose number is a multiple of `every`, which is 0 for none.
pub(super) fn usual(heap: u32, every: u32) -> Config
    requires least { 16 ≤ heap }
    requires most { heap ≤ 4194304 }
    requires every { every ≤ 1048576 }
    ensures { InRanges result }
{
    Config {
        heap,
        forward: 16,
        disk: 4096,
        mark: 50,
        move_: 75,
        every,
    }
}

/// The numbers of a run over 16 words in which objects leave at the third collection.
pub(super) fn leaving(forward: u32, disk: u32) -> Config
    requires forward_least { 1 ≤ forward }
    requires forward_most { forward ≤ 65536 }
    requires disk_least { 2 ≤ disk }
    requires disk_most { disk ≤ 268435456 }
    ensures { InRanges result }
{
    Config {
        heap: 16,
        forward,
        disk,
        mark: 0,
        move_: 0,
        every: 0,
    }
}

/// What a run is to answer: the replies to each thread and how it ends, the collections, and why the run was halted.
#[derive(Clone, Copy)]
pub(super) struct Wanted<'a> {
    pub threads: &'a [(&'a [Reply], ThreadEnd)],
    pub journal: &'a [Collection],
    pub halt: Option<Halt>,
}

/// Runs a trace over a disk. Answers what is reported, and whether the heap was lost.
pub(super) fn run_over<D: StaleDisk>(
    alloc: Global,
    text: &[u8],
    config: Config,
    disk: &mut D,
    stored: bool,
) -> Result<(Report, bool), Fail>
    requires ranges { InRanges config }
{
    let trace = parse(alloc, text)?;
    let mut space = StaleSpace::new(disk, config.disk);
    let (report, left) = run_schedule(alloc, &trace, config, &mut space, stored)?;
    Ok((report, left.is_none()))
}

/// Compares what the threads of a run were told and how they ended, and shows it beside what tells the run from others
/// of its test.
pub(super) fn same_threads<W: Copy + PartialEq + Debug + Drop>(
    run: W,
    report: &Report,
    wanted: &[(&[Reply], ThreadEnd)],
) -> Result<(), Fail> {
    let threads = report.threads.items.as_slice();
    same((run, threads.len()), (run, wanted.len()))?;
    for (thread, (replies, end)) in threads.iter().zip(wanted) {
        let told = thread.replies.items.as_slice();
        same((run, told, thread.end), (run, *replies, *end))?;
    }
    Ok(())
}

/// Compares the collections of a run.
fn same_journal<W: Copy + PartialEq + Debug + Drop>(
    run: W,
    journal: &[Journal],
    wanted: &[Collection],
) -> Result<(), Fail> {
    same((run, journal.len()), (run, wanted.len()))?;
    for (it, wanted) in journal.iter().zip(wanted) {
        let numbers = [it.held, it.live, it.bodies, it.stubs, it.end];
        same((run, (it.phase, numbers)), (run, *wanted))?;
    }
    Ok(())
}

/// Compares what a run answered. The heap is lost where the disk failed, and nowhere else.
fn compare<W: Copy + PartialEq + Debug + Drop>(
    run: W,
    report: &Report,
    lost: bool,
    wanted: &Wanted<'_>,
) -> Result<(), Fail> {
    same_threads(run, report, wanted.threads)?;
    same_journal(run, &report.journal.items, wanted.journal)?;
    let fault = wanted.halt == Some(Halt::DiskFault);
    same((run, report.halt, lost), (run, wanted.halt, fault))
}

/// Runs a trace over a disk, and compares what it answers. Shows it beside what tells the run from others of its test.
pub(super) fn expect_over<D: StaleDisk, W: Copy + PartialEq + Debug + Drop>(
    alloc: Global,
    run: W,
    text: &[u8],
    config: Config,
    disk: &mut D,
    wanted: &Wanted<'_>,
) -> Result<(), Fail>
    requires ranges { InRanges config }
{
    let (report, lost) = run_over(alloc, text, config, disk, true)?;
    compare(run, &report, lost, wanted)
}

/// Runs a trace over a disk that does not fail, and compares what it answers.
pub(super) fn expect(
    alloc: Global,
    text: &[u8],
    config: Config,
    wanted: &Wanted<'_>,
) -> Result<(), Fail>
    requires ranges { InRanges config }
{
    let mut disk = SteadyDisk::new(alloc);
    expect_over(alloc, config, text, config, &mut disk, wanted)
}
