ghost use Rattle.melt_model.specs.Config.{InRanges};

use super::*;
use melt_disk::StaleSpace;
use melt_io::{MemDisk, StaleDisk, SteadyDisk};
use melt_model::{Config, Report};
use melt_pool::run_threads;

/// A gate that counts what it is told of two threads. The first begins its second operation when the second begins its third,
/// and the second its first when the first begins its second.
#[derive(Drop)]
struct InTurn {
    told: [AtomicU64; 2],
}

impl InTurn {
    fn new() -> InTurn {
        InTurn {
            told: [AtomicU64::new(0), AtomicU64::new(0)],
        }
    }

    fn wait_for(&self, thread: usize, op: u64) {
        for _ in 0..TURNS {
            if op <= self.told[thread % 2].load(Ordering::SeqCst) {
                return;
            }
            thread::yield_now();
        }
    }
}

impl Gate for InTurn {
    fn before(&self, thread: u32, op: u64) {
        let Some(told) = self.told.get(thread as usize) else {
            return;
        };
        told.store(op, Ordering::SeqCst);
        match (thread, op) {
            (0, 2) => self.wait_for(1, 3),
            (1, 1) => self.wait_for(0, 2),
            _ => {}
        }
    }
}

/// The numbers of a run over 16 words in which objects leave at the third collection.
fn leaving() -> Config
    ensures { InRanges result }
{
    Config {
        heap: 16,
        forward: 16,
        disk: 4096,
        mark: 0,
        move_: 0,
        every: 0,
    }
}

/// Runs a trace by threads over a disk. Answers what is reported, and whether the heap was lost.
fn run_over<X: Threads + Sync, D: StaleDisk, G: Gate + Sync>(
    rt: &X,
    alloc: Global,
    text: &[u8],
    disk: &mut D,
    gate: &G,
) -> Result<(Report, bool), Fail> {
    let trace = parse(alloc, text)?;
    let config = leaving();
    let mut space = StaleSpace::new(disk, config.disk);
    let (report, left) = run_threads(rt, alloc, &trace, config, &mut space, gate)?;
    Ok((report, left.is_none()))
}

/// What a thread is told, and how it ends.
type Told<'a> = (&'a [Reply], ThreadEnd);

/// Compares what the threads of a run were told, and how many Bodies the collection wrote that wrote most.
fn same_replies(report: &Report, wanted: &[Told<'_>], bodies: Option<u32>) -> Result<(), Fail> {
    same(report.threads.items.len(), wanted.len())?;
    for (thread, (replies, end)) in report.threads.items.iter().zip(wanted) {
        let told = thread.replies.items.as_slice();
        same((told, thread.end), (*replies, *end))?;
    }
    let most = report.journal.items.iter().map(|it| it.bodies).max();
    same((report.halt, most), (None, bodies))
}

/// Runs a trace by threads that meet, over a disk that does not fail, and compares what they are told.
fn expect_run<X: Threads + Sync>(
    rt: &X,
    alloc: Global,
    text: &[u8],
    meeting: &Meeting,
    wanted: &[Told<'_>],
    bodies: Option<u32>,
) -> Result<(), Fail> {
    let mut disk = SteadyDisk::new(alloc);
    let (report, lost) = run_over(rt, alloc, text, &mut disk, meeting)?;
    same((lost, meeting.missed()), (false, 0))?;
    same_replies(&report, wanted, bodies)
}

const DONE: Reply = Reply::Done;

#[test]
fn eight_threads_are_in_one_epoch_at_once(rt: HostRuntime) -> Result<(), Fail> {
    let text = b"melt 1\nthreads 8\nglobals 0\nthread 0\ndrop 0\ndone\nthread 1\ndrop 0\ndone\n\
        thread 2\ndrop 0\ndone\nthread 3\ndrop 0\ndone\nthread 4\ndrop 0\ndone\nthread 5\ndrop 0\ndone\n\
        thread 6\ndrop 0\ndone\nthread 7\ndrop 0\ndone\n";
    let replies = [DONE];
    let wanted = [(replies.as_slice(), ThreadEnd::Done); 8];
    let meeting = Meeting::of(8, [1; 8]);
    expect_run(&rt, rt.alloc(), text, &meeting, &wanted, None)
}

#[test]
fn a_gate_is_told_of_an_operation_before_it_is_made(rt: HostRuntime) -> Result<(), Fail> {
    let text = b"melt 1\nthreads 2\nglobals 1\n\
        thread 0\nnew 0 0 1\ngstore 0 0\ndrop 0\ndone\n\
        thread 1\ndrop 1\ngload 0 0\ndrop 1\ndone\n";
    let mut disk = SteadyDisk::new(rt.alloc());
    let (report, _lost) = run_over(&rt, rt.alloc(), text, &mut disk, &InTurn::new())?;
    let first = [DONE, DONE, DONE];
    let second = [DONE, Reply::Null, DONE];
    let wanted = [
        (first.as_slice(), ThreadEnd::Done),
        (second.as_slice(), ThreadEnd::Done),
    ];
    same_replies(&report, &wanted, None)
}

/// Two threads, each of which shares an object, lets it leave, and loads it again. Both have dropped their object before
/// the first collection, so that one finds both stale.
const LEAVING: &[u8] = b"melt 1\nthreads 2\nglobals 2\n\
    thread 0\nnew 0 0 1\nput 0 0 7\ngstore 0 0\ndrop 0\n\
    collect\ncollect\ncollect\ngload 0 0\nget 0 0\ndone\n\
    thread 1\nnew 0 0 1\nput 0 0 8\ngstore 1 0\ndrop 0\n\
    collect\ncollect\ncollect\ngload 0 1\nget 0 0\ndone\n";

/// Where they meet.
const BEFORE_COLLECTIONS: [u64; 8] = [5, 5, 0, 0, 0, 0, 0, 0];

/// What a thread of these is told that found this number.
const fn told_of(number: u64) -> [Reply; 9] {
    [
        DONE,
        DONE,
        DONE,
        DONE,
        DONE,
        DONE,
        DONE,
        Reply::Ref,
        Reply::Num(number),
    ]
}

#[test]
fn objects_of_two_threads_move_to_disk_and_come_back(rt: HostRuntime) -> Result<(), Fail> {
    let (first, second) = (told_of(7), told_of(8));
    let wanted = [
        (first.as_slice(), ThreadEnd::Done),
        (second.as_slice(), ThreadEnd::Done),
    ];
    let meeting = Meeting::of(2, BEFORE_COLLECTIONS);
    expect_run(&rt, rt.alloc(), LEAVING, &meeting, &wanted, Some(2))
}

/// Runs them over a disk of which one read fails, and compares what each is told. The fault of its reader is counted.
fn run_failing<X: Threads + Sync>(
    rt: &X,
    alloc: Global,
    disk: &mut MemDisk,
    wanted: &[Told<'_>],
) -> Result<(), Fail> {
    let meeting = Meeting::of(2, BEFORE_COLLECTIONS);
    let (report, lost) = run_over(rt, alloc, LEAVING, disk, &meeting)?;
    same((lost, meeting.missed(), disk.read_faults), (false, 0, 1))?;
    same_replies(&report, wanted, Some(2))
}

/// Runs them over a disk of which this lend has a reader whose first read fails, and compares what each is told.
fn expect_failed<X: Threads + Sync>(
    rt: &X,
    alloc: Global,
    lend: u64,
    wanted: &[Told<'_>],
) -> Result<(), Fail> {
    let mut disk = MemDisk::new(alloc);
    disk.fail_reads.push((lend, 1))?;
    run_failing(rt, alloc, &mut disk, wanted)
}

#[test]
fn readers_are_lent_to_threads_in_their_order(rt: HostRuntime) -> Result<(), Fail> {
    let (first, second) = (told_of(7), told_of(8));
    let failed = ThreadEnd::DiskFault;
    let done = ThreadEnd::Done;
    // Each of the four epochs lends two.
    let wanted = [(&first[..7], failed), (second.as_slice(), done)];
    expect_failed(&rt, rt.alloc(), 7, &wanted)?;
    let wanted = [(first.as_slice(), done), (&second[..7], failed)];
    expect_failed(&rt, rt.alloc(), 8, &wanted)
}
