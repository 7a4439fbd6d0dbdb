use super::given::{AGAIN, Flaw, RETURN, STUB, Story, TWO, flawed, run_over};
use crate::status::Status;
use melt_io::MemDisk;
use melt_same::same;
use std::test::Fail;
use std::thread::Threads;

/// More calls of one kind than a story makes of its disk.
const CALLS: u64 = 64;

const HALTED: &[u8] = b"end halted\nhalt disk-fault\n";

const LOST: &[u8] = b"end disk-fault\n";

/// A kind of calls of a disk.
#[derive(Clone, Copy)]
enum Calls {
    Writes,
    Lends,
    /// The reads of the reader of this lend.
    Reads(u64),
}

impl Calls {
    /// The call of this number fails.
    fn nth(self, number: u64) -> Flaw {
        match self {
            Calls::Writes => Flaw::Write(number),
            Calls::Lends => Flaw::Lend(number),
            Calls::Reads(lend) => Flaw::Read(lend, number),
        }
    }

    /// The last lines of a run in which such a call failed.
    fn last_lines(self) -> &'static [u8] {
        match self {
            Calls::Writes | Calls::Lends => HALTED,
            Calls::Reads(_) => LOST,
        }
    }
}

/// How many calls of the disk failed.
fn count_faults(disk: &MemDisk) -> u64 {
    disk.faults.count().saturating_add(disk.read_faults)
}

/// Runs a story over a disk of which one call fails, and answers whether it came to that call. It writes what it writes
/// over a disk without flaws, or, where the call failed, a front of that and the last lines.
fn fails<R: Threads + Sync + AllocGlobal>(
    rt: &R,
    story: &Story<'_>,
    calls: Calls,
    number: u64,
) -> Result<bool, Fail> {
    let flaw = calls.nth(number);
    let mut disk = flawed(rt.alloc(), &[flaw])?;
    fails_over(rt, story, flaw, calls.last_lines(), &mut disk)
}

/// The same over this disk, which has that flaw.
fn fails_over<R: Threads + Sync + AllocGlobal>(
    rt: &R,
    story: &Story<'_>,
    flaw: Flaw,
    last: &[u8],
    disk: &mut MemDisk,
) -> Result<bool, Fail> {
    let (text, status) = run_over(rt, story, disk)?;
    let faults = count_faults(disk);
    expect_fault(story, flaw, last, faults, &text, status)?;
    Ok(faults > 0)
}

/// Compares what a story wrote, and its status, where so many calls of its disk failed.
fn expect_fault(
    story: &Story<'_>,
    flaw: Flaw,
    last: &[u8],
    faults: u64,
    text: &[u8],
    status: Status,
) -> Result<(), Fail> {
    if faults == 0 {
        return same((flaw, text, status), (flaw, story.text, Status::Done));
    }
    let is_front = match text.strip_suffix(last) {
        Some(front) => story.text.starts_with(front),
        None => false,
    };
    same(
        (flaw, faults, is_front, status),
        (flaw, 1, true, Status::DiskFault),
    )
}

/// Lets each call of a kind fail in turn, and answers how many there are.
fn fail_each<R: Threads + Sync + AllocGlobal>(
    rt: &R,
    story: &Story<'_>,
    calls: Calls,
) -> Result<u64, Fail> {
    for number in 1..CALLS {
        if !fails(rt, story, calls, number)? {
            return Ok(number - 1);
        }
    }
    Ok(CALLS)
}

/// Lets each read of each reader fail in turn, and answers how many there are.
fn fail_each_read<R: Threads + Sync + AllocGlobal>(
    rt: &R,
    story: &Story<'_>,
    lends: u64,
) -> Result<u64, Fail> {
    let mut reads = 0u64;
    for lend in 1..=lends {
        let more = fail_each(rt, story, Calls::Reads(lend))?;
        reads = reads.saturating_add(more);
    }
    Ok(reads)
}

/// Runs a story over a disk without flaws. Answers how it ended, and how many writes and lends there were.
fn run_without_flaws<R: Threads + Sync + AllocGlobal>(
    rt: &R,
    story: &Story<'_>,
) -> Result<(Status, u64, u64), Fail> {
    let mut disk = MemDisk::new(rt.alloc());
    let (_text, status) = run_over(rt, story, &mut disk)?;
    Ok((status, disk.writes, disk.lends))
}

/// Lets each call of the disk fail in turn. There are so many writes, lends and reads.
fn expect_each<R: Threads + Sync + AllocGlobal>(
    rt: &R,
    story: &Story<'_>,
    wanted: (u64, u64, u64),
) -> Result<(), Fail> {
    let without = run_without_flaws(rt, story)?;
    let writes = fail_each(rt, story, Calls::Writes)?;
    let lends = fail_each(rt, story, Calls::Lends)?;
    let reads = fail_each_read(rt, story, lends)?;
    same(
        (without, (writes, lends, reads)),
        ((Status::Done, writes, lends), wanted),
    )
}

#[test]
fn each_call_of_a_disk_may_fail(rt: HostRuntime) -> Result<(), Fail> {
    let cases = [
        (RETURN, (1, 4, 2)),
        (STUB, (2, 5, 3)),
        (AGAIN, (3, 6, 4)),
        (TWO, (3, 5, 3)),
    ];
    for (story, wanted) in &cases {
        expect_each(&rt, story, *wanted)?;
    }
    Ok(())
}
