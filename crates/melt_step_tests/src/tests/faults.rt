ghost use Rattle.std.specs.Prelude.{◌≤◌};

use super::given::{Collection, Wanted, expect_over, leaving};
use super::moved::{
    JOURNAL_OF_THREE, MOVE_AND_RETURN, MOVE_AND_RETURN_REPLIES, SAME_HOME, SAME_HOME_REPLIES,
    TWO_RETURN, TWO_RETURN_JOURNAL, TWO_RETURN_REPLIES,
};
use melt_io::MemDisk;
use melt_model::Reply::{Done, Num, Ref};
use melt_model::{Halt, Phase, Reply, ThreadEnd};
use melt_same::same;
use std::alloc::Global;
use std::test::Fail;

/// What a disk does wrong, once. All numbers count from 1.
#[derive(Clone, Copy, Debug, PartialEq, Eq)]
enum Flaw {
    Write(u64),
    Lend(u64),
    /// A read of the reader of a lend.
    Read(u64, u64),
    /// What the reader of a lend gives at a place instead of the word there.
    Lie(u64, u32, u64),
}

/// A trace, and what is told over a disk without flaws.
#[derive(Clone, Copy)]
struct Story<'a> {
    text: &'a [u8],
    forward: u32,
    replies: &'a [Reply],
    journal: &'a [Collection],
}

/// What comes of the flaws of a disk.
#[derive(Clone, Copy, Debug, PartialEq, Eq)]
enum Outcome {
    /// A write or a lend fails, and the run is halted.
    Halts,
    /// A read fails, and its thread ends.
    Loses,
    /// A thread ends, since this word of the record at word 1 is none that may stand at its place there.
    Damages(u32, u64),
    /// What is wrong never comes, or is not found out.
    Passes,
}

impl Outcome {
    /// How the thread ends.
    fn end(self) -> ThreadEnd {
        match self {
            Outcome::Halts => ThreadEnd::Halted,
            Outcome::Loses => ThreadEnd::DiskFault,
            Outcome::Damages(at, word) => ThreadEnd::Damaged { home: 1, at, word },
            Outcome::Passes => ThreadEnd::Done,
        }
    }

    /// Why the run is halted.
    fn halt(self) -> Option<Halt> {
        match self {
            Outcome::Halts => Some(Halt::DiskFault),
            _ => None,
        }
    }

    /// How many faults the disk counts, and how many of its reads.
    fn faults(self) -> (u64, u64) {
        match self {
            Outcome::Halts => (1, 0),
            Outcome::Loses => (0, 1),
            Outcome::Damages(..) | Outcome::Passes => (0, 0),
        }
    }
}

/// Flaws of a disk, and what is told over it: so many replies and collections of a story, and another end.
type Case<'a> = (&'a [Flaw], usize, usize, Outcome);

/// Reads 1 and 2 of the reader that is lent last find the record: its first two words, and what is after them.
const RETURN: Story<'static> = Story {
    text: MOVE_AND_RETURN,
    forward: 16,
    replies: &MOVE_AND_RETURN_REPLIES,
    journal: &JOURNAL_OF_THREE,
};

/// Writes 1 and 3 are those of Bodies, and write 2 that of a Stub.
const AGAIN: Story<'static> = Story {
    text: SAME_HOME,
    forward: 16,
    replies: &SAME_HOME_REPLIES,
    journal: &JOURNAL_OF_THREE,
};

/// Writes 1 and 2 are those of Bodies, and write 3 that of a Stub.
const TWO: Story<'static> = Story {
    text: TWO_RETURN,
    forward: 1,
    replies: &TWO_RETURN_REPLIES,
    journal: &TWO_RETURN_JOURNAL,
};

/// An object with a slot leaves and comes back.
const SLOT: Story<'static> = Story {
    text: b"melt 1\nthreads 1\nglobals 1\nthread 0\nnew 0 1 0\ngstore 0 0\ndrop 0\ncollect\ncollect\ncollect\n\
            gload 0 0\ndone\n",
    forward: 16,
    replies: &[Done, Done, Done, Done, Done, Done, Ref],
    journal: &JOURNAL_OF_THREE,
};

/// Gives a disk one flaw more.
fn add_flaw(disk: &mut MemDisk, flaw: Flaw) -> Result<(), Fail> {
    match flaw {
        Flaw::Write(number) => disk.fail_writes.push(number)?,
        Flaw::Lend(number) => disk.fail_lends.push(number)?,
        Flaw::Read(lend, number) => disk.fail_reads.push((lend, number))?,
        Flaw::Lie(lend, place, word) => disk.lies.push((lend, place, word))?,
    }
    Ok(())
}

/// Gives a disk flaws, runs a trace of 16 words over it, and compares what it answers.
fn expect_flawed(
    alloc: Global,
    flaws: &[Flaw],
    text: &[u8],
    forward: u32,
    disk: &mut MemDisk,
    wanted: &Wanted<'_>,
) -> Result<(), Fail>
    requires forward_least { 1 ≤ forward }
    requires forward_most { forward ≤ 65536 }
{
    for &flaw in flaws {
        add_flaw(disk, flaw)?;
    }
    expect_over(alloc, flaws, text, leaving(forward, 1024), disk, wanted)
}

/// Runs a story over a disk with flaws, and compares what is told.
fn expect_told(
    alloc: Global,
    story: &Story<'_>,
    case: &Case<'_>,
    disk: &mut MemDisk,
) -> Result<(), Fail>
    requires forward_least { 1 ≤ story.now.forward }
    requires forward_most { story.now.forward ≤ 65536 }
{
    let (flaws, replies, collections, outcome) = *case;
    let replies = story.replies.get(..replies).ok_or("too few replies")?;
    let journal = story
        .journal
        .get(..collections)
        .ok_or("too few collections")?;
    let wanted = Wanted {
        threads: &[(replies, outcome.end())],
        journal,
        halt: outcome.halt(),
    };
    expect_flawed(alloc, flaws, story.text, story.forward, disk, &wanted)
}

/// The same, where the report names each fault that the disk counted.
fn expect_case(alloc: Global, story: &Story<'_>, case: &Case<'_>) -> Result<(), Fail>
    requires forward_least { 1 ≤ story.now.forward }
    requires forward_most { story.now.forward ≤ 65536 }
{
    let mut disk = MemDisk::new(alloc);
    expect_told(alloc, story, case, &mut disk)?;
    let (flaws, _, _, outcome) = *case;
    let faults = (disk.faults.count(), disk.read_faults);
    same((flaws, faults), (flaws, outcome.faults()))
}

/// The same for several cases of a story.
fn expect_cases(alloc: Global, story: &Story<'_>, cases: &[Case<'_>]) -> Result<(), Fail>
    requires forward_least { 1 ≤ story.now.forward }
    requires forward_most { story.now.forward ≤ 65536 }
{
    for case in cases {
        expect_case(alloc, story, case)?;
    }
    Ok(())
}

const FAULTS: [Case<'static>; 6] = [
    (&[Flaw::Write(1)], 6, 2, Outcome::Halts),
    (&[Flaw::Lend(1)], 0, 0, Outcome::Halts),
    (&[Flaw::Lend(4)], 7, 3, Outcome::Halts),
    (&[Flaw::Read(4, 1)], 7, 3, Outcome::Loses),
    (&[Flaw::Read(4, 2)], 7, 3, Outcome::Loses),
    (&[Flaw::Read(1, 1)], 9, 3, Outcome::Passes),
];

#[test]
fn faults_of_a_disk_are_told(rt: HostRuntime) -> Result<(), Fail> {
    expect_cases(rt.alloc(), &RETURN, &FAULTS)
}

const NO_SLOTS: [Case<'static>; 2] = [
    (&[Flaw::Lie(4, 3, 4)], 6, 3, Outcome::Damages(2, 4)),
    (&[Flaw::Lie(4, 3, 19)], 6, 3, Outcome::Damages(2, 19)),
];

const NO_HEADS: [Case<'static>; 8] = [
    (&[Flaw::Lie(4, 1, 0)], 7, 3, Outcome::Damages(0, 0)),
    (
        &[Flaw::Lie(4, 1, 4_295_032_835)],
        7,
        3,
        Outcome::Damages(0, 4_295_032_835),
    ),
    (
        &[Flaw::Lie(4, 1, 4_295_048_961)],
        7,
        3,
        Outcome::Damages(0, 4_295_048_961),
    ),
    (
        &[Flaw::Lie(4, 1, 4_295_098_369)],
        7,
        3,
        Outcome::Damages(0, 4_295_098_369),
    ),
    (
        &[Flaw::Lie(4, 1, 8_590_000_129)],
        7,
        3,
        Outcome::Damages(0, 8_590_000_129),
    ),
    (&[Flaw::Lie(4, 2, 5)], 7, 3, Outcome::Damages(1, 5)),
    (
        &[Flaw::Lie(4, 1, 4_295_032_834)],
        7,
        3,
        Outcome::Damages(1, 0),
    ),
    (
        &[Flaw::Lie(4, 1, 4_295_032_834), Flaw::Lie(4, 2, 1)],
        7,
        3,
        Outcome::Damages(1, 1),
    ),
];

#[test]
fn words_that_are_no_record_are_told(rt: HostRuntime) -> Result<(), Fail> {
    expect_cases(rt.alloc(), &RETURN, &NO_HEADS)?;
    expect_cases(rt.alloc(), &SLOT, &NO_SLOTS)
}

/// The story of `RETURN`, where the number that comes back is a lie.
const OTHER_NUMBER: Story<'static> = Story {
    text: MOVE_AND_RETURN,
    forward: 16,
    replies: &[Done, Done, Done, Done, Done, Done, Done, Ref, Num(8)],
    journal: &JOURNAL_OF_THREE,
};

const LIE: Case<'static> = (&[Flaw::Lie(4, 3, 8)], 9, 3, Outcome::Passes);

#[test]
fn a_number_that_is_a_lie_is_not_found_out(rt: HostRuntime) -> Result<(), Fail> {
    expect_case(rt.alloc(), &OTHER_NUMBER, &LIE)
}

const FAILING_WRITES: [Case<'static>; 4] = [
    (&[Flaw::Write(1)], 8, 2, Outcome::Halts),
    (&[Flaw::Write(2)], 12, 3, Outcome::Halts),
    (&[Flaw::Write(3)], 13, 4, Outcome::Halts),
    (&[Flaw::Write(4)], 18, 5, Outcome::Passes),
];

const FAILING_STUB: Case<'static> = (&[Flaw::Write(3)], 9, 3, Outcome::Halts);

#[test]
fn each_write_that_fails_halts_the_run(rt: HostRuntime) -> Result<(), Fail> {
    expect_cases(rt.alloc(), &AGAIN, &FAILING_WRITES)?;
    expect_case(rt.alloc(), &TWO, &FAILING_STUB)
}

/// Both objects have left when thread 1 loads the first, of which its read fails. Thread 0 loads that one too.
const TWO_LOAD: &[u8] =
    b"melt 1\nthreads 2\nglobals 2\norder 0 16\norder 1 1\norder 0 1\norder 1 1\norder 0 1\norder 1 1\norder 0 20\n\
      thread 0\nnew 0 0 1\ngstore 0 0\nnew 0 0 1\ngstore 1 0\ndrop 0\ncollect\ncollect\ncollect\ngload 0 0\ndone\n\
      thread 1\ngload 0 1\ndone\n";

const ONE_LOAD_FAILS: Wanted<'static> = Wanted {
    threads: &[
        (
            &[Done, Done, Done, Done, Done, Done, Done, Done, Ref],
            ThreadEnd::Done,
        ),
        (&[], ThreadEnd::DiskFault),
    ],
    journal: &[
        (Phase::Inactive, [0, 6, 0, 0, 1]),
        (Phase::Mark, [0, 6, 0, 0, 1]),
        (Phase::Move, [0, 0, 2, 0, 7]),
    ],
    halt: None,
};

#[test]
fn a_read_fails_for_one_thread_alone(rt: HostRuntime) -> Result<(), Fail> {
    let alloc = rt.alloc();
    let mut disk = MemDisk::new(alloc);
    let flaws = [Flaw::Read(4, 3)];
    expect_flawed(alloc, &flaws, TWO_LOAD, 16, &mut disk, &ONE_LOAD_FAILS)?;
    same(disk.read_faults, 1)
}
