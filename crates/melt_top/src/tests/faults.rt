use super::given::{AGAIN, Flaw, LEAVING, RETURN, Story, TWO, flawed, run_over};
use crate::status::Status;
use melt_io::MemDisk;
use melt_same::same;
use std::alloc::{AllocError, Global};
use std::test::Fail;
use std::thread::Threads;

/// How a story ends over a disk with flaws: after so many of its replies these lines are written.
#[derive(Clone, Copy)]
struct Ending<'a> {
    flaws: &'a [Flaw],
    replies: u8,
    last: &'a [u8],
    status: Status,
}

/// An object with a slot leaves, and comes back.
const SLOT: Story<'static> = Story {
    words: LEAVING,
    trace: b"melt 1\nthreads 1\nglobals 1\nthread 0\nnew 0 1 0\ngstore 0 0\ndrop 0\ncollect\ncollect\ncollect\n\
        gload 0 0\ndone\n",
    text: b"thread 0\nok\nok\nok\nok\nok\nok\nref\nend done\n",
};

/// Both objects have left when thread 1 loads the first, and so does thread 0.
const TWO_LOAD: Story<'static> = Story {
    words: LEAVING,
    trace: b"melt 1\nthreads 2\nglobals 2\norder 0 16\norder 1 1\norder 0 1\norder 1 1\norder 0 1\norder 1 1\n\
        order 0 20\nthread 0\nnew 0 0 1\ngstore 0 0\nnew 0 0 1\ngstore 1 0\ndrop 0\ncollect\ncollect\ncollect\n\
        gload 0 0\ndone\nthread 1\ngload 0 1\ndone\n",
    text: b"thread 0\nok\nok\nok\nok\nok\nok\nok\nok\nref\nend done\nthread 1\nref\nend done\n",
};

/// A write or a lend fails.
const fn halts(flaws: &[Flaw], replies: u8) -> Ending<'_> {
    Ending {
        flaws,
        replies,
        last: b"end halted\nhalt disk-fault\n",
        status: Status::DiskFault,
    }
}

/// A word of a record is none that may stand there.
const fn damages<'a>(flaws: &'a [Flaw], replies: u8, last: &'a [u8]) -> Ending<'a> {
    Ending {
        flaws,
        replies,
        last,
        status: Status::Damaged,
    }
}

/// A read fails.
const fn loses<'a>(flaws: &'a [Flaw], replies: u8, last: &'a [u8]) -> Ending<'a> {
    Ending {
        flaws,
        replies,
        last,
        status: Status::DiskFault,
    }
}

/// What is wrong never comes, or is not found out.
const fn passes<'a>(flaws: &'a [Flaw], replies: u8, last: &'a [u8]) -> Ending<'a> {
    Ending {
        flaws,
        replies,
        last,
        status: Status::Done,
    }
}

/// What a story writes up to so many replies of its first thread, and then other last lines.
fn cut_text(
    alloc: Global,
    story: &Story<'_>,
    replies: u8,
    last: &[u8],
) -> Result<Vec<u8>, AllocError> {
    let lines = usize::from(replies) + 1;
    let mut text = Vec::new(alloc);
    cut_into(&mut text, story.text, lines, last)?;
    Ok(text)
}

/// Adds so many lines of a text, and then other last lines.
fn cut_into(cut: &mut Vec<u8>, text: &[u8], lines: usize, last: &[u8]) -> Result<(), AllocError> {
    for line in text.split_inclusive(|byte| *byte == b'\n').take(lines) {
        cut.extend_from_slice(line)?;
    }
    cut.extend_from_slice(last)
}

fn expect_endings<R: Threads + Sync + AllocGlobal>(
    rt: &R,
    story: &Story<'_>,
    endings: &[Ending<'_>],
) -> Result<(), Fail> {
    for ending in endings {
        let mut disk = flawed(rt.alloc(), ending.flaws)?;
        expect_ending(rt, story, ending, &mut disk)?;
    }
    Ok(())
}

/// Runs a story over a disk with the flaws of this ending.
fn expect_ending<R: Threads + Sync + AllocGlobal>(
    rt: &R,
    story: &Story<'_>,
    ending: &Ending<'_>,
    disk: &mut MemDisk,
) -> Result<(), Fail> {
    let (text, status) = run_over(rt, story, disk)?;
    expect_text(rt.alloc(), story, ending, &text, status)
}

/// Compares what a story wrote, and its status.
fn expect_text(
    alloc: Global,
    story: &Story<'_>,
    ending: &Ending<'_>,
    text: &[u8],
    status: Status,
) -> Result<(), Fail> {
    let wanted = cut_text(alloc, story, ending.replies, ending.last)?;
    same(
        (ending.flaws, text, status),
        (ending.flaws, wanted.as_slice(), ending.status),
    )
}

#[test]
fn faults_of_a_disk_end_a_run(rt: HostRuntime) -> Result<(), Fail> {
    let endings = [
        halts(&[Flaw::Write(1)], 6),
        halts(&[Flaw::Lend(1)], 0),
        halts(&[Flaw::Lend(4)], 7),
        loses(&[Flaw::Read(4, 1)], 7, b"end disk-fault\n"),
        loses(&[Flaw::Read(4, 2)], 7, b"end disk-fault\n"),
        passes(&[Flaw::Read(1, 1)], 9, b"end done\n"),
    ];
    expect_endings(&rt, &RETURN, &endings)
}

#[test]
fn words_that_are_no_record_end_a_run(rt: HostRuntime) -> Result<(), Fail> {
    let two = [Flaw::Lie(4, 1, 4_295_032_834), Flaw::Lie(4, 2, 1)];
    let endings = [
        damages(
            &[Flaw::Lie(4, 1, 8_590_000_129)],
            7,
            b"end damaged 1 0 8590000129\n",
        ),
        damages(&[Flaw::Lie(4, 1, 0)], 7, b"end damaged 1 0 0\n"),
        damages(
            &[Flaw::Lie(4, 1, 4_295_032_835)],
            7,
            b"end damaged 1 0 4295032835\n",
        ),
        damages(
            &[Flaw::Lie(4, 1, 4_295_048_961)],
            7,
            b"end damaged 1 0 4295048961\n",
        ),
        damages(
            &[Flaw::Lie(4, 1, 4_295_098_369)],
            7,
            b"end damaged 1 0 4295098369\n",
        ),
        damages(&[Flaw::Lie(4, 2, 5)], 7, b"end damaged 1 1 5\n"),
        damages(&[Flaw::Lie(4, 1, 4_295_032_834)], 7, b"end damaged 1 1 0\n"),
        damages(&two, 7, b"end damaged 1 1 1\n"),
        passes(&[Flaw::Lie(4, 3, 8)], 8, b"8\nend done\n"),
    ];
    expect_endings(&rt, &RETURN, &endings)
}

#[test]
fn slots_that_are_no_homes_end_a_run(rt: HostRuntime) -> Result<(), Fail> {
    let endings = [
        damages(&[Flaw::Lie(4, 3, 4)], 6, b"end damaged 1 2 4\n"),
        damages(&[Flaw::Lie(4, 3, 19)], 6, b"end damaged 1 2 19\n"),
    ];
    expect_endings(&rt, &SLOT, &endings)
}

#[test]
fn each_write_of_a_second_leaving_may_fail(rt: HostRuntime) -> Result<(), Fail> {
    let endings = [
        halts(&[Flaw::Write(1)], 8),
        halts(&[Flaw::Write(2)], 12),
        halts(&[Flaw::Write(3)], 13),
        passes(&[Flaw::Write(4)], 18, b"end done\n"),
    ];
    expect_endings(&rt, &AGAIN, &endings)
}

#[test]
fn a_stub_that_is_not_written_ends_a_run(rt: HostRuntime) -> Result<(), Fail> {
    expect_endings(&rt, &TWO, &[halts(&[Flaw::Write(3)], 9)])
}

#[test]
fn what_is_wrong_with_one_record_ends_one_thread_alone(rt: HostRuntime) -> Result<(), Fail> {
    let lost = b"end done\nthread 1\nend disk-fault\n";
    let zeros = b"end done\nthread 1\nend damaged 4 0 0\n";
    let endings = [
        loses(&[Flaw::Read(4, 3)], 9, lost),
        damages(&[Flaw::Lie(4, 4, 0)], 9, zeros),
    ];
    expect_endings(&rt, &TWO_LOAD, &endings)
}
