use super::words_of;
use crate::status::Status;
use crate::top::melt;
use melt_io::{MemDisk, OpenGate, StaleDisk, SteadySink, SteadySource};
use std::alloc::Global;
use std::test::Fail;
use std::thread::Threads;

/// What a disk in memory does wrong. All numbers count from 1.
#[derive(Clone, Copy, Debug, PartialEq, Eq)]
pub(super) enum Flaw {
    Write(u64),
    Lend(u64),
    /// A read of the reader of a lend.
    Read(u64, u64),
    /// What the reader of a lend gives at a place instead of the word there.
    Lie(u64, u32, u64),
}

/// A trace, the words that run it, and what is written over a disk without flaws.
#[derive(Clone, Copy)]
pub(super) struct Story<'a> {
    pub words: &'a str,
    pub trace: &'a [u8],
    pub text: &'a [u8],
}

/// Adds a flaw to a disk.
fn add_flaw(disk: &mut MemDisk, flaw: Flaw) -> Result<(), Fail> {
    match flaw {
        Flaw::Write(number) => disk.fail_writes.push(number)?,
        Flaw::Lend(number) => disk.fail_lends.push(number)?,
        Flaw::Read(lend, number) => disk.fail_reads.push((lend, number))?,
        Flaw::Lie(lend, place, word) => disk.lies.push((lend, place, word))?,
    }
    Ok(())
}

/// A disk in memory with flaws.
pub(super) fn flawed(alloc: Global, flaws: &[Flaw]) -> Result<MemDisk, Fail> {
    let mut disk = MemDisk::new(alloc);
    add_flaws(&mut disk, flaws)?;
    Ok(disk)
}

fn add_flaws(disk: &mut MemDisk, flaws: &[Flaw]) -> Result<(), Fail> {
    for flaw in flaws {
        add_flaw(disk, *flaw)?;
    }
    Ok(())
}

/// Runs a story over a disk, and answers what it wrote and how it ended.
pub(super) fn run_over<R: Threads + Sync + AllocGlobal, D: StaleDisk>(
    rt: &R,
    story: &Story<'_>,
    disk: &mut D,
) -> Result<(Vec<u8>, Status), Fail> {
    let alloc = rt.alloc();
    let words = words_of(alloc, story.words)?;
    let mut source = SteadySource::new(story.trace.to_vec(alloc)?);
    let mut sink = SteadySink::new(alloc);
    let status = melt(rt, alloc, &words, &mut source, &mut sink, disk, &OpenGate);
    Ok((sink.bytes, status))
}

/// The words of a run over 16 words in which objects leave at the third collection.
pub(super) const LEAVING: &str = "step --heap 16 --mark 0 --move 0";

/// An object leaves at the third collection, and comes back with its number.
pub(super) const RETURN: Story<'static> = Story {
    words: LEAVING,
    trace: b"melt 1\nthreads 1\nglobals 1\nthread 0\nnew 0 0 1\nput 0 0 7\ngstore 0 0\ndrop 0\n\
        collect\ncollect\ncollect\ngload 0 0\nget 0 0\ndone\n",
    text: b"thread 0\nok\nok\nok\nok\nok\nok\nok\nref\n7\nend done\n",
};

/// An object comes back, and its home becomes a Stub.
pub(super) const STUB: Story<'static> = Story {
    words: LEAVING,
    trace: b"melt 1\nthreads 1\nglobals 2\nthread 0\nnew 0 0 1\nput 0 0 9\ngstore 0 0\ngstore 1 0\ndrop 0\n\
        collect\ncollect\ncollect\ngload 0 0\ncollect\ngload 1 1\nsame 0 1\ndone\n",
    text: b"thread 0\nok\nok\nok\nok\nok\nok\nok\nok\nref\nok\nref\nyes\nend done\n",
};

/// An object leaves twice, and comes back by each of its globals.
pub(super) const AGAIN: Story<'static> = Story {
    words: LEAVING,
    trace: b"melt 1\nthreads 1\nglobals 3\nthread 0\nnew 0 0 1\nput 0 0 9\ngstore 0 0\ngstore 1 0\ngstore 2 0\ndrop 0\n\
        collect\ncollect\ncollect\ngload 0 0\nput 0 0 10\ndrop 0\ncollect\ncollect\n\
        gload 0 2\nget 0 0\ngload 1 1\nsame 0 1\ndone\n",
    text: b"thread 0\nok\nok\nok\nok\nok\nok\nok\nok\nok\nref\nok\nok\nok\nok\nref\n10\nref\nyes\nend done\n",
};

/// Two objects come back where there is one forwarding word: a collection comes between.
pub(super) const TWO: Story<'static> = Story {
    words: "step --heap 16 --forward 1 --mark 0 --move 0",
    trace: b"melt 1\nthreads 1\nglobals 2\nthread 0\nnew 0 0 0\ngstore 0 0\nnew 0 0 1\ngstore 1 0\ndrop 0\n\
        collect\ncollect\ncollect\ngload 0 0\ngload 1 1\ndone\n",
    text: b"thread 0\nok\nok\nok\nok\nok\nok\nok\nok\nref\nref\nend done\n",
};
