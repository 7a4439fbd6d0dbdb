use super::given::{Wanted, expect, leaving, run_over, usual};
use melt_io::SteadyDisk;
use melt_model::Reply::{Done, Null, Ref, Yes};
use melt_model::{Act, Entry, Phase, Report, Slot, ThreadEnd, Value};
use melt_same::same;
use std::alloc::{AllocError, Global};
use std::test::Fail;

/// Two threads and three lines of events. After the last line they take turns.
const ORDERED: &[u8] =
    b"melt 1\nthreads 2\nglobals 1\norder 0 6\norder 1 2\norder 0 3\nthread 0\nnew 0 1 0\ngstore 0 0\ndone\n\
      thread 1\ngload 0 0\ngload 1 0\nsame 0 1\ndone\n";

/// The entries of its events. The load between the two events of the store reads what was there before.
const ENTRIES: [Entry; 4] = [
    Entry {
        thread: 0,
        act: Act::Make { refs: 1, nums: 0 },
    },
    Entry {
        thread: 1,
        act: Act::Read {
            slot: Slot::Global(0),
            value: Value::Nil,
        },
    },
    Entry {
        thread: 0,
        act: Act::Write {
            slot: Slot::Global(0),
            value: Value::Ref(0),
        },
    },
    Entry {
        thread: 1,
        act: Act::Read {
            slot: Slot::Global(0),
            value: Value::Ref(0),
        },
    },
];

/// Thread 1 stores between two events of the load of thread 0, which answers what it finds at its end.
const STORE_IN_LOAD: &[u8] =
    b"melt 1\nthreads 2\nglobals 1\norder 0 8\norder 1 1\norder 0 1\norder 1 1\norder 0 3\norder 1 2\n\
      thread 0\nnew 0 0 0\ngstore 0 0\ndrop 0\ncollect\ncollect\ngload 0 0\ndone\nthread 1\ngstore 0 5\ndone\n";

/// Two threads load one object that has left, event by event in turn.
const RACING: &[u8] =
    b"melt 1\nthreads 2\nglobals 3\norder 0 10\nthread 0\nnew 0 0 0\ngstore 0 0\ngstore 1 0\ndrop 0\n\
      collect\ncollect\ngload 0 0\ngstore 2 0\ndone\nthread 1\ncollect\ngload 0 1\ngload 1 2\nsame 0 1\ndone\n";

/// Thread 1 lacks room while the others have calls to make again.
const LACKING: &[u8] =
    b"melt 1\nthreads 3\nglobals 1\norder 0 6\norder 1 3\norder 0 1\norder 2 1\norder 0 2\norder 2 2\n\
      thread 0\nnew 0 0 0\ngstore 0 0\ngload 1 0\ndone\nthread 1\nnew 0 0 13\ndone\nthread 2\ngstore 0 1\ndone\n";

/// The same operations and a load of the global more, with other lines of events.
fn with_lines(alloc: Global, lines: &str) -> Result<String, AllocError> {
    format!(in alloc;
        "melt 1\nthreads 2\nglobals 1\n{lines}thread 0\nnew 0 1 0\ngstore 0 0\ndone\n\
                       thread 1\ngload 0 0\ngload 1 0\nsame 0 1\ngload 2 0\ndone\n"
    )
}

/// Runs such a trace.
fn run_lines(alloc: Global, lines: &str) -> Result<(Report, bool), Fail> {
    let text = with_lines(alloc, lines)?;
    let mut disk = SteadyDisk::new(alloc);
    run_over(alloc, text.as_bytes(), usual(16, 0), &mut disk, true)
}

/// Fails where a thread has not come to its end, or the entries that are stored are not those of these threads.
fn same_entries(lines: &str, report: &Report, threads: &[u8]) -> Result<(), Fail> {
    for thread in &report.threads.items {
        same((lines, thread.end), (lines, ThreadEnd::Done))?;
    }
    let entries = report.log.items.as_slice();
    same((lines, entries.len()), (lines, threads.len()))?;
    for (k, (entry, thread)) in entries.iter().zip(threads).enumerate() {
        same((lines, k, entry.thread), (lines, k, *thread))?;
    }
    Ok(())
}

/// Runs such a trace, and compares of which threads its entries are.
fn expect_threads(alloc: Global, lines: &str, threads: &[u8]) -> Result<(), Fail> {
    let (report, _lost) = run_lines(alloc, lines)?;
    same_entries(lines, &report, threads)
}

/// Lines of events, and of which threads the entries are then. A `new` of three words takes five events, a `gstore` and
/// a `gload` two, and a `same` one. An entry comes with the last event of its operation.
const ORDERS: [(&str, [u8; 5]); 11] = [
    ("order 0 4\norder 1 2\norder 0 3\n", [1, 0, 0, 1, 1]),
    ("order 0 5\norder 1 2\norder 0 2\n", [0, 1, 0, 1, 1]),
    ("order 0 6\norder 1 2\norder 0 3\n", [0, 1, 0, 1, 1]),
    ("order 0 7\norder 1 2\n", [0, 0, 1, 1, 1]),
    ("order 0 6\norder 1 1\norder 0 1\n", [0, 0, 1, 1, 1]),
    ("order 0 6\norder 1 3\norder 0 1\n", [0, 1, 0, 1, 1]),
    ("order 0 6\norder 1 4\norder 0 1\n", [0, 1, 1, 0, 1]),
    ("order 0 6\norder 1 6\norder 0 1\n", [0, 1, 1, 0, 1]),
    ("order 0 6\norder 1 7\norder 0 1\n", [0, 1, 1, 1, 0]),
    // A line is dropped once its thread is at its end.
    ("order 1 9\norder 0 1\n", [1, 1, 1, 0, 0]),
    // The threads take turns.
    ("", [1, 1, 0, 0, 1]),
];

#[test]
fn events_come_in_the_written_order(rt: HostRuntime) -> Result<(), Fail> {
    for (lines, threads) in &ORDERS {
        expect_threads(rt.alloc(), lines, threads)?;
    }
    Ok(())
}

/// Runs the trace of `ORDERED`, and stores its entries or does not.
fn run_ordered(alloc: Global, stored: bool) -> Result<(Report, bool), Fail> {
    let mut disk = SteadyDisk::new(alloc);
    run_over(alloc, ORDERED, usual(16, 0), &mut disk, stored)
}

#[test]
fn entries_come_in_the_order_of_their_events(rt: HostRuntime) -> Result<(), Fail> {
    let (report, _lost) = run_ordered(rt.alloc(), true)?;
    same(report.log.items.as_slice(), ENTRIES.as_slice())
}

/// Fails where another run of `ORDERED` tells its threads something else, or stored entries.
fn expect_no_entries(alloc: Global, stored: &Report) -> Result<(), Fail> {
    let (report, _lost) = run_ordered(alloc, false)?;
    same_replies(&report, stored)
}

fn same_replies(report: &Report, stored: &Report) -> Result<(), Fail> {
    same(report.log.items.len(), 0)?;
    for (thread, told) in report.threads.items.iter().zip(&stored.threads.items) {
        let replies = thread.replies.items.as_slice();
        same(replies, told.replies.items.as_slice())?;
    }
    Ok(())
}

#[test]
fn entries_are_stored_only_where_they_are_asked_for(rt: HostRuntime) -> Result<(), Fail> {
    let alloc = rt.alloc();
    let (stored, _lost) = run_ordered(alloc, true)?;
    expect_no_entries(alloc, &stored)
}

const FOUND_AT_ITS_END: Wanted<'static> = Wanted {
    threads: &[
        (&[Done, Done, Done, Done, Done, Null], ThreadEnd::Done),
        (&[Done], ThreadEnd::Done),
    ],
    journal: &[
        (Phase::Inactive, [0, 2, 0, 0, 1]),
        (Phase::Mark, [0, 2, 0, 0, 1]),
    ],
    halt: None,
};

#[test]
fn a_load_answers_what_it_finds_at_its_end(rt: HostRuntime) -> Result<(), Fail> {
    let config = leaving(16, 1024);
    expect(rt.alloc(), STORE_IN_LOAD, config, &FOUND_AT_ITS_END)
}

const ONE_BACK: Wanted<'static> = Wanted {
    threads: &[
        (
            &[Done, Done, Done, Done, Done, Done, Ref, Done],
            ThreadEnd::Done,
        ),
        (&[Done, Ref, Ref, Yes], ThreadEnd::Done),
    ],
    journal: &[
        (Phase::Inactive, [0, 2, 0, 0, 1]),
        (Phase::Mark, [0, 2, 0, 0, 1]),
        (Phase::Move, [0, 0, 1, 0, 3]),
    ],
    halt: None,
};

#[test]
fn two_threads_get_one_object_back(rt: HostRuntime) -> Result<(), Fail> {
    expect(rt.alloc(), RACING, leaving(16, 1024), &ONE_BACK)
}

const ONE_LACKS_ROOM: Wanted<'static> = Wanted {
    threads: &[
        (&[Done, Done, Ref], ThreadEnd::Done),
        (&[], ThreadEnd::OutOfHeap { held: 2, need: 15 }),
        (&[Done], ThreadEnd::Done),
    ],
    journal: &[(Phase::Inactive, [2, 2, 0, 0, 1])],
    halt: None,
};

#[test]
fn a_thread_that_lacks_room_ends_and_the_others_go_on(rt: HostRuntime) -> Result<(), Fail> {
    expect(rt.alloc(), LACKING, usual(16, 0), &ONE_LACKS_ROOM)
}
