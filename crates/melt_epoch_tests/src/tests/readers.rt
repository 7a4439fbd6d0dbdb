use super::calls::{get, gload, gstore, load, new, put, store};
use super::given::{Before, Flaw, found, result, run_after, told};
use crate::log::LoggedCall;
use crate::play::Step::{self, Await, Call, Raise};
use melt_core::Refusal;
use melt_model::{Op, Reply};
use melt_record::Damaged;
use melt_same::same;
use std::alloc::Global;
use std::sync::Wait;
use std::test::Fail;
use std::thread::Threads;

/// Whether a call was made while the other was.
fn is_within(call: Option<LoggedCall>, other: Option<LoggedCall>) -> bool {
    match (call, other) {
        (Some(call), Some(other)) => other.begun < call.begun && call.ended < other.ended,
        _ => false,
    }
}

/// Object 1 refers to object 2. Global 0 holds the first, and global 1 the second, which is used, and so stays.
const STUB: Before<'static> = Before {
    forwards: 4,
    objects: 2,
    stored: &[
        Op::Store {
            obj: 1,
            i: 0,
            src: 2,
        },
        Op::GStore { g: 0, src: 1 },
        Op::GStore { g: 1, src: 2 },
    ],
    used: &[Op::GLoad { dst: 0, g: 1 }],
};

#[test]
fn the_object_of_a_stub_is_cleared_while_the_stub_is_read(rt: HostRuntime) -> Result<(), Fail> {
    let programs: [&[Step]; 2] = [
        &[Call(gload(0, 0)), Call(load(1, 0, 0))],
        &[Await(0), Call(gload(1, 1)), Raise(1)],
    ];
    let left = run_after(&rt, rt.alloc(), &STUB, Flaw::Waits(3), &programs, 1)?;
    let [first, second] = [told(&left.seen.logs, 0, 1), told(&left.seen.logs, 1, 0)];
    same([found(first), found(second)], [Some(2), Some(2)])?;
    same(is_within(second, first), true)?;
    same(
        (left.seen.held[0], left.returned),
        (left.seen.held[1], Some(1)),
    )
}

/// Two objects, each of which is held by a global.
const TWO: Before<'static> = Before {
    forwards: 4,
    objects: 2,
    stored: &[Op::GStore { g: 0, src: 1 }, Op::GStore { g: 1, src: 2 }],
    used: &[],
};

/// Each of two threads loads its own global twice.
const LOAD_TWICE: [&[Step]; 2] = [
    &[
        Call(Op::GLoad { dst: 0, g: 0 }),
        Call(Op::GLoad { dst: 0, g: 0 }),
    ],
    &[
        Call(Op::GLoad { dst: 0, g: 1 }),
        Call(Op::GLoad { dst: 1, g: 1 }),
    ],
];

#[test]
fn a_reader_fails_or_lies_for_one_thread_alone(rt: HostRuntime) -> Result<(), Fail> {
    let damaged = |at, word| Refusal::Damaged(Damaged { home: 1, at, word });
    for (flaw, refusal) in [
        (Flaw::Fails(1), Refusal::DiskFault),
        (Flaw::Fails(2), Refusal::DiskFault),
        (Flaw::Lies(1, 0), damaged(0, 0)),
        (Flaw::Lies(2, 4), damaged(2, 4)),
    ] {
        let left = run_after(&rt, rt.alloc(), &TWO, flaw, &LOAD_TWICE, 0)?;
        let numbers = [
            found(told(&left.seen.logs, 0, 1)),
            found(told(&left.seen.logs, 1, 0)),
            found(told(&left.seen.logs, 1, 1)),
        ];
        same(result(&left.seen.logs, 0, 0), Some(Err(refusal)))?;
        same(
            (numbers, left.returned),
            ([Some(1), Some(2), Some(2)], Some(2)),
        )?;
    }
    Ok(())
}

/// Object 1 refers to object 2, which leaves. Globals hold objects 1 and 3, which stay, and global 2 object 2.
const SLOT: Before<'static> = Before {
    forwards: 4,
    objects: 3,
    stored: &[
        Op::Store {
            obj: 1,
            i: 0,
            src: 2,
        },
        Op::GStore { g: 0, src: 1 },
        Op::GStore { g: 1, src: 3 },
        Op::GStore { g: 2, src: 2 },
    ],
    used: &[Op::GLoad { dst: 0, g: 0 }, Op::GLoad { dst: 0, g: 1 }],
};

/// Lets the first thread make a load that reads a record, and the second a store meanwhile. The load finds the object of
/// this number.
fn store_within<T: Threads + Wait + Sync>(
    rt: &T,
    alloc: Global,
    looked: Op,
    stored: Op,
    number: Option<u64>,
) -> Result<(), Fail> {
    let first = [Call(gload(0, 0)), Call(looked), Call(load(4, 3, 0))];
    let second = [
        Call(gload(0, 0)),
        Call(gload(1, 1)),
        Await(0),
        Call(stored),
        Raise(1),
    ];
    let left = run_after(rt, alloc, &SLOT, Flaw::Waits(1), &[&first, &second], 3)?;
    let reply = if number.is_some() {
        Reply::Ref
    } else {
        Reply::Null
    };
    let results = [result(&left.seen.logs, 0, 1), result(&left.seen.logs, 1, 2)];
    same(results, [Some(Ok(reply)), Some(Ok(Reply::Done))])?;
    let [looked, stored] = [told(&left.seen.logs, 0, 1), told(&left.seen.logs, 1, 2)];
    // The copy came into use all the same.
    same(
        (found(looked), is_within(stored, looked), left.returned),
        (number, true, Some(1)),
    )
}

#[test]
fn a_load_finds_what_was_stored_while_it_read_the_record(rt: HostRuntime) -> Result<(), Fail> {
    for (looked, stored, number) in [
        (load(3, 0, 0), store(0, 0, 1), Some(3)),
        (load(3, 0, 0), store(0, 0, 0), Some(1)),
        (load(3, 0, 0), store(0, 0, 5), None),
        (gload(3, 2), gstore(2, 1), Some(3)),
        (gload(3, 2), gstore(2, 5), None),
    ] {
        store_within(&rt, rt.alloc(), looked, stored, number)?;
    }
    Ok(())
}

/// How many calls the other thread makes before the first has found the home, and how many in all.
const BESIDE: [usize; 2] = [2, 9];

#[test]
fn no_call_waits_for_a_load_that_reads_a_record(rt: HostRuntime) -> Result<(), Fail> {
    let programs: [&[Step]; 2] = [
        &[Call(gload(0, 0)), Call(load(3, 0, 0))],
        &[
            Call(gload(0, 0)),
            Call(gload(1, 1)),
            Await(0),
            Call(new(2, 1, 1)),
            Call(put(2, 0, 9)),
            Call(get(2, 0)),
            Call(store(2, 0, 1)),
            Call(load(3, 2, 0)),
            Call(gstore(3, 2)),
            Call(gload(4, 3)),
            Raise(1),
        ],
    ];
    let left = run_after(&rt, rt.alloc(), &SLOT, Flaw::Waits(1), &programs, 3)?;
    let looked = told(&left.seen.logs, 0, 1);
    for at in BESIDE[0]..BESIDE[1] {
        let beside = told(&left.seen.logs, 1, at);
        same((at, is_within(beside, looked)), (at, true))?;
    }
    same((found(looked), left.returned), (Some(2), Some(1)))
}
