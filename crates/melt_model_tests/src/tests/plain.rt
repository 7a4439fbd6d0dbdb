use crate::plain::{does, is_legal, is_transcript, last, made, own};
use melt_model::{Act, Entry, Op, Reply, Slot, Value};
use melt_same::same;
use std::test::Fail;

const NO_SLOTS: Act = Act::Make { refs: 0, nums: 0 };

const FIRST_GLOBAL: Slot = Slot::Global(0);

fn entry(thread: u8, act: Act) -> Entry {
    Entry { thread, act }
}

fn read(slot: Slot, value: Value) -> Entry {
    entry(0, Act::Read { slot, value })
}

fn write(thread: u8, slot: Slot, value: Value) -> Entry {
    entry(thread, Act::Write { slot, value })
}

#[test]
fn one_thread_is_told_what_it_made(rt: HostRuntime) -> Result<(), Fail> {
    let made_one = [entry(0, Act::Make { refs: 1, nums: 0 })];
    let ops = [
        Op::New {
            dst: 0,
            refs: 1,
            nums: 0,
        },
        Op::Same { a: 0, b: 0 },
    ];
    same(is_legal(&made_one, 0), true)?;
    same(made(&made_one), 1)?;
    for (replies, want) in [
        ([Reply::Done, Reply::Yes], true),
        ([Reply::Done, Reply::No], false),
    ] {
        let told = is_transcript(rt.alloc(), &made_one, 0, &ops, &replies)?;
        same((replies, told), (replies, want))?;
    }
    Ok(())
}

#[test]
fn loads_find_no_object_no_slot_and_nil(rt: HostRuntime) -> Result<(), Fail> {
    let history = [
        entry(0, Act::Make { refs: 1, nums: 0 }),
        read(Slot::Field(0, 0), Value::Nil),
    ];
    let ops = [
        Op::New {
            dst: 0,
            refs: 1,
            nums: 0,
        },
        Op::Load {
            dst: 1,
            src: 2,
            i: 0,
        },
        Op::Load {
            dst: 1,
            src: 0,
            i: 1,
        },
        Op::Load {
            dst: 1,
            src: 0,
            i: 0,
        },
        Op::Same { a: 1, b: 2 },
    ];
    let replies = [
        Reply::Done,
        Reply::Nil,
        Reply::Range,
        Reply::Null,
        Reply::Yes,
    ];
    same(is_legal(&history, 0), true)?;
    same(
        is_transcript(rt.alloc(), &history, 0, &ops, &replies)?,
        true,
    )?;
    Ok(())
}

#[test]
fn new_objects_hold_nil_and_zero(rt: HostRuntime) -> Result<(), Fail> {
    let history = [
        entry(0, Act::Make { refs: 1, nums: 1 }),
        read(Slot::Field(0, 0), Value::Nil),
        read(Slot::Cell(0, 0), Value::Num(0)),
    ];
    let ops = [
        Op::New {
            dst: 0,
            refs: 1,
            nums: 1,
        },
        Op::Load {
            dst: 1,
            src: 0,
            i: 0,
        },
        Op::Get { src: 0, j: 0 },
    ];
    let replies = [Reply::Done, Reply::Null, Reply::Num(0)];
    same(is_legal(&history, 0), true)?;
    same(
        is_transcript(rt.alloc(), &history, 0, &ops, &replies)?,
        true,
    )?;
    Ok(())
}

const ROUND_TRIP: [Op; 3] = [
    Op::New {
        dst: 0,
        refs: 0,
        nums: 0,
    },
    Op::GStore { g: 0, src: 0 },
    Op::GLoad { dst: 0, g: 0 },
];

/// Thread 1 stores Nil between the store and the load of thread 0.
fn race() -> [Entry; 4] {
    [
        entry(0, NO_SLOTS),
        write(0, FIRST_GLOBAL, Value::Ref(0)),
        write(1, FIRST_GLOBAL, Value::Nil),
        read(FIRST_GLOBAL, Value::Nil),
    ]
}

#[test]
fn a_race_is_told_by_the_order_of_its_entries(rt: HostRuntime) -> Result<(), Fail> {
    let history = race();
    let stored = [Op::GStore { g: 0, src: 5 }];
    let replies = [Reply::Done, Reply::Done, Reply::Null];
    same(is_legal(&history, 1), true)?;
    same(last(&history, FIRST_GLOBAL), Value::Nil)?;
    same(last(&history[..2], FIRST_GLOBAL), Value::Ref(0))?;
    same(
        own(rt.alloc(), &history, 0)?.as_slice(),
        [0, 1, 3].as_slice(),
    )?;
    same(
        is_transcript(rt.alloc(), &history, 0, &ROUND_TRIP, &replies)?,
        true,
    )?;
    same(
        is_transcript(rt.alloc(), &history, 1, &stored, &[Reply::Done])?,
        true,
    )?;
    let registers = [Value::Ref(0); 16];
    let loaded = does(&history, registers, Op::GLoad { dst: 2, g: 0 }, Value::Nil);
    same(loaded.reply, Reply::Null)?;
    same(loaded.registers[2], Value::Nil)?;
    Ok(())
}

#[test]
fn other_replies_are_no_transcript(rt: HostRuntime) -> Result<(), Fail> {
    let [make, store, other, load] = race();
    let old = [make, store, other, read(FIRST_GLOBAL, Value::Ref(0))];
    let by_other = [make, store, other, entry(1, load.act)];
    let without_store = [make, other, load];
    let done = Reply::Done;
    same(is_legal(&old, 1), false)?;
    for (history, replies) in [
        (race().as_slice(), [done, done].as_slice()),
        (race().as_slice(), [done, done, Reply::Ref].as_slice()),
        (by_other.as_slice(), [done, done, Reply::Null].as_slice()),
        (
            without_store.as_slice(),
            [done, done, Reply::Null].as_slice(),
        ),
    ] {
        let told = is_transcript(rt.alloc(), history, 0, &ROUND_TRIP, replies)?;
        same((replies, told), (replies, false))?;
    }
    Ok(())
}

#[test]
fn entries_that_no_heap_gives_are_not_legal(rt: HostRuntime) -> Result<(), Fail> {
    let made_one = entry(0, Act::Make { refs: 1, nums: 1 });
    for wrong in [
        entry(0, Act::Make { refs: 63, nums: 0 }),
        read(Slot::Field(0, 1), Value::Nil),
        read(Slot::Field(1, 0), Value::Nil),
        read(Slot::Cell(0, 0), Value::Nil),
        read(Slot::Global(1), Value::Nil),
        write(0, FIRST_GLOBAL, Value::Ref(1)),
        write(0, Slot::Field(0, 0), Value::Num(7)),
        write(0, Slot::Cell(0, 0), Value::Ref(0)),
    ] {
        same((wrong, is_legal(&[made_one, wrong], 1)), (wrong, false))?;
    }
    Ok(())
}
