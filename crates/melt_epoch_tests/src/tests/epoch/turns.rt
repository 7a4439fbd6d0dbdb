use super::given::{answered, expect_in, one_mutator, paused, two_mutators};
use crate::tests::calls::{are_same, get, gstore, new, put, store};
use melt_core::Pause;
use melt_model::{Op, Reply};
use std::test::Fail;

#[test]
fn a_mutator_makes_an_object_and_uses_it(rt: HostRuntime) -> Result<(), Fail> {
    let mut mutators = one_mutator();
    let calls = [
        answered(0, new(0, 1, 1), Reply::Done),
        answered(0, get(0, 0), Reply::Num(0)),
        answered(0, put(0, 0, 7), Reply::Done),
        answered(0, get(0, 0), Reply::Num(7)),
        answered(0, get(0, 1), Reply::Range),
        answered(0, put(0, 1, 7), Reply::Range),
        answered(0, store(0, 1, 0), Reply::Range),
        answered(0, store(0, 0, 0), Reply::Done),
        answered(0, get(1, 0), Reply::Nil),
        answered(0, gstore(0, 0), Reply::Done),
        answered(0, Op::Copy { dst: 2, src: 0 }, Reply::Done),
        answered(0, are_same(0, 2), Reply::Yes),
        answered(0, are_same(0, 1), Reply::No),
        answered(0, Op::Drop { r: 0 }, Reply::Done),
        answered(0, are_same(0, 1), Reply::Yes),
        answered(0, get(0, 0), Reply::Nil),
        answered(0, get(2, 0), Reply::Num(7)),
    ];
    expect_in(rt.alloc(), 64, 1, 0, &mut mutators, &calls, (4, &[4]))
}

#[test]
fn two_mutators_make_objects_by_turns(rt: HostRuntime) -> Result<(), Fail> {
    let mut mutators = two_mutators();
    let calls = [
        answered(0, new(0, 1, 2), Reply::Done),
        answered(1, new(0, 2, 0), Reply::Done),
        answered(0, put(0, 1, 8), Reply::Done),
        answered(1, new(1, 0, 1), Reply::Done),
        answered(0, gstore(0, 0), Reply::Done),
        answered(1, gstore(1, 0), Reply::Done),
        answered(1, store(0, 1, 1), Reply::Done),
        answered(1, put(1, 0, 9), Reply::Done),
        answered(0, get(0, 1), Reply::Num(8)),
        answered(1, get(1, 0), Reply::Num(9)),
        answered(1, get(0, 0), Reply::Range),
        answered(0, get(1, 0), Reply::Nil),
    ];
    expect_in(rt.alloc(), 64, 2, 3, &mut mutators, &calls, (12, &[4, 24]))
}

#[test]
fn a_mutator_asks_all_to_stop(rt: HostRuntime) -> Result<(), Fail> {
    let mut mutators = two_mutators();
    let calls = [
        answered(1, new(0, 1, 1), Reply::Done),
        answered(0, Op::Collect, Reply::Done),
        paused(1, get(0, 0), Pause::Asked),
        paused(1, new(0, 0, 1), Pause::Asked),
        paused(1, put(0, 0, 7), Pause::Asked),
        paused(1, store(0, 0, 0), Pause::Asked),
        paused(0, gstore(0, 0), Pause::Asked),
        answered(0, get(0, 0), Reply::Nil),
        answered(1, are_same(0, 1), Reply::No),
    ];
    expect_in(rt.alloc(), 64, 1, 0, &mut mutators, &calls, (4, &[0]))
}

#[test]
fn an_object_that_does_not_fit_stops_all(rt: HostRuntime) -> Result<(), Fail> {
    let mut mutators = two_mutators();
    let calls = [
        answered(0, new(0, 1, 1), Reply::Done),
        answered(1, new(0, 0, 1), Reply::Done),
        paused(0, new(1, 1, 2), Pause::Space { need: 5 }),
        paused(1, new(1, 0, 0), Pause::Asked),
        paused(0, get(0, 0), Pause::Asked),
    ];
    expect_in(rt.alloc(), 8, 1, 0, &mut mutators, &calls, (8, &[0]))
}
