ghost use Rattle.std.specs.Prelude.{[], IfOk};
ghost use Rattle.melt_move.specs.Collecting.{IsFormedOn};

use super::calls::gload;
use super::given::{Before, Ended, Flaw, Seen, result, run, run_after, world_after};
use crate::play::Step::{self, Await, Call, Raise};
use crate::world::World;
use melt_core::{Pause, Refusal};
use melt_io::MemDisk;
use melt_model::{Op, Phase, Reply};
use melt_same::same;
use std::alloc::Global;
use std::sync::Wait;
use std::test::Fail;
use std::thread::Threads;

/// All globals hold the first object.
const IN_ALL: [Op; 8] = [
    Op::GStore { g: 0, src: 1 },
    Op::GStore { g: 1, src: 1 },
    Op::GStore { g: 2, src: 1 },
    Op::GStore { g: 3, src: 1 },
    Op::GStore { g: 4, src: 1 },
    Op::GStore { g: 5, src: 1 },
    Op::GStore { g: 6, src: 1 },
    Op::GStore { g: 7, src: 1 },
];

/// One object, which all globals hold.
const ONE: Before<'static> = Before {
    forwards: 4,
    objects: 1,
    stored: &IN_ALL,
    used: &[],
};

/// Whether the first threads hold one object in the register that was looked at.
fn hold_one(held: &[u32; 8], threads: usize) -> bool {
    held[0] != 0 && held.iter().take(threads).all(|address| *address == held[0])
}

#[test]
fn two_loads_of_one_home_find_one_object(rt: HostRuntime) -> Result<(), Fail> {
    let programs: [&[Step]; 2] = [&[Call(gload(0, 0))], &[Call(gload(0, 1))]];
    let left = run_after(&rt, rt.alloc(), &ONE, Flaw::Nothing, &programs, 0)?;
    let told = [result(&left.seen.logs, 0, 0), result(&left.seen.logs, 1, 0)];
    same((left.used, told), (0, [Some(Ok(Reply::Ref)); 2]))?;
    let held = left.seen.held;
    same(
        (held, hold_one(&held, 2), left.returned),
        (held, true, Some(1)),
    )
}

/// Each thread loads its own global.
const LOAD_BY_EIGHT: [&[Step]; 8] = [
    &[Call(Op::GLoad { dst: 0, g: 0 })],
    &[Call(Op::GLoad { dst: 0, g: 1 })],
    &[Call(Op::GLoad { dst: 0, g: 2 })],
    &[Call(Op::GLoad { dst: 0, g: 3 })],
    &[Call(Op::GLoad { dst: 0, g: 4 })],
    &[Call(Op::GLoad { dst: 0, g: 5 })],
    &[Call(Op::GLoad { dst: 0, g: 6 })],
    &[Call(Op::GLoad { dst: 0, g: 7 })],
];

/// Looks that eight threads found one object, which alone came back, and that no words were in use after it had left
/// again.
fn find_one(seen: &Seen, returned: Option<usize>, used: u32) -> Result<(), Fail> {
    for k in 0..8 {
        same((k, result(&seen.logs, k, 0)), (k, Some(Ok(Reply::Ref))))?;
    }
    same(
        (seen.held, hold_one(&seen.held, 8), returned, used),
        (seen.held, true, Some(1), 0),
    )
}

/// Lets eight threads load one global each, all at once, moves away again what they found, and looks that it was one
/// object.
fn load_by_eight<'d, T: Threads + Wait + Sync>(
    rt: &T,
    alloc: Global,
    world: World<'d, MemDisk>,
) -> Result<World<'d, MemDisk>, Fail>
    requires { IsFormedOn world.heap [] world.disk.end }
    ensures { IfOk result (λ world. IsFormedOn world.heap [] world.disk.end) }
{
    let Ended { seen, world } = run(rt, alloc, world, Flaw::Nothing, &LOAD_BY_EIGHT, 0)?;
    let returned = world.returned();
    let world = world.collect(alloc, Phase::Move)?;
    let world = world.collect(alloc, Phase::Move)?;
    find_one(&seen, returned, world.used())?;
    Ok(world)
}

/// How often eight threads load one home; `bench/rounds` tries more.
const ROUNDS: u32 = 100;

/// Lets eight threads do so again and again.
fn load_again<T: Threads + Wait + Sync>(
    rt: &T,
    alloc: Global,
    disk: &mut MemDisk,
) -> Result<(), Fail> {
    let mut world = world_after(alloc, disk, &ONE)?;
    for _round in 0..ROUNDS {
        world = load_by_eight(rt, alloc, world)?;
    }
    Ok(())
}

#[test]
fn eight_loads_of_one_home_find_one_object(rt: HostRuntime) -> Result<(), Fail> {
    let mut disk = MemDisk::new(rt.alloc());
    load_again(&rt, rt.alloc(), &mut disk)
}

/// Three objects, each held by a global, and two forwarding words.
const THREE: Before<'static> = Before {
    forwards: 2,
    objects: 3,
    stored: &[
        Op::GStore { g: 0, src: 1 },
        Op::GStore { g: 1, src: 2 },
        Op::GStore { g: 2, src: 3 },
    ],
    used: &[],
};

/// Each of three threads loads its own global, waits for the others, and loads it again.
const LOAD_TWICE: [&[Step]; 3] = [
    &[
        Call(Op::GLoad { dst: 0, g: 0 }),
        Raise(0),
        Await(1),
        Await(2),
        Call(Op::GLoad { dst: 0, g: 0 }),
    ],
    &[
        Call(Op::GLoad { dst: 0, g: 1 }),
        Raise(1),
        Await(0),
        Await(2),
        Call(Op::GLoad { dst: 0, g: 1 }),
    ],
    &[
        Call(Op::GLoad { dst: 0, g: 2 }),
        Raise(2),
        Await(0),
        Await(1),
        Call(Op::GLoad { dst: 0, g: 2 }),
    ],
];

#[test]
fn one_home_more_than_there_are_forwarding_words_stops_all(rt: HostRuntime) -> Result<(), Fail> {
    let asked = Some(Err(Refusal::Pause(Pause::Asked)));
    for _ in 0..20 {
        let left = run_after(&rt, rt.alloc(), &THREE, Flaw::Nothing, &LOAD_TWICE, 0)?;
        let (mut found, mut full) = (0_u32, 0_u32);
        for k in 0..3 {
            match result(&left.seen.logs, k, 0) {
                Some(Ok(Reply::Ref)) => found = found.saturating_add(1),
                Some(Err(Refusal::Pause(Pause::Forward))) => full = full.saturating_add(1),
                _ => {}
            }
            same((k, result(&left.seen.logs, k, 1)), (k, asked))?;
        }
        same((found, full, left.returned), (2, 1, Some(2)))?;
    }
    Ok(())
}

#[test]
fn as_many_homes_as_forwarding_words_come_back(rt: HostRuntime) -> Result<(), Fail> {
    let programs: [&[Step]; 2] = [
        &[Call(gload(0, 0)), Call(gload(0, 1))],
        &[Call(gload(0, 1)), Call(gload(0, 0))],
    ];
    let left = run_after(&rt, rt.alloc(), &THREE, Flaw::Nothing, &programs, 0)?;
    for (k, at) in [(0, 0), (0, 1), (1, 0), (1, 1)] {
        let told = result(&left.seen.logs, k, at);
        same((k, at, told), (k, at, Some(Ok(Reply::Ref))))?;
    }
    same(left.returned, Some(2))
}
