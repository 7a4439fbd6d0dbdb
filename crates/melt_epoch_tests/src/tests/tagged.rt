//! A slot whose reference has a tag, which one thread loads while another stores there.
ghost use Rattle.std.specs.Prelude.{[], IfOk};
ghost use Rattle.melt_move.specs.Collecting.{IsFormedOn};

use super::calls::{gload, gstore, load, new, put, store};
use super::given::{Ended, Flaw, Seen, found, result, run, told};
use crate::play::Step::{self, Await, Call, Raise};
use crate::world::World;
use melt_io::MemDisk;
use melt_model::{Op, Phase, Reply};
use melt_same::same;
use std::alloc::Global;
use std::sync::Wait;
use std::test::Fail;
use std::thread::Threads;

/// Three objects with their numbers, each held by the global of its number.
fn objects() -> [Op; 9] {
    [
        new(1, 1, 1),
        put(1, 0, 1),
        gstore(1, 1),
        new(2, 1, 1),
        put(2, 0, 2),
        gstore(2, 2),
        new(3, 1, 1),
        put(3, 0, 3),
        gstore(3, 3),
    ]
}

/// Lets object 1 refer to object 2 again.
fn reset() -> [Op; 3] {
    [gload(1, 1), gload(2, 2), store(1, 0, 2)]
}

/// Loads the slot.
fn loads() -> [Step; 3] {
    [Call(gload(1, 1)), Call(load(4, 1, 0)), Raise(0)]
}

/// Loads the slot when something was stored there.
fn loads_last() -> [Step; 4] {
    [Call(gload(1, 1)), Await(1), Call(load(4, 1, 0)), Raise(0)]
}

/// Stores object 3 in the slot, and loads it too when the other thread is done.
fn stores() -> [Step; 6] {
    [
        Call(gload(1, 1)),
        Call(gload(3, 3)),
        Call(store(1, 0, 3)),
        Raise(1),
        Await(0),
        Call(load(4, 1, 0)),
    ]
}

/// The same when the other thread is done.
fn stores_last() -> [Step; 5] {
    [
        Call(gload(1, 1)),
        Call(gload(3, 3)),
        Await(0),
        Call(store(1, 0, 3)),
        Call(load(4, 1, 0)),
    ]
}

/// How often both come to the slot in each order, and at once; `bench/rounds` tries more.
const ROUNDS: u32 = 100;

/// Looks that the load found one of these objects, and that nothing took back what was stored.
fn find_stored(seen: &Seen, wanted: &[u64]) -> Result<(), Fail> {
    let stored = result(&seen.logs, 1, 2);
    let first = found(told(&seen.logs, 0, 1));
    let last = found(told(&seen.logs, 1, 3));
    let is_wanted = first.is_some_and(|number| wanted.contains(&number));
    same(
        (stored, first, is_wanted, last),
        (Some(Ok(Reply::Done)), first, true, Some(3)),
    )
}

/// Marks all references, so that the slot has a tag, and lets both threads come to it.
fn load_and_store<'d, T: Threads + Wait + Sync>(
    rt: &T,
    alloc: Global,
    world: World<'d, MemDisk>,
    programs: [&[Step]; 2],
    wanted: &[u64],
) -> Result<World<'d, MemDisk>, Fail>
    requires { IsFormedOn world.heap [] world.disk.end }
    ensures { IfOk result (λ world. IsFormedOn world.heap [] world.disk.end) }
{
    let world = world.prepare(alloc, &reset())?;
    let world = world.collect(alloc, Phase::Mark)?;
    let Ended { seen, world } = run(rt, alloc, world, Flaw::Nothing, &programs, 4)?;
    find_stored(&seen, wanted)?;
    Ok(world)
}

/// Lets both come to the slot again and again.
fn race<T: Threads + Wait + Sync>(rt: &T, alloc: Global, disk: &mut MemDisk) -> Result<(), Fail> {
    let (loads, loads_last) = (loads(), loads_last());
    let (stores, stores_last) = (stores(), stores_last());
    let mut world = World::new(alloc, disk, 1024, 512, 4, 4)?.prepare(alloc, &objects())?;
    for _round in 0..ROUNDS {
        world = load_and_store(rt, alloc, world, [&loads, &stores], &[2, 3])?;
        world = load_and_store(rt, alloc, world, [&loads_last, &stores], &[3])?;
        world = load_and_store(rt, alloc, world, [&loads, &stores_last], &[2])?;
    }
    Ok(())
}

#[test]
fn a_tagged_slot_keeps_what_is_stored_while_it_is_loaded(rt: HostRuntime) -> Result<(), Fail> {
    let mut disk = MemDisk::new(rt.alloc());
    race(&rt, rt.alloc(), &mut disk)
}
