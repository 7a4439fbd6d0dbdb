//! How long it takes to begin and to finish an epoch on a full heap.
ghost use Rattle.std.specs.Prelude.{◌≡◌, ◌<◌, ◌^◌, [], length, IfOk};
ghost use Rattle.melt_move.specs.Collecting.{IsFormedOn};

use crate::epoch::calls::{Call, repeat_on};
use anyhow::{Context, Result};
use melt_epoch_tests::World;
use melt_io::MemDisk;
use std::alloc::Global;
use std::io;
use std::thread::Threads;
use std::time::{Clock, Duration, Instant};

/// How many words each object has.
const COST: u32 = 64;

/// How long an epoch took to begin and to finish.
#[derive(Clone, Copy)]
pub struct Turn {
    pub begin: Duration,
    pub finish: Duration,
}

/// Fills a heap with objects that nothing holds.
fn fill<'d, T: Threads + Sync>(
    rt: &T,
    alloc: Global,
    world: World<'d, MemDisk>,
) -> Result<World<'d, MemDisk>>
    requires { IsFormedOn world.heap [] world.disk.end }
    ensures { IfOk result (λ world. IsFormedOn world.heap [] world.disk.end) }
{
    let count = world.heap.space.words() / COST;
    let mut scene = world.open(alloc)?;
    let sum = repeat_on(rt, &mut scene, 1, Call::Make64, count);
    let world = scene.finish();
    sum.context("the heap was full too early")?;
    Ok(world)
}

/// The turn between these times.
fn turn_of(
    before: io::Result<Instant>,
    between: io::Result<Instant>,
    after: io::Result<Instant>,
) -> io::Result<Turn> {
    let (before, between, after) = (before?, between?, after?);
    Ok(Turn {
        begin: between.duration_since(before),
        finish: after.duration_since(between),
    })
}

/// Begins an epoch and finishes it.
fn begin_and_finish<'d, C: Clock>(
    clock: &C,
    alloc: Global,
    world: World<'d, MemDisk>,
) -> Result<(World<'d, MemDisk>, Turn)>
    requires { IsFormedOn world.heap [] world.disk.end }
    ensures { IfOk result (λ r. IsFormedOn r.0.heap [] r.0.disk.end) }
{
    let mut world = world;
    let readers = world.lend(alloc)?;
    let before = Instant::now(clock);
    let scene = world.begin(alloc, readers)?;
    let between = Instant::now(clock);
    let world = scene.finish();
    let after = Instant::now(clock);
    let turn = turn_of(before, between, after)?;
    Ok((world, turn))
}

/// Begins and finishes an epoch `count` times on a full heap of so many words. Answers how long each took.
pub fn time_turns<T: Threads + Sync + Clock>(
    rt: &T,
    alloc: Global,
    words: u32,
    count: u32,
) -> Result<Vec<Turn>>
    requires { words < 2 ^ 30 }
    ensures { IfOk result (λ turns. length turns.items ≡ count) }
{
    let mut disk = MemDisk::new(alloc);
    let world = World::new(alloc, &mut disk, 1, words, 1, 0)?;
    let mut world = fill(rt, alloc, world)?;
    let mut turns = Vec::new(alloc);
    for _ in 0..count {
        let (later, turn) = begin_and_finish(rt, alloc, world)?;
        world = later;
        turns.push(turn)?;
    }
    Ok(turns)
}
