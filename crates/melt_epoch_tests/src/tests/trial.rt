//! Random programs over random heaps, each judged by itself.
//!
//! A heap gets six objects, random references between them, and some collections, so that references have tags or are
//! homes, and records are Bodies or Stubs. Then threads make random calls of it at once.
ghost use Rattle.std.specs.Prelude.{[], IfOk};
ghost use Rattle.melt_move.specs.Collecting.{IsFormedOn};

use super::calls::{get, gload, gstore, load, new, put, store};
use super::judge::{Deed, GLOBALS, Memory, PLACES, add_deeds, global, slot, stand_in_an_order};
use super::random::Random;
use super::short::{Short, slices};
use crate::log::Log;
use crate::play::{Signals, Step};
use crate::trouble::Trouble;
use crate::world::World;
use melt_io::MemDisk;
use melt_model::{Op, Phase};
use std::alloc::{AllocError, Global};
use std::sync::Wait;
use std::thread::Threads;

/// How many objects a heap has at first.
const FIRST: u8 = 6;

/// How many objects a thread makes at most.
const OWN: u64 = 2;

/// How many words the heap of a trial has: more than are ever needed.
const WORDS: u32 = 1024;

/// The word on disk that no home reaches.
const LIMIT: u32 = 1 << 20;

/// Stands in a program where there is no step.
const BLANK: Step = Step::Raise(0);

/// Stands in a list of deeds where there is none.
const NO_DEED: Deed = Deed {
    is_store: false,
    place: 0,
    value: 0,
    begun: 0,
    ended: 0,
};

/// What a trial came to.
#[derive(Clone, Copy)]
pub struct Outcome {
    /// What the threads were told stands in one order, and no home has two forwarding words.
    pub is_legal: bool,
    /// How many objects came back from the disk.
    pub returned: usize,
    /// How many calls were refused.
    pub refused: usize,
}

/// Makes an object with two slots and two numbers, of which the first is its own.
fn push_object(ops: &mut Short<Op>, object: u8) {
    ops.push(new(object, 2, 2));
    ops.push(put(object, 0, u64::from(object)));
}

/// Stores the object of a number at a place.
fn set(memory: &mut Memory, place: usize, object: u8) {
    if let Some(word) = memory.get_mut(place) {
        *word = u64::from(object);
    }
}

/// Calls that make the first objects with random references between them, and what is where after them.
fn first_calls(random: &mut Random) -> (Short<Op>, Memory) {
    let mut ops = Short::new(Op::Collect);
    let mut memory = [0; PLACES];
    for object in 0..FIRST {
        push_object(&mut ops, object + 1);
    }
    for obj in 1..=FIRST {
        for i in 0..2_u8 {
            let src = random.small(FIRST + 1);
            ops.push(store(obj, i, src));
            set(&mut memory, slot(u64::from(obj), i), src);
        }
    }
    for g in 0..GLOBALS as u8 {
        let src = random.small(FIRST + 1);
        ops.push(gstore(g, src));
        set(&mut memory, global(g), src);
    }
    (ops, memory)
}

/// Calls that use some objects, so that these are not stale: no more than there are forwarding words.
fn some_loads(random: &mut Random, forwards: u16) -> Short<Op> {
    let mut ops = Short::new(Op::Collect);
    for _ in 0..random.below(1 + u64::from(forwards.min(6) / 2)) {
        ops.push(gload(1, random.small(GLOBALS as u8)));
        ops.push(load(2, 1, random.small(2)));
    }
    ops
}

/// Collects some times, and uses some objects in between.
fn age<'d>(
    alloc: Global,
    random: &mut Random,
    world: World<'d, MemDisk>,
    forwards: u16,
) -> Result<World<'d, MemDisk>, Trouble>
    requires { IsFormedOn world.heap [] world.disk.end }
    ensures { IfOk result (λ world. IsFormedOn world.heap [] world.disk.end) }
{
    let mut world = world;
    for _turn in 0..1 + random.below(5) {
        let phase = match random.below(6) {
            0 => Phase::Inactive,
            1 | 2 => Phase::Mark,
            _ => Phase::Move,
        };
        world = world.collect(alloc, phase)?;
        if random.below(3) == 0 {
            let loads = some_loads(random, forwards);
            world = world.prepare(alloc, loads.as_slice())?;
            world = world.collect(alloc, Phase::Inactive)?;
        }
    }
    Ok(world)
}

/// Adds a random call of a thread to its program. `own` counts the objects that it makes.
fn push_call(random: &mut Random, thread: u8, own: &mut u64, program: &mut Short<Step>) {
    let (dst, src, obj) = (
        1 + random.small(3),
        1 + random.small(3),
        1 + random.small(3),
    );
    let (g, i) = (random.small(GLOBALS as u8), random.small(2));
    let op = match random.below(9) {
        0 | 1 => gload(dst, g),
        2 | 3 => load(dst, src, i),
        4 => store(obj, i, src),
        5 => gstore(g, src),
        6 => put(obj, 1, 1 + random.below(1000)),
        7 => get(src, 1),
        _ if *own < OWN => {
            let object = u64::from(FIRST) + 1 + OWN * u64::from(thread) + *own;
            *own += 1;
            program.push(Step::Call(new(dst, 2, 2)));
            put(dst, 0, object)
        }
        _ => gload(dst, g),
    };
    program.push(Step::Call(op));
}

/// A random program of three to six calls, of which the first loads a global.
fn new_program(random: &mut Random, thread: u8) -> Short<Step> {
    let mut program = Short::new(BLANK);
    let mut own = 0;
    program.push(Step::Call(gload(1, random.small(GLOBALS as u8))));
    for _ in 0..2 + random.below(4) {
        push_call(random, thread, &mut own, &mut program);
    }
    program
}

/// Random programs of the first threads.
fn new_programs(random: &mut Random, threads: u8) -> [Short<Step>; 8] {
    let mut programs = [Short::new(BLANK); 8];
    for thread in 0..threads {
        if let Some(program) = programs.get_mut(usize::from(thread)) {
            *program = new_program(random, thread);
        }
    }
    programs
}

/// A program that loads each global, and looks at the object that it finds there.
fn look() -> Short<Step> {
    let mut program = Short::new(BLANK);
    for g in 0..GLOBALS as u8 {
        for op in [gload(1, g), load(2, 1, 0), load(2, 1, 1), get(1, 1)] {
            program.push(Step::Call(op));
        }
    }
    program
}

/// What the threads of a trial were told, and what was there before and after that.
#[derive(Clone, Copy)]
struct Played {
    /// Which object was at each place.
    memory: Memory,
    logs: [Log; 8],
    /// What one thread was told after all others.
    last: Log,
    /// How many objects came back from the disk.
    returned: Option<usize>,
}

/// Whether the logs of threads stand in one order, the last one after all others.
fn judge(alloc: Global, played: &Played) -> Result<bool, AllocError> {
    let mut threads = [Short::new(NO_DEED); 8];
    let mut is_meant = true;
    for (deeds, log) in threads.iter_mut().zip(&played.logs) {
        is_meant &= add_deeds(deeds, log);
    }
    is_meant &= add_deeds(&mut threads[0], &played.last);
    Ok(is_meant && stand_in_an_order(alloc, &slices(&threads), played.memory)?)
}

/// How many calls of a thread were refused.
fn refused_in(log: &Log) -> usize {
    log.iter()
        .filter(|told| told.is_some_and(|told| told.result.is_err()))
        .count()
}

/// How many calls were refused.
fn refused(logs: &[Log; 8]) -> usize {
    let mut count = 0_usize;
    for log in logs {
        count = count.saturating_add(refused_in(log));
    }
    count
}

/// Makes the heap of a trial over a disk without homes. Answers what is where there.
fn new_world<'d>(
    alloc: Global,
    random: &mut Random,
    disk: &'d mut MemDisk,
) -> Result<(World<'d, MemDisk>, Memory), Trouble>
    ensures { IfOk result (λ r. IsFormedOn r.0.heap [] r.0.disk.end) }
{
    let forwards = if random.below(4) == 0 { 2 } else { 16 };
    let world = World::new(alloc, disk, LIMIT, WORDS, GLOBALS as u8, forwards)?;
    let (calls, memory) = first_calls(random);
    let world = world.prepare(alloc, calls.as_slice())?;
    Ok((age(alloc, random, world, forwards)?, memory))
}

/// Lets threads play over a disk without homes.
fn play_over<T: Threads + Wait + Sync>(
    rt: &T,
    alloc: Global,
    seed: u64,
    disk: &mut MemDisk,
) -> Result<Played, Trouble> {
    let mut random = Random::new(seed);
    let (world, memory) = new_world(alloc, &mut random, disk)?;
    let threads = 2 + random.small(7);
    let programs = new_programs(&mut random, threads);
    let mut scene = world.open(alloc)?;
    let signals = Signals::new();
    let logs = scene.play(rt, &signals, &slices(&programs)[..usize::from(threads)]);
    let last = scene.play(rt, &signals, &[look().as_slice()]);
    let world = scene.finish();
    Ok(Played {
        memory,
        logs,
        last: last[0],
        returned: world.returned(),
    })
}

/// Lets them play over a disk in memory, which is done with after that.
fn play_trial<T: Threads + Wait + Sync>(
    rt: &T,
    alloc: Global,
    seed: u64,
) -> Result<Played, Trouble> {
    let mut disk = MemDisk::new(alloc);
    play_over(rt, alloc, seed, &mut disk)
}

/// Makes the trial of a seed.
pub fn run_trial<T: Threads + Wait + Sync>(
    rt: &T,
    alloc: Global,
    seed: u64,
) -> Result<Outcome, Trouble> {
    let played = play_trial(rt, alloc, seed)?;
    Ok(Outcome {
        is_legal: played.returned.is_some() && judge(alloc, &played)?,
        returned: played.returned.unwrap_or(0),
        refused: refused(&played.logs),
    })
}
