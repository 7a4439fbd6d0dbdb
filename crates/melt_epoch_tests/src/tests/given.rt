ghost use Rattle.std.specs.Prelude.{◌≡◌, [], IfOk, None};
ghost use Rattle.melt_epoch_tests.specs.Scenes.{GoesOnScene};
ghost use Rattle.melt_move.specs.Collecting.{IsFormedOn};

use super::calls::{new, put};
use super::short::Short;
use crate::log::{Log, LoggedCall};
use crate::play::{Signals, Step};
use crate::scene::Scene;
use crate::trouble::Trouble;
use crate::world::World;
use melt_core::Refusal;
use melt_io::{Failed, MemDisk, MemReader, RecordReader};
use melt_model::{Op, Phase, Reply};
use std::alloc::Global;
use std::sync::Wait;
use std::thread::Threads;

/// What a reader does beside reading, at one of its reads, which count from 1.
#[derive(Clone, Copy)]
pub(super) enum Flaw {
    Nothing,
    /// It fails.
    Fails(u64),
    /// It gives this word in the place of the first.
    Lies(u64, u64),
    /// It raises flag 0, and waits for flag 1.
    Waits(u64),
}

/// A reader with a flaw.
#[derive(Drop)]
pub(super) struct Flawed<'s, R> {
    inner: R,
    /// By which it waits, where that is its flaw.
    signals: &'s Signals,
    flaw: Flaw,
    reads: u64,
    faults: u64,
}

impl<'s, R: RecordReader> RecordReader for Flawed<'s, R> {
    ghost use Rattle.std.specs.Prelude.{None};

    ghost image = { λ _. None };

    ghost faults = { λ reader. reader.faults };

    ghost reads = { λ _. 0 };

    fn read_at(&mut self, at: u32, words: &mut [u64]) -> Result<(), Failed> {
        let is_read = self.inner.read_at(at, words).is_ok() && self.is_sound(words);
        self.faults = self.faults.saturating_add(u64::from(!is_read));
        if is_read { Ok(()) } else { Err(Failed) }
    }
}

impl<'s, R> Flawed<'s, R> {
    /// Counts a read, and does what its flaw asks for there. Answers whether the read does not fail by it.
    fn is_sound(&mut self, words: &mut [u64]) -> bool
        ensures faults { self.new.faults ≡ self.old.faults }
    {
        self.reads = self.reads.saturating_add(1);
        match self.flaw {
            Flaw::Lies(read, word) if read == self.reads => {
                if let Some(first) = words.first_mut() {
                    *first = word;
                }
            }
            Flaw::Waits(read) if read == self.reads => {
                self.signals.raise(0);
                self.signals.await_flag(1);
            }
            Flaw::Fails(read) if read == self.reads => return false,
            _ => {}
        }
        true
    }
}

/// What is done with a heap before threads come: some objects are made, stored in slots and globals, and marked; then
/// some are used, and those that were not are moved.
pub(super) struct Before<'a> {
    pub(super) forwards: u16,
    pub(super) objects: u8,
    pub(super) stored: &'a [Op],
    pub(super) used: &'a [Op],
}

/// The calls that make the objects, each with one slot and its number, in the register of that number, and store them.
fn first_calls(before: &Before<'_>) -> Short<Op> {
    let mut calls = Short::new(Op::Collect);
    for number in 0..before.objects {
        let object = number + 1;
        calls.push(new(object, 1, 1));
        calls.push(put(object, 0, u64::from(object)));
    }
    calls.extend(before.stored);
    calls
}

/// The heap after that, with 8 globals.
pub(super) fn world_after<'d>(
    alloc: Global,
    disk: &'d mut MemDisk,
    before: &Before<'_>,
) -> Result<World<'d, MemDisk>, Trouble>
    ensures { IfOk result (λ world. IsFormedOn world.heap [] world.disk.end) }
{
    let made = first_calls(before);
    let world = World::new(alloc, disk, 1024, 512, 8, before.forwards)?;
    let world = world.prepare(alloc, made.as_slice())?;
    let world = world.collect(alloc, Phase::Mark)?;
    let world = world.prepare(alloc, before.used)?;
    world.collect(alloc, Phase::Move)
}

/// What threads were told, and what register `r` of each holds.
#[derive(Clone, Copy)]
pub(super) struct Seen {
    pub(super) logs: [Log; 8],
    pub(super) held: [u32; 8],
}

/// The same, and the heap after them.
#[derive(Drop)]
pub(super) struct Ended<'d> {
    pub(super) seen: Seen,
    pub(super) world: World<'d, MemDisk>,
}

/// The same, where the heap is done with.
#[derive(Clone, Copy)]
pub(super) struct Left {
    /// How many words were in use before the threads came.
    pub(super) used: u32,
    pub(super) seen: Seen,
    /// How many objects came back from the disk.
    pub(super) returned: Option<usize>,
}

/// A reader before its first read, with a flaw.
fn new_reader<'s, R>(inner: R, signals: &'s Signals, flaw: Flaw) -> Flawed<'s, R> {
    Flawed {
        inner,
        signals,
        flaw,
        reads: 0,
        faults: 0,
    }
}

/// The readers of eight threads, of which the first has this flaw.
fn first_flawed<'s, R>(readers: [R; 8], signals: &'s Signals, flaw: Flaw) -> [Flawed<'s, R>; 8] {
    let [r0, r1, r2, r3, r4, r5, r6, r7] = readers;
    [
        new_reader(r0, signals, flaw),
        new_reader(r1, signals, Flaw::Nothing),
        new_reader(r2, signals, Flaw::Nothing),
        new_reader(r3, signals, Flaw::Nothing),
        new_reader(r4, signals, Flaw::Nothing),
        new_reader(r5, signals, Flaw::Nothing),
        new_reader(r6, signals, Flaw::Nothing),
        new_reader(r7, signals, Flaw::Nothing),
    ]
}

/// Begins an epoch of threads of which the first has a reader with this flaw.
fn begin_flawed<'d, 's>(
    alloc: Global,
    world: World<'d, MemDisk>,
    signals: &'s Signals,
    flaw: Flaw,
) -> Result<Scene<'d, MemDisk, Flawed<'s, MemReader>>, Trouble>
    requires { IsFormedOn world.heap [] world.disk.end }
    ensures { IfOk result
        (λ scene. GoesOnScene (λ _. None) scene.epoch scene.mutators scene.globals scene.disk.end) }
{
    let mut world = world;
    let readers = world.lend(alloc)?;
    world.begin(alloc, first_flawed(readers, signals, flaw))
}

/// Runs threads, of which the first has a reader with this flaw. At the end it looks at a register of each.
pub(super) fn run<'d, T: Threads + Wait + Sync>(
    rt: &T,
    alloc: Global,
    world: World<'d, MemDisk>,
    flaw: Flaw,
    programs: &[&[Step]],
    r: usize,
) -> Result<Ended<'d>, Trouble>
    requires { IsFormedOn world.heap [] world.disk.end }
    ensures { IfOk result (λ ended. IsFormedOn ended.world.heap [] ended.world.disk.end) }
{
    let signals = Signals::new();
    let mut scene = begin_flawed(alloc, world, &signals, flaw)?;
    let logs = scene.play(rt, &signals, programs);
    let held = scene.held(r);
    let seen = Seen { logs, held };
    let world = scene.finish();
    Ok(Ended { seen, world })
}

/// Runs them over what was done before, on a disk without homes.
fn run_over<T: Threads + Wait + Sync>(
    rt: &T,
    alloc: Global,
    disk: &mut MemDisk,
    before: &Before<'_>,
    flaw: Flaw,
    programs: &[&[Step]],
    r: usize,
) -> Result<Left, Trouble> {
    let world = world_after(alloc, disk, before)?;
    let used = world.used();
    let Ended { seen, world } = run(rt, alloc, world, flaw, programs, r)?;
    Ok(Left {
        used,
        seen,
        returned: world.returned(),
    })
}

/// Runs them over what was done before.
pub(super) fn run_after<T: Threads + Wait + Sync>(
    rt: &T,
    alloc: Global,
    before: &Before<'_>,
    flaw: Flaw,
    programs: &[&[Step]],
    r: usize,
) -> Result<Left, Trouble> {
    let mut disk = MemDisk::new(alloc);
    run_over(rt, alloc, &mut disk, before, flaw, programs, r)
}

/// What a thread was told of its call `at`.
pub(super) fn told(logs: &[Log], thread: usize, at: usize) -> Option<LoggedCall> {
    *logs.get(thread)?.get(at)?
}

/// The number in the object that a load found.
pub(super) fn found(load: Option<LoggedCall>) -> Option<u64> {
    load?.found
}

/// What call `at` of a thread came to.
pub(super) fn result(logs: &[Log], thread: usize, at: usize) -> Option<Result<Reply, Refusal>> {
    Some(told(logs, thread, at)?.result)
}
