//! Calls of threads at once. Register 0 of each holds an object of its own, whose slot 0 refers to itself.
//! These objects are so large that no two threads write into one line of a cache.
ghost use Rattle.std.specs.Prelude.{◌<◌, ◌≤◌, ◌^◌, [], IfOk};
ghost use Rattle.melt_epoch.specs.Tests.{HasBegun, MayCall};
ghost use Rattle.melt_epoch_tests.specs.Scenes.{GoesOnScene};
ghost use Rattle.melt_move.specs.Collecting.{IsFormedOn};

use anyhow::{Context, Result, ensure};
use melt_core::Refusal;
use melt_epoch::{Epoch, Mutator};
use melt_epoch_tests::{Scene, World};
use melt_io::{MemDisk, RecordReader, StaleDisk};
use melt_model::{Op, Reply};
use std::alloc::Global;
use std::sync::atomic::{AtomicU64, Ordering};
use std::thread;
use std::thread::Threads;

/// What is done again and again.
#[derive(Clone, Copy)]
pub enum Call {
    Load,
    Store,
    Get,
    Put,
    GLoad,
    /// An object of 4 words is made.
    Make4,
    /// An object of 64 words is made.
    Make64,
    /// The slot of the own object is loaded, and stored again.
    Own,
    /// The global is stored, and loaded into another register.
    Shared,
}

fn load<R: RecordReader>(epoch: &Epoch, m: &mut Mutator<R>, count: u32) -> Result<(), Refusal>
    requires may { MayCall R.image epoch.now.words m.old }
    ensures may { MayCall R.image epoch.now.words m.new }
{
    for _ in 0..count {
        epoch.load(m, 0, 0, 0)?;
    }
    Ok(())
}

fn store<R: RecordReader>(epoch: &Epoch, m: &mut Mutator<R>, count: u32) -> Result<(), Refusal>
    requires may { MayCall R.image epoch.now.words m.old }
    ensures may { MayCall R.image epoch.now.words m.new }
{
    for _ in 0..count {
        epoch.store(m, 0, 0, 0)?;
    }
    Ok(())
}

fn get<R: RecordReader>(epoch: &Epoch, m: &mut Mutator<R>, count: u32) -> Result<(), Refusal>
    requires may { MayCall R.image epoch.now.words m.old }
    ensures may { MayCall R.image epoch.now.words m.new }
{
    for _ in 0..count {
        epoch.get(m, 0, 0)?;
    }
    Ok(())
}

fn put<R: RecordReader>(epoch: &Epoch, m: &mut Mutator<R>, count: u32) -> Result<(), Refusal>
    requires may { MayCall R.image epoch.now.words m.old }
    ensures may { MayCall R.image epoch.now.words m.new }
{
    for number in 0..count {
        epoch.put(m, 0, 0, u64::from(number))?;
    }
    Ok(())
}

fn gload<R: RecordReader>(epoch: &Epoch, m: &mut Mutator<R>, count: u32) -> Result<(), Refusal>
    requires global { 0 < epoch.now.words.start.began.globals }
    requires may { MayCall R.image epoch.now.words m.old }
    ensures may { MayCall R.image epoch.now.words m.new }
{
    for _ in 0..count {
        epoch.gload(m, 1, 0)?;
    }
    Ok(())
}

fn make<R: RecordReader>(
    epoch: &Epoch,
    m: &mut Mutator<R>,
    nums: u8,
    count: u32,
) -> Result<(), Refusal>
    requires nums { nums ≤ 62 }
    requires may { MayCall R.image epoch.now.words m.old }
    ensures may { MayCall R.image epoch.now.words m.new }
{
    for _ in 0..count {
        epoch.make(m, 1, 2, nums)?;
    }
    Ok(())
}

fn load_and_store<R: RecordReader>(
    epoch: &Epoch,
    m: &mut Mutator<R>,
    count: u32,
) -> Result<(), Refusal>
    requires may { MayCall R.image epoch.now.words m.old }
    ensures may { MayCall R.image epoch.now.words m.new }
{
    for _ in 0..count {
        epoch.load(m, 0, 0, 0)?;
        epoch.store(m, 0, 0, 0)?;
    }
    Ok(())
}

fn share<R: RecordReader>(epoch: &Epoch, m: &mut Mutator<R>, count: u32) -> Result<(), Refusal>
    requires global { 0 < epoch.now.words.start.began.globals }
    requires may { MayCall R.image epoch.now.words m.old }
    ensures may { MayCall R.image epoch.now.words m.new }
{
    for _ in 0..count {
        epoch.gstore(m, 0, 0)?;
        epoch.gload(m, 1, 0)?;
    }
    Ok(())
}

/// Makes so many calls of one kind.
fn repeat<R: RecordReader>(
    epoch: &Epoch,
    m: &mut Mutator<R>,
    call: Call,
    count: u32,
) -> Result<(), Refusal>
    requires global { 0 < epoch.now.words.start.began.globals }
    requires may { MayCall R.image epoch.now.words m.old }
    ensures may { MayCall R.image epoch.now.words m.new }
{
    match call {
        Call::Load => load(epoch, m, count),
        Call::Store => store(epoch, m, count),
        Call::Get => get(epoch, m, count),
        Call::Put => put(epoch, m, count),
        Call::GLoad => gload(epoch, m, count),
        Call::Make4 => make(epoch, m, 0, count),
        Call::Make64 => make(epoch, m, 60, count),
        Call::Own => load_and_store(epoch, m, count),
        Call::Shared => share(epoch, m, count),
    }
}

/// The first number in the object that register 0 holds, or 0 where there is none.
pub fn number_of<R: RecordReader>(epoch: &Epoch, m: &mut Mutator<R>) -> u64
    requires may { MayCall R.image epoch.now.words m.old }
    ensures may { MayCall R.image epoch.now.words m.new }
{
    match epoch.get(m, 0, 0) {
        Ok(Reply::Num(number)) => number,
        _ => 0,
    }
}

/// Lets the first threads make so many calls each, all at once. Answers the sum of the numbers in their
/// objects, or none where a call was refused.
fn repeat_all<T: Threads + Sync, R: RecordReader + Send>(
    rt: &T,
    epoch: &Epoch,
    mutators: &mut [Mutator<R>],
    threads: usize,
    call: Call,
    count: u32,
) -> Option<u64>
    requires global { 0 < epoch.now.words.start.began.globals }
    requires begun { HasBegun R.image epoch.now.words mutators.old }
    ensures begun { HasBegun R.image epoch.now.words mutators.new }
{
    let refused = AtomicU64::new(0);
    let sum = AtomicU64::new(0);
    let one = |at: usize, m: &mut Mutator<R>|
        requires global { 0 < epoch.now.words.start.began.globals }
        requires may { MayCall R.image epoch.now.words m.now }
        ensures { MayCall R.image epoch.entry.now.words m.exit.now }
    {
        if at < threads {
            if repeat(epoch, m, call, count).is_err() {
                refused.fetch_add(1, Ordering::SeqCst);
            }
            sum.fetch_add(number_of(epoch, m), Ordering::SeqCst);
        }
    };
    thread::for_each_mut(rt, mutators, 8, &one);
    if refused.into_inner() == 0 {
        Some(sum.into_inner())
    } else {
        None
    }
}

/// Lets the first threads of a scene do so. Where it has no global, there is no answer.
pub fn repeat_on<T: Threads + Sync, D: StaleDisk, R: RecordReader + Send>(
    rt: &T,
    scene: &mut Scene<'_, D, R>,
    threads: usize,
    call: Call,
    count: u32,
) -> Option<u64>
    requires { GoesOnScene R.image scene.old.epoch scene.old.mutators scene.old.globals scene.old.disk.end }
    ensures { GoesOnScene R.image scene.new.epoch scene.new.mutators scene.new.globals scene.new.disk.end }
{
    if scene.globals == 0 {
        return None;
    }
    repeat_all(rt, &scene.epoch, &mut scene.mutators, threads, call, count)
}

/// The calls by which a thread makes its object of 64 words. The global holds that of the last one.
const OBJECT: [Op; 3] = [
    Op::New {
        dst: 0,
        refs: 2,
        nums: 60,
    },
    Op::Store {
        obj: 0,
        i: 0,
        src: 0,
    },
    Op::GStore { g: 0, src: 0 },
];

/// Lets each thread make its object. Answers whether all did.
fn make_objects<D: StaleDisk, R: RecordReader>(scene: &mut Scene<'_, D, R>) -> bool
    requires { GoesOnScene R.image scene.old.epoch scene.old.mutators scene.old.globals scene.old.disk.end }
    ensures { GoesOnScene R.image scene.new.epoch scene.new.mutators scene.new.globals scene.new.disk.end }
{
    let mut is_made = true;
    for thread in 0..8 {
        is_made &= scene.call_all(thread, &OBJECT);
    }
    is_made
}

/// Lets the first threads make so many calls each in an epoch on a heap without objects. Answers the sum of the numbers
/// in their objects, and how many words are in use.
fn call_in<T: Threads + Sync>(
    rt: &T,
    alloc: Global,
    world: World<'_, MemDisk>,
    call: Call,
    count: u32,
    threads: usize,
) -> Result<(u64, u32)>
    requires { IsFormedOn world.heap [] world.disk.end }
    ensures { IfOk result (λ told. told.1 < 2 ^ 30) }
{
    let mut scene = world.open(alloc)?;
    let is_made = make_objects(&mut scene);
    let sum = repeat_on(rt, &mut scene, threads, call, count);
    let used = scene.finish().used();
    ensure!(is_made, "an object was not made");
    Ok((sum.context("a call was refused")?, used))
}

/// The same on a new heap of so many words.
pub fn time_calls<T: Threads + Sync>(
    rt: &T,
    alloc: Global,
    words: u32,
    call: Call,
    count: u32,
    threads: usize,
) -> Result<(u64, u32)>
    requires { words < 2 ^ 30 }
    ensures { IfOk result (λ told. told.1 < 2 ^ 30) }
{
    let mut disk = MemDisk::new(alloc);
    let world = World::new(alloc, &mut disk, 1, words, 1, 0)?;
    call_in(rt, alloc, world, call, count, threads)
}
