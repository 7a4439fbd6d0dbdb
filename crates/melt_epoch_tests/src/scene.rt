//! An epoch over a heap that was collected, and the calls of its threads.
ghost use Rattle.std.specs.Prelude.{◌≡◌, []};
ghost use Rattle.melt_epoch.specs.Tests.{HasBegun, MayCall};
ghost use Rattle.melt_move.specs.Collecting.{IsFormedOn};
ghost use Rattle.melt_epoch_tests.specs.Scenes.{GoesOnScene};

use crate::log::Log;
use crate::play::{Signals, Step, play_all};
use crate::world::World;
use melt_core::Refusal;
use melt_disk::StaleSpace;
use melt_epoch::{Epoch, Mutator};
use melt_io::{RecordReader, StaleDisk};
use melt_model::{MAX_PARTS, Op, Reply};
use std::sync::Wait;
use std::thread::Threads;

/// A heap over a disk within an epoch, and the mutators of its eight threads.
pub struct Scene<'d, D: StaleDisk, R: RecordReader> {
    pub epoch: Epoch,
    pub mutators: [Mutator<R>; 8],
    pub globals: u8,
    pub disk: StaleSpace<'d, D>,
}

/// Makes a call of a mutator, or none where a register or a global is not there, or an object would be too large. To
/// collect, it asks all to stop.
pub fn call<R: RecordReader>(
    epoch: &Epoch,
    globals: u8,
    m: &mut Mutator<R>,
    op: Op,
) -> Option<Result<Reply, Refusal>>
    requires globals { globals ≡ epoch.now.words.start.began.globals }
    requires may { MayCall R.image epoch.now.words m.old }
    ensures may { MayCall R.image epoch.now.words m.new }
{
    match op {
        Op::GLoad { dst, g } if dst < 16 && g < globals => Some(epoch.gload(m, dst, g)),
        Op::GStore { g, src } if g < globals && src < 16 => Some(epoch.gstore(m, g, src)),
        Op::Same { a, b } if a < 16 && b < 16 => Some(Ok(m.same(a, b))),
        Op::Copy { dst, src } if dst < 16 && src < 16 => Some(Ok(m.copy_reg(dst, src))),
        Op::Drop { r } if r < 16 => Some(Ok(m.drop_reg(r))),
        Op::Collect => {
            epoch.ask(m);
            Some(Ok(Reply::Done))
        }
        _ => call_object(epoch, m, op),
    }
}

/// Makes a call of one object, or none where a register is not there, or the object would be too large.
fn call_object<R: RecordReader>(
    epoch: &Epoch,
    m: &mut Mutator<R>,
    op: Op,
) -> Option<Result<Reply, Refusal>>
    requires may { MayCall R.image epoch.now.words m.old }
    ensures may { MayCall R.image epoch.now.words m.new }
{
    match op {
        Op::New { dst, refs, nums } if dst < 16 && refs <= MAX_PARTS && nums <= MAX_PARTS => {
            Some(epoch.make(m, dst, refs, nums))
        }
        Op::Load { dst, src, i } if dst < 16 && src < 16 => Some(epoch.load(m, dst, src, i)),
        Op::Store { obj, i, src } if obj < 16 && src < 16 => Some(epoch.store(m, obj, i, src)),
        Op::Get { src, j } if src < 16 => Some(epoch.get(m, src, j)),
        Op::Put { obj, j, v } if obj < 16 => Some(epoch.put(m, obj, j, v)),
        _ => None,
    }
}

/// Makes calls of a thread, where there is one of this number. Answers whether all were answered.
fn call_each<R: RecordReader>(
    epoch: &Epoch,
    globals: u8,
    mutators: &mut [Mutator<R>],
    thread: usize,
    ops: &[Op],
) -> bool
    requires globals { globals ≡ epoch.now.words.start.began.globals }
    requires begun { HasBegun R.image epoch.now.words mutators.old }
    ensures begun { HasBegun R.image epoch.now.words mutators.new }
{
    let mut is_answered = true;
    for op in ops {
        if thread >= mutators.len() {
            return false;
        }
        let result = call(epoch, globals, &mut mutators[thread], *op);
        is_answered &= matches!(result, Some(Ok(_)));
    }
    is_answered
}

/// The address in this register of a mutator, or 0 where there is no such register.
fn held_by<R>(mutator: &Mutator<R>, r: usize) -> u32 {
    match mutator.registers().regs.get(r) {
        Some(address) => *address,
        None => 0,
    }
}

/// The addresses in this register of eight mutators, with 0 for nothing.
fn held_in<R>(mutators: &[Mutator<R>], r: usize) -> [u32; 8] {
    let mut held = [0; 8];
    for (at, mutator) in mutators.iter().enumerate() {
        if at < 8 {
            held[at] = held_by(mutator, r);
        }
    }
    held
}

impl<'d, D: StaleDisk, R: RecordReader> Scene<'d, D, R> {
    /// Makes calls of a thread, where there is one of this number. Answers whether all were answered.
    pub fn call_all(&mut self, thread: usize, ops: &[Op]) -> bool
        requires { GoesOnScene R.image self.old.epoch self.old.mutators self.old.globals self.old.disk.end }
        ensures { GoesOnScene R.image self.new.epoch self.new.mutators self.new.globals self.new.disk.end }
    {
        call_each(&self.epoch, self.globals, &mut self.mutators, thread, ops)
    }

    /// Lets each thread play the program at its place, all at once. Answers what each was told.
    pub fn play<T: Threads + Wait + Sync>(
        &mut self,
        rt: &T,
        signals: &Signals,
        programs: &[&[Step]],
    ) -> [Log; 8]
    where
        R: Send,
        requires { GoesOnScene R.image self.old.epoch self.old.mutators self.old.globals self.old.disk.end }
        ensures { GoesOnScene R.image self.new.epoch self.new.mutators self.new.globals self.new.disk.end }
    {
        play_all(
            rt,
            &self.epoch,
            self.globals,
            &mut self.mutators,
            signals,
            programs,
        )
    }

    /// The address in this register of each thread, with 0 for nothing.
    pub fn held(&self, r: usize) -> [u32; 8] {
        held_in(&self.mutators, r)
    }
}

impl<'d, D: StaleDisk, R: RecordReader + Drop> Scene<'d, D, R> {
    /// Ends the epoch.
    pub fn finish(self) -> World<'d, D>
        requires { GoesOnScene R.image self.epoch self.mutators self.globals self.disk.end }
        ensures { IsFormedOn result.heap [] result.disk.end }
    {
        let Scene {
            epoch,
            mut mutators,
            globals: _,
            disk,
        } = self;
        let (heap, _pass) = epoch.finish(&mut mutators);
        World { heap, disk }
    }
}
