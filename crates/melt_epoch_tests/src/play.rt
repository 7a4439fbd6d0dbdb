//! How threads make the calls of their programs, at once.
ghost use Rattle.std.specs.Prelude.{◌≡◌};
ghost use Rattle.melt_epoch.specs.Tests.{HasBegun, MayCall};

use crate::log::{Log, LoggedCall, MOST, NOTHING};
use crate::scene::call;
use melt_epoch::{Epoch, Mutator};
use melt_io::RecordReader;
use melt_model::{Op, Reply};
use std::sync::atomic::{AtomicU64, Ordering};
use std::sync::{Mutex, Wait};
use std::thread;
use std::thread::Threads;

/// How often a thread looks for another before it goes on without it.
const TURNS: u32 = 10_000_000;

/// One step of the program of a thread.
#[derive(Clone, Copy)]
pub enum Step {
    Call(Op),
    /// Raises a flag.
    Raise(usize),
    /// Waits for a flag.
    Await(usize),
}

/// What threads tell each other: the time, how many of them are here, and which flags are raised.
#[derive(Drop)]
pub struct Signals {
    clock: AtomicU64,
    here: AtomicU64,
    flags: [AtomicU64; 4],
}

impl Signals {
    /// The time is 0, nobody is here, and no flag is raised.
    pub fn new() -> Signals {
        Signals {
            clock: AtomicU64::new(0),
            here: AtomicU64::new(0),
            flags: [
                AtomicU64::new(0),
                AtomicU64::new(0),
                AtomicU64::new(0),
                AtomicU64::new(0),
            ],
        }
    }

    /// The time, which no other thread is told.
    pub fn now(&self) -> u64 {
        self.clock.fetch_add(1, Ordering::SeqCst)
    }

    /// Raises a flag.
    pub fn raise(&self, flag: usize) {
        if let Some(flag) = self.flags.get(flag) {
            flag.store(1, Ordering::SeqCst);
        }
    }

    /// Waits until a flag is raised, or for some time.
    pub fn await_flag(&self, flag: usize) {
        if let Some(flag) = self.flags.get(flag) {
            await_count(flag, 1);
        }
    }

    /// Waits until so many threads have come here, or for some time.
    pub fn meet(&self, threads: u64) {
        self.here.fetch_add(1, Ordering::SeqCst);
        await_count(&self.here, threads);
    }
}

/// Waits until there are so many, or for some time.
fn await_count(count: &AtomicU64, wanted: u64) {
    for _ in 0..TURNS {
        if wanted <= count.load(Ordering::SeqCst) {
            return;
        }
        thread::yield_now();
    }
}

/// The first number in the object that a register holds.
pub(crate) fn number_at<R: RecordReader>(
    epoch: &Epoch,
    globals: u8,
    m: &mut Mutator<R>,
    r: u8,
) -> Option<u64>
    requires globals { globals ≡ epoch.now.words.start.began.globals }
    requires may { MayCall R.image epoch.now.words m.old }
    ensures may { MayCall R.image epoch.now.words m.new }
{
    match call(epoch, globals, m, Op::Get { src: r, j: 0 }) {
        Some(Ok(Reply::Num(number))) => Some(number),
        _ => None,
    }
}

/// Makes a call, and tells what it came to. Where a load found an object, its first number is looked up after it.
fn tell<R: RecordReader>(
    epoch: &Epoch,
    globals: u8,
    m: &mut Mutator<R>,
    signals: &Signals,
    op: Op,
) -> Option<LoggedCall>
    requires globals { globals ≡ epoch.now.words.start.began.globals }
    requires may { MayCall R.image epoch.now.words m.old }
    ensures may { MayCall R.image epoch.now.words m.new }
{
    let begun = signals.now();
    let result = call(epoch, globals, m, op)?;
    let ended = signals.now();
    let found = match (op, result) {
        (Op::Load { dst, .. } | Op::GLoad { dst, .. }, Ok(Reply::Ref)) => {
            number_at(epoch, globals, m, dst)
        }
        _ => None,
    };
    Some(LoggedCall {
        op,
        result,
        found,
        begun,
        ended,
    })
}

/// Makes the steps of a program, and tells what its calls came to.
fn play<R: RecordReader>(
    epoch: &Epoch,
    globals: u8,
    m: &mut Mutator<R>,
    signals: &Signals,
    program: &[Step],
) -> Log
    requires globals { globals ≡ epoch.now.words.start.began.globals }
    requires may { MayCall R.image epoch.now.words m.old }
    ensures may { MayCall R.image epoch.now.words m.new }
{
    let mut log = NOTHING;
    let mut calls = 0;
    for step in program {
        match *step {
            Step::Raise(flag) => signals.raise(flag),
            Step::Await(flag) => signals.await_flag(flag),
            Step::Call(op) => {
                let told = tell(epoch, globals, m, signals, op);
                if calls < MOST {
                    log[calls] = told;
                    calls += 1;
                }
            }
        }
    }
    log
}

/// Lets each thread play the program at its place, all at once. Answers what each was told.
pub(crate) fn play_all<T: Threads + Wait + Sync, R: RecordReader + Send>(
    rt: &T,
    epoch: &Epoch,
    globals: u8,
    mutators: &mut [Mutator<R>],
    signals: &Signals,
    programs: &[&[Step]],
) -> [Log; 8]
    requires globals { globals ≡ epoch.now.words.start.began.globals }
    requires begun { HasBegun R.image epoch.now.words mutators.old }
    ensures begun { HasBegun R.image epoch.now.words mutators.new }
{
    let logs = Mutex::new([NOTHING; 8]);
    let threads = programs.len().min(8) as u64;
    let one = |at: usize, m: &mut Mutator<R>|
        requires globals { globals ≡ epoch.now.words.start.began.globals }
        requires may { MayCall R.image epoch.now.words m.now }
        ensures { MayCall R.image epoch.entry.now.words m.exit.now }
    {
        if let Some(program) = programs.get(at) {
            signals.meet(threads);
            let log = play(epoch, globals, m, signals, program);
            let mut all = logs.lock(rt);
            if at < 8 {
                all[at] = log;
            }
        }
    };
    thread::for_each_mut(rt, mutators, 8, &one);
    logs.into_inner()
}
