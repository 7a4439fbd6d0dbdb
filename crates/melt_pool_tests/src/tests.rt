ghost use Rattle.std.specs.Prelude.{◌≡◌, ◌<◌, false, length, map, IfSome, Some, [], ◌∷◌};
ghost use Rattle.melt_scion.specs.Heaps.{IsNewHeap};
ghost use Rattle.melt_epoch.specs.Tests.{AllMayStart, MayStart};
ghost use Rattle.melt_trace.specs.Script.{Script};
ghost use Rattle.melt_pool.specs.Firsts.{LacksAt, ThreadLacksRoom};
ghost use Rattle.melt_pool_tests.specs.Tests.{AllNew, IsNew};

use melt_epoch::Mutator;
use melt_io::{Failed, Gate, RecordReader};
use melt_model::{Ghost, Op, Reply, ThreadEnd};
use melt_pool::{Paused, Worker, resume};
use melt_rule::Pass;
use melt_safepoint::{Mode, ThreadState};
use melt_same::same;
use melt_scion::Heap;
use melt_trace::{Trace, parse};
use std::alloc::Global;
use std::process::Abort;
use std::sync::atomic::{AtomicU64, Ordering};
use std::test::Fail;
use std::thread;
use std::thread::Threads;

mod meeting;
mod run;

use meeting::{Meeting, TURNS};

/// The reader of a disk that has no words, whose reads fail.
#[derive(Drop)]
struct NoDisk {
    faults: u64,
}

impl RecordReader for NoDisk {
    ghost use Rattle.std.specs.Prelude.{Some, []};

    ghost image = { λ _. Some [] };

    ghost faults = { λ reader. reader.faults };

    ghost reads = { λ _. 0 };

    fn read_at(&mut self, _at: u32, _words: &mut [u64]) -> Result<(), Failed> {
        self.faults = self.faults.saturating_add(1);
        Err(Failed)
    }
}

/// A gate that counts what it is told of two threads, and what it is told out of turn, and lets them meet. The second
/// thread asks all to stop by its fourth operation, and does not begin that before the first begins its fifth, which no
/// stop refuses.
#[derive(Drop)]
struct Counts {
    told: [AtomicU64; 2],
    out_of_turn: AtomicU64,
    meeting: Meeting,
}

impl Counts {
    /// A gate that was told of so many operations of the first thread.
    fn new(first: u64, meeting: Meeting) -> Counts {
        Counts {
            told: [AtomicU64::new(first), AtomicU64::new(0)],
            out_of_turn: AtomicU64::new(0),
            meeting,
        }
    }

    fn wait_for_first(&self) {
        for _ in 0..TURNS {
            if 5 <= self.told[0].load(Ordering::SeqCst) {
                return;
            }
            thread::yield_now();
        }
    }
}

impl Gate for Counts {
    fn before(&self, thread: u32, op: u64) {
        let Some(told) = self.told.get(thread as usize) else {
            return;
        };
        let before = told.fetch_add(1, Ordering::SeqCst);
        if before.wrapping_add(1) != op {
            self.out_of_turn.fetch_add(1, Ordering::SeqCst);
        }
        if thread == 1 && op == 4 {
            self.wait_for_first();
        }
        self.meeting.before(thread, op);
    }
}

/// The mutator of a thread of a trace, with a reader of no disk.
fn new_mutator<'a, R: Abort>(
    rt: &R,
    alloc: Global,
    trace: &'a Trace,
    thread: u32,
) -> Mutator<Worker<'a, NoDisk>>
    requires few { thread < 8 }
    requires there { thread < length trace.now.programs }
    ensures thread { result.thread ≡ thread }
    ensures may_start { MayStart (λ _. Some []) result }
    ensures new { IsNew trace.now result }
{
    let Ok(state) = ThreadState::new(alloc, trace, thread) else {
        panic!(rt; "no memory");
    };
    let mut mutator = Mutator::new(thread);
    mutator.set_reader(Worker {
        reader: NoDisk { faults: 0 },
        state: Some(state),
    });
    mutator
}

/// Lets the first call of a new thread, a `new`, have been refused for want of room.
fn refuse<R: Abort>(rt: &R, mutator: &mut Mutator<Worker<'_, NoDisk>>)
    ensures thread { mutator.new.thread ≡ mutator.old.thread }
    ensures may_start { MayStart (λ _. Some []) mutator.old → MayStart (λ _. Some []) mutator.new }
    ensures new { (script : Script) → IsNew script mutator.old → IsNew script mutator.new }
    ensures lacks { ThreadLacksRoom mutator.new }
{
    let Some(mut worker) = mutator.take_reader() else {
        panic!(rt; "no worker");
    };
    let Some(mut state) = worker.state.take() else {
        panic!(rt; "no thread");
    };
    match (state.mode, state.op) {
        (Mode::Running, Some(Op::New { .. })) => state.mode = Mode::Lacking,
        _ => panic!(rt; "no new"),
    }
    worker.state = Some(state);
    mutator.set_reader(worker);
}

fn two_mutators<'a, R: Abort>(
    rt: &R,
    alloc: Global,
    trace: &'a Trace,
) -> [Mutator<Worker<'a, NoDisk>>; 2]
    requires { length trace.now.programs ≡ 2 }
    ensures threads { map (λ m. m.thread) result ≡ 0 ∷ 1 ∷ [] }
    ensures may_start { AllMayStart (λ _. Some []) result }
    ensures new { AllNew trace.now result }
{
    [
        new_mutator(rt, alloc, trace, 0),
        new_mutator(rt, alloc, trace, 1),
    ]
}

/// The same, where the first call of the first thread was refused for want of room.
fn first_refused<'a, R: Abort>(
    rt: &R,
    alloc: Global,
    trace: &'a Trace,
) -> [Mutator<Worker<'a, NoDisk>>; 2]
    requires { length trace.now.programs ≡ 2 }
    ensures threads { map (λ m. m.thread) result ≡ 0 ∷ 1 ∷ [] }
    ensures may_start { AllMayStart (λ _. Some []) result }
    ensures new { AllNew trace.now result }
    ensures lacks { LacksAt result 0 }
{
    let mut first = new_mutator(rt, alloc, trace, 0);
    refuse(rt, &mut first);
    [first, new_mutator(rt, alloc, trace, 1)]
}

/// Lets the threads go through an epoch on a new heap with one global, and answers the words in use after it, and how
/// many the first call lacked.
fn run_on<R: Abort + Threads + Sync, G: Gate + Sync>(
    rt: &R,
    alloc: Global,
    heap: Heap,
    mutators: &mut [Mutator<Worker<'_, NoDisk>>],
    every: u32,
    first: Option<u32>,
    gate: &G,
) -> (u32, Option<u32>)
    requires heap { IsNewHeap 64 1 1 false heap }
    requires threads { map (λ m. m.thread) mutators.old ≡ 0 ∷ 1 ∷ [] }
    requires mutators { AllMayStart (λ _. Some []) mutators.old }
    requires new { (script : Script) × (script.globals ≡ 1) × AllNew script mutators.old }
    requires first { IfSome first (LacksAt mutators.old) }
{
    let paused = Paused {
        heap,
        pass: Pass::new(),
        end: 1,
        told: Ghost::pick(&()),
    };
    let Ok((after, lacked)) = resume(rt, alloc, paused, mutators, every, first, gate) else {
        panic!(rt; "no memory");
    };
    (after.heap.space.used(), lacked)
}

/// What a thread comes to in an epoch.
#[derive(Clone, Copy)]
struct Wanted<'a> {
    replies: &'a [Reply],
    mode: Mode,
    /// How many operations the gate is told of.
    told: u64,
}

/// Compares the replies that a thread has got, and what it does next.
fn expect(mutator: &mut Mutator<Worker<'_, NoDisk>>, wanted: &Wanted<'_>) -> Result<(), Fail> {
    let mut worker = mutator.take_reader().ok_or("no worker")?;
    let state = worker.state.take().ok_or("no thread")?;
    same(
        (state.replies.as_slice(), state.mode),
        (wanted.replies, wanted.mode),
    )
}

/// Compares what threads came to, and what the gate was told of them.
fn expect_all(
    mutators: &mut [Mutator<Worker<'_, NoDisk>>],
    gate: &Counts,
    wanted: &[Wanted<'_>; 2],
) -> Result<(), Fail> {
    for (mutator, wanted) in mutators.iter_mut().zip(wanted) {
        expect(mutator, wanted)?;
    }
    let told = [
        gate.told[0].load(Ordering::SeqCst),
        gate.told[1].load(Ordering::SeqCst),
    ];
    same(
        (told, gate.out_of_turn.load(Ordering::SeqCst)),
        ([wanted[0].told, wanted[1].told], 0),
    )?;
    same(gate.meeting.missed(), 0)
}

/// Runs two threads through an epoch in which they meet, and compares what they come to, how many words are in use after
/// it, and how many the first call lacked. The gate was told of the call that is made first.
fn expect_epoch<R: Abort + Threads + Sync>(
    rt: &R,
    alloc: Global,
    mutators: &mut [Mutator<Worker<'_, NoDisk>>],
    every: u32,
    first: Option<u32>,
    meeting: Meeting,
    wanted: &[Wanted<'_>; 2],
    words: (u32, Option<u32>),
) -> Result<(), Fail>
    requires threads { map (λ m. m.thread) mutators.old ≡ 0 ∷ 1 ∷ [] }
    requires mutators { AllMayStart (λ _. Some []) mutators.old }
    requires new { (script : Script) × (script.globals ≡ 1) × AllNew script mutators.old }
    requires first { IfSome first (LacksAt mutators.old) }
{
    let heap = Heap::new(alloc, 64, 1, 1, false)?;
    let gate = Counts::new(u64::from(first.is_some()), meeting);
    let came = run_on(rt, alloc, heap, mutators, every, first, &gate);
    same(came, words)?;
    expect_all(mutators, &gate, wanted)
}

/// Runs the two threads of a trace of one global through an epoch, and compares what they come to, and the words in use
/// after it.
fn expect_both<R: Abort + Threads + Sync>(
    rt: &R,
    alloc: Global,
    trace: &Trace,
    every: u32,
    wanted: &[Wanted<'_>; 2],
    used: u32,
) -> Result<(), Fail> {
    same((trace.threads(), trace.globals()), (2, 1))?;
    let mut mutators = two_mutators(rt, alloc, trace);
    let nobody = Meeting::nowhere();
    expect_epoch(
        rt,
        alloc,
        &mut mutators,
        every,
        None,
        nobody,
        wanted,
        (used, None),
    )
}

/// The same, where the call of the first thread is made first, which was refused before, and both meet behind it.
/// Compares also how many words it lacked.
fn expect_first<R: Abort + Threads + Sync>(
    rt: &R,
    alloc: Global,
    trace: &Trace,
    meeting: Meeting,
    wanted: &[Wanted<'_>; 2],
    words: (u32, Option<u32>),
) -> Result<(), Fail> {
    same((trace.threads(), trace.globals()), (2, 1))?;
    let mut mutators = first_refused(rt, alloc, trace);
    expect_epoch(rt, alloc, &mut mutators, 0, Some(0), meeting, wanted, words)
}

#[test]
fn two_threads_go_through_an_epoch(rt: HostRuntime) -> Result<(), Fail> {
    let text = b"melt 1\nthreads 2\nglobals 1\n\
        thread 0\nnew 0 0 1\nput 0 0 7\ngstore 0 0\nget 0 0\nsame 0 1\ndone\n\
        thread 1\nnew 0 1 0\nload 1 0 0\nsame 0 0\ncollect\nget 0 0\ndone\n";
    let done = Reply::Done;
    let first = Wanted {
        replies: &[done, done, done, Reply::Num(7), Reply::No],
        mode: Mode::Ended(ThreadEnd::Done),
        told: 5,
    };
    let second = Wanted {
        replies: &[done, Reply::Null, Reply::Yes],
        mode: Mode::Collecting,
        told: 4,
    };
    let trace = parse(rt.alloc(), text)?;
    expect_both(&rt, rt.alloc(), &trace, 0, &[first, second], 6)
}

#[test]
fn a_silent_collection_is_due_after_every_second_reply(rt: HostRuntime) -> Result<(), Fail> {
    let text = b"melt 1\nthreads 2\nglobals 1\n\
        thread 0\nnew 0 0 1\nput 0 0 7\nget 0 0\ndone\nthread 1\ndone\n";
    let first = Wanted {
        replies: &[Reply::Done, Reply::Done],
        mode: Mode::Silent,
        told: 2,
    };
    let second = Wanted {
        replies: &[],
        mode: Mode::Ended(ThreadEnd::Done),
        told: 0,
    };
    let trace = parse(rt.alloc(), text)?;
    expect_both(&rt, rt.alloc(), &trace, 2, &[first, second], 3)
}

#[test]
fn all_go_on_after_a_first_call_that_is_answered(rt: HostRuntime) -> Result<(), Fail> {
    let text = b"melt 1\nthreads 2\nglobals 1\n\
        thread 0\nnew 0 0 1\nget 0 0\ndone\nthread 1\nnew 0 1 0\ndone\n";
    let first = Wanted {
        replies: &[Reply::Done, Reply::Num(0)],
        mode: Mode::Ended(ThreadEnd::Done),
        told: 2,
    };
    let second = Wanted {
        replies: &[Reply::Done],
        mode: Mode::Ended(ThreadEnd::Done),
        told: 1,
    };
    let trace = parse(rt.alloc(), text)?;
    let meeting = Meeting::of(2, [2, 1, 0, 0, 0, 0, 0, 0]);
    expect_first(
        &rt,
        rt.alloc(),
        &trace,
        meeting,
        &[first, second],
        (6, None),
    )
}

#[test]
fn no_other_runs_after_a_first_call_that_lacks_words(rt: HostRuntime) -> Result<(), Fail> {
    let text = b"melt 1\nthreads 2\nglobals 1\n\
        thread 0\nnew 0 40 40\ndone\nthread 1\nnew 0 1 0\ndone\n";
    let first = Wanted {
        replies: &[],
        mode: Mode::Lacking,
        told: 1,
    };
    let second = Wanted {
        replies: &[],
        mode: Mode::Running,
        told: 0,
    };
    let trace = parse(rt.alloc(), text)?;
    let nobody = Meeting::nowhere();
    expect_first(
        &rt,
        rt.alloc(),
        &trace,
        nobody,
        &[first, second],
        (64, Some(82)),
    )
}
