//! The threads of a run.
ghost use Rattle.std.specs.Prelude.{◌≡◌, ◌<◌, ◌↔◌, length, vec_capacity, IsTrue, IsSome, IfOk, true, Some, None};
ghost use Rattle.melt_trace.specs.Script.{operations};
ghost use Rattle.melt_safepoint.specs.Modes.{CallsAgain, IsEnded, MayGo, mode_for, words_lacked_by};
ghost use Rattle.melt_safepoint.specs.Threads.{AreHalted, AreNewThreads, DueBy, RunsOrEnds, IsNewThread, TakesReply};
ghost use Rattle.melt_safepoint.specs.Threads.{halted};

use melt_core::{Pause, Refusal};
use melt_model::{NoMemory, Op, Reply, ThreadEnd};
use melt_trace::{Cursor, Trace};
use std::alloc::Global;

/// What a thread does next, or waits for.
#[derive(Clone, Copy, Debug, PartialEq, Eq)]
pub enum Mode {
    /// Its next operation is to be begun, or is in flight.
    Running,
    /// It is to ask for a silent collection.
    Due,
    /// It waits for a silent collection.
    Silent,
    /// It waits for the collection that its next operation is.
    Collecting,
    /// Its call was refused as the stop word was set, and is to be made again.
    Asked,
    /// Its call was refused for want of room, and is to be made again.
    Lacking,
    Ended(ThreadEnd),
}

/// A thread of a run: its next operation, those after it, and its replies so far.
#[derive(Drop)]
pub struct ThreadState<'a> {
    pub op: Option<Op>,
    pub cursor: Cursor<'a>,
    pub replies: Vec<Reply>,
    pub mode: Mode,
}

impl<'a> ThreadState<'a> {
    /// A thread before its first event, with room for all its replies. One without operations has ended.
    pub fn new(alloc: Global, trace: &'a Trace, thread: u32) -> Result<ThreadState<'a>, NoMemory>
        requires { thread < length trace.now.programs }
        ensures { IfOk result (IsNewThread (operations trace.now thread) trace.now.globals) }
    {
        let mut cursor = trace.cursor(thread);
        let op = cursor.next();
        let mut state = ThreadState {
            op,
            cursor,
            replies: Vec::with_capacity(alloc, trace.count(thread) as usize)?,
            mode: Mode::Running,
        };
        state.run_or_end();
        Ok(state)
    }

    /// Whether the thread neither waits nor has ended.
    pub fn can_go(&self) -> bool
        ensures { IsTrue result ↔ MayGo self.now.mode }
    {
        match self.mode {
            Mode::Running | Mode::Due => true,
            Mode::Silent | Mode::Collecting | Mode::Asked | Mode::Lacking | Mode::Ended(_) => false,
        }
    }

    /// Whether the thread has ended.
    pub fn has_ended(&self) -> bool
        ensures { IsTrue result ↔ IsEnded self.now.mode }
    {
        match self.mode {
            Mode::Ended(_) => true,
            _ => false,
        }
    }

    /// Goes on with the next operation. A thread without one has ended.
    pub fn run_or_end(&mut self)
        ensures only { self.new ≡ record self.old { mode = self.new.mode } }
        ensures runs { IsSome self.old.op → self.new.mode ≡ Mode.Running }
        ensures ended { self.old.op ≡ None → self.new.mode ≡ Mode.Ended ThreadEnd.Done }
    {
        match (self.op, self.mode) {
            (None, _) => self.mode = Mode::Ended(ThreadEnd::Done),
            // Most threads run already, and a mode is four words.
            (Some(_), Mode::Running) => {}
            (Some(_), _) => self.mode = Mode::Running,
        }
    }

    /// Makes its call again, if that was refused.
    pub fn make_again(&mut self)
        ensures again { CallsAgain self.old.mode → self.new ≡ record self.old { mode = Mode.Running } }
        ensures same { (CallsAgain self.old.mode → ⊥) → self.new ≡ self.old }
    {
        match self.mode {
            Mode::Asked | Mode::Lacking => self.mode = Mode::Running,
            _ => {}
        }
    }

    /// Halts the thread, if it has not ended.
    pub fn halt(&mut self)
        ensures { self.new ≡ halted self.old }
    {
        match self.mode {
            Mode::Ended(_) => {}
            _ => self.mode = Mode::Ended(ThreadEnd::Halted),
        }
    }

    /// Takes the reply to the next operation. After each of these whose number is a multiple of `every` a silent
    /// collection is due; 0 is for none.
    // (inlined, as each answered call takes one)
    #[inline(always)]
    pub fn take_reply(&mut self, reply: Reply, every: u32)
        requires { length self.old.replies.items < vec_capacity self.old.replies }
        ensures takes { TakesReply self.old self.new reply }
        ensures due { DueBy every self.old self.new }
    {
        self.replies.push_reserved(reply);
        self.op = self.cursor.next();
        if every != 0 && self.replies.len() as u64 % every as u64 == 0 {
            self.mode = Mode::Due;
        } else {
            self.run_or_end();
        }
    }

    /// Goes on after the collection for which it waited: with the reply, if that was its next operation.
    pub fn take_collection(&mut self, every: u32)
        requires { self.old.mode ≡ Mode.Collecting → length self.old.replies.items < vec_capacity self.old.replies }
        ensures takes { self.old.mode ≡ Mode.Collecting → TakesReply self.old self.new Reply.Done }
        ensures due { self.old.mode ≡ Mode.Collecting → DueBy every self.old self.new }
        ensures silent { self.old.mode ≡ Mode.Silent → RunsOrEnds self.old self.new }
    {
        match self.mode {
            Mode::Collecting => self.take_reply(Reply::Done, every),
            _ => self.run_or_end(),
        }
    }
}

/// What a thread does after a call that was refused. One whose record could not be read, or is none, has ended.
pub fn mode_after(refusal: Refusal) -> Mode
    ensures { result ≡ mode_for refusal }
{
    match refusal {
        Refusal::Pause(Pause::Asked) => Mode::Asked,
        Refusal::Pause(Pause::Space { .. } | Pause::Forward) => Mode::Lacking,
        Refusal::DiskFault => Mode::Ended(ThreadEnd::DiskFault),
        Refusal::Damaged(damaged) => Mode::Ended(ThreadEnd::Damaged {
            home: damaged.home,
            at: damaged.at,
            word: damaged.word,
        }),
    }
}

/// The words for want of which a call was refused, if it was.
pub fn words_lacked(refusal: Refusal) -> Option<u32>
    ensures { result ≡ words_lacked_by refusal }
{
    match refusal {
        Refusal::Pause(Pause::Space { need }) => Some(need),
        Refusal::Pause(Pause::Asked | Pause::Forward) => None,
        Refusal::DiskFault | Refusal::Damaged(_) => None,
    }
}

/// The threads of a trace before their first events.
pub fn new_states<'a>(
    alloc: Global,
    trace: &'a Trace,
) -> Result<(Vec<ThreadState<'a>>, u64), NoMemory>
    ensures { IfOk result (λ made. AreNewThreads trace.now made.0.items made.1) }
{
    let mut states = Vec::with_capacity(alloc, trace.threads() as usize)?;
    let mut entries = 0;
    for t in 0..trace.threads() {
        states.push(ThreadState::new(alloc, trace, t)?)?;
        entries += trace.count(t);
    }
    Ok((states, entries))
}

/// Each thread that has not ended is halted.
pub fn halt_all(states: &mut [ThreadState<'_>])
    ensures { AreHalted states.old states.new }
{
    for state in states.iter_mut() {
        state.halt();
    }
}
