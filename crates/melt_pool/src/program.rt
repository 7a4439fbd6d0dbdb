//! How a thread of the trace runs in an epoch: call after call, until it waits or has ended.
//!
//! A thread knows of the others only what its seat tells, and every call leaves that true. So what is said of a thread
//! here is said of its own mutator alone, and holds whatever the others do meanwhile.
ghost use Rattle.std.specs.Prelude.{◌≡◌, ◌<◌, true, length, vec_capacity};
ghost use Rattle.melt_trace.specs.Script.{Script};
ghost use Rattle.melt_rule.specs.Rule.{has_cause};
ghost use Rattle.melt_epoch.specs.Calls.{IsAsked};
ghost use Rattle.melt_epoch.specs.Ends.{view_of};
ghost use Rattle.melt_epoch.specs.Mutators.{HasReader, IsSeated};
ghost use Rattle.melt_safepoint.specs.Modes.{IsEnded, MayGo, Waits};
ghost use Rattle.melt_pool.specs.Programs.{DueOnly, ThreadWentOn, HasEndedWell, OwesSilent, Took, WaitsByCause, Works};
ghost use Rattle.melt_pool.specs.Programs.{dropped_for, made_again, turns_left};

use crate::call::make_call;
use melt_core::Refusal;
use melt_epoch::{Epoch, Mutator};
use melt_io::{Gate, RecordReader};
use melt_model::{Op, Reply};
use melt_safepoint::thread::{Mode, ThreadState, mode_after};

/// A thread that has ended lets its registers hold nothing.
fn drop_if_ended<R>(m: &mut Mutator<R>, mode: Mode)
    ensures { m.new ≡ dropped_for mode m.old }
{
    if let Mode::Ended(_) = mode {
        m.drop_all();
    }
}

/// Tells the gate of the operation that a thread is about to make, if it is about to make one. Each is told by its
/// number, from 1.
fn announce<G: Gate>(gate: &G, thread: u32, state: &ThreadState<'_>) {
    if let Mode::Running = state.mode {
        gate.before(thread, state.replies.len() as u64 + 1);
    }
}

/// Asks all threads to stop. The thread waits for its collection in this mode.
fn wait_for<R>(epoch: &Epoch, m: &mut Mutator<R>, state: &mut ThreadState<'_>, mode: Mode)
    requires seated { IsSeated epoch.now.words m.old }
    ensures seated { IsSeated epoch.now.words m.new }
    ensures asked { IsAsked m.old m.new }
    ensures waits { state.new ≡ record state.old { mode = mode } }
{
    epoch.ask(m);
    state.mode = mode;
}

/// Takes what a call came to: the reply, or why it was refused. A thread that has ended lets its registers hold
/// nothing.
pub(crate) fn take_result<R>(
    m: &mut Mutator<R>,
    state: &mut ThreadState<'_>,
    answer: Result<Reply, Refusal>,
    every: u32,
)
    requires room { length state.old.replies.items < vec_capacity state.old.replies }
    requires runs { state.old.mode ≡ Mode.Running }
    ensures took { Took state.old state.new answer }
    ensures owes { OwesSilent every state.old state.new }
    ensures due { DueOnly every state.old state.new }
    ensures dropped { m.new ≡ dropped_for state.new.mode m.old }
{
    match answer {
        Ok(reply) => state.take_reply(reply, every),
        Err(refusal) => state.mode = mode_after(refusal),
    }
    drop_if_ended(m, state.mode);
}

/// Makes the next call of a thread that neither waits nor has ended, or asks all threads to stop for its collection.
fn make_next<R: RecordReader>(
    epoch: &Epoch,
    m: &mut Mutator<R>,
    state: &mut ThreadState<'_>,
    every: u32,
)
    requires works { (script : Script) × Works script epoch.now.words m.old state.old }
    requires reader { HasReader R.image epoch.now.words m.old }
    requires goes { MayGo state.old.mode }
    ensures works { (script : Script) → Works script epoch.now.words m.old state.old
        → Works script epoch.now.words m.new state.new }
    ensures ends { (script : Script) → Works script epoch.now.words m.old state.old
        → HasEndedWell R.faults epoch.now.words.start.began.told epoch.now.end script m.new state.new }
    ensures reader { HasReader R.image epoch.now.words m.new }
    ensures thread { m.new.thread ≡ m.old.thread }
    ensures nearer { turns_left state.new < turns_left state.old }
    ensures goes_on { (script : Script) → Works script epoch.now.words m.old state.old
        → ThreadWentOn every script m.old m.new state.old state.new }
    ensures caused { Waits state.new.mode → has_cause (view_of m.new) ≡ true }
{
    match (state.mode, state.op) {
        (Mode::Running, Some(Op::Collect)) => wait_for(epoch, m, state, Mode::Collecting),
        (Mode::Running, Some(op)) => {
            let answer = make_call(epoch, m, op);
            take_result(m, state, answer, every);
        }
        _ => wait_for(epoch, m, state, Mode::Silent),
    }
}

/// Makes the call of a thread again, if it was refused in an epoch before, and answers whether it was.
fn make_again(state: &mut ThreadState<'_>) -> bool
    ensures again { state.new ≡ made_again state.old }
{
    match state.mode {
        Mode::Asked | Mode::Lacking => {
            state.mode = Mode::Running;
            true
        }
        _ => false,
    }
}

/// Runs a thread until it waits or has ended. A call that was refused in an epoch before is made again, and the gate is
/// not told of it once more.
pub(crate) fn run_program<R: RecordReader, G: Gate>(
    epoch: &Epoch,
    m: &mut Mutator<R>,
    state: &mut ThreadState<'_>,
    thread: u32,
    every: u32,
    gate: &G,
)
    requires works { (script : Script) × Works script epoch.now.words m.old (made_again state.old) }
    requires reader { HasReader R.image epoch.now.words m.old }
    ensures works { (script : Script) → Works script epoch.now.words m.old (made_again state.old)
        → Works script epoch.now.words m.new state.new }
    ensures ends { (script : Script) → Works script epoch.now.words m.old (made_again state.old)
        → (IsEnded state.old.mode → ⊥)
        → HasEndedWell R.faults epoch.now.words.start.began.told epoch.now.end script m.new state.new }
    ensures ended { IsEnded state.old.mode → (state.new ≡ state.old) × (m.new ≡ m.old) }
    ensures reader { HasReader R.image epoch.now.words m.new }
    ensures thread { m.new.thread ≡ m.old.thread }
    ensures waits { MayGo state.new.mode → ⊥ }
    ensures goes_on { (script : Script) → Works script epoch.now.words m.old (made_again state.old)
        → ThreadWentOn every script m.old m.new state.old state.new }
    ensures caused { WaitsByCause state.old.mode state.new.mode m.new }
{
    // A gate is told of an operation once, also where its call is refused and made again.
    let mut is_announced = make_again(state);
    while state.can_go() {
        if !is_announced {
            announce(gate, thread, state);
        }
        is_announced = false;
        make_next(epoch, m, state, every);
    }
}
