//! The events of a thread.
//!
//! A thread knows no more of its call than its mode: what the call has reached stands in the core. So one event asks
//! the core once, and its answer is the next mode. A collection is asked for by the stop word alone, which makes every
//! call that begins pause, and is made when all of them have.
ghost use Rattle.std.specs.Prelude.{◌≡◌, ℕ, ◌<◌, ◌≤◌, length, vec_capacity, Some, None, Bool, true, IfSome};
ghost use Rattle.melt_scion.specs.Heaps.{OnDisk};
ghost use Rattle.melt_core.specs.Views.{Standing, View, call_of, view};
ghost use Rattle.melt_safepoint.specs.Losses.{CountsLoss};
ghost use Rattle.melt_safepoint.specs.Threads.{DueBy, TakesReply};
ghost use Rattle.melt_safepoint.specs.Modes.{MayGo, mode_for};
ghost use Rattle.melt_step.specs.Made.{MakesInUse};
ghost use Rattle.melt_step.specs.Tied.{KeepsTied};
ghost use Rattle.melt_step.specs.Going.{IsNextCall};
ghost use Rattle.melt_safepoint.specs.Tables.{DropsIfEnded, IsReady, SetsStop, TakesTurn};

use melt_core::{Core, Refusal, StepResult};
use melt_io::RecordReader;
use melt_model::{Op, Reply};
use melt_safepoint::{Mode, ThreadState, mode_after};

/// Makes the next event of a thread that can go on, over a disk whose homes end before `end`.
// (inlined, so that what the core answers is not written to memory)
#[inline(always)]
pub fn make_event<R: RecordReader>(
    core: &mut Core,
    state: &mut ThreadState<'_>,
    thread: u32,
    every: u32,
    end: u32,
    reader: &mut R,
)
    requires ready { IsReady end (view core.old) thread state.old }
    requires goes { MayGo state.old.mode }
    ensures step { TakesTurn end (R.image reader.old) (view core.old) (view core.new) thread state.old state.new }
    ensures stop { SetsStop (view core.old) (view core.new) state.new }
    ensures due { DueBy every state.old state.new }
    ensures image { R.image reader.new ≡ R.image reader.old }
    ensures makes { MakesInUse end (R.image reader.old) (view core.old) (view core.new) }
    ensures ties { KeepsTied end (R.image reader.old) (view core.old) (view core.new) thread }
    ensures lost { CountsLoss state.old state.new (R.faults reader.old) (R.faults reader.new) }
{
    match (state.mode, state.op) {
        (Mode::Running, Some(Op::Collect)) => {
            core.ask();
            state.mode = Mode::Collecting;
        }
        (Mode::Running, Some(op)) => match core.advance(thread, op, end, reader) {
            StepResult::Going => {}
            StepResult::Answered(reply) => answered(core, state, thread, reply, every),
            StepResult::Refused(refusal) => refused(core, state, thread, refusal),
        },
        _ => {
            core.ask();
            state.mode = Mode::Silent;
        }
    }
}

/// The same, apart.
// (not inlined, as few events of a thread that goes on alone are made by it, and with it the others would not be inlined)
#[inline(never)]
fn make_event_apart<R: RecordReader>(
    core: &mut Core,
    state: &mut ThreadState<'_>,
    thread: u32,
    every: u32,
    end: u32,
    reader: &mut R,
)
    requires ready { IsReady end (view core.old) thread state.old }
    requires goes { MayGo state.old.mode }
    ensures step { TakesTurn end (R.image reader.old) (view core.old) (view core.new) thread state.old state.new }
    ensures stop { SetsStop (view core.old) (view core.new) state.new }
    ensures due { DueBy every state.old state.new }
    ensures image { R.image reader.new ≡ R.image reader.old }
    ensures makes { MakesInUse end (R.image reader.old) (view core.old) (view core.new) }
    ensures ties { KeepsTied end (R.image reader.old) (view core.old) (view core.new) thread }
    ensures lost { CountsLoss state.old state.new (R.faults reader.old) (R.faults reader.new) }
{
    make_event(core, state, thread, every, end, reader);
}

/// A thread that has ended drops its registers.
pub fn drop_if_ended(core: &mut Core, mode: Mode, thread: u32)
    requires thread { thread < length (view core.old).held }
    requires no_call { call_of (view core.old) thread ≡ None }
    ensures { DropsIfEnded (view core.old) (view core.new) thread mode }
{
    if let Mode::Ended(_) = mode {
        core.drop_all(thread);
    }
}

/// A thread got a reply.
// (inlined for the same reason as `make_event`)
#[inline(always)]
pub fn answered(core: &mut Core, state: &mut ThreadState<'_>, thread: u32, reply: Reply, every: u32)
    requires thread { thread < length (view core.old).held }
    requires no_call { call_of (view core.old) thread ≡ None }
    requires room { length state.old.replies.items < vec_capacity state.old.replies }
    ensures takes { TakesReply state.old state.new reply }
    ensures drops { DropsIfEnded (view core.old) (view core.new) thread state.new.mode }
    ensures due { DueBy every state.old state.new }
{
    state.take_reply(reply, every);
    drop_if_ended(core, state.mode, thread);
}

/// The call of a thread was refused.
pub fn refused(core: &mut Core, state: &mut ThreadState<'_>, thread: u32, refusal: Refusal)
    requires thread { thread < length (view core.old).held }
    requires no_call { call_of (view core.old) thread ≡ None }
    ensures waits { state.new ≡ record state.old { mode = mode_for refusal } }
    ensures drops { DropsIfEnded (view core.old) (view core.new) thread (mode_for refusal) }
{
    state.mode = mode_after(refusal);
    drop_if_ended(core, state.mode, thread);
}

/// The operation whose call a thread is to make next. A collection is no call.
// (inlined for the same reason as `make_event`)
#[inline(always)]
fn next_op(state: &ThreadState<'_>) -> Option<Op>
    ensures { (v : View) (thread : ℕ) → call_of v thread ≡ None
        → IfSome result (λ op. IsNextCall v thread state.now op) }
{
    match (state.mode, state.op) {
        (Mode::Running, Some(Op::Collect)) => None,
        (Mode::Running, op) => op,
        _ => None,
    }
}

/// The operation whose call a thread that goes on alone is to begin, if that is next. It may be known already.
// (inlined, as it is asked before each event)
#[inline(always)]
fn next_call(core: &Core, state: &ThreadState<'_>, thread: u32, known: Option<Op>) -> Option<Op>
    requires thread { thread < length (view core.now).calls }
    requires known { IfSome known (λ op. IsNextCall (view core.now) thread state.now op) }
    ensures { IfSome result (λ op. IsNextCall (view core.now) thread state.now op) }
{
    match known {
        Some(op) => Some(op),
        None if core.is_free(thread) => next_op(state),
        None => None,
    }
}

/// Makes the next event of a thread that can go on, and goes on alone, over a disk whose homes end before `end`; or,
/// where it begins a call, the events of that in one go, as far as that is quick. The operation of that call may be
/// known, and the answer is the one whose call it is to begin after it, if that is known.
// (inlined for the same reason as `make_event`)
#[inline(always)]
pub fn make_events<R: RecordReader>(
    core: &mut Core,
    state: &mut ThreadState<'_>,
    thread: u32,
    known: Option<Op>,
    every: u32,
    end: u32,
    reader: &mut R,
) -> Option<Op>
    requires ready { IsReady end (view core.old) thread state.old }
    requires goes { MayGo state.old.mode }
    requires known { IfSome known (λ op. IsNextCall (view core.old) thread state.old op) }
    ensures step { TakesTurn end (R.image reader.old) (view core.old) (view core.new) thread state.old state.new }
    ensures stop { SetsStop (view core.old) (view core.new) state.new }
    ensures due { DueBy every state.old state.new }
    ensures image { R.image reader.new ≡ R.image reader.old }
    ensures makes { MakesInUse end (R.image reader.old) (view core.old) (view core.new) }
    ensures ties { KeepsTied end (R.image reader.old) (view core.old) (view core.new) thread }
    ensures lost { CountsLoss state.old state.new (R.faults reader.old) (R.faults reader.new) }
    ensures next { IfSome result (λ op. IsNextCall (view core.new) thread state.new op) }
{
    let Some(op) = next_call(core, state, thread, known) else {
        make_event_apart(core, state, thread, every, end, reader);
        return None;
    };
    match core.call_at_once(thread, op) {
        StepResult::Going => None,
        StepResult::Answered(reply) => {
            answered(core, state, thread, reply, every);
            next_op(state)
        }
        StepResult::Refused(refusal) => {
            refused(core, state, thread, refusal);
            None
        }
    }
}
