//! The call that is made alone at a safepoint.
//!
//! A thread that lacked room makes its call first in a new epoch, while all others wait. There the stop word is not
//! set and no forwarding word is filled, and nobody changes that but the call itself. So it is never asked to pause,
//! and its first look for a forwarding word finds an empty one: it can lack nothing but words of the heap.
ghost use Rattle.std.specs.Prelude.{◌≡◌, ◌≢◌, ◌<◌, length, vec_capacity, Some};
ghost use Rattle.melt_model.specs.declared.operations.Op.{Op};
ghost use Rattle.melt_core.specs.Views.{view};
ghost use Rattle.melt_safepoint.specs.Losses.{CountsLoss};
ghost use Rattle.melt_safepoint.specs.Threads.{DueBy};
ghost use Rattle.melt_step.specs.Lone.{IsAloneReady, CalledAlone};
ghost use Rattle.melt_step.specs.Made.{MakesInUse};
ghost use Rattle.melt_step.specs.Tied.{KeepsTied};

use crate::events::{answered, refused};
use melt_core::{Core, StepResult};
use melt_io::RecordReader;
use melt_model::Op;
use melt_safepoint::{ThreadState, words_lacked};

/// Makes the call of a thread alone, over a disk whose homes end before `end`. Answers the words that it lacked, if it
/// was refused for want of room.
pub fn call_alone<R: RecordReader>(
    core: &mut Core,
    state: &mut ThreadState<'_>,
    thread: u32,
    op: Op,
    every: u32,
    end: u32,
    reader: &mut R,
) -> Option<u32>
    requires ready { IsAloneReady end (view core.old) thread state.old op }
    ensures called { CalledAlone end (R.image reader.old) (view core.old) (view core.new) thread
        state.old state.new op result }
    ensures due { DueBy every state.old state.new }
    ensures image { R.image reader.new ≡ R.image reader.old }
    ensures makes { MakesInUse end (R.image reader.old) (view core.old) (view core.new) }
    ensures ties { KeepsTied end (R.image reader.old) (view core.old) (view core.new) thread }
    ensures lost { CountsLoss state.old state.new (R.faults reader.old) (R.faults reader.new) }
{
    loop {
        match core.advance(thread, op, end, reader) {
            StepResult::Going => {}
            StepResult::Answered(reply) => {
                answered(core, state, thread, reply, every);
                return None;
            }
            StepResult::Refused(refusal) => match words_lacked(refusal) {
                Some(need) => return Some(need),
                None => {
                    refused(core, state, thread, refusal);
                    return None;
                }
            },
        }
    }
}
