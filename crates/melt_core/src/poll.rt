//! The first event of a call: operations on registers alone are answered there, all others read the stop word.
//!
//! Only a call that has read the stop word unset goes on, and none reads it twice. So a safepoint waits for each thread
//! for at most as many events as one call has, and a thread that meets the stop word has changed nothing.
ghost use Rattle.std.specs.Prelude.{◌≡◌, Some, None, true};
ghost use Rattle.melt_scion.specs.Heaps.{register_in};
ghost use Rattle.melt_core.specs.Advances.{MakesEvent, MayMakeEvent};
ghost use Rattle.melt_core.specs.Stages.{Shares, task_of};
ghost use Rattle.melt_core.specs.Views.{call_of, view};

use crate::answer::{Pause, Refusal, StepResult};
use crate::call::{Access, Call, Stage, Task};
use crate::machine::Core;
use melt_model::{Op, Reply};
use melt_word::Shape;

impl Core {
    /// The stop word is set: the call pauses.
    pub(crate) fn pause(&self, thread: u32, op: Op, task: Task) -> StepResult
        requires asks { MayMakeEvent (view self.now) thread op }
        requires first { call_of (view self.now) thread ≡ None }
        requires shares { Shares (register_in (view self.now).held thread) op task }
        requires stop { (view self.now).stop ≡ true }
        ensures { MakesEvent (view self.now) (view self.now) thread op result }
    {
        StepResult::Refused(Refusal::Pause(Pause::Asked))
    }

    /// Reads the stop word.
    #[inline(always)]
    pub(crate) fn poll(&mut self, thread: u32, op: Op, task: Task) -> StepResult
        requires asks { MayMakeEvent (view self.old) thread op }
        requires first { call_of (view self.old) thread ≡ None }
        requires shares { Shares (register_in (view self.old).held thread) op task }
        ensures { MakesEvent (view self.old) (view self.new) thread op result }
    {
        if self.stop {
            return self.pause(thread, op, task);
        }
        let stage = Stage::Polled { task };
        self.set_call(thread, Some(Call { op, stage }));
        StepResult::Going
    }

    /// Begins an operation on a part of the object in a register. Where that holds none, the answer needs no shared
    /// word.
    #[inline(always)]
    pub(crate) fn poll_object(&mut self, thread: u32, op: Op, r: u8, access: Access) -> StepResult
        requires asks { MayMakeEvent (view self.old) thread op }
        requires first { call_of (view self.old) thread ≡ None }
        requires task { task_of op ≡ Some (Task.Use r access) }
        ensures { MakesEvent (view self.old) (view self.new) thread op result }
    {
        if self.register(thread, r) == 0 {
            return StepResult::Answered(Reply::Nil);
        }
        self.poll(thread, op, Task::Use { r, access })
    }

    /// Each object has one address, so that addresses are compared in place of objects.
    pub(crate) fn same(&self, thread: u32, a: u8, b: u8) -> StepResult
        requires asks { MayMakeEvent (view self.now) thread (Op.Same a b) }
        requires first { call_of (view self.now) thread ≡ None }
        ensures { MakesEvent (view self.now) (view self.now) thread (Op.Same a b) result }
    {
        if self.register(thread, a) == self.register(thread, b) {
            StepResult::Answered(Reply::Yes)
        } else {
            StepResult::Answered(Reply::No)
        }
    }

    /// No other thread sees a register, so that the copy needs no shared word.
    pub(crate) fn copy(&mut self, thread: u32, dst: u8, src: u8) -> StepResult
        requires asks { MayMakeEvent (view self.old) thread (Op.Copy dst src) }
        requires first { call_of (view self.old) thread ≡ None }
        ensures { MakesEvent (view self.old) (view self.new) thread (Op.Copy dst src) result }
    {
        let address = self.register(thread, src);
        self.set_register(thread, dst, address);
        StepResult::Answered(Reply::Done)
    }

    /// The register holds nothing now. What it held stays where it is until a collection.
    pub(crate) fn drop_register(&mut self, thread: u32, r: u8) -> StepResult
        requires asks { MayMakeEvent (view self.old) thread (Op.Drop r) }
        requires first { call_of (view self.old) thread ≡ None }
        ensures { MakesEvent (view self.old) (view self.new) thread (Op.Drop r) result }
    {
        self.set_register(thread, r, 0);
        StepResult::Answered(Reply::Done)
    }

    /// The first event of a call.
    // (inlined, so that no result is written to memory)
    #[inline(always)]
    pub(crate) fn begin_call(&mut self, thread: u32, op: Op) -> StepResult
        requires asks { MayMakeEvent (view self.old) thread op }
        requires first { call_of (view self.old) thread ≡ None }
        ensures { MakesEvent (view self.old) (view self.new) thread op result }
    {
        match op {
            Op::New { dst, refs, nums } => {
                let shape = Shape { refs, nums };
                self.poll(thread, op, Task::Make { dst, shape })
            }
            Op::Load { dst, src, i } => self.poll_object(thread, op, src, Access::Load { dst, i }),
            Op::Store { obj, i, src } => {
                self.poll_object(thread, op, obj, Access::Store { i, src })
            }
            Op::Get { src, j } => self.poll_object(thread, op, src, Access::Get { j }),
            Op::Put { obj, j, v } => self.poll_object(thread, op, obj, Access::Put { j, v }),
            Op::GLoad { dst, g } => self.poll(thread, op, Task::LoadGlobal { dst, g }),
            Op::GStore { g, src } => self.poll(thread, op, Task::StoreGlobal { g, src }),
            Op::Same { a, b } => self.same(thread, a, b),
            Op::Copy { dst, src } => self.copy(thread, dst, src),
            Op::Drop { r } => self.drop_register(thread, r),
            // (a collection is no call: the threads meet for it)
            Op::Collect => unreachable!(),
        }
    }
}
