//! A call in one go, for a thread that goes on alone.
//!
//! Its events are those of `advance`, one right after the other, and what each reads and writes is the same. What is
//! saved is the way between them: the stage that a call has reached is known where it was reached, and nobody else
//! reads it there, so that it is not written. A call that comes to a stage from which few calls go on is left there, in
//! flight, for `advance`.
ghost use Rattle.std.specs.Prelude.{◌≡◌, ◌↔◌, ◌<◌, length, IsTrue, IfErr, IfOk, Some, None};
ghost use Rattle.melt_core.specs.Advances.{MayMakeEvent, MayMakeEventFrom, MakesEvents};
ghost use Rattle.melt_core.specs.Changed.{with_stage};
ghost use Rattle.melt_core.specs.Stages.{task_of};
ghost use Rattle.melt_core.specs.Views.{call_of, stage_of, view};

use crate::answer::StepResult;
use crate::call::{Access, Place, Stage, Task};
use crate::machine::Core;
use crate::make::Claim;
use crate::parts::Cell;
use melt_model::{Op, Reply};
use melt_word::{Shape, cost};

impl Core {
    /// Whether no call of a thread is in flight.
    pub fn is_free(&self, thread: u32) -> bool
        requires { thread < length (view self.now).calls }
        ensures { IsTrue result ↔ call_of (view self.now) thread ≡ None }
    {
        self.rest.calls[thread as usize].is_none()
    }

    /// Finds the object in a register for a call that uses a part of it, and its shape; or answers that call, where there
    /// is none, or none with this part, or the stop word is set.
    // (inlined, since each caller has a part of one kind and needs no code for the others)
    #[inline(always)]
    fn object_at_once(
        &self,
        thread: u32,
        op: Op,
        r: u8,
        access: Access,
    ) -> Result<(u32, Shape), StepResult>
        requires asks { MayMakeEvent (view self.now) thread op }
        requires first { call_of (view self.now) thread ≡ None }
        requires task { task_of op ≡ Some (Task.Use r access) }
        ensures goes { IfOk result (λ found. MakesEvents (view self.now)
            (with_stage (view self.now) thread op (Stage.Headed found.0 found.1 access)) thread op StepResult.Going) }
        ensures may { IfOk result
            (λ found. MayMakeEventFrom (view self.now) thread op (Stage.Headed found.0 found.1 access)) }
        ensures answers { IfErr result (λ answer. MakesEvents (view self.now) (view self.now) thread op answer) }
    {
        let address = self.register(thread, r);
        if address == 0 {
            return Err(StepResult::Answered(Reply::Nil));
        }
        if self.stop {
            return Err(self.pause(thread, op, Task::Use { r, access }));
        }
        let shape = self.heap.space.shape(address);
        if access.is_within(shape) {
            Ok((address, shape))
        } else {
            Err(StepResult::Answered(Reply::Range))
        }
    }

    /// Loads a slot of the object in a register.
    #[inline(always)]
    fn load_at_once(&mut self, thread: u32, op: Op, src: u8, dst: u8, i: u8) -> StepResult
        requires asks { MayMakeEvent (view self.old) thread op }
        requires first { call_of (view self.old) thread ≡ None }
        requires task { task_of op ≡ Some (Task.Use src (Access.Load dst i)) }
        ensures { MakesEvents (view self.old) (view self.new) thread op result }
    {
        match self.object_at_once(thread, op, src, Access::Load { dst, i }) {
            Ok((object, _)) => self.look(thread, op, Place::Field { object, i }, dst),
            Err(answer) => answer,
        }
    }

    /// Stores into a slot of the object in a register.
    #[inline(always)]
    fn store_at_once(&mut self, thread: u32, op: Op, obj: u8, i: u8, src: u8) -> StepResult
        requires asks { MayMakeEvent (view self.old) thread op }
        requires first { call_of (view self.old) thread ≡ None }
        requires task { task_of op ≡ Some (Task.Use obj (Access.Store i src)) }
        ensures { MakesEvents (view self.old) (view self.new) thread op result }
    {
        match self.object_at_once(thread, op, obj, Access::Store { i, src }) {
            Ok((object, _)) => self.store(thread, op, Place::Field { object, i }, src),
            Err(answer) => answer,
        }
    }

    /// Reads a number word of the object in a register.
    #[inline(always)]
    fn get_at_once(&mut self, thread: u32, op: Op, src: u8, j: u8) -> StepResult
        requires asks { MayMakeEvent (view self.old) thread op }
        requires first { call_of (view self.old) thread ≡ None }
        requires task { task_of op ≡ Some (Task.Use src (Access.Get j)) }
        ensures { MakesEvents (view self.old) (view self.new) thread op result }
    {
        match self.object_at_once(thread, op, src, Access::Get { j }) {
            Ok((address, shape)) => self.get(thread, op, Cell { address, shape, j }),
            Err(answer) => answer,
        }
    }

    /// Writes a number word of the object in a register.
    #[inline(always)]
    fn put_at_once(&mut self, thread: u32, op: Op, obj: u8, j: u8, v: u64) -> StepResult
        requires asks { MayMakeEvent (view self.old) thread op }
        requires first { call_of (view self.old) thread ≡ None }
        requires task { task_of op ≡ Some (Task.Use obj (Access.Put j v)) }
        ensures { MakesEvents (view self.old) (view self.new) thread op result }
    {
        match self.object_at_once(thread, op, obj, Access::Put { j, v }) {
            Ok((address, shape)) => self.put(thread, op, Cell { address, shape, j }, v),
            Err(answer) => answer,
        }
    }

    /// Makes an object, if its words do not end past the last word of the heap.
    // (inlined, since a call of it would have its result cleared in each operation, whichever that is)
    #[inline(always)]
    fn make_at_once(&mut self, thread: u32, op: Op, shape: Shape, dst: u8) -> StepResult
        requires asks { MayMakeEvent (view self.old) thread op }
        requires first { call_of (view self.old) thread ≡ None }
        requires task { task_of op ≡ Some (Task.Make dst shape) }
        ensures { MakesEvents (view self.old) (view self.new) thread op result }
    {
        match self.poll(thread, op, Task::Make { dst, shape }) {
            StepResult::Going => {}
            result => return result,
        }
        let Some(address) = self.claim_region(thread, op, shape, dst) else {
            return StepResult::Going;
        };
        let last = cost(shape) - 1;
        for stored in 0..last {
            // (nobody reads the stages between these events, so that none is written)
            self.set_word(address + 1 + stored, 0);
        }
        let claim = Claim {
            address,
            shape,
            stored: last,
            dst,
        };
        self.set_stage(thread, op, claim.stage());
        self.publish(thread, op, claim)
    }

    /// Loads a global.
    // (inlined for the same reason as `make_at_once`)
    #[inline(always)]
    fn load_global_at_once(&mut self, thread: u32, op: Op, dst: u8, g: u8) -> StepResult
        requires asks { MayMakeEvent (view self.old) thread op }
        requires first { call_of (view self.old) thread ≡ None }
        requires task { task_of op ≡ Some (Task.LoadGlobal dst g) }
        ensures { MakesEvents (view self.old) (view self.new) thread op result }
    {
        if self.stop {
            return self.pause(thread, op, Task::LoadGlobal { dst, g });
        }
        self.look(thread, op, Place::Global { g }, dst)
    }

    /// Stores into a global.
    #[inline(always)]
    fn store_global_at_once(&mut self, thread: u32, op: Op, g: u8, src: u8) -> StepResult
        requires asks { MayMakeEvent (view self.old) thread op }
        requires first { call_of (view self.old) thread ≡ None }
        requires task { task_of op ≡ Some (Task.StoreGlobal g src) }
        ensures { MakesEvents (view self.old) (view self.new) thread op result }
    {
        if self.stop {
            return self.pause(thread, op, Task::StoreGlobal { g, src });
        }
        self.store(thread, op, Place::Global { g }, src)
    }

    /// Begins the call of an operation, and makes its events one right after the other: all of them, where the call
    /// finds no word with a tag and lacks no words. It is `advance` as often as it takes, for a thread of which no call
    /// is in flight, and while no other thread goes on. Where it answers `Going`, the call is in flight, and its other
    /// events are to be made by `advance`. It uses no disk, and takes no memory.
    // (inlined, as its callers are few and make most calls)
    #[inline(always)]
    pub fn call_at_once(&mut self, thread: u32, op: Op) -> StepResult
        requires asks { MayMakeEvent (view self.old) thread op }
        requires first { call_of (view self.old) thread ≡ None }
        ensures { MakesEvents (view self.old) (view self.new) thread op result }
    {
        match op {
            Op::New { dst, refs, nums } => {
                let shape = Shape { refs, nums };
                self.make_at_once(thread, op, shape, dst)
            }
            Op::Load { dst, src, i } => self.load_at_once(thread, op, src, dst, i),
            Op::Store { obj, i, src } => self.store_at_once(thread, op, obj, i, src),
            Op::Get { src, j } => self.get_at_once(thread, op, src, j),
            Op::Put { obj, j, v } => self.put_at_once(thread, op, obj, j, v),
            Op::GLoad { dst, g } => self.load_global_at_once(thread, op, dst, g),
            Op::GStore { g, src } => self.store_global_at_once(thread, op, g, src),
            Op::Same { a, b } => self.same(thread, a, b),
            Op::Copy { dst, src } => self.copy(thread, dst, src),
            Op::Drop { r } => self.drop_register(thread, r),
            // (a collection is no call: the threads meet for it)
            Op::Collect => unreachable!(),
        }
    }
}
