//! One event of a call: which it is, by the stage that the call has reached.
//!
//! Most calls go from the stop word to the header or the claim, and end there: that is the fast path. A load that finds
//! a word with a tag, and a call that lacks words, leave it.
ghost use Rattle.std.specs.Prelude.{◌≡◌, Some};
ghost use Rattle.melt_record.specs.declared.damage.Damaged.{Damaged};
ghost use Rattle.melt_core.specs.Advances.{Advances, IsDamage, MayAdvance, MayMakeEvent, MayMakeEventFrom, MakesEvent};
ghost use Rattle.melt_core.specs.Advances.{MakesEventFrom, Uses};
ghost use Rattle.melt_core.specs.Stages.{ComesBack, IsSlow, NeedsNoRead};
ghost use Rattle.melt_core.specs.Views.{stage_of, view};

use crate::answer::{Refusal, StepResult};
use crate::call::{Access, Place, Stage, Task};
use crate::load::Looked;
use crate::machine::Core;
use crate::make::Claim;
use crate::parts::Cell;
use melt_io::RecordReader;
use melt_model::Op;
use melt_word::{Shape, cost};

impl Core {
    /// The event after the stop word was read.
    // (inlined, so that no result is written to memory)
    #[inline(always)]
    fn after_poll(&mut self, thread: u32, op: Op, task: Task) -> StepResult
        requires asks { MayMakeEvent (view self.old) thread op }
        requires stage { stage_of (view self.old) thread ≡ Some (Stage.Polled task) }
        ensures { MakesEvent (view self.old) (view self.new) thread op result }
    {
        match task {
            Task::Make { dst, shape } => self.claim(thread, op, shape, dst),
            Task::Use { r, access } => self.head(thread, op, r, access),
            Task::LoadGlobal { dst, g } => self.look(thread, op, Place::Global { g }, dst),
            Task::StoreGlobal { g, src } => self.store(thread, op, Place::Global { g }, src),
        }
    }

    /// The event after the header of an object was read.
    // (inlined, so that no result is written to memory)
    #[inline(always)]
    fn after_head(
        &mut self,
        thread: u32,
        op: Op,
        address: u32,
        shape: Shape,
        access: Access,
    ) -> StepResult
        requires { MayMakeEventFrom (view self.old) thread op (Stage.Headed address shape access) }
        ensures { MakesEventFrom (view self.old) (view self.new) thread op (Stage.Headed address shape access) result }
    {
        let object = address;
        match access {
            Access::Load { dst, i } => self.look(thread, op, Place::Field { object, i }, dst),
            Access::Store { i, src } => self.store(thread, op, Place::Field { object, i }, src),
            Access::Get { j } => self.get(thread, op, Cell { address, shape, j }),
            Access::Put { j, v } => self.put(thread, op, Cell { address, shape, j }, v),
        }
    }

    /// The event of a load that found a home, without the disk.
    fn after_search(&mut self, thread: u32, op: Op, stage: Stage) -> StepResult
        requires asks { MayMakeEvent (view self.old) thread op }
        requires stage { stage_of (view self.old) thread ≡ Some stage }
        requires comes_back { ComesBack stage }
        ensures { MakesEvent (view self.old) (view self.new) thread op result }
    {
        match stage {
            Stage::Searching { search } => self.search(thread, op, search),
            Stage::BodyRead { search, shape } => self.claim_copy(thread, op, search, shape),
            Stage::Copying { activation, stored } => {
                self.store_copy(thread, op, activation, stored)
            }
            Stage::Copied { activation } => self.commit(thread, op, activation),
            Stage::Retrying { activation } => self.retry(thread, op, activation),
            Stage::LackingCopy { shape, .. } => self.lack(thread, op, cost(shape)),
            _ => unreachable!(),
        }
    }

    /// The event of a call that lacks words, or of a load that found a word with a tag, without the disk.
    fn after_tag(&mut self, thread: u32, op: Op, stage: Stage) -> StepResult
        requires asks { MayMakeEvent (view self.old) thread op }
        requires stage { stage_of (view self.old) thread ≡ Some stage }
        requires slow { IsSlow (Some stage) }
        requires no_read { NeedsNoRead (Some stage) }
        ensures { MakesEvent (view self.old) (view self.new) thread op result }
    {
        match stage {
            Stage::Looked {
                place,
                found,
                target,
                dst,
            } => {
                let looked = Looked {
                    place,
                    found,
                    target,
                    dst,
                };
                self.clear(thread, op, looked)
            }
            Stage::Cleared {
                place,
                found,
                target,
                dst,
            } => {
                let looked = Looked {
                    place,
                    found,
                    target,
                    dst,
                };
                self.untag(thread, op, looked)
            }
            Stage::Lacking { need } => self.lack(thread, op, need),
            stage => self.after_search(thread, op, stage),
        }
    }

    /// The event of a call on the slow path.
    // (not inlined, and told no stage, so that the fast path has neither registers nor a stage to save for it)
    #[inline(never)]
    fn advance_slowly<R: RecordReader>(
        &mut self,
        thread: u32,
        op: Op,
        end: u32,
        reader: &mut R,
    ) -> StepResult
        requires may { MayAdvance end (view self.old) thread op }
        requires slow { IsSlow (stage_of (view self.old) thread) }
        ensures advances { Advances end (R.image reader.old) (view self.old) (view self.new) thread op result }
        ensures uses { Uses (view self.old) (view self.new) thread result (R.faults reader.old) (R.faults reader.new)
            (R.reads reader.old) (R.reads reader.new) }
        ensures unused { NeedsNoRead (stage_of (view self.old) thread) → reader.new ≡ reader.old }
        ensures image { R.image reader.new ≡ R.image reader.old }
        ensures damage { (damaged : Damaged) → result ≡ StepResult.Refused (Refusal.Damaged damaged)
            → IsDamage (R.image reader.old) end (view self.old) thread damaged }
    {
        let Some(call) = &self.rest.calls[thread as usize] else {
            unreachable!();
        };
        match call.stage {
            Stage::Missed { search } => self.read_head(thread, op, end, search, reader),
            Stage::HeadRead { search, shape } => {
                self.read_rest(thread, op, end, search, shape, reader)
            }
            stage => self.after_tag(thread, op, stage),
        }
    }

    /// Makes one event of a thread: begins the call of an operation, or goes on with the one that is in flight, which
    /// is to be of the same operation. An answer changes the registers and the history as the operation does; a refused
    /// call changes neither. It takes no memory.
    ///
    /// The disk ends at word `end`, past all homes. The reader is used only where the record of a home is to be read:
    /// at most twice in a call, and once where the object left a Stub there or has no slots and numbers.
    // (inlined, so that no result is written to memory)
    #[inline(always)]
    pub fn advance<R: RecordReader>(
        &mut self,
        thread: u32,
        op: Op,
        end: u32,
        reader: &mut R,
    ) -> StepResult
        requires { MayAdvance end (view self.old) thread op }
        ensures advances { Advances end (R.image reader.old) (view self.old) (view self.new) thread op result }
        ensures uses { Uses (view self.old) (view self.new) thread result (R.faults reader.old) (R.faults reader.new)
            (R.reads reader.old) (R.reads reader.new) }
        ensures unused { NeedsNoRead (stage_of (view self.old) thread) → reader.new ≡ reader.old }
        ensures image { R.image reader.new ≡ R.image reader.old }
        ensures damage { (damaged : Damaged) → result ≡ StepResult.Refused (Refusal.Damaged damaged)
            → IsDamage (R.image reader.old) end (view self.old) thread damaged }
    {
        let Some(call) = &self.rest.calls[thread as usize] else {
            return self.begin_call(thread, op);
        };
        match call.stage {
            Stage::Polled { task } => self.after_poll(thread, op, task),
            Stage::Headed {
                address,
                shape,
                access,
            } => self.after_head(thread, op, address, shape, access),
            Stage::Claimed {
                address,
                shape,
                stored,
                dst,
            } => {
                let claim = Claim {
                    address,
                    shape,
                    stored,
                    dst,
                };
                self.fill(thread, op, claim)
            }
            _ => self.advance_slowly(thread, op, end, reader),
        }
    }
}
