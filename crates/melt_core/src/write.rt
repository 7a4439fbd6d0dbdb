//! Writes to objects and globals.
//!
//! A register never holds an object with the stale bit, so that what is written needs no tag. The entry of the history
//! and the word are written in one event: no other thread can come between.
ghost use Rattle.std.specs.Prelude.{◌≡◌, Some};
ghost use Rattle.melt_core.specs.Advances.{MayMakeEventFrom, MakesEventFrom};
ghost use Rattle.melt_core.specs.Stages.{StoresFrom};
ghost use Rattle.melt_core.specs.Views.{view};

use crate::answer::StepResult;
use crate::call::{Access, Place, Stage};
use crate::machine::Core;
use crate::parts::{Cell, Deed, Touched};
use melt_model::{Op, Reply};
use melt_word::held_word;

impl Core {
    /// Writes what a register holds into a slot of an object, or into a global.
    // (inlined for the same reason as `look`)
    #[inline(always)]
    pub(crate) fn store(&mut self, thread: u32, op: Op, place: Place, src: u8) -> StepResult
        requires { (stage : Stage) × StoresFrom (Some stage) place src
            × MayMakeEventFrom (view self.old) thread op stage }
        ensures { (stage : Stage) → StoresFrom (Some stage) place src → MayMakeEventFrom (view self.old) thread op stage
            → MakesEventFrom (view self.old) (view self.new) thread op stage result }
    {
        let address = self.register(thread, src);
        self.set_word_in(place, held_word(address));
        let touched = Touched::Reference { place, address };
        self.note(thread, Deed::Write { touched });
        self.set_call(thread, None);
        StepResult::Answered(Reply::Done)
    }

    /// Writes a number word of an object.
    // (inlined, so that no result is written to memory)
    #[inline(always)]
    pub(crate) fn put(&mut self, thread: u32, op: Op, cell: Cell, number: u64) -> StepResult
        requires { MayMakeEventFrom (view self.old) thread op
            (Stage.Headed cell.address cell.shape (Access.Put cell.j number)) }
        ensures { MakesEventFrom (view self.old) (view self.new) thread op
            (Stage.Headed cell.address cell.shape (Access.Put cell.j number)) result }
    {
        let Cell { address, shape, j } = cell;
        let at = address + 2 + u32::from(shape.refs) + u32::from(j);
        self.set_word(at, number);
        let touched = Touched::Number {
            object: address,
            j,
            number,
        };
        self.note(thread, Deed::Write { touched });
        self.set_call(thread, None);
        StepResult::Answered(Reply::Done)
    }
}
