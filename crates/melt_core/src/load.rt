//! Reads of objects and globals, and the read barrier.
//!
//! A load looks at a word once. One without a tag is answered at once: that is the fast path. A stale address takes the
//! slow path, one event after the other: the stale bit of the object is cleared first, and then the word is exchanged
//! for the clean one, if it is still what was found. So no clean address is ever that of an object with the stale bit,
//! and the word that the exchange finds is always one that may be answered: a word with a tag can only have become one
//! without. Where the word was a home, its object is searched for first, and made if it must be: `probing`, `record`
//! and `body` have those events.
ghost use Rattle.std.specs.Prelude.{◌≡◌, ◌<◌, length, Some, None, IfSome, IfNone};
ghost use Rattle.melt_scion.specs.Heaps.{OnDisk};
ghost use Rattle.melt_core.specs.Advances.{MayMakeEvent, MayMakeEventFrom, MakesEvent, MakesEventFrom};
ghost use Rattle.melt_core.specs.Changed.{HasPlace, HasRead, HasRoomForEntry, HoldsRef, IsNamedOrNone, StandsAt};
ghost use Rattle.melt_core.specs.Known.{word_in};
ghost use Rattle.melt_core.specs.Stages.{LooksFrom};
ghost use Rattle.melt_core.specs.Views.{stage_of, state, view};

use crate::answer::StepResult;
use crate::call::{Access, Call, Place, Search, Stage, Task};
use crate::machine::Core;
use crate::parts::{Cell, Deed, Touched, reference, reply_for};
use melt_model::{Op, Reply};
use melt_word::{Header, Ref, Shape, encode_header, encode_ref};

/// What a load found that takes the slow path: a reference with a tag at the place, for register `dst`. Its object is
/// at the address `target`.
#[derive(Clone, Copy)]
pub(crate) struct Looked {
    pub(crate) place: Place,
    pub(crate) found: Ref,
    pub(crate) target: u32,
    pub(crate) dst: u8,
}

impl Core {
    /// The event of a call that reads the header of the object in a register.
    // (inlined, so that no result is written to memory)
    #[inline(always)]
    pub(crate) fn head(&mut self, thread: u32, op: Op, r: u8, access: Access) -> StepResult
        requires asks { MayMakeEvent (view self.old) thread op }
        requires stage { stage_of (view self.old) thread ≡ Some (Stage.Polled (Task.Use r access)) }
        ensures { MakesEvent (view self.old) (view self.new) thread op result }
    {
        let address = self.register(thread, r);
        let shape = self.heap.space.shape(address);
        if !access.is_within(shape) {
            self.set_call(thread, None);
            return StepResult::Answered(Reply::Range);
        }
        let stage = Stage::Headed {
            address,
            shape,
            access,
        };
        self.set_stage(thread, op, stage);
        StepResult::Going
    }

    /// Reads a number word of an object.
    // (inlined, so that no result is written to memory)
    #[inline(always)]
    pub(crate) fn get(&mut self, thread: u32, op: Op, cell: Cell) -> StepResult
        requires { MayMakeEventFrom (view self.old) thread op
            (Stage.Headed cell.address cell.shape (Access.Get cell.j)) }
        ensures { MakesEventFrom (view self.old) (view self.new) thread op
            (Stage.Headed cell.address cell.shape (Access.Get cell.j)) result }
    {
        let Cell { address, shape, j } = cell;
        let at = address + 2 + u32::from(shape.refs) + u32::from(j);
        let number = self.heap.space.word(at);
        let touched = Touched::Number {
            object: address,
            j,
            number,
        };
        self.note(thread, Deed::Read { touched });
        self.set_call(thread, None);
        StepResult::Answered(Reply::Num(number))
    }

    /// The reference at a place.
    // (inlined for the same reason as `look`)
    #[inline(always)]
    fn reference_in(&self, place: Place) -> Ref
        requires { StandsAt (view self.now) place }
        ensures { (disk : OnDisk) → HoldsRef (word_in (state disk (view self.now)) place) result }
    {
        reference(self.word_in(place))
    }

    /// Answers a load with the object at an address, or with none where that is 0.
    // (inlined for the same reason as `look`)
    #[inline(always)]
    fn read(&mut self, thread: u32, place: Place, dst: u8, address: u32) -> StepResult
        requires thread { thread < length (view self.old).held }
        requires calls { thread < length (view self.old).calls }
        requires small { thread < 256 }
        requires register { dst < 16 }
        requires room { HasRoomForEntry (view self.old) }
        requires place { HasPlace (view self.old) place }
        requires named { IsNamedOrNone (view self.old) address }
        ensures { HasRead (view self.old) (view self.new) thread place dst address result }
    {
        let touched = Touched::Reference { place, address };
        self.note(thread, Deed::Read { touched });
        self.set_register(thread, dst, address);
        self.set_call(thread, None);
        StepResult::Answered(reply_for(address))
    }

    /// Looks at the word at a place.
    // (inlined, since each caller has a place of one kind and needs no code for the other)
    #[inline(always)]
    pub(crate) fn look(&mut self, thread: u32, op: Op, place: Place, dst: u8) -> StepResult
        requires { (stage : Stage) × LooksFrom (Some stage) place dst
            × MayMakeEventFrom (view self.old) thread op stage }
        ensures { (stage : Stage) → LooksFrom (Some stage) place dst → MayMakeEventFrom (view self.old) thread op stage
            → MakesEventFrom (view self.old) (view self.new) thread op stage result }
    {
        match self.reference_in(place) {
            Ref::Null => self.read(thread, place, dst, 0),
            Ref::Clean(address) => self.read(thread, place, dst, address),
            Ref::Stale(target) => {
                let found = Ref::Stale(target);
                let stage = Stage::Looked {
                    place,
                    found,
                    target,
                    dst,
                };
                self.set_call(thread, Some(Call { op, stage }));
                StepResult::Going
            }
            Ref::Disk(home) => {
                let search = Search {
                    place,
                    home,
                    tried: 0,
                    dst,
                };
                let stage = Stage::Searching { search };
                self.set_call(thread, Some(Call { op, stage }));
                StepResult::Going
            }
        }
    }

    /// Clears the stale bit of the object that a load found.
    pub(crate) fn clear(&mut self, thread: u32, op: Op, looked: Looked) -> StepResult
        requires asks { MayMakeEvent (view self.old) thread op }
        requires stage { stage_of (view self.old) thread ≡ Some
            (Stage.Looked looked.place looked.found looked.target looked.dst) }
        ensures { MakesEvent (view self.old) (view self.new) thread op result }
    {
        let Looked {
            place,
            found,
            target,
            dst,
        } = looked;
        // Nothing but this bit of a header ever changes, and it is only ever cleared in an epoch, so that a plain store
        // will do.
        let header = Header {
            shape: self.heap.space.shape(target),
            stale: false,
        };
        self.set_word(target, encode_header(header));
        let stage = Stage::Cleared {
            place,
            found,
            target,
            dst,
        };
        self.set_stage(thread, op, stage);
        StepResult::Going
    }

    /// Exchanges the word at a place for that of the clean address, if it is still that which was found. The load is
    /// answered with the reference that stands there then.
    pub(crate) fn untag(&mut self, thread: u32, op: Op, looked: Looked) -> StepResult
        requires asks { MayMakeEvent (view self.old) thread op }
        requires stage { stage_of (view self.old) thread ≡ Some
            (Stage.Cleared looked.place looked.found looked.target looked.dst) }
        ensures { MakesEvent (view self.old) (view self.new) thread op result }
    {
        let Looked {
            place,
            target,
            dst,
            ..
        } = looked;
        match self.reference_in(place) {
            Ref::Null => self.read(thread, place, dst, 0),
            Ref::Clean(current) => self.read(thread, place, dst, current),
            // A word with a tag never becomes another one with a tag, so that this is the word of the look.
            Ref::Stale(_) | Ref::Disk(_) => {
                self.set_word_in(place, encode_ref(Ref::Clean(target)));
                self.read(thread, place, dst, target)
            }
        }
    }
}
