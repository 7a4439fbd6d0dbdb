//! How an object is made while other threads run: bump allocation in events.
//!
//! The claim moves the first free place on, and from then on the words belong to one thread. It stores 0 in all of them
//! but the first, and the header last: with that word the object is there, whole.
ghost use Rattle.std.specs.Prelude.{◌≡◌, ◌+◌, ◌<◌, Some, IfSome};
ghost use Rattle.melt_word.specs.Words.{cost_of};
ghost use Rattle.melt_core.specs.Advances.{MakesEvent, MayMakeEvent};
ghost use Rattle.melt_core.specs.Stages.{Lacks};
ghost use Rattle.melt_core.specs.Views.{stage_of, view};

use crate::answer::{Pause, Refusal, StepResult};
use crate::call::{Stage, Task};
use crate::machine::Core;
use crate::parts::{Deed, Naming};
use melt_model::{Op, Reply};
use melt_word::{Header, Shape, cost, encode_header};

/// The words that a call claimed, from the address on, for a new object of the shape, which is to come into register
/// `dst`. So many of those after the header were stored.
#[derive(Clone, Copy)]
pub(crate) struct Claim {
    pub(crate) address: u32,
    pub(crate) shape: Shape,
    pub(crate) stored: u32,
    pub(crate) dst: u8,
}

impl Claim {
    /// The stage of the call.
    pub(crate) fn stage(self) -> Stage
        ensures { result ≡ Stage.Claimed self.address self.shape self.stored self.dst }
    {
        let Claim {
            address,
            shape,
            stored,
            dst,
        } = self;
        Stage::Claimed {
            address,
            shape,
            stored,
            dst,
        }
    }
}

impl Core {
    /// Claims the words for an object, and answers their address, if they do not end past the last word of the heap.
    pub(crate) fn claim_region(&mut self, thread: u32, op: Op, shape: Shape, dst: u8) -> Option<u32>
        requires asks { MayMakeEvent (view self.old) thread op }
        requires stage { stage_of (view self.old) thread ≡ Some (Stage.Polled (Task.Make dst shape)) }
        ensures moves { MakesEvent (view self.old) (view self.new) thread op StepResult.Going }
        ensures claimed { IfSome result (λ address. stage_of (view self.new) thread
            ≡ Some (Stage.Claimed address shape 0 dst)) }
    {
        let need = cost(shape);
        match self.claim_words(need) {
            Some(address) => {
                let stage = Stage::Claimed {
                    address,
                    shape,
                    stored: 0,
                    dst,
                };
                self.set_stage(thread, op, stage);
                Some(address)
            }
            None => {
                self.set_stage(thread, op, Stage::Lacking { need });
                None
            }
        }
    }

    /// The event of a call that claims the words for an object.
    // (inlined, so that no result is written to memory)
    #[inline(always)]
    pub(crate) fn claim(&mut self, thread: u32, op: Op, shape: Shape, dst: u8) -> StepResult
        requires asks { MayMakeEvent (view self.old) thread op }
        requires stage { stage_of (view self.old) thread ≡ Some (Stage.Polled (Task.Make dst shape)) }
        ensures { MakesEvent (view self.old) (view self.new) thread op result }
    {
        self.claim_region(thread, op, shape, dst);
        StepResult::Going
    }

    /// Stores 0 in the next word of the region of a call.
    pub(crate) fn store_zero(&mut self, thread: u32, op: Op, claim: Claim)
        requires asks { MayMakeEvent (view self.old) thread op }
        requires stage { stage_of (view self.old) thread
            ≡ Some (Stage.Claimed claim.address claim.shape claim.stored claim.dst) }
        requires few { claim.stored + 1 < cost_of claim.shape }
        ensures moves { MakesEvent (view self.old) (view self.new) thread op StepResult.Going }
        ensures stored { stage_of (view self.new) thread
            ≡ Some (Stage.Claimed claim.address claim.shape (claim.stored + 1) claim.dst) }
    {
        let Claim {
            address,
            shape,
            stored,
            dst,
        } = claim;
        self.set_word(address + 1 + stored, 0);
        let stage = Stage::Claimed {
            address,
            shape,
            stored: stored + 1,
            dst,
        };
        self.set_stage(thread, op, stage);
    }

    /// Stores the header: the words are an object now, which has the next number.
    // (inlined, so that no result is written to memory)
    #[inline(always)]
    pub(crate) fn publish(&mut self, thread: u32, op: Op, claim: Claim) -> StepResult
        requires asks { MayMakeEvent (view self.old) thread op }
        requires stage { stage_of (view self.old) thread
            ≡ Some (Stage.Claimed claim.address claim.shape claim.stored claim.dst) }
        requires all { claim.stored + 1 ≡ cost_of claim.shape }
        ensures { MakesEvent (view self.old) (view self.new) thread op result }
    {
        let Claim {
            address,
            shape,
            dst,
            ..
        } = claim;
        let header = Header {
            shape,
            stale: false,
        };
        self.set_word(address, encode_header(header));
        // (each object has an entry in the history, of fewer than 2^32, so that its number fits)
        let number = self.rest.made as u32;
        self.name(address, Naming::Own { number });
        self.rest.made += 1;
        self.note(thread, Deed::Make { shape });
        self.set_register(thread, dst, address);
        self.set_call(thread, None);
        StepResult::Answered(Reply::Done)
    }

    /// Stores the next word of the region of a call, the header last.
    // (inlined, so that no result is written to memory)
    #[inline(always)]
    pub(crate) fn fill(&mut self, thread: u32, op: Op, claim: Claim) -> StepResult
        requires asks { MayMakeEvent (view self.old) thread op }
        requires stage { stage_of (view self.old) thread
            ≡ Some (Stage.Claimed claim.address claim.shape claim.stored claim.dst) }
        ensures { MakesEvent (view self.old) (view self.new) thread op result }
    {
        if claim.stored + 1 < cost(claim.shape) {
            self.store_zero(thread, op, claim);
            return StepResult::Going;
        }
        self.publish(thread, op, claim)
    }

    /// Sets the stop word, as the words that were claimed end past the last one.
    pub(crate) fn lack(&mut self, thread: u32, op: Op, need: u32) -> StepResult
        requires asks { MayMakeEvent (view self.old) thread op }
        requires stage { Lacks (stage_of (view self.old) thread) need }
        ensures { MakesEvent (view self.old) (view self.new) thread op result }
    {
        self.stop = true;
        self.set_call(thread, None);
        StepResult::Refused(Refusal::Pause(Pause::Space { need }))
    }
}
