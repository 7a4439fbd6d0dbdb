//! How a load brings an object back from disk while other threads run.
//!
//! It reads the forwarding words in the order of the home's search. A word that is filled never changes, so that what
//! was read stays true, and no word after an empty one names the home. Where none names it, the call reads the record,
//! claims words, and fills them with a copy that no other thread sees. One exchange of the empty word makes the copy
//! the object of the home. Of all threads that bring back one home, one wins; the others find its address in the word,
//! and their copies stay nobody's until the next collection.
ghost use Rattle.std.specs.Prelude.{◌≡◌, ℕ, ◌+◌, ◌*◌, ◌^◌, ◌<◌, ◌≤◌, false, List, [], Some};
ghost use Rattle.melt_word.specs.Words.{IsAddress, IsDiskHome, IsShape, cost_of};
ghost use Rattle.melt_word.specs.declared.header.Shape.{Shape};
ghost use Rattle.melt_word.specs.declared.reference.Ref.TheVariants.{Disk};
ghost use Rattle.melt_scion.specs.Commits.{HasBody, copy_word};
ghost use Rattle.melt_scion.specs.Heaps.{scion_in};
ghost use Rattle.melt_core.specs.Stages.{further, retried};
ghost use Rattle.melt_rule.specs.Coming.{Commits, CopyTells, Fills, ProbesShared, IsSearching};
ghost use Rattle.melt_rule.specs.Coming.{ClearStubPlay, CommitPlay, CopyPlay, FillCopyPlay, FillsPlay};
ghost use Rattle.melt_rule.specs.Coming.{HeadCopyPlay, ProbePlay, RetryPlay, probe_place};
ghost use Rattle.melt_rule.specs.Rule.{has_cause};
ghost use Rattle.melt_rule.specs.Seats.{IsSeat, knows_of};
ghost use Rattle.melt_rule.specs.Shown.{base_at};
ghost use Rattle.melt_rule.specs.Tells.{Reaches};
ghost use Rattle.melt_rule.specs.declared.view.Doing.TheVariants.{Cleared, Copied, Copying, Missed, Retrying};
ghost use Rattle.melt_rule.specs.declared.view.Doing.TheVariants.{Searching};

use crate::barrier::ALL_BUT_STALE;
use crate::view::View;
use crate::words::{FREE_AT, Seated, Words};
use atomic_table::Play;
use melt_core::call::{Activation, Search};
use melt_forward::{pack, place_of, unpack};
use melt_word::{Header, Shape, cost, encode_header};
use std::marker::{Brand, PhantomData};

/// A load of a forwarding word, in a search.
pub(crate) struct ProbeForward;

impl Play<u64, View> for ProbeForward {
    ghost then = { ProbePlay };
}

/// The same with a copy at hand.
pub(crate) struct RetryForward;

impl Play<u64, View> for RetryForward {
    ghost then = { RetryPlay };
}

/// A store of 1 into the stop word, as each forwarding word sends another home.
pub(crate) struct FillForwards;

impl Play<u64, View> for FillForwards {
    ghost then = { FillsPlay };
}

/// The stale bit of the object that a Stub names is cleared.
pub(crate) struct ClearStub;

impl Play<u64, View> for ClearStub {
    ghost then = { ClearStubPlay };
}

/// A Body that was read: its shape, and the words after its head.
pub(crate) trait ReadBody {
    ghost shape: { Shape };

    ghost rest: { List ℕ };
}

impl ReadBody for Brand {
    ghost shape = { record { refs = 0; nums = 0 } };

    ghost rest = { [] };
}

/// A claim of words for a copy of a Body.
pub(crate) struct ClaimCopy<B: ReadBody> {
    body: PhantomData<B>,
}

impl<B: ReadBody> Play<u64, View> for ClaimCopy<B> {
    ghost then = { CopyPlay B.shape B.rest };
}

/// A store of a word of a copy, after its header.
pub(crate) struct FillCopy;

impl Play<u64, View> for FillCopy {
    ghost then = { FillCopyPlay };
}

/// A store of the header of a copy.
pub(crate) struct HeadCopy;

impl Play<u64, View> for HeadCopy {
    ghost then = { HeadCopyPlay };
}

/// An exchange of a forwarding word that was empty with that of a copy.
pub(crate) struct Commit;

impl Play<u64, View> for Commit {
    ghost then = { CommitPlay };
}

impl Words {
    /// Where the next forwarding word of a search stands.
    fn forward_at(&self, search: Search) -> usize
        requires { search.tried < self.now.start.began.forwards }
        ensures at { result ≡ probe_place self.now.start.began search }
        ensures within { result < self.now.id.words }
    {
        self.forwards_at + place_of(search.home, search.tried, self.forwards)
    }

    /// Reads the next forwarding word in the search for a home, and answers which home it sends, and to which address.
    pub fn probe(&self, seat: &mut Seated, search: Search) -> Option<(u32, u32)>
        requires seat { IsSeat self.now seat.old }
        requires searching { (knows_of seat.old).doing ≡ Some (Searching search) }
        requires more { search.tried < self.now.start.began.forwards }
        ensures seat { IsSeat self.now seat.new }
        ensures probes { ProbesShared (knows_of seat.old) (knows_of seat.new) search (Missed search)
            (Searching (further search)) result }
    {
        let at = self.forward_at(search);
        unpack(self.table.shared.load::<ProbeForward>(seat, at))
    }

    /// The same with a copy at hand, after a word that another home took.
    pub fn retry(&self, seat: &mut Seated, activation: Activation) -> Option<(u32, u32)>
        requires seat { IsSeat self.now seat.old }
        requires retrying { (knows_of seat.old).doing ≡ Some (Retrying activation) }
        requires more { activation.search.tried < self.now.start.began.forwards }
        ensures seat { IsSeat self.now seat.new }
        ensures probes { ProbesShared (knows_of seat.old) (knows_of seat.new) activation.search (Copied activation)
            (Retrying (retried activation)) result }
    {
        let at = self.forward_at(activation.search);
        unpack(self.table.shared.load::<RetryForward>(seat, at))
    }

    /// Sets the stop word, as the search read all forwarding words, and each sends another home.
    pub fn stop_filled(&self, seat: &mut Seated, search: Search)
        requires seat { IsSeat self.now seat.old }
        requires searches { IsSearching (knows_of seat.old) search }
        requires all { self.now.start.began.forwards ≤ search.tried }
        ensures seat { IsSeat self.now seat.new }
        ensures fills { Fills (knows_of seat.old) (knows_of seat.new) }
    {
        self.table.shared.store::<FillForwards>(seat, 0, 1);
    }

    /// Clears the stale bit of the object at the target, to which the live scion of a Stub leads that was read.
    pub fn clear_stub(&self, seat: &mut Seated, search: Search, scion: u32, target: u32)
        requires seat { IsSeat self.now seat.old }
        requires missed { (knows_of seat.old).doing ≡ Some (Missed search) }
        requires live { scion_in self.now.start.began.scions scion
            ≡ Some (record { home = search.home; address = target }) }
        requires within { target ≤ self.now.start.began.size }
        ensures seat { IsSeat self.now seat.new }
        ensures clears { Reaches (knows_of seat.old) (knows_of seat.new)
            (Some (Cleared search.place (Disk search.home) target)) }
    {
        let at = self.before + target as usize;
        self.table
            .shared
            .fetch_and::<ClearStub>(seat, at, ALL_BUT_STALE);
    }

    /// Claims the words for a copy of a Body, and answers the address of the first. Where they end past the last word
    /// it answers none, and the thread has a cause to stop.
    pub fn claim_copy(
        &self,
        seat: &mut Seated,
        search: Search,
        shape: Shape,
        rest: &[u64],
    ) -> Option<u32>
        requires seat { IsSeat self.now seat.old }
        requires missed { (knows_of seat.old).doing ≡ Some (Missed search) }
        requires no_cause { has_cause (knows_of seat.old) ≡ false }
        requires body { HasBody self.now.start.began.told (base_at self.now.start.began) search.home shape rest.now }
        ensures seat { IsSeat self.now seat.new }
        ensures tells { CopyTells (knows_of seat.old) (knows_of seat.new) search shape rest.now result }
    {
        self.claim_body::<Brand>(seat, search, shape, rest)
    }

    /// The same, by a type that stands for the Body.
    fn claim_body<B: ReadBody>(
        &self,
        seat: &mut Seated,
        search: Search,
        shape: Shape,
        rest: &[u64],
    ) -> Option<u32>
        requires is_shape { B.shape ≡ shape }
        requires is_rest { B.rest ≡ rest.now }
        requires seat { IsSeat self.now seat.old }
        requires missed { (knows_of seat.old).doing ≡ Some (Missed search) }
        requires no_cause { has_cause (knows_of seat.old) ≡ false }
        requires body { HasBody self.now.start.began.told (base_at self.now.start.began) search.home shape rest.now }
        ensures seat { IsSeat self.now seat.new }
        ensures tells { CopyTells (knows_of seat.old) (knows_of seat.new) search shape rest.now result }
    {
        let need = u64::from(cost(shape));
        let found = self
            .table
            .shared
            .fetch_add::<ClaimCopy<B>>(seat, FREE_AT, need);
        // A fetch-and-add does not look first. Words that it takes past the last one are nobody's till a collection.
        if found + need > u64::from(self.size) + 1 {
            return None;
        }
        Some(found as u32)
    }

    /// Stores the next word of a copy, of which `stored` words after the header are stored.
    pub fn fill_copy(&self, seat: &mut Seated, activation: Activation, stored: u32, word: u64)
        requires seat { IsSeat self.now seat.old }
        requires copying { (knows_of seat.old).doing ≡ Some (Copying activation stored) }
        requires next { stored + 1 < cost_of activation.shape }
        requires word { word ≡ copy_word activation.search.home activation.shape (knows_of seat.old).rest (stored + 1) }
        ensures seat { IsSeat self.now seat.new }
        ensures fills { Reaches (knows_of seat.old) (knows_of seat.new) (Some (Copying activation (stored + 1))) }
    {
        let at = self.before + activation.address as usize + 1 + stored as usize;
        self.table.shared.store::<FillCopy>(seat, at, word);
    }

    /// Stores the header of a copy, whose other words are stored.
    pub fn head_copy(&self, seat: &mut Seated, activation: Activation)
        requires seat { IsSeat self.now seat.old }
        requires copying { (stored : ℕ) × ((knows_of seat.old).doing ≡ Some (Copying activation stored))
            × (stored + 1 ≡ cost_of activation.shape) }
        ensures seat { IsSeat self.now seat.new }
        ensures heads { Reaches (knows_of seat.old) (knows_of seat.new) (Some (Copied activation)) }
    {
        let header = encode_header(Header {
            shape: activation.shape,
            stale: false,
        });
        let at = self.before + activation.address as usize;
        self.table.shared.store::<HeadCopy>(seat, at, header);
    }

    /// Exchanges the forwarding word that was empty with that of the copy, where it still is. Answers what the word
    /// sent before: none where the copy is the object of its home now.
    pub fn commit(&self, seat: &mut Seated, activation: Activation) -> Option<(u32, u32)>
        requires seat { IsSeat self.now seat.old }
        requires copied { (knows_of seat.old).doing ≡ Some (Copied activation) }
        ensures seat { IsSeat self.now seat.new }
        ensures commits { Commits (knows_of seat.old) (knows_of seat.new) activation result }
    {
        let Activation {
            search,
            address,
            ..
        } = activation;
        let at = self.forward_at(search);
        let shared = &self.table.shared;
        let new = pack(search.home, address);
        // Only from 0: a word that is filled stays, which is what lets all threads read it without a lock.
        unpack(shared.compare_exchange::<Commit>(seat, at, 0, new))
    }
}
