//! The search for the object of a home, and the commit of a copy of it.
//!
//! A load that finds a home reads the forwarding words in the order of the home's search, one in each event. A word
//! that is filled never changes, so that what was read stays true; and no word after an empty one names the home. So
//! all threads that look for one home come to the same empty word, and of those that exchange it with a copy of the
//! object at hand, one wins. The others find its address there, and drop their copies.
ghost use Rattle.std.specs.Prelude.{◌≡◌, ◌↔◌, ◌<◌, ◌≤◌, ◌^◌, length, IsSome, IsTrue, Some};
ghost use Rattle.melt_word.specs.Words.{IsDiskHome};
ghost use Rattle.melt_core.specs.Advances.{MakesEvent, MayMakeEvent};
ghost use Rattle.melt_core.specs.Changed.{CanProbe, HasEntered, TellsOf, probed_place};
ghost use Rattle.melt_core.specs.Stages.{SearchesOn};
ghost use Rattle.melt_core.specs.Views.{numbers_of, stage_of, view};

use crate::answer::{Pause, Refusal, StepResult};
use crate::call::{Activation, Search, Stage};
use crate::machine::Core;
use crate::parts::Naming;
use melt_forward::{pack, place_of, unpack};
use melt_model::Op;

/// What the forwarding word that a search has come to tells of its home.
#[derive(Clone, Copy)]
pub(crate) enum Probe {
    /// It sends the home to this address.
    At(u32),
    /// It is empty.
    Empty,
    /// It sends another home.
    Another,
}

impl Core {
    /// Whether a search has read all forwarding words.
    fn is_over(&self, search: Search) -> bool
        ensures { IsTrue result ↔ (length (view self.now).forward ≤ search.tried) }
    {
        search.tried as usize >= self.heap.forward.items.len()
    }

    /// Where the forwarding word stands that a search has come to.
    fn place(&self, search: Search) -> usize
        requires { search.tried < length (view self.now).forward }
        ensures place { result ≡ probed_place (view self.now) search }
        ensures within { result < length (view self.now).forward }
    {
        place_of(search.home, search.tried, self.heap.forward.items.len())
    }

    /// Reads the forwarding word that a search has come to.
    fn probe(&self, search: Search) -> Probe
        requires { CanProbe (view self.now) search }
        ensures { TellsOf (view self.now) search result }
    {
        match unpack(self.heap.forward.items[self.place(search)]) {
            None => Probe::Empty,
            Some((home, address)) if home == search.home => Probe::At(address),
            Some(_) => Probe::Another,
        }
    }

    /// Sets the stop word, as each forwarding word sends another home. The collection that comes empties them.
    fn pause_full(&mut self, thread: u32, op: Op, search: Search) -> StepResult
        requires asks { MayMakeEvent (view self.old) thread op }
        requires stage { SearchesOn (stage_of (view self.old) thread) search }
        requires all { length (view self.old).forward ≤ search.tried }
        ensures { MakesEvent (view self.old) (view self.new) thread op result }
    {
        self.stop = true;
        self.set_call(thread, None);
        StepResult::Refused(Refusal::Pause(Pause::Forward))
    }

    /// Reads the next forwarding word in the search for a home.
    pub(crate) fn search(&mut self, thread: u32, op: Op, search: Search) -> StepResult
        requires asks { MayMakeEvent (view self.old) thread op }
        requires stage { stage_of (view self.old) thread ≡ Some (Stage.Searching search) }
        ensures { MakesEvent (view self.old) (view self.new) thread op result }
    {
        if self.is_over(search) {
            return self.pause_full(thread, op, search);
        }
        let stage = match self.probe(search) {
            Probe::At(address) => search.reached(address),
            Probe::Empty => Stage::Missed { search },
            Probe::Another => Stage::Searching {
                search: search.further(),
            },
        };
        self.set_stage(thread, op, stage);
        StepResult::Going
    }

    /// Reads the next forwarding word with a copy at hand, after one that went to another home.
    pub(crate) fn retry(&mut self, thread: u32, op: Op, activation: Activation) -> StepResult
        requires asks { MayMakeEvent (view self.old) thread op }
        requires stage { stage_of (view self.old) thread ≡ Some (Stage.Retrying activation) }
        ensures { MakesEvent (view self.old) (view self.new) thread op result }
    {
        let search = activation.search;
        if self.is_over(search) {
            return self.pause_full(thread, op, search);
        }
        let stage = match self.probe(search) {
            Probe::At(address) => search.reached(address),
            Probe::Empty => Stage::Copied { activation },
            Probe::Another => Stage::Retrying {
                activation: activation.retried(),
            },
        };
        self.set_stage(thread, op, stage);
        StepResult::Going
    }

    /// Makes the copy the object of the home: the forwarding word that its search came to sends the home there. The
    /// object keeps its number; one that has none, which a disk that returns what was written never gives, has the
    /// number 0.
    fn enter(&mut self, activation: Activation)
        requires probed { CanProbe (view self.old) activation.search }
        requires address { 1 ≤ activation.address }
        requires within { activation.address ≤ length (numbers_of (view self.old).names) }
        requires small { length (numbers_of (view self.old).names) < 2 ^ 30 }
        requires home { IsDiskHome activation.search.home }
        requires named { IsSome (view self.old).names }
        ensures { HasEntered (view self.old) (view self.new) activation }
    {
        let Activation {
            search,
            address,
            ..
        } = activation;
        let place = self.place(search);
        self.heap.forward.items[place] = pack(search.home, address);
        self.name(address, Naming::Home { home: search.home });
    }

    /// Exchanges the forwarding word that was empty, if it still is. Whoever is first has made the object of the home.
    pub(crate) fn commit(&mut self, thread: u32, op: Op, activation: Activation) -> StepResult
        requires asks { MayMakeEvent (view self.old) thread op }
        requires stage { stage_of (view self.old) thread ≡ Some (Stage.Copied activation) }
        ensures { MakesEvent (view self.old) (view self.new) thread op result }
    {
        let search = activation.search;
        let stage = match self.probe(search) {
            Probe::Empty => {
                self.enter(activation);
                search.reached(activation.address)
            }
            // (the copy is dropped: its words are free again at the next collection)
            Probe::At(winner) => search.reached(winner),
            Probe::Another => Stage::Retrying {
                activation: activation.retried(),
            },
        };
        self.set_stage(thread, op, stage);
        StepResult::Going
    }
}
