//! The words of an epoch, and each kind of step on them.
//!
//! A step is one load, store, fetch-and-add or compare-exchange of one word. What it asks is what its thread has to
//! know by then; what it tells is the history after it and what the thread knows from then on.
ghost use Rattle.std.specs.Prelude.{true, false, ◌≡◌, ℕ, ◌+◌, ◌<◌, Some};
ghost use Rattle.melt_model.specs.declared.history.Act.TheVariants.{Read, Write};
ghost use Rattle.melt_model.specs.declared.history.Slot.TheVariants as slot;
ghost use Rattle.melt_model.specs.declared.history.Value.{Value};
ghost use Rattle.melt_model.specs.declared.history.Value.TheVariants.{Num};
ghost use Rattle.melt_core.specs.declared.call.Place.TheVariants as place;
ghost use Rattle.melt_rule.specs.Rule.{Has, has_cause, is_reading};
ghost use Rattle.melt_rule.specs.Shown.{leading_words};
ghost use Rattle.melt_rule.specs.Seats.{IsSeat, MayGoOn, knows_of, SpeaksOf, HasName};
ghost use Rattle.melt_rule.specs.Tells.{Asks, Ends, Heads, Looks, Names, Polls, Stops};
ghost use Rattle.melt_rule.specs.declared.view.Doing.TheVariants.{Polled};

use crate::began::Start;
use crate::law::Law;
use crate::plays::{
    Ask, LoadGlobal, LoadHeader, LoadNumber, LoadSlot, Poll, SetStop, StoreGlobal, StoreNumber,
    StoreSlot,
};
use crate::view::View;
use atomic_table::{Seat, Table};
use melt_model::Ghost;
use melt_word::{Ref, Shape, held_word, reference_of, shape_of};
use std::alloc::Global;
use std::marker::Model;

/// Where the first free place stands among the words of an epoch.
pub const FREE_AT: usize = 8;

/// Where the first global stands, or what stands after the globals where there is none.
pub const GLOBALS_AT: usize = 16;

/// The words before the globals as an epoch begins: the stop word, which is not set, and the first free place. Each
/// begins a line of the cache of its own, so that a thread that makes an object takes the stop word from no other
/// thread, which reads it in each call.
pub fn leading_words(free: u64) -> [u64; GLOBALS_AT]
    ensures { result ≡ leading_words 0 free }
{
    let mut words = [0; GLOBALS_AT];
    words[FREE_AT] = free;
    words
}

/// The seat of a thread.
pub type Seated = Seat<u64, View>;

/// The words that the threads of an epoch share.
pub struct Words {
    pub(crate) table: Table<u64, View, Ghost<Start>, Law, Global>,
    /// How many words stand before that of address 0, if there were one.
    pub(crate) before: usize,
    /// How many stand before the forwarding words.
    pub(crate) forwards_at: usize,
    /// How many forwarding words there are.
    pub(crate) forwards: usize,
    /// How many words the space has.
    pub(crate) size: u32,
    ghost forwards_are: { forwards ≡ table.shared.key.began.forwards },
    ghost size_is: { size ≡ table.shared.key.began.size },
}

impl Model for Words {
    ghost use Rattle.melt_rule.specs.Seats.{EpochWords, IsTable};

    ghost Value = { EpochWords };

    ghost view = { λ w. record { id = w.table.shared.table_id; start = w.table.shared.key } };

    ghost invariant = { λ w. IsTable w.table.shared.table_id w.table.shared.key w.before w.forwards_at };
}

impl Words {
    /// Reads the stop word, and says whether it is set.
    pub fn poll(&self, seat: &mut Seated) -> bool
        requires seat { IsSeat self.now seat.old }
        requires goes_on { MayGoOn (knows_of seat.old) }
        ensures seat { IsSeat self.now seat.new }
        ensures polls { Polls (knows_of seat.old) (knows_of seat.new) result }
    {
        self.table.shared.load::<Poll>(seat, 0) == 1
    }

    /// Sets the stop word. The seat has a cause: its thread lacks words, or forwarding words.
    pub fn stop(&self, seat: &mut Seated)
        requires seat { IsSeat self.now seat.old }
        requires cause { has_cause (knows_of seat.old) ≡ true }
        requires left { is_reading (knows_of seat.old).doing ≡ false }
        ensures seat { IsSeat self.now seat.new }
        ensures stops { Stops (knows_of seat.old) (knows_of seat.new) }
    {
        self.table.shared.store::<SetStop>(seat, 0, 1);
    }

    /// Sets the stop word, as the thread asks all to stop. Where the seat has a cause to stop, it keeps that one.
    pub fn ask(&self, seat: &mut Seated)
        requires seat { IsSeat self.now seat.old }
        requires goes_on { MayGoOn (knows_of seat.old) }
        ensures seat { IsSeat self.now seat.new }
        ensures asks { Asks (knows_of seat.old) (knows_of seat.new) }
    {
        self.table.shared.store::<Ask>(seat, 0, 1);
    }

    /// Loads the header of an object that is known, and answers its shape.
    pub fn load_header(&self, seat: &mut Seated, address: u32) -> Shape
        requires seat { IsSeat self.now seat.old }
        requires polled { (knows_of seat.old).doing ≡ Some Polled }
        requires known { HasName (knows_of seat.old) address }
        ensures seat { IsSeat self.now seat.new }
        ensures heads { (n : ℕ) → Has (knows_of seat.old).known address n
            → Heads (knows_of seat.old) (knows_of seat.new) address n result }
    {
        let word = self
            .table
            .shared
            .load::<LoadHeader>(seat, self.before + address as usize);
        shape_of(word)
    }

    /// Looks at reference slot `i` of an object whose header was loaded.
    pub fn load_slot(&self, seat: &mut Seated, address: u32, i: u8) -> Ref
        requires seat { IsSeat self.now seat.old }
        requires speaks { SpeaksOf (knows_of seat.old) address (λ z. i < z.refs) }
        ensures seat { IsSeat self.now seat.new }
        ensures looks { (n : ℕ) → Has (knows_of seat.old).known address n
            → Looks (knows_of seat.old) (knows_of seat.new) (slot.Field n i) (place.Field address i) result }
    {
        let at = self.before + address as usize + 2 + i as usize;
        let word = self.table.shared.load::<LoadSlot>(seat, at);
        reference_of(word)
    }

    /// Looks at a global.
    pub fn load_global(&self, seat: &mut Seated, g: u8) -> Ref
        requires seat { IsSeat self.now seat.old }
        requires polled { (knows_of seat.old).doing ≡ Some Polled }
        requires global { g < self.now.start.began.globals }
        ensures seat { IsSeat self.now seat.new }
        ensures looks { Looks (knows_of seat.old) (knows_of seat.new) (slot.Global g) (place.Global g) result }
    {
        let word = self
            .table
            .shared
            .load::<LoadGlobal>(seat, GLOBALS_AT + g as usize);
        reference_of(word)
    }

    /// Reads number word `j` of an object of this shape, whose header was loaded.
    pub fn load_number(&self, seat: &mut Seated, address: u32, shape: Shape, j: u8) -> u64
        requires seat { IsSeat self.now seat.old }
        requires speaks { SpeaksOf (knows_of seat.old) address (λ z. (z ≡ shape) × (j < z.nums)) }
        ensures seat { IsSeat self.now seat.new }
        ensures reads { (n : ℕ) → Has (knows_of seat.old).known address n
            → Ends (knows_of seat.old) (knows_of seat.new) (Read (slot.Cell n j) (Num result)) }
    {
        let at = self.before + address as usize + 2 + shape.refs as usize + j as usize;
        self.table.shared.load::<LoadNumber>(seat, at)
    }

    /// Stores what a register holds into reference slot `i` of an object whose header was loaded.
    pub fn store_slot(&self, seat: &mut Seated, address: u32, i: u8, held: u32)
        requires seat { IsSeat self.now seat.old }
        requires speaks { SpeaksOf (knows_of seat.old) address (λ z. i < z.refs) }
        requires held { (value : Value) × Names (knows_of seat.old).known held value }
        ensures seat { IsSeat self.now seat.new }
        ensures writes { (n : ℕ) (value : Value) → Has (knows_of seat.old).known address n
            → Names (knows_of seat.old).known held value
            → Ends (knows_of seat.old) (knows_of seat.new) (Write (slot.Field n i) value) }
    {
        let at = self.before + address as usize + 2 + i as usize;
        self.table
            .shared
            .store::<StoreSlot>(seat, at, held_word(held));
    }

    /// Stores what a register holds into a global.
    pub fn store_global(&self, seat: &mut Seated, g: u8, held: u32)
        requires seat { IsSeat self.now seat.old }
        requires polled { (knows_of seat.old).doing ≡ Some Polled }
        requires global { g < self.now.start.began.globals }
        requires held { (value : Value) × Names (knows_of seat.old).known held value }
        ensures seat { IsSeat self.now seat.new }
        ensures writes { (value : Value) → Names (knows_of seat.old).known held value
            → Ends (knows_of seat.old) (knows_of seat.new) (Write (slot.Global g) value) }
    {
        self.table
            .shared
            .store::<StoreGlobal>(seat, GLOBALS_AT + g as usize, held_word(held));
    }

    /// Writes number word `j` of an object of this shape, whose header was loaded.
    pub fn store_number(&self, seat: &mut Seated, address: u32, shape: Shape, j: u8, word: u64)
        requires seat { IsSeat self.now seat.old }
        requires speaks { SpeaksOf (knows_of seat.old) address (λ z. (z ≡ shape) × (j < z.nums)) }
        ensures seat { IsSeat self.now seat.new }
        ensures writes { (n : ℕ) → Has (knows_of seat.old).known address n
            → Ends (knows_of seat.old) (knows_of seat.new) (Write (slot.Cell n j) (Num word)) }
    {
        let at = self.before + address as usize + 2 + shape.refs as usize + j as usize;
        self.table.shared.store::<StoreNumber>(seat, at, word);
    }
}
