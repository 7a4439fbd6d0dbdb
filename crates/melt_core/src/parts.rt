//! Steps on the parts of a core, each of which changes one of them and says nothing of the others' meaning.
ghost use Rattle.std.specs.Prelude.{◌≡◌, ℕ, ◌+◌, ◌*◌, ◌^◌, ◌<◌, ◌≤◌, length, slice_set, Some, None, MatchOption};
ghost use Rattle.std.specs.Prelude.{[], ◌∷◌, ◌++◌, unwrap_or};
ghost use Rattle.std.specs.Vec.{vec_capacity};
ghost use Rattle.melt_word.specs.declared.reference.Ref.{Ref};
ghost use Rattle.melt_space.specs.Space.{IsWord};
ghost use Rattle.melt_scion.specs.Heaps.{OnDisk, register_in};
ghost use Rattle.melt_scion.specs.Names.{name_at};
ghost use Rattle.melt_core.specs.Answering.{entry};
ghost use Rattle.melt_core.specs.Changed.{HasNamed, HasRoomForEntry, HasSetWord, HoldsRef, OnlyWords, StandsAt};
ghost use Rattle.melt_core.specs.Changed.{noted, with_call, with_register};
ghost use Rattle.melt_core.specs.Events.{PlaceChanges};
ghost use Rattle.melt_core.specs.Known.{word_in};
ghost use Rattle.melt_core.specs.Noted.{act_named, found_at, number_given, slot_named, touched_slot, touched_value};
ghost use Rattle.melt_core.specs.Views.{call_of, held_value, maps, maps_of, numbers_of, state, view};

use crate::call::{Call, Place, Stage};
use crate::machine::Core;
use melt_model::{Act, Entry, Ghost, Op, Reply, Slot, Value};
use melt_scion::{GhostMaps, Globals, Names};
use melt_word::{Ref, Shape, encode_ref, reference_of};

/// A number word of the object at the address, which has this shape.
#[derive(Clone, Copy)]
pub(crate) struct Cell {
    pub(crate) address: u32,
    pub(crate) shape: Shape,
    pub(crate) j: u8,
}

/// What an event reads or writes, by addresses: a slot of an object or a global with the address that stands there, or
/// a number word of an object with its number.
#[derive(Clone, Copy)]
pub(crate) enum Touched {
    Reference { place: Place, address: u32 },
    Number { object: u32, j: u8, number: u64 },
}

/// What an event of a call does to the heap, by addresses. An entry of the history says the same by numbers of objects.
#[derive(Clone, Copy)]
pub(crate) enum Deed {
    Make { shape: Shape },
    Read { touched: Touched },
    Write { touched: Touched },
}

/// Which number an object gets that has none yet: one of its own, or that of the object of a home.
#[derive(Clone, Copy)]
pub(crate) enum Naming {
    Own { number: u32 },
    Home { home: u32 },
}

/// The number of the object at an address, or 0 where there is none.
fn number_at(names: &Names, address: u32) -> u64
    ensures { result ≡ unwrap_or (name_at names.now.addresses address) 0 }
{
    u64::from(names.addresses.get(address).unwrap_or(0))
}

/// The value that an address in a register stands for.
fn value_at(names: &Names, address: u32) -> Value
    ensures { result ≡ held_value (Some names.now) address }
{
    match names.addresses.get(address) {
        Some(number) => Value::Ref(u64::from(number)),
        None => Value::Nil,
    }
}

/// The slot that a place is.
fn slot_of(names: &Names, place: Place) -> Slot
    ensures { result ≡ slot_named (maps_of (Some names.now)) place }
{
    match place {
        Place::Field { object, i } => Slot::Field(number_at(names, object), i),
        Place::Global { g } => Slot::Global(g),
    }
}

/// The slot that is read or written, and the value in it.
fn access(names: &Names, touched: Touched) -> (Slot, Value)
    ensures slot { result.0 ≡ touched_slot (maps_of (Some names.now)) touched }
    ensures value { result.1 ≡ touched_value (maps_of (Some names.now)) touched }
{
    match touched {
        Touched::Reference { place, address } => (slot_of(names, place), value_at(names, address)),
        Touched::Number { object, j, number } => {
            (Slot::Cell(number_at(names, object), j), Value::Num(number))
        }
    }
}

/// What the entry of the history says.
fn act_of(names: &Names, deed: Deed) -> Act
    ensures { result ≡ act_named (maps_of (Some names.now)) deed }
{
    match deed {
        Deed::Make {
            shape: Shape { refs, nums },
        } => Act::Make { refs, nums },
        Deed::Read { touched } => {
            let (slot, value) = access(names, touched);
            Act::Read { slot, value }
        }
        Deed::Write { touched } => {
            let (slot, value) = access(names, touched);
            Act::Write { slot, value }
        }
    }
}

/// Writes an entry after those that are stored. There is room for it.
// (not inlined, so that a run that stores none has nothing of it beside its events)
#[inline(never)]
fn write_entry(log: &mut Vec<Entry>, names: &Names, thread: u32, deed: Deed)
    requires thread { thread < 256 }
    requires room { length log.old.items < vec_capacity log.old }
    ensures items { log.new.items ≡ log.old.items ++ entry thread (act_named (maps_of (Some names.now)) deed) ∷ [] }
    ensures capacity { vec_capacity log.new ≡ vec_capacity log.old }
{
    log.push_reserved(Entry {
        thread: thread as u8,
        act: act_of(names, deed),
    });
}

/// The number that an object gets.
fn number_for(names: &Names, naming: Naming) -> u32
    ensures { result ≡ number_given (Some names.now) naming }
{
    match naming {
        Naming::Own { number } => number,
        Naming::Home { home } => names.homes.get(home).unwrap_or(0),
    }
}

/// The reference that a word holds.
pub(crate) fn reference(word: u64) -> Ref
    requires { (r : Ref) × HoldsRef word r }
    ensures { HoldsRef word result }
{
    reference_of(word)
}

/// Replaces the word of a global.
pub(crate) fn set_global_word(globals: &mut Globals, g: u8, word: u64)
    requires { g < length globals.old }
    ensures { globals.new ≡ slice_set globals.old g word }
{
    globals.items[g as usize] = word;
}

/// What a load that found this address replies.
pub(crate) fn reply_for(address: u32) -> Reply
    ensures { result ≡ found_at address }
{
    match address {
        0 => Reply::Null,
        _ => Reply::Ref,
    }
}

impl Core {
    /// What a register of a thread holds.
    pub(crate) fn register(&self, thread: u32, r: u8) -> u32
        requires thread { thread < length (view self.now).held }
        requires register { r < 16 }
        ensures { result ≡ register_in (view self.now).held thread r }
    {
        self.rest.held[thread as usize].regs[r as usize]
    }

    /// Sets a register of a thread.
    pub(crate) fn set_register(&mut self, thread: u32, r: u8, address: u32)
        requires thread { thread < length (view self.old).held }
        requires register { r < 16 }
        ensures { view self.new ≡ with_register (view self.old) thread r address }
    {
        self.rest.held[thread as usize].regs[r as usize] = address;
    }

    /// Says how far the call of a thread has come, or that it is over.
    pub(crate) fn set_call(&mut self, thread: u32, call: Option<Call>)
        requires thread { thread < length (view self.old).calls }
        ensures { view self.new ≡ with_call (view self.old) thread call }
    {
        self.rest.calls[thread as usize] = call;
    }

    /// Says how far the call of a thread has come now. Its operation stays where it is.
    pub(crate) fn set_stage(&mut self, thread: u32, op: Op, stage: Stage)
        requires thread { thread < length (view self.old).calls }
        requires call { (was : Stage) × (call_of (view self.old) thread ≡ Some (record { op = op; stage = was })) }
        ensures { view self.new ≡ with_call (view self.old) thread (Some (record { op = op; stage = stage })) }
    {
        if let Some(call) = &mut self.rest.calls[thread as usize] {
            call.stage = stage;
        }
    }

    /// Writes the entry of a call into the history: the only place where it grows. Where it is stored, its room was taken
    /// when the core was made, so that an event takes no memory; else it grows for contracts alone.
    // (inlined, since most runs store none, and then nothing is done)
    #[inline(always)]
    pub(crate) fn note(&mut self, thread: u32, deed: Deed)
        requires thread { thread < 256 }
        requires room { HasRoomForEntry (view self.old) }
        ensures { view self.new ≡ noted (view self.old) (entry thread (act_named (maps (view self.old)) deed)) }
    {
        match &self.heap.names {
            Some(names) => write_entry(&mut self.rest.log, names, thread, deed),
            None => self.rest.shadow_log = Ghost::pick(&(&*self, thread, deed)),
        }
    }

    /// Gives the object at an address its number.
    // (inlined for the same reason as `note`)
    #[inline(always)]
    pub(crate) fn name(&mut self, address: u32, naming: Naming)
        requires first { 1 ≤ address }
        requires last { address ≤ length (numbers_of (view self.old).names) }
        ensures { HasNamed (view self.old) (view self.new) address (number_given (view self.old).names naming) }
    {
        match &mut self.heap.names {
            Some(names) => {
                let number = number_for(names, naming);
                names.addresses.set(address, number);
            }
            None => self.heap.maps = GhostMaps::pick(&(&self.heap, address, naming)),
        }
    }

    /// Replaces a word of the space.
    pub(crate) fn set_word(&mut self, at: u32, word: u64)
        requires { IsWord (view self.old).space at }
        ensures { HasSetWord (view self.old) (view self.new) at word }
    {
        self.heap.space.set_word(at, word);
    }

    /// Claims so many words, and answers their address. Where they end past the last word of the heap they are claimed
    /// too, so that no two threads are ever given one word, but are of no use. Each thread claims past the last word at
    /// most once before it reads the stop word, so that the sum stays small.
    pub(crate) fn claim_words(&mut self, need: u32) -> Option<u32>
        requires { (view self.old).free + need < 2 ^ 32 }
        ensures moves { view self.new ≡ record (view self.old) { free = (view self.old).free + need } }
        ensures room { MatchOption result (length (view self.old).space.list + 1 < (view self.old).free + need)
            (λ address. (address ≡ (view self.old).free)
            × ((view self.old).free + need ≤ length (view self.old).space.list + 1)) }
    {
        let address = self.free;
        self.free += need;
        (self.free <= self.heap.space.words() + 1).then_some(address)
    }

    /// The word at a place.
    pub(crate) fn word_in(&self, place: Place) -> u64
        requires { StandsAt (view self.now) place }
        ensures { (disk : OnDisk) → result ≡ word_in (state disk (view self.now)) place }
    {
        match place {
            Place::Field { object, i } => self.heap.space.word(object + 2 + u32::from(i)),
            Place::Global { g } => self.heap.globals.items[g as usize],
        }
    }

    /// Replaces the word at a place.
    pub(crate) fn set_word_in(&mut self, place: Place, word: u64)
        requires { StandsAt (view self.old) place }
        ensures only { OnlyWords (view self.old) (view self.new) }
        ensures changes { (disk : OnDisk)
            → PlaceChanges (state disk (view self.old)) (state disk (view self.new)) place word }
    {
        match place {
            Place::Field { object, i } => self.set_word(object + 2 + u32::from(i), word),
            Place::Global { g } => set_global_word(&mut self.heap.globals, g, word),
        }
    }
}
