//! Whether what threads were told stands in one order, in which each load finds what was stored last.
ghost use Rattle.std.specs.Prelude.{◌≡◌, ◌+◌, ◌*◌, ◌^◌, ◌<◌};

use super::short::Short;
use crate::log::{Log, LoggedCall};
use melt_model::{Op, Reply};
use std::alloc::{AllocError, Global};

/// How many globals there may be.
pub const GLOBALS: usize = 3;

/// How many objects there may be. They have the numbers from 1 on.
pub const OBJECTS: usize = 22;

/// How many places there are: each global, two slots of each object, and one number.
pub const PLACES: usize = GLOBALS + 3 * (OBJECTS + 1);

/// Which object is at each place, or 0; and the number there.
pub type Memory = [u64; PLACES];

/// The place of a global.
pub fn global(g: u8) -> usize
    ensures { result ≡ g }
{
    usize::from(g)
}

/// The place of a slot, of which each object has two. It lies past all places where there is no such object.
pub fn slot(object: u64, i: u8) -> usize
    ensures { 3 * object + GLOBALS + i < 2 ^ 64 → result ≡ 3 * object + GLOBALS + i }
{
    (object as usize)
        .saturating_mul(3)
        .saturating_add(GLOBALS + usize::from(i))
}

/// The place of the second number of an object.
pub fn cell(object: u64) -> usize
    ensures { 3 * object + GLOBALS + 2 < 2 ^ 64 → result ≡ 3 * object + GLOBALS + 2 }
{
    slot(object, 2)
}

/// One load or store of a place, and when its call was made.
#[derive(Clone, Copy)]
pub struct Deed {
    pub is_store: bool,
    pub place: usize,
    pub value: u64,
    pub begun: u64,
    pub ended: u64,
}

/// Stands in a register for an object whose number is not put yet.
const NEW: u64 = u64::MAX;

/// Is loaded where an object was found whose number could not be looked up, since all were asked to stop meanwhile.
const SOME: u64 = u64::MAX - 1;

/// The objects in the registers of a thread, by their numbers, while its log is read.
#[derive(Drop)]
struct Held {
    objects: [u64; 16],
}

/// What a call means for the places.
enum Meaning {
    /// Nothing: it was refused, or it is about registers alone.
    Nothing,
    Loads(usize, u64),
    Stores(usize, u64),
    /// It has no meaning by what was told before.
    Wrong,
}

impl Held {
    fn at(&self, r: u8) -> u64 {
        self.objects.get(usize::from(r)).copied().unwrap_or(0)
    }

    fn set(&mut self, r: u8, object: u64) {
        if let Some(held) = self.objects.get_mut(usize::from(r)) {
            *held = object;
        }
    }

    /// The new object gets its number.
    fn name(&mut self, number: u64) {
        for held in self.objects.iter_mut() {
            if *held == NEW {
                *held = number;
            }
        }
    }

    /// What a load means that was answered so and found this object.
    fn loaded(&mut self, dst: u8, place: usize, reply: Reply, found: Option<u64>) -> Meaning {
        let object = match (reply, found) {
            (Reply::Null, None) => 0,
            (Reply::Ref, Some(object)) => object,
            (Reply::Ref, None) => SOME,
            _ => return Meaning::Wrong,
        };
        self.set(dst, object);
        Meaning::Loads(place, object)
    }

    /// Nothing, where the register holds nothing.
    fn nil(&self, r: u8) -> Meaning {
        if self.at(r) == 0 {
            Meaning::Nothing
        } else {
            Meaning::Wrong
        }
    }

    /// What a call of numbers means.
    fn of_numbers(&mut self, op: Op, reply: Reply) -> Meaning {
        match (op, reply) {
            (Op::Put { obj, j: 0, v }, Reply::Done) if self.at(obj) == NEW => {
                self.name(v);
                Meaning::Nothing
            }
            (Op::Put { obj, j: 1, v }, Reply::Done) => Meaning::Stores(cell(self.at(obj)), v),
            (Op::Get { src, j: 1 }, Reply::Num(v)) => Meaning::Loads(cell(self.at(src)), v),
            (Op::Get { src, j: 0 }, Reply::Num(v)) if self.at(src) == v => Meaning::Nothing,
            (Op::Put { obj: r, .. } | Op::Get { src: r, .. }, Reply::Nil) => self.nil(r),
            _ => Meaning::Wrong,
        }
    }

    /// What a call means that was answered.
    fn of_answered(&mut self, op: Op, reply: Reply, found: Option<u64>) -> Meaning {
        match (op, reply) {
            (Op::New { dst, .. }, Reply::Done) => {
                self.set(dst, NEW);
                Meaning::Nothing
            }
            (Op::Load { src: r, .. } | Op::Store { obj: r, .. }, Reply::Nil) => self.nil(r),
            (Op::Load { dst, src, i }, _) => self.loaded(dst, slot(self.at(src), i), reply, found),
            (Op::GLoad { dst, g }, _) => self.loaded(dst, global(g), reply, found),
            (Op::Store { obj, i, src }, Reply::Done) => {
                Meaning::Stores(slot(self.at(obj), i), self.at(src))
            }
            (Op::GStore { g, src }, Reply::Done) => Meaning::Stores(global(g), self.at(src)),
            (Op::Get { .. } | Op::Put { .. }, _) => self.of_numbers(op, reply),
            _ => Meaning::Wrong,
        }
    }
}

/// What a call means by what is in the registers of its thread, and what it leaves there.
fn meaning_of(held: &mut Held, told: &LoggedCall) -> Meaning {
    match told.result {
        Ok(reply) => held.of_answered(told.op, reply, told.found),
        Err(_) => Meaning::Nothing,
    }
}

/// Adds the loads and stores of a thread. Answers whether its log has a meaning.
pub fn add_deeds(deeds: &mut Short<Deed>, log: &Log) -> bool {
    let mut held = Held { objects: [0; 16] };
    for told in log.iter().flatten() {
        let (is_store, place, value) = match meaning_of(&mut held, told) {
            Meaning::Nothing => continue,
            Meaning::Loads(place, value) => (false, place, value),
            Meaning::Stores(place, value) => (true, place, value),
            Meaning::Wrong => return false,
        };
        deeds.push(Deed {
            is_store,
            place,
            value,
            begun: told.begun,
            ended: told.ended,
        });
    }
    true
}

/// How many states of a search are looked at.
const STATES: u32 = 1_000_000;

/// How far a search has come: so many deeds of each thread are done.
#[derive(Clone, Copy)]
struct State {
    done: [usize; 8],
    memory: Memory,
}

/// The next deed of a thread, where it has one.
fn next_of(threads: &[&[Deed]], state: &State, thread: usize) -> Option<Deed> {
    let done = *state.done.get(thread)?;
    threads.get(thread)?.get(done).copied()
}

/// The state after a deed of a thread, where the deed can be done.
fn state_after(state: &State, thread: usize, deed: Deed) -> Option<State> {
    let mut next = *state;
    let word = next.memory.get_mut(deed.place)?;
    let is_found = *word == deed.value || (deed.value == SOME && *word != 0);
    if deed.is_store {
        *word = deed.value;
    } else if !is_found {
        return None;
    }
    let done = next.done.get_mut(thread)?;
    *done = done.saturating_add(1);
    Some(next)
}

/// The states one deed further. No deed comes before one whose call had ended when its own began.
fn push_next(
    open: &mut Vec<State>,
    threads: &[&[Deed]],
    state: &State,
) -> Result<bool, AllocError> {
    let mut first_end = u64::MAX;
    for thread in 0..threads.len() {
        if let Some(deed) = next_of(threads, state, thread) {
            first_end = first_end.min(deed.ended);
        }
    }
    for thread in 0..threads.len() {
        let Some(deed) = next_of(threads, state, thread) else {
            continue;
        };
        if deed.begun < first_end {
            if let Some(next) = state_after(state, thread, deed) {
                open.push(next)?;
            }
        }
    }
    Ok(first_end == u64::MAX)
}

/// Whether the deeds of at most eight threads stand in one order over this memory.
pub fn stand_in_an_order(
    alloc: Global,
    threads: &[&[Deed]],
    memory: Memory,
) -> Result<bool, AllocError> {
    let mut open = Vec::new(alloc);
    open.push(State {
        done: [0; 8],
        memory,
    })?;
    for _ in 0..STATES {
        let Some(state) = open.pop() else {
            return Ok(false);
        };
        if push_next(&mut open, threads, &state)? {
            return Ok(true);
        }
    }
    Ok(false)
}
