//! Calls in flight: what an operation has still to do with the words that threads share.
//!
//! A stage holds all that the rest of the call needs, so that no event looks at the operation again. What a stage
//! claims of the words stays true whatever other threads do between two events.
ghost use Rattle.std.specs.Prelude.{◌≡◌, ◌↔◌, ◌+◌, ◌^◌, ◌<◌, IsTrue};
ghost use Rattle.melt_core.specs.Stages.{HasPart, further, reached, retried};

use melt_model::Op;
use melt_word::{Ref, Shape};

/// How many words a record has at most after its head: 62 slots and 62 numbers.
pub(crate) const MAX_REST: usize = 124;

/// Where the word of a reference stands.
#[derive(Clone, Copy)]
pub enum Place {
    /// In reference slot `i` of the object at the address `object`.
    Field { object: u32, i: u8 },
    /// In the global of this number.
    Global { g: u8 },
}

/// What an operation does with a part of an object: with a reference slot `i`, or with a number word `j`.
#[derive(Clone, Copy)]
pub enum Access {
    /// Loads the slot into register `dst`.
    Load { dst: u8, i: u8 },
    /// Stores register `src` into the slot.
    Store { i: u8, src: u8 },
    /// Reads the number word.
    Get { j: u8 },
    /// Writes `v` into the number word.
    Put { j: u8, v: u64 },
}

impl Access {
    /// Whether an object of this shape has the part.
    pub(crate) fn is_within(self, shape: Shape) -> bool
        ensures { IsTrue result ↔ HasPart self shape }
    {
        match self {
            Access::Load { i, .. } | Access::Store { i, .. } => i < shape.refs,
            Access::Get { j } | Access::Put { j, .. } => j < shape.nums,
        }
    }
}

/// What an operation does with the words that threads share.
#[derive(Clone, Copy)]
pub enum Task {
    /// Makes an object of this shape, and puts it into register `dst`.
    Make { dst: u8, shape: Shape },
    /// Uses a part of the object in register `r`, which holds one.
    Use { r: u8, access: Access },
    /// Loads global `g` into register `dst`.
    LoadGlobal { dst: u8, g: u8 },
    /// Stores register `src` into global `g`.
    StoreGlobal { g: u8, src: u8 },
}

/// The search for the object of a home, by the forwarding words: so many of them were read, and each names another
/// home. The home was found at the place, in a load into register `dst`.
#[derive(Clone, Copy)]
pub struct Search {
    pub place: Place,
    pub home: u32,
    pub tried: u32,
    pub dst: u8,
}

impl Search {
    /// The search after one forwarding word more.
    pub(crate) fn further(self) -> Search
        requires { self.tried + 1 < 2 ^ 32 }
        ensures { result ≡ further self }
    {
        Search {
            tried: self.tried + 1,
            ..self
        }
    }

    /// The stage of the load, now that the object is known to be at the address, and to have no stale bit.
    pub(crate) fn reached(self, target: u32) -> Stage
        ensures { result ≡ reached self target }
    {
        Stage::Cleared {
            place: self.place,
            found: Ref::Disk(self.home),
            target,
            dst: self.dst,
        }
    }
}

/// How an object comes back: the words from the address on are for a copy of the Body, of this shape, at the home that
/// is searched for.
#[derive(Clone, Copy)]
pub struct Activation {
    pub search: Search,
    pub address: u32,
    pub shape: Shape,
}

impl Activation {
    /// The copy at hand, after one forwarding word more.
    pub(crate) fn retried(self) -> Activation
        requires { self.search.tried + 1 < 2 ^ 32 }
        ensures { result ≡ retried self }
    {
        Activation {
            search: self.search.further(),
            ..self
        }
    }
}

/// How far a call has come, and what it knows.
#[derive(Clone, Copy)]
pub enum Stage {
    /// The stop word was not set.
    Polled {
        task: Task,
    },
    /// The object stands at the address, has this shape, and has the part that is used.
    Headed {
        address: u32,
        shape: Shape,
        access: Access,
    },
    /// The word at the place, which is loaded into register `dst`, was that of a reference with a tag: a stale address,
    /// or a home with a Stub. Its object is at the address `target`.
    Looked {
        place: Place,
        found: Ref,
        target: u32,
        dst: u8,
    },
    /// And the object at `target` has no stale bit any more.
    Cleared {
        place: Place,
        found: Ref,
        target: u32,
        dst: u8,
    },
    /// The words from the address on are for a new object of this shape, which is to come into register `dst`. So many
    /// of those after its header were stored.
    Claimed {
        address: u32,
        shape: Shape,
        stored: u32,
        dst: u8,
    },
    /// The `need` words that were claimed end past the last word of the heap.
    Lacking {
        need: u32,
    },
    /// A home was found. Where all forwarding words were read, no object can come back before the next collection.
    Searching {
        search: Search,
    },
    /// The next forwarding word was empty, so that none names the home. Its record is to be read.
    Missed {
        search: Search,
    },
    /// The record is a Body of this shape, with slots or numbers that are to be read.
    HeadRead {
        search: Search,
        shape: Shape,
    },
    /// And they were read: they lie in the buffer of the thread.
    BodyRead {
        search: Search,
        shape: Shape,
    },
    /// Words were claimed for a copy, and so many of those after its header were stored.
    Copying {
        activation: Activation,
        stored: u32,
    },
    /// All words of the copy were stored. The forwarding word that was empty is to name its address.
    Copied {
        activation: Activation,
    },
    /// That word names another home by now, so that the search goes on with the copy at hand.
    Retrying {
        activation: Activation,
    },
    /// The words that were claimed for a copy of an object of this shape end past the last word of the heap.
    LackingCopy {
        search: Search,
        shape: Shape,
    },
}

/// A call in flight: its operation, and the stage that it has reached.
#[derive(Clone, Copy)]
pub struct Call {
    pub op: Op,
    pub stage: Stage,
}
