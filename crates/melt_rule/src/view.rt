//! What the thread of a seat knows. No value of these types is made: they are what proofs speak of.
use crate::began::{Began, Pair};
use melt_core::call::{Activation, Place, Search};
use melt_model::Entry;
use melt_word::{Ref, Shape};
use std::collections::LinkedList;

/// How far a call has come, and what it knows of the words. What it is to do with them stays in the code of the call:
/// so each search is for register 0.
pub enum Doing {
    /// The stop word was not set.
    Polled,
    /// An object of this shape stands at the address.
    Headed {
        address: u64,
        shape: Shape,
    },
    /// A reference with a tag was found at the place, and its object is at the address `target`.
    Looked {
        place: Place,
        found: Ref,
        target: u64,
    },
    /// And that object has no stale bit.
    Cleared {
        place: Place,
        found: Ref,
        target: u64,
    },
    /// Words from the address on are for a new object of this shape; so many of those after its header hold 0.
    Claimed {
        address: u64,
        shape: Shape,
        stored: u64,
    },
    /// So many words were claimed that end past the last word of the space.
    Lacking {
        need: u64,
    },
    /// A home was found. So many forwarding words were read, and none names it.
    Searching {
        search: Search,
    },
    /// The next forwarding word was empty, so that the record of the home is to be read.
    Missed {
        search: Search,
    },
    /// Words were claimed for a copy of its Body, and so many of those after the header were stored.
    Copying {
        activation: Activation,
        stored: u64,
    },
    /// All words of the copy were stored.
    Copied {
        activation: Activation,
    },
    /// The forwarding word that was empty names another home by now.
    Retrying {
        activation: Activation,
    },
    /// The words that were claimed for a copy of an object of this shape end past the last word of the space.
    LackingCopy {
        search: Search,
        shape: Shape,
    },
}

/// A thread that has no seat now: its number, and what it had seen.
pub struct Away {
    pub thread: u64,
    pub seen: LinkedList<Entry>,
}

/// What a seat knows. A seat without parts is spent: another has taken it in.
pub struct View {
    /// For how many threads the seat speaks: its own, those in `away`, and those it took in.
    pub parts: u64,
    pub thread: u64,
    pub began: Began,
    /// How much of the history was seen.
    pub seen: LinkedList<Entry>,
    /// How much of it the own thread had seen.
    pub mine: LinkedList<Entry>,
    /// Objects whose addresses are known. They have no stale bit.
    pub known: LinkedList<Pair>,
    /// The call in flight.
    pub doing: Option<Doing>,
    /// The words of the record that the call read, after its head.
    pub rest: LinkedList<u64>,
    /// How many words were claimed.
    pub claimed: u64,
    /// How many claims ended past the last word.
    pub over: u64,
    /// How many commits were won.
    pub won: u64,
    /// How many steps were made.
    pub steps: u64,
    pub away: LinkedList<Away>,
    /// The stop word was found set.
    pub stopped: bool,
    /// Why the seat's thread is to stop: it was asked to, it lacks words, or it lacks forwarding words.
    pub asked: bool,
    pub spaced: bool,
    pub forwarded: bool,
}
