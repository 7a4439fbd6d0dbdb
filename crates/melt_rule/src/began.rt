//! What is fixed when an epoch begins, for contracts alone.
ghost use Rattle.std.specs.Prelude.{◌≡◌};

use melt_model::Entry;
use melt_scion::{GhostMaps, ScionTable};
use melt_word::Shape;
use std::collections::LinkedList;

/// An address, and the number of the object there.
#[derive(Clone, Copy)]
pub struct Pair {
    pub address: u64,
    pub object: u64,
}

/// What every seat of an epoch knows from its beginning: the history so far, the threads that take part, the state of
/// the heap, and the disk under it. No value of it is made.
pub struct Began {
    pub history: LinkedList<Entry>,
    pub threads: LinkedList<u64>,
    /// Whether the disk tells its words, and the heap stands for the history.
    pub told: bool,
    /// How many words the space has.
    pub size: u64,
    pub globals: u64,
    pub forwards: u64,
    pub scions: ScionTable,
    /// The first word on disk past all homes.
    pub end: u64,
    /// All homes in ascending order, each with the shape for which it was reserved.
    pub homes: LinkedList<(u64, Shape)>,
    pub free_homes: LinkedList<u64>,
    /// The words on disk.
    pub image: LinkedList<u64>,
    /// The first free place.
    pub free: u64,
    /// The words of the space.
    pub words: LinkedList<u64>,
    /// The numbers of objects, by their addresses and by their homes.
    pub maps: GhostMaps,
}

/// What an epoch begins with, and the objects that registers hold then. No value of it is made.
pub struct Start {
    pub began: Began,
    pub held: LinkedList<Pair>,
}
