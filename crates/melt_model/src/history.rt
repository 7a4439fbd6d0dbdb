//! Histories of a heap that never collects: who made, read or wrote what, in one order.
use std::marker::Model;

/// A value of a register or a slot. Objects have the numbers 0, 1, 2, .. in the order in which they
/// were made.
#[derive(Clone, Copy, Debug, PartialEq, Eq)]
pub enum Value {
    Nil,
    Ref(u64),
    Num(u64),
}

/// A place that holds a value: a reference slot of an object, a number word of an object (a cell),
/// or a global. Objects, slots, cells and globals are numbered from 0.
#[derive(Clone, Copy, Debug, PartialEq, Eq)]
pub enum Slot {
    Field(u64, u8),
    Cell(u64, u8),
    Global(u8),
}

/// What one entry of a history did. An object is named by its place among the makes.
#[derive(Clone, Copy, Debug, PartialEq, Eq)]
pub enum Act {
    Make { refs: u8, nums: u8 },
    Read { slot: Slot, value: Value },
    Write { slot: Slot, value: Value },
}

/// One entry of a history: the act, and the thread that did it.
#[derive(Clone, Copy, Debug, PartialEq, Eq)]
pub struct Entry {
    pub thread: u8,
    pub act: Act,
}

/// Entries of a history, the oldest first.
#[derive(Debug, Drop)]
pub struct Entries {
    pub items: Vec<Entry>,
}

impl Model for Entries {
    ghost use Rattle.std.specs.Prelude.{List};
    ghost use Rattle.melt_model.specs.declared.history.Entry.{Entry};

    ghost Value = { List Entry };

    ghost view = { λ entries. entries.items.items };
}
