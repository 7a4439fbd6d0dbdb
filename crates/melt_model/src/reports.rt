//! What a run answers: the replies and the end of each thread, and the journal of its collections.
use crate::ghosts::Ghost;
use crate::history::Entries;
use crate::operations::Replies;
use std::marker::Model;

/// The kinds of collection.
#[derive(Clone, Copy, Debug, PartialEq, Eq)]
pub enum Phase {
    Inactive,
    Mark,
    Move,
}

/// One collection. `held` and `live` are words in use after it; `bodies` and `stubs` are the records
/// written since the collection before; `end` is the first word on disk past all homes.
#[derive(Clone, Copy, Debug, PartialEq, Eq)]
pub struct Journal {
    pub phase: Phase,
    pub held: u32,
    pub live: u32,
    pub bodies: u32,
    pub stubs: u32,
    pub end: u32,
}

/// How a thread ended. `held` and `need` count words; `home` is a place on disk, `at` a place in the
/// record there, and `word` the word found.
#[derive(Clone, Copy, Debug, PartialEq, Eq)]
pub enum ThreadEnd {
    Done,
    OutOfHeap { held: u32, need: u32 },
    DiskFault,
    Damaged { home: u32, at: u32, word: u64 },
    Halted,
}

/// Why a run was halted. The numbers count words on disk.
#[derive(Clone, Copy, Debug, PartialEq, Eq)]
pub enum Halt {
    DiskFull { end: u32, need: u32, limit: u32 },
    DiskFault,
}

/// One thread's replies and its end.
#[derive(Debug, Drop)]
pub struct ThreadReport {
    pub replies: Replies,
    pub end: ThreadEnd,
}

/// The reports of all threads, thread 0 first.
#[derive(Debug, Drop)]
pub struct ThreadReports {
    pub items: Vec<ThreadReport>,
}

impl Model for ThreadReports {
    ghost use Rattle.std.specs.Prelude.{List};
    ghost use Rattle.melt_model.specs.declared.reports.ThreadReport.{ThreadReport};

    ghost Value = { List ThreadReport };

    ghost view = { λ reports. reports.items.items };
}

/// The collections of a run, the first one first.
#[derive(Debug, Drop)]
pub struct Journals {
    pub items: Vec<Journal>,
}

impl Model for Journals {
    ghost use Rattle.std.specs.Prelude.{List};
    ghost use Rattle.melt_model.specs.declared.reports.Journal.{Journal};

    ghost Value = { List Journal };

    ghost view = { λ journals. journals.items.items };
}

/// What a whole run answers. `log` is the history where that is stored, as a run by a written order does
/// where it is asked, and is empty elsewhere. `history` is that of each run, for contracts alone.
#[derive(Debug, Drop)]
pub struct Report {
    pub threads: ThreadReports,
    pub journal: Journals,
    pub halt: Option<Halt>,
    pub log: Entries,
    pub history: Ghost<Entries>,
}
