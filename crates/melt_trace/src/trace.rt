//! A trace that was read.
ghost use Rattle.std.specs.Prelude.{◌≡◌, ◌<◌, ◌≤◌, length, slice_get, Some};
ghost use Rattle.melt_trace.specs.Script.{expand, operations};
ghost use Rattle.melt_trace.specs.Language.{IsScript};

use crate::cursor::Cursor;
use crate::script::Item;
use std::marker::Model;

/// The lines of a thread's program, and how many operations they stand for.
#[derive(Debug, Drop)]
pub struct Program {
    items: Vec<Item>,
    count: u64,
}

impl Model for Program {
    ghost use Rattle.std.specs.Prelude.{◌≡◌, List, length};
    ghost use Rattle.melt_trace.specs.declared.script.Item.{Item};
    ghost use Rattle.melt_trace.specs.Script.{expand};

    ghost Value = { List Item };

    ghost view = { λ program. program.items.items };

    ghost invariant = { λ program. program.count ≡ length (expand program.items.items) };
}

impl Program {
    /// A program of these lines, which stand for so many operations.
    pub fn new(items: Vec<Item>, count: u64) -> Program
        requires { count ≡ length (expand items.items) }
        ensures { result ≡ items.items }
    {
        Program { items, count }
    }

    /// Its lines.
    pub(crate) fn items(&self) -> &[Item]
        ensures { result.now ≡ self.now }
    {
        &self.items
    }

    /// How many operations it has, each block written out.
    pub(crate) fn count(&self) -> u64
        ensures { result ≡ length (expand self.now) }
    {
        self.count
    }
}

/// The program of each thread, the turns that are ordered first (a thread and a number of events), and
/// the number of globals that the threads share.
#[derive(Debug, Drop)]
pub struct Trace {
    globals: u32,
    orders: Vec<(u32, u32)>,
    programs: Vec<Program>,
}

impl Model for Trace {
    ghost use Rattle.melt_trace.specs.Script.{Script};
    ghost use Rattle.melt_trace.specs.Language.{IsScript};

    ghost Value = { Script };

    ghost view = { λ trace. record {
      globals = trace.globals;
      orders = trace.orders.items;
      programs = trace.programs.items;
    } };

    ghost invariant = { λ trace. IsScript (record {
      globals = trace.globals;
      orders = trace.orders.items;
      programs = trace.programs.items;
    }) };
}

impl Trace {
    /// A trace of these parts.
    pub fn new(globals: u32, orders: Vec<(u32, u32)>, programs: Vec<Program>) -> Trace
        requires { IsScript (record { globals = globals; orders = orders.items; programs = programs.items }) }
        ensures { result ≡ record { globals = globals; orders = orders.items; programs = programs.items } }
    {
        Trace {
            globals,
            orders,
            programs,
        }
    }

    /// How many threads there are.
    pub fn threads(&self) -> u32
        ensures count { result ≡ length self.now.programs }
        ensures within { (1 ≤ result) × (result ≤ 8) }
    {
        self.programs.len() as u32
    }

    /// How many globals there are.
    pub fn globals(&self) -> u32
        ensures value { result ≡ self.now.globals }
        ensures within { result ≤ 64 }
    {
        self.globals
    }

    /// How many turns are ordered first.
    pub fn orders(&self) -> u32
        ensures { result ≡ length self.now.orders }
    {
        self.orders.len() as u32
    }

    /// The k-th of the turns that are ordered first: a thread, and a number of events.
    pub fn order(&self, k: u32) -> (u32, u32)
        requires { k < length self.now.orders }
        ensures value { slice_get self.now.orders k ≡ Some result }
        ensures thread { result.0 < length self.now.programs }
        ensures events { (1 ≤ result.1) × (result.1 ≤ 1048576) }
    {
        self.orders[k as usize]
    }

    /// All turns that are ordered first.
    pub(crate) fn all_orders(&self) -> &[(u32, u32)]
        ensures { result.now ≡ self.now.orders }
    {
        &self.orders
    }

    /// The threads' programs.
    pub(crate) fn programs(&self) -> &[Program]
        ensures list { result.now ≡ self.now.programs }
        ensures in_range { IsScript self.now }
    {
        &self.programs
    }

    /// How many operations the thread has, each block written out.
    pub fn count(&self, thread: u32) -> u64
        requires { thread < length self.now.programs }
        ensures value { result ≡ length (operations self.now thread) }
        ensures within { result ≤ 1048576 }
    {
        self.programs[thread as usize].count()
    }

    /// The thread's operations, from the first one on.
    pub fn cursor(&self, thread: u32) -> Cursor<'_>
        requires { thread < length self.now.programs }
        ensures rest { result.operations ≡ operations self.now thread }
        ensures globals { result.globals ≡ self.now.globals }
    {
        Cursor::new(self.globals, self.programs[thread as usize].items())
    }
}
