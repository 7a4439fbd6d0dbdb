//! A script that is being read.
ghost use Rattle.std.specs.Prelude.{◌≡◌, ◌==◌, ◌<◌, ◌≤◌, if◌then◌else◌, [], ◌∷◌};
ghost use Rattle.melt_trace.specs.Language.{after_repeat, after_end, after_done, after_order};
ghost use Rattle.melt_trace.specs.Language.{after_operation, IsScript};
ghost use Rattle.melt_trace.specs.Drafts.{place_of, IsSoundDraft, LeadsTo};

use crate::language::Expected;
use crate::parser::fault::Fault;
use crate::reason::Reason;
use crate::script::Item;
use crate::trace::{Program, Trace};
use melt_model::Op;
use std::alloc::Global;
use std::collections::VecDeque;
use std::mem;

const MAX_DEPTH: usize = 4;

const MAX_ORDERS: usize = 65_536;

const MAX_OPERATIONS: u32 = 1_048_576;

/// What is wanted after so many programs.
fn expected_after(programs: usize, threads: u32) -> Expected
    ensures { result ≡ (if programs == threads then Expected.Over else Expected.Between) }
{
    if programs == threads as usize {
        Expected::Over
    } else {
        Expected::Between
    }
}

/// An open block: how often it stands, and how many operations what is around it has in front of it.
#[derive(Clone, Copy)]
pub struct Block {
    pub times: u32,
    pub before: u32,
}

/// What the lines so far say. Counts of operations stay at the highest `u32` once they reach it.
#[derive(Drop)]
pub struct Draft {
    pub stage: Expected,
    pub threads: u32,
    pub globals: u32,
    pub orders: Vec<(u32, u32)>,
    pub programs: Vec<Program>,
    /// How many operations these programs have, each block written out.
    pub total: u32,
    /// The lines of the program that is open.
    pub items: Vec<Item>,
    /// Its open blocks, the innermost first.
    pub blocks: VecDeque<Block>,
    /// How many operations the innermost of them has so far, or the program, where no block is open.
    pub count: u32,
}

impl Draft {
    /// No orders and no programs.
    pub fn empty(alloc: Global, stage: Expected, threads: u32, globals: u32) -> Draft
        requires { globals ≤ 64 }
        ensures place { place_of result ≡ record {
          stage = stage;
          threads = threads;
          script = record { globals = globals; orders = []; programs = [] };
          items = [];
          blocks = [];
        } }
        ensures sound { IsSoundDraft result }
    {
        Draft {
            stage,
            threads,
            globals,
            orders: Vec::new(alloc),
            programs: Vec::new(alloc),
            total: 0,
            items: Vec::new(alloc),
            blocks: VecDeque::new(alloc),
            count: 0,
        }
    }

    /// The trace that it is, where it is whole.
    pub fn into_trace(self) -> Trace
        requires { IsScript (place_of self).script }
        ensures { result ≡ (place_of self).script }
    {
        let Draft {
            globals,
            orders,
            programs,
            ..
        } = self;
        Trace::new(globals, orders, programs)
    }

    pub fn operation(&mut self, op: Op) -> Result<(), Fault>
        requires { IsSoundDraft self.old }
        ensures { LeadsTo result self.new (after_operation (place_of self.old) (Some op)) }
    {
        self.items.push(Item::Op(op))?;
        self.count = self.count.saturating_add(1);
        Ok(())
    }

    pub fn repeat(&mut self, times: u32) -> Result<(), Fault>
        requires sound { IsSoundDraft self.old }
        requires some { 0 < times }
        ensures { LeadsTo result self.new (after_repeat (place_of self.old) (times ∷ [])) }
    {
        if self.blocks.len() >= MAX_DEPTH {
            return Err(Fault::Bad(Reason::TooDeep));
        }
        self.items.push(Item::Repeat(times))?;
        // The innermost block is the first, since the next `end` is its own.
        let before = self.count;
        self.blocks.push_front(Block { times, before })?;
        self.count = 0;
        Ok(())
    }

    pub fn end(&mut self) -> Result<(), Fault>
        requires { IsSoundDraft self.old }
        ensures { LeadsTo result self.new (after_end (place_of self.old) (place_of self.old).blocks) }
    {
        let Some(block) = self.blocks.pop_front() else {
            return Err(Fault::Bad(Reason::OutOfPlace));
        };
        if self.count == 0 {
            return Err(Fault::Bad(Reason::EmptyBlock));
        }
        self.items.push(Item::End)?;
        // Counts saturate and never wrap, so a block that is far too long is refused at `done` still.
        let unrolled = block.times.saturating_mul(self.count);
        self.count = block.before.saturating_add(unrolled);
        Ok(())
    }

    pub fn done(&mut self, alloc: Global) -> Result<(), Fault>
        requires sound { IsSoundDraft self.old }
        requires closed { (place_of self.old).blocks ≡ [] }
        ensures { LeadsTo result self.new (after_done (place_of self.old)) }
    {
        let total = self.total.saturating_add(self.count);
        if total > MAX_OPERATIONS {
            return Err(Fault::Bad(Reason::ManyOperations));
        }
        let items = mem::replace(&mut self.items, Vec::new(alloc));
        self.programs
            .push(Program::new(items, u64::from(self.count)))?;
        self.total = total;
        self.count = 0;
        self.stage = expected_after(self.programs.len(), self.threads);
        Ok(())
    }

    /// Begins a stage in which no program has a line.
    pub fn restart(&mut self, stage: Expected, threads: u32)
        requires { IsSoundDraft self.old }
        ensures place { place_of self.new ≡ record {
          stage = stage;
          threads = threads;
          script = (place_of self.old).script;
          items = [];
          blocks = [];
        } }
        ensures sound { IsSoundDraft self.new }
    {
        self.stage = stage;
        self.threads = threads;
        self.items.clear();
        self.blocks.clear();
        self.count = 0;
    }

    pub fn order(&mut self, thread: u32, events: u32) -> Result<(), Fault>
        requires { IsSoundDraft self.old }
        ensures { LeadsTo result self.new (after_order (place_of self.old) (thread ∷ events ∷ [])) }
    {
        if self.orders.len() >= MAX_ORDERS {
            return Err(Fault::Bad(Reason::OutOfRange));
        }
        self.orders.push((thread, events))?;
        Ok(())
    }
}
