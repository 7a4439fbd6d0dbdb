//! What a thread holds: its registers, its reader of the disk, and within an epoch its seat.
ghost use Rattle.std.specs.Prelude.{◌≡◌, ◌<◌, true, List, None, Some, length, replicate, slice_set};
ghost use Rattle.std.specs.Option.{is_some};
ghost use Rattle.melt_model.specs.Thread.{value_in};
ghost use Rattle.melt_model.specs.declared.history.Entry.{Entry};
ghost use Rattle.melt_model.specs.declared.history.Value.TheVariants.{Nil};
ghost use Rattle.melt_model.specs.declared.operations.Op.TheVariants.{Copy, Drop, Same};
ghost use Rattle.melt_core.specs.Answering.{Answers};
ghost use Rattle.melt_rule.specs.Seats.{EpochWords};
ghost use Rattle.melt_epoch.specs.Mutators.{IsSeated, given_to, with_reference, with_none};

use melt_model::{Ghost, Reply, Value};
use melt_rule::Seated;
use melt_scion::Registers;
use std::collections::LinkedList;

/// The registers of a thread, with the values that they stand for, which contracts alone see; its seat while it takes
/// part in an epoch; and its reader of the disk.
#[derive(Drop)]
pub struct Mutator<R> {
    pub(crate) thread: u32,
    pub(crate) registers: Registers,
    pub(crate) values: Ghost<LinkedList<Value>>,
    pub(crate) seat: Option<Seated>,
    pub(crate) reader: Option<R>,
}

impl<R> Mutator<R> {
    /// The mutator of a thread, whose registers hold nothing. It has no reader and takes part in no epoch.
    pub fn new(thread: u32) -> Mutator<R>
        requires { thread < 8 }
        ensures thread { result.thread ≡ thread }
        ensures registers { result.registers.regs ≡ replicate 16 0 }
        ensures values { result.values ≡ replicate 16 Nil }
        ensures seat { result.seat ≡ None }
        ensures reader { result.reader ≡ None }
    {
        Mutator {
            thread,
            registers: Registers { regs: [0; 16] },
            values: Ghost::pick(&()),
            seat: None,
            reader: None,
        }
    }

    /// The number of its thread.
    pub fn thread(&self) -> u32
        ensures { result ≡ self.now.thread }
    {
        self.thread
    }

    /// Writes an address into a register.
    fn set(&mut self, r: u8, address: u32)
        requires { r < 16 }
        ensures sets { self.new
            ≡ record self.old { registers = record { regs = slice_set self.old.registers.regs r address } } }
        ensures sixteen { length self.old.registers.regs ≡ 16 }
    {
        self.registers.regs[r as usize] = address;
    }

    /// Lets a register hold the object at an address, or nothing at 0. It stands for what the last entry that the seat
    /// has seen gave.
    pub(crate) fn hold(&mut self, r: u8, address: u32)
        requires { r < 16 }
        ensures holds { self.new ≡ with_reference self.old r address (given_to self.old.seat) }
        ensures sixteen { length self.old.registers.regs ≡ 16 }
    {
        let values = Ghost::pick(&(&self.values, &self.seat, r));
        self.set(r, address);
        self.values = values;
    }

    /// Whether two registers hold one object, or both hold none.
    pub fn same(&self, a: u8, b: u8) -> Reply
        requires registers { (a < 16) × (b < 16) }
        ensures answers { (words : EpochWords) (h : List Entry) → IsSeated words self.now
            → words.start.began.told ≡ true
            → Answers self.now.thread h self.now.values (Same a b) result h self.now.values }
    {
        if self.registers.regs[a as usize] == self.registers.regs[b as usize] {
            Reply::Yes
        } else {
            Reply::No
        }
    }

    /// Lets register `dst` hold what `src` does.
    pub fn copy_reg(&mut self, dst: u8, src: u8) -> Reply
        requires registers { (dst < 16) × (src < 16) }
        ensures seated { (words : EpochWords) → IsSeated words self.old → IsSeated words self.new }
        ensures seat { self.new.seat ≡ self.old.seat }
        ensures reader { self.new.reader ≡ self.old.reader }
        ensures answers { (h : List Entry)
            → Answers self.old.thread h self.old.values (Copy dst src) result h self.new.values }
    {
        let values = Ghost::pick(&(&self.values, dst, src));
        self.set(dst, self.registers.regs[src as usize]);
        self.values = values;
        Reply::Done
    }

    /// Lets a register hold nothing.
    pub fn drop_reg(&mut self, r: u8) -> Reply
        requires register { r < 16 }
        ensures seated { (words : EpochWords) → IsSeated words self.old → IsSeated words self.new }
        ensures seat { self.new.seat ≡ self.old.seat }
        ensures reader { self.new.reader ≡ self.old.reader }
        ensures answers { (h : List Entry) → Answers self.old.thread h self.old.values (Drop r) result h self.new.values }
    {
        let values = Ghost::pick(&(&self.values, r));
        self.set(r, 0);
        self.values = values;
        Reply::Done
    }

    /// Lets no register hold anything.
    pub fn drop_all(&mut self)
        ensures { self.new ≡ with_none self.old }
    {
        self.registers = Registers { regs: [0; 16] };
        self.values = Ghost::pick(&());
    }

    /// What the registers hold: 0 for nothing, or the address of an object.
    pub fn registers(&self) -> Registers
        ensures { result ≡ self.now.registers }
    {
        self.registers
    }

    /// Replaces the addresses in the registers, which stand for the same values: a collection moved their objects. The
    /// mutator takes part in no epoch.
    pub fn set_registers(&mut self, registers: Registers)
        requires { self.old.seat ≡ None }
        ensures { self.new ≡ record self.old { registers = registers } }
    {
        self.registers = registers;
    }

    /// Takes the reader, where there is one.
    pub fn take_reader(&mut self) -> Option<R>
        ensures reader { result ≡ self.old.reader }
        ensures none { self.new ≡ record self.old { reader = None } }
    {
        self.reader.take()
    }

    /// Gives the mutator up, which takes part in no epoch, and its reader back, where there is one.
    pub fn into_reader(self) -> Option<R>
        requires { self.seat ≡ None }
        ensures { result ≡ self.reader }
    {
        let Mutator {
            thread: _,
            registers: _,
            values: _,
            seat: _,
            reader,
        } = self;
        reader
    }
}

impl<R: Drop> Mutator<R> {
    /// Gives the mutator a reader of the disk. A reader that it has is dropped.
    pub fn set_reader(&mut self, reader: R)
        ensures { self.new ≡ record self.old { reader = Some reader } }
    {
        self.reader = Some(reader);
    }
}
