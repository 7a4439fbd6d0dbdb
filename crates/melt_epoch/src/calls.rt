//! The calls of threads on an epoch.
ghost use Rattle.std.specs.Prelude.{◌≡◌, ◌≢◌, ◌+◌, ◌*◌, ◌<◌, ◌≤◌};
ghost use Rattle.melt_model.specs.declared.operations.Op.TheVariants.{Get, GStore, New, Put, Store};
ghost use Rattle.melt_epoch.specs.Calls.{HoldsOnly, IsAsked, IsMade, IsPlain};
ghost use Rattle.melt_epoch.specs.Mutators.{HasReader, IsSeated};
ghost use Rattle.melt_epoch.specs.Loading.{IsGlobalLoaded, IsSlotLoaded, KeepsCount, ReadsTwice};

use crate::epoch::Epoch;
use crate::load::{Loaded, load_global, load_slot};
use crate::make::make_object;
use crate::mutator::Mutator;
use crate::steps::{read_number, write_global, write_number, write_slot};
use melt_core::Refusal;
use melt_io::RecordReader;
use melt_model::Reply;
use melt_word::Shape;

impl Epoch {
    /// Reads number word `j` of the object in register `src`.
    pub fn get<R>(&self, m: &mut Mutator<R>, src: u8, j: u8) -> Result<Reply, Refusal>
        requires seated { IsSeated self.now.words m.old }
        requires register { src < 16 }
        ensures seated { IsSeated self.now.words m.new }
        ensures plain { IsPlain m.old m.new (Get src j) 3 result }
    {
        let address = m.registers.regs[src as usize];
        let Some(seat) = m.seat.as_mut() else {
            unreachable!();
        };
        read_number(&self.words, seat, address, j)
    }

    /// Writes number word `j` of the object in register `obj`.
    pub fn put<R>(&self, m: &mut Mutator<R>, obj: u8, j: u8, v: u64) -> Result<Reply, Refusal>
        requires seated { IsSeated self.now.words m.old }
        requires register { obj < 16 }
        ensures seated { IsSeated self.now.words m.new }
        ensures plain { IsPlain m.old m.new (Put obj j v) 3 result }
    {
        let address = m.registers.regs[obj as usize];
        let Some(seat) = m.seat.as_mut() else {
            unreachable!();
        };
        write_number(&self.words, seat, address, j, v)
    }

    /// Writes what register `src` holds into reference slot `i` of the object in register `obj`.
    pub fn store<R>(&self, m: &mut Mutator<R>, obj: u8, i: u8, src: u8) -> Result<Reply, Refusal>
        requires seated { IsSeated self.now.words m.old }
        requires registers { (obj < 16) × (src < 16) }
        ensures seated { IsSeated self.now.words m.new }
        ensures plain { IsPlain m.old m.new (Store obj i src) 3 result }
    {
        let address = m.registers.regs[obj as usize];
        let held = m.registers.regs[src as usize];
        let Some(seat) = m.seat.as_mut() else {
            unreachable!();
        };
        write_slot(&self.words, seat, address, i, held)
    }

    /// Writes what register `src` holds into a global.
    pub fn gstore<R>(&self, m: &mut Mutator<R>, g: u8, src: u8) -> Result<Reply, Refusal>
        requires seated { IsSeated self.now.words m.old }
        requires global { g < self.now.words.start.began.globals }
        requires register { src < 16 }
        ensures seated { IsSeated self.now.words m.new }
        ensures plain { IsPlain m.old m.new (GStore g src) 2 result }
    {
        let held = m.registers.regs[src as usize];
        let Some(seat) = m.seat.as_mut() else {
            unreachable!();
        };
        write_global(&self.words, seat, g, held)
    }

    /// Makes an object with so many reference slots and number words, at most 62 of
    /// each, and lets register `dst` hold it.
    pub fn make<R>(&self, m: &mut Mutator<R>, dst: u8, refs: u8, nums: u8) -> Result<Reply, Refusal>
        requires seated { IsSeated self.now.words m.old }
        requires register { dst < 16 }
        requires shape { (refs ≤ 62) × (nums ≤ 62) }
        ensures seated { IsSeated self.now.words m.new }
        ensures made { IsMade m.old m.new (New dst refs nums) (record { refs = refs; nums = nums }) result }
        ensures holds { HoldsOnly m.old m.new dst result }
    {
        let Some(seat) = m.seat.as_mut() else {
            unreachable!();
        };
        let address = make_object(&self.words, seat, Shape { refs, nums })?;
        m.hold(dst, address);
        Ok(Reply::Done)
    }

    /// Loads a global into register `dst`.
    #[inline(always)]
    pub fn gload<R: RecordReader>(
        &self,
        m: &mut Mutator<R>,
        dst: u8,
        g: u8,
    ) -> Result<Reply, Refusal>
        requires seated { IsSeated self.now.words m.old }
        requires reader { HasReader R.image self.now.words m.old }
        requires register { dst < 16 }
        requires global { g < self.now.words.start.began.globals }
        ensures seated { IsSeated self.now.words m.new }
        ensures reader { HasReader R.image self.now.words m.new }
        ensures loaded { IsGlobalLoaded R.image R.faults self.now.words.start.began.told self.now.heap.scions
            self.now.end
            m.old m.new dst g (2 * self.now.words.start.began.forwards + 133) result }
        ensures two_reads { ReadsTwice R.reads m.old m.new }
        ensures count { KeepsCount R.faults m.old m.new }
        ensures holds { HoldsOnly m.old m.new dst result }
    {
        let (Some(seat), Some(reader)) = (m.seat.as_mut(), m.reader.as_mut()) else {
            unreachable!();
        };
        let target = load_global(&self.words, seat, &self.heap, self.end, reader, g)?;
        m.hold(dst, target);
        Ok(reply_of(target))
    }

    /// Loads reference slot `i` of the object in register `src` into register `dst`.
    #[inline(always)]
    pub fn load<R: RecordReader>(
        &self,
        m: &mut Mutator<R>,
        dst: u8,
        src: u8,
        i: u8,
    ) -> Result<Reply, Refusal>
        requires seated { IsSeated self.now.words m.old }
        requires reader { HasReader R.image self.now.words m.old }
        requires registers { (dst < 16) × (src < 16) }
        ensures seated { IsSeated self.now.words m.new }
        ensures reader { HasReader R.image self.now.words m.new }
        ensures loaded { IsSlotLoaded R.image R.faults self.now.words.start.began.told self.now.heap.scions self.now.end
            m.old m.new dst src i (2 * self.now.words.start.began.forwards + 134) result }
        ensures two_reads { ReadsTwice R.reads m.old m.new }
        ensures count { KeepsCount R.faults m.old m.new }
        ensures holds { HoldsOnly m.old m.new dst result }
    {
        let address = m.registers.regs[src as usize];
        let (Some(seat), Some(reader)) = (m.seat.as_mut(), m.reader.as_mut()) else {
            unreachable!();
        };
        match load_slot(&self.words, seat, &self.heap, self.end, reader, address, i) {
            Ok(Loaded::Nil) => Ok(Reply::Nil),
            Ok(Loaded::Range) => Ok(Reply::Range),
            Ok(Loaded::At(target)) => {
                m.hold(dst, target);
                Ok(reply_of(target))
            }
            Err(refusal) => Err(refusal),
        }
    }

    /// Asks all threads to stop: each call that begins from then on is refused.
    pub fn ask<R>(&self, m: &mut Mutator<R>)
        requires seated { IsSeated self.now.words m.old }
        ensures seated { IsSeated self.now.words m.new }
        ensures asked { IsAsked m.old m.new }
    {
        let Some(seat) = m.seat.as_mut() else {
            unreachable!();
        };
        self.words.ask(seat);
    }
}

/// What a load replies that found the object at this address, or nothing at 0.
fn reply_of(address: u32) -> Reply
    ensures null { address ≡ 0 → result ≡ Reply.Null }
    ensures some { address ≢ 0 → result ≡ Reply.Ref }
{
    if address == 0 {
        Reply::Null
    } else {
        Reply::Ref
    }
}
