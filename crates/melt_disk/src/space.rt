//! Homes on a disk, and the records that are written at them. Homes follow one another from word 1 to the end, so
//! two of them are one or have no word in common, and no list of them is kept.
ghost use Rattle.std.specs.Prelude.{◌≡◌, ◌↔◌, ◌+◌, ◌^◌, ◌<◌, ◌≤◌, List, [], ◌∷◌, ◌++◌, length, IsErr, IfSome, IfOk};
ghost use Rattle.std.specs.Prelude.{IfErr, OnOk, OnErr, IsErrOf};
ghost use Rattle.melt_disk.specs.Homes.{AreHomes, Home, KeepsApart, LiesIn, Stale, need_of};
ghost use Rattle.melt_io.specs.Outside.{KeepsOthers, Rose, Writes, counted, words_at};
ghost use Rattle.melt_record.specs.Records.{AreSlots, IsScion, body_words, stub_words};
ghost use Rattle.melt_word.specs.Words.{IsDiskHome, IsShape, cost_of};

use melt_io::{Failed, LendRefusal, StaleDisk};
use melt_record::{encode_body, encode_stub};
use melt_word::{Shape, cost};
use std::alloc::Global;
use std::marker::Model;
use thiserror::Error;

/// The greatest cost of an object, in words.
const MAX_COST: usize = 126;

/// How many words of a Stub are written: its head.
const STUB_WORDS: usize = 2;

/// The disk has no room for another home: `need` words from word `end` on reach past `limit`.
#[derive(Clone, Copy, Debug, PartialEq, Eq, Error)]
#[error("the disk has no room for a home of {need} words from word {end} on, before word {limit}")]
pub struct DiskFull {
    /// The first word past all homes.
    pub end: u32,
    /// How many words the home takes.
    pub need: u32,
    /// The first word that no home may reach.
    pub limit: u32,
}

/// The homes of moved objects on a disk. Word 0 is never used.
#[derive(Drop)]
pub struct StaleSpace<'d, D: StaleDisk> {
    disk: &'d mut D,
    end: u32,
    limit: u32,
}

impl<'d, D: StaleDisk> Model for StaleSpace<'d, D> {
    ghost Value = { Stale D };

    ghost view = { λ space. record { disk = space.disk; end = space.end; limit = space.limit } };

    ghost invariant = { λ space. (1 ≤ space.end) × (space.end < 2 ^ 32) };
}

impl<'d, D: StaleDisk> StaleSpace<'d, D> {
    /// A space with no homes. `limit` is the first word that no home may reach.
    pub fn new(disk: &'d mut D, limit: u32) -> StaleSpace<'d, D>
        ensures same_disk { result.disk.ghost_name ≡ disk.entry.ghost_name }
        ensures disk { result.disk.now ≡ disk.old }
        ensures end { result.end ≡ 1 }
        ensures limit { result.limit ≡ limit }
        ensures homes { AreHomes result [] }
    {
        StaleSpace {
            disk,
            end: 1,
            limit,
        }
    }

    /// Hands back the disk.
    pub fn into_disk(self) -> &'d mut D
        ensures same_disk { result.ghost_name ≡ self.entry.disk.ghost_name }
        ensures disk { result.now ≡ self.entry.disk.now }
    {
        self.disk
    }

    /// The first word that no home may reach.
    pub fn limit(&self) -> u32
        ensures { result ≡ self.now.limit }
    {
        self.limit
    }

    /// The first word past all homes.
    pub fn end(&self) -> u32
        ensures { result ≡ self.now.end }
    {
        self.end
    }

    /// Reserves the words of an object of the shape after all homes, and answers the first of them.
    pub fn reserve_home(&mut self, shape: Shape) -> Result<u32, DiskFull>
        requires { IsShape shape }
        ensures home { IfOk result (λ home. home ≡ self.old.end) }
        ensures number { IfOk result (λ home. IsDiskHome home) }
        ensures raised { OnOk result (self.new.end ≡ self.old.end + cost_of shape) }
        ensures homes { IfOk result (λ home. (homes : List Home) → AreHomes self.old homes →
            AreHomes self.new (homes ++ record { at = home; shape = shape } ∷ [])) }
        ensures full { IsErr result ↔ (self.old.limit < self.old.end + cost_of shape) }
        ensures refusal { IfErr result (λ full.
            full ≡ record { end = self.old.end; need = cost_of shape; limit = self.old.limit }) }
        ensures unmoved { OnErr result (self.new.end ≡ self.old.end) }
        ensures limit { self.new.limit ≡ self.old.limit }
        ensures same_disk { self.new.disk.ghost_name ≡ self.old.disk.ghost_name }
        ensures disk { self.new.disk.now ≡ self.old.disk.now }
    {
        let need = cost(shape);
        // In 64 bits, as the end may be near 2^32.
        if u64::from(self.end) + u64::from(need) > u64::from(self.limit) {
            return Err(DiskFull {
                end: self.end,
                need,
                limit: self.limit,
            });
        }
        let home = self.end;
        self.end += need;
        Ok(home)
    }

    /// Writes the Body of an object of the shape at its home, which lies between word 1 and the end. A disk that lied
    /// may have told another shape than the home was reserved for, and then words of other homes are written. `slots`
    /// has the reference slots and then the number words. After an `Err` the words of the home may be anything.
    pub fn write_body(&mut self, home: u32, shape: Shape, slots: &[u64]) -> Result<(), Failed>
        requires lies { LiesIn 1 self.old.end (record { at = home; shape = shape }) }
        requires slots { length slots.now ≡ shape.refs + shape.nums }
        requires refs { AreSlots (2 ^ 32) shape.refs slots.now }
        ensures one_write { D.writes self.new.disk.now ≡ counted (D.writes self.old.disk.now) 1 }
        ensures written { OnOk result (Writes (D.image self.old.disk.now) home
            (body_words home shape slots.now) (D.image self.new.disk.now)) }
        ensures read { OnOk result (IfSome (D.image self.new.disk.now) (λ image.
            words_at image home (cost_of shape) ≡ body_words home shape slots.now)) }
        ensures others { OnErr result (KeepsOthers (D.image self.old.disk.now) home (cost_of shape)
            (D.image self.new.disk.now)) }
        ensures apart { KeepsApart (D.image self.old.disk.now) home (cost_of shape)
            (D.image self.new.disk.now) }
        ensures failed { OnErr result (Rose (D.faults self.old.disk.now) (D.faults self.new.disk.now)) }
        ensures count { D.faults self.old.disk.now ≤ D.faults self.new.disk.now }
        ensures read_faults { D.read_faults self.new.disk.now ≡ D.read_faults self.old.disk.now }
        ensures lends { D.lends self.new.disk.now ≡ D.lends self.old.disk.now }
        ensures end { self.new.end ≡ self.old.end }
        ensures limit { self.new.limit ≡ self.old.limit }
        ensures same_disk { self.new.disk.ghost_name ≡ self.old.disk.ghost_name }
    {
        let len = cost(shape) as usize;
        // On the stack and as large as any record, so that a write takes no memory and cannot fail for want of it.
        let mut words = [0; MAX_COST];
        encode_body(home, shape, slots, &mut words[..len]);
        write_record(self.disk, home, &words[..len])
    }

    /// Writes the head of the Stub of an object of the shape at its home, as `write_body` does, and leaves the words
    /// after the head as they are. After an `Err` the two words of the head may be anything.
    pub fn write_stub(&mut self, home: u32, shape: Shape, scion: u32) -> Result<(), Failed>
        requires lies { LiesIn 1 self.old.end (record { at = home; shape = shape }) }
        requires scion { IsScion scion }
        ensures one_write { D.writes self.new.disk.now ≡ counted (D.writes self.old.disk.now) 1 }
        ensures written { OnOk result (Writes (D.image self.old.disk.now) home
            (stub_words home shape scion) (D.image self.new.disk.now)) }
        ensures read { OnOk result (IfSome (D.image self.new.disk.now) (λ image.
            words_at image home 2 ≡ stub_words home shape scion)) }
        ensures others { OnErr result (KeepsOthers (D.image self.old.disk.now) home 2
            (D.image self.new.disk.now)) }
        ensures apart { KeepsApart (D.image self.old.disk.now) home 2 (D.image self.new.disk.now) }
        ensures failed { OnErr result (Rose (D.faults self.old.disk.now) (D.faults self.new.disk.now)) }
        ensures count { D.faults self.old.disk.now ≤ D.faults self.new.disk.now }
        ensures read_faults { D.read_faults self.new.disk.now ≡ D.read_faults self.old.disk.now }
        ensures lends { D.lends self.new.disk.now ≡ D.lends self.old.disk.now }
        ensures end { self.new.end ≡ self.old.end }
        ensures limit { self.new.limit ≡ self.old.limit }
        ensures same_disk { self.new.disk.ghost_name ≡ self.old.disk.ghost_name }
    {
        let mut words = [0; STUB_WORDS];
        encode_stub(home, shape, scion, &mut words);
        write_record(self.disk, home, &words)
    }

    /// Lends a reader of the disk's words as they are now.
    pub fn lend(&mut self, alloc: Global) -> Result<D::Reader, LendRefusal>
        ensures lent { IfOk result (λ reader. D.Reader.image reader ≡ D.image self.old.disk.now) }
        ensures no_fault_yet { IfOk result (λ reader. D.Reader.faults reader ≡ 0) }
        ensures no_read_yet { IfOk result (λ reader. D.Reader.reads reader ≡ 0) }
        ensures image { D.image self.new.disk.now ≡ D.image self.old.disk.now }
        ensures failed { IsErrOf result LendRefusal.Failed →
            Rose (D.faults self.old.disk.now) (D.faults self.new.disk.now) }
        ensures count { D.faults self.old.disk.now ≤ D.faults self.new.disk.now }
        ensures read_faults { D.read_faults self.new.disk.now ≡ D.read_faults self.old.disk.now }
        ensures lends { D.lends self.new.disk.now ≡ counted (D.lends self.old.disk.now) 1 }
        ensures writes { D.writes self.new.disk.now ≡ D.writes self.old.disk.now }
        ensures end { self.new.end ≡ self.old.end }
        ensures limit { self.new.limit ≡ self.old.limit }
        ensures same_disk { self.new.disk.ghost_name ≡ self.old.disk.ghost_name }
    {
        self.disk.lend(alloc)
    }

    /// Takes a reader back.
    pub fn give_back(&mut self, reader: D::Reader)
        ensures image { D.image self.new.disk.now ≡ D.image self.old.disk.now }
        ensures count { D.faults self.new.disk.now ≡ D.faults self.old.disk.now }
        ensures read_faults { D.read_faults self.new.disk.now ≡
            counted (D.read_faults self.old.disk.now) (D.Reader.faults reader) }
        ensures lends { D.lends self.new.disk.now ≡ D.lends self.old.disk.now }
        ensures writes { D.writes self.new.disk.now ≡ D.writes self.old.disk.now }
        ensures end { self.new.end ≡ self.old.end }
        ensures limit { self.new.limit ≡ self.old.limit }
        ensures same_disk { self.new.disk.ghost_name ≡ self.old.disk.ghost_name }
    {
        self.disk.give_back(reader);
    }

    /// By how many words `end` grows when `counts[cost]` homes of each cost are reserved.
    pub fn need(&self, counts: &[u32; 127]) -> u32
        requires { need_of counts.now < 2 ^ 32 }
        ensures { result ≡ need_of counts.now }
    {
        let mut need = 0;
        for (cost, count) in counts.iter().enumerate() {
            need += cost as u32 * *count;
        }
        need
    }
}

/// Writes the words of a record at its home, by one write.
#[tactic(auto, using(crate::proofs::Apart::write_apart, crate::proofs::Apart::write_read))]
fn write_record<D: StaleDisk>(disk: &mut D, home: u32, words: &[u64]) -> Result<(), Failed>
    requires some { 0 < length words.now }
    requires in_range { home + length words.now ≤ 2 ^ 32 }
    ensures one_write { D.writes disk.new ≡ counted (D.writes disk.old) 1 }
    ensures written { OnOk result (Writes (D.image disk.old) home words.now (D.image disk.new)) }
    ensures read { OnOk result (IfSome (D.image disk.new) (λ image.
        words_at image home (length words.now) ≡ words.now)) }
    ensures others { OnErr result (KeepsOthers (D.image disk.old) home (length words.now)
        (D.image disk.new)) }
    ensures apart { KeepsApart (D.image disk.old) home (length words.now) (D.image disk.new) }
    ensures failed { OnErr result (Rose (D.faults disk.old) (D.faults disk.new)) }
    ensures count { D.faults disk.old ≤ D.faults disk.new }
    ensures read_faults { D.read_faults disk.new ≡ D.read_faults disk.old }
    ensures lends { D.lends disk.new ≡ D.lends disk.old }
{
    disk.write_at(home, words)
}
