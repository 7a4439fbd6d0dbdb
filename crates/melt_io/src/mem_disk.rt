//! A disk in memory, of which calls can be made to fail, and whose readers can be made to lie.
ghost use Rattle.std.specs.Prelude.{◌≡◌, ◌≢◌, ℕ, ◌+◌, ◌<◌, ◌≤◌, ◌^◌, ◌↔◌, [], length, vec_len, IsErr, IsErrOf, IfOk};
ghost use Rattle.std.specs.Prelude.{OnOk, OnErr, Contains};
ghost use Rattle.std.specs.Vec.{vec_capacity};
ghost use Rattle.melt_io.specs.Outside.{CountsFault, Rose, counted, words_at, with_words};
ghost use Rattle.melt_io.specs.Lies.{told, with_lie, with_lies};

use crate::faults::Faults;
use crate::memory::is_due;
use crate::outside::{Failed, LendRefusal, RecordReader, StaleDisk};
use crate::overlay::write_over;
use crate::steady::copy_words;
use std::alloc::{AllocError, Global};

/// A disk in memory, of which `image` has the words from word 0 on. A write past its end fills it with
/// zeros up to there.
///
/// All numbers in the lists count from 1. The writes and the lends whose numbers stand in `fail_writes`
/// and `fail_lends` answer `Failed`, and change no word; so does a write that finds no memory. Each pair
/// of `fail_reads` has the number of a lend and that of a read on its reader, and this read fails. Each
/// triple of `lies` has the number of a lend, the place of a word, and the word that its reader gives
/// there instead. Where `lies` is not empty, the disk and its readers tell no content.
#[derive(Debug, Drop)]
pub struct MemDisk {
    pub image: Vec<u64>,
    pub writes: u64,
    pub fail_writes: Vec<u64>,
    pub lends: u64,
    pub fail_lends: Vec<u64>,
    pub fail_reads: Vec<(u64, u64)>,
    pub lies: Vec<(u64, u32, u64)>,
    pub faults: Faults,
    pub read_faults: u64,
    ghost word: { faults < 2 ^ 64 },
}

/// Reads a copy of a disk's words, made at the lend whose number is `lend`. Of the disk's reads that
/// fail, and of its lies, those of this lend are its own.
#[derive(Debug, Drop)]
pub struct MemReader {
    pub image: Vec<u64>,
    pub lend: u64,
    pub reads: u64,
    pub fail_reads: Vec<(u64, u64)>,
    pub lies: Vec<(u64, u32, u64)>,
    pub faults: Faults,
    ghost word: { faults < 2 ^ 64 },
}

impl MemDisk {
    /// A disk of zeros, of which no call fails but for want of memory, and whose readers do not lie.
    pub fn new(alloc: Global) -> MemDisk
        ensures image { result.image.items ≡ [] }
        ensures no_writes { result.writes ≡ 0 }
        ensures no_lends { result.lends ≡ 0 }
        ensures sound { (result.fail_writes.items ≡ []) × (result.fail_lends.items ≡ [])
            × (result.fail_reads.items ≡ []) }
        ensures honest { result.lies.items ≡ [] }
        ensures no_faults { result.faults ≡ 0 }
        ensures no_read_faults { result.read_faults ≡ 0 }
    {
        MemDisk {
            image: Vec::new(alloc),
            writes: 0,
            fail_writes: Vec::new(alloc),
            lends: 0,
            fail_lends: Vec::new(alloc),
            fail_reads: Vec::new(alloc),
            lies: Vec::new(alloc),
            faults: Faults::none(),
            read_faults: 0,
        }
    }
}

impl RecordReader for MemReader {
    ghost image = { λ r. told r.lies.items r.image.items };

    ghost faults = { λ r. r.faults };

    ghost reads = { λ r. r.reads };

    fn read_at(&mut self, at: u32, words: &mut [u64]) -> Result<(), Failed>
        ensures words { OnOk result (words.new ≡ with_lies self.old.lend at
            (words_at self.old.image.items at (length words.old)) self.old.lies.items) }
        ensures image { (self.new.image.items ≡ self.old.image.items) × (self.new.lies.items ≡ self.old.lies.items) }
        ensures faults { CountsFault result self.old.faults self.new.faults }
        ensures reads { self.new.reads ≡ counted self.old.reads 1 }
        ensures reads_rise { self.old.reads ≤ self.new.reads }
        ensures reads_word { self.new.reads < 2 ^ 64 }

        ensures due { IsErr result ↔ Contains self.old.fail_reads.items (self.old.lend, counted self.old.reads 1) }
        ensures kept { (self.new.lend ≡ self.old.lend) × (self.new.fail_reads.items ≡ self.old.fail_reads.items) }
    {
        self.reads = self.reads.saturating_add(1);
        if self.fail_reads.contains(&(self.lend, self.reads)) {
            return Err(self.faults.rise());
        }
        copy_words(&self.image, at as usize, words);
        // After the copy, so that a lie changes what this reader is told and never the disk.
        tell_lies(&self.lies, self.lend, at, words);
        Ok(())
    }
}

impl StaleDisk for MemDisk {
    type Reader = MemReader;

    ghost image = { λ d. told d.lies.items d.image.items };

    ghost faults = { λ d. d.faults };

    ghost read_faults = { λ d. d.read_faults };

    ghost lends = { λ d. d.lends };

    ghost writes = { λ d. d.writes };

    fn write_at(&mut self, at: u32, words: &[u64]) -> Result<(), Failed>
        requires some { 0 < length words.now }
        requires in_range { at + length words.now ≤ 2 ^ 32 }
        ensures written { OnOk result (self.new.image.items ≡ with_words self.old.image.items at words.now) }
        ensures others { OnErr result (self.new.image.items ≡ self.old.image.items) }
        ensures faults { CountsFault result self.old.faults self.new.faults }
        ensures read_faults { self.new.read_faults ≡ self.old.read_faults }
        ensures lends { self.new.lends ≡ self.old.lends }

        ensures due { Contains self.old.fail_writes.items (counted self.old.writes 1) → IsErr result }
        ensures full { IsErr result → ¬ Contains self.old.fail_writes.items (counted self.old.writes 1)
            → vec_capacity self.old.image < at + length words.now }
        ensures writes { self.new.writes ≡ counted self.old.writes 1 }
        ensures kept { (self.new.fail_writes.items ≡ self.old.fail_writes.items)
            × (self.new.fail_lends.items ≡ self.old.fail_lends.items)
            × (self.new.fail_reads.items ≡ self.old.fail_reads.items) }
        ensures lies { self.new.lies.items ≡ self.old.lies.items }
    {
        if is_due(&mut self.writes, &self.fail_writes)
            || write_over(&mut self.image, at as usize, words, 0).is_err()
        {
            return Err(self.faults.rise());
        }
        Ok(())
    }

    fn lend(&mut self, alloc: Global) -> Result<MemReader, LendRefusal>
        ensures lent { IfOk result (λ reader. reader.image.items ≡ self.old.image.items) }
        ensures no_fault_yet { IfOk result (λ reader. reader.faults ≡ 0) }
        ensures no_read_yet { IfOk result (λ reader. reader.reads ≡ 0) }
        ensures image { self.new.image.items ≡ self.old.image.items }
        ensures no_fault { OnOk result (self.new.faults ≡ self.old.faults) }
        ensures failed { IsErrOf result LendRefusal.Failed → Rose self.old.faults self.new.faults }
        ensures count { self.old.faults ≤ self.new.faults }
        ensures word { self.new.faults < 2 ^ 64 }
        ensures read_faults { self.new.read_faults ≡ self.old.read_faults }
        ensures lends { self.new.lends ≡ counted self.old.lends 1 }

        ensures due { IsErrOf result LendRefusal.Failed
            ↔ Contains self.old.fail_lends.items (counted self.old.lends 1) }
        ensures number { IfOk result (λ reader. reader.lend ≡ counted self.old.lends 1) }
        ensures lists { IfOk result (λ reader. (reader.fail_reads.items ≡ self.old.fail_reads.items)
            × (reader.lies.items ≡ self.old.lies.items)) }
        ensures writes { self.new.writes ≡ self.old.writes }
        ensures kept { (self.new.fail_writes.items ≡ self.old.fail_writes.items)
            × (self.new.fail_lends.items ≡ self.old.fail_lends.items)
            × (self.new.fail_reads.items ≡ self.old.fail_reads.items) }
        ensures lies { self.new.lies.items ≡ self.old.lies.items }
    {
        if is_due(&mut self.lends, &self.fail_lends) {
            self.faults.rise();
            return Err(LendRefusal::Failed);
        }
        reader_of(self, alloc).map_err(|_| LendRefusal::NoMemory)
    }

    fn give_back(&mut self, reader: MemReader)
        ensures image { self.new.image.items ≡ self.old.image.items }
        ensures count { self.new.faults ≡ self.old.faults }
        ensures read_faults { self.new.read_faults ≡ counted self.old.read_faults reader.faults }
        ensures lends { self.new.lends ≡ self.old.lends }

        ensures writes { self.new.writes ≡ self.old.writes }
        ensures kept { (self.new.fail_writes.items ≡ self.old.fail_writes.items)
            × (self.new.fail_lends.items ≡ self.old.fail_lends.items)
            × (self.new.fail_reads.items ≡ self.old.fail_reads.items) }
        ensures lies { self.new.lies.items ≡ self.old.lies.items }
    {
        self.read_faults = self.read_faults.saturating_add(reader.faults.count());
    }
}

/// A reader of the words as they are now, with the number of the last lend.
fn reader_of(disk: &MemDisk, alloc: Global) -> Result<MemReader, AllocError>
    ensures image { IfOk result (λ reader. reader.image.items ≡ disk.now.image.items) }
    ensures lend { IfOk result (λ reader. reader.lend ≡ disk.now.lends) }
    ensures unread { IfOk result (λ reader. reader.reads ≡ 0) }
    ensures fail_reads { IfOk result (λ reader. reader.fail_reads.items ≡ disk.now.fail_reads.items) }
    ensures lies { IfOk result (λ reader. reader.lies.items ≡ disk.now.lies.items) }
    ensures no_faults { IfOk result (λ reader. reader.faults ≡ 0) }
{
    Ok(MemReader {
        image: Vec::from_slice(alloc, &disk.image)?,
        lend: disk.lends,
        reads: 0,
        fail_reads: Vec::from_slice(alloc, &disk.fail_reads)?,
        lies: Vec::from_slice(alloc, &disk.lies)?,
        faults: Faults::none(),
    })
}

/// Puts what the lies of a lend say into the words, which are those from word `at` on.
fn tell_lies(lies: &[(u64, u32, u64)], lend: u64, at: u32, words: &mut [u64])
    ensures { words.new ≡ with_lies lend at words.old lies.now }
{
    for lie in lies {
        tell_lie(lie, lend, at, words);
    }
}

/// Puts what a lie says into the words, which are those from word `at` on, if it is one of this lend.
fn tell_lie(lie: &(u64, u32, u64), lend: u64, at: u32, words: &mut [u64])
    ensures { words.new ≡ with_lie lend at words.old lie.now }
{
    let (whose, place, value) = *lie;
    if whose != lend || place < at {
        return;
    }
    let index = (place - at) as usize;
    if index < words.len() {
        words[index] = value;
    }
}
