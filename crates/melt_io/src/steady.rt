//! Forms in memory with no lists of calls that fail: they fail only where a write finds no memory.
ghost use Rattle.std.specs.Prelude.{◌≡◌, ℕ, ◌+◌, ◌<◌, ◌≤◌, ◌^◌, ◌-◌, Some, [], ◌++◌, length, take, drop, min, vec_len};
ghost use Rattle.std.specs.Prelude.{IsOk, IsOkUnless, IfOk, OnOk, OnErr};
ghost use Rattle.std.specs.Vec.{vec_capacity};
ghost use Rattle.melt_io.specs.Outside.{CountsFault, counted, words_at, with_words};

use crate::faults::Faults;
use crate::memory::take_next;
use crate::outside::{Failed, LendRefusal, RecordReader, Sink, Source, StaleDisk};
use crate::overlay::write_over;
use std::alloc::Global;

/// Gives the bytes from `pos` on, at each read as many as fit the buffer. It never fails.
#[derive(Debug, Drop)]
pub struct SteadySource {
    pub bytes: Vec<u8>,
    pub pos: usize,
}

/// Appends each piece to `bytes`, whole. It fails only where it finds no memory.
#[derive(Debug, Drop)]
pub struct SteadySink {
    pub bytes: Vec<u8>,
    pub faults: Faults,
    ghost word: { faults < 2 ^ 64 },
}

/// A disk in memory, of which `image` has the words from word 0 on. A write past its end fills it with
/// zeros up to there. It fails only where a write finds no memory, and lends no reader where the copy of
/// the words finds none.
#[derive(Debug, Drop)]
pub struct SteadyDisk {
    pub image: Vec<u64>,
    pub writes: u64,
    pub lends: u64,
    pub faults: Faults,
    pub read_faults: u64,
    ghost word: { faults < 2 ^ 64 },
}

/// Reads a copy of a disk's words. It never fails.
#[derive(Debug, Drop)]
pub struct SteadyReader {
    pub image: Vec<u64>,
    pub reads: u64,
}

impl SteadySource {
    /// A source of these bytes, from the first on.
    pub fn new(bytes: Vec<u8>) -> SteadySource
        ensures bytes { result.bytes.items ≡ bytes.items }
        ensures unread { result.pos ≡ 0 }
    {
        SteadySource { bytes, pos: 0 }
    }
}

impl SteadySink {
    /// An empty sink.
    pub fn new(alloc: Global) -> SteadySink
        ensures bytes { result.bytes.items ≡ [] }
        ensures no_faults { result.faults ≡ 0 }
    {
        SteadySink {
            bytes: Vec::new(alloc),
            faults: Faults::none(),
        }
    }
}

impl SteadyDisk {
    /// A disk of zeros.
    pub fn new(alloc: Global) -> SteadyDisk
        ensures image { result.image.items ≡ [] }
        ensures no_writes { result.writes ≡ 0 }
        ensures no_lends { result.lends ≡ 0 }
        ensures no_faults { result.faults ≡ 0 }
        ensures no_read_faults { result.read_faults ≡ 0 }
    {
        SteadyDisk {
            image: Vec::new(alloc),
            writes: 0,
            lends: 0,
            faults: Faults::none(),
            read_faults: 0,
        }
    }
}

impl Source for SteadySource {
    ghost left = { λ s. Some (drop s.pos s.bytes.items) };

    ghost faults = { λ _. 0 };

    fn read(&mut self, buf: &mut [u8]) -> Result<usize, Failed>
        ensures ok { IsOk result }
        ensures whole { IfOk result (λ n. n ≡ min (length buf.old) (length (drop self.old.pos self.old.bytes.items))) }
        ensures taken { IfOk result (λ n. drop self.old.pos self.old.bytes.items
            ≡ take n buf.new ++ drop self.new.pos self.new.bytes.items) }
        ensures kept { self.new.bytes.items ≡ self.old.bytes.items }
    {
        Ok(take_next(&self.bytes, &mut self.pos, buf))
    }
}

impl Sink for SteadySink {
    ghost written = { λ k. Some k.bytes.items };

    ghost faults = { λ k. k.faults };

    fn write(&mut self, piece: &[u8]) -> Result<usize, Failed>
        ensures whole { IfOk result (λ n. n ≡ length piece.now) }
        ensures appended { OnOk result (self.new.bytes.items ≡ self.old.bytes.items ++ piece.now) }
        ensures faults { CountsFault result self.old.faults self.new.faults }
        ensures untouched { OnErr result (self.new.bytes.items ≡ self.old.bytes.items) }
        ensures full { OnErr result (vec_capacity self.old.bytes < vec_len self.old.bytes + length piece.now) }
    {
        if self.bytes.extend_from_slice(piece).is_err() {
            return Err(self.faults.rise());
        }
        Ok(piece.len())
    }
}

impl RecordReader for SteadyReader {
    ghost image = { λ r. Some r.image.items };

    ghost faults = { λ _. 0 };

    ghost reads = { λ r. r.reads };

    fn read_at(&mut self, at: u32, words: &mut [u64]) -> Result<(), Failed>
        ensures ok { IsOk result }
        ensures words { words.new ≡ words_at self.old.image.items at (length words.old) }
        ensures image { self.new.image.items ≡ self.old.image.items }
        ensures reads { self.new.reads ≡ counted self.old.reads 1 }
        ensures reads_rise { self.old.reads ≤ self.new.reads }
        ensures reads_word { self.new.reads < 2 ^ 64 }
    {
        self.reads = self.reads.saturating_add(1);
        copy_words(&self.image, at as usize, words);
        Ok(())
    }
}

impl StaleDisk for SteadyDisk {
    type Reader = SteadyReader;

    ghost image = { λ d. Some d.image.items };

    ghost faults = { λ d. d.faults };

    ghost read_faults = { λ d. d.read_faults };

    ghost lends = { λ d. d.lends };

    ghost writes = { λ d. d.writes };

    fn write_at(&mut self, at: u32, words: &[u64]) -> Result<(), Failed>
        requires some { 0 < length words.now }
        requires in_range { at + length words.now ≤ 2 ^ 32 }
        ensures full { OnErr result (vec_capacity self.old.image < at + length words.now) }
        ensures written { OnOk result (self.new.image.items ≡ with_words self.old.image.items at words.now) }
        ensures others { OnErr result (self.new.image.items ≡ self.old.image.items) }
        ensures faults { CountsFault result self.old.faults self.new.faults }
        ensures read_faults { self.new.read_faults ≡ self.old.read_faults }
        ensures lends { self.new.lends ≡ self.old.lends }
        ensures writes { self.new.writes ≡ counted self.old.writes 1 }
    {
        self.writes = self.writes.saturating_add(1);
        if write_over(&mut self.image, at as usize, words, 0).is_err() {
            return Err(self.faults.rise());
        }
        Ok(())
    }

    fn lend(&mut self, alloc: Global) -> Result<SteadyReader, LendRefusal>
        ensures lent { IfOk result (λ reader. reader.image.items ≡ self.old.image.items) }
        ensures no_read_yet { IfOk result (λ reader. reader.reads ≡ 0) }
        ensures refused { IsOkUnless result LendRefusal.NoMemory }
        ensures image { self.new.image.items ≡ self.old.image.items }
        ensures faults { self.new.faults ≡ self.old.faults }
        ensures read_faults { self.new.read_faults ≡ self.old.read_faults }
        ensures lends { self.new.lends ≡ counted self.old.lends 1 }
        ensures writes { self.new.writes ≡ self.old.writes }
    {
        self.lends = self.lends.saturating_add(1);
        let image = Vec::from_slice(alloc, &self.image).map_err(|_| LendRefusal::NoMemory)?;
        Ok(SteadyReader { image, reads: 0 })
    }

    fn give_back(&mut self, _reader: SteadyReader) {
        // Reading the count shows that it is a word, so it stands still where nothing is added.
        let _read_faults = self.read_faults;
    }
}

/// Copies the words from word `at` on, and zeros past the end of the image.
pub(crate) fn copy_words(image: &[u64], at: usize, words: &mut [u64])
    ensures { words.new ≡ words_at image.now at (length words.old) }
{
    let left = &image[image.len().min(at)..];
    let n = words.len().min(left.len());
    words.fill(0);
    words[..n].copy_from_slice(&left[..n]);
}
