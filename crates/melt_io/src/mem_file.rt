//! A file in memory, of which calls can be made to fail, and whose reads can be made short.
ghost use Rattle.std.specs.Prelude.{◌≡◌, ◌+◌, ◌-◌, ◌^◌, ◌<◌, ◌↔◌, [], length, take, drop, min, max, true, false};
ghost use Rattle.std.specs.Prelude.{is_some, Some, IsErr, IsNone, IfOk, IfSome, OnOk, OnErr, Contains};
ghost use Rattle.std.specs.Vec.{vec_capacity};
ghost use Rattle.melt_io.specs.Outside.{CountsFault, counted, with_words};
ghost use Rattle.std.proofs.Common.{rules};

use crate::faults::Faults;
use crate::memory::is_due;
use crate::outside::{Failed, PositionedFile, PositionedReader};
use crate::overlay::write_over;
use std::alloc::{AllocError, Global};

/// A file in memory: `bytes` is `None` before it is made. A write past the end fills it with zeros up to
/// there.
///
/// The calls of `create`, `write_all_at` and `open` whose numbers, from 1, stand in `fail` answer `Failed`,
/// and change no byte; so does one that finds no memory. Of each reader the reads whose numbers, from 1,
/// stand in `fail_reads` answer `Failed`, and no read gives more than `most` bytes, or than one where `most`
/// is 0.
#[derive(Debug, Drop)]
pub struct MemFile {
    pub bytes: Option<Vec<u8>>,
    pub calls: u64,
    pub fail: Vec<u64>,
    pub fail_reads: Vec<u64>,
    pub most: usize,
    pub faults: Faults,
    ghost word: { faults < 2 ^ 64 },
}

/// Reads a copy of a file's bytes. The fields are as in `MemFile`; the calls are its own reads.
#[derive(Debug, Drop)]
pub struct MemFileReader {
    pub bytes: Vec<u8>,
    pub calls: u64,
    pub fail: Vec<u64>,
    pub most: usize,
    pub faults: Faults,
    ghost word: { faults < 2 ^ 64 },
}

impl MemFile {
    /// A file that was not made, of which no call fails but for want of memory, and no read is short.
    pub fn new(alloc: Global) -> MemFile
        ensures not_made { IsNone result.bytes }
        ensures uncalled { result.calls ≡ 0 }
        ensures sound { (result.fail.items ≡ []) × (result.fail_reads.items ≡ []) }
        ensures whole { result.most ≡ usize.MAX }
        ensures no_faults { result.faults ≡ 0 }
    {
        MemFile {
            bytes: None,
            calls: 0,
            fail: Vec::new(alloc),
            fail_reads: Vec::new(alloc),
            most: usize::MAX,
            faults: Faults::none(),
        }
    }
}

impl MemFile {
    ghost use Rattle.melt_io.specs.MemFile.{bytes_of};

    /// A reader of the bytes as they are now.
    fn reader(&self) -> Result<MemFileReader, AllocError>
        requires { is_some self.now.bytes ≡ true }
        ensures bytes { IfOk result (λ reader. reader.bytes.items ≡ bytes_of self.now) }
        ensures uncalled { IfOk result (λ reader. reader.calls ≡ 0) }
        ensures reads { IfOk result (λ reader. (reader.fail.items ≡ self.now.fail_reads.items)
            × (reader.most ≡ self.now.most)) }
        ensures no_faults { IfOk result (λ reader. reader.faults ≡ 0) }
    {
        let Some(bytes) = &self.bytes else {
            unreachable!()
        };
        let alloc = *bytes.allocator();
        Ok(MemFileReader {
            bytes: Vec::from_slice(alloc, bytes)?,
            calls: 0,
            fail: Vec::from_slice(alloc, &self.fail_reads)?,
            most: self.most,
            faults: Faults::none(),
        })
    }
}

impl PositionedReader for MemFileReader {
    ghost bytes = { λ r. Some r.bytes.items };

    ghost faults = { λ r. r.faults };

    fn read_at(&mut self, buf: &mut [u8], at: u64) -> Result<usize, Failed>
        ensures within { IfOk result (λ n. n ≡ min (min (length buf.old) (max self.old.most 1))
            (length (drop at self.old.bytes.items))) }
        ensures read { IfOk result (λ n. take n buf.new ≡ take n (drop at self.old.bytes.items)) }
        ensures kept { self.new.bytes.items ≡ self.old.bytes.items }
        ensures faults { CountsFault result self.old.faults self.new.faults }

        ensures due { IsErr result ↔ Contains self.old.fail.items (counted self.old.calls 1) }
        ensures calls { self.new.calls ≡ counted self.old.calls 1 }
        ensures lists { (self.new.fail.items ≡ self.old.fail.items) × (self.new.most ≡ self.old.most) }
    {
        if is_due(&mut self.calls, &self.fail) {
            return Err(self.faults.rise());
        }
        // One byte at least, since a read that gives none says that the file ends there.
        let end = buf.len().min(self.most.max(1));
        Ok(copy_bytes(&self.bytes, at as usize, &mut buf[..end]))
    }
}

impl PositionedFile for MemFile {
    ghost use Rattle.melt_io.specs.MemFile.{bytes_of};

    type Reader = MemFileReader;

    ghost made = { λ f. is_some f.bytes };

    ghost bytes = { λ f. Some (bytes_of f) };

    ghost faults = { λ f. f.faults };

    ghost none_before = { Prim.search rules };

    fn is_made(&self) -> bool {
        self.bytes.is_some()
    }

    fn create(&mut self) -> Result<(), Failed>
        requires { is_some self.old.bytes ≡ false }
        ensures made { OnOk result (is_some self.new.bytes ≡ true) }
        ensures not_made { OnErr result (is_some self.new.bytes ≡ false) }
        ensures empty { IfSome self.new.bytes (λ bytes. bytes.items ≡ []) }
        ensures faults { CountsFault result self.old.faults self.new.faults }

        ensures due { IsErr result ↔ Contains self.old.fail.items (counted self.old.calls 1) }
        ensures calls { self.new.calls ≡ counted self.old.calls 1 }
        ensures lists { (self.new.fail.items ≡ self.old.fail.items)
            × (self.new.fail_reads.items ≡ self.old.fail_reads.items) × (self.new.most ≡ self.old.most) }
    {
        if is_due(&mut self.calls, &self.fail) {
            return Err(self.faults.rise());
        }
        let alloc = *self.fail.allocator();
        self.bytes = Some(Vec::new(alloc));
        Ok(())
    }

    fn write_all_at(&mut self, piece: &[u8], at: u64) -> Result<(), Failed>
        requires made { is_some self.old.bytes ≡ true }
        requires some { 0 < length piece.now }
        requires in_range { at + length piece.now < 2 ^ 63 }
        ensures written { OnOk result (bytes_of self.new ≡ with_words (bytes_of self.old) at piece.now) }
        ensures others { OnErr result (bytes_of self.new ≡ bytes_of self.old) }
        ensures made { is_some self.new.bytes ≡ true }
        ensures faults { CountsFault result self.old.faults self.new.faults }

        ensures due { Contains self.old.fail.items (counted self.old.calls 1) → IsErr result }
        ensures full { IsErr result → ¬ Contains self.old.fail.items (counted self.old.calls 1)
            → IfSome self.old.bytes (λ bytes. vec_capacity bytes < at + length piece.now) }
        ensures calls { self.new.calls ≡ counted self.old.calls 1 }
        ensures lists { (self.new.fail.items ≡ self.old.fail.items)
            × (self.new.fail_reads.items ≡ self.old.fail_reads.items) × (self.new.most ≡ self.old.most) }
    {
        let is_refused = is_due(&mut self.calls, &self.fail);
        let Some(bytes) = &mut self.bytes else {
            unreachable!()
        };
        if is_refused || write_over(bytes, at as usize, piece, 0).is_err() {
            return Err(self.faults.rise());
        }
        Ok(())
    }

    fn open(&mut self) -> Result<MemFileReader, Failed>
        requires { is_some self.old.bytes ≡ true }
        ensures opened { IfOk result (λ reader. reader.bytes.items ≡ bytes_of self.old) }
        ensures no_fault_yet { IfOk result (λ reader. reader.faults ≡ 0) }
        ensures no_read_yet { IfOk result (λ reader. reader.calls ≡ 0) }
        ensures reads { IfOk result (λ reader. (reader.fail.items ≡ self.old.fail_reads.items)
            × (reader.most ≡ self.old.most)) }
        ensures kept { self.new.bytes ≡ self.old.bytes }
        ensures faults { CountsFault result self.old.faults self.new.faults }

        ensures due { Contains self.old.fail.items (counted self.old.calls 1) → IsErr result }
        ensures calls { self.new.calls ≡ counted self.old.calls 1 }
        ensures lists { (self.new.fail.items ≡ self.old.fail.items)
            × (self.new.fail_reads.items ≡ self.old.fail_reads.items) × (self.new.most ≡ self.old.most) }
    {
        let is_refused = is_due(&mut self.calls, &self.fail);
        match self.reader() {
            Ok(reader) if !is_refused => Ok(reader),
            _ => Err(self.faults.rise()),
        }
    }
}

/// Copies the bytes from byte `at` on into the front of `buf`, as many as there are and as fit, and answers
/// how many.
fn copy_bytes(bytes: &[u8], at: usize, buf: &mut [u8]) -> usize
    ensures whole { result ≡ min (length buf.old) (length (drop at bytes.now)) }
    ensures copied { take result buf.new ≡ take result (drop at bytes.now) }
{
    let left = &bytes[bytes.len().min(at)..];
    let n = buf.len().min(left.len());
    buf[..n].copy_from_slice(&left[..n]);
    n
}
