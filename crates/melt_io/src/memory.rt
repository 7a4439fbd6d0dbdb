//! A source and a sink in memory, of which calls can be made to fail.
ghost use Rattle.std.specs.Prelude.{◌^◌, ◌≡◌, ℕ, ◌+◌, ◌<◌, ◌≤◌, ◌↔◌, Some, [], ◌++◌, length, take, drop, min, vec_len};
ghost use Rattle.std.specs.Prelude.{IsTrue, IsOk, IsErr, IfOk, OnOk, OnErr, Contains};
ghost use Rattle.std.specs.Vec.{vec_capacity};
ghost use Rattle.melt_io.specs.Outside.{CountsFault, counted};

use crate::faults::Faults;
use crate::outside::{Failed, Sink, Source};
use std::alloc::Global;

/// Gives the bytes from `pos` on, at each read as many as fit the buffer. The reads whose numbers, from
/// 1, stand in `fail` answer `Failed`, and take nothing.
#[derive(Debug, Drop)]
pub struct MemSource {
    pub bytes: Vec<u8>,
    pub pos: usize,
    pub calls: u64,
    pub fail: Vec<u64>,
    pub faults: Faults,
    ghost word: { faults < 2 ^ 64 },
}

/// Appends each piece to `bytes`, whole. The writes whose numbers, from 1, stand in `fail` answer
/// `Failed`, and append nothing; so does a write that finds no memory.
#[derive(Debug, Drop)]
pub struct MemSink {
    pub bytes: Vec<u8>,
    pub calls: u64,
    pub fail: Vec<u64>,
    pub faults: Faults,
    ghost word: { faults < 2 ^ 64 },
}

impl MemSource {
    /// A source of these bytes, from the first on, of which no read fails.
    pub fn new(bytes: Vec<u8>) -> MemSource
        ensures bytes { result.bytes.items ≡ bytes.items }
        ensures unread { result.pos ≡ 0 }
        ensures uncalled { result.calls ≡ 0 }
        ensures sound { result.fail.items ≡ [] }
        ensures no_faults { result.faults ≡ 0 }
    {
        let alloc = *bytes.allocator();
        MemSource {
            bytes,
            pos: 0,
            calls: 0,
            fail: Vec::new(alloc),
            faults: Faults::none(),
        }
    }
}

impl MemSink {
    /// An empty sink, of which no write fails but for want of memory.
    pub fn new(alloc: Global) -> MemSink
        ensures bytes { result.bytes.items ≡ [] }
        ensures uncalled { result.calls ≡ 0 }
        ensures sound { result.fail.items ≡ [] }
        ensures no_faults { result.faults ≡ 0 }
    {
        MemSink {
            bytes: Vec::new(alloc),
            calls: 0,
            fail: Vec::new(alloc),
            faults: Faults::none(),
        }
    }
}

impl Source for MemSource {
    ghost left = { λ s. Some (drop s.pos s.bytes.items) };

    ghost faults = { λ s. s.faults };

    fn read(&mut self, buf: &mut [u8]) -> Result<usize, Failed>
        ensures within { IfOk result (λ n. n ≤ length buf.old) }
        ensures taken { IfOk result (λ n. drop self.old.pos self.old.bytes.items
            ≡ take n buf.new ++ drop self.new.pos self.new.bytes.items) }
        ensures faults { CountsFault result self.old.faults self.new.faults }
        ensures untouched { OnErr result (drop self.new.pos self.new.bytes.items
            ≡ drop self.old.pos self.old.bytes.items) }

        ensures whole { IfOk result (λ n. n ≡ min (length buf.old) (length (drop self.old.pos self.old.bytes.items))) }
        ensures due { IsErr result ↔ Contains self.old.fail.items (counted self.old.calls 1) }
        ensures calls { self.new.calls ≡ counted self.old.calls 1 }
        ensures kept { (self.new.bytes.items ≡ self.old.bytes.items) × (self.new.fail.items ≡ self.old.fail.items) }
    {
        if is_due(&mut self.calls, &self.fail) {
            return Err(self.faults.rise());
        }
        Ok(take_next(&self.bytes, &mut self.pos, buf))
    }
}

impl Sink for MemSink {
    ghost written = { λ k. Some k.bytes.items };

    ghost faults = { λ k. k.faults };

    fn write(&mut self, piece: &[u8]) -> Result<usize, Failed>
        ensures appended { IfOk result (λ n. self.new.bytes.items ≡ self.old.bytes.items ++ take n piece.now) }
        ensures faults { CountsFault result self.old.faults self.new.faults }
        ensures untouched { OnErr result (self.new.bytes.items ≡ self.old.bytes.items) }

        ensures whole { IfOk result (λ n. n ≡ length piece.now) }
        ensures due { Contains self.old.fail.items (counted self.old.calls 1) → IsErr result }
        ensures full { IsErr result → ¬ Contains self.old.fail.items (counted self.old.calls 1)
            → vec_capacity self.old.bytes < vec_len self.old.bytes + length piece.now }
        ensures calls { self.new.calls ≡ counted self.old.calls 1 }
        ensures kept { self.new.fail.items ≡ self.old.fail.items }
    {
        if is_due(&mut self.calls, &self.fail) || self.bytes.extend_from_slice(piece).is_err() {
            return Err(self.faults.rise());
        }
        Ok(piece.len())
    }
}

/// Counts a call, and answers whether it is to fail.
pub(crate) fn is_due(calls: &mut u64, fail: &[u64]) -> bool
    ensures calls { calls.new ≡ counted calls.old 1 }
    ensures due { IsTrue result ↔ Contains fail.now (counted calls.old 1) }
{
    *calls = calls.saturating_add(1);
    fail.contains(calls)
}

/// Copies the next bytes into the front of `buf`, as many as fit, and answers how many.
pub(crate) fn take_next(bytes: &[u8], pos: &mut usize, buf: &mut [u8]) -> usize
    ensures whole { result ≡ min (length buf.old) (length (drop pos.old bytes.now)) }
    ensures taken { drop pos.old bytes.now ≡ take result buf.new ++ drop pos.new bytes.now }
{
    let start = bytes.len().min(*pos);
    let left = &bytes[start..];
    let n = buf.len().min(left.len());
    buf[..n].copy_from_slice(&left[..n]);
    *pos = start + n;
    n
}
