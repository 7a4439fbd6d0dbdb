//! The traits of the outside.
ghost use Rattle.std.specs.Prelude.{◌≡◌, ℕ, ◌+◌, ◌-◌, ◌^◌, ◌<◌, ◌≤◌, Bool, true, false, List, [], Option, Some, codes};
ghost use Rattle.std.specs.Prelude.{take, drop, length, min, is_some, IfOk, IfSome, OnOk, OnErr, IsErrOf};
ghost use Rattle.melt_io.specs.Outside.{Rose, counted, TakesFront, Appends, words_at, Writes, KeepsOthers};

use std::alloc::Global;
use std::error::Error;
use std::fmt;

/// The outside failed. The count of faults of the object that was called has risen.
#[derive(Clone, Copy, Debug, PartialEq, Eq)]
pub struct Failed;

impl fmt::Display for Failed {
    ghost output = { λ _. Some (codes "the outside failed") };

    fn fmt<W: fmt::Write>(&self, f: &mut fmt::Formatter<W>) -> fmt::Result {
        f.write_str("the outside failed")
    }
}

impl Error for Failed {}

/// Why a disk lent no reader.
#[derive(Clone, Copy, Debug, PartialEq, Eq, thiserror::Error)]
pub enum LendRefusal {
    #[error("the disk failed to lend a reader")]
    Failed,
    #[error("no memory for a reader")]
    NoMemory,
}

/// Bytes that are read once, from the first to the last.
pub trait Source {
    /// The bytes left, where the source tells them.
    ghost left: { Self → Option (List ℕ) };

    /// How many reads have failed.
    ghost faults: { Self → ℕ };

    /// Reads the next bytes into the front of `buf`, and answers how many. Into a buffer that is not
    /// empty, 0 means the end of the input.
    fn read(&mut self, buf: &mut [u8]) -> Result<usize, Failed>
        ensures within { IfOk result (λ n. n ≤ length buf.old) }
        ensures taken { IfOk result (λ n. TakesFront (left self.old) (take n buf.new) (left self.new)) }
        ensures end { IfOk result (λ n. n ≡ 0 → 0 < length buf.old → IfSome (left self.old) (λ bytes. bytes ≡ [])) }
        ensures failed { OnErr result (Rose (faults self.old) (faults self.new)) }
        ensures untouched { OnErr result (left self.new ≡ left self.old) }
        ensures count { faults self.old ≤ faults self.new }
        ensures word { faults self.new < 2 ^ 64 };
}

/// Takes bytes in the order in which they are written.
pub trait Sink {
    /// The bytes written so far, where the sink tells them.
    ghost written: { Self → Option (List ℕ) };

    /// How many writes have failed.
    ghost faults: { Self → ℕ };

    /// Writes a front of the piece, and answers how many bytes it has: at least 1, where the piece is
    /// not empty.
    fn write(&mut self, piece: &[u8]) -> Result<usize, Failed>
        ensures within { IfOk result (λ n. n ≤ length piece.now) }
        ensures some { IfOk result (λ n. 0 < length piece.now → 0 < n) }
        ensures appended { IfOk result (λ n. Appends (written self.old) (take n piece.now) (written self.new)) }
        ensures failed { OnErr result (Rose (faults self.old) (faults self.new)) }
        ensures untouched { OnErr result (written self.new ≡ written self.old) }
        ensures count { faults self.old ≤ faults self.new }
        ensures word { faults self.new < 2 ^ 64 };
}

/// Reads the words of a disk as they were when the reader was lent.
pub trait RecordReader {
    /// The disk's words at the lending, from word 0 on, where they are told.
    ghost image: { Self → Option (List ℕ) };

    /// How many reads have failed.
    ghost faults: { Self → ℕ };

    /// How many words or runs of words were read: each call counts at most one.
    ghost reads: { Self → ℕ };

    /// Reads the words from word `at` on. Words past the end of the image read as zeros. After an
    /// `Err` the buffer may hold anything.
    fn read_at(&mut self, at: u32, words: &mut [u64]) -> Result<(), Failed>
        requires some { 0 < length words.old }
        requires in_range { at + length words.old ≤ 2 ^ 32 }
        ensures words { OnOk result (IfSome (image self.old) (λ image. words.new
            ≡ words_at image at (length words.old))) }
        ensures image { image self.new ≡ image self.old }
        ensures failed { OnErr result (Rose (faults self.old) (faults self.new)) }
        ensures count { faults self.old ≤ faults self.new }
        ensures word { faults self.new < 2 ^ 64 }
        ensures reads_rise { reads self.old ≤ reads self.new }
        ensures reads_word { reads self.new < 2 ^ 64 }
        ensures one_read { reads self.new ≤ reads self.old + 1 };
}

/// A disk of words that are written at any place, and read only by readers that it lends.
pub trait StaleDisk {
    type Reader: RecordReader + Send + Drop;

    /// The words, from word 0 on, where the disk tells them. Past their end the disk has zeros.
    ghost image: { Self → Option (List ℕ) };

    /// How many writes and lends have failed.
    ghost faults: { Self → ℕ };

    /// How many reads have failed, on the readers that were given back.
    ghost read_faults: { Self → ℕ };

    /// How many calls of `lend` there were.
    ghost lends: { Self → ℕ };

    /// How many calls of `write_at` there were, failed ones too.
    ghost writes: { Self → ℕ };

    /// Writes the words from word `at` on. After an `Err` the words in that range may be anything.
    fn write_at(&mut self, at: u32, words: &[u64]) -> Result<(), Failed>
        requires some { 0 < length words.now }
        requires in_range { at + length words.now ≤ 2 ^ 32 }
        ensures written { OnOk result (Writes (image self.old) at words.now (image self.new)) }
        ensures others { OnErr result (KeepsOthers (image self.old) at (length words.now) (image self.new)) }
        ensures failed { OnErr result (Rose (faults self.old) (faults self.new)) }
        ensures count { faults self.old ≤ faults self.new }
        ensures word { faults self.new < 2 ^ 64 }
        ensures read_faults { read_faults self.new ≡ read_faults self.old }
        ensures lends { lends self.new ≡ lends self.old }
        ensures writes { writes self.new ≡ counted (writes self.old) 1 };

    /// Lends a reader of the words as they are now.
    fn lend(&mut self, alloc: Global) -> Result<Self::Reader, LendRefusal>
        ensures lent { IfOk result (λ reader. Self.Reader.image reader ≡ image self.old) }
        ensures no_fault_yet { IfOk result (λ reader. Self.Reader.faults reader ≡ 0) }
        ensures no_read_yet { IfOk result (λ reader. Self.Reader.reads reader ≡ 0) }
        ensures image { image self.new ≡ image self.old }
        ensures failed { IsErrOf result LendRefusal.Failed → Rose (faults self.old) (faults self.new) }
        ensures count { faults self.old ≤ faults self.new }
        ensures word { faults self.new < 2 ^ 64 }
        ensures read_faults { read_faults self.new ≡ read_faults self.old }
        ensures lends { lends self.new ≡ counted (lends self.old) 1 }
        ensures writes { writes self.new ≡ writes self.old };

    /// Takes a reader back.
    fn give_back(&mut self, reader: Self::Reader)
        ensures image { image self.new ≡ image self.old }
        ensures count { faults self.new ≡ faults self.old }
        ensures read_faults { read_faults self.new ≡ counted (read_faults self.old) (Self.Reader.faults reader) }
        ensures lends { lends self.new ≡ lends self.old }
        ensures writes { writes self.new ≡ writes self.old };
}

/// Reads the bytes of a file at any place.
pub trait PositionedReader {
    /// The bytes of the file, from byte 0 on, where the reader tells them.
    ghost bytes: { Self → Option (List ℕ) };

    /// How many reads have failed.
    ghost faults: { Self → ℕ };

    /// Reads bytes from byte `at` on into the front of `buf`, and answers how many. Into a buffer that is
    /// not empty, 0 means that the file ends at byte `at` or before it. The rest of the buffer may hold
    /// anything, and after an `Err` all of it.
    fn read_at(&mut self, buf: &mut [u8], at: u64) -> Result<usize, Failed>
        requires in_range { at + length buf.old < 2 ^ 63 }
        ensures within { IfOk result (λ n. n ≤ length buf.old) }
        ensures read { IfOk result (λ n. IfSome (bytes self.old) (λ bytes. take n buf.new ≡ take n (drop at bytes))) }
        ensures end { IfOk result (λ n. n ≡ 0 → 0 < length buf.old
            → IfSome (bytes self.old) (λ bytes. length bytes ≤ at)) }
        ensures kept { bytes self.new ≡ bytes self.old }
        ensures no_fault { OnOk result (faults self.new ≡ faults self.old) }
        ensures failed { OnErr result (Rose (faults self.old) (faults self.new)) }
        ensures count { faults self.old ≤ faults self.new }
        ensures word { faults self.new < 2 ^ 64 };
}

/// A file of bytes that are written at any place, and read only by readers that it opens.
pub trait PositionedFile {
    type Reader: PositionedReader + Drop;

    /// Whether the file was made.
    ghost made: { Self → Bool };

    /// The bytes, from byte 0 on, where the file tells them. There are none before it is made.
    ghost bytes: { Self → Option (List ℕ) };

    /// How many calls have failed.
    ghost faults: { Self → ℕ };

    /// Whether the file was made.
    fn is_made(&self) -> bool
        ensures { result ≡ made self.now };

    /// Makes the file, of which nothing is written yet, whatever is there from before.
    fn create(&mut self) -> Result<(), Failed>
        requires { made self.old ≡ false }
        ensures made { OnOk result (made self.new ≡ true) }
        ensures not_made { OnErr result (made self.new ≡ false) }
        ensures kept { bytes self.new ≡ bytes self.old }
        ensures no_fault { OnOk result (faults self.new ≡ faults self.old) }
        ensures failed { OnErr result (Rose (faults self.old) (faults self.new)) }
        ensures count { faults self.old ≤ faults self.new }
        ensures word { faults self.new < 2 ^ 64 };

    /// Writes the bytes from byte `at` on, with zeros before them where the file is shorter. After an
    /// `Err` the bytes in that range may be anything.
    fn write_all_at(&mut self, piece: &[u8], at: u64) -> Result<(), Failed>
        requires made { made self.old ≡ true }
        requires some { 0 < length piece.now }
        requires in_range { at + length piece.now < 2 ^ 63 }
        ensures written { OnOk result (Writes (bytes self.old) at piece.now (bytes self.new)) }
        ensures others { OnErr result (KeepsOthers (bytes self.old) at (length piece.now) (bytes self.new)) }
        ensures made { made self.new ≡ true }
        ensures no_fault { OnOk result (faults self.new ≡ faults self.old) }
        ensures failed { OnErr result (Rose (faults self.old) (faults self.new)) }
        ensures count { faults self.old ≤ faults self.new }
        ensures word { faults self.new < 2 ^ 64 };

    /// Opens a reader of the bytes as they are now.
    fn open(&mut self) -> Result<Self::Reader, Failed>
        requires { made self.old ≡ true }
        ensures opened { IfOk result (λ reader. Self.Reader.bytes reader ≡ bytes self.old) }
        ensures no_fault_yet { IfOk result (λ reader. Self.Reader.faults reader ≡ 0) }
        ensures kept { bytes self.new ≡ bytes self.old }
        ensures made { made self.new ≡ true }
        ensures no_fault { OnOk result (faults self.new ≡ faults self.old) }
        ensures failed { OnErr result (Rose (faults self.old) (faults self.new)) }
        ensures count { faults self.old ≤ faults self.new }
        ensures word { faults self.new < 2 ^ 64 };

    /// Before the file is made it tells no bytes, or that there are none.
    ghost none_before: { (file : Self) → made file ≡ false → IfSome (bytes file) (λ bytes. bytes ≡ []) };
}

/// Is told of each operation before running threads make it.
pub trait Gate {
    /// Is called before each operation of a thread, once, with its number from 1. It changes nothing
    /// that a contract sees.
    fn before(&self, thread: u32, op: u64);
}
