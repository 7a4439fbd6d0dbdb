//! The real outside: standard input and output, a file, and a gate that lets each operation through.
ghost use Rattle.std.specs.Prelude.{◌≡◌, ◌+◌, ◌^◌, ◌<◌, ◌≤◌, true, false, is_some, None, length, IfOk, IsNone, OnOk};
ghost use Rattle.std.specs.Prelude.{OnErr};
ghost use Rattle.std.specs.Io.KnownBytes.{ReadConsumes, WriteAppends};
ghost use Rattle.melt_io.specs.Names.{name_of};
ghost use Rattle.melt_io.specs.Outside.{CountsFault};

use crate::faults::Faults;
use crate::outside::{Failed, Gate, PositionedFile, PositionedReader, Sink, Source};
use std::fmt::Debug;
use std::fs::{self, OpenFile, OpenOptions};
use std::io::{self, ErrorKind, Read, Write};
use std::os::unix::fs::{FileExt, OpenOptionsExt};
use std::rt::Files;

/// Who may do what with that file: its owner may read and write it, and nobody else.
const OWNER_ALONE: u32 = 0o600;

/// How often the file is tried to be made. A try is lost only where another run makes its own file meanwhile, which each
/// run does once: so as many runs as this may begin at the same moment.
const TRIES: usize = 1000;

/// Reads from a reader, as `StdSource::new(rt.stdin())`. Each call makes one read of the size asked for,
/// with no buffer between, and an error of the reader is `Failed`. It tells no content.
#[derive(Debug, Drop)]
pub struct StdSource<R> {
    pub reader: R,
    pub faults: Faults,
    ghost word: { faults < 2 ^ 64 },
}

/// Writes to a writer, as `StdSink::new(rt.stdout())`. Each call makes one write of the size given, with
/// no buffer between. An error of the writer is `Failed`, and so is a write that takes nothing of a
/// piece that is not empty. It tells no content.
#[derive(Debug, Drop)]
pub struct StdSink<W> {
    pub writer: W,
    pub faults: Faults,
    ghost word: { faults < 2 ^ 64 },
}

/// One of eight files of the current folder: `melt.stale` is that of the number 0, and `melt.stale.1` to `melt.stale.7` are the
/// others. The folder is not touched before `create`, which makes a file of its own: what stands at that name is removed, and no
/// link is followed. Readers are clones of its handle, and each read and write names
/// its place; so nothing that is done to the name later, and no other reader, changes what is read. An error of a call of
/// std is `Failed`, but where `create` can try again. It tells no content.
#[derive(Drop)]
#[derive_where(Debug; R, R::File: Debug)]
pub struct StdFile<R: Files> {
    pub runtime: R,
    pub number: u8,
    pub file: Option<R::File>,
    pub faults: Faults,
    ghost one_of_eight: { number < 8 },
    ghost word: { faults < 2 ^ 64 },
}

/// Reads from the same file, by one read of std for each call, which neither uses nor moves the position that clones of a
/// handle share. It tells no content: what is written after it was opened is read too.
#[derive(Debug, Drop)]
pub struct StdFileReader<F> {
    pub file: F,
    pub faults: Faults,
    ghost word: { faults < 2 ^ 64 },
}

/// Does nothing.
#[derive(Clone, Copy, Debug, Default, PartialEq, Eq)]
pub struct OpenGate;

impl<R: Read> StdSource<R> {
    /// A source over this reader, of which no read has failed.
    pub fn new(reader: R) -> StdSource<R>
        ensures reader { result.reader ≡ reader }
        ensures no_faults { result.faults ≡ 0 }
    {
        StdSource {
            reader,
            faults: Faults::none(),
        }
    }
}

impl<W: Write> StdSink<W> {
    /// A sink over this writer, of which no write has failed.
    pub fn new(writer: W) -> StdSink<W>
        ensures writer { result.writer ≡ writer }
        ensures no_faults { result.faults ≡ 0 }
    {
        StdSink {
            writer,
            faults: Faults::none(),
        }
    }
}

impl<R: Read> Source for StdSource<R> {
    ghost left = { λ _. None };

    ghost faults = { λ s. s.faults };

    fn read(&mut self, buf: &mut [u8]) -> Result<usize, Failed>
        ensures within { IfOk result (λ n. n ≤ length buf.old) }
        ensures passed_on { ReadConsumes (R.remaining self.old.reader) (R.remaining self.new.reader) result buf.new }
        ensures faults { CountsFault result self.old.faults self.new.faults }
    {
        match self.reader.read(buf) {
            Ok(n) => Ok(n),
            Err(_) => Err(self.faults.rise()),
        }
    }
}

impl<W: Write> Sink for StdSink<W> {
    ghost written = { λ _. None };

    ghost faults = { λ k. k.faults };

    fn write(&mut self, piece: &[u8]) -> Result<usize, Failed>
        ensures within { IfOk result (λ n. n ≤ length piece.now) }
        ensures some { IfOk result (λ n. 0 < length piece.now → 0 < n) }
        ensures passed_on { WriteAppends (W.contents self.old.writer) (W.contents self.new.writer) result piece.now }
        ensures faults { CountsFault result self.old.faults self.new.faults }
    {
        match self.writer.write(piece) {
            Ok(n) if n > 0 || piece.is_empty() => Ok(n),
            _ => Err(self.faults.rise()),
        }
    }
}

impl<R: Files> StdFile<R> {
    /// The file of this number in the current folder, of which no call has failed.
    pub fn new(runtime: R, number: u8) -> StdFile<R>
        requires { number < 8 }
        ensures runtime { result.runtime ≡ runtime }
        ensures number { result.number ≡ number }
        ensures no_file { IsNone result.file }
        ensures no_faults { result.faults ≡ 0 }
    {
        StdFile {
            runtime,
            number,
            file: None,
            faults: Faults::none(),
        }
    }
}

impl<F: FileExt> PositionedReader for StdFileReader<F> {
    ghost bytes = { λ _. None };

    ghost faults = { λ r. r.faults };

    fn read_at(&mut self, buf: &mut [u8], at: u64) -> Result<usize, Failed> {
        match self.file.read_at(buf, at) {
            Ok(n) => Ok(n),
            Err(_) => Err(self.faults.rise()),
        }
    }
}

impl<R: Files> PositionedFile for StdFile<R>
where
    R::File: FileExt,
{
    type Reader = StdFileReader<R::File>;

    ghost made = { λ f. is_some f.file };

    ghost bytes = { λ _. None };

    ghost faults = { λ f. f.faults };

    ghost none_before = { λ _ _. tt };

    fn is_made(&self) -> bool {
        self.file.is_some()
    }

    fn create(&mut self) -> Result<(), Failed> {
        match make_new(&self.runtime, name_of(self.number)) {
            Ok(file) => {
                self.file = Some(file);
                Ok(())
            }
            Err(_) => Err(self.faults.rise()),
        }
    }

    fn write_all_at(&mut self, piece: &[u8], at: u64) -> Result<(), Failed> {
        match &self.file {
            Some(file) if file.write_all_at(piece, at).is_ok() => Ok(()),
            _ => Err(self.faults.rise()),
        }
    }

    fn open(&mut self) -> Result<StdFileReader<R::File>, Failed> {
        match self.file.as_ref().map(OpenFile::try_clone) {
            Some(Ok(file)) => Ok(StdFileReader {
                file,
                faults: Faults::none(),
            }),
            _ => Err(self.faults.rise()),
        }
    }
}

/// The name of the file of a number.
#[tactic(auto, using(std::proofs::lemmas::Fmt::decimal_digit))]
fn name_of(number: u8) -> &'static str
    requires { number < 8 }
    ensures { result.now ≡ name_of number }
{
    match number {
        0 => "melt.stale",
        1 => "melt.stale.1",
        2 => "melt.stale.2",
        3 => "melt.stale.3",
        4 => "melt.stale.4",
        5 => "melt.stale.5",
        6 => "melt.stale.6",
        7 => "melt.stale.7",
        _ => unreachable!(),
    }
}

/// Makes the file of that name. One that is there from before is removed, and so is that of a run that was faster.
fn make_new<R: Files>(files: &R, name: &str) -> io::Result<R::File> {
    let mut how = OpenOptions::new();
    // `create_new` opens nothing that is there and follows no link, so the file is this run's own.
    how.read(true).write(true).create_new(true);
    how.mode(OWNER_ALONE);
    for _ in 0..TRIES {
        remove_old(files, name)?;
        match how.open(files, name) {
            Err(e) if e.kind() == ErrorKind::AlreadyExists => {}
            made => return made,
        }
    }
    Err(io::Error::from(ErrorKind::AlreadyExists))
}

/// Removes what has that name, if anything has.
fn remove_old<R: Files>(files: &R, name: &str) -> io::Result<()> {
    match fs::remove_file(files, name) {
        Err(e) if e.kind() == ErrorKind::NotFound => Ok(()),
        removed => removed,
    }
}

impl Gate for OpenGate {
    fn before(&self, _thread: u32, _op: u64) {}
}
