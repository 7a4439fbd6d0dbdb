//! A disk in a file.
ghost use Rattle.std.specs.Prelude.{◌≡◌, ◌+◌, ◌*◌, ◌<◌, ◌≤◌, ◌^◌, ◌↔◌, true, None, length, take, drop, vec_len, IsNone, IsTrue};
ghost use Rattle.std.specs.Prelude.{IsSome, IsErr, IsErrOf, IfOk, IfSome, OnOk, OnErr};
ghost use Rattle.melt_io.specs.Outside.{CountsFault, KeepsOthers, Rose, Writes, counted};
ghost use Rattle.melt_io.specs.Words.{word_bytes, words_in_bytes};

use crate::adapters::StdFile;
use crate::faults::Faults;
use crate::outside::{
    Failed, LendRefusal, PositionedFile, PositionedReader, RecordReader, StaleDisk,
};
use crate::words::{get_words, put_words};
use std::alloc::Global;
use std::rt::Files;

/// How many words are moved at once.
const PIECE: usize = 4096;

/// How many are where there is no memory for so many.
const FEW: usize = 64;

/// Keeps the words in a file, word w in the 8 bytes from byte 8 * w on, its lowest byte first. The file is
/// made at the first write. Up to 4,096 words go to the file by one write, and more by one for
/// each 4,096; where there is no memory for so many, each write has 64. Where a call of the file fails, the answer is
/// `Failed`. It tells no words: its clauses speak of the bytes of the file.
#[derive(Debug, Drop)]
pub struct FileDisk<F> {
    pub file: F,
    /// The bytes of the words that are written. It is empty before the first write, so that a disk that is never written
    /// takes no memory.
    pub piece: Vec<u8>,
    /// That of a reader that was given back, for the next one.
    spare: Option<Vec<u8>>,
    pub writes: u64,
    pub lends: u64,
    pub faults: Faults,
    pub read_faults: u64,
    ghost word: { faults < 2 ^ 64 },
}

/// Reads the words that stand in a file, and zeros past its end. Up to 4,096 words are read by one read of
/// the file, and by one more after each that was short; more words by as many for each 4,096. Where a read
/// of the file fails, the answer is `Failed`. Without a file, as where nothing was written before the lend,
/// each read fails. It tells no words: its clauses speak of the bytes of the file.
#[derive(Debug, Drop)]
pub struct FileReader<F> {
    pub file: Option<F>,
    pub piece: Vec<u8>,
    pub reads: u64,
    pub faults: Faults,
    ghost roomy: { 8 ≤ vec_len piece },
    ghost word: { faults < 2 ^ 64 },
}

impl<R: Files + Drop> FileDisk<StdFile<R>> {
    /// A disk in a file of its own in the current folder, that of this number, of which nothing was written. What is there from
    /// before is not touched yet.
    pub fn new(alloc: Global, runtime: R, number: u8) -> FileDisk<StdFile<R>>
        requires { number < 8 }
        ensures runtime { result.file.runtime ≡ runtime }
        ensures number { result.file.number ≡ number }
        ensures no_file { IsNone result.file.file }
        ensures no_file_faults { result.file.faults ≡ 0 }
        ensures no_piece { vec_len result.piece ≡ 0 }
        ensures no_writes { result.writes ≡ 0 }
        ensures no_lends { result.lends ≡ 0 }
        ensures no_faults { result.faults ≡ 0 }
        ensures no_read_faults { result.read_faults ≡ 0 }
    {
        FileDisk::over(alloc, StdFile::new(runtime, number))
    }
}

impl<F: Drop> FileDisk<F> {
    /// A disk in this file, of which nothing was written. The file is not touched yet.
    pub fn over(alloc: Global, file: F) -> FileDisk<F>
        ensures file { result.file ≡ file }
        ensures no_piece { vec_len result.piece ≡ 0 }
        ensures no_writes { result.writes ≡ 0 }
        ensures no_lends { result.lends ≡ 0 }
        ensures no_faults { result.faults ≡ 0 }
        ensures no_read_faults { result.read_faults ≡ 0 }
    {
        FileDisk {
            file,
            piece: Vec::new(alloc),
            spare: None,
            writes: 0,
            lends: 0,
            faults: Faults::none(),
            read_faults: 0,
        }
    }
}

impl<F: PositionedReader> RecordReader for FileReader<F> {
    ghost image = { λ _. None };

    ghost faults = { λ r. r.faults };

    ghost reads = { λ r. r.reads };

    fn read_at(&mut self, at: u32, words: &mut [u64]) -> Result<(), Failed>
        requires some { 0 < length words.old }
        requires in_range { at + length words.old ≤ 2 ^ 32 }
        ensures no_file { IsNone self.old.file → IsErr result }
        ensures words { OnOk result (IfSome self.old.file (λ old. IfSome (F.bytes old) (λ bytes. words.new
            ≡ words_in_bytes (length words.old) (drop (8 * at) bytes)))) }
        ensures stays_open { IsSome self.new.file ↔ IsSome self.old.file }
        ensures kept { IfSome self.old.file (λ old. IfSome self.new.file (λ new. F.bytes new ≡ F.bytes old)) }
        ensures no_file_fault { OnOk result (IfSome self.old.file
            (λ old. IfSome self.new.file (λ new. F.faults new ≡ F.faults old))) }
        ensures file_failed { OnErr result (IfSome self.old.file
            (λ old. IfSome self.new.file (λ new. Rose (F.faults old) (F.faults new)))) }
        ensures faults { CountsFault result self.old.faults self.new.faults }
        ensures reads { self.new.reads ≡ counted self.old.reads 1 }
        ensures reads_rise { self.old.reads ≤ self.new.reads }
        ensures reads_word { self.new.reads < 2 ^ 64 }
    {
        self.reads = self.reads.saturating_add(1);
        let piece = &mut self.piece;
        if read_file(&mut self.file, piece, at, words).is_err() {
            return Err(self.faults.rise());
        }
        Ok(())
    }
}

impl<F: PositionedFile> StaleDisk for FileDisk<F>
where
    F::Reader: Send,
{
    type Reader = FileReader<F::Reader>;

    ghost image = { λ _. None };

    ghost faults = { λ d. d.faults };

    ghost read_faults = { λ d. d.read_faults };

    ghost lends = { λ d. d.lends };

    ghost writes = { λ d. d.writes };

    fn write_at(&mut self, at: u32, words: &[u64]) -> Result<(), Failed>
        requires some { 0 < length words.now }
        requires in_range { at + length words.now ≤ 2 ^ 32 }
        ensures written { OnOk result (Writes (F.bytes self.old.file) (8 * at) (word_bytes words.now)
            (F.bytes self.new.file)) }
        ensures others { OnErr result (KeepsOthers (F.bytes self.old.file) (8 * at) (8 * length words.now)
            (F.bytes self.new.file)) }
        ensures made { OnOk result (F.made self.new.file ≡ true) }
        ensures stays_made { F.made self.old.file ≡ true → F.made self.new.file ≡ true }
        ensures no_file_fault { OnOk result (F.faults self.new.file ≡ F.faults self.old.file) }
        ensures file_failed { OnErr result (Rose (F.faults self.old.file) (F.faults self.new.file)) }
        ensures faults { CountsFault result self.old.faults self.new.faults }
        ensures read_faults { self.new.read_faults ≡ self.old.read_faults }
        ensures lends { self.new.lends ≡ self.old.lends }
        ensures writes { self.new.writes ≡ counted self.old.writes 1 }
    {
        self.writes = self.writes.saturating_add(1);
        let piece = &mut self.piece;
        if write_file(&mut self.file, piece, at, words).is_err() {
            return Err(self.faults.rise());
        }
        Ok(())
    }

    fn lend(&mut self, alloc: Global) -> Result<FileReader<F::Reader>, LendRefusal>
        ensures lent { IfOk result (λ reader. IfSome reader.file (λ file. F.Reader.bytes file
            ≡ F.bytes self.old.file)) }
        ensures open { IfOk result (λ reader. IsSome reader.file ↔ (F.made self.old.file ≡ true)) }
        ensures no_file_fault_yet { IfOk result (λ reader. IfSome reader.file (λ file. F.Reader.faults file ≡ 0)) }
        ensures no_fault_yet { IfOk result (λ reader. reader.faults ≡ 0) }
        ensures no_read_yet { IfOk result (λ reader. reader.reads ≡ 0) }
        ensures kept { F.bytes self.new.file ≡ F.bytes self.old.file }
        ensures made { F.made self.new.file ≡ F.made self.old.file }
        ensures no_file_fault { OnOk result (F.faults self.new.file ≡ F.faults self.old.file) }
        ensures file_failed { IsErrOf result LendRefusal.Failed
            → Rose (F.faults self.old.file) (F.faults self.new.file) }
        ensures no_fault { OnOk result (self.new.faults ≡ self.old.faults) }
        ensures failed { IsErrOf result LendRefusal.Failed → Rose self.old.faults self.new.faults }
        ensures count { self.old.faults ≤ self.new.faults }
        ensures word { self.new.faults < 2 ^ 64 }
        ensures read_faults { self.new.read_faults ≡ self.old.read_faults }
        ensures lends { self.new.lends ≡ counted self.old.lends 1 }
        ensures writes { self.new.writes ≡ self.old.writes }
    {
        self.lends = self.lends.saturating_add(1);
        // Each epoch lends a reader to each thread: a buffer that came back saves taking and zeroing a new one.
        let piece = match self.spare.take() {
            Some(piece) if piece.len() == 8 * PIECE => piece,
            _ => vec![in alloc; 0; 8 * PIECE].map_err(|_| LendRefusal::NoMemory)?,
        };
        match open_file(&mut self.file) {
            Ok(file) => Ok(FileReader {
                file,
                piece,
                reads: 0,
                faults: Faults::none(),
            }),
            Err(_) => {
                self.faults.rise();
                Err(LendRefusal::Failed)
            }
        }
    }

    fn give_back(&mut self, reader: FileReader<F::Reader>)
        ensures file { self.new.file ≡ self.old.file }
        ensures count { self.new.faults ≡ self.old.faults }
        ensures read_faults { self.new.read_faults ≡ counted self.old.read_faults reader.faults }
        ensures lends { self.new.lends ≡ self.old.lends }
        ensures writes { self.new.writes ≡ self.old.writes }
    {
        self.read_faults = self.read_faults.saturating_add(reader.faults.count());
        self.spare = Some(reader.piece);
    }
}

/// Opens a reader of the file, if it was made.
fn open_file<F: PositionedFile>(file: &mut F) -> Result<Option<F::Reader>, Failed>
    ensures opened { IfOk result (λ reader. IfSome reader (λ lent. F.Reader.bytes lent ≡ F.bytes file.old)) }
    ensures open { IfOk result (λ reader. IsSome reader ↔ (F.made file.old ≡ true)) }
    ensures no_fault_yet { IfOk result (λ reader. IfSome reader (λ lent. F.Reader.faults lent ≡ 0)) }
    ensures kept { F.bytes file.new ≡ F.bytes file.old }
    ensures made { F.made file.new ≡ F.made file.old }
    ensures no_fault { OnOk result (F.faults file.new ≡ F.faults file.old) }
    ensures failed { OnErr result (Rose (F.faults file.old) (F.faults file.new)) }
{
    // A disk that was never written has no file to open. Lending is no fault then; each read of such a reader is one.
    if !file.is_made() {
        return Ok(None);
    }
    let reader = file.open()?;
    Ok(Some(reader))
}

/// Writes the words from word `at` on, to a file that is made first where it was not.
fn write_file<F: PositionedFile>(
    file: &mut F,
    piece: &mut Vec<u8>,
    at: u32,
    words: &[u64],
) -> Result<(), Failed>
    requires some { 0 < length words.now }
    requires in_range { at + length words.now ≤ 2 ^ 32 }
    ensures written { OnOk result (Writes (F.bytes file.old) (8 * at) (word_bytes words.now) (F.bytes file.new)) }
    ensures others { OnErr result (KeepsOthers (F.bytes file.old) (8 * at) (8 * length words.now) (F.bytes file.new)) }
    ensures made { OnOk result (F.made file.new ≡ true) }
    ensures stays_made { F.made file.old ≡ true → F.made file.new ≡ true }
    ensures no_fault { OnOk result (F.faults file.new ≡ F.faults file.old) }
    ensures failed { OnErr result (Rose (F.faults file.old) (F.faults file.new)) }
{
    // Not before the first write, so that a run that moves nothing needs no folder in which a file can be made.
    if !file.is_made() {
        file.create()?;
    }
    if has_room(piece) {
        return write_words(file, piece, at, words);
    }
    write_words(file, &mut [0; 8 * FEW], at, words)
}

/// Takes the bytes for the words that are written, where they were not taken and there is memory for them. Answers whether
/// they are there.
fn has_room(piece: &mut Vec<u8>) -> bool
    ensures { IsTrue result → 8 ≤ vec_len piece.new }
{
    piece.len() == 8 * PIECE || piece.resize(8 * PIECE, 0).is_ok()
}

/// Writes the words from word `at` on, each run of them through `piece`.
fn write_words<F: PositionedFile>(
    file: &mut F,
    piece: &mut [u8],
    at: u32,
    words: &[u64],
) -> Result<(), Failed>
    requires made { F.made file.old ≡ true }
    requires room { 8 ≤ length piece.old }
    requires some { 0 < length words.now }
    requires in_range { at + length words.now ≤ 2 ^ 32 }
    ensures written { OnOk result (Writes (F.bytes file.old) (8 * at) (word_bytes words.now) (F.bytes file.new)) }
    ensures others { OnErr result (KeepsOthers (F.bytes file.old) (8 * at) (8 * length words.now) (F.bytes file.new)) }
    ensures made { F.made file.new ≡ true }
    ensures no_fault { OnOk result (F.faults file.new ≡ F.faults file.old) }
    ensures failed { OnErr result (Rose (F.faults file.old) (F.faults file.new)) }
{
    let mut done = 0;
    while done < words.len() {
        let end = words.len().min(done + piece.len() / 8);
        write_run(file, piece, u64::from(at) + done as u64, &words[done..end])?;
        done = end;
    }
    Ok(())
}

/// Writes words that fit `piece`, by one write.
fn write_run<F: PositionedFile>(
    file: &mut F,
    piece: &mut [u8],
    at: u64,
    words: &[u64],
) -> Result<(), Failed>
    requires made { F.made file.old ≡ true }
    requires room { 8 * length words.now ≤ length piece.old }
    requires some { 0 < length words.now }
    requires in_range { at + length words.now ≤ 2 ^ 32 }
    ensures written { OnOk result (Writes (F.bytes file.old) (8 * at) (word_bytes words.now) (F.bytes file.new)) }
    ensures others { OnErr result (KeepsOthers (F.bytes file.old) (8 * at) (8 * length words.now) (F.bytes file.new)) }
    ensures made { F.made file.new ≡ true }
    ensures no_fault { OnOk result (F.faults file.new ≡ F.faults file.old) }
    ensures failed { OnErr result (Rose (F.faults file.old) (F.faults file.new)) }
{
    let bytes = &mut piece[..8 * words.len()];
    put_words(words, bytes);
    file.write_all_at(bytes, 8 * at)
}

/// Reads the words from word `at` on, where there is a file.
fn read_file<F: PositionedReader>(
    file: &mut Option<F>,
    piece: &mut [u8],
    at: u32,
    words: &mut [u64],
) -> Result<(), Failed>
    requires room { 8 ≤ length piece.old }
    requires in_range { at + length words.old ≤ 2 ^ 32 }
    ensures no_file { IsNone file.old → IsErr result }
    ensures words { OnOk result (IfSome file.old (λ old. IfSome (F.bytes old) (λ bytes. words.new
        ≡ words_in_bytes (length words.old) (drop (8 * at) bytes)))) }
    ensures stays_open { IsSome file.new ↔ IsSome file.old }
    ensures kept { IfSome file.old (λ old. IfSome file.new (λ new. F.bytes new ≡ F.bytes old)) }
    ensures no_fault { OnOk result (IfSome file.old (λ old. IfSome file.new (λ new. F.faults new ≡ F.faults old))) }
    ensures failed { OnErr result (IfSome file.old (λ old. IfSome file.new
        (λ new. Rose (F.faults old) (F.faults new)))) }
{
    match file {
        Some(file) => read_words(file, piece, at, words),
        None => Err(Failed),
    }
}

/// Reads the words from word `at` on, each run of them through `piece`, and zeros past the end of the
/// file.
fn read_words<F: PositionedReader>(
    file: &mut F,
    piece: &mut [u8],
    at: u32,
    words: &mut [u64],
) -> Result<(), Failed>
    requires room { 8 ≤ length piece.old }
    requires in_range { at + length words.old ≤ 2 ^ 32 }
    ensures words { OnOk result (IfSome (F.bytes file.old) (λ bytes. words.new
        ≡ words_in_bytes (length words.old) (drop (8 * at) bytes))) }
    ensures kept { F.bytes file.new ≡ F.bytes file.old }
    ensures no_fault { OnOk result (F.faults file.new ≡ F.faults file.old) }
    ensures failed { OnErr result (Rose (F.faults file.old) (F.faults file.new)) }
{
    let mut done = 0;
    while done < words.len() {
        let end = words.len().min(done + piece.len() / 8);
        read_run(
            file,
            piece,
            u64::from(at) + done as u64,
            &mut words[done..end],
        )?;
        done = end;
    }
    Ok(())
}

/// Reads words that fit `piece`.
fn read_run<F: PositionedReader>(
    file: &mut F,
    piece: &mut [u8],
    at: u64,
    words: &mut [u64],
) -> Result<(), Failed>
    requires room { 8 * length words.old ≤ length piece.old }
    requires in_range { at + length words.old ≤ 2 ^ 32 }
    ensures words { OnOk result (IfSome (F.bytes file.old) (λ bytes. words.new
        ≡ words_in_bytes (length words.old) (drop (8 * at) bytes))) }
    ensures kept { F.bytes file.new ≡ F.bytes file.old }
    ensures no_fault { OnOk result (F.faults file.new ≡ F.faults file.old) }
    ensures failed { OnErr result (Rose (F.faults file.old) (F.faults file.new)) }
{
    let bytes = &mut piece[..8 * words.len()];
    let filled = read_front(file, 8 * at, bytes)?;
    bytes[filled..].fill(0);
    get_words(bytes, words);
    Ok(())
}

/// Reads from byte `at` on until the buffer is full or the file ends, and answers how many bytes were
/// read.
fn read_front<F: PositionedReader>(file: &mut F, at: u64, bytes: &mut [u8]) -> Result<usize, Failed>
    requires in_range { at + length bytes.old < 2 ^ 63 }
    ensures within { IfOk result (λ n. n ≤ length bytes.old) }
    ensures front { IfOk result (λ n. IfSome (F.bytes file.old) (λ all. take n bytes.new ≡ take n (drop at all))) }
    ensures end { IfOk result (λ n. n < length bytes.old → IfSome (F.bytes file.old) (λ all. length all ≤ at + n)) }
    ensures kept { F.bytes file.new ≡ F.bytes file.old }
    ensures no_fault { OnOk result (F.faults file.new ≡ F.faults file.old) }
    ensures failed { OnErr result (Rose (F.faults file.old) (F.faults file.new)) }
{
    let mut filled = 0;
    while filled < bytes.len() {
        let taken = file.read_at(&mut bytes[filled..], at + filled as u64)?;
        if taken == 0 {
            return Ok(filled);
        }
        filled += taken;
    }
    Ok(filled)
}
