ghost use Rattle.std.specs.Prelude.{◌≡◌, ◌<◌, ◌^◌, length};

use melt_io::{
    Failed, FileDisk, Gate, LendRefusal, MemDisk, MemFile, MemSink, MemSource, OpenGate,
    ReadRefusal, RecordReader, StaleDisk, StdSink, StdSource, SteadyDisk, SteadySink, SteadySource,
    read_all, write_all,
};
use melt_same::same;
use std::alloc::Global;
use std::fs;
use std::test::Fail;

fn source(alloc: Global, text: &[u8], fail: &[u64]) -> Result<MemSource, Fail> {
    let mut source = MemSource::new(text.to_vec(alloc)?);
    source.fail.extend_from_slice(fail)?;
    Ok(source)
}

#[test]
fn reads_all_up_to_the_limit(rt: HostRuntime) -> Result<(), Fail> {
    let mut enough = source(rt.alloc(), b"12 34", &[])?;
    let mut long = source(rt.alloc(), b"12 34", &[])?;
    let refusal = read_all(rt.alloc(), &mut long, 3).err();
    let bytes = read_all(rt.alloc(), &mut enough, 5)?;
    same(
        (bytes.as_slice(), enough.calls, refusal, long.pos),
        (b"12 34".as_slice(), 2, Some(ReadRefusal::TooLong), 4),
    )
}

#[test]
fn a_read_that_fails_after_all_the_bytes_is_a_fault(rt: HostRuntime) -> Result<(), Fail> {
    let mut cut = source(rt.alloc(), b"12 34", &[2])?;
    let refusal = read_all(rt.alloc(), &mut cut, usize::MAX).err();
    same(
        (refusal, cut.pos, cut.faults.count()),
        (Some(ReadRefusal::Fault), 5, 1),
    )
}

#[test]
fn writes_all_or_fails(rt: HostRuntime) -> Result<(), Fail> {
    let mut sink = MemSink::new(rt.alloc());
    sink.fail.push(2)?;
    let written = [
        write_all(&mut sink, b""),
        write_all(&mut sink, b"ok"),
        write_all(&mut sink, b"lost"),
    ];
    same(
        (written, sink.bytes.as_slice()),
        ([Ok(()), Ok(()), Err(Failed)], b"ok".as_slice()),
    )?;
    same((sink.calls, sink.faults.count()), (2, 1))
}

#[test]
fn the_steady_forms_keep_bytes(rt: HostRuntime) -> Result<(), Fail> {
    let mut steady = SteadySource::new(b"abc".to_vec(rt.alloc())?);
    let bytes = read_all(rt.alloc(), &mut steady, 3)?;
    let mut sink = SteadySink::new(rt.alloc());
    let written = write_all(&mut sink, &bytes);
    same(
        (written, sink.bytes.as_slice()),
        (Ok(()), b"abc".as_slice()),
    )
}

#[test]
fn a_reader_keeps_the_words_of_its_lending(rt: HostRuntime) -> Result<(), Fail> {
    let mut disk = SteadyDisk::new(rt.alloc());
    disk.write_at(2, &[7, 8])?;
    let mut reader = disk.lend(rt.alloc())?;
    let written = disk.write_at(0, &[1, 2, 3]);
    let mut words = [9; 4];
    let read = reader.read_at(1, &mut words);
    let reads = reader.reads;
    disk.give_back(reader);
    same(
        (written, read, words, reads),
        (Ok(()), Ok(()), [0, 7, 8, 0], 1),
    )?;
    let counts = [
        disk.writes,
        disk.lends,
        disk.faults.count(),
        disk.read_faults,
    ];
    same(
        (disk.image.as_slice(), counts),
        ([1, 2, 3, 8].as_slice(), [2, 1, 0, 0]),
    )
}

#[test]
fn the_adapters_pass_bytes_on(rt: HostRuntime) -> Result<(), Fail> {
    OpenGate.before(0, 1);
    let mut from = StdSource::new(b"in".as_slice());
    let bytes = read_all(rt.alloc(), &mut from, 8)?;
    let mut to = StdSink::new(Vec::new(rt.alloc()));
    let written = write_all(&mut to, &bytes);
    let faults = [from.faults.count(), to.faults.count()];
    same(
        (written, bytes.as_slice(), faults),
        (Ok(()), b"in".as_slice(), [0, 0]),
    )
}

#[test]
fn standard_streams_fit_the_adapters(rt: HostRuntime) -> Result<(), Fail> {
    let mut out = StdSink::new(rt.stdout());
    let written = write_all(&mut out, b"");
    let input = StdSource::new(rt.stdin());
    same((written, input.faults.count()), (Ok(()), 0))
}

#[test]
fn a_writer_that_takes_nothing_is_a_fault() -> Result<(), Fail> {
    let mut room = [0; 2];
    let mut full = StdSink::new(room.as_mut_slice());
    let written = [write_all(&mut full, b"ab"), write_all(&mut full, b"c")];
    same((written, full.faults.count()), ([Ok(()), Err(Failed)], 1))
}

/// Reads words of the disk by a reader of its own.
pub fn read_into<D: StaleDisk>(
    alloc: Global,
    disk: &mut D,
    at: u8,
    words: &mut [u64],
) -> Result<(), LendRefusal>
    requires some { 0 < length words.old }
    requires few { length words.old < 2 ^ 31 }
{
    let mut reader = disk.lend(alloc)?;
    let read = reader.read_at(u32::from(at), words);
    disk.give_back(reader);
    match read {
        Ok(()) => Ok(()),
        Err(Failed) => Err(LendRefusal::Failed),
    }
}

/// Fails where the file has other bytes than the words 0, 4295032833, 0 and 7.
fn same_file(rt: &HostRuntime) -> Result<(), Fail> {
    let bytes = fs::read(rt, "melt.stale")?;
    same(
        bytes.as_slice(),
        [
            0, 0, 0, 0, 0, 0, 0, 0, 1, 0, 1, 0, 1, 0, 0, 0, 0, 0, 0, 0, 0, 0, 0, 0, 7, 0, 0, 0, 0,
            0, 0, 0,
        ]
        .as_slice(),
    )
}

/// Writes three words, looks at the file, and reads five words.
fn write_to_file<D: StaleDisk>(rt: &HostRuntime, disk: &mut D) -> Result<(), Fail> {
    disk.write_at(1, &[4295032833, 0, 7])?;
    same_file(rt)?;
    let mut words = [9; 5];
    read_into(rt.alloc(), disk, 1, &mut words)?;
    fs::remove_file(rt, "melt.stale")?;
    same(words, [4295032833, 0, 7, 0, 0])
}

#[test]
fn the_file_has_the_lowest_byte_of_each_word_first(rt: HostRuntime) -> Result<(), Fail> {
    let mut disk = FileDisk::new(rt.alloc(), rt, 0);
    write_to_file(&rt, &mut disk)?;
    let counts = [disk.lends, disk.faults.count(), disk.read_faults];
    same(counts, [1, 0, 0])
}

/// A disk over a file in memory, of which these calls and, on each reader, these reads fail.
fn disk_in_memory(
    alloc: Global,
    fail: &[u64],
    fail_reads: &[u64],
) -> Result<FileDisk<MemFile>, Fail> {
    let mut file = MemFile::new(alloc);
    file.fail.extend_from_slice(fail)?;
    file.fail_reads.extend_from_slice(fail_reads)?;
    Ok(FileDisk::over(alloc, file))
}

/// Writes two records, and counts the calls of the file.
fn write_records(disk: &mut FileDisk<MemFile>) -> Result<(), Fail> {
    same(disk.file.calls, 0)?;
    disk.write_at(2, &[258, 3])?;
    same(disk.file.calls, 2)?;
    disk.write_at(1, &[72623859790382856])?;
    same(disk.file.calls, 3)
}

/// Fails where the file in memory has other bytes than those of the words 0, 72623859790382856, 258 and 3.
fn same_records(file: &MemFile) -> Result<(), Fail> {
    let bytes = file.bytes.as_ref().ok_or("no file")?;
    same(
        bytes.as_slice(),
        [
            0, 0, 0, 0, 0, 0, 0, 0, 8, 7, 6, 5, 4, 3, 2, 1, 2, 1, 0, 0, 0, 0, 0, 0, 3, 0, 0, 0, 0,
            0, 0, 0,
        ]
        .as_slice(),
    )
}

#[test]
fn a_record_goes_to_its_place_byte_for_byte(rt: HostRuntime) -> Result<(), Fail> {
    let mut disk = disk_in_memory(rt.alloc(), &[], &[])?;
    write_records(&mut disk)?;
    same_records(&disk.file)
}

/// Makes the calls of `a_call_of_the_file_that_fails_is_a_fault`.
fn make_failing_calls(alloc: Global, disk: &mut FileDisk<MemFile>) -> Result<(), Fail> {
    same(disk.write_at(1, &[5]), Err(Failed))?;
    same(disk.file.bytes.is_none(), true)?;
    disk.write_at(1, &[5])?;
    same(disk.write_at(0, &[6]), Err(Failed))?;
    let mut reader = disk.lend(alloc)?;
    let refusal = disk.lend(alloc).err();
    let faults = [disk.faults.count(), disk.file.faults.count()];
    let calls = disk.file.calls;
    let (mut words, mut lost) = ([9; 2], [9; 2]);
    let reads = [reader.read_at(0, &mut words), reader.read_at(0, &mut lost)];
    disk.give_back(reader);
    same(
        (refusal, faults, calls),
        (Some(LendRefusal::Failed), [3, 3], 6),
    )?;
    same((reads, words), ([Ok(()), Err(Failed)], [0, 5]))?;
    same([disk.writes, disk.lends, disk.read_faults], [3, 2, 1])
}

#[test]
fn a_call_of_the_file_that_fails_is_a_fault(rt: HostRuntime) -> Result<(), Fail> {
    let mut disk = disk_in_memory(rt.alloc(), &[1, 4, 6], &[2])?;
    make_failing_calls(rt.alloc(), &mut disk)
}

/// Writes two words, and reads four from the first on.
fn read_past_end(alloc: Global, disk: &mut FileDisk<MemFile>) -> Result<(), Fail> {
    disk.write_at(1, &[1, 2])?;
    let mut reader = disk.lend(alloc)?;
    let mut words = [9; 4];
    let read = reader.read_at(1, &mut words);
    let calls = reader.file.as_ref().map(|file| file.calls);
    same(
        (read, words, reader.reads, calls),
        (Ok(()), [1, 2, 0, 0], 1, Some(4)),
    )
}

#[test]
fn a_short_read_is_continued_and_zeros_are_past_the_end(rt: HostRuntime) -> Result<(), Fail> {
    let mut disk = disk_in_memory(rt.alloc(), &[], &[])?;
    disk.file.most = 7;
    read_past_end(rt.alloc(), &mut disk)
}

/// Writes words and reads them back, and counts the calls of the file.
fn write_and_read(
    alloc: Global,
    disk: &mut FileDisk<MemFile>,
    words: &[u64],
    read: &mut [u64],
) -> Result<(), Fail>
    requires written { length words.now ≡ 4097 }
    requires read { length read.old ≡ 4097 }
{
    disk.write_at(3, words)?;
    same(disk.file.calls, 3)?;
    let mut reader = disk.lend(alloc)?;
    let found = reader.read_at(3, read);
    let calls = reader.file.as_ref().map(|file| file.calls);
    same((found, &*read, calls), (Ok(()), words, Some(2)))
}

#[test]
fn long_runs_go_by_4096_words(rt: HostRuntime) -> Result<(), Fail> {
    let mut words = vec![in rt.alloc(); 0; 4097]?;
    for (number, word) in words.iter_mut().enumerate() {
        *word = number as u64;
    }
    let mut read = vec![in rt.alloc(); 9; 4097]?;
    let mut disk = disk_in_memory(rt.alloc(), &[], &[])?;
    write_and_read(rt.alloc(), &mut disk, &words, &mut read)
}

/// Reads by a reader that was lent before the first write.
fn read_early(alloc: Global, disk: &mut FileDisk<MemFile>) -> Result<(), Fail> {
    let mut reader = disk.lend(alloc)?;
    let written = disk.write_at(7, &[5]);
    let mut words = [9; 2];
    let reads = [reader.read_at(7, &mut words), reader.read_at(0, &mut words)];
    let counts = (reader.reads, reader.faults.count());
    disk.give_back(reader);
    same(
        (written, reads, counts),
        (Ok(()), [Err(Failed), Err(Failed)], (2, 2)),
    )?;
    same((disk.faults.count(), disk.read_faults), (0, 2))
}

#[test]
fn a_reader_lent_before_the_first_write_fails_each_read(rt: HostRuntime) -> Result<(), Fail> {
    let mut disk = disk_in_memory(rt.alloc(), &[], &[])?;
    read_early(rt.alloc(), &mut disk)
}

#[test]
fn a_reader_without_a_file_fails_each_read(rt: HostRuntime) -> Result<(), Fail> {
    let mut disk = FileDisk::new(rt.alloc(), rt, 0);
    let mut reader = disk.lend(rt.alloc())?;
    let read = reader.read_at(7, &mut [9; 2]);
    disk.give_back(reader);
    same(
        (read, disk.faults.count(), disk.read_faults),
        (Err(Failed), 0, 1),
    )
}

/// A disk of which the second write, the first lend and the first read of the second reader fail.
fn failing_disk(alloc: Global) -> Result<MemDisk, Fail> {
    let mut disk = MemDisk::new(alloc);
    disk.fail_writes.push(2)?;
    disk.fail_lends.push(1)?;
    disk.fail_reads.push((2, 1))?;
    Ok(disk)
}

/// Writes twice, of which the second time fails.
fn write_listed(disk: &mut MemDisk) -> Result<(), Fail> {
    disk.write_at(1, &[5, 6])?;
    same(disk.write_at(0, &[1]), Err(Failed))
}

/// Lends twice, of which the first time fails, and reads twice by the second reader, of which the first time fails.
fn lend_listed(alloc: Global, disk: &mut MemDisk) -> Result<(), Fail> {
    same(disk.lend(alloc).err(), Some(LendRefusal::Failed))?;
    let mut reader = disk.lend(alloc)?;
    let mut words = [9; 3];
    let reads = [reader.read_at(0, &mut words), reader.read_at(1, &mut words)];
    disk.give_back(reader);
    same((reads, words), ([Err(Failed), Ok(())], [5, 6, 0]))?;
    let counts = [
        disk.writes,
        disk.lends,
        disk.faults.count(),
        disk.read_faults,
    ];
    same(counts, [2, 2, 2, 1])
}

#[test]
fn a_call_whose_number_is_listed_fails(rt: HostRuntime) -> Result<(), Fail> {
    let mut disk = failing_disk(rt.alloc())?;
    write_listed(&mut disk)?;
    same(disk.image.as_slice(), [0, 5, 6].as_slice())?;
    lend_listed(rt.alloc(), &mut disk)
}

/// Reads three words by a first and by a second reader.
fn read_twice(alloc: Global, disk: &mut MemDisk) -> Result<(), Fail> {
    disk.write_at(1, &[5, 6, 7])?;
    let mut words = [9; 3];
    for want in [[5, 70, 7], [5, 6, 7]] {
        read_into(alloc, disk, 1, &mut words)?;
        same(words, want)?;
    }
    Ok(())
}

#[test]
fn only_the_reader_of_its_lend_tells_a_lie(rt: HostRuntime) -> Result<(), Fail> {
    let mut disk = MemDisk::new(rt.alloc());
    disk.lies.push((1, 2, 70))?;
    read_twice(rt.alloc(), &mut disk)
}
