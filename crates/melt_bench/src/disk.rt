//! Writes records to a disk in the file `melt.stale` of the current folder, reads them back, and prints a
//! checksum of their words. It takes one word: how many records. `bench/disk` times it.
ghost use Rattle.std.specs.Prelude.{◌≡◌, ◌+◌, ◌^◌, ◌<◌, ◌≤◌};
ghost use Rattle.melt_record.specs.Records.{AreSlots};
ghost use Rattle.melt_word.specs.Words.{IsDiskHome};

use crate::words::number;
use anyhow::{Result, bail, ensure};
use melt_disk::StaleSpace;
use melt_io::{FileDisk, RecordReader, StaleDisk};
use melt_record::{Head, Kind, decode_head, decode_rest};
use melt_word::{Ref, Shape, encode_ref};
use std::alloc::Global;

/// The shape of each object.
const SHAPE: Shape = Shape { refs: 2, nums: 4 };

/// How many words a record of that shape has.
const COST: u32 = 8;

const BODY: Head = Head {
    shape: SHAPE,
    kind: Kind::Body,
};

/// What the checksum is multiplied by at each word: the prime of the FNV hash of 64 bits.
const PRIME: u64 = 0x100_0000_01b3;

/// The slots of the object at `home`: a reference to itself, null, and four numbers.
fn slots_of(home: u32) -> [u64; 6]
    requires { IsDiskHome home }
    ensures { AreSlots (2 ^ 32) SHAPE.refs result }
{
    let number = u64::from(home);
    let itself = encode_ref(Ref::Disk(home));
    [itself, 0, number, number << 16, !number, PRIME]
}

/// Writes so many records to the disk, one after another.
fn write_records<D: StaleDisk>(disk: &mut D, count: u32) -> Result<StaleSpace<'_, D>> {
    let mut space = StaleSpace::new(disk, u32::MAX);
    for _ in 0..count {
        let home = space.reserve_home(SHAPE)?;
        space.write_body(home, SHAPE, &slots_of(home))?;
    }
    Ok(space)
}

/// Reads the record at `home`, which has to be a Body of that shape.
fn record_at<R: RecordReader>(reader: &mut R, home: u32, end: u32) -> Result<[u64; COST as usize]>
    requires { home + 8 ≤ 2 ^ 32 }
{
    let mut words = [0; COST as usize];
    reader.read_at(home, &mut words)?;
    let head = decode_head(home, end, [words[0], words[1]])?;
    ensure!(head == BODY, "home {home} has another record");
    decode_rest(home, end, SHAPE, &words[2..])?;
    Ok(words)
}

/// Reads the records before `end`, and mixes their words into one.
fn sum_of_records<R: RecordReader>(reader: &mut R, end: u32) -> Result<u64> {
    let mut sum = 0u64;
    for number in 0..end / COST {
        let words = record_at(reader, number * COST + 1, end)?;
        sum = words
            .iter()
            .fold(sum, |sum, word| (sum ^ *word).wrapping_mul(PRIME));
    }
    Ok(sum)
}

/// Writes so many records to a disk without homes and reads them back. Answers what mixes their words.
pub fn checksum<D: StaleDisk>(alloc: Global, disk: &mut D, count: u32) -> Result<u64> {
    let mut space = write_records(disk, count)?;
    let mut reader = space.lend(alloc)?;
    let sum = sum_of_records(&mut reader, space.end());
    space.give_back(reader);
    sum
}

/// The same for a disk in a file.
fn checksum_of_file(rt: HostRuntime, count: u32) -> Result<u64> {
    let mut disk = FileDisk::new(rt.alloc(), rt, 0);
    checksum(rt.alloc(), &mut disk, count)
}

/// What the word after `disk` asks for.
pub fn bench(rt: HostRuntime, words: &[String]) -> Result<()> {
    let [count] = words else {
        bail!("`disk` takes one word: how many records");
    };
    let sum = checksum_of_file(rt, number(count)?)?;
    println!(rt; "{sum}")?;
    Ok(())
}
