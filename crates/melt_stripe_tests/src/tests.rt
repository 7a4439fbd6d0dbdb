ghost use Rattle.std.specs.Prelude.{◌≡◌, ◌<◌, ◌≤◌, length};

use crate::watched::Watched;
use melt_io::{Failed, LendRefusal, MemDisk, RecordReader, StaleDisk};
use melt_same::same;
use melt_stripe::units::{disk_of, place_of};
use melt_stripe::{Striped, places_are_one_to_one};
use std::alloc::Global;
use std::test::Fail;

/// So many disks of zeros.
fn new_disks(alloc: Global, k: usize) -> Result<Vec<MemDisk>, Fail> {
    let mut disks = Vec::new(alloc);
    for _ in 0..k {
        disks.push(MemDisk::new(alloc))?;
    }
    Ok(disks)
}

/// The next of numbers that follow from a seed.
fn next(seed: &mut u64) -> u64 {
    *seed = seed
        .wrapping_mul(6364136223846793005)
        .wrapping_add(1442695040888963407);
    *seed >> 33
}

#[test]
fn units_of_64_words_go_to_the_disks_in_turn() -> Result<(), Fail> {
    places_are_one_to_one();
    for (k, word, disk, place) in [
        (1_u32, 130, 0, 130),
        (2, 63, 0, 63),
        (2, 64, 1, 0),
        (2, 65, 1, 1),
        (2, 130, 0, 66),
        (3, 130, 2, 2),
        (3, 191, 2, 63),
        (3, 192, 0, 64),
        (8, 511, 7, 63),
        (8, 512, 0, 64),
    ] {
        same(
            (k, word, disk_of(k.max(1), word), place_of(k.max(1), word)),
            (k, word, disk, place),
        )?;
    }
    Ok(())
}

/// Writes each of these words by itself, and reads them back.
fn words_come_back(disks: &mut [MemDisk], words: &[u32], alloc: Global) -> Result<(), Fail>
    requires some { 0 < length disks.old }
    requires few { length disks.old ≤ 8 }
{
    let mut striped = Striped::new(disks);
    for word in words {
        striped.write_at(*word, &[u64::from(*word) + 1])?;
    }
    let mut reader = striped.lend(alloc).ok().ok_or("no reader")?;
    for word in words {
        let mut found = [0];
        reader.read_at(*word, &mut found)?;
        same((word, found), (word, [u64::from(*word) + 1]))?;
    }
    striped.give_back(reader);
    same(striped.failed(), None)
}

#[test]
fn words_beside_the_border_of_a_unit_come_back(rt: HostRuntime) -> Result<(), Fail> {
    for k in 1..=8 {
        let mut disks = new_disks(rt.alloc(), k)?;
        let last = 64 * k as u32;
        if !disks.is_empty() && disks.len() <= 8 {
            words_come_back(&mut disks, &[63, 64, 65, last - 1, last], rt.alloc())?;
        }
        // One disk has word 65 too, which has place 1 of the second where there are more.
        let end = if k == 1 { 66 } else { 65 };
        same(
            (k, disks.first().map(|disk| disk.image.len())),
            (k, Some(end)),
        )?;
    }
    Ok(())
}

/// Makes the same writes to one disk and to several, and then reads them all.
fn is_one_disk(disks: &mut [MemDisk], seed: u64, alloc: Global) -> Result<(), Fail>
    requires some { 0 < length disks.old }
    requires few { length disks.old ≤ 8 }
{
    let mut one = MemDisk::new(alloc);
    let mut striped = Striped::new(disks);
    let mut seed = seed;
    for _ in 0..40 {
        let at = (next(&mut seed) % 700) as u32;
        let count = 1 + (next(&mut seed) % 200) as usize;
        let mut words = vec![in alloc; 0; count]?;
        for word in words.iter_mut() {
            *word = next(&mut seed);
        }
        one.write_at(at, &words)?;
        striped.write_at(at, &words)?;
    }

    let mut of_one = one.lend(alloc).ok().ok_or("no reader")?;
    let mut of_all = striped.lend(alloc).ok().ok_or("no reader")?;
    for at in [0_u16, 1, 63, 64, 500] {
        let at = u32::from(at);
        let mut want = vec![in alloc; 0; 300]?;
        let mut got = vec![in alloc; 1; 300]?;
        of_one.read_at(at, &mut want)?;
        of_all.read_at(at, &mut got)?;
        same((at, got.as_slice()), (at, want.as_slice()))?;
    }
    Ok(())
}

#[test]
fn several_disks_are_as_one(rt: HostRuntime) -> Result<(), Fail> {
    for k in 1..=8 {
        let mut disks = new_disks(rt.alloc(), k)?;
        if !disks.is_empty() && disks.len() <= 8 {
            is_one_disk(&mut disks, k as u64, rt.alloc())?;
        }
    }
    Ok(())
}

/// Writes over three disks, of which the middle one fails its first write.
fn a_write_over_three(disks: &mut [MemDisk], words: &[u64]) -> Result<(), Fail>
    requires three { length disks.old ≡ 3 }
    requires size { length words.now ≡ 66 }
{
    let mut striped = Striped::new(disks);
    same(striped.write_at(63, words), Err(Failed))?;
    same(striped.failed(), Some(1))?;
    let back = striped.into_disks();
    same(back.get(1).map(|disk| disk.writes), Some(1))
}

#[test]
fn a_unit_that_fails_ends_a_write(rt: HostRuntime) -> Result<(), Fail> {
    let mut middle = MemDisk::new(rt.alloc());
    middle.fail_writes.push(1)?;
    let mut disks = [MemDisk::new(rt.alloc()), middle, MemDisk::new(rt.alloc())];
    a_write_over_three(&mut disks, &[7; 66])?;
    same(disks[0].image.last(), Some(&7))?;
    same(
        [
            (disks[0].image.len(), disks[0].writes),
            (disks[1].image.len(), disks[1].writes),
            (disks[2].image.len(), disks[2].writes),
        ],
        [(64, 1), (0, 1), (0, 0)],
    )
}

/// Reads from two disks, of which the second fails a read, and then the first a lend.
fn first_and_second(disks: &mut [MemDisk], alloc: Global) -> Result<(), Fail>
    requires { length disks.old ≡ 2 }
{
    let mut striped = Striped::new(disks);
    striped.write_at(64, &[5])?;
    let mut reader = striped.lend(alloc).ok().ok_or("no reader")?;
    let mut found = [0; 2];
    same(reader.read_at(63, &mut found), Err(Failed))?;
    same(striped.failed(), None)?;
    striped.give_back(reader);
    same(striped.failed(), Some(1))?;
    same(striped.lend(alloc).err(), Some(LendRefusal::Failed))?;
    same(striped.failed(), Some(0))
}

#[test]
fn the_lowest_disk_that_failed_is_named(rt: HostRuntime) -> Result<(), Fail> {
    let mut first = MemDisk::new(rt.alloc());
    first.fail_lends.push(2)?;
    let mut second = MemDisk::new(rt.alloc());
    second.fail_reads.push((1, 1))?;
    let mut disks = [first, second];
    first_and_second(&mut disks, rt.alloc())?;
    same(
        [
            (disks[0].faults.count(), disks[0].read_faults),
            (disks[1].faults.count(), disks[1].read_faults),
        ],
        [(1, 0), (0, 1)],
    )
}

/// Asks two disks, of which the second refuses.
fn refused(disks: &mut [Watched<MemDisk>], alloc: Global) -> Result<(), Fail>
    requires { length disks.old ≡ 2 }
{
    let mut striped = Striped::new(disks);
    same(striped.lend(alloc).err(), Some(LendRefusal::Failed))?;
    same(striped.failed(), Some(1))
}

#[test]
fn readers_are_given_back_where_one_is_refused(rt: HostRuntime) -> Result<(), Fail> {
    let mut refusing = MemDisk::new(rt.alloc());
    refusing.fail_lends.push(1)?;
    let mut disks = [
        Watched {
            disk: MemDisk::new(rt.alloc()),
            out: 0,
        },
        Watched {
            disk: refusing,
            out: 0,
        },
    ];
    refused(&mut disks, rt.alloc())?;
    same(
        [
            (disks[0].out, disks[0].disk.lends),
            (disks[1].out, disks[1].disk.lends),
        ],
        [(0, 1), (0, 1)],
    )
}
