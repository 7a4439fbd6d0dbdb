ghost use Rattle.std.specs.Prelude.{◌≡◌};

use melt_disk::{DiskFull, StaleSpace};
use melt_io::{Failed, LendRefusal, MemDisk, StaleDisk, SteadyDisk};
use melt_same::same;
use melt_word::Shape;
use std::alloc::Global;
use std::fmt::InlineText;
use std::test::Fail;

const SHAPE: Shape = Shape { refs: 0, nums: 1 };

#[test]
fn homes_stand_one_after_another_up_to_the_limit(rt: HostRuntime) -> Result<(), Fail> {
    let full = DiskFull {
        end: 9,
        need: 2,
        limit: 9,
    };
    let told = "the disk has no room for a home of 2 words from word 9 on, before word 9";
    same(InlineText::<96>::of(full).as_str(), told)?;
    let mut disk = SteadyDisk::new(rt.alloc());
    let mut space = StaleSpace::new(&mut disk, 9);
    let first = space.reserve_home(Shape { refs: 0, nums: 6 });
    let second = space.reserve_home(Shape { refs: 0, nums: 0 });
    let got = (first, second, space.end(), space.limit());
    same(got, (Ok(1), Err(full), 9, 9))
}

/// Writes a body to the home 1 of a new space. A reader is lent then, and keeps its words when a stub is written there.
fn write_both(alloc: Global, disk: &mut SteadyDisk) -> Result<(), Fail> {
    let mut space = StaleSpace::new(disk, 9);
    same(space.reserve_home(SHAPE), Ok(1))?;
    space.write_body(1, SHAPE, &[7])?;
    let reader = space.lend(alloc).ok().ok_or("no reader")?;
    let written = space.write_stub(1, SHAPE, 1);
    let image = [0, 4_295_032_833, 0, 7];
    let kept = same(
        (written, reader.image.as_slice()),
        (Ok(()), image.as_slice()),
    );
    space.give_back(reader);
    kept
}

#[test]
fn a_stub_leaves_the_slots_of_the_body(rt: HostRuntime) -> Result<(), Fail> {
    let mut disk = SteadyDisk::new(rt.alloc());
    write_both(rt.alloc(), &mut disk)?;
    let counts = [
        disk.writes,
        disk.lends,
        disk.faults.count(),
        disk.read_faults,
    ];
    let image = [0, 4_295_032_834, 1, 7];
    same(
        (disk.image.as_slice(), counts),
        (image.as_slice(), [2, 1, 0, 0]),
    )
}

#[test]
fn homes_of_each_cost_are_needed(rt: HostRuntime) -> Result<(), Fail> {
    let mut disk = SteadyDisk::new(rt.alloc());
    let space = StaleSpace::new(&mut disk, 9);
    let mut counts = [0; 127];
    counts[2] = 3;
    counts[126] = 2;
    same(space.need(&counts), 258)
}

/// Fails where a reader of the disk has other words than a body in the home 1 alone.
fn same_body(alloc: Global, space: &mut StaleSpace<'_, MemDisk>) -> Result<(), Fail>
    ensures { space.new.end ≡ space.old.end }
{
    let reader = space.lend(alloc).ok().ok_or("no reader")?;
    let image = [0, 4_295_032_833, 0, 7];
    let kept = same(reader.image.as_slice(), image.as_slice());
    space.give_back(reader);
    kept
}

/// Writes a body to each of the homes 1 and 4 of a new space. The second write fails, and is made again.
fn write_twice(alloc: Global, disk: &mut MemDisk) -> Result<(), Fail> {
    let mut space = StaleSpace::new(disk, 9);
    same(space.reserve_home(SHAPE), Ok(1))?;
    same(space.reserve_home(SHAPE), Ok(4))?;
    let first = space.write_body(1, SHAPE, &[7]);
    let second = space.write_body(4, SHAPE, &[8]);
    same((first, second), (Ok(()), Err(Failed)))?;
    same_body(alloc, &mut space)?;
    same(space.write_body(4, SHAPE, &[8]), Ok(()))
}

#[test]
fn a_write_that_fails_leaves_the_other_records(rt: HostRuntime) -> Result<(), Fail> {
    let mut disk = MemDisk::new(rt.alloc());
    disk.fail_writes.push(2)?;
    write_twice(rt.alloc(), &mut disk)?;
    let counts = [disk.writes, disk.faults.count(), disk.read_faults];
    let image = [0, 4_295_032_833, 0, 7, 17_179_934_721, 0, 8];
    same(
        (disk.image.as_slice(), counts),
        (image.as_slice(), [3, 1, 0]),
    )
}

/// Writes a body to the home 1 of a new space. The first lend fails then, and the second one does not.
fn lend_twice(alloc: Global, disk: &mut MemDisk) -> Result<(), Fail> {
    let mut space = StaleSpace::new(disk, 9);
    same(space.reserve_home(SHAPE), Ok(1))?;
    space.write_body(1, SHAPE, &[7])?;
    same(space.lend(alloc).err(), Some(LendRefusal::Failed))?;
    same_body(alloc, &mut space)
}

#[test]
fn a_lend_that_fails_leaves_the_records(rt: HostRuntime) -> Result<(), Fail> {
    let mut disk = MemDisk::new(rt.alloc());
    disk.fail_lends.push(1)?;
    lend_twice(rt.alloc(), &mut disk)?;
    let counts = [disk.lends, disk.faults.count(), disk.read_faults];
    same(counts, [2, 1, 0])
}

/// Writes a body to the home 1 of a new space, and a word after it to the disk that the space gives back.
fn write_after(disk: &mut SteadyDisk) -> Result<(), Fail> {
    let mut space = StaleSpace::new(disk, 9);
    same(space.reserve_home(SHAPE), Ok(1))?;
    space.write_body(1, SHAPE, &[7])?;
    let back = space.into_disk();
    same(back.write_at(4, &[8]), Ok(()))
}

#[test]
fn the_disk_comes_back_with_what_was_written(rt: HostRuntime) -> Result<(), Fail> {
    let mut disk = SteadyDisk::new(rt.alloc());
    write_after(&mut disk)?;
    let image = [0, 4_295_032_833, 0, 7, 8];
    same((disk.image.as_slice(), disk.writes), (image.as_slice(), 2))
}
