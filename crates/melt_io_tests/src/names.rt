//! Tests of which file a disk makes in a folder, and that it keeps it whatever becomes of the name. Each runs in a folder of its
//! own.
ghost use Rattle.std.specs.Prelude.{◌<◌};

use crate::tests::read_into;
use melt_io::{Failed, FileDisk, RecordReader, StaleDisk};
use melt_same::same;
use std::alloc::{Allocator, Global};
use std::cell::Cell;
use std::fs::{File, Metadata, OpenOptions};
use std::os::unix::fs::{MetadataExt, symlink};
use std::rt::Files;
use std::test::Fail;
use std::{env, fs, io};

/// Goes into a new folder of this name.
fn enter(rt: &HostRuntime, folder: &str) -> Result<(), Fail> {
    let _ = fs::remove_dir_all(rt, folder);
    fs::create_dir(rt, folder)?;
    env::set_current_dir(rt, folder)?;
    Ok(())
}

/// Leaves that folder and removes it.
fn leave(rt: &HostRuntime, folder: &str) -> Result<(), Fail> {
    env::set_current_dir(rt, "..")?;
    fs::remove_dir_all(rt, folder)?;
    Ok(())
}

/// Reads two words of the disk by a reader of its own.
fn two_words<D: StaleDisk>(alloc: Global, disk: &mut D, at: u8) -> Option<[u64; 2]> {
    let mut words = [9; 2];
    read_into(alloc, disk, at, &mut words).ok()?;
    Some(words)
}

/// Writes to two disks in one folder, and reads both while a reader is lent by the first.
fn write_to_both<D: StaleDisk>(alloc: Global, first: &mut D, second: &mut D) -> Result<(), Fail> {
    first.write_at(1, &[5, 6])?;
    let mut lent = first.lend(alloc)?;
    let written = [second.write_at(1, &[7, 8, 9]), first.write_at(2, &[4])];
    let mut words = [0; 3];
    let read = lent.read_at(1, &mut words);
    let others = [
        two_words(alloc, first, 1),
        two_words(alloc, second, 1),
        two_words(alloc, second, 3),
    ];
    first.give_back(lent);
    same(
        (written, read, words),
        ([Ok(()), Ok(())], Ok(()), [5, 4, 0]),
    )?;
    same(others, [Some([5, 4]), Some([7, 8]), Some([9, 0])])
}

#[test]
fn disks_in_one_folder_keep_their_own_words(rt: HostRuntime) -> Result<(), Fail> {
    enter(&rt, "own_words")?;
    let mut first = FileDisk::new(rt.alloc(), rt, 0);
    let mut second = FileDisk::new(rt.alloc(), rt, 0);
    write_to_both(rt.alloc(), &mut first, &mut second)?;
    leave(&rt, "own_words")
}

/// Writes to a new disk of this number, whose file has this name then, and not before.
fn write_numbered(rt: HostRuntime, number: u8, name: &str) -> Result<(), Fail>
    requires { number < 8 }
{
    let mut disk = FileDisk::new(rt.alloc(), rt, number);
    let is_early = fs::symlink_metadata(&rt, name).is_ok();
    disk.write_at(u32::from(number), &[5])?;
    let size = fs::metadata(&rt, name)?.len();
    same(
        (name, is_early, size),
        (name, false, 8 * u64::from(number) + 8),
    )
}

#[test]
fn each_number_has_a_file_of_its_own(rt: HostRuntime) -> Result<(), Fail> {
    enter(&rt, "numbers")?;
    write_numbered(rt, 0, "melt.stale")?;
    write_numbered(rt, 1, "melt.stale.1")?;
    write_numbered(rt, 7, "melt.stale.7")?;
    leave(&rt, "numbers")
}

/// Reads one word.
fn word_of<R: RecordReader>(reader: &mut R, at: u8) -> Option<u64> {
    let mut word = [9];
    reader.read_at(u32::from(at), &mut word).ok()?;
    Some(word[0])
}

/// Reads words in turn by two readers of a disk of which each word is its own number.
fn read_in_turn<R: RecordReader>(low: &mut R, high: &mut R) -> Result<(), Fail> {
    for (at, after) in [(1, 3), (2, 4), (1, 3)] {
        let words = (word_of(low, at), word_of(high, after));
        let wanted = (Some(u64::from(at)), Some(u64::from(after)));
        same((at, words), (at, wanted))?;
    }
    Ok(())
}

/// Lends two readers of a disk, to which a word is written then.
fn lend_two<D: StaleDisk>(alloc: Global, disk: &mut D) -> Result<(), Fail> {
    disk.write_at(1, &[1, 2, 3, 4])?;
    let mut low = disk.lend(alloc)?;
    let mut high = disk.lend(alloc)?;
    read_in_turn(&mut low, &mut high)?;
    let written = disk.write_at(5, &[5]);
    same((written, word_of(&mut high, 5)), (Ok(()), Some(5)))
}

#[test]
fn readers_of_one_file_read_each_at_its_own_place(rt: HostRuntime) -> Result<(), Fail> {
    enter(&rt, "places")?;
    let mut disk = FileDisk::new(rt.alloc(), rt, 0);
    lend_two(rt.alloc(), &mut disk)?;
    leave(&rt, "places")
}

/// Fails where a file has another text.
fn same_text(rt: &HostRuntime, path: &str, wanted: &str) -> Result<(), Fail> {
    let text = fs::read_to_string(rt, path)?;
    same(text.as_str(), wanted)
}

/// Writes to a disk before and after another file takes the name of its own.
fn exchange<D: StaleDisk>(rt: &HostRuntime, disk: &mut D) -> Result<(), Fail> {
    disk.write_at(1, &[5, 6])?;
    fs::remove_file(rt, "melt.stale")?;
    same(two_words(rt.alloc(), disk, 1), Some([5, 6]))?;

    fs::write(rt, "melt.stale", "of another")?;
    disk.write_at(2, &[7])?;
    same(two_words(rt.alloc(), disk, 1), Some([5, 7]))?;
    same_text(rt, "melt.stale", "of another")
}

#[test]
fn what_becomes_of_the_name_changes_nothing(rt: HostRuntime) -> Result<(), Fail> {
    enter(&rt, "exchanged")?;
    let mut disk = FileDisk::new(rt.alloc(), rt, 0);
    exchange(&rt, &mut disk)?;
    leave(&rt, "exchanged")?;
    same(disk.faults.count(), 0)
}

/// Writes the word 5 to a new disk in this folder, and reads it.
fn write_one(rt: HostRuntime) -> Result<(), Fail> {
    let mut disk = FileDisk::new(rt.alloc(), rt, 0);
    let written = disk.write_at(1, &[5]);
    let words = two_words(rt.alloc(), &mut disk, 1);
    same((written, words), (Ok(()), Some([5, 0])))
}

#[test]
fn a_link_is_removed_and_not_followed(rt: HostRuntime) -> Result<(), Fail> {
    enter(&rt, "links")?;
    fs::write(&rt, "target", "kept")?;
    for is_hard in [false, true] {
        if is_hard {
            fs::remove_file(&rt, "melt.stale")?;
            fs::hard_link(&rt, "target", "melt.stale")?;
        } else {
            symlink(&rt, "target", "melt.stale")?;
        }
        write_one(rt)?;
        same_text(&rt, "target", "kept")?;
        let is_file = fs::symlink_metadata(&rt, "melt.stale")?.is_file();
        same((is_hard, is_file), (is_hard, true))?;
    }
    leave(&rt, "links")
}

/// Writes to a new disk while a folder has the name of its file, and when it has gone.
fn write_past_folder(rt: HostRuntime) -> Result<(), Fail> {
    let mut disk = FileDisk::new(rt.alloc(), rt, 0);
    let refused = disk.write_at(1, &[5]);
    let faults = [disk.faults.count(), disk.file.faults.count()];
    let is_removed = fs::remove_dir(&rt, "melt.stale").is_ok();
    let written = disk.write_at(1, &[5]);
    let words = two_words(rt.alloc(), &mut disk, 1);
    same(
        (refused, faults, is_removed, written, words),
        (Err(Failed), [1, 1], true, Ok(()), Some([5, 0])),
    )
}

#[test]
fn a_folder_of_that_name_is_a_fault_and_stays(rt: HostRuntime) -> Result<(), Fail> {
    enter(&rt, "folders")?;
    fs::create_dir(&rt, "melt.stale")?;
    write_past_folder(rt)?;
    leave(&rt, "folders")
}

#[test]
fn only_its_owner_may_read_and_write_the_file(rt: HostRuntime) -> Result<(), Fail> {
    enter(&rt, "owners")?;
    fs::write(&rt, "melt.stale", "readable by all")?;
    write_one(rt)?;
    let mode = fs::metadata(&rt, "melt.stale")?.mode();
    same(mode & 0o777, 0o600)?;
    leave(&rt, "owners")
}

/// The files of a folder in which so many other runs make their file, each at the moment when this one has removed what was
/// there.
#[derive(Drop)]
struct Contested {
    files: HostRuntime,
    others: Cell<u32>,
}

impl Files for Contested {
    type File = File;

    type Dir = <HostRuntime as Files>::Dir;

    fn open_file(&self, how: &OpenOptions, path: &str) -> io::Result<File> {
        self.files.open_file(how, path)
    }

    fn open_dir(&self, path: &str) -> io::Result<Self::Dir> {
        self.files.open_dir(path)
    }

    fn metadata(&self, path: &str) -> io::Result<Metadata> {
        self.files.metadata(path)
    }

    fn symlink_metadata(&self, path: &str) -> io::Result<Metadata> {
        self.files.symlink_metadata(path)
    }

    fn copy(&self, from: &str, to: &str) -> io::Result<u64> {
        self.files.copy(from, to)
    }

    fn rename(&self, from: &str, to: &str) -> io::Result<()> {
        self.files.rename(from, to)
    }

    fn remove_file(&self, path: &str) -> io::Result<()> {
        let removed = self.files.remove_file(path);
        let others = self.others.get();
        if others > 0 {
            self.others.set(others - 1);
            fs::write(&self.files, path, "of another")?;
        }
        removed
    }

    fn create_dir(&self, path: &str) -> io::Result<()> {
        self.files.create_dir(path)
    }

    fn remove_dir(&self, path: &str) -> io::Result<()> {
        self.files.remove_dir(path)
    }

    fn remove_dir_all<B: Allocator>(&self, alloc: B, path: &str) -> io::Result<()> {
        self.files.remove_dir_all(alloc, path)
    }
}

/// Writes to a new disk in a folder in which so many other runs are faster. It fails where they are a thousand.
fn write_late(rt: HostRuntime, others: u32) -> Result<(), Fail> {
    let files = Contested {
        files: rt,
        others: Cell::new(others),
    };
    let mut disk = FileDisk::new(rt.alloc(), files, 0);
    let is_refused = disk.write_at(1, &[5]).is_err();
    let left = disk.file.runtime.others.get();
    same((others, is_refused, left), (others, others == 1000, 0))
}

#[test]
fn faster_runs_are_waited_for_and_not_forever(rt: HostRuntime) -> Result<(), Fail> {
    enter(&rt, "faster")?;
    for (others, wanted) in [(3, 16), (999, 16), (1000, 10)] {
        write_late(rt, others)?;
        let left = fs::metadata(&rt, "melt.stale")?.len();
        same((others, left), (others, wanted))?;
    }
    leave(&rt, "faster")
}
