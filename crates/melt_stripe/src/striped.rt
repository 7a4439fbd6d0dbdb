//! Disks that are one, and their readers.
ghost use Rattle.std.specs.Prelude.{◌≡◌, ℕ, ◌+◌, ◌-◌, ◌^◌, ◌<◌, ◌≤◌, None, Some, length, map, min, slice_index};
ghost use Rattle.std.specs.Prelude.{IfOk, IfSome, IsErrOf, IsSome, OnErr, OnOk};
ghost use Rattle.std.specs.Option.{option_map};
ghost use Rattle.melt_io.specs.Outside.{KeepsOthers, Rose, Writes, counted, words_at};
ghost use Rattle.melt_stripe.specs.Counts.{IsAtFault, Names, NoneFell, NoneLost, RoseOf, count_of, lower_of};
ghost use Rattle.melt_stripe.specs.Images.{image_of};

use crate::runs::read_units;
use crate::units::{disk_of, left_in_unit, place_of};
use melt_io::{Failed, LendRefusal, RecordReader, StaleDisk};
use std::alloc::Global;
use std::marker::Model;

/// One to eight disks as one. It keeps no word itself.
#[derive(Drop)]
pub struct Striped<'d, D: StaleDisk> {
    disks: &'d mut [D],
    writes: u64,
    lends: u64,
    failed: Option<u32>,
}

impl<'d, D: StaleDisk> Model for Striped<'d, D> {
    ghost use Rattle.std.specs.Prelude.{◌+◌, ◌<◌, ◌≤◌, length, map};
    ghost use Rattle.melt_stripe.specs.Counts.{IsAtFault, Stripes};

    ghost Value = { Stripes D };

    ghost view = { λ s. record { disks = s.disks; writes = s.writes; lends = s.lends; failed = s.failed } };

    ghost invariant = { λ s. (0 < length s.disks.now) × (length s.disks.now ≤ 8)
        × IsAtFault s.failed (map (λ disk. D.faults disk + D.read_faults disk) s.disks.now) };
}

/// The readers of one to eight disks as one.
#[derive(Drop)]
pub struct StripedReader<R: RecordReader> {
    readers: Vec<R>,
    reads: u64,
    failed: Option<u32>,
}

impl<R: RecordReader> Model for StripedReader<R> {
    ghost use Rattle.std.specs.Prelude.{◌<◌, ◌≤◌, length, map};
    ghost use Rattle.melt_stripe.specs.Counts.{IsAtFault, StripeReaders};

    ghost Value = { StripeReaders R };

    ghost view = { λ s. record { readers = s.readers.items; reads = s.reads; failed = s.failed } };

    ghost invariant = { λ s. (0 < length s.readers.items) × (length s.readers.items ≤ 8)
        × IsAtFault s.failed (map R.faults s.readers.items) };
}

impl<'d, D: StaleDisk> Striped<'d, D> {
    /// These disks as one, of which no call has failed.
    pub fn new(disks: &'d mut [D]) -> Striped<'d, D>
        requires some { 0 < length disks.old }
        requires few { length disks.old ≤ 8 }
        ensures same_disks { result.disks.ghost_name ≡ disks.entry.ghost_name }
        ensures disks { result.disks.now ≡ disks.old }
        ensures no_writes { result.writes ≡ 0 }
        ensures no_lends { result.lends ≡ 0 }
        ensures none_failed { result.failed ≡ None }
    {
        Striped {
            disks,
            writes: 0,
            lends: 0,
            failed: None,
        }
    }

    /// Hands the disks back.
    pub fn into_disks(self) -> &'d mut [D]
        ensures same_disks { result.ghost_name ≡ self.entry.disks.ghost_name }
        ensures disks { result.now ≡ self.entry.disks.now }
    {
        self.disks
    }

    /// The lowest disk of which a write, a lend or a read of a reader that was given back has failed.
    pub fn failed(&self) -> Option<u32>
        ensures failed { result ≡ self.now.failed }
        ensures at_fault { IsAtFault result (map (λ disk. D.faults disk + D.read_faults disk) self.now.disks.now) }
    {
        self.failed
    }
}

impl<R: RecordReader> RecordReader for StripedReader<R> {
    ghost image = { λ r. image_of (map R.image r.readers) };

    ghost faults = { λ r. count_of (map R.faults r.readers) };

    ghost reads = { λ r. r.reads };

    fn read_at(&mut self, at: u32, words: &mut [u64]) -> Result<(), Failed>
        requires some { 0 < length words.old }
        requires in_range { at + length words.old ≤ 2 ^ 32 }
        ensures words { OnOk result (IfSome (image_of (map R.image self.old.readers)) (λ image. words.new
            ≡ words_at image at (length words.old))) }
        ensures image { map R.image self.new.readers ≡ map R.image self.old.readers }
        ensures failed { OnErr result (Rose (count_of (map R.faults self.old.readers))
            (count_of (map R.faults self.new.readers))) }
        ensures count { count_of (map R.faults self.old.readers) ≤ count_of (map R.faults self.new.readers) }
        ensures word { count_of (map R.faults self.new.readers) < 2 ^ 64 }
        ensures named { OnErr result (Names self.old.failed (map R.faults self.old.readers) self.new.failed
            (map R.faults self.new.readers)) }
        ensures not_named { OnOk result (self.new.failed ≡ self.old.failed) }
        ensures faults { NoneFell (map R.faults self.old.readers) (map R.faults self.new.readers) }
        ensures reads { self.new.reads ≡ counted self.old.reads 1 }
        ensures reads_rise { self.old.reads ≤ self.new.reads }
        ensures reads_word { self.new.reads < 2 ^ 64 }
    {
        self.reads = self.reads.saturating_add(1);
        match read_units(&mut self.readers, at, words) {
            Ok(()) => Ok(()),
            Err(reader) => {
                self.failed = lower(self.failed, Some(reader));
                Err(Failed)
            }
        }
    }
}

impl<D: StaleDisk> StaleDisk for Striped<'_, D> {
    type Reader = StripedReader<D::Reader>;

    ghost image = { λ d. image_of (map D.image d.disks.now) };

    ghost faults = { λ d. count_of (map D.faults d.disks.now) };

    ghost read_faults = { λ d. count_of (map D.read_faults d.disks.now) };

    ghost lends = { λ d. d.lends };

    ghost writes = { λ d. d.writes };

    fn write_at(&mut self, at: u32, words: &[u64]) -> Result<(), Failed>
        requires some { 0 < length words.now }
        requires in_range { at + length words.now ≤ 2 ^ 32 }
        ensures written { OnOk result (Writes (image_of (map D.image self.old.disks.now)) at words.now
            (image_of (map D.image self.new.disks.now))) }
        ensures others { OnErr result (KeepsOthers (image_of (map D.image self.old.disks.now)) at (length words.now)
            (image_of (map D.image self.new.disks.now))) }
        ensures failed { OnErr result (Rose (count_of (map D.faults self.old.disks.now))
            (count_of (map D.faults self.new.disks.now))) }
        ensures count { count_of (map D.faults self.old.disks.now) ≤ count_of (map D.faults self.new.disks.now) }
        ensures word { count_of (map D.faults self.new.disks.now) < 2 ^ 64 }
        ensures read_faults { count_of (map D.read_faults self.new.disks.now)
            ≡ count_of (map D.read_faults self.old.disks.now) }
        ensures lends { self.new.lends ≡ self.old.lends }
        ensures writes { self.new.writes ≡ counted self.old.writes 1 }

        ensures named { OnErr result (Names self.old.failed (map D.faults self.old.disks.now) self.new.failed
            (map D.faults self.new.disks.now)) }
        ensures not_named { OnOk result (self.new.failed ≡ self.old.failed) }
        ensures faults { NoneFell (map D.faults self.old.disks.now) (map D.faults self.new.disks.now) }
        ensures each_read { map D.read_faults self.new.disks.now ≡ map D.read_faults self.old.disks.now }
        ensures same_disks { self.new.disks.ghost_name ≡ self.old.disks.ghost_name }
    {
        self.writes = self.writes.saturating_add(1);
        let k = self.disks.len() as u32;
        let mut done = 0;
        while done < words.len() {
            let word = at + done as u32;
            let end = words.len().min(done + left_in_unit(word));
            let disk = disk_of(k, word);
            let run = &words[done..end];
            match self.disks[disk as usize].write_at(place_of(k, word), run) {
                Ok(()) => done = end,
                Err(failed) => {
                    self.failed = lower(self.failed, Some(disk));
                    return Err(failed);
                }
            }
        }
        Ok(())
    }

    fn lend(&mut self, alloc: Global) -> Result<StripedReader<D::Reader>, LendRefusal>
        ensures lent { IfOk result (λ reader. image_of (map D.Reader.image reader.readers)
            ≡ image_of (map D.image self.old.disks.now)) }
        ensures no_fault_yet { IfOk result (λ reader. count_of (map D.Reader.faults reader.readers) ≡ 0) }
        ensures no_read_yet { IfOk result (λ reader. reader.reads ≡ 0) }
        ensures image { image_of (map D.image self.new.disks.now) ≡ image_of (map D.image self.old.disks.now) }
        ensures failed { IsErrOf result LendRefusal.Failed → Rose (count_of (map D.faults self.old.disks.now))
            (count_of (map D.faults self.new.disks.now)) }
        ensures count { count_of (map D.faults self.old.disks.now) ≤ count_of (map D.faults self.new.disks.now) }
        ensures word { count_of (map D.faults self.new.disks.now) < 2 ^ 64 }
        ensures read_faults { count_of (map D.read_faults self.new.disks.now)
            ≡ count_of (map D.read_faults self.old.disks.now) }
        ensures lends { self.new.lends ≡ counted self.old.lends 1 }
        ensures writes { self.new.writes ≡ self.old.writes }

        ensures none_named_yet { IfOk result (λ reader. reader.failed ≡ None) }
        ensures named { IsErrOf result LendRefusal.Failed → Names self.old.failed (map D.faults self.old.disks.now)
            self.new.failed (map D.faults self.new.disks.now) }
        ensures not_named { ¬ IsErrOf result LendRefusal.Failed → self.new.failed ≡ self.old.failed }
        ensures faults { NoneFell (map D.faults self.old.disks.now) (map D.faults self.new.disks.now) }
        ensures same_disks { self.new.disks.ghost_name ≡ self.old.disks.ghost_name }
    {
        self.lends = self.lends.saturating_add(1);
        let k = self.disks.len();
        let mut readers = Vec::with_capacity(alloc, k).map_err(|_| LendRefusal::NoMemory)?;
        'disks: while readers.len() < k {
            let disk = readers.len();
            match self.disks[disk].lend(alloc) {
                Ok(reader) => readers.push_reserved(reader),
                Err(LendRefusal::Failed) => {
                    self.failed = lower(self.failed, Some(disk as u32));
                    self.give_back_each(readers);
                    return Err(LendRefusal::Failed);
                }
                Err(LendRefusal::NoMemory) => {
                    self.give_back_each(readers);
                    return Err(LendRefusal::NoMemory);
                }
            }
        }
        Ok(StripedReader {
            readers,
            reads: 0,
            failed: None,
        })
    }

    fn give_back(&mut self, reader: StripedReader<D::Reader>)
        ensures image { image_of (map D.image self.new.disks.now) ≡ image_of (map D.image self.old.disks.now) }
        ensures count { count_of (map D.faults self.new.disks.now) ≡ count_of (map D.faults self.old.disks.now) }
        ensures read_faults { count_of (map D.read_faults self.new.disks.now)
            ≡ counted (count_of (map D.read_faults self.old.disks.now))
            (count_of (map D.Reader.faults reader.readers)) }
        ensures lends { self.new.lends ≡ self.old.lends }
        ensures writes { self.new.writes ≡ self.old.writes }

        ensures failed { self.new.failed ≡ lower_of self.old.failed
            (option_map (λ disk. min disk (length self.old.disks.now - 1)) reader.failed) }
        ensures named { IsSome reader.failed → Names self.old.failed (map D.read_faults self.old.disks.now)
            self.new.failed (map D.read_faults self.new.disks.now) }
        ensures faults { map D.faults self.new.disks.now ≡ map D.faults self.old.disks.now }
        ensures same_disks { self.new.disks.ghost_name ≡ self.old.disks.ghost_name }
    {
        let last = self.disks.len() as u32 - 1;
        let failed = within(reader.failed, last);
        self.give_back_each(reader.readers);
        self.failed = lower(self.failed, failed);
    }
}

/// What `lend` and `give_back` share. It is a trait, since the prover takes no call, in an `impl` of a trait, of a
/// function that rests on what a type parameter may send to another thread.
trait GivesBack<R> {
    /// Gives each reader back to its disk, and where there are more readers than disks, the others to the last.
    fn give_back_each(&mut self, readers: Vec<R>);
}

impl<D: StaleDisk> GivesBack<D::Reader> for Striped<'_, D> {
    fn give_back_each(&mut self, mut readers: Vec<D::Reader>)
        ensures image { map D.image self.new.disks.now ≡ map D.image self.old.disks.now }
        ensures count { map D.faults self.new.disks.now ≡ map D.faults self.old.disks.now }
        ensures read_faults { count_of (map D.read_faults self.new.disks.now)
            ≡ counted (count_of (map D.read_faults self.old.disks.now)) (count_of (map D.Reader.faults readers.items)) }
        ensures kept { NoneLost (map D.read_faults self.old.disks.now) (map D.read_faults self.new.disks.now) }
        ensures taken_over { (reader : ℕ) → 0 < slice_index (map D.Reader.faults readers.items) reader
            → RoseOf (map D.read_faults self.old.disks.now) (map D.read_faults self.new.disks.now)
            (min reader (length self.old.disks.now - 1)) }
        ensures size { (0 < length self.new.disks.now) × (length self.new.disks.now ≤ 8) }
        ensures failed { self.new.failed ≡ self.old.failed }
        ensures lends { self.new.lends ≡ self.old.lends }
        ensures writes { self.new.writes ≡ self.old.writes }
        ensures same_disks { self.new.disks.ghost_name ≡ self.old.disks.ghost_name }
    {
        let last = self.disks.len() - 1;
        while let Some(reader) = readers.pop() {
            self.disks[readers.len().min(last)].give_back(reader);
        }
    }
}

/// What is named, or the last disk where that is past it.
fn within(named: Option<u32>, last: u32) -> Option<u32>
    ensures { result ≡ option_map (λ disk. min disk last) named }
{
    named.map(|disk| disk.min(last))
}

/// The lower of two, where there are two.
fn lower(first: Option<u32>, second: Option<u32>) -> Option<u32>
    ensures { result ≡ lower_of first second }
{
    match (first, second) {
        (None, second) => second,
        (first, None) => first,
        (Some(first), Some(second)) => Some(first.min(second)),
    }
}
