//! How the record of a home is read, after a search that no forwarding word helped.
//!
//! Nothing that is read is trusted: what a record cannot say is found, and ends the call. Where the disk returns what
//! was written, it is never found.
ghost use Rattle.std.specs.Prelude.{◌≡◌, ℕ, ◌+◌, ◌<◌, ◌≤◌, IfErr, IfOk, Some};
ghost use Rattle.melt_word.specs.Words.{IsDiskHome, IsShape, cost_of};
ghost use Rattle.melt_scion.specs.Heaps.{scion_in};
ghost use Rattle.melt_epoch.specs.Fetching.{Fetches, IsDead, ReadsHead, ReadsRest};

use melt_core::Refusal;
use melt_io::RecordReader;
use melt_record::{Damaged, Head, Kind, decode_head, decode_rest};
use melt_scion::ScionTable;
use melt_word::Shape;

/// How many words a record has at most after its head: 62 slots and 62 numbers.
pub(crate) const MAX_REST: usize = 124;

/// What the record of a home holds.
#[derive(Clone, Copy)]
pub(crate) enum Fetched {
    /// A Stub, whose live scion leads to the object at the address `target`.
    Stub { scion: u32, target: u32 },
    /// The object itself: its shape, and its slots and numbers in front of zeros.
    Body { shape: Shape, rest: [u64; MAX_REST] },
}

/// Reads the head of the record at a home.
fn read_head<R: RecordReader>(reader: &mut R, end: u32, home: u32) -> Result<Head, Refusal>
    requires within { home < end }
    ensures head { ReadsHead (R.image reader.old) end home (R.faults reader.old) (R.faults reader.new) result }
    ensures image { R.image reader.new ≡ R.image reader.old }
    ensures count { R.faults reader.old ≤ R.faults reader.new }
    ensures reads_rise { R.reads reader.old ≤ R.reads reader.new }
    ensures one_read { R.reads reader.new ≤ R.reads reader.old + 1 }
{
    let mut words = [0; 2];
    if reader.read_at(home, &mut words).is_err() {
        return Err(Refusal::DiskFault);
    }
    match decode_head(home, end, words) {
        Ok(head) => Ok(head),
        Err(damaged) => Err(Refusal::Damaged(damaged)),
    }
}

/// Reads the words of a Body of this shape after its head.
fn read_rest<R: RecordReader>(
    reader: &mut R,
    end: u32,
    home: u32,
    shape: Shape,
) -> Result<[u64; MAX_REST], Refusal>
    requires shape { IsShape shape }
    requires within { home + cost_of shape ≤ end }
    ensures rest { ReadsRest (R.image reader.old) end home shape (R.faults reader.old) (R.faults reader.new) result }
    ensures image { R.image reader.new ≡ R.image reader.old }
    ensures count { R.faults reader.old ≤ R.faults reader.new }
    ensures reads_rise { R.reads reader.old ≤ R.reads reader.new }
    ensures one_read { R.reads reader.new ≤ R.reads reader.old + 1 }
{
    let mut rest = [0; MAX_REST];
    let len = usize::from(shape.refs) + usize::from(shape.nums);
    if len == 0 {
        return Ok(rest);
    }
    let words = &mut rest[..len];
    if reader.read_at(home + 2, words).is_err() {
        return Err(Refusal::DiskFault);
    }
    match decode_rest(home, end, shape, words) {
        Ok(()) => Ok(rest),
        Err(damaged) => Err(Refusal::Damaged(damaged)),
    }
}

/// The address of the object to which a Stub of the home leads by its scion.
fn find_stub(scions: &ScionTable, home: u32, scion: u32) -> Result<u32, Damaged>
    ensures live { IfOk result (λ target. scion_in scions.now scion ≡ Some (record { home = home; address = target })) }
    ensures dead { IfErr result (IsDead scions.now home scion) }
{
    match scions.get(scion) {
        Some((of, target)) if of == home => Ok(target),
        _ => Err(Damaged {
            home,
            at: 1,
            word: u64::from(scion),
        }),
    }
}

/// Reads the record of a home, which a search missed: its head, and then what a Body has after it.
pub(crate) fn read_record<R: RecordReader>(
    reader: &mut R,
    scions: &ScionTable,
    end: u32,
    home: u32,
) -> Result<Fetched, Refusal>
    requires home { IsDiskHome home }
    requires within { home < end }
    ensures fetches { Fetches (R.image reader.old) scions.now end home (R.faults reader.old) (R.faults reader.new)
        result }
    ensures image { R.image reader.new ≡ R.image reader.old }
    ensures count { R.faults reader.old ≤ R.faults reader.new }
    ensures reads_rise { R.reads reader.old ≤ R.reads reader.new }
    ensures two_reads { R.reads reader.new ≤ R.reads reader.old + 2 }
{
    let head = read_head(reader, end, home)?;
    let shape = head.shape;
    match head.kind {
        Kind::Stub { scion } => match find_stub(scions, home, scion) {
            Ok(target) => Ok(Fetched::Stub { scion, target }),
            Err(damaged) => Err(Refusal::Damaged(damaged)),
        },
        Kind::Body => {
            let rest = read_rest(reader, end, home, shape)?;
            Ok(Fetched::Body { shape, rest })
        }
    }
}
