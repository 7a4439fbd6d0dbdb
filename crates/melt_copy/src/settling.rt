//! Settles the objects that came back from a disk, before a collection.
//!
//! While an epoch runs, an object that came back is known to other records by a forwarding word alone, and its record
//! on disk is still the Body that was read. A collection is to move the object, so a record must stand there that
//! finds it: a Stub, whose scion names the object wherever it goes.
//!
//! The Stub is written before anything in the heap names its scion. Until the home word does, the home counts as
//! forwarded, and nothing is said of the words that stand at it. So a write that fails leaves a heap that stands for
//! all that it stood for, whatever it left on disk, and only the scion has to be given back.
ghost use Rattle.std.specs.Prelude.{◌≡◌, ◌<◌, ◌≤◌, ◌↔◌, length, slice_index, IfOk, IsTrue, MatchOption, OnOk, OnErr};
ghost use Rattle.melt_forward.specs.Forwarding.{IsForwarding, Sends};
ghost use Rattle.melt_io.specs.Outside.{Rose, counted};
ghost use Rattle.melt_copy.specs.Settling.{IsFormedTo, Keeps, RisesBy, SettlesAt, SettlesBelow, StillTold, StopsAtOne};
ghost use Rattle.melt_copy.specs.Settling.{filled};
ghost use Rattle.melt_scion.specs.Heaps.{IsSettled};

use melt_disk::StaleSpace;
use melt_forward::unpack;
use melt_io::{Failed, StaleDisk};
use melt_scion::{Forwards, Heap};
use melt_word::{HomeWord, encode_home};

/// Whether no object is to be settled, as before most collections. No turn depends on a test, so a processor reads
/// several words at once.
fn is_settled(heap: &Heap) -> bool
    ensures { IsTrue result ↔ IsSettled heap.now }
{
    heap.forward.items.iter().fold(0, |all, word| all | *word) == 0
}

/// The home and the address that the forwarding word at a place sends, if it is filled.
fn sent_at(forward: &Forwards, place: usize) -> Option<(u32, u32)>
    requires within { place < length forward.now }
    requires word { IsForwarding (slice_index forward.now place) }
    ensures { MatchOption result (slice_index forward.now place ≡ 0)
        (λ pair. Sends (slice_index forward.now place) pair.0 pair.1) }
{
    unpack(forward.items[place])
}

/// Settles the object to whose address the forwarding word at the place sends its home, by one write.
fn settle_one<D: StaleDisk>(
    heap: &mut Heap,
    space: &mut StaleSpace<'_, D>,
    place: usize,
    home: u32,
    address: u32,
) -> Result<(), Failed>
    requires formed { IsFormedTo heap.old space.old.end }
    requires within { place < length heap.old.forward }
    requires sends { Sends (slice_index heap.old.forward place) home address }
    ensures settles { OnOk result (SettlesAt heap.old heap.new place home address) }
    ensures stays { OnErr result (heap.new ≡ heap.old) }
    ensures keeps { Keeps heap.old heap.new space.old.end (D.image space.old.disk.now) (D.image space.new.disk.now) }
    ensures tells { StillTold (D.image space.old.disk.now) (D.image space.new.disk.now) }
    ensures one_write { D.writes space.new.disk.now ≡ counted (D.writes space.old.disk.now) 1 }
    ensures failed { OnErr result (Rose (D.faults space.old.disk.now) (D.faults space.new.disk.now)) }
    ensures count { D.faults space.old.disk.now ≤ D.faults space.new.disk.now }
    ensures read_faults { D.read_faults space.new.disk.now ≡ D.read_faults space.old.disk.now }
    ensures lends { D.lends space.new.disk.now ≡ D.lends space.old.disk.now }
    ensures end { space.new.end ≡ space.old.end }
    ensures limit { space.new.limit ≡ space.old.limit }
    ensures same_disk { space.new.disk.ghost_name ≡ space.old.disk.ghost_name }
{
    let shape = heap.space.shape(address);
    // The Stub is on disk before the home word names its scion: till then the home counts as forwarded, and a write
    // that fails may leave anything there.
    let scion = heap.scions.add(home, address);
    if let Err(failed) = space.write_stub(home, shape, scion) {
        heap.scions.free(scion);
        return Err(failed);
    }
    let word = encode_home(Some(HomeWord { home, scion }));
    heap.space.set_word(address + 1, word);
    heap.forward.items[place] = 0;
    Ok(())
}

/// Settles all objects that came back from the disk in this epoch, by ascending place of their forwarding words, with
/// one write each, and answers how many these were. Takes no memory.
///
/// At the first write that fails it stops: the objects before it are settled, and it and those after it are forwarded
/// as before, so that a later call goes on with it, by the same scion.
pub fn settle<D: StaleDisk>(heap: &mut Heap, space: &mut StaleSpace<'_, D>) -> Result<u32, Failed>
    requires { IsFormedTo heap.old space.old.end }
    ensures keeps { Keeps heap.old heap.new space.old.end (D.image space.old.disk.now) (D.image space.new.disk.now) }
    ensures tells { StillTold (D.image space.old.disk.now) (D.image space.new.disk.now) }
    ensures formed { IsFormedTo heap.new space.new.end }
    ensures settled { OnOk result (IsSettled heap.new) }
    ensures all { OnOk result (SettlesBelow heap.old heap.new (length heap.old.forward)) }
    ensures counts { IfOk result (λ count. count ≡ filled heap.old.forward) }
    ensures writes { IfOk result (λ count.
        RisesBy count (D.writes space.old.disk.now) (D.writes space.new.disk.now)) }
    ensures stopped { OnErr result
        (StopsAtOne heap.old heap.new (D.writes space.old.disk.now) (D.writes space.new.disk.now)) }
    ensures failed { OnErr result (Rose (D.faults space.old.disk.now) (D.faults space.new.disk.now)) }
    ensures count { D.faults space.old.disk.now ≤ D.faults space.new.disk.now }
    ensures read_faults { D.read_faults space.new.disk.now ≡ D.read_faults space.old.disk.now }
    ensures lends { D.lends space.new.disk.now ≡ D.lends space.old.disk.now }
    ensures end { space.new.end ≡ space.old.end }
    ensures limit { space.new.limit ≡ space.old.limit }
    ensures same_disk { space.new.disk.ghost_name ≡ space.old.disk.ghost_name }
{
    if is_settled(heap) {
        return Ok(0);
    }
    let mut settled = 0;
    for place in 0..heap.forward.items.len() {
        if let Some((home, address)) = sent_at(&heap.forward, place) {
            settle_one(heap, space, place, home, address)?;
            settled += 1;
        }
    }
    Ok(settled)
}
