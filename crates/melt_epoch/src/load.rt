//! How a thread loads a reference: it looks at the word, and takes a tag that it finds there.
ghost use Rattle.std.specs.Prelude.{◌≡◌, ◌+◌, ◌*◌, ◌<◌, ◌≤◌, true, false, Some};
ghost use Rattle.melt_model.specs.declared.history.Slot.{Slot};
ghost use Rattle.melt_model.specs.declared.history.Value.{Value};
ghost use Rattle.melt_rule.specs.Rule.{has_cause};
ghost use Rattle.melt_rule.specs.Seats.{IsSeat, knows_of};
ghost use Rattle.melt_rule.specs.Tells.{Looks, Names, Reads};
ghost use Rattle.melt_rule.specs.declared.view.Doing.TheVariants.{Cleared};
ghost use Rattle.melt_rule.specs.declared.view.View.{View as ViewIs};
ghost use Rattle.melt_epoch.specs.Epochs.{Fits};
ghost use Rattle.melt_epoch.specs.Loading.{Found, IsBefore, Loads, LoadsGlobal, LoadsSlot, Resolves, KnownSlot};
ghost use Rattle.melt_epoch.specs.Mutators.{IsIdle};

use crate::bring::bring;
use melt_core::call::{Place, Search};
use melt_core::{Pause, Refusal};
use melt_io::RecordReader;
use melt_rule::{Seated, Words};
use melt_scion::Heap;
use melt_word::Ref;

/// Takes the tag from the reference that was found at a place, whose object is at the target, and answers the load.
fn untag(words: &Words, seat: &mut Seated, place: Place, found: Ref, target: u32) -> u32
    requires seat { IsSeat words.now seat.old }
    requires cleared { (knows_of seat.old).doing ≡ Some (Cleared place found target) }
    requires named { (s : Slot) × KnownSlot (knows_of seat.old).known place s }
    ensures seat { IsSeat words.now seat.new }
    ensures reads { (s : Slot) → KnownSlot (knows_of seat.old).known place s
        → Reads (knows_of seat.old) (knows_of seat.new) s result }
{
    match place {
        Place::Field { object, i } => words.untag_slot(seat, object, i, found, target),
        Place::Global { g } => words.untag_global(seat, g, found, target),
    }
}

/// Goes on with a load that found a stale reference: it clears the stale bit of the object at the target, takes the
/// tag, and answers the address of what it read.
#[cold]
#[inline(never)]
fn load_stale(words: &Words, seat: &mut Seated, place: Place, target: u32) -> u32
    requires seat { IsSeat words.now seat.old }
    requires found { Found (knows_of seat.old) place (Ref.Stale target) }
    ensures seat { IsSeat words.now seat.new }
    ensures own { (knows_of seat.new).mine ≡ (knows_of seat.new).seen }
    ensures loads { (v : ViewIs) (s : Slot) → KnownSlot v.known place s
        → Looks v (knows_of seat.old) s place (Ref.Stale target) → Loads v (knows_of seat.new) s 3 result }
{
    words.clear(seat, target);
    untag(words, seat, place, Ref::Stale(target), target)
}

/// Goes on with a load that found a home: it brings the object of the home into use, takes the tag, and answers the
/// address of what it read.
#[cold]
#[inline(never)]
fn load_home<R: RecordReader>(
    words: &Words,
    seat: &mut Seated,
    heap: &Heap,
    end: u32,
    reader: &mut R,
    place: Place,
    home: u32,
) -> Result<u32, Refusal>
    requires seat { IsSeat words.now seat.old }
    requires found { Found (knows_of seat.old) place (Ref.Disk home) }
    requires no_cause { has_cause (knows_of seat.old) ≡ false }
    requires fits { Fits words.now heap.now end }
    requires reader { words.now.start.began.told ≡ true → R.image reader.old ≡ Some words.now.start.began.image }
    requires within { home < end }
    ensures seat { IsSeat words.now seat.new }
    ensures own { (knows_of seat.new).mine ≡ (knows_of seat.new).seen }
    ensures resolves { (v : ViewIs) (s : Slot) → KnownSlot v.known place s
        → Looks v (knows_of seat.old) s place (Ref.Disk home)
        → Resolves words.now.start.began.told (R.image reader.old) heap.now.scions end (R.faults reader.old)
        (R.faults reader.new) v (knows_of seat.new) s (2 * words.now.start.began.forwards + 132) result }
    ensures image { R.image reader.new ≡ R.image reader.old }
    ensures count { R.faults reader.old ≤ R.faults reader.new }
    ensures reads_rise { R.reads reader.old ≤ R.reads reader.new }
    ensures two_reads { R.reads reader.new ≤ R.reads reader.old + 2 }
{
    let search = Search {
        place,
        home,
        tried: 0,
        dst: 0,
    };
    let target = bring(words, seat, heap, end, reader, search)?;
    Ok(untag(words, seat, place, Ref::Disk(home), target))
}

/// Goes on with a load that looked at a place, and answers the address of what it read, or 0 for nothing. Most words
/// have no tag, so that is answered where the load stands; what takes a tag is called.
#[inline(always)]
pub(crate) fn resolve<R: RecordReader>(
    words: &Words,
    seat: &mut Seated,
    heap: &Heap,
    end: u32,
    reader: &mut R,
    place: Place,
    found: Ref,
) -> Result<u32, Refusal>
    requires seat { IsSeat words.now seat.old }
    requires found { Found (knows_of seat.old) place found }
    requires no_cause { has_cause (knows_of seat.old) ≡ false }
    requires fits { Fits words.now heap.now end }
    requires reader { words.now.start.began.told ≡ true → R.image reader.old ≡ Some words.now.start.began.image }
    requires within { IsBefore end found }
    ensures seat { IsSeat words.now seat.new }
    ensures own { (knows_of seat.new).mine ≡ (knows_of seat.new).seen }
    ensures resolves { (v : ViewIs) (s : Slot) → KnownSlot v.known place s → Looks v (knows_of seat.old) s place found
        → Resolves words.now.start.began.told (R.image reader.old) heap.now.scions end (R.faults reader.old)
        (R.faults reader.new) v (knows_of seat.new) s (2 * words.now.start.began.forwards + 132) result }
    ensures image { R.image reader.new ≡ R.image reader.old }
    ensures count { R.faults reader.old ≤ R.faults reader.new }
    ensures reads_rise { R.reads reader.old ≤ R.reads reader.new }
    ensures two_reads { R.reads reader.new ≤ R.reads reader.old + 2 }
{
    match found {
        Ref::Null => Ok(0),
        Ref::Clean(address) => Ok(address),
        Ref::Stale(target) => Ok(load_stale(words, seat, place, target)),
        Ref::Disk(home) => load_home(words, seat, heap, end, reader, place, home),
    }
}

/// What a load of a slot comes to.
#[derive(Clone, Copy)]
pub(crate) enum Loaded {
    /// The register holds nothing.
    Nil,
    /// Its object has no such slot.
    Range,
    /// The slot has the object at this address, or nothing at 0.
    At(u32),
}

/// Loads a global, and answers the address of what it read, or 0 for nothing.
#[inline(always)]
pub(crate) fn load_global<R: RecordReader>(
    words: &Words,
    seat: &mut Seated,
    heap: &Heap,
    end: u32,
    reader: &mut R,
    g: u8,
) -> Result<u32, Refusal>
    requires seat { IsIdle words.now seat.old }
    requires global { g < words.now.start.began.globals }
    requires fits { Fits words.now heap.now end }
    requires reader { words.now.start.began.told ≡ true → R.image reader.old ≡ Some words.now.start.began.image }
    ensures seat { IsIdle words.now seat.new }
    ensures loads { LoadsGlobal words.now.start.began.told (R.image reader.old) heap.now.scions end
        (R.faults reader.old)
        (R.faults reader.new) (knows_of seat.old) (knows_of seat.new) g (2 * words.now.start.began.forwards + 133)
        result }
    ensures image { R.image reader.new ≡ R.image reader.old }
    ensures count { R.faults reader.old ≤ R.faults reader.new }
    ensures reads_rise { R.reads reader.old ≤ R.reads reader.new }
    ensures two_reads { R.reads reader.new ≤ R.reads reader.old + 2 }
{
    if words.poll(seat) {
        return Err(Refusal::Pause(Pause::Asked));
    }
    let found = words.load_global(seat, g);
    resolve(words, seat, heap, end, reader, Place::Global { g }, found)
}

/// Loads reference slot `i` of the object at an address; at 0 there is none.
#[inline(always)]
pub(crate) fn load_slot<R: RecordReader>(
    words: &Words,
    seat: &mut Seated,
    heap: &Heap,
    end: u32,
    reader: &mut R,
    address: u32,
    i: u8,
) -> Result<Loaded, Refusal>
    requires seat { IsIdle words.now seat.old }
    requires held { (value : Value) × Names (knows_of seat.old).known address value }
    requires fits { Fits words.now heap.now end }
    requires reader { words.now.start.began.told ≡ true → R.image reader.old ≡ Some words.now.start.began.image }
    ensures seat { IsIdle words.now seat.new }
    ensures loads { (value : Value) → Names (knows_of seat.old).known address value
        → LoadsSlot words.now.start.began.told (R.image reader.old) heap.now.scions end (R.faults reader.old)
        (R.faults reader.new) (knows_of seat.old) (knows_of seat.new) value i
        (2 * words.now.start.began.forwards + 134) result }
    ensures image { R.image reader.new ≡ R.image reader.old }
    ensures count { R.faults reader.old ≤ R.faults reader.new }
    ensures reads_rise { R.reads reader.old ≤ R.reads reader.new }
    ensures two_reads { R.reads reader.new ≤ R.reads reader.old + 2 }
{
    if address == 0 {
        return Ok(Loaded::Nil);
    }
    if words.poll(seat) {
        return Err(Refusal::Pause(Pause::Asked));
    }
    let shape = words.load_header(seat, address);
    if i >= shape.refs {
        return Ok(Loaded::Range);
    }
    let found = words.load_slot(seat, address, i);
    let place = Place::Field { object: address, i };
    let target = resolve(words, seat, heap, end, reader, place, found)?;
    Ok(Loaded::At(target))
}
