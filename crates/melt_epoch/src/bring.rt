//! How a load brings the object of a home into use.
//!
//! Whatever the call knows by the way stays true, however many steps other threads make: a forwarding word that is
//! filled stays, and a record on disk does not change within an epoch. So the record is read without a step, and of all
//! copies of one object the first that is committed is the object.
ghost use Rattle.std.specs.Prelude.{◌≡◌, ◌+◌, ◌*◌, ◌-◌, ◌<◌, ◌≤◌, true, false, Some};
ghost use Rattle.melt_rule.specs.Rule.{has_cause};
ghost use Rattle.melt_core.specs.declared.call.Activation.{Activation as ActivationIs};
ghost use Rattle.melt_rule.specs.Seats.{IsSeat, knows_of};
ghost use Rattle.melt_rule.specs.declared.view.Doing.TheVariants.{Copied, Missed, Searching};
ghost use Rattle.melt_epoch.specs.Bringing.{Brings, FindsSent, Misses, Seeks, SettlesCopy, at_hand};
ghost use Rattle.melt_epoch.specs.Epochs.{Fits};

use crate::copy::copy_in;
use crate::fetch::{Fetched, read_record};
use melt_core::call::{Activation, Search};
use melt_core::{Pause, Refusal};
use melt_io::RecordReader;
use melt_rule::{Seated, Words};
use melt_scion::Heap;

/// Where a search for a home ended.
#[derive(Clone, Copy)]
pub enum Sought {
    /// A forwarding word sends the home to this address.
    At(u32),
    /// The next word of the search is empty, so that none sends the home.
    Missed(Search),
}

/// Reads forwarding words in the search for a home, until one sends it, or is empty. Where each sends another home, it
/// sets the stop word.
pub(crate) fn seek(
    words: &Words,
    seat: &mut Seated,
    forwards: u32,
    search: Search,
) -> Result<Sought, Refusal>
    requires seat { IsSeat words.now seat.old }
    requires searching { (knows_of seat.old).doing ≡ Some (Searching search) }
    requires forwards { forwards ≡ words.now.start.began.forwards }
    ensures seat { IsSeat words.now seat.new }
    ensures own { (knows_of seat.new).mine ≡ (knows_of seat.new).seen }
    ensures seeks { Seeks (knows_of seat.old) (knows_of seat.new) search forwards result }
{
    let mut search = search;
    while search.tried < forwards {
        match words.probe(seat, search) {
            None => return Ok(Sought::Missed(search)),
            Some((home, address)) if home == search.home => return Ok(Sought::At(address)),
            Some(_) => search.tried += 1,
        }
    }
    // No word is left for an object that comes back: the collection that is asked for here empties them.
    words.stop_filled(seat, search);
    Err(Refusal::Pause(Pause::Forward))
}

/// Asks the next forwarding word with a copy at hand: where that word was found empty, it exchanges it with the copy's,
/// and else reads it.
fn ask_next(
    words: &Words,
    seat: &mut Seated,
    activation: Activation,
    empty: bool,
) -> Option<(u32, u32)>
    requires seat { IsSeat words.now seat.old }
    requires at_hand { (knows_of seat.old).doing ≡ Some (at_hand empty activation) }
    requires more { activation.search.tried < words.now.start.began.forwards }
    ensures seat { IsSeat words.now seat.new }
    ensures finds { FindsSent (knows_of seat.old) (knows_of seat.new) empty activation result }
{
    if empty {
        words.commit(seat, activation)
    } else {
        words.retry(seat, activation)
    }
}

/// Exchanges the empty forwarding word with that of the copy at hand. Where another home took it first, the search goes
/// on with the copy; where another copy of the object did, that one is the object.
pub(crate) fn commit_copy(
    words: &Words,
    seat: &mut Seated,
    forwards: u32,
    activation: Activation,
) -> Result<u32, Refusal>
    requires seat { IsSeat words.now seat.old }
    requires copied { (knows_of seat.old).doing ≡ Some (Copied activation) }
    requires forwards { forwards ≡ words.now.start.began.forwards }
    ensures seat { IsSeat words.now seat.new }
    ensures own { (knows_of seat.new).mine ≡ (knows_of seat.new).seen }
    ensures settles { SettlesCopy (knows_of seat.old) (knows_of seat.new) activation forwards result }
{
    let mut activation = activation;
    let mut empty = true;
    while activation.search.tried < forwards {
        match ask_next(words, seat, activation, empty) {
            None if empty => return Ok(activation.address),
            None => empty = true,
            Some((home, address)) if home == activation.search.home => return Ok(address),
            Some(_) => {
                activation.search.tried += 1;
                empty = false;
            }
        }
    }
    words.stop_filled(seat, activation.search);
    Err(Refusal::Pause(Pause::Forward))
}

/// Brings the object of a home into use whose search ended at an empty word, and answers its address: that of a Stub's
/// live scion, or a copy's.
fn bring_missed<R: RecordReader>(
    words: &Words,
    seat: &mut Seated,
    heap: &Heap,
    end: u32,
    reader: &mut R,
    forwards: u32,
    search: Search,
) -> Result<u32, Refusal>
    requires seat { IsSeat words.now seat.old }
    requires missed { (knows_of seat.old).doing ≡ Some (Missed search) }
    requires no_cause { has_cause (knows_of seat.old) ≡ false }
    requires forwards { forwards ≡ words.now.start.began.forwards }
    requires fits { Fits words.now heap.now end }
    requires reader { words.now.start.began.told ≡ true → R.image reader.old ≡ Some words.now.start.began.image }
    requires within { search.home < end }
    requires own { (knows_of seat.old).mine ≡ (knows_of seat.old).seen }
    ensures seat { IsSeat words.now seat.new }
    ensures own { (knows_of seat.new).mine ≡ (knows_of seat.new).seen }
    ensures misses { Misses words.now.start.began.told (R.image reader.old) heap.now.scions end (R.faults reader.old)
        (R.faults reader.new) (knows_of seat.old) (knows_of seat.new) search (128 + 2 * (forwards - search.tried))
        result }
    ensures image { R.image reader.new ≡ R.image reader.old }
    ensures count { R.faults reader.old ≤ R.faults reader.new }
    ensures reads_rise { R.reads reader.old ≤ R.reads reader.new }
    ensures two_reads { R.reads reader.new ≤ R.reads reader.old + 2 }
{
    let fetched = read_record(reader, &heap.scions, end, search.home)?;
    match fetched {
        Fetched::Stub { scion, target } => {
            words.clear_stub(seat, search, scion, target);
            Ok(target)
        }
        Fetched::Body { shape, rest } => {
            let len = usize::from(shape.refs) + usize::from(shape.nums);
            copy_in(words, seat, forwards, search, shape, &rest[..len])
        }
    }
}

/// Brings the object of a home into use that was found at a place, and answers its address.
pub(crate) fn bring<R: RecordReader>(
    words: &Words,
    seat: &mut Seated,
    heap: &Heap,
    end: u32,
    reader: &mut R,
    search: Search,
) -> Result<u32, Refusal>
    requires seat { IsSeat words.now seat.old }
    requires searching { (knows_of seat.old).doing ≡ Some (Searching search) }
    requires first { search.tried ≡ 0 }
    requires no_cause { has_cause (knows_of seat.old) ≡ false }
    requires fits { Fits words.now heap.now end }
    requires reader { words.now.start.began.told ≡ true → R.image reader.old ≡ Some words.now.start.began.image }
    requires within { search.home < end }
    ensures seat { IsSeat words.now seat.new }
    ensures own { (knows_of seat.new).mine ≡ (knows_of seat.new).seen }
    ensures brings { Brings words.now.start.began.told (R.image reader.old) heap.now.scions end (R.faults reader.old)
        (R.faults reader.new) (knows_of seat.old) (knows_of seat.new) search
        (2 * words.now.start.began.forwards + 130) result }
    ensures image { R.image reader.new ≡ R.image reader.old }
    ensures count { R.faults reader.old ≤ R.faults reader.new }
    ensures reads_rise { R.reads reader.old ≤ R.reads reader.new }
    ensures two_reads { R.reads reader.new ≤ R.reads reader.old + 2 }
{
    let forwards = heap.forward.items.len() as u32;
    let sought = seek(words, seat, forwards, search)?;
    match sought {
        Sought::At(address) => Ok(address),
        Sought::Missed(missed) => bring_missed(words, seat, heap, end, reader, forwards, missed),
    }
}
