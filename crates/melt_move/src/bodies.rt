//! Writes the Bodies of the objects that leave.
//!
//! They are encoded from the words of before, in which every object still stands where its references say, and every
//! home is known by then: so a Body is written once, in whichever order they come.
ghost use Rattle.std.specs.Prelude.{◌≡◌, ◌≤◌, ◌<◌, ◌+◌, ◌*◌, ◌^◌, ℕ, OnOk, OnErr, length, slice_index};
ghost use Rattle.melt_io.specs.Outside.{Rose, counted};
ghost use Rattle.melt_record.specs.Records.{AreSlots, IsSlotWord};
ghost use Rattle.melt_word.specs.Words.{IsRef, cost_of};
ghost use Rattle.melt_word.specs.declared.reference.Ref.TheVariants.{Disk};
ghost use Rattle.melt_space.specs.Space.{word_at};
ghost use Rattle.melt_scion.specs.State.{State};
ghost use Rattle.melt_scion.specs.Heaps.{Shows};
ghost use Rattle.melt_copy.specs.Settling.{RisesBy};
ghost use Rattle.melt_move.specs.KeptDisk.{KeepsDisk};
ghost use Rattle.melt_move.specs.Bodies.{AreLeavingRefs, BecomesHome, Departs, EncodesSlots, IsLeavingRef, IsNamed};
ghost use Rattle.melt_move.specs.Bodies.{WritesBodies, WritesBody};
ghost use Rattle.melt_move.specs.Plans.{HasRoom, IsDecision, home_by, need_for};
ghost use Rattle.melt_move.specs.Visits.{leaving_words};

use crate::choice::Departure;
use crate::decision::Decision;
use melt_copy::visit_words;
use melt_disk::StaleSpace;
use melt_io::{Failed, StaleDisk};
use melt_model::Steps;
use melt_space::Space;
use melt_word::{MAX_PARTS, Ref, cost, encode_ref, reference_of};
use std::sync::ledger::Ledger;

/// How many slots an object has at most: reference slots and number words.
const MAX_SLOTS: usize = 2 * MAX_PARTS as usize;

/// A reference to an object, as the Body of one that leaves and refers to it has it.
fn refer_home(decision: &Decision, space: &Space, address: u32) -> Ref
    requires { (s : State) × IsNamed space.now s decision.now address }
    ensures in_range { IsRef result }
    ensures value { result ≡ Disk (home_by (word_at space.now) decision.now address) }
{
    Ref::Disk(decision.home_of(space, address))
}

/// The word of a reference in an object that leaves, as the Body has it.
fn encode_slot(decision: &Decision, space: &Space, word: u64) -> u64
    requires { (s : State) × IsLeavingRef space.now s decision.now word }
    ensures slot { IsSlotWord (2 ^ 32) result }
    ensures becomes { (s : State) → IsLeavingRef space.now s decision.now word
        → BecomesHome s decision.now word result }
{
    match reference_of(word) {
        Ref::Clean(address) | Ref::Stale(address) => {
            encode_ref(refer_home(decision, space, address))
        }
        Ref::Null | Ref::Disk(_) => word,
    }
}

/// Makes the words of references in an object that leaves those that the Body has.
fn encode_refs<L: Ledger>(
    words: &mut [u64],
    decision: &Decision,
    space: &Space,
    steps: &mut Steps<L>,
)
    requires { (s : State) × AreLeavingRefs space.now s decision.now words.old }
    ensures slots { AreSlots (2 ^ 32) (length words.old) words.new }
    ensures becomes { (s : State) → AreLeavingRefs space.now s decision.now words.old
        → (i : ℕ) → i < length words.old
        → BecomesHome s decision.now (slice_index words.old i) (slice_index words.new i) }
    ensures visits { steps.new ≡ steps.old + length words.old }
{
    for word in words.iter_mut() {
        steps.tick();
        *word = encode_slot(decision, space, *word);
    }
}

/// Puts the slots of an object that leaves, as the Body has them, in the place of these words: the references, and then
/// the number words.
fn encode_slots<L: Ledger>(
    slots: &mut [u64],
    decision: &Decision,
    space: &Space,
    d: Departure,
    steps: &mut Steps<L>,
)
    requires size { length slots.old ≡ d.shape.refs + d.shape.nums }
    requires departs { (s : State) × Departs space.now s decision.now d }
    ensures slots { AreSlots (2 ^ 32) d.shape.refs slots.new }
    ensures encodes { (s : State) → Departs space.now s decision.now d → EncodesSlots s decision.now d slots.new }
    ensures visits { steps.new + 1 ≤ steps.old + 2 * cost_of d.shape }
{
    let object = space.words_at(d.from, cost(d.shape));
    // Before the slots stand the header and the home word.
    visit_words(&object[2..], steps);
    slots.copy_from_slice(&object[2..]);
    encode_refs(&mut slots[..d.shape.refs as usize], decision, space, steps);
}

/// Writes the Body of an object that leaves.
fn write_body<D: StaleDisk, L: Ledger>(
    disk: &mut StaleSpace<'_, D>,
    decision: &Decision,
    space: &Space,
    d: Departure,
    steps: &mut Steps<L>,
) -> Result<(), Failed>
    requires end { disk.old.end ≡ decision.now.homes.first + need_for decision.now.homes.given.items }
    requires departs { (s : State) × Departs space.now s decision.now d }
    ensures written { OnOk result ((s : State) (image : ℕ → ℕ) → Departs space.now s decision.now d
        → Shows (D.image disk.old.disk.now) image → (after : ℕ → ℕ) × Shows (D.image disk.new.disk.now) after
        × WritesBody s (home_by s.word decision.now) disk.old.end d image after) }
    ensures visits { steps.new + 1 ≤ steps.old + 2 * cost_of d.shape }
    ensures one_write { D.writes disk.new.disk.now ≡ counted (D.writes disk.old.disk.now) 1 }
    ensures failed { OnErr result (Rose (D.faults disk.old.disk.now) (D.faults disk.new.disk.now)) }
    ensures keeps { KeepsDisk D.image D.faults D.read_faults D.lends disk.old disk.new }
    ensures end { disk.new.end ≡ disk.old.end }
{
    let mut room = [0; MAX_SLOTS];
    let slots = &mut room[..d.shape.refs as usize + d.shape.nums as usize];
    encode_slots(slots, decision, space, d, steps);
    disk.write_body(decision.home_of(space, d.from), d.shape, slots)
}

/// Writes the Bodies of all objects that leave. The homes of the decision were reserved.
pub fn write_bodies<D: StaleDisk, L: Ledger>(
    disk: &mut StaleSpace<'_, D>,
    decision: &Decision,
    space: &Space,
    steps: &mut Steps<L>,
) -> Result<(), Failed>
    requires end { disk.old.end ≡ decision.now.homes.first + need_for decision.now.homes.given.items }
    requires decided { (s : State) × IsDecision space.now s decision.now }
    ensures written { OnOk result ((s : State) (image : ℕ → ℕ) → IsDecision space.now s decision.now
        → Shows (D.image disk.old.disk.now) image → (after : ℕ → ℕ) × Shows (D.image disk.new.disk.now) after
        × WritesBodies s (home_by s.word decision.now) disk.old.end decision.now.choice.leaving.items
        (length decision.now.choice.leaving.items) image after) }
    ensures visits { steps.new ≤ steps.old + 2 * leaving_words decision.now.choice.leaving.items }
    ensures one_write_each { OnOk result (RisesBy (length decision.now.choice.leaving.items)
        (D.writes disk.old.disk.now) (D.writes disk.new.disk.now)) }
    ensures failed { OnErr result (Rose (D.faults disk.old.disk.now) (D.faults disk.new.disk.now)) }
    ensures keeps { KeepsDisk D.image D.faults D.read_faults D.lends disk.old disk.new }
    ensures end { disk.new.end ≡ disk.old.end }
{
    // The end is the number of a word, so each home before it is one too.
    let _ = disk.end();
    for d in &decision.choice.leaving {
        steps.tick();
        write_body(disk, decision, space, *d, steps)?;
    }
    Ok(())
}
