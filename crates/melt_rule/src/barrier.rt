//! The read barrier: a load that found a reference with a tag first clears the stale bit of its object, and then takes
//! the tag from the word that it found. Both are atomic, and the second takes effect only where the word is still the
//! same: a load that loses answers the word that it finds, which has no tag any more.
ghost use Rattle.std.specs.Prelude.{◌≡◌, ◌≢◌, ℕ, ◌+◌, ◌*◌, ◌^◌, ◌<◌, ◌≤◌, Some};
ghost use Rattle.melt_model.specs.declared.history.Slot.TheVariants as slot;
ghost use Rattle.melt_core.specs.declared.call.Place.{Place};
ghost use Rattle.melt_core.specs.declared.call.Place.TheVariants.{Field, Global};
ghost use Rattle.melt_rule.specs.Barriers.{ClearPlay, GlobalUntagPlay, UntagPlay};
ghost use Rattle.melt_rule.specs.Rule.{Has};
ghost use Rattle.melt_rule.specs.Seats.{HasName, IsSeat, knows_of};
ghost use Rattle.melt_rule.specs.Tells.{Reaches, Reads};
ghost use Rattle.melt_rule.specs.declared.view.Doing.TheVariants.{Looked, Cleared};

use crate::view::View;
use crate::words::{GLOBALS_AT, Seated, Words};
use atomic_table::Play;
use melt_word::{Ref, decode_ref, encode_ref};

/// All bits of a word but the stale bit of a header.
pub(crate) const ALL_BUT_STALE: u64 = !2;

/// The tag is taken from the reference in a slot, where it is still the same.
pub(crate) struct UntagSlot;

impl Play<u64, View> for UntagSlot {
    ghost then = { UntagPlay };
}

/// The tag is taken from the reference in a global, where it is still the same.
pub(crate) struct UntagGlobal;

impl Play<u64, View> for UntagGlobal {
    ghost then = { GlobalUntagPlay };
}

/// The stale bit of a header is cleared.
pub(crate) struct Clear;

impl Play<u64, View> for Clear {
    ghost then = { ClearPlay };
}

impl Words {
    /// Clears the stale bit of the object at the target, which a look found.
    pub fn clear(&self, seat: &mut Seated, target: u32)
        requires seat { IsSeat self.now seat.old }
        requires looked { (place : Place) × ((found : Ref)
            × ((knows_of seat.old).doing ≡ Some (Looked place found target))) }
        ensures seat { IsSeat self.now seat.new }
        ensures clears { (place : Place) (found : Ref) → (knows_of seat.old).doing ≡ Some (Looked place found target)
            → Reaches (knows_of seat.old) (knows_of seat.new) (Some (Cleared place found target)) }
    {
        // No compare-exchange: whoever clears the bit first, it is clear, and nothing else of the header changes.
        let at = self.before + target as usize;
        self.table
            .shared
            .fetch_and::<Clear>(seat, at, ALL_BUT_STALE);
    }

    /// Takes the tag from the reference in slot `i` of an object, whose own object is at the target, and answers the
    /// load: with the target where the reference was still there, and else with what stands there by then. An answer of
    /// 0 is no object.
    pub fn untag_slot(&self, seat: &mut Seated, object: u32, i: u8, found: Ref, target: u32) -> u32
        requires seat { IsSeat self.now seat.old }
        requires known { HasName (knows_of seat.old) object }
        requires cleared { (knows_of seat.old).doing ≡ Some (Cleared (Field object i) found target) }
        ensures seat { IsSeat self.now seat.new }
        ensures reads { (n : ℕ) → Has (knows_of seat.old).known object n
            → Reads (knows_of seat.old) (knows_of seat.new) (slot.Field n i) result }
    {
        let at = self.before + object as usize + 2 + i as usize;
        // Another thread may have stored into the slot since the look. Then the load is answered with what it stored.
        let old = encode_ref(found);
        let new = encode_ref(Ref::Clean(target));
        let seen = self
            .table
            .shared
            .compare_exchange::<UntagSlot>(seat, at, old, new);
        answer(seen, old, target)
    }

    /// The same with the reference in a global.
    pub fn untag_global(&self, seat: &mut Seated, g: u8, found: Ref, target: u32) -> u32
        requires seat { IsSeat self.now seat.old }
        requires cleared { (knows_of seat.old).doing ≡ Some (Cleared (Global g) found target) }
        ensures seat { IsSeat self.now seat.new }
        ensures reads { Reads (knows_of seat.old) (knows_of seat.new) (slot.Global g) result }
    {
        let old = encode_ref(found);
        let new = encode_ref(Ref::Clean(target));
        let seen = self
            .table
            .shared
            .compare_exchange::<UntagGlobal>(seat, GLOBALS_AT + g as usize, old, new);
        answer(seen, old, target)
    }
}

/// What an exchange answers that found this word: the target where it is the word that was to be found, and else the
/// address in it.
fn answer(seen: u64, old: u64, target: u32) -> u32
    requires { seen ≢ old → (address : ℕ) × ((address < 2 ^ 30) × (seen ≡ 4 * address)) }
    ensures won { seen ≡ old → result ≡ target }
    ensures lost { seen ≢ old → seen ≡ 4 * result }
{
    if seen == old {
        target
    } else {
        clean_address(seen)
    }
}

/// The address in the word of a clean reference, or 0 where it is none.
fn clean_address(word: u64) -> u32
    requires { (address : ℕ) × ((address < 2 ^ 30) × (word ≡ 4 * address)) }
    ensures { word ≡ 4 * result }
{
    let Ok(found) = decode_ref(word) else {
        unreachable!();
    };
    match found {
        Ref::Null => 0,
        Ref::Clean(address) => address,
        Ref::Stale(_) | Ref::Disk(_) => unreachable!(),
    }
}
