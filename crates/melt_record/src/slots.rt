//! The words of a record after its head: the reference slots, and then the number words.
ghost use Rattle.std.specs.Prelude.{◌≡◌, ◌+◌, ◌↔◌, IsTrue, OnOk, IfErr, length};
ghost use Rattle.melt_word.specs.Words.{IsShape};
ghost use Rattle.melt_record.specs.Records.{AreSlots, IsSlotDamage, IsSlotWord};

use crate::damage::Damaged;
use crate::head::HEAD_WORDS;
use melt_word::{Ref, Shape, decode_ref};

fn is_slot_word(end: u32, word: u64) -> bool
    ensures { IsTrue result ↔ IsSlotWord end word }
{
    match decode_ref(word) {
        Ok(Ref::Null) => true,
        Ok(Ref::Disk(home)) => home < end,
        Ok(Ref::Clean(_) | Ref::Stale(_)) => false,
        Err(_) => false,
    }
}

/// Tests the words of a Body after its head. `end` is the first word of the disk past all homes.
/// Damage is at the first reference slot that is neither null nor a reference to a home before `end`;
/// a number word may be any word.
pub fn decode_rest(home: u32, end: u32, shape: Shape, words: &[u64]) -> Result<(), Damaged>
    requires shape { IsShape shape }
    requires words { length words.now ≡ shape.refs + shape.nums }
    ensures ok { OnOk result (AreSlots end shape.refs words.now) }
    ensures err { IfErr result (IsSlotDamage home end shape.refs words.now) }
{
    let refs = &words[..usize::from(shape.refs)];
    for (slot, word) in refs.iter().enumerate() {
        if !is_slot_word(end, *word) {
            return Err(Damaged {
                home,
                at: (HEAD_WORDS + slot) as u32,
                word: *word,
            });
        }
    }
    Ok(())
}
