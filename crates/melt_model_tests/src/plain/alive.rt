//! A slow body of what is alive in a history.
ghost use Rattle.std.specs.Prelude.{◌≡◌, ◌↔◌, IsTrue, IfOk, Contains};
ghost use Rattle.melt_model.specs.Plain.{ListsAlive, IsSlotOf, InSlotOf, Wrote, IsNext, IsOneMore};

use super::last;
use melt_model::{Act, Entry, NoMemory, Slot, Value};
use std::alloc::Global;

/// Whether the slot is a global, or a reference slot of one of the objects.
fn is_slot_of(objects: &[u64], slot: Slot) -> bool
    ensures { IsTrue result ↔ IsSlotOf objects.now slot }
{
    match slot {
        Slot::Field(object, _) => objects.contains(&object),
        Slot::Cell(..) => false,
        Slot::Global(_) => true,
    }
}

/// The object to which the slot that an act wrote refers now, where the slot is a global or one of
/// the objects, and the object is none of them.
fn one_more_by_act(history: &[Entry], objects: &[u64], act: Act) -> Option<u64>
    ensures { IsOneMore objects.now (Wrote history.now objects.now act) result }
{
    let Act::Write { slot, .. } = act else {
        return None;
    };
    match last(history, slot) {
        Value::Ref(object) if is_slot_of(objects, slot) && !objects.contains(&object) => {
            Some(object)
        }
        _ => None,
    }
}

/// An object to which a global or a slot of one of the objects refers, and that is none of them.
fn one_more_in_slots(history: &[Entry], objects: &[u64]) -> Option<u64>
    ensures { IsOneMore objects.now (InSlotOf history.now objects.now) result }
{
    for entry in history {
        if let Some(object) = one_more_by_act(history, objects, entry.act) {
            return Some(object);
        }
    }
    None
}

/// An object in a register that is none of the objects.
fn one_more_held(registers: &[Value], objects: &[u64]) -> Option<u64>
    ensures { IsOneMore objects.now (λ n. Contains registers.now (Value.Ref n)) result }
{
    for value in registers {
        if let Value::Ref(object) = *value {
            if !objects.contains(&object) {
                return Some(object);
            }
        }
    }
    None
}

/// An object one step from the objects that is none of them.
fn one_more(history: &[Entry], registers: &[Value], objects: &[u64]) -> Option<u64>
    ensures { IsOneMore objects.now (IsNext history.now registers.now objects.now) result }
{
    match one_more_held(registers, objects) {
        Some(object) => Some(object),
        None => one_more_in_slots(history, objects),
    }
}

/// The objects that are alive where one thread is left, each object once. The registers of the
/// thread hold these values, from register 0 on, and Nil where there are no more.
pub fn alive_objects(
    alloc: Global,
    history: &[Entry],
    registers: &[Value],
) -> Result<Vec<u64>, NoMemory>
    ensures { IfOk result (λ objects. ListsAlive history.now registers.now objects.items) }
{
    let mut objects = Vec::new(alloc);
    while let Some(object) = one_more(history, registers, &objects) {
        objects.push(object)?;
    }
    Ok(objects)
}
