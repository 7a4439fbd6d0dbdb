//! Slow bodies of what a history tells.
ghost use Rattle.std.specs.Prelude.{◌≡◌, ◌↔◌, IsTrue, IfOk, MatchOption, MatchResult, slice_set};
ghost use Rattle.melt_model.specs.History.{made, write_of, slot_eq, first_value, after_write, last, shape, given};
ghost use Rattle.melt_model.specs.History.{IsSlot, IsReference, CanHold, MayFollow, Legal};
ghost use Rattle.melt_model.specs.Thread.{own, value_in, unchanged, found, number, does, act_at, given_at, next_given};
ghost use Rattle.melt_model.specs.Thread.{Takes, places_left, Transcript};
ghost use Rattle.melt_model_tests.specs.Plain.{deed_of, HasPart, LacksPart};

use melt_model::{Act, Entry, MAX_PARTS, NoMemory, Op, Reply, Slot, Value};
use std::alloc::Global;

pub mod alive;

/// How many objects were made.
pub fn made(history: &[Entry]) -> u64
    ensures { result ≡ made history.now }
{
    let mut count = 0;
    for entry in history {
        if let Act::Make { .. } = entry.act {
            count += 1;
        }
    }
    count
}

/// Whether the two are the same place.
fn is_same_slot(a: Slot, b: Slot) -> bool
    ensures { result ≡ slot_eq a b }
{
    a == b
}

/// What a slot holds to which nothing was written.
fn first_value(slot: Slot) -> Value
    ensures { result ≡ first_value slot }
{
    match slot {
        Slot::Field(..) | Slot::Global(_) => Value::Nil,
        Slot::Cell(..) => Value::Num(0),
    }
}

/// What a slot holds after an act that found `value` there.
fn after_act(slot: Slot, act: Act, value: Value) -> Value
    ensures { result ≡ after_write slot (write_of act) value }
{
    match act {
        Act::Write {
            slot: written,
            value: new,
        } if is_same_slot(written, slot) => new,
        _ => value,
    }
}

/// The value last written to a slot.
pub fn last(history: &[Entry], slot: Slot) -> Value
    ensures { result ≡ last history.now slot }
{
    history.iter().fold(
        first_value(slot),
        |value, entry| after_act(slot, entry.act, value),
    )
}

/// The places of a thread's entries, in ascending order.
pub fn own(alloc: Global, history: &[Entry], thread: u8) -> Result<Vec<usize>, NoMemory>
    ensures { IfOk result (λ places. places.items ≡ own history.now thread) }
{
    let mut places = Vec::new(alloc);
    for (place, entry) in history.iter().enumerate() {
        if entry.thread == thread {
            places.push(place)?;
        }
    }
    Ok(places)
}

/// How many reference slots and how many number words an object has.
#[derive(Clone, Copy)]
struct Shape {
    refs: u8,
    nums: u8,
}

/// The shape of an object, if it was made.
fn shape_of(history: &[Entry], object: u64) -> Option<Shape>
    ensures { let made = shape history.now object in
        MatchOption result
        (made ≡ None)
        (λ found. made ≡ Some (record { refs = found.refs; nums = found.nums })) }
{
    let mut left = object;
    for entry in history {
        if let Act::Make { refs, nums } = entry.act {
            if left == 0 {
                return Some(Shape { refs, nums });
            }
            left -= 1;
        }
    }
    None
}

/// Whether the slot is one of an object that was made, or one of the globals.
fn is_slot(history: &[Entry], globals: u8, slot: Slot) -> bool
    ensures { IsTrue result ↔ IsSlot history.now globals slot }
{
    match slot {
        Slot::Field(object, i) => shape_of(history, object).is_some_and(|shape| i < shape.refs),
        Slot::Cell(object, j) => shape_of(history, object).is_some_and(|shape| j < shape.nums),
        Slot::Global(g) => g < globals,
    }
}

/// Whether the value is Nil, or an object that was made.
fn is_reference(history: &[Entry], value: Value) -> bool
    ensures { IsTrue result ↔ IsReference history.now value }
{
    match value {
        Value::Nil => true,
        Value::Ref(object) => object < made(history),
        Value::Num(_) => false,
    }
}

/// Whether a slot of this kind may hold the value.
fn can_hold(history: &[Entry], slot: Slot, value: Value) -> bool
    ensures { IsTrue result ↔ CanHold history.now slot value }
{
    match slot {
        Slot::Field(..) | Slot::Global(_) => is_reference(history, value),
        Slot::Cell(..) => matches!(value, Value::Num(_)),
    }
}

/// Whether the act may stand after these entries.
fn may_follow(before: &[Entry], globals: u8, act: Act) -> bool
    ensures { IsTrue result ↔ MayFollow before.now globals act }
{
    match act {
        Act::Make { refs, nums } => refs <= MAX_PARTS && nums <= MAX_PARTS,
        Act::Read { slot, value } => is_slot(before, globals, slot) && value == last(before, slot),
        Act::Write { slot, value } => {
            is_slot(before, globals, slot) && can_hold(before, slot, value)
        }
    }
}

/// Whether each entry may stand where it stands.
pub fn is_legal(history: &[Entry], globals: u8) -> bool
    ensures { IsTrue result ↔ Legal history.now globals }
{
    for (place, entry) in history.iter().enumerate() {
        if !may_follow(&history[..place], globals, entry.act) {
            return false;
        }
    }
    true
}

/// What one operation does: the act of its entry, if it has one, the reply, and the registers
/// after it.
#[derive(Clone, Copy, Debug, PartialEq, Eq)]
pub struct Deed {
    pub act: Option<Act>,
    pub reply: Reply,
    pub registers: [Value; 16],
}

/// The value in a register, or Nil where there is no such register.
fn value_in(registers: &[Value; 16], r: u8) -> Value
    ensures { result ≡ value_in registers.now r }
{
    registers.get(usize::from(r)).copied().unwrap_or(Value::Nil)
}

/// The registers with another value in one, if there is such a register.
fn with_register(mut registers: [Value; 16], r: u8, value: Value) -> [Value; 16]
    ensures { result ≡ slice_set registers r value }
{
    let place = usize::from(r);
    if place < registers.len() {
        registers[place] = value;
    }
    registers
}

/// A deed with no entry that leaves the registers as they were.
fn unchanged(registers: [Value; 16], reply: Reply) -> Deed
    ensures { deed_of result ≡ unchanged registers reply }
{
    Deed {
        act: None,
        reply,
        registers,
    }
}

/// The reply to a load that found this value.
fn found(value: Value) -> Reply
    ensures { result ≡ found value }
{
    match value {
        Value::Nil => Reply::Null,
        Value::Ref(_) | Value::Num(_) => Reply::Ref,
    }
}

/// The number that a number word holds.
fn number(value: Value) -> u64
    ensures { result ≡ number value }
{
    match value {
        Value::Num(number) => number,
        Value::Nil | Value::Ref(_) => 0,
    }
}

/// The reference slot `i` of the object in a register; the reply where there is none.
fn field_of(history: &[Entry], registers: &[Value; 16], r: u8, i: u8) -> Result<Slot, Reply>
    ensures { let object = value_in registers.now r in
        MatchResult result
        (HasPart (λ z. z.refs) (λ n. Slot.Field n i) history.now object i)
        (LacksPart (λ z. z.refs) history.now object i) }
{
    let Value::Ref(object) = value_in(registers, r) else {
        return Err(Reply::Nil);
    };
    match shape_of(history, object) {
        Some(shape) if i < shape.refs => Ok(Slot::Field(object, i)),
        _ => Err(Reply::Range),
    }
}

/// The number word `j` of the object in a register; the reply where there is none.
fn cell_of(history: &[Entry], registers: &[Value; 16], r: u8, j: u8) -> Result<Slot, Reply>
    ensures { let object = value_in registers.now r in
        MatchResult result
        (HasPart (λ z. z.nums) (λ n. Slot.Cell n j) history.now object j)
        (LacksPart (λ z. z.nums) history.now object j) }
{
    let Value::Ref(object) = value_in(registers, r) else {
        return Err(Reply::Nil);
    };
    match shape_of(history, object) {
        Some(shape) if j < shape.nums => Ok(Slot::Cell(object, j)),
        _ => Err(Reply::Range),
    }
}

/// What a load does that found the value in this slot.
fn load(registers: [Value; 16], dst: u8, slot: Slot, value: Value) -> Deed
    ensures { deed_of result ≡ record {
      act = Some (Act.Read slot value);
      reply = found value;
      registers = slice_set registers dst value;
    } }
{
    Deed {
        act: Some(Act::Read { slot, value }),
        reply: found(value),
        registers: with_register(registers, dst, value),
    }
}

/// What a store of the value into this slot does.
fn store(registers: [Value; 16], slot: Slot, value: Value) -> Deed
    ensures { deed_of result ≡ record {
      act = Some (Act.Write slot value);
      reply = Reply.Done;
      registers = registers;
    } }
{
    Deed {
        act: Some(Act::Write { slot, value }),
        reply: Reply::Done,
        registers,
    }
}

/// What a get does that found the number in this slot.
fn get(registers: [Value; 16], slot: Slot, number: u64) -> Deed
    ensures { deed_of result ≡ record {
      act = Some (Act.Read slot (Value.Num number));
      reply = Reply.Num number;
      registers = registers;
    } }
{
    Deed {
        act: Some(Act::Read {
            slot,
            value: Value::Num(number),
        }),
        reply: Reply::Num(number),
        registers,
    }
}

/// What one operation does, by the entries, the registers before it, and the value that its entry
/// gives.
pub fn does(history: &[Entry], registers: [Value; 16], op: Op, given: Value) -> Deed
    ensures { deed_of result ≡ does history.now registers op given }
{
    match op {
        Op::New { dst, refs, nums } => Deed {
            act: Some(Act::Make { refs, nums }),
            reply: Reply::Done,
            registers: with_register(registers, dst, given),
        },
        Op::Load { dst, src, i } => match field_of(history, &registers, src, i) {
            Ok(slot) => load(registers, dst, slot, given),
            Err(reply) => unchanged(registers, reply),
        },
        Op::Store { obj, i, src } => match field_of(history, &registers, obj, i) {
            Ok(slot) => store(registers, slot, value_in(&registers, src)),
            Err(reply) => unchanged(registers, reply),
        },
        Op::Get { src, j } => match cell_of(history, &registers, src, j) {
            Ok(slot) => get(registers, slot, number(given)),
            Err(reply) => unchanged(registers, reply),
        },
        Op::Put { obj, j, v } => match cell_of(history, &registers, obj, j) {
            Ok(slot) => store(registers, slot, Value::Num(v)),
            Err(reply) => unchanged(registers, reply),
        },
        Op::GLoad { dst, g } => load(registers, dst, Slot::Global(g), given),
        Op::GStore { g, src } => store(registers, Slot::Global(g), value_in(&registers, src)),
        Op::Same { a, b } => {
            let same = value_in(&registers, a) == value_in(&registers, b);
            unchanged(registers, if same { Reply::Yes } else { Reply::No })
        }
        Op::Copy { dst, src } => {
            let value = value_in(&registers, src);
            unchanged(with_register(registers, dst, value), Reply::Done)
        }
        Op::Drop { r } => unchanged(with_register(registers, r, Value::Nil), Reply::Done),
        Op::Collect => unchanged(registers, Reply::Done),
    }
}

/// The act that stands at a place.
fn act_at(history: &[Entry], place: usize) -> Option<Act>
    ensures { result ≡ act_at history.now place }
{
    history.get(place).map(|entry| entry.act)
}

/// What an act gives to its thread, after these entries.
fn given(before: &[Entry], act: Act) -> Option<Value>
    ensures { result ≡ given before.now act }
{
    match act {
        Act::Make { .. } => Some(Value::Ref(made(before))),
        Act::Read { value, .. } => Some(value),
        Act::Write { .. } => None,
    }
}

/// What the entry at a place gives.
fn given_at(history: &[Entry], place: usize) -> Option<Value>
    ensures { result ≡ given_at history.now place }
{
    let act = act_at(history, place)?;
    given(&history[..place], act)
}

/// What the entry at the first of the places gives.
fn next_given(history: &[Entry], places: &[usize]) -> Value
    ensures { result ≡ next_given history.now places.now }
{
    match places {
        [place, ..] => given_at(history, *place).unwrap_or(Value::Nil),
        [] => Value::Nil,
    }
}

/// Whether the act, if there is one, stands at the first of the places.
fn takes(history: &[Entry], act: Option<Act>, places: &[usize]) -> bool
    ensures { IsTrue result ↔ Takes history.now act places.now }
{
    match (act, places) {
        (None, _) => true,
        (Some(_), []) => false,
        (Some(act), [place, ..]) => act_at(history, *place) == Some(act),
    }
}

/// The places that are left by an operation with this act.
fn places_left(act: Option<Act>, places: &[usize]) -> &[usize]
    ensures { result.now ≡ places_left act places.now }
{
    match (act, places) {
        (Some(_), [_, left @ ..]) => left,
        _ => places,
    }
}

/// Whether the history gives the thread these replies to the first of its operations.
pub fn is_transcript(
    alloc: Global,
    history: &[Entry],
    thread: u8,
    ops: &[Op],
    replies: &[Reply],
) -> Result<bool, NoMemory>
    ensures { IfOk result (λ yes. IsTrue yes ↔ Transcript history.now thread ops.now replies.now) }
{
    let places = own(alloc, history, thread)?;
    let mut left = places.as_slice();
    let mut registers = [Value::Nil; 16];
    for (k, reply) in replies.iter().enumerate() {
        let Some(op) = ops.get(k) else {
            return Ok(false);
        };
        let deed = does(history, registers, *op, next_given(history, left));
        if deed.reply != *reply || !takes(history, deed.act, left) {
            return Ok(false);
        }
        left = places_left(deed.act, left);
        registers = deed.registers;
    }
    Ok(left.is_empty())
}
