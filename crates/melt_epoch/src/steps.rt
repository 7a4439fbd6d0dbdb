//! Calls on the words of an epoch that no record is read for, by addresses: each reads the stop word first, and is
//! refused where that is set.
ghost use Rattle.std.specs.Prelude.{◌≡◌, ◌<◌, ℕ, List};
ghost use Rattle.melt_model.specs.Thread.{value_in};
ghost use Rattle.melt_model.specs.declared.history.Value.{Value};
ghost use Rattle.melt_model.specs.declared.operations.Op.TheVariants.{Get, GStore, Put, Store};
ghost use Rattle.melt_rule.specs.Seats.{knows_of};
ghost use Rattle.melt_rule.specs.Tells.{Names};
ghost use Rattle.melt_epoch.specs.Calls.{Plain};
ghost use Rattle.melt_epoch.specs.Mutators.{IsIdle};

use melt_core::{Pause, Refusal};
use melt_model::Reply;
use melt_rule::{Seated, Words};

/// Reads number word `j` of the object at an address; at 0 there is none.
pub(crate) fn read_number(
    words: &Words,
    seat: &mut Seated,
    address: u32,
    j: u8,
) -> Result<Reply, Refusal>
    requires seat { IsIdle words.now seat.old }
    requires held { (value : Value) × Names (knows_of seat.old).known address value }
    ensures seat { IsIdle words.now seat.new }
    ensures plain { (rs : List Value) (src : ℕ) → Names (knows_of seat.old).known address (value_in rs src)
        → Plain (knows_of seat.old) (knows_of seat.new) rs rs (Get src j) 3 result }
{
    if address == 0 {
        return Ok(Reply::Nil);
    }
    // A call is refused here or not at all: once past the poll, it ends without waiting for anyone.
    if words.poll(seat) {
        return Err(Refusal::Pause(Pause::Asked));
    }
    let shape = words.load_header(seat, address);
    if j >= shape.nums {
        return Ok(Reply::Range);
    }
    Ok(Reply::Num(words.load_number(seat, address, shape, j)))
}

/// Writes number word `j` of the object at an address; at 0 there is none.
pub(crate) fn write_number(
    words: &Words,
    seat: &mut Seated,
    address: u32,
    j: u8,
    word: u64,
) -> Result<Reply, Refusal>
    requires seat { IsIdle words.now seat.old }
    requires held { (value : Value) × Names (knows_of seat.old).known address value }
    ensures seat { IsIdle words.now seat.new }
    ensures plain { (rs : List Value) (obj : ℕ) → Names (knows_of seat.old).known address (value_in rs obj)
        → Plain (knows_of seat.old) (knows_of seat.new) rs rs (Put obj j word) 3 result }
{
    if address == 0 {
        return Ok(Reply::Nil);
    }
    if words.poll(seat) {
        return Err(Refusal::Pause(Pause::Asked));
    }
    let shape = words.load_header(seat, address);
    if j >= shape.nums {
        return Ok(Reply::Range);
    }
    words.store_number(seat, address, shape, j, word);
    Ok(Reply::Done)
}

/// Writes what a register holds into reference slot `i` of the object at an address; at 0 there is none.
pub(crate) fn write_slot(
    words: &Words,
    seat: &mut Seated,
    address: u32,
    i: u8,
    held: u32,
) -> Result<Reply, Refusal>
    requires seat { IsIdle words.now seat.old }
    requires object { (value : Value) × Names (knows_of seat.old).known address value }
    requires held { (value : Value) × Names (knows_of seat.old).known held value }
    ensures seat { IsIdle words.now seat.new }
    ensures plain { (rs : List Value) (obj src : ℕ) → Names (knows_of seat.old).known address (value_in rs obj)
        → Names (knows_of seat.old).known held (value_in rs src)
        → Plain (knows_of seat.old) (knows_of seat.new) rs rs (Store obj i src) 3 result }
{
    if address == 0 {
        return Ok(Reply::Nil);
    }
    if words.poll(seat) {
        return Err(Refusal::Pause(Pause::Asked));
    }
    let shape = words.load_header(seat, address);
    if i >= shape.refs {
        return Ok(Reply::Range);
    }
    words.store_slot(seat, address, i, held);
    Ok(Reply::Done)
}

/// Writes what a register holds into a global.
pub(crate) fn write_global(
    words: &Words,
    seat: &mut Seated,
    g: u8,
    held: u32,
) -> Result<Reply, Refusal>
    requires seat { IsIdle words.now seat.old }
    requires global { g < words.now.start.began.globals }
    requires held { (value : Value) × Names (knows_of seat.old).known held value }
    ensures seat { IsIdle words.now seat.new }
    ensures plain { (rs : List Value) (src : ℕ) → Names (knows_of seat.old).known held (value_in rs src)
        → Plain (knows_of seat.old) (knows_of seat.new) rs rs (GStore g src) 2 result }
{
    if words.poll(seat) {
        return Err(Refusal::Pause(Pause::Asked));
    }
    words.store_global(seat, g, held);
    Ok(Reply::Done)
}
