//! The program of one thread. Each round of a kind appends the same operations, but for what the draws decide.
ghost use Rattle.std.specs.Prelude.{◌≡◌, ℕ, ◌+◌, ◌-◌, ◌/◌, ◌<◌, ◌≤◌, ◌++◌, map, IfOk, OnOk};
ghost use Rattle.melt_trace.specs.declared.script.Item.TheVariants as item;
ghost use Rattle.melt_gen.specs.declared.workload.Workload.TheVariants as workload;
ghost use Rattle.melt_gen.specs.Workloads.{drawn, state_after, list_end, front_round, look_round, highest, way};
ghost use Rattle.melt_gen.specs.Workloads.{tree_round, operations_of};

use crate::lines::{drop, get, gload, gstore, load, new, put, store};
use crate::workload::Workload;
use melt_model::{MAX_PARTS, NoMemory, Op};
use melt_trace::Item;
use rand_core::utils::NextWord;
use rand_xoshiro::SplitMix64;
use std::alloc::Global;

/// How many lists a table has: one in each slot of its object, of which no object has more.
const LISTS: u64 = MAX_PARTS as u64;

fn push_all(items: &mut Vec<Item>, operations: &[Op]) -> Result<(), NoMemory>
    ensures { OnOk result (items.new.items ≡ items.old.items ++ map item.Op operations.now) }
{
    for op in operations {
        items.push(Item::Op(*op))?;
    }
    Ok(())
}

/// Reads the first object of the thread's list, and the seven after it.
fn push_list_end(items: &mut Vec<Item>, thread: u8) -> Result<(), NoMemory>
    ensures { OnOk result (items.new.items ≡ items.old.items ++ map item.Op (list_end thread)) }
{
    push_all(items, &[gload(1, thread), get(1, 0)])?;
    for _turn in 0..7u32 {
        push_all(items, &[load(1, 1, 0), get(1, 0)])?;
    }
    push_all(items, &[drop(0), drop(1)])
}

fn list(alloc: Global, thread: u8, mut draws: SplitMix64, size: u32) -> Result<Vec<Item>, NoMemory>
    ensures { IfOk result (λ items. items.items
        ≡ map item.Op (operations_of workload.List thread (drawn draws) size)) }
{
    let mut items = Vec::new(alloc);
    for k in 0..size {
        let word = draws.next_word();
        let round = [
            new(0, 1, 2),
            put(0, 0, u64::from(k)),
            put(0, 1, word),
            gload(1, thread),
            store(0, 0, 1),
            gstore(thread, 0),
            get(0, 0),
        ];
        push_all(&mut items, &round)?;
    }
    push_list_end(&mut items, thread)?;
    Ok(items)
}

/// What becomes of the queue's front in round `k`.
fn push_front(
    items: &mut Vec<Item>,
    draws: &mut SplitMix64,
    first: u8,
    k: u32,
) -> Result<(), NoMemory>
    ensures { (seed : ℕ) → draws.old ≡ state_after seed (k - 1)
        → OnOk result ((draws.new ≡ state_after seed k)
        × (items.new.items ≡ items.old.items ++ map item.Op (front_round first (drawn seed (k - 1)) k))) }
{
    if k == 0 {
        return push_all(items, &[gstore(first, 0)]);
    }
    if draws.next_word() % 2 == 0 {
        return Ok(());
    }
    push_all(items, &[gload(2, first), load(2, 2, 0), gstore(first, 2)])
}

fn queue(alloc: Global, thread: u8, mut draws: SplitMix64, size: u32) -> Result<Vec<Item>, NoMemory>
    requires { thread < 8 }
    ensures { IfOk result (λ items. items.items
        ≡ map item.Op (operations_of workload.Queue thread (drawn draws) size)) }
{
    let first = 2 * thread;
    let last = 2 * thread + 1;
    let mut items = Vec::new(alloc);
    for k in 0..size {
        let object = [
            new(0, 2, 1),
            put(0, 0, u64::from(k)),
            gload(1, last),
            store(1, 0, 0),
            store(0, 1, 1),
            gstore(last, 0),
        ];
        push_all(&mut items, &object)?;
        push_front(&mut items, &mut draws, first, k)?;
    }
    push_all(&mut items, &[drop(0), drop(1), drop(2)])?;
    Ok(items)
}

/// The look at one of four lists that every sixteenth round takes.
fn push_look(items: &mut Vec<Item>, draws: &mut SplitMix64, k: u32) -> Result<(), NoMemory>
    ensures { (seed : ℕ) → draws.old ≡ state_after seed (k + k / 16 + 1)
        → OnOk result ((draws.new ≡ state_after seed (k + 1 + (k + 1) / 16))
        × (items.new.items ≡ items.old.items ++ map item.Op (look_round (drawn seed (k + k / 16 + 1)) k))) }
{
    if k % 16 != 15 {
        return Ok(());
    }
    let list = (draws.next_word() % 4) as u8;
    push_all(items, &[load(2, 0, list), get(2, 0)])
}

fn table(alloc: Global, thread: u8, mut draws: SplitMix64, size: u32) -> Result<Vec<Item>, NoMemory>
    ensures { IfOk result (λ items. items.items
        ≡ map item.Op (operations_of workload.Table thread (drawn draws) size)) }
{
    let mut items = Vec::new(alloc);
    push_all(&mut items, &[new(0, MAX_PARTS, 0), gstore(thread, 0)])?;
    for k in 0..size {
        let list = (draws.next_word() % LISTS) as u8;
        let object = [
            gload(0, thread),
            new(1, 1, 1),
            put(1, 0, u64::from(k)),
            load(2, 0, list),
            store(1, 0, 2),
            store(0, list, 1),
        ];
        push_all(&mut items, &object)?;
        push_look(&mut items, &mut draws, k)?;
    }
    push_all(&mut items, &[drop(0), drop(1), drop(2)])?;
    Ok(items)
}

/// Goes down from the root by the digits of `n`, from the second highest to the last but one.
fn push_way(items: &mut Vec<Item>, n: u32) -> Result<(), NoMemory>
    requires { 2 ≤ n }
    ensures { OnOk result (items.new.items ≡ items.old.items ++ map item.Op (way n (highest n - 1))) }
{
    let mut place = n.ilog2() - 1;
    while place > 0 {
        let digit = ((n >> place) % 2) as u8;
        push_all(items, &[load(0, 0, digit)])?;
        place -= 1;
    }
    Ok(())
}

/// Hangs an object where the digits of `k + 1` lead, or makes it the root.
fn push_object(items: &mut Vec<Item>, thread: u8, word: u64, k: u32) -> Result<(), NoMemory>
    requires { k < 100000 }
    ensures { OnOk result (items.new.items ≡ items.old.items ++ map item.Op (tree_round thread word k)) }
{
    if k == 0 {
        return push_all(items, &[new(0, 2, 1), put(0, 0, word), gstore(thread, 0)]);
    }
    let n = k + 1;
    push_all(items, &[gload(0, thread)])?;
    push_way(items, n)?;
    let digit = (n % 2) as u8;
    push_all(items, &[new(1, 2, 1), put(1, 0, word), store(0, digit, 1)])
}

fn tree(alloc: Global, thread: u8, mut draws: SplitMix64, size: u32) -> Result<Vec<Item>, NoMemory>
    requires { size ≤ 100000 }
    ensures { IfOk result (λ items. items.items
        ≡ map item.Op (operations_of workload.Tree thread (drawn draws) size)) }
{
    let mut items = Vec::new(alloc);
    for k in 0..size {
        let word = draws.next_word();
        push_object(&mut items, thread, word, k)?;
    }
    push_all(&mut items, &[drop(0), drop(1)])?;
    Ok(items)
}

/// The lines of a thread's program.
pub fn program(
    alloc: Global,
    kind: Workload,
    thread: u8,
    draws: SplitMix64,
    size: u32,
) -> Result<Vec<Item>, NoMemory>
    requires thread { thread < 8 }
    requires size { size ≤ 100000 }
    ensures { IfOk result (λ items. items.items ≡ map item.Op (operations_of kind thread (drawn draws) size)) }
{
    match kind {
        Workload::List => list(alloc, thread, draws, size),
        Workload::Queue => queue(alloc, thread, draws, size),
        Workload::Table => table(alloc, thread, draws, size),
        Workload::Tree => tree(alloc, thread, draws, size),
    }
}
