ghost use Rattle.std.specs.Prelude.{◌≡◌, ◌≢◌, ◌+◌, ◌*◌, ◌^◌, ◌<◌, ◌≤◌, false, None, [], length, List};
ghost use Rattle.std.specs.Prelude.{Bool, IfOk, IsTrue};
ghost use Rattle.melt_word.specs.Words.{IsDiskHome};
ghost use Rattle.melt_forward.specs.Forwarding.{Finds};
ghost use Rattle.melt_scion.specs.Heaps.{OnDisk, no_homes_on, state_of};
ghost use Rattle.melt_scion.specs.Placed.{Holds, Maps};
ghost use Rattle.melt_core.specs.Advances.{AdvancesOver, Asks, InBounds, KeepsOthers};
ghost use Rattle.melt_core.specs.Views.{IsQuiet, Standing, call_of, view};

use melt_core::{Core, Pause, Refusal, Rest, StepResult};
use melt_forward::{Found, find};
use melt_io::{Failed, RecordReader};
use melt_model::{Act, Entries, Entry, NoMemory, Op, Reply, Slot, Value};
use melt_same::same;
use melt_scion::{Heap, Registers};
use std::alloc::Global;
use std::test::Fail;

/// The reader of a disk to which nothing was ever written.
#[derive(Drop)]
struct NoDisk;

impl RecordReader for NoDisk {
    ghost use Rattle.std.specs.Prelude.{Some, []};

    ghost image = { λ _. Some [] };

    ghost faults = { λ _. 0 };

    ghost reads = { λ _. 0 };

    fn read_at(&mut self, _at: u32, words: &mut [u64]) -> Result<(), Failed> {
        words.fill(0);
        Ok(())
    }
}

/// Whether registers and globals that the operation names are there, and it makes no object that is too large and asks
/// for no collection.
fn is_in_bounds(globals: usize, op: Op) -> bool
    ensures bounds { IsTrue result → InBounds globals op }
    ensures no_collect { IsTrue result → op ≢ Op.Collect }
{
    match op {
        Op::New { dst, refs, nums } => dst < 16 && refs <= 62 && nums <= 62,
        Op::Load { dst, src, .. } => dst < 16 && src < 16,
        Op::Store { obj, src, .. } => obj < 16 && src < 16,
        Op::Get { src, .. } => src < 16,
        Op::Put { obj, .. } => obj < 16,
        Op::GLoad { dst, g } => dst < 16 && usize::from(g) < globals,
        Op::GStore { g, src } => usize::from(g) < globals && src < 16,
        Op::Same { a, b } => a < 16 && b < 16,
        Op::Copy { dst, src } => dst < 16 && src < 16,
        Op::Drop { r } => r < 16,
        Op::Collect => false,
    }
}

fn new(dst: u8, refs: u8, nums: u8) -> Op
    ensures { result ≡ Op.New dst refs nums }
{
    Op::New { dst, refs, nums }
}

fn load(dst: u8, src: u8, i: u8) -> Op {
    Op::Load { dst, src, i }
}

fn store(obj: u8, i: u8, src: u8) -> Op {
    Op::Store { obj, i, src }
}

fn get(src: u8, j: u8) -> Op {
    Op::Get { src, j }
}

fn put(obj: u8, j: u8, v: u64) -> Op {
    Op::Put { obj, j, v }
}

fn gload(dst: u8, g: u8) -> Op {
    Op::GLoad { dst, g }
}

fn gstore(g: u8, src: u8) -> Op {
    Op::GStore { g, src }
}

fn compare(a: u8, b: u8) -> Op {
    Op::Same { a, b }
}

/// A core over a new heap of so many words, one global and three forwarding words, under two threads. The history has
/// room for 32 entries, and is stored where the heap is to keep names.
fn core_over(alloc: Global, words: u32, named: bool) -> Result<Core, NoMemory>
    requires { words < 2 ^ 30 }
    ensures stands { IfOk result (λ core. Standing false no_homes_on (view core)) }
    ensures quiet { IfOk result (λ core. IsQuiet (view core)) }
    ensures globals { IfOk result (λ core. length (view core).globals ≡ 1) }
    ensures threads { IfOk result (λ core. length (view core).held ≡ 2) }
    ensures forwards { IfOk result (λ core. length (view core).forward ≤ 16) }
    ensures history { IfOk result (λ core. (view core).log ≡ []) }
    ensures room { IfOk result (λ core. 32 ≤ (view core).capacity) }
{
    let heap = Heap::new(alloc, words, 1, 3, named)?;
    let rest = Rest::new(alloc, 2, 32)?;
    Ok(Core::begin(heap, rest))
}

/// The same, whose history is stored.
fn new_core(alloc: Global, words: u32) -> Result<Core, NoMemory>
    requires { words < 2 ^ 30 }
    ensures stands { IfOk result (λ core. Standing false no_homes_on (view core)) }
    ensures quiet { IfOk result (λ core. IsQuiet (view core)) }
    ensures globals { IfOk result (λ core. length (view core).globals ≡ 1) }
    ensures threads { IfOk result (λ core. length (view core).held ≡ 2) }
    ensures forwards { IfOk result (λ core. length (view core).forward ≤ 16) }
    ensures history { IfOk result (λ core. (view core).log ≡ []) }
    ensures room { IfOk result (λ core. 32 ≤ (view core).capacity) }
{
    core_over(alloc, words, true)
}

/// Makes one event over a disk without homes: word 1 is past all of them.
fn advance(core: &mut Core, thread: u32, op: Op) -> StepResult
    requires { Asks no_homes_on (view core.old) thread op }
    ensures { AdvancesOver no_homes_on (view core.old) (view core.new) thread op result }
{
    core.advance(thread, op, 1, &mut NoDisk)
}

/// Makes the events of a call until it is over. Answers how many these were, and what the last came to.
fn run_call(core: &mut Core, thread: u32, op: Op) -> (u32, StepResult)
    requires asks { Asks no_homes_on (view core.old) thread op }
    requires no_call { call_of (view core.old) thread ≡ None }
    requires forwards { length (view core.old).forward ≤ 16 }
    ensures stands { Standing false no_homes_on (view core.new) }
    ensures others { KeepsOthers (view core.old) (view core.new) thread }
    ensures over { call_of (view core.new) thread ≡ None }
    ensures history { length (view core.new).log ≤ length (view core.old).log + 1 }
{
    let mut events = 0;
    loop {
        match advance(core, thread, op) {
            StepResult::Going => events += 1,
            result => return (events + 1, result),
        }
    }
}

/// A call of a thread, how many events it takes, and what the last one comes to.
#[derive(Clone, Copy)]
struct Wanted {
    thread: u32,
    op: Op,
    events: u32,
    result: StepResult,
}

/// A call that is answered.
fn answered(thread: u32, op: Op, events: u32, reply: Reply) -> Wanted {
    let result = StepResult::Answered(reply);
    Wanted {
        thread,
        op,
        events,
        result,
    }
}

/// A call that pauses.
fn paused(thread: u32, op: Op, events: u32, pause: Pause) -> Wanted {
    let result = StepResult::Refused(Refusal::Pause(pause));
    Wanted {
        thread,
        op,
        events,
        result,
    }
}

/// Makes calls one after the other, and compares what they come to.
fn expect(core: &mut Core, calls: &[Wanted]) -> Result<(), Fail>
    requires stands { Standing false no_homes_on (view core.old) }
    requires quiet { IsQuiet (view core.old) }
    requires globals { length (view core.old).globals ≡ 1 }
    requires threads { length (view core.old).held ≡ 2 }
    requires forwards { length (view core.old).forward ≤ 16 }
    requires room { length (view core.old).log + length calls.now ≤ (view core.old).capacity }
    requires few { length (view core.old).log + length calls.now ≤ 2 ^ 32 }
    ensures stands { Standing false no_homes_on (view core.new) }
    ensures quiet { IsQuiet (view core.new) }
    ensures threads { length (view core.new).held ≡ length (view core.old).held }
{
    for (at, wanted) in calls.iter().enumerate() {
        if wanted.thread >= 2 || !is_in_bounds(1, wanted.op) {
            return Err(Fail::new(format_args!("call {at} is out of bounds")));
        }
        let (events, result) = run_call(core, wanted.thread, wanted.op);
        same((at, events, result), (at, wanted.events, wanted.result))?;
    }
    Ok(())
}

/// What calls leave: whether the threads are stopped, the words claimed and those in use, and the history that is stored.
#[derive(Drop)]
struct Left {
    is_stopped: bool,
    claimed: u32,
    used: u32,
    history: Entries,
}

/// Makes calls on a core over a new heap, compares what they come to, and finishes it. One function holds the heap for
/// many tests, since each that holds one is dear to prove.
fn leave(alloc: Global, words: u32, named: bool, calls: &[Wanted]) -> Result<Left, Fail>
    requires words { words < 2 ^ 30 }
    requires few { length calls.now ≤ 32 }
{
    let mut core = core_over(alloc, words, named)?;
    expect(&mut core, calls)?;
    let (is_stopped, claimed) = (core.is_stopped(), core.used());
    let (heap, rest) = core.finish();
    Ok(Left {
        is_stopped,
        claimed,
        used: heap.space.used(),
        history: rest.into_history(),
    })
}

/// Makes one object, and reads and writes its parts, and answers how many entries of a history are stored after that.
/// Each call but one has an entry.
fn entries_of_parts(alloc: Global, named: bool) -> Result<usize, Fail> {
    let calls = [
        answered(0, new(0, 1, 2), 7, Reply::Done),
        answered(0, load(1, 0, 0), 3, Reply::Null),
        answered(0, store(0, 0, 0), 3, Reply::Done),
        answered(0, load(1, 0, 0), 3, Reply::Ref),
        answered(0, compare(0, 1), 1, Reply::Yes),
        answered(0, get(1, 1), 3, Reply::Num(0)),
        answered(0, put(0, 1, 7), 3, Reply::Done),
        answered(0, get(1, 1), 3, Reply::Num(7)),
        answered(0, get(1, 0), 3, Reply::Num(0)),
    ];
    let left = leave(alloc, 5, named, &calls)?;
    Ok(left.history.items.len())
}

#[test]
fn what_was_put_and_stored_is_found(rt: HostRuntime) -> Result<(), Fail> {
    same(entries_of_parts(rt.alloc(), true)?, 8)
}

#[test]
fn it_is_found_where_no_history_is_stored(rt: HostRuntime) -> Result<(), Fail> {
    same(entries_of_parts(rt.alloc(), false)?, 0)
}

#[test]
fn a_part_that_is_not_there_is_out_of_range(rt: HostRuntime) -> Result<(), Fail> {
    let calls = [
        answered(0, new(0, 1, 1), 6, Reply::Done),
        answered(0, load(1, 0, 1), 2, Reply::Range),
        answered(0, store(0, 1, 0), 2, Reply::Range),
        answered(0, get(0, 1), 2, Reply::Range),
        answered(0, put(0, 1, 7), 2, Reply::Range),
        answered(0, get(0, 0), 3, Reply::Num(0)),
    ];
    let left = leave(rt.alloc(), 4, true, &calls)?;
    same(left.used, 4)
}

#[test]
fn registers_are_copied_and_dropped(rt: HostRuntime) -> Result<(), Fail> {
    let mut core = new_core(rt.alloc(), 3)?;
    let calls = [
        answered(1, new(0, 0, 1), 5, Reply::Done),
        answered(1, Op::Copy { dst: 15, src: 0 }, 1, Reply::Done),
        answered(1, compare(0, 15), 1, Reply::Yes),
        answered(1, Op::Drop { r: 0 }, 1, Reply::Done),
        answered(1, compare(0, 15), 1, Reply::No),
        answered(1, load(1, 0, 0), 1, Reply::Nil),
        answered(1, store(0, 0, 15), 1, Reply::Nil),
        answered(1, get(0, 0), 1, Reply::Nil),
        answered(1, put(0, 0, 7), 1, Reply::Nil),
        answered(1, get(15, 0), 3, Reply::Num(0)),
    ];
    expect(&mut core, &calls)?;
    core.drop_all(1);
    let (_, mut rest) = core.finish();
    let none = Registers { regs: [0; 16] };
    same(rest.registers().get(1).copied(), Some(none))
}

#[test]
fn threads_share_what_a_global_holds(rt: HostRuntime) -> Result<(), Fail> {
    let calls = [
        answered(1, gload(5, 0), 2, Reply::Null),
        answered(0, new(0, 0, 1), 5, Reply::Done),
        answered(0, gstore(0, 0), 2, Reply::Done),
        answered(1, gload(5, 0), 2, Reply::Ref),
        answered(0, put(0, 0, 9), 3, Reply::Done),
        answered(1, get(5, 0), 3, Reply::Num(9)),
        answered(1, put(5, 0, 4), 3, Reply::Done),
        answered(0, get(0, 0), 3, Reply::Num(4)),
        answered(1, get(0, 0), 1, Reply::Nil),
    ];
    let left = leave(rt.alloc(), 3, true, &calls)?;
    same(left.used, 3)
}

#[test]
fn an_object_that_does_not_fit_stops_the_threads(rt: HostRuntime) -> Result<(), Fail> {
    let calls = [
        paused(0, new(0, 2, 2), 3, Pause::Space { need: 6 }),
        paused(1, gload(0, 0), 1, Pause::Asked),
        paused(0, new(0, 0, 0), 1, Pause::Asked),
        answered(0, compare(0, 1), 1, Reply::Yes),
    ];
    let left = leave(rt.alloc(), 5, true, &calls)?;
    let words = (left.claimed, left.used);
    let got = (left.is_stopped, words, left.history.items.len());
    same(got, (true, (6, 5), 0))
}

/// Ends an epoch of two threads, of which none may have a call in flight.
fn finish_free(core: Core) -> Result<Rest, Fail>
    requires stands { Standing false no_homes_on (view core) }
    requires threads { length (view core).held ≡ 2 }
{
    if core.is_free(0) && core.is_free(1) {
        let (_, rest) = core.finish();
        Ok(rest)
    } else {
        Err(Fail::new("a call is in flight"))
    }
}

/// What the first register of a thread holds.
fn first_register(rest: &mut Rest, thread: usize) -> Option<u32> {
    Some(rest.registers().get(thread)?.regs[0])
}

#[test]
fn objects_that_are_made_at_once_stand_apart(rt: HostRuntime) -> Result<(), Fail> {
    let mut core = new_core(rt.alloc(), 8)?;
    let op = new(0, 1, 1);
    let act = Act::Make { refs: 1, nums: 1 };
    for events in 0..6_u32 {
        let wanted = if events < 5 {
            StepResult::Going
        } else {
            StepResult::Answered(Reply::Done)
        };
        let first = advance(&mut core, 0, op);
        let second = advance(&mut core, 1, op);
        same((events, first, second), (events, wanted, wanted))?;
    }
    let mut rest = finish_free(core)?;
    let registers = [first_register(&mut rest, 0), first_register(&mut rest, 1)];
    let entries = [Entry { thread: 0, act }, Entry { thread: 1, act }];
    let history = rest.into_history();
    same(
        (registers, history.items.as_slice()),
        ([Some(1), Some(5)], entries.as_slice()),
    )
}

/// Counts what registers hold on a new core, after calls, and when one thread has let go of all.
fn count_held(core: &mut Core) -> Result<(), Fail>
    requires stands { Standing false no_homes_on (view core.old) }
    requires quiet { IsQuiet (view core.old) }
    requires globals { length (view core.old).globals ≡ 1 }
    requires threads { length (view core.old).held ≡ 2 }
    requires forwards { length (view core.old).forward ≤ 16 }
    requires history { (view core.old).log ≡ [] }
    requires room { 32 ≤ (view core.old).capacity }
{
    let none = core.held();
    let calls = [
        answered(0, new(0, 1, 2), 7, Reply::Done),
        answered(0, gstore(0, 0), 2, Reply::Done),
        answered(1, gload(5, 0), 2, Reply::Ref),
        answered(1, new(6, 0, 1), 5, Reply::Done),
        answered(1, Op::Copy { dst: 15, src: 6 }, 1, Reply::Done),
        answered(0, new(1, 0, 0), 4, Reply::Done),
        answered(0, Op::Drop { r: 1 }, 1, Reply::Done),
    ];
    expect(core, &calls)?;
    let both = core.held();
    core.drop_all(1);
    same((none, both, core.held()), (0, 8, 5))
}

#[test]
fn what_registers_hold_is_counted_once(rt: HostRuntime) -> Result<(), Fail> {
    let mut core = new_core(rt.alloc(), 10)?;
    count_held(&mut core)
}

/// Calls of two threads, of which all but the copy and the one out of range have an entry.
fn calls_with_entries() -> [Wanted; 10]
    ensures { length result ≡ 10 }
{
    [
        answered(0, new(3, 0, 1), 5, Reply::Done),
        answered(1, new(4, 1, 0), 5, Reply::Done),
        answered(0, put(3, 0, 7), 3, Reply::Done),
        answered(0, gstore(0, 3), 2, Reply::Done),
        answered(1, gload(5, 0), 2, Reply::Ref),
        answered(1, store(4, 0, 5), 3, Reply::Done),
        answered(1, load(6, 4, 0), 3, Reply::Ref),
        answered(1, Op::Copy { dst: 7, src: 6 }, 1, Reply::Done),
        answered(1, get(7, 1), 2, Reply::Range),
        answered(1, get(7, 0), 3, Reply::Num(7)),
    ]
}

/// The entries of these calls.
fn entries_of_calls() -> [Entry; 8] {
    let number = Value::Num(7);
    let object = Value::Ref(0);
    let cell = Slot::Cell(0, 0);
    let global = Slot::Global(0);
    let field = Slot::Field(1, 0);
    let entry = |thread, act| Entry { thread, act };
    let read = |thread, slot, value| entry(thread, Act::Read { slot, value });
    let write = |thread, slot, value| entry(thread, Act::Write { slot, value });
    [
        entry(0, Act::Make { refs: 0, nums: 1 }),
        entry(1, Act::Make { refs: 1, nums: 0 }),
        write(0, cell, number),
        write(0, global, object),
        read(1, global, object),
        write(1, field, object),
        read(1, field, object),
        read(1, cell, number),
    ]
}

#[test]
fn the_history_has_the_entries_of_calls_in_order(rt: HostRuntime) -> Result<(), Fail> {
    let left = leave(rt.alloc(), 9, true, &calls_with_entries())?;
    let entries = entries_of_calls();
    let got = (left.used, left.history.items.as_slice());
    same(got, (6, entries.as_slice()))
}

#[test]
fn a_call_in_one_go_is_answered(rt: HostRuntime) -> Result<(), Fail> {
    let mut core = new_core(rt.alloc(), 5)?;
    same(core.is_free(0), true)?;
    let result = core.call_at_once(0, new(0, 1, 2));
    let used = core.used();
    let history = finish_free(core)?.into_history();
    let act = Act::Make { refs: 1, nums: 2 };
    let entries = [Entry { thread: 0, act }];
    same(
        (result, used, history.items.as_slice()),
        (StepResult::Answered(Reply::Done), 5, entries.as_slice()),
    )
}

/// What the whole search for a home finds among the forwarding words of a heap, between two events of an epoch.
fn find_among(heap: &Heap, home: u32) -> Found
    requires home { IsDiskHome home }
    requires few { length heap.now.forward < 2 ^ 32 }
    requires holds { (told : Bool) × (log : List Entry) × (maps : Maps) × (held : List Registers) × (disk : OnDisk)
        × Holds told log maps (state_of heap.now held disk) }
    ensures { Finds heap.now.forward home result }
{
    find(&heap.forward.items, home)
}

#[test]
fn homes_are_searched_from_places_of_their_own(rt: HostRuntime) -> Result<(), Fail> {
    let heap = Heap::new(rt.alloc(), 16, 1, 1024, false)?;
    let found = [find_among(&heap, 1), find_among(&heap, 4)];
    same(found, [Found::Empty(441), Found::Empty(740)])
}
