//! How the threads of a run go through an epoch by the written order of events.
ghost use Rattle.std.specs.Prelude.{◌≡◌, ◌⊎◌, ℕ, ◌+◌, ◌<◌, ◌≤◌, [], length, Some, None, Bool, true, false, IsSome};
ghost use Rattle.std.specs.Prelude.{IfSome, ◌==◌, if◌then◌else◌};
ghost use Rattle.melt_model.specs.declared.config.Config.{Config};
ghost use Rattle.melt_trace.specs.Script.{Script};
ghost use Rattle.melt_scion.specs.Heaps.{OnDisk};
ghost use Rattle.melt_core.specs.Epochs.{HasFinished};
ghost use Rattle.melt_core.specs.Holdings.{IsSound};
ghost use Rattle.melt_core.specs.Views.{IsQuiet, Standing, stores, view};
ghost use Rattle.melt_safepoint.specs.Collections.{NoneForwarded};
ghost use Rattle.melt_safepoint.specs.Ended.{EndedStands};
ghost use Rattle.melt_safepoint.specs.Epochs.{EndsEpoch, RestsWell, SomeMayRun, to_do};
ghost use Rattle.melt_safepoint.specs.Losses.{CountsLosses, losses};
ghost use Rattle.melt_safepoint.specs.Passing.{NoneOwn, Resumed};
ghost use Rattle.melt_safepoint.specs.Rows.{SomeAwaits, StandsBut, row_of};
ghost use Rattle.melt_safepoint.specs.Shown.{Shown};
ghost use Rattle.melt_safepoint.specs.Tables.{KnowsStop, potential};
ghost use Rattle.melt_safepoint.specs.Threads.{AllWait, SomeGoesOn};
ghost use Rattle.melt_step.specs.Going.{CallsFirst, ComesToRest, IsNearer, KeepsGoing, SomeStandsInside};
ghost use Rattle.melt_step.specs.Going.{core_view};
ghost use Rattle.melt_step.specs.Turns.{GoesAt};

use crate::alone::call_alone;
use crate::collector::left_of;
use crate::events::{make_event, make_events};
use crate::machine::Ordered;
use melt_core::Core;
use melt_io::RecordReader;
use melt_model::Halt;
use melt_safepoint::{Ended, Run, halt_run};

/// Begins a new epoch after one in which nothing came back from the disk.
fn renew(core: Core) -> Core
    requires quiet { IsQuiet (view core) }
    requires none_forwarded { NoneForwarded (view core) }
    requires sound { IsSound (view core) }
    ensures finished { HasFinished (view core) (view result) }
    ensures rests { (told : Bool) (disk : OnDisk) → Standing told disk (view core) → Standing told disk (view result) }
    ensures stop { (view result).stop ≡ false }
    ensures free { (view result).free ≡ (view result).space.used + 1 }
{
    let (heap, rest) = core.finish();
    Core::begin(heap, rest)
}

/// Begins a new epoch of a run. No forwarding word is filled.
pub fn begin_epoch<'a, const STORED: usize>(
    mut run: Run<'a, Ordered<'a, STORED>>,
) -> Run<'a, Ordered<'a, STORED>>
    requires quiet { IsQuiet (view run.machine.core) }
    requires none_forwarded { NoneForwarded (view run.machine.core) }
    requires sound { IsSound (view run.machine.core) }
    ensures finished { HasFinished (view run.entry.machine.core) (view result.machine.core) }
    ensures rests { (told : Bool) (disk : OnDisk) → Standing told disk (view run.entry.machine.core)
        → Standing told disk (view result.machine.core) }
    ensures stop { (view result.machine.core).stop ≡ false }
    ensures free { (view result.machine.core).free ≡ (view result.machine.core).space.used + 1 }
    ensures states { result.states ≡ run.entry.states }
    ensures collector { result.collector ≡ run.entry.collector }
    ensures words { result.words ≡ run.entry.words }
    ensures every { result.every ≡ run.entry.every }
    ensures told { result.told ≡ run.entry.told }
{
    let mut machine = run.machine;
    machine.core = renew(machine.core);
    run.machine = machine;
    run
}

/// What is left of a run when no reader can be lent: each thread that has not ended is
/// halted, and the heap is given up.
pub fn give_up<'a, const STORED: usize>(run: Run<'a, Ordered<'a, STORED>>) -> Ended<'a>
    requires quiet { IsQuiet (view run.machine.core) }
    requires stored { stores (view run.machine.core) ≡ (STORED == 1) }
    ensures stands { (told : Bool) (script : Script) (config : Config) (unpaid : ℕ) (shown : Shown)
        → StandsBut unpaid told script config shown (row_of core_view run.entry) → SomeGoesOn run.entry.states.items
        → EndedStands told script config shown result }
    ensures lost { (faults : ℕ) → CountsLosses run.entry.states.items result.states.items faults faults }
    ensures halt { result.halt ≡ Some Halt.DiskFault }
    ensures journal { result.journal ≡ run.entry.collector.journal }
    ensures stores { result.left.log ≡ (if STORED == 1 then result.left.history else []) }
{
    let (states, journal) = (run.states, run.collector.journal);
    let (_heap, rest) = run.machine.core.finish();
    halt_run(
        left_of(None, rest, STORED == 1),
        states,
        journal,
        Halt::DiskFault,
    )
}

/// Makes the next event of a thread that can go on. The homes on disk end before `end`.
// (inlined for the same reason as `make_event`)
#[inline(always)]
fn make_turn<R: RecordReader, const STORED: usize>(
    run: &mut Run<'_, Ordered<'_, STORED>>,
    thread: u32,
    end: u32,
    reader: &mut R,
)
    requires stands { SomeStandsInside end (R.image reader.old) (row_of core_view run.old) }
    requires stop { KnowsStop (view run.old.machine.core) run.old.states.items }
    requires goes { GoesAt run.old.states.items thread }
    ensures keeps { (shown : Shown) → shown.end ≡ end → shown.image ≡ R.image reader.old
        → KeepsGoing shown (row_of core_view run.old) (row_of core_view run.new) }
    ensures stop { KnowsStop (view run.new.machine.core) run.new.states.items }
    ensures there { length run.new.states.items ≡ length run.old.states.items }
    ensures nearer { IsNearer (row_of core_view run.old) (row_of core_view run.new) }
    ensures less { to_do run.new.states.items ≤ to_do run.old.states.items }
    ensures image { R.image reader.new ≡ R.image reader.old }
    ensures lost { CountsLosses run.old.states.items run.new.states.items (R.faults reader.old)
        (R.faults reader.new) }
    ensures collector { run.new.collector ≡ run.old.collector }
    ensures stored { stores (view run.new.machine.core) ≡ stores (view run.old.machine.core) }
{
    let state = &mut run.states[thread as usize];
    make_event(&mut run.machine.core, state, thread, run.every, end, reader);
}

/// Makes the next event of the thread whose turn it is, and answers which one that is, if one can go on. The homes on
/// disk end before `end`.
pub fn take_turn<R: RecordReader, const STORED: usize>(
    run: &mut Run<'_, Ordered<'_, STORED>>,
    end: u32,
    reader: &mut R,
) -> Option<u32>
    requires stands { SomeStandsInside end (R.image reader.old) (row_of core_view run.old) }
    requires stop { KnowsStop (view run.old.machine.core) run.old.states.items }
    ensures keeps { (shown : Shown) → shown.end ≡ end → shown.image ≡ R.image reader.old
        → KeepsGoing shown (row_of core_view run.old) (row_of core_view run.new) }
    ensures stop { KnowsStop (view run.new.machine.core) run.new.states.items }
    ensures there { IfSome result (λ t. t < length run.new.states.items) }
    ensures nearer { IsSome result → IsNearer (row_of core_view run.old) (row_of core_view run.new) }
    ensures less { to_do run.new.states.items ≤ to_do run.old.states.items }
    ensures waits { result ≡ None → ((row_of core_view run.new) ≡ (row_of core_view run.old))
        × AllWait run.old.states.items }
    ensures image { R.image reader.new ≡ R.image reader.old }
    ensures lost { CountsLosses run.old.states.items run.new.states.items (R.faults reader.old)
        (R.faults reader.new) }
    ensures collector { run.new.collector ≡ run.old.collector }
    ensures stored { stores (view run.new.machine.core) ≡ stores (view run.old.machine.core) }
{
    let machine = &mut run.machine;
    let thread = machine.turns.next(machine.trace, &run.states)?;
    make_turn(run, thread, end, reader);
    Some(thread)
}

/// Gives all events to a thread, until it cannot go on. No other is to be able to.
// (core and state are taken out of the run once, and not again before each event)
fn give_all<R: RecordReader, const STORED: usize>(
    run: &mut Run<'_, Ordered<'_, STORED>>,
    thread: u32,
    end: u32,
    reader: &mut R,
)
    requires stands { SomeStandsInside end (R.image reader.old) (row_of core_view run.old) }
    requires stop { KnowsStop (view run.old.machine.core) run.old.states.items }
    requires there { thread < length run.old.states.items }
    ensures keeps { (shown : Shown) → shown.end ≡ end → shown.image ≡ R.image reader.old
        → KeepsGoing shown (row_of core_view run.old) (row_of core_view run.new) }
    ensures stop { KnowsStop (view run.new.machine.core) run.new.states.items }
    ensures nearer { to_do run.new.states.items ≤ to_do run.old.states.items
        × potential run.new.states.items (view run.new.machine.core).calls
        ≤ potential run.old.states.items (view run.old.machine.core).calls }
    ensures image { R.image reader.new ≡ R.image reader.old }
    ensures lost { CountsLosses run.old.states.items run.new.states.items (R.faults reader.old)
        (R.faults reader.new) }
    ensures collector { run.new.collector ≡ run.old.collector }
    ensures stored { stores (view run.new.machine.core) ≡ stores (view run.old.machine.core) }
{
    let every = run.every;
    let core = &mut run.machine.core;
    let state = &mut run.states[thread as usize];
    let mut next = None;
    while state.can_go() {
        next = make_events(core, state, thread, next, every, end, reader);
    }
}

/// Gives out events until no thread can go on. A thread that takes two events one after the other may be the only one
/// that still can, and then takes the others without a turn for each.
fn give_events<R: RecordReader, const STORED: usize>(
    run: &mut Run<'_, Ordered<'_, STORED>>,
    end: u32,
    reader: &mut R,
)
    requires stands { SomeStandsInside end (R.image reader.old) (row_of core_view run.old) }
    requires stop { KnowsStop (view run.old.machine.core) run.old.states.items }
    ensures keeps { (shown : Shown) → shown.end ≡ end → shown.image ≡ R.image reader.old
        → KeepsGoing shown (row_of core_view run.old) (row_of core_view run.new) }
    ensures stop { KnowsStop (view run.new.machine.core) run.new.states.items }
    ensures waits { AllWait run.new.states.items }
    ensures less { to_do run.new.states.items ≤ to_do run.old.states.items }
    ensures lost { CountsLosses run.old.states.items run.new.states.items (R.faults reader.old)
        (R.faults reader.new) }
    ensures collector { run.new.collector ≡ run.old.collector }
    ensures stored { stores (view run.new.machine.core) ≡ stores (view run.old.machine.core) }
{
    // (no thread has this number)
    let mut last = u32::MAX;
    while let Some(thread) = take_turn(run, end, reader) {
        let machine = &mut run.machine;
        if thread == last && machine.turns.gives_all(machine.trace, &run.states, thread) {
            give_all(run, thread, end, reader);
        }
        last = thread;
    }
}

/// Makes the call of a thread alone. Answers the words that it lacked, if it was refused for want of room.
fn call<R: RecordReader, const STORED: usize>(
    run: &mut Run<'_, Ordered<'_, STORED>>,
    thread: u32,
    end: u32,
    reader: &mut R,
) -> Option<u32>
    requires awaits { (shown : Shown) × (shown.end ≡ end) × (shown.image ≡ R.image reader.old)
        × ((forced : ℕ) × SomeAwaits shown forced (row_of core_view run.old) thread) }
    requires stop { (view run.old.machine.core).stop ≡ false }
    ensures called { (shown : Shown) → shown.end ≡ end → shown.image ≡ R.image reader.old
        → CallsFirst shown (row_of core_view run.old) (row_of core_view run.new) thread result }
    ensures image { R.image reader.new ≡ R.image reader.old }
    ensures lost { CountsLosses run.old.states.items run.new.states.items (R.faults reader.old)
        (R.faults reader.new) }
    ensures collector { run.new.collector ≡ run.old.collector }
    ensures stored { stores (view run.new.machine.core) ≡ stores (view run.old.machine.core) }
{
    let state = &mut run.states[thread as usize];
    let Some(op) = state.op else {
        unreachable!();
    };
    call_alone(
        &mut run.machine.core,
        state,
        thread,
        op,
        run.every,
        end,
        reader,
    )
}

/// The calls of the threads that wait are made again.
fn resume<const STORED: usize>(run: &mut Run<'_, Ordered<'_, STORED>>)
    requires own { NoneOwn run.old.states.items }
    requires quiet { IsQuiet (view run.old.machine.core) }
    requires stop { (view run.old.machine.core).stop ≡ false }
    ensures keeps { (shown : Shown) → KeepsGoing shown (row_of core_view run.old) (row_of core_view run.new) }
    ensures core { run.new.machine.core ≡ run.old.machine.core }
    ensures stop { KnowsStop (view run.new.machine.core) run.new.states.items }
    ensures resumed { Resumed run.old.states.items run.new.states.items }
    ensures lost { losses run.new.states.items ≡ losses run.old.states.items }
    ensures collector { run.new.collector ≡ run.old.collector }
{
    for state in run.states.iter_mut() {
        state.make_again();
    }
}

/// Lets all threads go on until none can. Those whose calls were refused make them again.
fn run_events<R: RecordReader, const STORED: usize>(
    run: &mut Run<'_, Ordered<'_, STORED>>,
    end: u32,
    reader: &mut R,
)
    requires stands { SomeStandsInside end (R.image reader.old) (row_of core_view run.old) }
    requires own { NoneOwn run.old.states.items }
    requires quiet { IsQuiet (view run.old.machine.core) }
    requires stop { (view run.old.machine.core).stop ≡ false }
    ensures keeps { (shown : Shown) → shown.end ≡ end → shown.image ≡ R.image reader.old
        → ComesToRest shown (row_of core_view run.old) (row_of core_view run.new) }
    ensures rests { RestsWell run.new.states.items }
    ensures less { to_do run.new.states.items ≤ to_do run.old.states.items }
    ensures lost { CountsLosses run.old.states.items run.new.states.items (R.faults reader.old)
        (R.faults reader.new) }
    ensures collector { run.new.collector ≡ run.old.collector }
    ensures stored { stores (view run.new.machine.core) ≡ stores (view run.old.machine.core) }
{
    resume(run);
    give_events(run, end, reader);
}

/// Lets all threads go on until none can, in an epoch that has just begun. Where one is to be the first, it makes its
/// call before; and where that lacks words, these are answered, and no other goes on.
pub fn go_through<R: RecordReader, const STORED: usize>(
    run: &mut Run<'_, Ordered<'_, STORED>>,
    first: Option<u32>,
    end: u32,
    reader: &mut R,
) -> Option<u32>
    requires may { (shown : Shown) × (shown.end ≡ end) × (shown.image ≡ R.image reader.old)
        × SomeMayRun shown first (row_of core_view run.old) }
    requires stop { (view run.old.machine.core).stop ≡ false }
    ensures ends { (shown : Shown) → shown.end ≡ end → shown.image ≡ R.image reader.old
        → EndsEpoch shown first (row_of core_view run.old) (row_of core_view run.new) result }
    ensures lost { CountsLosses run.old.states.items run.new.states.items (R.faults reader.old)
        (R.faults reader.new) }
    ensures stored { stores (view run.new.machine.core) ≡ stores (view run.old.machine.core) }
{
    match first {
        None => {
            run_events(run, end, reader);
            None
        }
        Some(thread) => match call(run, thread, end, reader) {
            None => {
                run_events(run, end, reader);
                None
            }
            Some(need) => Some(need),
        },
    }
}
