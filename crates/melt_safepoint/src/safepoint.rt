//! What is done when no thread can go on.
//!
//! First the collections are made for which threads wait. Then the first thread that lacked room makes its call before
//! all others, and where it lacks room still, a Move is forced: what no register holds is stale after one and on disk
//! after two. Whatever the thread needs has room then, or has none beside what registers hold.
ghost use Rattle.std.specs.Prelude.{◌≡◌, ◌⊎◌, ℕ, ◌+◌, ◌<◌, ◌≤◌, ◌↔◌, length, slice_get, Some, Bool, true, false};
ghost use Rattle.std.specs.Prelude.{IsTrue, IfOk, IfErr};
ghost use Rattle.melt_model.specs.Alive.{Held, words_of, CostsSum};
ghost use Rattle.melt_model.specs.declared.config.Config.{Config};
ghost use Rattle.melt_trace.specs.Script.{Script};
ghost use Rattle.melt_scion.specs.Heaps.{OnDisk};
ghost use Rattle.melt_core.specs.Views.{IsQuiet, Standing, value};
ghost use Rattle.melt_core.specs.Holdings.{IsSound};
ghost use Rattle.melt_safepoint.specs.declared.thread.ThreadState.{ThreadState};
ghost use Rattle.melt_safepoint.specs.Collections.{MayCollect};
ghost use Rattle.melt_safepoint.specs.Engines.{IsEngine, LendsEach};
ghost use Rattle.melt_safepoint.specs.Epochs.{RestsWell, to_do};
ghost use Rattle.melt_safepoint.specs.Lends.{LendsFew, LendsTwice};
ghost use Rattle.melt_safepoint.specs.Losses.{CountsLosses, losses};
ghost use Rattle.melt_safepoint.specs.Makes.{EndsForRoom, MakesCollections, MakesRoom, MovesFew};
ghost use Rattle.melt_safepoint.specs.Modes.{ForCollection};
ghost use Rattle.melt_safepoint.specs.Passing.{CollectedAll, CollectedAt, NoneOwn};
ghost use Rattle.melt_safepoint.specs.Rows.{AwaitsCall, KeepsRest, KeepsRun, LacksWords, MakesCollection, MakesFor};
ghost use Rattle.melt_safepoint.specs.Rows.{MakesForAll, NoRoom, RunStands, SomeAwaits, SomeLacksWords, SomeRests};
ghost use Rattle.melt_safepoint.specs.Rows.{SomeStands, StopCounts, StopsRest};
ghost use Rattle.melt_safepoint.specs.Rows.{StopKeeps, StopLends, StopStores, StopTwice, StopsForced, StopsFrom};
ghost use Rattle.melt_safepoint.specs.Rows.{StopsRun};
ghost use Rattle.melt_safepoint.specs.Rows.{journal_of, row_of};
ghost use Rattle.melt_safepoint.specs.Shown.{Shown};
ghost use Rattle.melt_safepoint.specs.Tables.{DropsIfEnded};
ghost use Rattle.melt_safepoint.specs.Threads.{AllWait, NoneBelow, SomeGoesOn};
ghost use Rattle.melt_safepoint.specs.Writes.{StopWrote, WroteSince};

use crate::collector::{CollectRefusal, Collector};
use crate::ending::{Stop, halt_run};
use crate::engine::{Engine, Machine};
use crate::run::Run;
use crate::space::DiskSpace;
use crate::thread::Mode;
use melt_model::{Halt, ThreadEnd};
use std::alloc::Global;

impl<'a, E: Machine> Run<'a, E> {
    /// Makes a collection: the one that is planned, or a Move where `force` says so.
    fn collect<S: DiskSpace, C, F>(
        mut self,
        alloc: Global,
        space: &mut S,
        engine: &Engine<C, F>,
        force: bool,
    ) -> Result<Run<'a, E>, Stop<'a>>
    where
        C: Fn(E, Global, &mut Collector, &mut S, bool) -> Result<E, CollectRefusal>,
        F: Fn(
            Run<'a, E>,
            Global,
            &mut S,
            Option<u32>,
        ) -> Result<(Run<'a, E>, Option<u32>), Stop<'a>>,
        requires engine { IsEngine C.Fn F.Fn E.view E.stored S.sees engine.now }
        requires may { MayCollect (S.sees.shown space.old).end (E.view self.machine) }
        ensures made { IfOk result (λ run. MakesCollection force (S.sees.shown space.old)
            (S.sees.shown space.new) (row_of E.view self.entry) (row_of E.view run)) }
        ensures stopped { IfErr result (StopsForced force (S.sees.shown space.old) (S.sees.shown space.new)
            (row_of E.view self.entry)) }
        ensures same_disk { S.sees.name space.new ≡ S.sees.name space.old }
        ensures count { S.sees.faults space.old ≤ S.sees.faults space.new }
        ensures read_faults { S.sees.read_faults space.new ≡ S.sees.read_faults space.old }
        ensures stop_counts { IfErr result (λ stop. StopCounts stop self.entry.states.items
            (S.sees.faults space.old) (S.sees.faults space.new) (S.sees.read_faults space.old)
            (S.sees.read_faults space.new)) }
        ensures stores { IfErr result (StopStores E.stored) }
        ensures lends { S.sees.lends space.new ≡ S.sees.lends space.old }
        ensures stop_keeps { IfErr result (StopKeeps (journal_of (row_of E.view self.entry))) }
        ensures wrote { IfOk result (λ run. WroteSince (journal_of (row_of E.view self.entry))
            (journal_of (row_of E.view run)) (S.sees.writes space.old) (S.sees.writes space.new)) }
        ensures stop_wrote { IfErr result (StopWrote (journal_of (row_of E.view self.entry)) (S.sees.writes space.old)
            (S.sees.writes space.new)) }
    {
        match engine.collect(self.machine, alloc, &mut self.collector, space, force) {
            Ok(machine) => {
                self.machine = machine;
                Ok(self)
            }
            Err(CollectRefusal::NoMemory) => Err(Stop::NoMemory),
            Err(CollectRefusal::DiskFull { left, full }) => {
                let halt = Halt::DiskFull {
                    end: full.end,
                    need: full.need,
                    limit: full.limit,
                };
                let journal = self.collector.journal;
                Err(Stop::Halted(halt_run(left, self.states, journal, halt)))
            }
            Err(CollectRefusal::DiskFault { left }) => {
                let journal = self.collector.journal;
                Err(Stop::Halted(halt_run(left, self.states, journal, Halt::DiskFault)))
            }
        }
    }

    /// A thread that has ended drops its registers.
    fn drop_if_ended(&mut self, mode: Mode, thread: u32)
        requires thread { thread < length (E.view self.old.machine).held }
        requires quiet { IsQuiet (E.view self.old.machine) }
        ensures drops { DropsIfEnded (E.view self.old.machine) (E.view self.new.machine) thread mode }
        ensures only { self.new ≡ record self.old { machine = self.new.machine } }
    {
        if let Mode::Ended(_) = mode {
            self.machine.drop_all(thread);
        }
    }

    /// Makes the collection for which a thread waits, if it waits for one of its own.
    fn collect_for<S: DiskSpace, C, F>(
        self,
        alloc: Global,
        space: &mut S,
        engine: &Engine<C, F>,
        thread: u32,
    ) -> Result<Run<'a, E>, Stop<'a>>
    where
        C: Fn(E, Global, &mut Collector, &mut S, bool) -> Result<E, CollectRefusal>,
        F: Fn(
            Run<'a, E>,
            Global,
            &mut S,
            Option<u32>,
        ) -> Result<(Run<'a, E>, Option<u32>), Stop<'a>>,
        requires engine { IsEngine C.Fn F.Fn E.view E.stored S.sees engine.now }
        requires stands { SomeStands (S.sees.shown space.old) (row_of E.view self) }
        requires thread { thread < length self.states.items }
        ensures keeps { IfOk result (λ run. KeepsRest (S.sees.shown space.old) (S.sees.shown space.new)
            (row_of E.view self.entry) (row_of E.view run)) }
        ensures only { IfOk result (λ run. CollectedAt self.entry.states.items run.states.items thread) }
        ensures made { IfOk result (λ run. (s : ThreadState) → slice_get self.entry.states.items thread ≡ Some s
            → MakesFor s (S.sees.shown space.old) (row_of E.view self.entry) (row_of E.view run)) }
        ensures lost { IfOk result (λ run. losses run.states.items ≡ losses self.entry.states.items) }
        ensures stopped { IfErr result (StopsRun (S.sees.shown space.old) (S.sees.shown space.new)
            (row_of E.view self.entry)) }
        ensures same_disk { S.sees.name space.new ≡ S.sees.name space.old }
        ensures count { S.sees.faults space.old ≤ S.sees.faults space.new }
        ensures read_faults { S.sees.read_faults space.new ≡ S.sees.read_faults space.old }
        ensures stop_counts { IfErr result (λ stop. StopCounts stop self.entry.states.items
            (S.sees.faults space.old) (S.sees.faults space.new) (S.sees.read_faults space.old)
            (S.sees.read_faults space.new)) }
        ensures stores { IfErr result (StopStores E.stored) }
        ensures lends { S.sees.lends space.new ≡ S.sees.lends space.old }
        ensures stop_keeps { IfErr result (StopKeeps (journal_of (row_of E.view self.entry))) }
        ensures wrote { IfOk result (λ run. WroteSince (journal_of (row_of E.view self.entry))
            (journal_of (row_of E.view run)) (S.sees.writes space.old) (S.sees.writes space.new)) }
        ensures stop_wrote { IfErr result (StopWrote (journal_of (row_of E.view self.entry)) (S.sees.writes space.old)
            (S.sees.writes space.new)) }
    {
        match self.states[thread as usize].mode {
            Mode::Collecting | Mode::Silent => {}
            _ => return Ok(self),
        }
        let mut run = self.collect(alloc, space, engine, false)?;
        let every = run.every;
        let state = &mut run.states[thread as usize];
        state.take_collection(every);
        let mode = state.mode;
        run.drop_if_ended(mode, thread);
        Ok(run)
    }

    /// Makes the collections for which threads wait, in ascending order.
    fn collect_for_all<S: DiskSpace, C, F>(
        self,
        alloc: Global,
        space: &mut S,
        engine: &Engine<C, F>,
    ) -> Result<Run<'a, E>, Stop<'a>>
    where
        C: Fn(E, Global, &mut Collector, &mut S, bool) -> Result<E, CollectRefusal>,
        F: Fn(
            Run<'a, E>,
            Global,
            &mut S,
            Option<u32>,
        ) -> Result<(Run<'a, E>, Option<u32>), Stop<'a>>,
        requires engine { IsEngine C.Fn F.Fn E.view E.stored S.sees engine.now }
        requires stands { SomeRests (S.sees.shown space.old) (row_of E.view self) }
        ensures keeps { IfOk result (λ run. KeepsRest (S.sees.shown space.old) (S.sees.shown space.new)
            (row_of E.view self.entry) (row_of E.view run)) }
        ensures all { IfOk result (λ run. CollectedAll self.entry.states.items run.states.items) }
        ensures made { IfOk result (λ run. MakesForAll (S.sees.shown space.old) (row_of E.view self.entry)
            (row_of E.view run)) }
        ensures lost { IfOk result (λ run. losses run.states.items ≡ losses self.entry.states.items) }
        ensures stopped { IfErr result (StopsRest (S.sees.shown space.old) (S.sees.shown space.new)
            (row_of E.view self.entry)) }
        ensures same_disk { S.sees.name space.new ≡ S.sees.name space.old }
        ensures count { S.sees.faults space.old ≤ S.sees.faults space.new }
        ensures read_faults { S.sees.read_faults space.new ≡ S.sees.read_faults space.old }
        ensures stop_counts { IfErr result (λ stop. StopCounts stop self.entry.states.items
            (S.sees.faults space.old) (S.sees.faults space.new) (S.sees.read_faults space.old)
            (S.sees.read_faults space.new)) }
        ensures stores { IfErr result (StopStores E.stored) }
        ensures lends { S.sees.lends space.new ≡ S.sees.lends space.old }
        ensures stop_lends { IfErr result (λ stop. (readers : ℕ → ℕ)
            → LendsEach C.Fn F.Fn E.view E.stored S.sees engine.now readers
            → StopTwice (readers (length self.entry.states.items)) 0 (S.sees.lends space.old)
            (S.sees.lends space.new) (journal_of (row_of E.view self.entry)) stop) }
        ensures wrote { IfOk result (λ run. WroteSince (journal_of (row_of E.view self.entry))
            (journal_of (row_of E.view run)) (S.sees.writes space.old) (S.sees.writes space.new)) }
        ensures stop_wrote { IfErr result (StopWrote (journal_of (row_of E.view self.entry)) (S.sees.writes space.old)
            (S.sees.writes space.new)) }
    {
        let mut run = self;
        for t in 0..run.states.len() as u32 {
            run = run.collect_for(alloc, space, engine, t)?;
        }
        Ok(run)
    }

    /// Whether so many words have room beside those of the objects that registers hold.
    fn may_fit(&self, need: u32) -> bool
        requires { IsSound (E.view self.now.machine) }
        ensures { (disk : OnDisk) → Standing true disk (E.view self.now.machine) → (held : ℕ)
            → CostsSum (words_of (E.view self.now.machine).log) (Held (value (E.view self.now.machine))) held
            → IsTrue result ↔ (held + need ≤ self.now.words) }
    {
        u64::from(self.machine.held()) + u64::from(need) <= u64::from(self.words)
    }

    /// Whether a Move more may be forced for so many words, after so many in a row.
    fn may_move(&self, need: u32, forced: u32) -> bool
        requires { IsSound (E.view self.now.machine) }
        ensures some { result ≡ true → forced < 2 }
        ensures none { result ≡ false → (2 ≤ forced) ⊎ ((disk : OnDisk) → Standing true disk (E.view self.now.machine)
            → (held : ℕ) → CostsSum (words_of (E.view self.now.machine).log) (Held (value (E.view self.now.machine)))
            held
            → self.now.words < held + need) }
    {
        // Two are enough: the first leaves all that no register holds stale, and the second takes all of that away.
        forced < 2 && self.may_fit(need)
    }

    /// Ends a thread for which the heap has no room, even without what may leave it.
    fn out_of_heap(mut self, thread: u32, need: u32) -> Run<'a, E>
        requires lacks { (shown : Shown)
            × ((forced : ℕ) × SomeLacksWords shown forced (row_of E.view self) thread need) }
        ensures keeps { (shown : Shown) (told : Bool) (script : Script) (config : Config) (forced : ℕ)
            → LacksWords told script config shown forced (row_of E.view self.entry) thread need
            → (told ≡ true → NoRoom config (E.view self.entry.machine) need)
            → RunStands told script config shown (row_of E.view result) }
        ensures lost { losses result.states.items ≡ losses self.entry.states.items }
        ensures gone { EndsForRoom (row_of E.view self.entry) (row_of E.view result) thread need }
    {
        let held = self.machine.held();
        let state = &mut self.states[thread as usize];
        state.mode = Mode::Ended(ThreadEnd::OutOfHeap { held, need });
        self.machine.drop_all(thread);
        self
    }

    /// Makes a call once more that lacked words, after a Move that is forced, and after a second one where it lacks
    /// words still. Its thread ends as soon as they have no room beside what registers hold; the others go on.
    fn move_for<S: DiskSpace, C, F>(
        self,
        alloc: Global,
        space: &mut S,
        engine: &Engine<C, F>,
        thread: u32,
        need: u32,
    ) -> Result<Run<'a, E>, Stop<'a>>
    where
        C: Fn(E, Global, &mut Collector, &mut S, bool) -> Result<E, CollectRefusal>,
        F: Fn(
            Run<'a, E>,
            Global,
            &mut S,
            Option<u32>,
        ) -> Result<(Run<'a, E>, Option<u32>), Stop<'a>>,
        requires engine { IsEngine C.Fn F.Fn E.view E.stored S.sees engine.now }
        requires lacks { SomeLacksWords (S.sees.shown space.old) 0 (row_of E.view self) thread need }
        ensures keeps { IfOk result (λ run. (told : Bool) (script : Script) (config : Config)
            → LacksWords told script config (S.sees.shown space.old) 0 (row_of E.view self.entry) thread need
            → RunStands told script config (S.sees.shown space.new) (row_of E.view run)) }
        ensures makes { IfOk result (λ run. (told : Bool) (script : Script) (config : Config)
            → LacksWords told script config (S.sees.shown space.old) 0 (row_of E.view self.entry) thread need
            → MovesFew told script config (row_of E.view self.entry) (row_of E.view run) thread need) }
        ensures less { IfOk result (λ run. to_do run.states.items < to_do self.entry.states.items) }
        ensures rests { IfOk result (λ run. RestsWell run.states.items) }
        ensures lost { IfOk result (λ run. CountsLosses self.entry.states.items run.states.items
            (S.sees.read_faults space.old) (S.sees.read_faults space.new)) }
        ensures lends { IfOk result (λ run. (readers : ℕ → ℕ)
            → LendsEach C.Fn F.Fn E.view E.stored S.sees engine.now readers
            → LendsFew (readers (length self.entry.states.items)) 1 (S.sees.lends space.old)
            (S.sees.lends space.new) (journal_of (row_of E.view self.entry)) (journal_of (row_of E.view run))) }
        ensures same_disk { S.sees.name space.new ≡ S.sees.name space.old }
        ensures count { S.sees.faults space.old ≤ S.sees.faults space.new }
        ensures stopped { IfErr result (StopsFrom (λ told script config.
            LacksWords told script config (S.sees.shown space.old) 0 (row_of E.view self.entry) thread need)
            (S.sees.shown space.new)) }
        ensures stop_counts { IfErr result (λ stop. StopCounts stop self.entry.states.items
            (S.sees.faults space.old) (S.sees.faults space.new) (S.sees.read_faults space.old)
            (S.sees.read_faults space.new)) }
        ensures stores { IfErr result (StopStores E.stored) }
        ensures stop_lends { IfErr result (λ stop. (readers : ℕ → ℕ)
            → LendsEach C.Fn F.Fn E.view E.stored S.sees engine.now readers
            → StopLends (readers (length self.entry.states.items)) 1 (S.sees.lends space.old)
            (S.sees.lends space.new) (journal_of (row_of E.view self.entry)) stop) }
        ensures wrote { IfOk result (λ run. WroteSince (journal_of (row_of E.view self.entry))
            (journal_of (row_of E.view run)) (S.sees.writes space.old) (S.sees.writes space.new)) }
        ensures stop_wrote { IfErr result (StopWrote (journal_of (row_of E.view self.entry)) (S.sees.writes space.old)
            (S.sees.writes space.new)) }
    {
        let (mut run, mut need, mut forced) = (self, need, 0);
        while run.may_move(need, forced) {
            forced += 1;
            let moved = run.collect(alloc, space, engine, true)?;
            let (next, lacks) = engine.run_epoch(moved, alloc, space, Some(thread))?;
            run = next;
            match lacks {
                None => return Ok(run),
                Some(more) => need = more,
            }
        }
        run.out_of_heap(thread, need)
            .next_epoch(alloc, space, engine)
    }

    /// Lets the first thread that lacked room make its call, after a collection, and then all others go on. Where it
    /// lacks room still, what no register holds is moved to the disk, in two Moves at most: one leaves it stale, and
    /// the next writes it.
    fn make_room<S: DiskSpace, C, F>(
        self,
        alloc: Global,
        space: &mut S,
        engine: &Engine<C, F>,
        thread: u32,
    ) -> Result<Run<'a, E>, Stop<'a>>
    where
        C: Fn(E, Global, &mut Collector, &mut S, bool) -> Result<E, CollectRefusal>,
        F: Fn(
            Run<'a, E>,
            Global,
            &mut S,
            Option<u32>,
        ) -> Result<(Run<'a, E>, Option<u32>), Stop<'a>>,
        requires engine { IsEngine C.Fn F.Fn E.view E.stored S.sees engine.now }
        requires awaits { SomeAwaits (S.sees.shown space.old) 0 (row_of E.view self) thread }
        ensures keeps { IfOk result (λ run. (told : Bool) (script : Script) (config : Config)
            → AwaitsCall told script config (S.sees.shown space.old) 0 (row_of E.view self.entry) thread
            → RunStands told script config (S.sees.shown space.new) (row_of E.view run)) }
        ensures makes { IfOk result (λ run. (told : Bool) (script : Script) (config : Config)
            → AwaitsCall told script config (S.sees.shown space.old) 0 (row_of E.view self.entry) thread
            → MakesRoom told script config (S.sees.shown space.old) (row_of E.view self.entry) (row_of E.view run)
            thread) }
        ensures less { IfOk result (λ run. to_do run.states.items < to_do self.entry.states.items) }
        ensures rests { IfOk result (λ run. RestsWell run.states.items) }
        ensures lost { IfOk result (λ run. CountsLosses self.entry.states.items run.states.items
            (S.sees.read_faults space.old) (S.sees.read_faults space.new)) }
        ensures lends { IfOk result (λ run. (readers : ℕ → ℕ)
            → LendsEach C.Fn F.Fn E.view E.stored S.sees engine.now readers
            → LendsFew (readers (length self.entry.states.items)) 2 (S.sees.lends space.old)
            (S.sees.lends space.new) (journal_of (row_of E.view self.entry)) (journal_of (row_of E.view run))) }
        ensures same_disk { S.sees.name space.new ≡ S.sees.name space.old }
        ensures count { S.sees.faults space.old ≤ S.sees.faults space.new }
        ensures stopped { IfErr result (StopsFrom (λ told script config.
            AwaitsCall told script config (S.sees.shown space.old) 0 (row_of E.view self.entry) thread)
            (S.sees.shown space.new)) }
        ensures stop_counts { IfErr result (λ stop. StopCounts stop self.entry.states.items
            (S.sees.faults space.old) (S.sees.faults space.new) (S.sees.read_faults space.old)
            (S.sees.read_faults space.new)) }
        ensures stores { IfErr result (StopStores E.stored) }
        ensures stop_lends { IfErr result (λ stop. (readers : ℕ → ℕ)
            → LendsEach C.Fn F.Fn E.view E.stored S.sees engine.now readers
            → StopLends (readers (length self.entry.states.items)) 2 (S.sees.lends space.old)
            (S.sees.lends space.new) (journal_of (row_of E.view self.entry)) stop) }
        ensures wrote { IfOk result (λ run. WroteSince (journal_of (row_of E.view self.entry))
            (journal_of (row_of E.view run)) (S.sees.writes space.old) (S.sees.writes space.new)) }
        ensures stop_wrote { IfErr result (StopWrote (journal_of (row_of E.view self.entry)) (S.sees.writes space.old)
            (S.sees.writes space.new)) }
    {
        let (run, lacks) = engine.run_epoch(self, alloc, space, Some(thread))?;
        match lacks {
            None => Ok(run),
            Some(need) => run.move_for(alloc, space, engine, thread, need),
        }
    }

    /// What is done when no thread can go on: collections for those that wait for one, then an epoch. Where a thread
    /// lacked room, its call is made first in it, after a collection if there was none.
    pub(crate) fn pass_safepoint<S: DiskSpace, C, F>(
        self,
        alloc: Global,
        space: &mut S,
        engine: &Engine<C, F>,
    ) -> Result<Run<'a, E>, Stop<'a>>
    where
        C: Fn(E, Global, &mut Collector, &mut S, bool) -> Result<E, CollectRefusal>,
        F: Fn(
            Run<'a, E>,
            Global,
            &mut S,
            Option<u32>,
        ) -> Result<(Run<'a, E>, Option<u32>), Stop<'a>>,
        requires engine { IsEngine C.Fn F.Fn E.view E.stored S.sees engine.now }
        requires stands { SomeStands (S.sees.shown space.old) (row_of E.view self) }
        requires rests { RestsWell self.states.items }
        requires some { SomeGoesOn self.states.items }
        ensures keeps { IfOk result (λ run. KeepsRun (S.sees.shown space.old) (S.sees.shown space.new)
            (row_of E.view self.entry) (row_of E.view run)) }
        ensures made { IfOk result (λ run. (told : Bool) (script : Script) (config : Config)
            → RunStands told script config (S.sees.shown space.old) (row_of E.view self.entry)
            → MakesCollections told script config (row_of E.view self.entry) (row_of E.view run)) }
        ensures less { IfOk result (λ run. to_do run.states.items < to_do self.entry.states.items) }
        ensures rests { IfOk result (λ run. RestsWell run.states.items) }
        ensures lost { IfOk result (λ run. CountsLosses self.entry.states.items run.states.items
            (S.sees.read_faults space.old) (S.sees.read_faults space.new)) }
        ensures lends { IfOk result (λ run. (readers : ℕ → ℕ)
            → LendsEach C.Fn F.Fn E.view E.stored S.sees engine.now readers
            → LendsTwice (readers (length self.entry.states.items)) 0 (S.sees.lends space.old)
            (S.sees.lends space.new) (journal_of (row_of E.view self.entry)) (journal_of (row_of E.view run))) }
        ensures same_disk { S.sees.name space.new ≡ S.sees.name space.old }
        ensures count { S.sees.faults space.old ≤ S.sees.faults space.new }
        ensures stopped { IfErr result (StopsRun (S.sees.shown space.old) (S.sees.shown space.new)
            (row_of E.view self.entry)) }
        ensures stop_counts { IfErr result (λ stop. StopCounts stop self.entry.states.items
            (S.sees.faults space.old) (S.sees.faults space.new) (S.sees.read_faults space.old)
            (S.sees.read_faults space.new)) }
        ensures stores { IfErr result (StopStores E.stored) }
        ensures stop_lends { IfErr result (λ stop. (readers : ℕ → ℕ)
            → LendsEach C.Fn F.Fn E.view E.stored S.sees engine.now readers
            → StopTwice (readers (length self.entry.states.items)) 0 (S.sees.lends space.old)
            (S.sees.lends space.new) (journal_of (row_of E.view self.entry)) stop) }
        ensures wrote { IfOk result (λ run. WroteSince (journal_of (row_of E.view self.entry))
            (journal_of (row_of E.view run)) (S.sees.writes space.old) (S.sees.writes space.new)) }
        ensures stop_wrote { IfErr result (StopWrote (journal_of (row_of E.view self.entry)) (S.sees.writes space.old)
            (S.sees.writes space.new)) }
    {
        let made = self.collector.journal.len();
        let run = self.collect_for_all(alloc, space, engine)?;
        let Some(thread) = run.lacking() else {
            // All that was waited for was made; calls that were refused for it are made again in the epoch.
            return run.next_epoch(alloc, space, engine);
        };
        // One that was made here for a thread that waited will do: the call is to come after a collection, whosever.
        let run = if run.collector.journal.len() == made {
            run.collect(alloc, space, engine, false)?
        } else {
            run
        };
        run.make_room(alloc, space, engine, thread)
    }
}
