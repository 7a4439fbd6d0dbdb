//! The core: a heap, the registers and calls of threads, and the history.
ghost use Rattle.std.specs.Prelude.{◌≡◌, ◌+◌, ◌-◌, ◌<◌, Bool, true, length, None, IfOk, IsSome};
ghost use Rattle.std.specs.Borrow.{sem};
ghost use Rattle.melt_scion.specs.Heaps.{IsSettled, OnDisk};
ghost use Rattle.melt_core.specs.Views.{IsQuiet, Standing, call_of, view};
ghost use Rattle.melt_core.specs.Epochs.{NamesWithin};
ghost use Rattle.melt_core.specs.Epochs.{AtRest, HasDropped, HasFinished, IsNewRest, core_of};
ghost use Rattle.melt_core.specs.Lending.{LendsHeld};

use crate::call::{Call, MAX_REST};
use melt_model::{Entries, Entry, Ghost, NoMemory};
use melt_scion::{GhostMaps, Heap, Registers};
use std::alloc::Global;

/// What a core has beside its heap: the registers of all threads, their calls in flight with a buffer each for what
/// they read of a record after its head, and the history with the number of objects that were made in it.
///
/// The history is stored in `log` where the heap keeps names, without which no entry can be written down. Else it is
/// `shadow_log`, to contracts alone.
#[derive(Drop)]
pub struct Rest {
    pub(crate) held: Vec<Registers>,
    pub(crate) calls: Vec<Option<Call>>,
    pub(crate) records: Vec<[u64; MAX_REST]>,
    pub(crate) log: Vec<Entry>,
    pub(crate) shadow_log: Ghost<Entries>,
    pub(crate) made: u64,
}

impl Rest {
    /// The rest of so many threads, at most 8, whose registers hold nothing. The history is empty, and has room for so
    /// many entries where it is stored.
    pub fn new(alloc: Global, threads: u32, entries: u64) -> Result<Rest, NoMemory>
        ensures { IfOk result (IsNewRest threads entries) }
    {
        let none = Registers { regs: [0; 16] };
        Ok(Rest {
            held: vec![in alloc; none; threads as usize]?,
            calls: vec![in alloc; None; threads as usize]?,
            records: vec![in alloc; [0; MAX_REST]; threads as usize]?,
            log: Vec::with_capacity(alloc, entries as usize)?,
            shadow_log: Ghost::pick(&()),
            made: 0,
        })
    }

    /// The registers of all threads, in ascending order.
    pub fn registers(&mut self) -> &mut [Registers]
        ensures* writes_back { sem 𝓛 (LendsHeld self.entry result) }
        ensures value { result.now ≡ self.old.held.items }
    {
        &mut self.held
    }

    /// The entries that are stored.
    pub fn into_history(self) -> Entries
        ensures { result ≡ self.log.items }
    {
        Entries { items: self.log }
    }
}

/// A heap in an epoch, over which calls of threads go on by events.
#[derive(Drop)]
pub struct Core {
    pub(crate) heap: Heap,
    pub(crate) rest: Rest,
    /// The first place that no object and no region has.
    pub(crate) free: u32,
    /// The stop word: the calls that begin pause.
    pub(crate) stop: bool,
}

impl Core {
    /// Begins an epoch with the stop word not set. The words after those in use are free, and no forwarding word is
    /// filled. The history is stored where the heap keeps names, since it speaks of objects by their numbers.
    pub fn begin(heap: Heap, rest: Rest) -> Core
        requires settled { IsSettled heap }
        ensures { result ≡ core_of heap rest }
    {
        let free = heap.space.used() + 1;
        Core {
            heap,
            rest,
            free,
            stop: false,
        }
    }

    /// How many words stand before the first free place. These are more than the heap has where a claim ended past its
    /// last word.
    pub fn used(&self) -> u32
        ensures { result ≡ (view self.now).free - 1 }
    {
        self.free.saturating_sub(1)
    }

    /// Whether the stop word is set.
    pub fn is_stopped(&self) -> bool
        ensures { result ≡ (view self.now).stop }
    {
        self.stop
    }

    /// Sets the stop word.
    pub fn ask(&mut self)
        ensures { view self.new ≡ record (view self.old) { stop = true } }
    {
        self.stop = true;
    }

    /// Lets the registers of a thread hold nothing. The thread has no call in flight.
    pub fn drop_all(&mut self, thread: u32)
        requires thread { thread < length (view self.old).held }
        requires no_call { call_of (view self.old) thread ≡ None }
        ensures { HasDropped (view self.old) (view self.new) thread }
    {
        self.rest.held[thread as usize] = Registers { regs: [0; 16] };
    }

    /// Ends the epoch, in which no call is in flight. The words in use are those before the first free place, or all of
    /// them where a claim ended past the last one.
    pub fn finish(self) -> (Heap, Rest)
        requires quiet { IsQuiet (view self) }
        ensures rests { (told : Bool) (disk : OnDisk) → Standing told disk (view self)
            → AtRest told disk result.0 result.1 }
        ensures finished { HasFinished (view self) (view (core_of result.0 result.1)) }
        ensures within { NamesWithin result.0 }
    {
        let Core {
            mut heap,
            rest,
            free,
            stop: _,
        } = self;
        // A claim that ended past the last word has raised the first free place all the same.
        let used = free.saturating_sub(1).min(heap.space.words());
        heap.space.set_used(used);
        heap.maps = GhostMaps::pick(&heap);
        (heap, rest)
    }
}
