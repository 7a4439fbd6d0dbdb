//! A list of each thread, which a global holds and which its thread walks. Slot 0 of each object refers to the next,
//! and its first number says at which place of the list it stands, from 1.
ghost use Rattle.std.specs.Prelude.{◌≡◌, ◌≢◌, ◌+◌, ◌*◌, ◌<◌, ◌≤◌, ◌^◌, ◌↔◌, [], All, IfSome, IsSome};
ghost use Rattle.melt_epoch.specs.Tests.{HasBegun, MayCall};
ghost use Rattle.melt_epoch_tests.specs.Scenes.{GoesOnScene};

use crate::epoch::calls::number_of;
use melt_core::Refusal;
use melt_epoch::{Epoch, Mutator};
use melt_epoch_tests::Scene;
use melt_io::{RecordReader, StaleDisk};
use std::sync::atomic::{AtomicU64, Ordering};
use std::sync::{Mutex, Wait};
use std::thread::Threads;
use std::time::{Clock, Duration, Instant};
use std::{hint, thread};

/// How often a thread looks for the others before it goes on without them.
const TURNS: u32 = 1_000_000;

/// The lists that threads walk.
#[derive(Clone, Copy)]
pub struct Lists {
    /// How many threads walk at once. Each has a list of its own.
    pub threads: u32,
    /// How many places after that of a thread the mutator of the next one lies, among the eight of an epoch. At 1
    /// they lie side by side, so that two threads write registers in one line of a cache; at 2 they do not.
    pub spacing: usize,
    ghost spaced: { 0 < spacing },
    /// Whether a thread is started for each. Else there is one alone, that which calls.
    pub is_apart: bool,
    /// How many objects a list has.
    pub objects: u32,
    /// How many objects of its list a thread loads.
    pub loads: u32,
    /// How many numbers an object has beside its two slots.
    pub nums: u8,
    ghost fits: { nums ≤ 62 },
}

impl Lists {
    /// How many words all objects take, where a heap has so many.
    pub fn words(&self) -> u32
        ensures { self.now.threads * self.now.objects * (4 + self.now.nums) < 2 ^ 32
            → result ≡ self.now.threads * self.now.objects * (4 + self.now.nums) }
    {
        let cost = 4 + u32::from(self.nums);
        let objects = self.threads.saturating_mul(self.objects);
        objects.saturating_mul(cost)
    }

    /// How many loads all threads make, where they have so many forwarding words.
    pub fn forwards(&self) -> u16
        ensures { self.now.threads * self.now.loads < 2 ^ 16 → result ≡ self.now.threads * self.now.loads }
    {
        let loads = self.threads.saturating_mul(self.loads);
        u16::try_from(loads).unwrap_or(u16::MAX)
    }

    /// The place of the mutator of a thread.
    fn place_of(&self, thread: usize) -> Option<usize>
        ensures { IfSome result (λ place. place ≡ thread * self.now.spacing) }
    {
        thread.checked_mul(self.spacing)
    }

    /// The thread that has the mutator at this place, where one has it.
    fn thread_at(&self, place: usize) -> Option<usize>
        ensures { IfSome result (λ thread. place ≡ thread * self.now.spacing) }
    {
        let thread = place / self.spacing;
        (self.place_of(thread) == Some(place)).then_some(thread)
    }
}

/// Makes a list, from its last object on.
fn make_list<R: RecordReader>(
    epoch: &Epoch,
    m: &mut Mutator<R>,
    g: u8,
    lists: Lists,
) -> Result<(), Refusal>
    requires global { g < epoch.now.words.start.began.globals }
    requires may { MayCall R.image epoch.now.words m.old }
    ensures may { MayCall R.image epoch.now.words m.new }
{
    for after in 0..lists.objects {
        epoch.gload(m, 0, g)?;
        epoch.make(m, 1, 2, lists.nums)?;
        epoch.store(m, 1, 0, 0)?;
        epoch.put(m, 1, 0, u64::from(lists.objects - after))?;
        epoch.gstore(m, g, 1)?;
    }
    Ok(())
}

/// Makes the list of a thread. Answers whether it was made.
fn make_list_of<T: Threads + Sync, R: RecordReader + Send>(
    rt: &T,
    epoch: &Epoch,
    globals: u8,
    mutators: &mut [Mutator<R>],
    lists: Lists,
    thread: usize,
) -> bool
    requires globals { globals ≡ epoch.now.words.start.began.globals }
    requires begun { HasBegun R.image epoch.now.words mutators.old }
    ensures begun { HasBegun R.image epoch.now.words mutators.new }
{
    let made = AtomicU64::new(0);
    let one = |at: usize, m: &mut Mutator<R>|
        requires globals { globals ≡ epoch.now.words.start.began.globals }
        requires may { MayCall R.image epoch.now.words m.now }
        ensures { MayCall R.image epoch.entry.now.words m.exit.now }
    {
        if lists.thread_at(at) == Some(thread)
            && at < usize::from(globals)
            && make_list(epoch, m, at as u8, lists).is_ok()
        {
            made.fetch_add(1, Ordering::SeqCst);
        }
    };
    thread::for_each_mut(rt, mutators, 1, &one);
    made.into_inner() == 1
}

/// Makes the list of a thread on a scene. Answers whether it was made.
pub fn make_on<T: Threads + Sync, D: StaleDisk, R: RecordReader + Send>(
    rt: &T,
    scene: &mut Scene<'_, D, R>,
    lists: Lists,
    thread: usize,
) -> bool
    requires { GoesOnScene R.image scene.old.epoch scene.old.mutators scene.old.globals scene.old.disk.end }
    ensures { GoesOnScene R.image scene.new.epoch scene.new.mutators scene.new.globals scene.new.disk.end }
{
    make_list_of(
        rt,
        &scene.epoch,
        scene.globals,
        &mut scene.mutators,
        lists,
        thread,
    )
}

/// Loads the first so many objects of a list, one after the other.
fn load_list<R: RecordReader>(
    epoch: &Epoch,
    m: &mut Mutator<R>,
    g: u8,
    loads: u32,
) -> Result<(), Refusal>
    requires global { g < epoch.now.words.start.began.globals }
    requires may { MayCall R.image epoch.now.words m.old }
    ensures may { MayCall R.image epoch.now.words m.new }
{
    epoch.gload(m, 0, g)?;
    for _ in 1..loads {
        epoch.load(m, 0, 0, 0)?;
    }
    Ok(())
}

/// The walk of one thread.
#[derive(Clone, Copy)]
struct Walk {
    begun: Instant,
    ended: Instant,
    /// The number of the object at which it ended.
    last: u64,
}

/// Walks a list and looks at the clock before and after that, or none where a load was refused.
fn walk_by_the_clock<C: Clock, R: RecordReader>(
    clock: &C,
    epoch: &Epoch,
    m: &mut Mutator<R>,
    g: u8,
    loads: u32,
) -> Option<Walk>
    requires global { g < epoch.now.words.start.began.globals }
    requires may { MayCall R.image epoch.now.words m.old }
    ensures may { MayCall R.image epoch.now.words m.new }
{
    let begun = Instant::now(clock).ok()?;
    load_list(epoch, m, g, loads).ok()?;
    let ended = Instant::now(clock).ok()?;
    Some(Walk {
        begun,
        ended,
        last: number_of(epoch, m),
    })
}

/// Waits until so many threads are here, or for some time. It lets no other thread run meanwhile, so that all go on
/// at once.
fn meet(here: &AtomicU64, threads: u32) {
    here.fetch_add(1, Ordering::SeqCst);
    for _ in 0..TURNS {
        if u64::from(threads) <= here.load(Ordering::SeqCst) {
            return;
        }
        hint::spin_loop();
    }
}

/// What the walks of all threads came to that were made at once.
#[derive(Clone, Copy)]
pub struct Walked {
    /// How long it took from the beginning of the first to the end of the last.
    pub took: Duration,
    /// The sum of the numbers of the objects at which they ended.
    pub sum: u64,
}

/// What these walks came to.
fn all_of(walks: &[Option<Walk>]) -> Option<Walked>
    ensures { IsSome result ↔ ((walks.now ≢ []) × All (λ walk. IsSome walk) walks.now) }
{
    let first = (*walks.first()?)?;
    let mut begun = first.begun;
    let mut ended = first.ended;
    let mut sum = 0_u64;
    for walk in walks {
        let walk = (*walk)?;
        begun = begun.min(walk.begun);
        ended = ended.max(walk.ended);
        sum = sum.saturating_add(walk.last);
    }
    Some(Walked {
        took: ended.duration_since(begun),
        sum,
    })
}

/// Lets each thread walk its list, all at once. Answers the walk of each that made one.
fn walk_all<T: Threads + Wait + Sync + Clock, R: RecordReader + Send>(
    rt: &T,
    epoch: &Epoch,
    globals: u8,
    mutators: &mut [Mutator<R>],
    lists: Lists,
) -> [Option<Walk>; 8]
    requires globals { globals ≡ epoch.now.words.start.began.globals }
    requires begun { HasBegun R.image epoch.now.words mutators.old }
    ensures begun { HasBegun R.image epoch.now.words mutators.new }
{
    let Lists { threads, loads, .. } = lists;
    let here = AtomicU64::new(0);
    let walks = Mutex::new([None; 8]);
    let one = |at: usize, m: &mut Mutator<R>|
        requires globals { globals ≡ epoch.now.words.start.began.globals }
        requires may { MayCall R.image epoch.now.words m.now }
        ensures { MayCall R.image epoch.entry.now.words m.exit.now }
    {
        let Some(thread) = lists.thread_at(at) else {
            return;
        };
        if thread < threads as usize && thread < 8 && at < usize::from(globals) {
            meet(&here, threads);
            let walk = walk_by_the_clock(rt, epoch, m, at as u8, loads);
            let mut all = walks.lock(rt);
            all[thread] = walk;
        }
    };
    let at_once = if lists.is_apart { 8 } else { 1 };
    thread::for_each_mut(rt, mutators, at_once, &one);
    walks.into_inner()
}

/// Lets each thread of a scene walk its list, all at once.
pub fn walk_on<T: Threads + Wait + Sync + Clock, D: StaleDisk, R: RecordReader + Send>(
    rt: &T,
    scene: &mut Scene<'_, D, R>,
    lists: Lists,
) -> Option<Walked>
    requires { GoesOnScene R.image scene.old.epoch scene.old.mutators scene.old.globals scene.old.disk.end }
    ensures { GoesOnScene R.image scene.new.epoch scene.new.mutators scene.new.globals scene.new.disk.end }
{
    let walks = walk_all(rt, &scene.epoch, scene.globals, &mut scene.mutators, lists);
    all_of(walks.get(..lists.threads as usize)?)
}
