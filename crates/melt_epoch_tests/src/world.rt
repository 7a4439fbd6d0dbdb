//! A heap over a disk, from one epoch to the next. Nothing is in registers when an epoch begins or a collection comes.
ghost use Rattle.std.specs.Prelude.{◌≡◌, ◌<◌, ◌^◌, [], IfOk, IfSome, IsTrue, count_by, length, nat_lt};
ghost use Rattle.melt_epoch.specs.Tests.{eight};
ghost use Rattle.melt_io.specs.Lies.{told};
ghost use Rattle.melt_move.specs.Collecting.{IsFormedOn};
ghost use Rattle.melt_epoch_tests.specs.Scenes.{AreNew, GoesOnScene, IsNewMutator, IsReadyHeap};

use crate::scene::Scene;
use crate::trouble::Trouble;
use melt_disk::StaleSpace;
use melt_epoch::{Epoch, Mutator};
use melt_io::{MemDisk, MemReader, RecordReader, StaleDisk};
use melt_model::{NoMemory, Op, Phase, Steps};
use melt_move::planned::{Plan, collect_planned};
use melt_rule::Pass;
use melt_scion::Heap;
use std::alloc::Global;
use std::marker::Brand;
use std::sync::ledger::{Blank, Ledger};

/// A heap over a disk, between two epochs.
#[derive(Drop)]
pub struct World<'d, D: StaleDisk> {
    pub heap: Heap,
    pub disk: StaleSpace<'d, D>,
}

/// Collects a heap while no register holds anything, and counts no steps.
fn collect_uncounted<D: StaleDisk, L: Ledger>(
    alloc: Global,
    heap: Heap,
    disk: &mut StaleSpace<'_, D>,
    phase: Phase,
    blank: Blank,
) -> Result<Heap, Trouble>
    requires name { blank.name ≡ L.name }
    requires parts { blank.parts ≡ L.parts }
    requires some { 0 < blank.parts }
    requires formed { IsFormedOn heap [] disk.old.end }
    ensures { IfOk result (λ heap. IsFormedOn heap [] disk.new.end) }
{
    let mut plan = Plan {
        next: phase,
        mark: 0,
        move_: 0,
    };
    let mut steps = Steps::<L>::new(blank);
    match collect_planned(alloc, heap, &mut [], disk, &mut plan, false, &mut steps) {
        Ok((heap, _journal)) => Ok(heap),
        Err(_refusal) => Err(Trouble::Disk),
    }
}

/// Lends a reader of the words on disk as they are now.
fn lend_one<D: StaleDisk>(alloc: Global, disk: &mut StaleSpace<'_, D>) -> Result<D::Reader, Trouble>
    ensures { disk.new.end ≡ disk.old.end }
{
    match disk.lend(alloc) {
        Ok(reader) => Ok(reader),
        Err(_refusal) => Err(Trouble::Disk),
    }
}

/// Lends two readers.
fn lend_two<D: StaleDisk>(
    alloc: Global,
    disk: &mut StaleSpace<'_, D>,
) -> Result<[D::Reader; 2], Trouble>
    ensures { disk.new.end ≡ disk.old.end }
{
    Ok([lend_one(alloc, disk)?, lend_one(alloc, disk)?])
}

/// Lends four readers.
fn lend_four<D: StaleDisk>(
    alloc: Global,
    disk: &mut StaleSpace<'_, D>,
) -> Result<[D::Reader; 4], Trouble>
    ensures { disk.new.end ≡ disk.old.end }
{
    let ([a, b], [c, d]) = (lend_two(alloc, disk)?, lend_two(alloc, disk)?);
    Ok([a, b, c, d])
}

/// Lends a reader for each of eight threads. Each of three steps lends twice as many, so that few readers are there
/// where one is refused.
fn lend_all<D: StaleDisk>(
    alloc: Global,
    disk: &mut StaleSpace<'_, D>,
) -> Result<[D::Reader; 8], Trouble>
    ensures { disk.new.end ≡ disk.old.end }
{
    let ([a, b, c, d], [e, f, g, h]) = (lend_four(alloc, disk)?, lend_four(alloc, disk)?);
    Ok([a, b, c, d, e, f, g, h])
}

/// Whether an epoch can begin on the heap: no object came back since the last collection, and there are no names.
fn is_ready(heap: &Heap) -> bool
    ensures { IsTrue result → IsReadyHeap heap.now }
{
    let globals = heap.globals.items.len();
    let forwards = heap.forward.items.len();
    heap.names.is_none()
        && globals <= 255
        && forwards <= 65_536
        && heap.forward.items.iter().all(|word| *word == 0)
}

/// Whether one of these forwarding words has this home.
fn is_among(words: &[u64], home: u64) -> bool {
    for word in words {
        if *word >> 32 == home {
            return true;
        }
    }
    false
}

/// Whether no two of these forwarding words have the same home.
fn have_own_homes(words: &[u64]) -> bool {
    for (at, word) in words.iter().enumerate() {
        if 0 < *word && is_among(&words[..at], *word >> 32) {
            return false;
        }
    }
    true
}

/// The mutator of a thread, with a reader.
fn new_mutator<R: RecordReader + Drop>(thread: u32, reader: R) -> Mutator<R>
    requires { thread < 8 }
    ensures { IsNewMutator thread result }
{
    let mut mutator = Mutator::new(thread);
    mutator.set_reader(reader);
    mutator
}

/// The mutators of eight threads, with their readers.
fn new_mutators<R: RecordReader + Drop>(readers: [R; 8]) -> [Mutator<R>; 8]
    ensures { AreNew eight result }
{
    let [r0, r1, r2, r3, r4, r5, r6, r7] = readers;
    [
        new_mutator(0, r0),
        new_mutator(1, r1),
        new_mutator(2, r2),
        new_mutator(3, r3),
        new_mutator(4, r4),
        new_mutator(5, r5),
        new_mutator(6, r6),
        new_mutator(7, r7),
    ]
}

/// Begins an epoch of eight threads on a heap, whatever the disk under it tells.
fn begin_untold<R: RecordReader>(
    alloc: Global,
    heap: Heap,
    end: u32,
    mutators: &mut [Mutator<R>],
) -> Result<Epoch, NoMemory>
    requires formed { IsFormedOn heap [] end }
    requires ready { IsReadyHeap heap }
    requires mutators { AreNew eight mutators.old }
    ensures { IfOk result (λ epoch. GoesOnScene R.image epoch mutators.new (length heap.globals) end) }
{
    Epoch::begin(alloc, heap, Pass::new(), end, mutators)
}

/// Begins an epoch of eight threads with these readers, on a heap that is ready for it.
fn begin_ready<'d, D: StaleDisk, R: RecordReader + Drop>(
    alloc: Global,
    world: World<'d, D>,
    readers: [R; 8],
) -> Result<Scene<'d, D, R>, Trouble>
    requires formed { IsFormedOn world.heap [] world.disk.end }
    requires ready { IsReadyHeap world.heap }
    ensures { IfOk result
        (λ scene. GoesOnScene R.image scene.epoch scene.mutators scene.globals scene.disk.end) }
{
    let World { heap, disk } = world;
    let globals = heap.globals.items.len() as u8;
    let mut mutators = new_mutators(readers);
    let epoch = begin_untold(alloc, heap, disk.end(), &mut mutators)?;
    Ok(Scene {
        epoch,
        mutators,
        globals,
        disk,
    })
}

impl<'d, D: StaleDisk> World<'d, D> {
    /// A new heap of so many words, globals and forwarding words, over a disk without homes, of which a part before
    /// `limit` is used.
    pub fn new(
        alloc: Global,
        disk: &'d mut D,
        limit: u32,
        words: u32,
        globals: u8,
        forwards: u16,
    ) -> Result<World<'d, D>, Trouble>
        requires { words < 2 ^ 30 }
        ensures { IfOk result (λ world. IsFormedOn world.heap [] world.disk.end) }
    {
        let heap = Heap::new(alloc, words, globals.into(), forwards.into(), false)?;
        let disk = StaleSpace::new(disk, limit);
        Ok(World { heap, disk })
    }

    /// How many words are in use.
    pub fn used(&self) -> u32
        ensures value { result ≡ self.now.heap.space.used }
        ensures few { result < 2 ^ 30 }
    {
        self.heap.space.used()
    }

    /// How many objects came back from the disk since the last collection, or nothing where two forwarding words have
    /// the same home.
    pub fn returned(&self) -> Option<usize>
        ensures { IfSome result (λ count. count ≡ count_by (λ word. nat_lt 0 word) self.now.heap.forward) }
    {
        let words = &self.heap.forward.items;
        if have_own_homes(words) {
            Some(words.iter().filter(|word| 0 < **word).count())
        } else {
            None
        }
    }

    /// Collects in this phase.
    pub fn collect(self, alloc: Global, phase: Phase) -> Result<World<'d, D>, Trouble>
        requires { IsFormedOn self.heap [] self.disk.end }
        ensures { IfOk result (λ world. IsFormedOn world.heap [] world.disk.end) }
    {
        let World { heap, mut disk } = self;
        let heap = collect_uncounted::<D, Brand>(alloc, heap, &mut disk, phase, Blank::new(1))?;
        Ok(World { heap, disk })
    }

    /// Lends a reader for each thread, of the words on disk as they are now.
    pub fn lend(&mut self, alloc: Global) -> Result<[D::Reader; 8], Trouble>
        ensures heap { self.new.heap ≡ self.old.heap }
        ensures end { self.new.disk.end ≡ self.old.disk.end }
    {
        lend_all(alloc, &mut self.disk)
    }

    /// Begins an epoch of eight threads with these readers.
    pub fn begin<R: RecordReader + Drop>(
        self,
        alloc: Global,
        readers: [R; 8],
    ) -> Result<Scene<'d, D, R>, Trouble>
        requires { IsFormedOn self.heap [] self.disk.end }
        ensures { IfOk result
            (λ scene. GoesOnScene R.image scene.epoch scene.mutators scene.globals scene.disk.end) }
    {
        if is_ready(&self.heap) {
            begin_ready(alloc, self, readers)
        } else {
            Err(Trouble::Unsettled)
        }
    }
}

impl<'d> World<'d, MemDisk> {
    /// Begins an epoch of eight threads with readers that the disk lends.
    pub fn open(self, alloc: Global) -> Result<Scene<'d, MemDisk, MemReader>, Trouble>
        requires { IsFormedOn self.heap [] self.disk.end }
        ensures { IfOk result
            (λ scene. GoesOnScene (λ reader. told reader.lies.items reader.image.items)
            scene.epoch scene.mutators scene.globals scene.disk.end) }
    {
        let World { heap, mut disk } = self;
        let readers = lend_all(alloc, &mut disk)?;
        let world = World { heap, disk };
        world.begin(alloc, readers)
    }

    /// Lets thread 0 make calls in an epoch of their own. Each is to be answered.
    pub fn prepare(self, alloc: Global, ops: &[Op]) -> Result<World<'d, MemDisk>, Trouble>
        requires { IsFormedOn self.heap [] self.disk.end }
        ensures { IfOk result (λ world. IsFormedOn world.heap [] world.disk.end) }
    {
        let mut scene = self.open(alloc)?;
        let is_answered = scene.call_all(0, ops);
        let world = scene.finish();
        if is_answered {
            Ok(world)
        } else {
            Err(Trouble::Call)
        }
    }
}
