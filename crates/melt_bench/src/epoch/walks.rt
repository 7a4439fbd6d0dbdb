//! How long loads take that find a tag: each thread walks its list once in an epoch, and before that collections let
//! each object have its stale bit, or move it to the disk.
ghost use Rattle.std.specs.Prelude.{◌≡◌, ◌<◌, ◌^◌, [], length, IfOk};
ghost use Rattle.melt_epoch_tests.specs.Scenes.{GoesOnScene};
ghost use Rattle.melt_move.specs.Collecting.{IsFormedOn};

use crate::epoch::MANY;
use crate::epoch::lists::{Lists, Walked, make_on, walk_on};
use anyhow::{Context, Result, anyhow, ensure};
use melt_epoch_tests::{Scene, World};
use melt_io::{FileDisk, StaleDisk, StdFile};
use melt_model::Phase;
use std::alloc::Global;
use std::sync::Wait;
use std::thread::Threads;
use std::time::{Clock, Duration};

/// The file `melt.stale` of the current folder. How large a scene is cannot be told for any disk.
pub type Disk = FileDisk<StdFile<HostRuntime>>;

/// What each load finds that a walk makes.
#[derive(Clone, Copy)]
pub enum Tag {
    /// A reference to an object that has its stale bit.
    Stale,
    /// The home of an object on disk.
    Home,
}

/// How long each walk took, and what was there after the last.
#[derive(Drop)]
pub struct Times {
    pub took: Vec<Duration>,
    /// The sum of the numbers of the objects at which the walks ended.
    pub sum: u64,
    /// How many words are in use.
    pub used: u32,
}

/// Begins an epoch of eight threads.
fn open<'d, D: StaleDisk>(alloc: Global, world: World<'d, D>) -> Result<Scene<'d, D, D::Reader>>
    requires { IsFormedOn world.heap [] world.disk.end }
    ensures { IfOk result
        (λ scene. GoesOnScene D.Reader.image scene.epoch scene.mutators scene.globals scene.disk.end) }
{
    let mut world = world;
    let readers = world
        .lend(alloc)
        .map_err(|_| anyhow!("no reader was lent"))?;
    world
        .begin(alloc, readers)
        .map_err(|_| anyhow!("no memory"))
}

/// Makes the list of a thread, in an epoch of its own.
fn make_one<'d, T: Threads + Sync>(
    rt: &T,
    alloc: Global,
    world: World<'d, Disk>,
    lists: Lists,
    thread: u32,
) -> Result<World<'d, Disk>>
    requires { IsFormedOn world.heap [] world.disk.end }
    ensures { IfOk result (λ world. IsFormedOn world.heap [] world.disk.end) }
{
    let mut scene = open(alloc, world)?;
    let is_made = make_on(rt, &mut scene, lists, thread as usize);
    let world = scene.finish();
    ensure!(is_made, "an object was not made");
    Ok(world)
}

/// Collects a heap, so that each load of an object finds such a tag.
fn age<'d, D: StaleDisk>(alloc: Global, world: World<'d, D>, tag: Tag) -> Result<World<'d, D>>
    requires { IsFormedOn world.heap [] world.disk.end }
    ensures { IfOk result (λ world. IsFormedOn world.heap [] world.disk.end) }
{
    let refused = "a collection was refused";
    let phase = match tag {
        Tag::Stale => Phase::Mark,
        Tag::Home => Phase::Move,
    };
    let world = world.collect(alloc, phase).map_err(|_| anyhow!(refused))?;
    match tag {
        Tag::Stale => Ok(world),
        Tag::Home => world.collect(alloc, phase).map_err(|_| anyhow!(refused)),
    }
}

/// Lets each thread walk its list in an epoch.
fn walk_lists<'d, T: Threads + Wait + Sync + Clock>(
    rt: &T,
    alloc: Global,
    world: World<'d, Disk>,
    lists: Lists,
) -> Result<(World<'d, Disk>, Walked)>
    requires { IsFormedOn world.heap [] world.disk.end }
    ensures { IfOk result (λ r. IsFormedOn r.0.heap [] r.0.disk.end) }
{
    let mut scene = open(alloc, world)?;
    let walked = walk_on(rt, &mut scene, lists);
    let world = scene.finish();
    let walked = walked.context("a load was refused")?;
    Ok((world, walked))
}

/// A heap without objects, with so many words and forwarding words as the lists need.
fn new_world<'d, D: StaleDisk>(
    alloc: Global,
    disk: &'d mut D,
    tag: Tag,
    lists: Lists,
) -> Result<World<'d, D>>
    ensures { IfOk result (λ world. IsFormedOn world.heap [] world.disk.end) }
{
    let words = lists.words();
    ensure!(words < MANY, "a heap has fewer words");
    let forwards = match tag {
        Tag::Stale => 0,
        Tag::Home => lists.forwards(),
    };
    World::new(alloc, disk, u32::MAX, words, 8, forwards).map_err(|_| anyhow!("no memory"))
}

/// Makes the list of each thread. Objects that move to the disk do so list by list, so that the homes of one lie
/// together.
fn make_all<'d, T: Threads + Sync>(
    rt: &T,
    alloc: Global,
    world: World<'d, Disk>,
    tag: Tag,
    lists: Lists,
) -> Result<World<'d, Disk>>
    requires { IsFormedOn world.heap [] world.disk.end }
    ensures { IfOk result (λ world. IsFormedOn world.heap [] world.disk.end) }
{
    let mut world = world;
    for thread in 0..lists.threads {
        let made = make_one(rt, alloc, world, lists, thread)?;
        world = age(alloc, made, tag)?;
    }
    Ok(world)
}

/// Walks the lists in so many epochs. Where objects move to the disk, that has the Body of each after the last walk.
pub fn time_walks<T: Threads + Wait + Sync + Clock>(
    rt: &T,
    alloc: Global,
    disk: &mut Disk,
    tag: Tag,
    lists: Lists,
    epochs: u32,
) -> Result<Times>
    ensures { IfOk result (λ times. length times.took.items ≡ epochs) }
{
    let world = new_world(alloc, disk, tag, lists)?;
    let mut world = make_all(rt, alloc, world, tag, lists)?;
    let mut took = Vec::new(alloc);
    let mut sum = 0_u64;
    for _ in 0..epochs {
        let aged = age(alloc, world, tag)?;
        let (after, walked) = walk_lists(rt, alloc, aged, lists)?;
        world = after;
        took.push(walked.took)?;
        sum = sum.saturating_add(walked.sum);
    }
    let used = world.used();
    Ok(Times { took, sum, used })
}
