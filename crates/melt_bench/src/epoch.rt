//! Makes calls on an epoch of eight threads, begins and finishes epochs on a full heap, or walks lists whose
//! references have tags. It takes four words: what to do, how many words the heap has, how often, and how many
//! threads do it. Where lists are walked, the second is how many loads a thread makes in an epoch, and the third how
//! many epochs there are; threads are started for them, and where the fourth is 0, the one that is there walks. They
//! have every second mutator of an epoch, and so there are at most four; with a fifth word, `beside`, they have the
//! first ones, which lie side by side. What it came to goes to standard output, and how long it took to standard error.
//! `bench/epoch` times it.
ghost use Rattle.std.specs.Prelude.{◌<◌, ◌≤◌, ◌^◌, IfSome};

pub mod calls;
mod lists;
mod turns;
mod walks;

use crate::epoch::calls::{Call, time_calls};
use crate::epoch::lists::Lists;
use crate::epoch::turns::{Turn, time_turns};
use crate::epoch::walks::{Tag, Times, time_walks};
use crate::words::number;
use anyhow::{Context, Result, bail, ensure};
use melt_io::FileDisk;
use std::alloc::Global;
use std::io;
use std::sync::Wait;
use std::thread::Threads;
use std::time::Clock;

/// More words than any heap has here, so that their number fits.
pub(crate) const MANY: u32 = 1 << 30;

/// How many objects a list has at least, so that the homes of no two lists lie on one page of the file.
const LIST: u32 = 128;

/// The call of this name.
fn call_of(name: &str) -> Option<Call> {
    match name {
        "load" => Some(Call::Load),
        "store" => Some(Call::Store),
        "get" => Some(Call::Get),
        "put" => Some(Call::Put),
        "gload" => Some(Call::GLoad),
        "make4" => Some(Call::Make4),
        "make64" => Some(Call::Make64),
        "own" => Some(Call::Own),
        "shared" => Some(Call::Shared),
        _ => None,
    }
}

/// What each load of a walk of this name finds, and how many numbers each object has beside its two slots.
fn walk_of(name: &str) -> Option<(Tag, u8)>
    ensures { IfSome result (λ walk. walk.1 ≤ 62) }
{
    match name {
        "stale8" => Some((Tag::Stale, 4)),
        "stale64" => Some((Tag::Stale, 60)),
        "home8" => Some((Tag::Home, 4)),
        "home64" => Some((Tag::Home, 60)),
        _ => None,
    }
}

/// Tells how long each epoch took to begin and to finish.
fn tell_turns<X: Threads + Sync + Clock + Eprint>(
    rt: &X,
    alloc: Global,
    words: u32,
    count: u32,
) -> Result<()>
    requires { words < 2 ^ 30 }
{
    let turns = time_turns(rt, alloc, words, count)?;
    print_turns(rt, &turns)?;
    Ok(())
}

fn print_turns(rt: &impl Eprint, turns: &[Turn]) -> io::Result<()> {
    for turn in turns {
        eprintln!(rt; "{} {}", turn.begin.as_nanos(), turn.finish.as_nanos())?;
    }
    Ok(())
}

fn print_times<X: Print + Eprint>(rt: &X, times: &Times) -> io::Result<()> {
    println!(rt; "{} {}", times.sum, times.used)?;
    for took in &times.took {
        eprintln!(rt; "{}", took.as_nanos())?;
    }
    Ok(())
}

/// Walks lists over a disk in a file.
fn time_walks_on_file<X: Threads + Wait + Sync + Clock>(
    rt: &X,
    files: HostRuntime,
    tag: Tag,
    lists: Lists,
    epochs: u32,
) -> Result<Times> {
    let mut disk = FileDisk::new(files.alloc(), files, 0);
    time_walks(rt, files.alloc(), &mut disk, tag, lists, epochs)
}

/// Tells what walks came to: the sum of the numbers at their ends and how many words are in use, and how long each
/// took.
fn tell_walks<X: Threads + Wait + Sync + Clock + Print + Eprint>(
    rt: &X,
    files: HostRuntime,
    tag: Tag,
    lists: Lists,
    epochs: u32,
) -> Result<()> {
    let times = time_walks_on_file(rt, files, tag, lists, epochs)?;
    print_times(rt, &times)?;
    Ok(())
}

/// How far apart the mutators of threads lie that walk lists, by the words after the fourth.
fn spacing_of(words: &[String]) -> Option<usize>
    ensures { IfSome result (λ spacing. 0 < spacing) }
{
    match words {
        [] => Some(2),
        [word] if word.as_str() == "beside" => Some(1),
        _ => None,
    }
}

/// What the words after `epoch` ask for.
pub fn bench<X: Threads + Wait + Sync + Clock + Print + Eprint>(
    rt: &X,
    files: HostRuntime,
    words: &[String],
) -> Result<()> {
    let [what, size, count, threads, more @ ..] = words else {
        bail!("`epoch` takes what to do, how many words, how often, and how many threads");
    };
    let spacing = spacing_of(more).context("there is no fifth word but `beside`")?;
    let (size, count, threads) = (number(size)?, number(count)?, number(threads)?);
    ensure!(size < MANY, "a heap has fewer words");
    if what.as_str() == "turns" {
        return tell_turns(rt, files.alloc(), size, count);
    }
    if let Some((tag, nums)) = walk_of(what) {
        let lists = Lists {
            threads: threads.max(1),
            spacing,
            is_apart: threads != 0,
            objects: size.max(LIST),
            loads: size,
            nums,
        };
        return tell_walks(rt, files, tag, lists, count);
    }
    let call = call_of(what).context("there is no such call")?;
    let (sum, used) = time_calls(rt, files.alloc(), size, call, count, threads as usize)?;
    println!(rt; "{sum} {used}")?;
    Ok(())
}
