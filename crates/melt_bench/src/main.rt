//! Programs that `bench/` times. The first word is the command: `disk` writes records and reads them back, `epoch`
//! makes calls on an epoch, and `run` runs a trace by real threads. The words after it are those of the command, up to
//! the word `then`, after which another command may stand. So one run of the program can show what each comes to.
#![tactic(auto)]

mod disk;
mod epoch;
mod run;
mod words;

use anyhow::{Context, Result, bail};
use std::env;
use std::sync::Wait;
use std::thread::Threads;
use std::time::Clock;

/// Does what the words of one command ask for.
fn bench<X: Threads + Wait + Sync + Clock + Print + Eprint>(
    rt: &X,
    files: HostRuntime,
    words: &[String],
) -> Result<()> {
    let (command, words) = words
        .split_first()
        .context("the first word is a command: `disk`, `epoch` or `run`")?;
    match command.as_str() {
        "disk" => disk::bench(files, words),
        "epoch" => epoch::bench(rt, files, words),
        "run" => run::bench(rt, files, words),
        _ => bail!("{command:?} is no command, but `disk`, `epoch` and `run` are"),
    }
}

fn main(rt: HostRuntime) -> Result<()> {
    let words: Vec<String> = env::args(&rt)?.skip(1).collect(rt.alloc())?;
    for words in words.split(|word| word.as_str() == "then") {
        bench(&rt, rt, words)?;
    }
    Ok(())
}
