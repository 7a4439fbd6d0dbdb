//! Melt: runs a trace of heap operations, and prints each thread's replies.
#![tactic(auto)]

mod command;
mod options;
mod status;
#[cfg(test)]
mod tests;
mod text;
mod top;

use melt_io::{FileDisk, OpenGate, StdSink, StdSource};
use melt_safepoint::keep_memory;
use status::Status;
use std::alloc::{AllocError, Global};
use std::process::ExitCode;
use std::rt::Env;
use std::{env, io};
use top::melt;

/// The words after the program's name. A word that is no text means nothing, and so do all of them then.
fn words<R: Env + AllocGlobal>(rt: &R) -> Result<Vec<String>, AllocError> {
    match env::args(rt) {
        Ok(all) => all.skip(1).collect(rt.alloc()),
        Err(error) if error.kind() == io::ErrorKind::OutOfMemory => Err(AllocError),
        Err(_) => Ok(Vec::new(rt.alloc())),
    }
}

fn main(rt: HostRuntime) -> ExitCode {
    keep_memory(rt.alloc());
    let mut input = StdSource::new(rt.stdin());
    let mut out = StdSink::new(rt.stdout());
    // The disk's file is made at the first write, so a run that writes none does not touch it.
    let mut disk = FileDisk::new(rt.alloc(), rt, 0);
    let status = match words(&rt) {
        Ok(words) => melt(
            &rt,
            rt.alloc(),
            &words,
            &mut input,
            &mut out,
            &mut disk,
            &OpenGate,
        ),
        Err(_) => Status::NoMemory,
    };
    ExitCode::from(status.code())
}
