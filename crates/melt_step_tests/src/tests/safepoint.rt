use melt_model::ThreadEnd;
use melt_safepoint::{Mode, ThreadState, halt_all, new_states};
use melt_same::same;
use melt_trace::{Trace, parse};
use std::alloc::Global;
use std::test::Fail;

/// Compares what threads do.
fn same_modes(states: &[ThreadState<'_>], modes: &[Mode]) -> Result<(), Fail> {
    same(states.len(), modes.len())?;
    for (state, mode) in states.iter().zip(modes) {
        same(state.mode, *mode)?;
    }
    Ok(())
}

/// Compares how the threads of this trace begin, and what they do after they were halted.
fn expect_halted(alloc: Global, trace: &Trace) -> Result<(), Fail> {
    let (mut states, entries) = new_states(alloc, trace)?;
    same(entries, 2)?;
    halt_two(&mut states)
}

fn halt_two(states: &mut [ThreadState<'_>]) -> Result<(), Fail> {
    let done = Mode::Ended(ThreadEnd::Done);
    same_modes(states, &[Mode::Running, done])?;
    halt_all(states);
    same_modes(states, &[Mode::Ended(ThreadEnd::Halted), done])
}

#[test]
fn threads_of_a_trace_begin_and_are_halted(rt: HostRuntime) -> Result<(), Fail> {
    let alloc = rt.alloc();
    let text =
        b"melt 1\nthreads 2\nglobals 0\nthread 0\nnew 0 0 0\ncollect\ndone\nthread 1\ndone\n".as_slice();
    let trace = parse(alloc, text)?;
    expect_halted(alloc, &trace)
}
