//! A generator of traces, deterministic in a kind of work, a seed, a size and a number of threads.
//!
//! Each kind is a definition: lists of operations by round, as functions of the words that are drawn. Draw n is word n
//! of SplitMix64, so a definition can name any of them while the code draws in order. That is why a second program of
//! the same definitions writes the same bytes.
//!
//! How many operations there will be is counted first (`counts`), so a trace that is too long is refused without
//! memory. Start with `specs/Workloads.antt` and `programs`.
#![tactic(auto)]

mod counts;
mod lines;
mod making;
mod programs;
mod workload;

pub use making::generate;
pub use workload::{GenRefusal, Workload};
