//! A run by threads: each thread of the trace is a real one, over a heap of fixed size and a file of stale objects.
//!
//! A run is a row of epochs. In an epoch the threads of the trace make their calls on one shared heap, at once and
//! without a lock, until each of them waits or has ended; between two epochs no call is in flight, and collections are
//! made there.
//!
//! What is proved of a thread is proved of its own seat: what it has seen stays true whatever others do. Only when an
//! epoch ends and the seats are taken back does it become a fact of the one history. Start with `rest`, then `program`.
#![tactic(auto)]

mod arming;
mod call;
mod collect;
mod epoch;
mod first;
mod machine;
mod parallel;
mod program;
mod rest;
mod run;
mod worker;

pub use machine::Parallel;
pub use rest::{Paused, resume};
pub use run::run_threads;
pub use worker::Worker;
