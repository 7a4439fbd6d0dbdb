//! A run as a row of epochs with safepoints between them, whoever gives out the events of an epoch.
//!
//! A thread of a run has its operations, its replies so far, and a mode, which says what it does next or waits for. By
//! the modes of its threads a safepoint knows which collections to make, and who goes on after it. In the end a run
//! reports its threads, its collections and the heap that is left, and what such a report says of a trace is said here
//! once, for all runs.
//!
//! What makes the row right is that between two epochs no call is in flight: all that a run is then is `RunStands`,
//! which each part of a safepoint keeps. That a run ends is a number, `to_do`, which each safepoint makes smaller.
//!
//! Start with `run`, then `safepoint`.
#![tactic(auto)]

pub mod collector;
pub mod ending;
pub mod engine;
pub mod memory;
pub mod run;
mod safepoint;
pub mod space;
pub mod thread;
pub mod whole;

pub use collector::{CollectRefusal, Collector, HeapRefusal, collect_heap};
pub use ending::{Ended, Left, Stop, halt_run};
pub use engine::{Engine, Machine};
pub use memory::keep_memory;
pub use run::Run;
pub use space::{DiskSpace, tells};
pub use thread::{Mode, ThreadState, halt_all, mode_after, new_states, words_lacked};
pub use whole::run_by_engine;
