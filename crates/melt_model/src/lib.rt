//! The specification of a heap that never collects: a sequential history of loads and stores on numbered objects.
//!
//! There is no memory in it and no address. What a thread is told follows from its operations and from the entries of
//! the history, by looking back along it: a slot holds what was written to it last. All other crates are held to this,
//! so a contract never speaks of a collector, a disk or another thread in order to say what an operation answers.
//!
//! Start with the types in `history`, then `specs/History.antt` (`Legal`) and `specs/Thread.antt` (`Transcript`).
//! Bodies that compute these definitions are in `melt_model_tests`.
#![tactic(auto)]

pub mod config;
pub mod ghosts;
pub mod history;
pub mod operations;
pub mod reports;
pub mod steps;
pub mod words;

pub use config::Config;
pub use ghosts::Ghost;
pub use history::{Act, Entries, Entry, Slot, Value};
pub use operations::{MAX_PARTS, Op, Replies, Reply};
pub use reports::{Halt, Journal, Journals, Phase, Report, ThreadEnd, ThreadReport, ThreadReports};
pub use steps::Steps;
pub use words::{NoMemory, Words};
