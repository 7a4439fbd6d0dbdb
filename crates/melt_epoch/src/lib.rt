//! Calls of running threads on one heap, from one safepoint to the next, each linearizable and without a lock.
//!
//! A call is a few steps on the words of the epoch, and other threads may make any steps between them. What a step
//! tells its thread stays true, so a call may go on from it; and the step that answers it adds its one entry to the
//! history of all. No call waits, and none takes memory.
//!
//! Start with `calls`; a load that finds a tag or a home goes through `load`, `bring`, `fetch` and `copy`.
#![tactic(auto)]

pub mod bring;
mod calls;
mod copy;
mod ends;
pub mod epoch;
mod fetch;
mod load;
mod make;
pub mod mutator;
mod steps;

pub use epoch::Epoch;
pub use mutator::Mutator;
