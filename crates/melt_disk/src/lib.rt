//! The stale space: homes of moved objects on a disk, given out one after the other and never taken back.
//!
//! Where homes lie is one number, the end, since they follow each other from word 1 on. So no list of them takes
//! memory, and no home can overlap another. A record is written at its home by one write that changes no other word,
//! which is what keeps all other records as they were, also where that write fails.
//!
//! The disk is any `StaleDisk`. Nothing is read here: readers are lent to threads, and a collection only writes.
#![tactic(auto)]

pub mod space;

pub use space::{DiskFull, StaleSpace};
