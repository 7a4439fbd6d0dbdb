//! The policy of collections: which phase the next one has, from how full the last one left the heap.
//!
//! It is a function of four numbers and the last phase, without state and without memory. So runs by any schedule plan
//! the same collections, and a journal can be checked line by line. A Move is planned only after a Mark or a Move, both
//! of which mark what stays: what no thread has used since then is what leaves.
#![tactic(auto)]

pub mod policy;

pub use policy::next_phase;
