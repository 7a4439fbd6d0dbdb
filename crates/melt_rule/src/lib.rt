//! The rule over shared words: the invariant that ties them and the views of all threads to one history, and that each
//! atomic step keeps.
//!
//! Threads read and write one table of words in single steps, without a lock. Each has a seat, and a seat has a view:
//! what its thread knows, which takes no bytes. The rule ties words and views to one history: there is one, it is
//! legal, and the words are a state of the core that stands for it. A step of one seat is one event of the core, so
//! that it keeps the rule by the law of that event, and what other seats know stays true by what every event leaves. So
//! a call may go on from what it knew, however many steps other threads made since.
//!
//! The correctness that the rule gives is linearizability in the sense of Herlihy and Wing (1990), with its points in
//! the steps that add an entry. Every step is sequentially consistent.
#![tactic(auto)]

mod barrier;
pub mod began;
mod coming;
pub mod ended;
mod law;
mod making;
pub mod pass;
mod plays;
mod seats;
pub mod view;
pub mod words;

pub use began::{Began, Pair, Start};
pub use ended::EndedWords;
pub use pass::Pass;
pub use view::{Away, Doing, View};
pub use words::{FREE_AT, GLOBALS_AT, Seated, Words, leading_words};
