//! Collections that move objects to the disk: those that no thread has used for some time leave the space, and all
//! others are packed from word 1 on.
//!
//! A collection decides first and changes last. `choice` says who stays and who leaves, `homes` who gets a home, and
//! `decision` joins them; so far nothing has changed, and all memory was taken. Then the words of those that stay are
//! copied (`staying`), the records of those that leave are written (`bodies`), and what was copied takes the place of
//! what was there (`commit`, `scions`). `collect` joins all of it.
//!
//! `planned` chooses between such a collection and one that copies, and settles what came back from the disk before.
#![tactic(auto)]

pub mod bodies;
pub mod choice;
pub mod collect;
pub mod commit;
pub mod decision;
pub mod homes;
pub mod planned;
pub mod scions;
pub mod staying;
