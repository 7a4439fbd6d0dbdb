//! Copying collections, as C. J. Cheney's: what registers and globals reach stays, packed from word 1 on, and all else
//! is gone.
//!
//! What makes it right is one statement that each function keeps, `Evacuates` (`specs/Evacuating.antt`): up to a place
//! the words of the copy are as the phase leaves them, and after it as they were. At the end that place is after the
//! last word.
//!
//! A collection has two halves. The first takes all memory, and may fail for want of it. The second cannot fail:
//! `to_space` copies what is reached, object by object, and changes globals, registers and scions; `collect` joins the
//! two, and puts the copy in the place of what was there. A collection that moves objects to a disk finds all before it
//! decides which of them leave: `live` finds them and copies nothing, and `forwarding` knows where each of them goes.
#![tactic(auto)]

pub mod collect;
pub mod commit;
pub mod copy;
pub mod forwarding;
pub mod live;
pub mod names;
mod scions;
pub mod settling;
pub mod to_space;

pub use collect::{collect_copy, numbers_for, rename_all};
pub use commit::forward_held;
pub use copy::{move_header, push_words, visit_words};
pub use forwarding::{Forwarding, Relocation};
pub use live::{LiveSet, reach};
pub use settling::settle;
