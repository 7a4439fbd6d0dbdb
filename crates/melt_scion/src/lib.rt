//! The heap and its scions: when the words of memory stand for a history.
//!
//! This is the representation relation, in three steps. `FormedWords` says what words are whatever a disk gives,
//! `Tells` that they are those of a history, and `Holds` joins them for a run that is told and one that is not. They
//! speak of functions from addresses to words (`State`), not of vectors, so the core and running threads share every
//! law.
//!
//! A law is of one change, as a slot that is written or a copy that becomes an object; an event or a collection is
//! proved by citing laws. Scions are the roots that the disk is: objects in use to which its stubs refer.
//!
//! Start with `heap`, then `specs/Placed.antt`. `docs/WORKING.md` says where each lemma stands.
#![tactic(auto)]

pub mod heap;
pub mod home_names;
pub mod maps;
pub mod names;
pub mod registers;
pub mod scions;

pub use heap::{Forwards, Globals, Heap, Names};
pub use home_names::HomeNames;
pub use maps::GhostMaps;
pub use names::AddressNames;
pub use registers::Registers;
pub use scions::ScionTable;
