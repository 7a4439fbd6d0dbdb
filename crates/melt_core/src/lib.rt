//! Events of calls: a small-step machine, in which calls of several threads go on over one heap.
//!
//! An event is what running threads can do at once: a load, a store, an exchange. Each is proved in every state, so
//! every interleaving is proved, and nothing is proved of an interleaving as a whole. Between two events a call is a
//! value, its `Stage`, which holds what it knows and all that it has left to do. No event of another thread makes that
//! untrue, so a call never looks again at what it knows.
//!
//! All events go through one law, `event_keeps` (`proofs/Keeping.antt`), over the constructors of `Event`. It speaks of
//! states and not of a core, which is how `melt_rule` takes it for words that threads share.
//!
//! Start with `advance` and the table of events in `docs/ARCHITECTURE.md`.
#![tactic(auto)]

mod advance;
pub mod answer;
mod at_once;
mod body;
pub mod call;
mod held;
mod laws;
mod load;
pub mod machine;
mod make;
mod parts;
mod poll;
mod probing;
mod record;
mod write;

pub use answer::{Pause, Refusal, StepResult};
pub use held::held_words;
pub use laws::{shared_words, stale_bits};
pub use machine::{Core, Rest};
