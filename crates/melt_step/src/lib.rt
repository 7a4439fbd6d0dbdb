//! A run by order: a deterministic schedule gives out the events of each epoch, over a heap of fixed size and a disk.
//!
//! Who has the next event is said by the `order` lines of the trace, and after them by turns. No proof leans on that:
//! each event keeps what stands inside an epoch (`StandsInside`), whichever thread makes it. `any_choices` says so of
//! all schedules at once, with epochs and collections anywhere between calls.
//!
//! Start with `epoch`, which runs the events, then `turns`, which says whose they are.
#![tactic(auto)]

mod alone;
mod choices;
mod collector;
mod epoch;
mod events;
mod machine;
mod ordered;
mod run;
mod turns;

pub use choices::any_choices;
pub use run::run_schedule;
