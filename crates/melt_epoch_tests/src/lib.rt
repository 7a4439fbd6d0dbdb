//! Tests of running threads, by turns and at once, over new heaps and over heaps that were collected: what they are told
//! at each call, and whether that stands in one order.
//!
//! It is a crate of its own so that `melt_epoch` is proved once, and since that stands below the collections, which make
//! the heaps that are needed here: with tags, with homes on a disk, and with scions.
#![tactic(auto)]

pub mod log;
pub mod play;
pub mod scene;
pub mod trouble;
pub mod world;

pub use scene::Scene;
pub use trouble::Trouble;
pub use world::World;

#[cfg(test)]
mod tests;
