//! One stale space over up to eight disks, as in RAID-0 striping: units of 64 words go to the disks in turn. Who writes
//! to a disk, or reads from one, never learns how many there are.
#![tactic(auto)]

mod runs;
pub mod striped;
pub mod units;

pub use striped::{Striped, StripedReader};
pub use units::{disk_of, place_of, places_are_one_to_one};
