//! Tests of `melt_copy`: what a collection keeps and where it stands then, what is found to be reached, and how objects
//! that came back are settled. They stand in a crate of their own, since a crate is proved anew for its tests; the heaps
//! that they begin with are built of given words, and those of the tests of `melt_move` too.
#![tactic(auto)]

pub mod heaps;
#[cfg(test)]
mod tests;
