//! Tests of `melt_move`: what a Move collection decides, copies and writes, and what is left where the disk has no room
//! or a write fails, on a heap of two objects of which one came back from the disk or has no home. They stand in a crate
//! of their own, since a crate is proved anew for its tests.
#![tactic(auto)]

#[cfg(test)]
mod tests;
