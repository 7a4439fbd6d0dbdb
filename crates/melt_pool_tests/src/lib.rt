//! Tests of runs by real threads: what two threads come to in one epoch, what a gate is told of them, and what whole runs
//! report, in which objects move to disk and come back. It is a crate of its own so that `melt_pool` is proved once, and
//! not again for its tests.
#![tactic(auto)]

#[cfg(test)]
mod tests;
