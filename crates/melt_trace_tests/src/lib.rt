//! Tests of `melt_text`, `melt_trace`, `melt_gen` and `melt_stats`, which read, make and write texts: each line of a trace as it is
//! read, refused and printed, the lines of generated traces, and the table of collections. They stand in a crate of
//! their own, which sees what is public alone, so that a changed test has none of those crates proved anew.
#![tactic(auto)]

#[cfg(test)]
mod tests;
