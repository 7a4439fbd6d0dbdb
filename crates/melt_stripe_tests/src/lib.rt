//! Tests of `melt_stripe`: where words lie, against one disk in memory, and which disk is named where several could be.
#![tactic(auto)]

#[cfg(test)]
mod tests;
#[cfg(test)]
mod watched;
