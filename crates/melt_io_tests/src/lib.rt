//! Tests of `melt_io`: the forms in memory and the faults that they can be told to make, and the adapters over the real
//! outside, of which no contract can say what it gives or takes. They stand in a crate of their own, so that `melt_io` is
//! not proved a second time for them.
#![tactic(auto)]

#[cfg(test)]
mod names;
#[cfg(test)]
mod pieces;
#[cfg(test)]
mod tests;
