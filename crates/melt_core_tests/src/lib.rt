//! Tests of `melt_core`: what each event of a call comes to, and what calls leave in registers, in words and in the
//! history. They stand in a crate of their own, which sees what is public alone, so that a changed test has nothing of
//! `melt_core` proved anew.
#![tactic(auto)]

#[cfg(test)]
mod tests;
