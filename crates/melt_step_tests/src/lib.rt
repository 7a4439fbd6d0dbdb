//! Tests of `melt_safepoint` and `melt_step`: how the threads of a trace begin and are halted, and what a run by the written order
//! answers, over disks with faults too. They stand in a crate of their own, so that what they test is not proved again for them.
#![tactic(auto)]

#[cfg(test)]
mod tests;
