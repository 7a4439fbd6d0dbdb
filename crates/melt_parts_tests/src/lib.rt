//! Tests of the parts that a heap is made of: `melt_policy`, `melt_links`, `melt_word`, `melt_record`, `melt_forward`,
//! `melt_space`, `melt_disk` and `melt_scion`. They stand in one crate of their own, so that none of these is proved a second
//! time for its tests, and they see each part as the crates above it do.
#![tactic(auto)]

#[cfg(test)]
mod tests;
