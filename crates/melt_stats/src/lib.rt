//! The collections of a run as comma-separated text, for a spreadsheet or a plot.
//!
//! The crate `csv` writes it. It is proved here that no field calls for quotes, so the contract says the bytes without
//! a word of that crate.
#![tactic(auto)]

pub mod text;

pub use text::table;
