//! The in-use space of a heap: bump allocation in a vector of words, and the exchange of its words for those of a copy.
//!
//! The words in use come first, and an object is made by moving that bound, so to allocate is one comparison. Contracts
//! see a function from places to words and the bound; nothing of the vector shows. So a copying collection may hand in
//! the vector of its copy, or have it copied back, whichever moves fewer words, and no caller can tell.
//!
//! Start with `Space::make`, and with `replace_first` for what a collection does.
#![tactic(auto)]

pub mod space;

pub use space::{NoRoom, Space};
