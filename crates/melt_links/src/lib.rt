//! Doubly linked lists of nodes that are told by their numbers, each a ring with a place of its own as sentinel.
//!
//! With the sentinel each node has two neighbours wherever it stands, so putting in and taking out have no cases.
//! Contracts see lists of numbers, which are a ghost. What ties the two is local: every place names its next one, and
//! is named by that as the one before (`Chain`). A change of two neighbours then says nothing of any other list.
//!
//! It is here so that a walk over live scions passes nothing else, however large their table is.
#![tactic(auto)]

pub mod links;

pub use links::Links;
