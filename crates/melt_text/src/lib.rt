//! Lines of text: fields with spaces between them, and numbers in decimal.
//!
//! What is read is a definition over lists of bytes, and what is written is one; the bodies here compute them. Each
//! number has one spelling, so that a text that was written can be compared byte by byte.
//!
//! It is a crate of its own as traces are not the only text of this form: whatever is written as lines of a word and
//! numbers is read by the same functions, and their proofs need no other grammar.
#![tactic(auto)]

pub mod fields;
pub mod lines;
pub mod number;
pub mod printing;

pub use fields::{is_printable_line, next_field};
pub use lines::next_line;
pub use number::read_number;
pub use printing::push_line;
