//! The language of traces: its grammar, a parser and a printer proved against it, and the operations of threads.
//!
//! The grammar is a definition, `script_of` in `specs/Language.antt`: a walk over the lines that keeps where it stands,
//! and answers a script, or the first bad line and its reason. `parse` answers exactly that. Most lines are canonical,
//! and are read in one pass; that this is what the grammar says of them is the law by which `print` is proved.
//!
//! Start with `parser`, then `cursor`, which gives a thread its operations with blocks written out and takes no memory
//! for their rounds.
#![tactic(auto)]

mod blocks;
pub mod cursor;
pub mod error;
mod language;
mod parser;
mod printing;
pub mod reason;
pub mod script;
pub mod trace;

pub use cursor::Cursor;
pub use error::{ParseRefusal, TraceError};
pub use parser::{MAX_BYTES, parse};
pub use printing::print;
pub use reason::Reason;
pub use script::Item;
pub use trace::{Program, Trace};
