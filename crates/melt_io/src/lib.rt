//! The outside of the program as traits, so that a contract can speak of what was read and written:
//! sources, sinks, disks of stale objects and their readers, files with positioned reads and writes, and
//! gates. Beside them forms in memory, adapters over the real outside, a disk over a file, a source and a sink that
//! pass bytes on in pieces, and the two calls that read all and write all.
//!
//! Two kinds of meaning stand on each trait. What an object tells of its content is an `Option`: the
//! forms in memory tell theirs, the adapters tell none, and no call changes whether an object tells.
//! Counts of faults are always there. They never fall and stay below 2^64, and a fault is answered only where
//! one rose, or stood at its end.
#![tactic(auto)]

pub mod adapters;
pub mod faults;
pub mod file_disk;
pub mod mem_disk;
pub mod mem_file;
pub mod memory;
pub mod outside;
mod overlay;
pub mod pieces;
pub mod steady;
pub mod whole;
pub mod words;

pub use adapters::{OpenGate, StdFile, StdFileReader, StdSink, StdSource};
pub use faults::Faults;
pub use file_disk::{FileDisk, FileReader};
pub use mem_disk::{MemDisk, MemReader};
pub use mem_file::{MemFile, MemFileReader};
pub use memory::{MemSink, MemSource};
pub use outside::{
    Failed, Gate, LendRefusal, PositionedFile, PositionedReader, RecordReader, Sink, Source,
    StaleDisk,
};
pub use pieces::{PieceSink, PieceSource};
pub use steady::{SteadyDisk, SteadyReader, SteadySink, SteadySource};
pub use whole::{ReadRefusal, read_all, write_all};
pub use words::{get_words, put_words, words_read_back};
