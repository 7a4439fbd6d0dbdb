//! What is wrong with a record.
use thiserror::Error;

/// A record is damaged: what a word of it says cannot be.
#[derive(Clone, Copy, Debug, PartialEq, Eq, Error)]
#[error("record of home {home} is damaged at word {at}: {word}")]
pub struct Damaged {
    /// The home of the record.
    pub home: u32,
    /// The place of the word in the record, from 0.
    pub at: u32,
    /// The word there.
    pub word: u64,
}
