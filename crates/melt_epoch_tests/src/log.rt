//! What a thread is told, call by call.
use melt_core::Refusal;
use melt_model::{Op, Reply};

/// How many calls of a thread are written down.
pub const MOST: usize = 16;

/// A call, what it came to, and when it was made, by a clock that all threads share.
#[derive(Clone, Copy)]
pub struct LoggedCall {
    pub op: Op,
    pub result: Result<Reply, Refusal>,
    /// The first number in the object that a load found.
    pub found: Option<u64>,
    pub begun: u64,
    pub ended: u64,
}

/// What a thread was told by its calls, in their order.
pub type Log = [Option<LoggedCall>; MOST];

/// A log in which nothing is written.
pub const NOTHING: Log = [None; MOST];
