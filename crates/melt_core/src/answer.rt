//! What an event tells its caller.

use melt_model::Reply;
use melt_record::Damaged;
use thiserror::Error;

/// Why a call pauses. It has no effect then, and is to be made again after a safepoint.
#[derive(Clone, Copy, Debug, PartialEq, Eq, Error)]
pub enum Pause {
    /// The stop word was set when the call read it.
    #[error("all threads are asked to stop")]
    Asked,
    /// The heap has no room for the `need` words, from 2 to 126, that the call claimed.
    #[error("the heap has no room for {need} words")]
    Space { need: u32 },
    /// Each forwarding word names another home.
    #[error("each forwarding word names another home")]
    Forward,
}

/// Why a call is refused. It has no entry in the history, and the registers are as they were.
#[derive(Clone, Copy, Debug, PartialEq, Eq, Error)]
pub enum Refusal {
    #[error(transparent)]
    Pause(Pause),
    /// The reader failed.
    #[error("a read of the disk failed")]
    DiskFault,
    /// The record that the call read is none.
    #[error(transparent)]
    Damaged(Damaged),
}

/// What one event of a call comes to.
#[derive(Clone, Copy, Debug, PartialEq, Eq)]
pub enum StepResult {
    /// The call has further events.
    Going,
    Answered(Reply),
    Refused(Refusal),
}
