//! What can go wrong with a heap that is only to be tried.
use melt_model::NoMemory;
use std::alloc::{AllocError, AllocFailed};
use thiserror::Error;

/// Why a heap cannot be used further.
#[derive(Clone, Copy, Debug, Error)]
pub enum Trouble {
    #[error("out of memory")]
    NoMemory,
    /// A collection or a lend was refused.
    #[error("a collection or a lend was refused")]
    Disk,
    /// An epoch cannot begin: there are names, or objects that came back from the disk and were not collected since.
    #[error("an epoch cannot begin over names or over what came back from the disk")]
    Unsettled,
    /// A call was not answered.
    #[error("a call was not answered")]
    Call,
}

impl From<NoMemory> for Trouble {
    fn from(_: NoMemory) -> Trouble {
        Trouble::NoMemory
    }
}

impl From<AllocError> for Trouble {
    fn from(_: AllocError) -> Trouble {
        Trouble::NoMemory
    }
}

impl<T: Drop> From<AllocFailed<T>> for Trouble {
    fn from(_: AllocFailed<T>) -> Trouble {
        Trouble::NoMemory
    }
}
