//! What threads are to do, and why there is no such trace.
ghost use Rattle.std.specs.Prelude.{◌≡◌};
ghost use Rattle.melt_gen.specs.declared.workload.GenRefusal.TheVariants.{NoMemory};

use crate::making::MAX_OPERATIONS;
use thiserror::Error;

/// The kinds of work. In each, all that a thread makes stays reached by its own globals.
#[derive(Clone, Copy, Debug, PartialEq, Eq)]
pub enum Workload {
    /// A list that grows at its front, of which only the front is read again.
    List,
    /// A queue that grows faster than it is taken from, whose objects are reached from those after them.
    Queue,
    /// A table of 62 lists that grow at their fronts, of which only four are read again.
    Table,
    /// A binary tree that fills level by level, each time along one path from its root.
    Tree,
}

/// Why a trace was not made.
#[derive(Clone, Copy, Debug, PartialEq, Eq, Error)]
pub enum GenRefusal {
    /// It would have more operations than a trace may have.
    #[error("the trace would have more than {most} operations", most = MAX_OPERATIONS)]
    TooMany,
    #[error("out of memory")]
    NoMemory,
}

impl From<melt_model::NoMemory> for GenRefusal {
    ghost from_gives = { λ _ refusal. refusal ≡ NoMemory };

    fn from(_error: melt_model::NoMemory) -> GenRefusal {
        GenRefusal::NoMemory
    }
}
