//! Why a line is not taken.
ghost use Rattle.std.specs.Prelude.{◌≡◌};
ghost use Rattle.melt_trace.specs.declared.parser.fault.Fault.TheVariants.{Bad, NoMemory};

use crate::reason::Reason;
use std::alloc::AllocFailed;
use thiserror::Error;

/// The reason to refuse the line, or an allocation that was refused.
#[derive(Clone, Copy, Debug, Error)]
pub enum Fault {
    #[error(transparent)]
    Bad(Reason),
    #[error("out of memory")]
    NoMemory,
}

impl From<Reason> for Fault {
    ghost from_gives = { λ reason fault. fault ≡ Bad reason };

    fn from(reason: Reason) -> Fault {
        Fault::Bad(reason)
    }
}

impl<T: Drop> From<AllocFailed<T>> for Fault {
    ghost from_gives = { λ _ fault. fault ≡ NoMemory };

    fn from(_error: AllocFailed<T>) -> Fault {
        Fault::NoMemory
    }
}
