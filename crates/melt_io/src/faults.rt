//! The count of faults of a part of the outside.
ghost use Rattle.std.specs.Prelude.{◌≡◌};
ghost use Rattle.melt_io.specs.Outside.{counted};

use crate::outside::Failed;
use std::marker::Model;

/// How many calls have failed. The count stays at the highest `u64` once it reaches it.
#[derive(Debug, Drop)]
pub struct Faults {
    count: u64,
}

impl Model for Faults {
    ghost use Rattle.std.specs.Prelude.{ℕ, ◌<◌, ◌^◌};

    ghost Value = { ℕ };

    ghost view = { λ faults. faults.count };

    ghost invariant = { λ faults. faults.count < 2 ^ 64 };
}

impl Faults {
    /// No call has failed.
    pub fn none() -> Faults
        ensures { result ≡ 0 }
    {
        Faults { count: 0 }
    }

    pub fn count(&self) -> u64
        ensures { result ≡ self.now }
    {
        self.count
    }

    /// Counts one more, and answers the failure.
    pub(crate) fn rise(&mut self) -> Failed
        ensures { self.new ≡ counted self.old 1 }
    {
        self.count = self.count.saturating_add(1);
        Failed
    }
}
