//! The disk under a run, as a row of epochs sees it.
ghost use Rattle.std.specs.Prelude.{◌≡◌, is_some};
ghost use Rattle.melt_safepoint.specs.Spaces.{Sees, sees_stale};

use melt_disk::StaleSpace;
use melt_io::StaleDisk;
use melt_model::Ghost;

/// A disk of homes. A row of epochs hands it to its engine, and asks it for nothing itself.
pub trait DiskSpace {
    /// What is seen of it.
    ghost sees: { Sees Self };
}

impl<'d, D: StaleDisk> DiskSpace for StaleSpace<'d, D> {
    ghost sees = { sees_stale D.image D.faults D.read_faults D.lends D.writes };
}

/// Whether the disk tells its words. The value takes no bytes.
pub fn tells<D: StaleDisk>(space: &StaleSpace<'_, D>) -> Ghost<bool>
    ensures { result ≡ is_some (D.image space.now.disk.now) }
{
    Ghost::pick(space)
}
