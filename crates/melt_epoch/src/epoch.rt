//! An epoch: the words that its threads share.
ghost use Rattle.melt_epoch.specs.Epochs.{Fits};

use melt_rule::Words;
use melt_scion::Heap;

/// A heap that threads share from one safepoint to the next. Its words stand in one table; of the heap that was handed
/// in, the scions are read, and the rest is kept for the end.
pub struct Epoch {
    pub(crate) words: Words,
    pub(crate) heap: Heap,
    /// The first word on disk past all homes.
    pub(crate) end: u32,
    ghost fits: { Fits words heap end },
}
