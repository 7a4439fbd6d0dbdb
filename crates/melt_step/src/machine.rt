//! What a run by the written order has between two epochs: a core, and where the giving out of events stands.
//!
//! The history may be stored or not: that is told by the type, since what is left of a run says so to the engine.
ghost use Rattle.std.specs.Prelude.{◌≡◌, ◌<◌, [], length, true, ◌==◌, if◌then◌else◌};
ghost use Rattle.melt_model.specs.Alive.{CostsSum, Held, words_of};
ghost use Rattle.melt_scion.specs.Heaps.{OnDisk};
ghost use Rattle.melt_core.specs.Epochs.{HasDropped};
ghost use Rattle.melt_core.specs.Holdings.{IsSound};
ghost use Rattle.melt_core.specs.Views.{IsQuiet, Standing, value};
ghost use Rattle.melt_safepoint.specs.Collections.{LeavesAll};
ghost use Rattle.melt_step.specs.Stored.{view_by};

use crate::collector::left_of;
use crate::turns::Turns;
use melt_core::Core;
use melt_safepoint::{Left, Machine};
use melt_trace::Trace;

/// A core, and the threads' turns by a trace. The history is stored where `STORED` is 1, and told to contracts alone
/// where it is 0.
#[derive(Drop)]
pub struct Ordered<'a, const STORED: usize> {
    pub core: Core,
    pub turns: Turns,
    pub trace: &'a Trace,
}

impl<'a, const STORED: usize> Machine for Ordered<'a, STORED> {
    ghost view = { λ it. view_by STORED it.core };

    ghost stored = { λ history. if STORED == 1 then history else [] };

    fn held(&self) -> u32
        requires sound { IsSound (view_by STORED self.now.core) }
        ensures held { (disk : OnDisk) → Standing true disk (view_by STORED self.now.core)
            → CostsSum (words_of (view_by STORED self.now.core).log) (Held (value (view_by STORED self.now.core)))
            result }
    {
        self.core.held()
    }

    fn drop_all(&mut self, thread: u32)
        requires thread { thread < length (view_by STORED self.old.core).held }
        requires quiet { IsQuiet (view_by STORED self.old.core) }
        ensures dropped { HasDropped (view_by STORED self.old.core) (view_by STORED self.new.core) thread }
    {
        self.core.drop_all(thread);
    }

    fn finish(self) -> Left
        requires quiet { IsQuiet (view_by STORED self.core) }
        ensures left { LeavesAll (view_by STORED self.entry.core) result }
        ensures stores { result.log ≡ (if STORED == 1 then result.history else []) }
    {
        let (heap, rest) = self.core.finish();
        left_of(Some(heap), rest, STORED == 1)
    }
}
