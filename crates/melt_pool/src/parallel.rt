//! The machine of a run of real threads as a row of epochs sees it.
ghost use Rattle.std.specs.Prelude.{◌≡◌, ◌<◌, [], true, length};
ghost use Rattle.melt_model.specs.Alive.{CostsSum, Held, words_of};
ghost use Rattle.melt_scion.specs.Heaps.{OnDisk};
ghost use Rattle.melt_core.specs.Epochs.{HasDropped};
ghost use Rattle.melt_core.specs.Holdings.{IsSound};
ghost use Rattle.melt_core.specs.Views.{IsQuiet, Standing, value};
ghost use Rattle.melt_safepoint.specs.Collections.{LeavesAll};
ghost use Rattle.melt_pool.specs.Machines.{parallel_view};

use crate::collect::left_of;
use crate::machine::{NO_REGISTERS, Parallel};
use melt_core::held_words;
use melt_safepoint::{Left, Machine};

impl<'a, R: Drop> Machine for Parallel<'a, R> {
    ghost view = { parallel_view };

    ghost stored = { λ _. [] };

    fn held(&self) -> u32
        requires sound { IsSound (parallel_view self.now) }
        ensures held { (disk : OnDisk) → Standing true disk (parallel_view self.now)
            → CostsSum (words_of (parallel_view self.now).log) (Held (value (parallel_view self.now))) result }
    {
        held_words(&self.heap.space, &self.registers)
    }

    fn drop_all(&mut self, thread: u32)
        requires thread { thread < length (parallel_view self.old).held }
        requires quiet { IsQuiet (parallel_view self.old) }
        ensures dropped { HasDropped (parallel_view self.old) (parallel_view self.new) thread }
    {
        self.registers[thread as usize] = NO_REGISTERS;
        self.mutators[thread as usize].drop_all();
    }

    fn finish(self) -> Left
        requires quiet { IsQuiet (parallel_view self) }
        ensures left { LeavesAll (parallel_view self.entry) result }
        ensures stores { result.log ≡ [] }
    {
        left_of(Some(self.heap), self.log, &self.pass)
    }
}
