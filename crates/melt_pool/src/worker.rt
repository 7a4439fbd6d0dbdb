//! What a thread takes into an epoch beside its registers.
//!
//! The threads of an epoch are run over one slice of mutators, so what a thread has beside its registers lies where its
//! mutator has the reader of the disk: this type reads as the reader that was lent does.
ghost use Rattle.std.specs.Prelude.{◌≡◌};
ghost use Rattle.melt_trace.specs.Script.{Script};
ghost use Rattle.melt_epoch.specs.Mutators.{HasReader};
ghost use Rattle.melt_pool.specs.Workers.{MayRun, Runs, image_of};

use crate::program::run_program;
use melt_epoch::{Epoch, Mutator};
use melt_io::{Failed, Gate, RecordReader};
use melt_safepoint::thread::ThreadState;

/// The reader that was lent for a thread, and its operations and replies, which the thread takes out while it runs.
#[derive(Drop)]
pub struct Worker<'a, R: Drop> {
    pub reader: R,
    pub state: Option<ThreadState<'a>>,
}

impl<'a, R: RecordReader + Drop> RecordReader for Worker<'a, R> {
    ghost image = { λ worker. R.image worker.reader };

    ghost faults = { λ worker. R.faults worker.reader };

    ghost reads = { λ worker. R.reads worker.reader };

    fn read_at(&mut self, at: u32, words: &mut [u64]) -> Result<(), Failed> {
        self.reader.read_at(at, words)
    }
}

/// Runs the thread of a mutator until it waits or has ended. Its operations and replies are taken out meanwhile.
pub(crate) fn run_worker<R: RecordReader + Drop, G: Gate>(
    epoch: &Epoch,
    m: &mut Mutator<Worker<'_, R>>,
    every: u32,
    gate: &G,
)
    requires runs { (script : Script) × MayRun script epoch.now.words m.old }
    requires reader { HasReader (image_of R.image) epoch.now.words m.old }
    ensures runs { Runs R.faults epoch.now.end every epoch.now.words m.old m.new }
    ensures reader { HasReader (image_of R.image) epoch.now.words m.new }
    ensures thread { m.new.thread ≡ m.old.thread }
{
    let Some(mut worker) = m.take_reader() else {
        unreachable!();
    };
    let Some(mut state) = worker.state.take() else {
        unreachable!();
    };
    m.set_reader(worker);
    let thread = m.thread();
    run_program(epoch, m, &mut state, thread, every, gate);
    let Some(mut worker) = m.take_reader() else {
        unreachable!();
    };
    worker.state = Some(state);
    m.set_reader(worker);
}
