//! The call that is made first in an epoch, before any other thread runs.
//!
//! A thread that lacked room is to have it after a collection. Its call is made again while no other thread takes the
//! words: so it is answered if there are as many as it needs, and if not, the run knows how many are missing.
ghost use Rattle.std.specs.Prelude.{◌≡◌, ◌≢◌, Some};
ghost use Rattle.melt_model.specs.declared.operations.Op.TheVariants.{Collect};
ghost use Rattle.melt_trace.specs.Script.{Script};
ghost use Rattle.melt_epoch.specs.Mutators.{HasReader};
ghost use Rattle.melt_safepoint.specs.declared.thread.Mode.TheVariants.{Lacking};
ghost use Rattle.melt_pool.specs.Firsts.{CameFirst, CameTo, MayCall, first_for};
ghost use Rattle.melt_pool.specs.Programs.{Works, made_again};
ghost use Rattle.melt_pool.specs.Workers.{MayRun, image_of};

use crate::call::make_call;
use crate::program::take_result;
use crate::worker::Worker;
use melt_core::{Pause, Refusal};
use melt_epoch::{Epoch, Mutator};
use melt_io::RecordReader;
use melt_model::Reply;
use melt_safepoint::thread::ThreadState;

/// What the call comes to that is made first.
#[derive(Clone, Copy)]
pub(crate) enum First {
    /// It was answered, or its thread has ended.
    Went,
    /// The heap lacks room for so many words.
    Lacked(u32),
    /// It was refused for what other threads do, of which none has run yet. So that cannot be.
    Stopped,
}

/// What an answer of the first call comes to.
fn first_of(answer: Result<Reply, Refusal>) -> First
    ensures { result ≡ first_for answer }
{
    match answer {
        Err(Refusal::Pause(Pause::Space { need })) => First::Lacked(need),
        // Nobody else runs, the stop word is not set and all forwarding words are empty.
        Err(Refusal::Pause(Pause::Asked | Pause::Forward)) => First::Stopped,
        Ok(_) | Err(Refusal::DiskFault | Refusal::Damaged(_)) => First::Went,
    }
}

/// Makes the call of a thread that lacks room. If it is not answered, the thread lacks room still.
fn make_first<R: RecordReader>(
    epoch: &Epoch,
    m: &mut Mutator<R>,
    state: &mut ThreadState<'_>,
    every: u32,
) -> First
    requires works { (script : Script) × Works script epoch.now.words m.old (made_again state.old) }
    requires reader { HasReader R.image epoch.now.words m.old }
    requires lacks { state.old.mode ≡ Lacking }
    requires calls { state.old.op ≢ Some Collect }
    ensures came { CameTo R.faults epoch.now.end every epoch.now.words m.old m.new state.old state.new result }
    ensures reader { HasReader R.image epoch.now.words m.new }
    ensures thread { m.new.thread ≡ m.old.thread }
{
    let Some(op) = state.op else {
        unreachable!();
    };
    let answer = make_call(epoch, m, op);
    let first = first_of(answer);
    if let First::Went = first {
        state.make_again();
        take_result(m, state, answer, every);
    }
    first
}

/// Makes the call of the thread of a mutator, which lacks room. Its operations and replies are taken out meanwhile.
pub(crate) fn call_first<R: RecordReader + Drop>(
    epoch: &Epoch,
    m: &mut Mutator<Worker<'_, R>>,
    every: u32,
) -> First
    requires runs { (script : Script) × MayRun script epoch.now.words m.old }
    requires reader { HasReader (image_of R.image) epoch.now.words m.old }
    requires calls { MayCall m.old }
    ensures came { CameFirst R.faults epoch.now.end every epoch.now.words m.old m.new result }
    ensures reader { HasReader (image_of R.image) epoch.now.words m.new }
    ensures thread { m.new.thread ≡ m.old.thread }
{
    let Some(mut worker) = m.take_reader() else {
        unreachable!();
    };
    let Some(mut state) = worker.state.take() else {
        unreachable!();
    };
    m.set_reader(worker);
    let first = make_first(epoch, m, &mut state, every);
    let Some(mut worker) = m.take_reader() else {
        unreachable!();
    };
    worker.state = Some(state);
    m.set_reader(worker);
    first
}
