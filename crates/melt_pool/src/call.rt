//! The call of an operation, whichever it is.
ghost use Rattle.std.specs.Prelude.{◌≢◌};
ghost use Rattle.melt_model.specs.declared.operations.Op.{Op as OpIs};
ghost use Rattle.melt_trace.specs.Grammar.{InRange};
ghost use Rattle.melt_epoch.specs.Loading.{KeepsCount};
ghost use Rattle.melt_epoch.specs.Mutators.{HasReader, IsSeated};
ghost use Rattle.melt_pool.specs.Calling.{IsCalled, RefusedKeeps};

use melt_core::Refusal;
use melt_epoch::{Epoch, Mutator};
use melt_io::RecordReader;
use melt_model::{Op, Reply};

/// Makes the call of an operation, other than a collection, in an epoch.
pub(crate) fn make_call<R: RecordReader>(
    epoch: &Epoch,
    m: &mut Mutator<R>,
    op: Op,
) -> Result<Reply, Refusal>
    requires seated { IsSeated epoch.now.words m.old }
    requires reader { HasReader R.image epoch.now.words m.old }
    requires in_range { InRange epoch.now.words.start.began.globals op }
    requires no_collect { op ≢ OpIs.Collect }
    ensures seated { IsSeated epoch.now.words m.new }
    ensures reader { HasReader R.image epoch.now.words m.new }
    ensures called { IsCalled R.image R.faults epoch.now.words.start.began.told epoch.now.heap.scions epoch.now.end
        m.old m.new op result }
    ensures count { KeepsCount R.faults m.old m.new }
    ensures keeps { RefusedKeeps m.old m.new result }
{
    match op {
        Op::New { dst, refs, nums } => epoch.make(m, dst, refs, nums),
        Op::Load { dst, src, i } => epoch.load(m, dst, src, i),
        Op::Store { obj, i, src } => epoch.store(m, obj, i, src),
        Op::Get { src, j } => epoch.get(m, src, j),
        Op::Put { obj, j, v } => epoch.put(m, obj, j, v),
        Op::GLoad { dst, g } => epoch.gload(m, dst, g),
        Op::GStore { g, src } => epoch.gstore(m, g, src),
        Op::Same { a, b } => Ok(m.same(a, b)),
        Op::Copy { dst, src } => Ok(m.copy_reg(dst, src)),
        Op::Drop { r } => Ok(m.drop_reg(r)),
        Op::Collect => unreachable!(),
    }
}
