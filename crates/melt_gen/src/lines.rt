//! Operations as the lines of a trace say them, with their numbers in the same order.
ghost use Rattle.std.specs.Prelude.{◌≡◌};
ghost use Rattle.melt_model.specs.declared.operations.Op.TheVariants as op;

use melt_model::Op;

pub fn new(dst: u8, refs: u8, nums: u8) -> Op
    ensures { result ≡ op.New dst refs nums }
{
    Op::New { dst, refs, nums }
}

pub fn load(dst: u8, src: u8, i: u8) -> Op
    ensures { result ≡ op.Load dst src i }
{
    Op::Load { dst, src, i }
}

pub fn store(obj: u8, i: u8, src: u8) -> Op
    ensures { result ≡ op.Store obj i src }
{
    Op::Store { obj, i, src }
}

pub fn get(src: u8, j: u8) -> Op
    ensures { result ≡ op.Get src j }
{
    Op::Get { src, j }
}

pub fn put(obj: u8, j: u8, v: u64) -> Op
    ensures { result ≡ op.Put obj j v }
{
    Op::Put { obj, j, v }
}

pub fn gload(dst: u8, g: u8) -> Op
    ensures { result ≡ op.GLoad dst g }
{
    Op::GLoad { dst, g }
}

pub fn gstore(g: u8, src: u8) -> Op
    ensures { result ≡ op.GStore g src }
{
    Op::GStore { g, src }
}

pub fn drop(r: u8) -> Op
    ensures { result ≡ op.Drop r }
{
    Op::Drop { r }
}
