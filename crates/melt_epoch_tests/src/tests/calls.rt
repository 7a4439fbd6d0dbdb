//! The calls of an epoch by short names.
use melt_model::Op;

pub(super) const fn new(dst: u8, refs: u8, nums: u8) -> Op {
    Op::New { dst, refs, nums }
}

pub(super) const fn get(src: u8, j: u8) -> Op {
    Op::Get { src, j }
}

pub(super) const fn put(obj: u8, j: u8, v: u64) -> Op {
    Op::Put { obj, j, v }
}

pub(super) const fn load(dst: u8, src: u8, i: u8) -> Op {
    Op::Load { dst, src, i }
}

pub(super) const fn store(obj: u8, i: u8, src: u8) -> Op {
    Op::Store { obj, i, src }
}

pub(super) const fn gload(dst: u8, g: u8) -> Op {
    Op::GLoad { dst, g }
}

pub(super) const fn gstore(g: u8, src: u8) -> Op {
    Op::GStore { g, src }
}

pub(super) const fn are_same(a: u8, b: u8) -> Op {
    Op::Same { a, b }
}
