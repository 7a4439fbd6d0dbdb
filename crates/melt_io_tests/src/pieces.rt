//! Tests of the source and the sink that pass bytes on in pieces: how many bytes they ask for and pass on, which no clause of
//! a source or a sink says.
ghost use Rattle.std.specs.Prelude.{◌≤◌};

use melt_io::{
    Failed, MemSink, MemSource, PieceSink, PieceSource, ReadRefusal, Sink, read_all, write_all,
};
use melt_same::same;
use std::alloc::Global;
use std::test::Fail;

/// Reads "12 34" in pieces of this size, and fails where that takes another number of reads.
fn read_in_pieces(alloc: Global, piece: usize, reads: u64) -> Result<(), Fail>
    requires { 1 ≤ piece }
{
    let mut source = PieceSource::new(MemSource::new(b"12 34".to_vec(alloc)?), piece);
    let bytes = read_all(alloc, &mut source, 5)?;
    let inner = source.into_inner();
    same(
        (piece, bytes.as_slice(), inner.calls),
        (piece, b"12 34".as_slice(), reads),
    )
}

#[test]
fn a_read_asks_for_a_piece_at_most(rt: HostRuntime) -> Result<(), Fail> {
    read_in_pieces(rt.alloc(), 1, 6)?;
    read_in_pieces(rt.alloc(), 3, 3)?;
    read_in_pieces(rt.alloc(), 8, 2)
}

#[test]
fn a_source_that_fails_between_pieces_is_a_fault(rt: HostRuntime) -> Result<(), Fail> {
    let mut inner = MemSource::new(b"12 34".to_vec(rt.alloc())?);
    inner.fail.push(3)?;
    let mut source = PieceSource::new(inner, 2);
    let refusal = read_all(rt.alloc(), &mut source, 5).err();
    let faults = source.inner.faults.count();
    let bytes = read_all(rt.alloc(), &mut source, 5)?;
    same(
        (refusal, faults, bytes.as_slice()),
        (Some(ReadRefusal::Fault), 1, b"4".as_slice()),
    )
}

/// Writes "12 34" in pieces of this size, and fails where that takes another number of writes.
fn write_in_pieces(alloc: Global, piece: usize, writes: u64) -> Result<(), Fail>
    requires { 1 ≤ piece }
{
    let mut sink = PieceSink::new(MemSink::new(alloc), piece);
    let written = write_all(&mut sink, b"12 34");
    let inner = sink.into_inner();
    same(
        (piece, written, inner.bytes.as_slice(), inner.calls),
        (piece, Ok(()), b"12 34".as_slice(), writes),
    )
}

#[test]
fn a_write_passes_a_piece_on_at_most(rt: HostRuntime) -> Result<(), Fail> {
    write_in_pieces(rt.alloc(), 1, 5)?;
    write_in_pieces(rt.alloc(), 3, 2)?;
    write_in_pieces(rt.alloc(), 8, 1)
}

#[test]
fn a_write_takes_what_the_sink_below_took(rt: HostRuntime) -> Result<(), Fail> {
    let mut inner = MemSink::new(rt.alloc());
    inner.fail.push(2)?;
    let mut sink = PieceSink::new(PieceSink::new(inner, 2), 3);
    let written = [
        sink.write(b"12 34"),
        sink.write(b" 34"),
        sink.write(b" 34"),
        sink.write(b"4"),
    ];
    let below = sink.into_inner().into_inner();
    same(
        (written, below.bytes.as_slice(), below.faults.count()),
        ([Ok(2), Err(Failed), Ok(2), Ok(1)], b"12 34".as_slice(), 1),
    )
}
