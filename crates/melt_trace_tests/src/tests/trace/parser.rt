use super::{first_order, same_operations, same_text};
use melt_model::Op;
use melt_same::same;
use melt_trace::{ParseRefusal, Trace, TraceError, parse};
use std::alloc::Global;
use std::test::Fail;

/// The line and the reason that are told of the text.
fn refusal(alloc: Global, text: &[u8]) -> Option<(u32, u32)> {
    match parse(alloc, text) {
        Err(ParseRefusal::Bad(TraceError { line, reason })) => Some((line, reason)),
        _ => None,
    }
}

/// Fails where the trace of `what_a_trace_says` has other globals, turns or operations.
fn same_parts(trace: &Trace) -> Result<(), Fail> {
    let got = (trace.globals(), trace.orders(), first_order(trace));
    same(got, (3, 1, Some((1, 7))))?;
    let (dst, refs, nums) = (15, 62, 0);
    let (obj, j, v) = (1, 2, u64::MAX);
    let put = Op::Put { obj, j, v };
    same_operations(trace, 2, 0, &[Op::New { dst, refs, nums }, put, put, put])?;
    same_operations(trace, 2, 1, &[Op::Collect])
}

#[test]
fn what_a_trace_says(rt: HostRuntime) -> Result<(), Fail> {
    let trace = parse(
        rt.alloc(),
        b"# a trace\nmelt  1\n\n threads 2\nglobals 3\norder 1 7\nthread 0\nnew 15 62 0\nrepeat 3\n\
            put 1 2 18446744073709551615\nend\ndone\nthread 1\ncollect\ndone",
    )?;
    same_parts(&trace)?;
    let wanted = b"melt 1\nthreads 2\nglobals 3\norder 1 7\nthread 0\nnew 15 62 0\nrepeat 3\n\
        put 1 2 18446744073709551615\nend\ndone\nthread 1\ncollect\ndone\n";
    same_text(rt.alloc(), &trace, wanted)
}

/// These lines, between others.
fn text_of(alloc: Global, before: &[u8], lines: &str, after: &[u8]) -> Result<Vec<u8>, Fail> {
    let mut text = Vec::from_slice(alloc, before)?;
    text.extend_from_slice(lines.as_bytes())?;
    text.extend_from_slice(after)?;
    Ok(text)
}

/// Fails where the line is read as another operation, or as more than one.
fn same_operation(alloc: Global, line: &str, op: Op) -> Result<(), Fail> {
    let before = b"melt 1\nthreads 1\nglobals 64\nthread 0\n".as_slice();
    let text = text_of(alloc, before, line, b"\ndone\n")?;
    let trace = parse(alloc, &text)?;
    same(trace.threads(), 1)?;
    let mut cursor = trace.cursor(0);
    let first = cursor.next();
    same((line, first, cursor.next()), (line, Some(op), None))
}

#[test]
fn canonical_lines_and_others(rt: HostRuntime) -> Result<(), Fail> {
    let (v, g, r) = (18_446_744_073_709_551_609, 63, 15);
    let new = Op::New {
        dst: 15,
        refs: 62,
        nums: 0,
    };
    let load = Op::Load {
        dst: 1,
        src: 10,
        i: 63,
    };
    let store = Op::Store {
        obj: 0,
        i: 9,
        src: 15,
    };
    let put = Op::Put { obj: 3, j: 0, v };
    let lines = [
        ("new 15 62 0", " new 15 62 0", new),
        ("load 1 10 63", "load  1 10 63", load),
        ("store 0 9 15", "store 0  9 15", store),
        ("get 2 10", "get 2 10 ", Op::Get { src: 2, j: 10 }),
        (
            "put 3 0 18446744073709551609",
            "put 3  0 18446744073709551609",
            put,
        ),
        ("gload 4 63", "gload 4  63", Op::GLoad { dst: 4, g }),
        ("gstore 63 5", "gstore 63 5 ", Op::GStore { g, src: 5 }),
        ("same 6 7", " same 6 7", Op::Same { a: 6, b: 7 }),
        ("copy 8 9", "copy  8 9", Op::Copy { dst: 8, src: 9 }),
        ("drop 15", "drop 15 ", Op::Drop { r }),
        ("collect", " collect", Op::Collect),
    ];
    for (canonical, other, op) in lines {
        for line in [canonical, other] {
            same_operation(rt.alloc(), line, op)?;
        }
    }
    Ok(())
}

/// Fails where another line and reason are told of some lines than stand beside them. All lines stand after the same
/// bytes.
fn same_refusals(alloc: Global, before: &[u8], texts: &[(&str, (u32, u32))]) -> Result<(), Fail> {
    for (lines, told) in texts {
        let text = text_of(alloc, before, lines, b"")?;
        let got = refusal(alloc, &text);
        same((*lines, got), (*lines, Some(*told)))?;
    }
    Ok(())
}

#[test]
fn bad_openings(rt: HostRuntime) -> Result<(), Fail> {
    let texts = [
        ("", (1, 14)),
        ("melt 1\nthreads 1\x1f\n", (2, 2)),
        ("#\x7f\n", (1, 2)),
        ("\n#\nmelt 01\n", (3, 3)),
        ("melt 1 1\n", (1, 3)),
        ("melt 1\nthreads 9\n", (2, 4)),
        ("melt 1\nthreads 1\nglobals 65\n", (3, 5)),
        ("melt 1\nthreads 1\nglobals 2", (4, 14)),
    ];
    same_refusals(rt.alloc(), b"", &texts)
}

#[test]
fn too_many_bytes(rt: HostRuntime) -> Result<(), Fail> {
    let text = vec![in rt.alloc(); b'\n'; 16_777_217]?;
    same(refusal(rt.alloc(), &text), Some((0, 1)))
}

/// The lines that each trace begins with.
const OPENING: &[u8] = b"melt 1\nthreads 1\nglobals 2\n";

#[test]
fn bad_lines(rt: HostRuntime) -> Result<(), Fail> {
    let texts = [
        ("drop 0\n", (4, 6)),
        ("thread 0\norder 0 1\n", (5, 6)),
        ("thread 0\nend\n", (5, 6)),
        ("thread 0\ndrop\n", (5, 7)),
        ("thread 0\ndrop 01\n", (5, 8)),
        ("thread 0\ndrop 1x\n", (5, 8)),
        ("thread 0\ndrop 1\x1f\n", (5, 2)),
        ("thread 0\nput 0 0 00\n", (5, 8)),
        ("thread 0\ncollects\n", (5, 6)),
        ("collect\n", (4, 6)),
        ("thread 0\nput 0 0 18446744073709551616\n", (5, 8)),
        ("thread 0\ndrop 16\n", (5, 9)),
        ("thread 0\ngload 0 2\n", (5, 10)),
        ("thread 1\n", (4, 10)),
        ("order 1 1\n", (4, 10)),
        ("thread 0\ndrop 0\n", (6, 14)),
    ];
    same_refusals(rt.alloc(), OPENING, &texts)
}

#[test]
fn bad_blocks(rt: HostRuntime) -> Result<(), Fail> {
    let texts = [
        (
            "thread 0\nrepeat 1\nrepeat 1\nrepeat 1\nrepeat 1\nrepeat 1\n",
            (9, 11),
        ),
        ("thread 0\nrepeat 2\n#\nend\n", (7, 12)),
        (
            "thread 0\nrepeat 1048576\ndrop 0\nend\ndrop 0\ndone\n",
            (9, 13),
        ),
        (
            "thread 0\nrepeat 1048576\nrepeat 1048576\ndrop 0\nend\nend\ndone\n",
            (10, 13),
        ),
    ];
    same_refusals(rt.alloc(), OPENING, &texts)
}

#[test]
fn the_first_of_two_faults(rt: HostRuntime) -> Result<(), Fail> {
    let texts = [
        ("thread 0\nload 16 x 0\n", (5, 9)),
        ("thread 0\nload x 16 0\n", (5, 8)),
        ("thread 0\nload 16 0\n", (5, 7)),
        ("thread 0\nrepeat 0\nend\n", (5, 10)),
        ("thread 0\ndrop 16\nthread 1\n", (5, 9)),
        ("thread 0\n#\x1f\ndrop 16\n", (5, 2)),
    ];
    same_refusals(rt.alloc(), OPENING, &texts)
}
