mod parser;

ghost use Rattle.std.specs.Prelude.{◌<◌};

use melt_model::Op;
use melt_same::same;
use melt_trace::{Reason, Trace, TraceError, parse, print};
use std::alloc::Global;
use std::test::Fail;

/// Fails where the trace has not so many threads, or this one has other operations than are wanted.
fn same_operations(trace: &Trace, threads: u32, thread: u32, operations: &[Op]) -> Result<(), Fail>
    requires { thread < threads }
{
    same(trace.threads(), threads)?;
    same(trace.count(thread), operations.len() as u64)?;
    let mut cursor = trace.cursor(thread);
    for op in operations {
        same(cursor.next(), Some(*op))?;
    }
    same(cursor.next(), None)
}

#[test]
fn each_operation(rt: HostRuntime) -> Result<(), Fail> {
    let trace = parse(
        rt.alloc(),
        b"melt 1\nthreads 1\nglobals 3\nthread 0\nnew 15 62 0\nload 1 2 63\nstore 3 10 4\ngload 5 2\n\
            gstore 0 6\nsame 7 8\ndone\n",
    )?;
    let (dst, refs, nums) = (15, 62, 0);
    let new = Op::New { dst, refs, nums };
    let (dst, src, i) = (1, 2, 63);
    let load = Op::Load { dst, src, i };
    let (obj, i, src) = (3, 10, 4);
    let store = Op::Store { obj, i, src };
    let gload = Op::GLoad { dst: 5, g: 2 };
    let gstore = Op::GStore { g: 0, src: 6 };
    let same_objects = Op::Same { a: 7, b: 8 };
    same_operations(
        &trace,
        1,
        0,
        &[new, load, store, gload, gstore, same_objects],
    )
}

/// Fails where the trace is printed as other bytes than these.
fn same_text(alloc: Global, trace: &Trace, wanted: &[u8]) -> Result<(), Fail> {
    let text = print(alloc, trace)?;
    same(text.as_slice(), wanted)
}

#[test]
fn spaces_are_not_printed(rt: HostRuntime) -> Result<(), Fail> {
    let text = b"# spaces\nmelt 1\nthreads 1\nglobals  0\nthread 0\n  drop   0\ndone".as_slice();
    let trace = parse(rt.alloc(), text)?;
    let wanted = b"melt 1\nthreads 1\nglobals 0\nthread 0\ndrop 0\ndone\n".as_slice();
    same_text(rt.alloc(), &trace, wanted)
}

#[test]
fn nested_blocks(rt: HostRuntime) -> Result<(), Fail> {
    let trace = parse(
        rt.alloc(),
        b"melt 1\nthreads 1\nglobals 0\nthread 0\nrepeat 2\nrepeat 2\nnew 0 0 0\nend\ndrop 0\nend\ndone\n",
    )?;
    let (dst, refs, nums) = (0, 0, 0);
    let new = Op::New { dst, refs, nums };
    let drop = Op::Drop { r: 0 };
    same_operations(&trace, 1, 0, &[new, new, drop, new, new, drop])
}

/// The turn that is ordered first, if one is.
fn first_order(trace: &Trace) -> Option<(u32, u32)> {
    if trace.orders() > 0 {
        Some(trace.order(0))
    } else {
        None
    }
}

#[test]
fn printed_text(rt: HostRuntime) -> Result<(), Fail> {
    let wanted =
        b"melt 1\nthreads 2\nglobals 64\norder 1 9\nthread 0\nrepeat 3\nput 1 63 7\nend\ndone\n\
        thread 1\ncollect\ndone\n"
            .as_slice();
    let trace = parse(rt.alloc(), wanted)?;
    let got = (trace.threads(), trace.orders(), first_order(&trace));
    same(got, (2, 1, Some((1, 9))))?;
    same_text(rt.alloc(), &trace, wanted)
}

/// Fails where the sentence of a reason begins otherwise.
fn same_begin(alloc: Global, reason: Reason, begin: &str) -> Result<(), Fail> {
    let text = format!(in alloc; "{reason}")?;
    same((reason, text.starts_with(begin)), (reason, true))
}

#[test]
fn the_sentence_of_each_reason(rt: HostRuntime) -> Result<(), Fail> {
    let sentences = [
        (1, Reason::TooLong, "the trace has more than 16777216 bytes"),
        (2, Reason::BadByte, "the line has a byte"),
        (3, Reason::NoVersion, "the first line"),
        (4, Reason::NoThreads, "the second line"),
        (5, Reason::NoGlobals, "the third line"),
        (6, Reason::OutOfPlace, "the first field is no word"),
        (
            7,
            Reason::FieldCount,
            "there is a field too few or too many",
        ),
        (8, Reason::NoNumber, "a field has to be a number"),
        (9, Reason::NoRegister, "a register is named above 15"),
        (10, Reason::OutOfRange, "a number is out of its range"),
        (11, Reason::TooDeep, "a repeat stands in four open blocks"),
        (12, Reason::EmptyBlock, "the block that this end closes"),
        (13, Reason::ManyOperations, "by this done the operations"),
        (14, Reason::EndsEarly, "the trace ends before the done"),
    ];
    for (number, reason, begin) in sentences {
        let got = (reason.number(), Reason::of_number(number));
        same((reason, got), (reason, (number, Some(reason))))?;
        same_begin(rt.alloc(), reason, begin)?;
    }
    same([Reason::of_number(0), Reason::of_number(15)], [None, None])
}

/// Fails where what is told is not this text.
fn same_refusal(alloc: Global, told: TraceError, wanted: &str) -> Result<(), Fail> {
    let text = format!(in alloc; "{told}")?;
    same(text.as_str(), wanted)
}

#[test]
fn the_text_of_a_refusal(rt: HostRuntime) -> Result<(), Fail> {
    let told = TraceError { line: 5, reason: 9 };
    let wanted = "line 5, reason 9: a register is named above 15: name one from 0 to 15";
    same_refusal(rt.alloc(), told, wanted)?;
    let unknown = TraceError {
        line: 5,
        reason: 15,
    };
    same_refusal(rt.alloc(), unknown, "line 5, reason 15")
}
