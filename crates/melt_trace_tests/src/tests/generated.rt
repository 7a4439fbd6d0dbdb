ghost use Rattle.std.specs.Prelude.{◌≤◌};

use melt_gen::{GenRefusal, Workload, generate};
use melt_same::same;
use melt_trace::print;
use std::alloc::Global;
use std::test::Fail;

/// The text of a generated trace. Thread 0 draws from the largest seed, thread 1 from 0.
fn text_of(alloc: Global, kind: Workload, size: u32, threads: u32) -> Result<Vec<u8>, Fail>
    requires size { (1 ≤ size) × (size ≤ 100000) }
    requires threads { (1 ≤ threads) × (threads ≤ 8) }
{
    let trace = generate(alloc, kind, u64::MAX, size, threads)?;
    Ok(print(alloc, &trace)?)
}

/// Sees whether the text of a trace begins and ends with these lines.
fn expect_ends(
    alloc: Global,
    kind: Workload,
    size: u32,
    threads: u32,
    ends: (&[u8], &[u8]),
) -> Result<(), Fail>
    requires size { (1 ≤ size) × (size ≤ 100000) }
    requires threads { (1 ≤ threads) × (threads ≤ 8) }
{
    let text = text_of(alloc, kind, size, threads)?;
    let got = (threads, text.starts_with(ends.0), text.ends_with(ends.1));
    same(got, (threads, true, true))
}

#[test]
fn lists(rt: HostRuntime) -> Result<(), Fail> {
    let ends = (
        b"melt 1\nthreads 1\nglobals 1\nthread 0\nnew 0 1 2\nput 0 0 0\n\
            put 0 1 16490336266968443936\ngload 1 0\nstore 0 0 1\ngstore 0 0\nget 0 0\n\
            new 0 1 2\n"
            .as_slice(),
        b"store 0 0 1\ngstore 0 0\nget 0 0\ngload 1 0\nget 1 0\nload 1 1 0\nget 1 0\n\
            load 1 1 0\nget 1 0\nload 1 1 0\nget 1 0\nload 1 1 0\nget 1 0\nload 1 1 0\nget 1 0\n\
            load 1 1 0\nget 1 0\nload 1 1 0\nget 1 0\ndrop 0\ndrop 1\ndone\n"
            .as_slice(),
    );
    expect_ends(rt.alloc(), Workload::List, 2, 1, ends)?;
    let ends = (
        b"melt 1\nthreads 2\nglobals 2\nthread 0\n".as_slice(),
        b"thread 1\nnew 0 1 2\nput 0 0 0\nput 0 1 16294208416658607535\ngload 1 1\n\
            store 0 0 1\ngstore 1 0\nget 0 0\nnew 0 1 2\nput 0 0 1\n\
            put 0 1 7960286522194355700\ngload 1 1\nstore 0 0 1\ngstore 1 0\nget 0 0\n\
            gload 1 1\nget 1 0\nload 1 1 0\nget 1 0\nload 1 1 0\nget 1 0\nload 1 1 0\nget 1 0\n\
            load 1 1 0\nget 1 0\nload 1 1 0\nget 1 0\nload 1 1 0\nget 1 0\nload 1 1 0\nget 1 0\n\
            drop 0\ndrop 1\ndone\n"
            .as_slice(),
    );
    expect_ends(rt.alloc(), Workload::List, 2, 2, ends)?;
    let ends = (
        b"melt 1\nthreads 8\nglobals 8\nthread 0\n".as_slice(),
        b"store 0 0 1\ngstore 7 0\nget 0 0\ngload 1 7\nget 1 0\nload 1 1 0\nget 1 0\n\
            load 1 1 0\nget 1 0\nload 1 1 0\nget 1 0\nload 1 1 0\nget 1 0\nload 1 1 0\nget 1 0\n\
            load 1 1 0\nget 1 0\nload 1 1 0\nget 1 0\ndrop 0\ndrop 1\ndone\n"
            .as_slice(),
    );
    expect_ends(rt.alloc(), Workload::List, 2, 8, ends)
}

#[test]
fn queues(rt: HostRuntime) -> Result<(), Fail> {
    let ends = (
        b"melt 1\nthreads 1\nglobals 2\nthread 0\nnew 0 2 1\nput 0 0 0\ngload 1 1\n\
            store 1 0 0\nstore 0 1 1\ngstore 1 0\ngstore 0 0\nnew 0 2 1\nput 0 0 1\ngload 1 1\n\
            store 1 0 0\nstore 0 1 1\ngstore 1 0\nnew 0 2 1\nput 0 0 2\ngload 1 1\nstore 1 0 0\n\
            store 0 1 1\ngstore 1 0\ngload 2 0\n"
            .as_slice(),
        b"new 0 2 1\nput 0 0 3\ngload 1 1\nstore 1 0 0\nstore 0 1 1\ngstore 1 0\ngload 2 0\n\
            load 2 2 0\ngstore 0 2\ndrop 0\ndrop 1\ndrop 2\ndone\n"
            .as_slice(),
    );
    expect_ends(rt.alloc(), Workload::Queue, 4, 1, ends)?;
    let ends = (
        b"melt 1\nthreads 2\nglobals 4\nthread 0\n".as_slice(),
        b"thread 1\nnew 0 2 1\nput 0 0 0\ngload 1 3\nstore 1 0 0\nstore 0 1 1\ngstore 3 0\n\
            gstore 2 0\nnew 0 2 1\nput 0 0 1\ngload 1 3\nstore 1 0 0\nstore 0 1 1\ngstore 3 0\n\
            gload 2 2\nload 2 2 0\ngstore 2 2\nnew 0 2 1\nput 0 0 2\ngload 1 3\nstore 1 0 0\n\
            store 0 1 1\ngstore 3 0\nnew 0 2 1\nput 0 0 3\ngload 1 3\nstore 1 0 0\nstore 0 1 1\n\
            gstore 3 0\ngload 2 2\nload 2 2 0\ngstore 2 2\ndrop 0\ndrop 1\ndrop 2\ndone\n"
            .as_slice(),
    );
    expect_ends(rt.alloc(), Workload::Queue, 4, 2, ends)?;
    let ends = (
        b"melt 1\nthreads 8\nglobals 16\nthread 0\n".as_slice(),
        b"gload 2 14\nload 2 2 0\ngstore 14 2\nnew 0 2 1\nput 0 0 3\ngload 1 15\nstore 1 0 0\n\
            store 0 1 1\ngstore 15 0\ndrop 0\ndrop 1\ndrop 2\ndone\n"
            .as_slice(),
    );
    expect_ends(rt.alloc(), Workload::Queue, 4, 8, ends)
}

#[test]
fn tables(rt: HostRuntime) -> Result<(), Fail> {
    let ends = (
        b"melt 1\nthreads 1\nglobals 1\nthread 0\nnew 0 62 0\ngstore 0 0\ngload 0 0\n\
            new 1 1 1\nput 1 0 0\nload 2 0 48\nstore 1 0 2\nstore 0 48 1\ngload 0 0\nnew 1 1 1\n\
            put 1 0 1\nload 2 0 9\nstore 1 0 2\nstore 0 9 1\n"
            .as_slice(),
        b"new 1 1 1\nput 1 0 15\nload 2 0 2\nstore 1 0 2\nstore 0 2 1\nload 2 0 3\nget 2 0\n\
            drop 0\ndrop 1\ndrop 2\ndone\n"
            .as_slice(),
    );
    expect_ends(rt.alloc(), Workload::Table, 16, 1, ends)?;
    let ends = (
        b"melt 1\nthreads 2\nglobals 2\nthread 0\n".as_slice(),
        b"new 1 1 1\nput 1 0 15\nload 2 0 51\nstore 1 0 2\nstore 0 51 1\nload 2 0 1\nget 2 0\n\
            drop 0\ndrop 1\ndrop 2\ndone\n"
            .as_slice(),
    );
    expect_ends(rt.alloc(), Workload::Table, 16, 2, ends)?;
    let ends = (
        b"melt 1\nthreads 8\nglobals 8\nthread 0\n".as_slice(),
        b"new 1 1 1\nput 1 0 15\nload 2 0 4\nstore 1 0 2\nstore 0 4 1\nload 2 0 3\nget 2 0\n\
            drop 0\ndrop 1\ndrop 2\ndone\n"
            .as_slice(),
    );
    expect_ends(rt.alloc(), Workload::Table, 16, 8, ends)
}

#[test]
fn trees(rt: HostRuntime) -> Result<(), Fail> {
    let ends = (
        b"melt 1\nthreads 1\nglobals 1\nthread 0\nnew 0 2 1\nput 0 0 16490336266968443936\n\
            gstore 0 0\ngload 0 0\nnew 1 2 1\nput 1 0 16834447057089888969\nstore 0 0 1\n\
            gload 0 0\nnew 1 2 1\nput 1 0 4048727598324417001\nstore 0 1 1\ngload 0 0\n\
            load 0 0 0\nnew 1 2 1\n"
            .as_slice(),
        b"load 0 0 0\nnew 1 2 1\nput 1 0 13015481187462834606\nstore 0 1 1\ngload 0 0\n\
            load 0 0 1\nnew 1 2 1\nput 1 0 15212506146343009075\nstore 0 0 1\ndrop 0\ndrop 1\n\
            done\n"
            .as_slice(),
    );
    expect_ends(rt.alloc(), Workload::Tree, 6, 1, ends)?;
    let ends = (
        b"melt 1\nthreads 2\nglobals 2\nthread 0\n".as_slice(),
        b"thread 1\nnew 0 2 1\nput 0 0 16294208416658607535\ngstore 1 0\ngload 0 1\n\
            new 1 2 1\nput 1 0 7960286522194355700\nstore 0 0 1\ngload 0 1\nnew 1 2 1\n\
            put 1 0 487617019471545679\nstore 0 1 1\ngload 0 1\nload 0 0 0\nnew 1 2 1\n\
            put 1 0 17909611376780542444\nstore 0 0 1\ngload 0 1\nload 0 0 0\nnew 1 2 1\n\
            put 1 0 1961750202426094747\nstore 0 1 1\ngload 0 1\nload 0 0 1\nnew 1 2 1\n\
            put 1 0 6038094601263162090\nstore 0 0 1\ndrop 0\ndrop 1\ndone\n"
            .as_slice(),
    );
    expect_ends(rt.alloc(), Workload::Tree, 6, 2, ends)?;
    let ends = (
        b"melt 1\nthreads 8\nglobals 8\nthread 0\n".as_slice(),
        b"load 0 0 0\nnew 1 2 1\nput 1 0 10159400350932864807\nstore 0 1 1\ngload 0 7\n\
            load 0 0 1\nnew 1 2 1\nput 1 0 15194362148048808560\nstore 0 0 1\ndrop 0\ndrop 1\n\
            done\n"
            .as_slice(),
    );
    expect_ends(rt.alloc(), Workload::Tree, 6, 8, ends)
}

#[test]
fn two_lists_of_a_thousand(rt: HostRuntime) -> Result<(), Fail> {
    let trace = generate(rt.alloc(), Workload::List, 1, 1000, 2)?;
    same(trace.threads(), 2)?;
    same([trace.count(0), trace.count(1)], [7018, 7018])
}

#[test]
fn the_most_operations(rt: HostRuntime) -> Result<(), Fail> {
    let refused = generate(rt.alloc(), Workload::List, 1, 18_723, 8).err();
    same(refused, Some(GenRefusal::TooMany))?;
    let trace = generate(rt.alloc(), Workload::List, 1, 18_722, 8)?;
    same(trace.count(7), 131_072)
}
