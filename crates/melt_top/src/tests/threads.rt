use super::{TRACE, expect_same_text, expect_text};
use std::test::Fail;

#[test]
fn run_writes_each_reply(rt: HostRuntime) -> Result<(), Fail> {
    let cases = [
        (TRACE, b"thread 0\nok\nyes\nend done\n".as_slice()),
        (
            b"melt 1\nthreads 1\nglobals 1\nthread 0\nnew 0 1 1\nput 0 0 7\nstore 0 0 0\ngstore 0 0\ndrop 0\n\
            gload 1 0\nload 2 1 0\nget 2 0\nget 2 1\nsame 1 2\ndone\n",
            b"thread 0\nok\nok\nok\nok\nok\nref\nref\n7\nrange\nyes\nend done\n",
        ),
        (
            b"melt 1\nthreads 2\nglobals 2\nthread 0\nnew 0 0 1\nput 0 0 4\ngstore 0 0\nget 0 0\ndone\n\
            thread 1\nnew 0 0 1\nput 0 0 5\ngstore 1 0\nget 0 0\ncollect\nget 0 0\ndone\n",
            b"thread 0\nok\nok\nok\n4\nend done\nthread 1\nok\nok\nok\n5\nok\n5\nend done\n",
        ),
    ];
    for (trace, text) in cases {
        expect_text(&rt, "run", trace, text)?;
    }
    Ok(())
}

#[test]
fn run_writes_sums_and_a_table(rt: HostRuntime) -> Result<(), Fail> {
    let text = b"thread 0\nreplies 2\nsum 0\nend done\nnumber,phase,held,live,bodies,stubs,end\n";
    expect_text(&rt, "run --table --quiet", TRACE, text)
}

/// Threads that share no object have the same replies in any order.
#[test]
fn threads_are_not_seen_in_sums(rt: HostRuntime) -> Result<(), Fail> {
    let made = "gen --kind list --seed 7 --size 200 --threads 4";
    for line in ["run --quiet", "run --quiet --every 100 --heap=16384"] {
        expect_same_text(&rt, made, "step --quiet", line)?;
    }
    Ok(())
}
