mod each_fault;
mod faults;
mod given;
mod threads;

use crate::command::{Command, RunOptions, command_of};
use crate::status::{Status, status_for};
use crate::text::{Texts, report_text};
use crate::top::melt;
use melt_io::{MemSink, MemSource, OpenGate, Sink, Source, SteadyDisk, SteadySink, SteadySource};
use melt_model::{
    Config, Entries, Ghost, Halt, Journals, Replies, Reply, Report, ThreadEnd, ThreadReport,
    ThreadReports,
};
use melt_same::same;
use std::alloc::Global;
use std::test::Fail;
use std::thread::Threads;

const REPLIES: Texts = Texts {
    quiet: false,
    table: false,
    log: false,
};

const TRACE: &[u8] = b"melt 1\nthreads 1\nglobals 0\nthread 0\nnew 0 1 0\nsame 0 0\ndone\n";

/// The words of a command line.
fn words_of(alloc: Global, line: &str) -> Result<Vec<String>, Fail> {
    let mut words = Vec::new(alloc);
    for word in line.split_whitespace() {
        push_word(alloc, &mut words, word)?;
    }
    Ok(words)
}

fn push_word(alloc: Global, words: &mut Vec<String>, word: &str) -> Result<(), Fail> {
    words.push(String::from_str(alloc, word)?)?;
    Ok(())
}

fn call<R: Threads + Sync + AllocGlobal, S: Source, K: Sink>(
    rt: &R,
    line: &str,
    input: &mut S,
    out: &mut K,
) -> Result<Status, Fail> {
    let alloc = rt.alloc();
    let words = words_of(alloc, line)?;
    let mut disk = SteadyDisk::new(alloc);
    Ok(melt(rt, alloc, &words, input, out, &mut disk, &OpenGate))
}

/// Adds what a thread was told and how it ended.
fn push_end(
    alloc: Global,
    threads: &mut Vec<ThreadReport>,
    replies: &[Reply],
    end: ThreadEnd,
) -> Result<(), Fail> {
    let items = replies.to_vec(alloc)?;
    threads.push(ThreadReport {
        replies: Replies { items },
        end,
    })?;
    Ok(())
}

fn report(
    alloc: Global,
    replies: &[Reply],
    ends: &[ThreadEnd],
    halt: Option<Halt>,
) -> Result<Report, Fail> {
    let mut items = Vec::new(alloc);
    for end in ends {
        push_end(alloc, &mut items, replies, *end)?;
    }
    Ok(Report {
        threads: ThreadReports { items },
        journal: Journals {
            items: Vec::new(alloc),
        },
        halt,
        log: Entries {
            items: Vec::new(alloc),
        },
        history: Ghost::pick(&()),
    })
}

#[test]
fn step_writes_each_reply(rt: HostRuntime) -> Result<(), Fail> {
    let cases = [
        (TRACE, b"thread 0\nok\nyes\nend done\n".as_slice()),
        (
            b"melt 1\nthreads 1\nglobals 0\nthread 0\nnew 0 1 0\nload 1 2 0\nload 1 0 1\nload 1 0 0\nsame 1 2\ndone\n",
            b"thread 0\nok\nnil\nrange\nnull\nyes\nend done\n",
        ),
        (
            b"melt 1\nthreads 1\nglobals 1\nthread 0\nnew 0 1 0\nstore 0 0 0\nload 1 0 0\nsame 1 0\n\
            gload 2 0\ngstore 0 1\ngload 2 0\nsame 2 3\ndone\n",
            b"thread 0\nok\nok\nref\nyes\nnull\nok\nref\nno\nend done\n",
        ),
        (
            b"melt  1\nthreads 1\nglobals 0\nthread 0\ndone\n",
            b"thread 0\nend done\n",
        ),
        (
            b"melt 1\nthreads 2\nglobals 1\norder 1 6\nthread 0\ngload 0 0\ndone\n\
            thread 1\nnew 0 0 0\ngstore 0 0\ndone\n",
            b"thread 0\nref\nend done\nthread 1\nok\nok\nend done\n",
        ),
    ];
    for (trace, text) in cases {
        let mut sink = SteadySink::new(rt.alloc());
        step_into(&rt, trace, &mut sink, text)?;
    }
    Ok(())
}

/// Runs a trace to its end, and compares what is written to a sink without faults.
fn step_into<R: Threads + Sync + AllocGlobal>(
    rt: &R,
    trace: &[u8],
    sink: &mut SteadySink,
    text: &[u8],
) -> Result<(), Fail> {
    let mut source = SteadySource::new(trace.to_vec(rt.alloc())?);
    let status = call(rt, "step", &mut source, sink)?;
    same((status, sink.bytes.as_slice()), (Status::Done, text))
}

/// Lets a command run to its end, and write to this sink.
fn write_into<R: Threads + Sync + AllocGlobal>(
    rt: &R,
    line: &str,
    trace: &[u8],
    sink: &mut MemSink,
) -> Result<(), Fail> {
    let mut source = MemSource::new(trace.to_vec(rt.alloc())?);
    let status = call(rt, line, &mut source, sink)?;
    same((line, status), (line, Status::Done))
}

/// The bytes that a command writes, of a trace that is run to its end.
fn written<R: Threads + Sync + AllocGlobal>(
    rt: &R,
    line: &str,
    trace: &[u8],
) -> Result<Vec<u8>, Fail> {
    let mut sink = MemSink::new(rt.alloc());
    write_into(rt, line, trace, &mut sink)?;
    Ok(sink.bytes)
}

/// Compares the bytes that a command writes, of a trace that is run to its end.
fn expect_text<R: Threads + Sync + AllocGlobal>(
    rt: &R,
    line: &str,
    trace: &[u8],
    text: &[u8],
) -> Result<(), Fail> {
    let bytes = written(rt, line, trace)?;
    same((line, bytes.as_slice()), (line, text))
}

/// What a run with these words is given.
fn configured<R: AllocGlobal>(rt: &R, line: &str) -> Result<Option<Config>, Fail> {
    let words = words_of(rt.alloc(), line)?;
    match command_of(rt.alloc(), &words)? {
        Some(
            Command::Step(RunOptions { config, .. }) | Command::Threads(RunOptions { config, .. }),
        ) => { Ok(Some(config)) }
        Some(Command::Gen(_)) | None => Ok(None),
    }
}

#[test]
fn each_number_of_a_run_is_its_own_option(rt: HostRuntime) -> Result<(), Fail> {
    let plain = Config {
        heap: 65_536,
        forward: 1_024,
        disk: 16_777_216,
        mark: 50,
        move_: 80,
        every: 0,
    };
    same(configured(&rt, "step")?, Some(plain))?;
    same(configured(&rt, "run")?, Some(plain))?;
    let step = "step --disk=12 --every 3 --forward 2 --heap=100 --mark 0 --move=1";
    let run = "run --mark 0 --heap=100 --every=3 --disk 12 --move=1 --forward 2";
    let given = Config {
        heap: 100,
        forward: 2,
        disk: 12,
        mark: 0,
        move_: 1,
        every: 3,
    };
    same(configured(&rt, step)?, Some(given))?;
    same(configured(&rt, run)?, Some(given))
}

#[test]
fn a_run_has_the_least_and_the_largest_disk(rt: HostRuntime) -> Result<(), Fail> {
    for line in [
        "step --disk 2 --forward=1",
        "step --forward 65536 --disk=268435456",
    ] {
        expect_text(&rt, line, TRACE, b"thread 0\nok\nyes\nend done\n")?;
    }
    Ok(())
}

#[test]
fn sums_stand_in_the_place_of_replies(rt: HostRuntime) -> Result<(), Fail> {
    let trace =
        b"melt 1\nthreads 2\nglobals 0\nthread 0\nnew 0 0 2\nput 0 0 18446744073709551615\nput 0 1 3\n\
        get 0 0\nget 0 1\nget 0 0\nget 1 0\ndone\nthread 1\ndone\n";
    let text = b"thread 0\nreplies 7\nsum 1\nend done\nthread 1\nreplies 0\nsum 0\nend done\n";
    expect_text(&rt, "step --quiet", trace, text)
}

#[test]
fn a_table_follows_the_replies(rt: HostRuntime) -> Result<(), Fail> {
    let line = "step --heap=16 --table --mark 0 --move 100";
    let trace =
        b"melt 1\nthreads 1\nglobals 1\nthread 0\nnew 0 0 1\nput 0 0 7\ngstore 0 0\ndrop 0\n\
        collect\ncollect\ngload 0 0\nget 0 0\ncollect\ndone\n";
    let text = b"thread 0\nok\nok\nok\nok\nok\nok\nref\n7\nok\nend done\n\
        number,phase,held,live,bodies,stubs,end\n1,inactive,0,3,0,0,1\n2,mark,0,3,0,0,1\n3,mark,3,3,0,0,1\n";
    expect_text(&rt, line, trace, text)
}

#[test]
fn silent_collections_stand_in_the_table(rt: HostRuntime) -> Result<(), Fail> {
    let line = "step --heap 16 --every 1 --table";
    let text = b"thread 0\nok\nyes\nend done\n\
        number,phase,held,live,bodies,stubs,end\n1,inactive,3,3,0,0,1\n2,inactive,3,3,0,0,1\n";
    expect_text(&rt, line, TRACE, text)
}

#[test]
fn a_log_has_each_entry(rt: HostRuntime) -> Result<(), Fail> {
    let cases = [
        (
            TRACE,
            b"thread 0\nok\nyes\nend done\nlog 1\nmake 0 0 1 0\n".as_slice(),
        ),
        (
            b"melt 1\nthreads 1\nglobals 0\nthread 0\ndone\n",
            b"thread 0\nend done\nlog 0\n",
        ),
        (
            b"melt 1\nthreads 1\nglobals 0\nthread 0\nnew 0 1 1\nload 1 0 0\nget 0 0\ndone\n",
            b"thread 0\nok\nnull\n0\nend done\nlog 3\nmake 0 0 1 1\nread 0 f 0 0 nil\nread 0 n 0 0 num 0\n",
        ),
        (
            b"melt 1\nthreads 1\nglobals 0\nthread 0\nnew 0 1 0\nload 1 2 0\nload 1 0 1\nload 1 0 0\nsame 1 2\ndone\n",
            b"thread 0\nok\nnil\nrange\nnull\nyes\nend done\nlog 2\nmake 0 0 1 0\nread 0 f 0 0 nil\n",
        ),
        (
            b"melt 1\nthreads 2\nglobals 3\norder 1 40\nthread 0\ngload 0 2\nget 0 1\ndone\n\
            thread 1\nnew 0 2 0\nnew 1 0 2\nstore 0 1 1\nput 1 1 9\nload 2 0 1\ngstore 2 2\nstore 0 1 9\ndone\n",
            b"thread 0\nref\n9\nend done\nthread 1\nok\nok\nok\nok\nref\nok\nok\nend done\n\
            log 9\nmake 1 0 2 0\nmake 1 1 0 2\nwrite 1 f 0 1 ref 1\nwrite 1 n 1 1 num 9\nread 1 f 0 1 ref 1\n\
            write 1 g 2 ref 1\nwrite 1 f 0 1 nil\nread 0 g 2 ref 1\nread 0 n 1 1 num 9\n",
        ),
    ];
    for (trace, text) in cases {
        expect_text(&rt, "step --log", trace, text)?;
    }
    Ok(())
}

#[test]
fn all_three_texts_stand_in_their_order(rt: HostRuntime) -> Result<(), Fail> {
    let line = "step --log --quiet --every=2 --table";
    let text = b"thread 0\nreplies 2\nsum 0\nend done\n\
        number,phase,held,live,bodies,stubs,end\n1,inactive,3,3,0,0,1\nlog 1\nmake 0 0 1 0\n";
    expect_text(&rt, line, TRACE, text)
}

#[test]
fn a_long_list_is_summed(rt: HostRuntime) -> Result<(), Fail> {
    let trace = written(
        &rt,
        "gen --kind list --seed 1 --size 10000 --threads 2",
        b"",
    )?;
    let text = b"thread 0\nreplies 70018\nsum 50074964\nend done\n\
        thread 1\nreplies 70018\nsum 50074964\nend done\n";
    expect_text(&rt, "step --heap 131072 --quiet", &trace, text)
}

#[test]
fn the_heap_is_not_seen_in_sums(rt: HostRuntime) -> Result<(), Fail> {
    let traces = [
        "gen --kind list --seed 7 --size 500 --threads 2",
        "gen --kind queue --seed 7 --size 500 --threads 2",
        "gen --kind table --seed 7 --size 500 --threads 2",
        "gen --kind tree --seed 7 --size 500 --threads 2",
    ];
    let small = "step --quiet --every 50 --heap=8192";
    for made in traces {
        expect_same_text(&rt, made, "step --quiet", small)?;
    }
    Ok(())
}

/// Compares the bytes that two commands write, of a trace that is made by a third and run to its end.
fn expect_same_text<R: Threads + Sync + AllocGlobal>(
    rt: &R,
    made: &str,
    one: &str,
    other: &str,
) -> Result<(), Fail> {
    let trace = written(rt, made, b"")?;
    let wanted = written(rt, one, &trace)?;
    let got = written(rt, other, &trace)?;
    same(
        (made, other, got.as_slice()),
        (made, other, wanted.as_slice()),
    )
}

#[test]
fn a_sink_that_fails_has_nothing(rt: HostRuntime) -> Result<(), Fail> {
    for word in ["step", "run"] {
        let mut sink = MemSink::new(rt.alloc());
        fail_to_write(&rt, word, &mut sink)?;
    }
    Ok(())
}

fn fail_to_write<R: Threads + Sync + AllocGlobal>(
    rt: &R,
    word: &str,
    sink: &mut MemSink,
) -> Result<(), Fail> {
    sink.fail.push(1)?;
    let mut source = MemSource::new(TRACE.to_vec(rt.alloc())?);
    let status = call(rt, word, &mut source, sink)?;
    same(
        (word, status, sink.bytes.len(), sink.faults.count()),
        (word, Status::WriteFault, 0, 1),
    )
}

#[test]
fn a_source_that_fails_is_told(rt: HostRuntime) -> Result<(), Fail> {
    let mut source = MemSource::new(TRACE.to_vec(rt.alloc())?);
    fail_to_read(&rt, &mut source)
}

fn fail_to_read<R: Threads + Sync + AllocGlobal>(
    rt: &R,
    source: &mut MemSource,
) -> Result<(), Fail> {
    source.fail.push(1)?;
    let mut sink = MemSink::new(rt.alloc());
    let status = call(rt, "step", source, &mut sink)?;
    same(
        (status, sink.bytes.as_slice(), source.faults.count()),
        (Status::ReadFault, b"error read\n".as_slice(), 1),
    )
}

#[test]
fn words_that_mean_nothing_read_nothing(rt: HostRuntime) -> Result<(), Fail> {
    let lines = [
        "",
        "run x",
        "run --log",
        "run --quiet --log --table",
        "run --threads 2",
        "step x",
        "step --mark 90",
        "step --",
        "step --help",
        "step --heap 16 --heap=16",
        "step --seed 1",
        "step --quiet --quiet",
        "step --log --table --log",
        "step --table=",
        "step --quiet=true",
        "step --quiet true",
        "step --heap --quiet",
        "step --forward 0",
        "step --forward=65537",
        "step --forward 1 --forward 2",
        "step --disk 1",
        "step --disk=268435457",
        "step --disk",
        "step --qui",
        "gen --quiet",
        "gen --kind tree --seed 7 --size 2",
        "gen --kind list --seed 1 --size 100000 --threads 2",
    ];
    for line in lines {
        let mut sink = MemSink::new(rt.alloc());
        read_nothing(&rt, line, &mut sink, Status::Usage, b"error usage\n")?;
    }
    Ok(())
}

/// Compares what words come to of which the trace is not read.
fn read_nothing<R: Threads + Sync + AllocGlobal>(
    rt: &R,
    line: &str,
    sink: &mut MemSink,
    wanted: Status,
    text: &[u8],
) -> Result<(), Fail> {
    let mut source = MemSource::new(TRACE.to_vec(rt.alloc())?);
    let status = call(rt, line, &mut source, sink)?;
    same(
        (
            line,
            status,
            sink.bytes.as_slice(),
            source.pos,
            source.calls,
        ),
        (line, wanted, text, 0, 0),
    )
}

#[test]
fn gen_writes_a_trace_and_reads_nothing(rt: HostRuntime) -> Result<(), Fail> {
    let line = "gen --threads 1 --kind tree --seed=7 --size 2";
    let mut sink = MemSink::new(rt.alloc());
    let text =
        b"melt 1\nthreads 1\nglobals 1\nthread 0\nnew 0 2 1\nput 0 0 7191089600892374487\ngstore 0 0\n\
        gload 0 0\nnew 1 2 1\nput 1 0 309689372594955804\nstore 0 0 1\ndrop 0\ndrop 1\ndone\n";
    read_nothing(&rt, line, &mut sink, Status::Done, text)
}

#[test]
fn a_trace_that_was_made_runs(rt: HostRuntime) -> Result<(), Fail> {
    let line = "gen --kind list --seed 1 --size 10 --threads 1";
    let trace = written(&rt, line, b"")?;
    let end = b"ref\n9\nref\n8\nref\n7\nref\n6\nref\n5\nref\n4\nref\n3\nref\n2\nok\nok\nend done\n";
    expect_end(&rt, "step --heap=64", &trace, end)
}

/// Compares the last bytes that a command writes, of a trace that is run to its end.
fn expect_end<R: Threads + Sync + AllocGlobal>(
    rt: &R,
    line: &str,
    trace: &[u8],
    end: &[u8],
) -> Result<(), Fail> {
    let bytes = written(rt, line, trace)?;
    same((line, bytes.as_slice().ends_with(end)), (line, true))
}

/// Compares the text of a report.
fn expect_report(alloc: Global, report: &Report, wanted: &[u8]) -> Result<(), Fail> {
    let text = report_text(alloc, report, REPLIES)?;
    same(text.as_slice(), wanted)
}

#[test]
fn a_report_has_each_reply_end_and_halt(rt: HostRuntime) -> Result<(), Fail> {
    let replies = [
        Reply::Done,
        Reply::Null,
        Reply::Ref,
        Reply::Num(18_446_744_073_709_551_615),
        Reply::Yes,
        Reply::No,
        Reply::Nil,
        Reply::Range,
    ];
    let end = ThreadEnd::Done;
    let full = Halt::DiskFull {
        end: 7,
        need: 0,
        limit: 12,
    };
    let text = b"thread 0\nok\nnull\nref\n18446744073709551615\nyes\nno\nnil\nrange\nend done\n\
        halt disk-full 7 0 12\n";
    let whole = report(rt.alloc(), &replies, &[end], Some(full))?;
    expect_report(rt.alloc(), &whole, text)
}

#[test]
fn a_report_has_each_end_that_is_bad(rt: HostRuntime) -> Result<(), Fail> {
    let ends = [
        ThreadEnd::OutOfHeap { held: 3, need: 64 },
        ThreadEnd::DiskFault,
        ThreadEnd::Damaged {
            home: 2,
            at: 0,
            word: 9,
        },
        ThreadEnd::Halted,
    ];
    let text =
        b"thread 0\nend out-of-heap 3 64\nthread 1\nend disk-fault\nthread 2\nend damaged 2 0 9\n\
        thread 3\nend halted\nhalt disk-fault\n";
    let broken = report(rt.alloc(), &[], &ends, Some(Halt::DiskFault))?;
    expect_report(rt.alloc(), &broken, text)
}

/// The status for a report of these ends.
fn status_of(alloc: Global, ends: &[ThreadEnd], halt: Option<Halt>) -> Result<Status, Fail> {
    let report = report(alloc, &[], ends, halt)?;
    Ok(status_for(&report))
}

#[test]
fn a_report_has_the_status_of_its_worst_end(rt: HostRuntime) -> Result<(), Fail> {
    let out = ThreadEnd::OutOfHeap { held: 3, need: 64 };
    let damaged = ThreadEnd::Damaged {
        home: 2,
        at: 0,
        word: 9,
    };
    let full = Halt::DiskFull {
        end: 7,
        need: 0,
        limit: 12,
    };
    let cases = [
        ([ThreadEnd::Done, ThreadEnd::Halted], None, Status::Done, 0),
        ([ThreadEnd::Done, out], None, Status::OutOfHeap, 5),
        ([out, ThreadEnd::Halted], Some(full), Status::DiskFull, 6),
        ([out, damaged], Some(full), Status::Damaged, 9),
        ([damaged, ThreadEnd::DiskFault], None, Status::DiskFault, 4),
        ([damaged, out], Some(Halt::DiskFault), Status::DiskFault, 4),
    ];
    for (ends, halt, status, code) in cases {
        let told = status_of(rt.alloc(), &ends, halt)?;
        same((ends, halt, told, told.code()), (ends, halt, status, code))?;
    }
    Ok(())
}
