use super::given::{run_over, same_threads, usual};
use melt_io::SteadyDisk;
use melt_model::{Reply, Report, ThreadEnd};
use melt_same::same;
use std::alloc::Global;
use std::test::Fail;

/// How many objects of four words are made. They are four times the words of the heap.
const LENGTH: u64 = 40;

/// Appends what makes the next object of the list, which has this number.
fn push_object(alloc: Global, text: &mut String, number: u64) -> Result<(), Fail> {
    let lines = format!(in alloc; "new 1 1 1\nput 1 0 {number}\nstore 1 0 0\ncopy 0 1\n")?;
    text.push_str(&lines)?;
    Ok(())
}

/// Makes a list whose objects have the numbers 0, 1, 2, .. from its end on, and walks it from its head, which a
/// register holds.
fn push_list(alloc: Global, text: &mut String) -> Result<(), Fail> {
    text.push_str("melt 1\nthreads 1\nglobals 0\nthread 0\n")?;
    for k in 0..LENGTH {
        push_object(alloc, text, k)?;
    }
    text.push_str("drop 1\n")?;
    for _ in 0..LENGTH {
        text.push_str("get 0 0\nload 0 0 0\n")?;
    }
    text.push_str("done\n")?;
    Ok(())
}

/// What the thread is told of it.
fn push_replies(replies: &mut Vec<Reply>) -> Result<(), Fail> {
    for _ in 0..4 * LENGTH + 1 {
        replies.push(Reply::Done)?;
    }
    for k in 1..LENGTH {
        replies.push(Reply::Num(LENGTH - k))?;
        replies.push(Reply::Ref)?;
    }
    replies.push(Reply::Num(0))?;
    replies.push(Reply::Null)?;
    Ok(())
}

/// Runs it over a disk.
fn run_list(alloc: Global, disk: &mut SteadyDisk) -> Result<(Report, bool), Fail> {
    let mut text = String::new(alloc);
    push_list(alloc, &mut text)?;
    run_over(alloc, text.as_bytes(), usual(40, 0), disk, true)
}

/// Compares what the thread was told, that it came to its end, and that no disk failed.
fn same_list(alloc: Global, report: &Report, lost: bool) -> Result<(), Fail> {
    let mut replies = Vec::new(alloc);
    push_replies(&mut replies)?;
    same((report.halt, lost), (None, false))?;
    same_threads("", report, &[(replies.as_slice(), ThreadEnd::Done)])
}

/// The same of a run over this disk.
fn expect_list(alloc: Global, disk: &mut SteadyDisk) -> Result<(), Fail> {
    let (report, lost) = run_list(alloc, disk)?;
    same_list(alloc, &report, lost)
}

#[test]
fn a_list_outgrows_the_heap(rt: HostRuntime) -> Result<(), Fail> {
    let alloc = rt.alloc();
    let mut disk = SteadyDisk::new(alloc);
    expect_list(alloc, &mut disk)?;
    same(disk.image.len() > 3 * 40, true)
}
