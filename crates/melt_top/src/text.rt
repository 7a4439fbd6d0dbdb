//! The text of a report.
ghost use Rattle.std.specs.Prelude.{◌≡◌, ◌≤◌, ◌+◌, ◌*◌, ◌%◌, ◌^◌, [], ◌++◌, ◌∷◌, length, vec_capacity, vec_len};
ghost use Rattle.std.specs.Prelude.{IfOk, OnOk};
ghost use Rattle.std.specs.List.{flat_map, sum_by};
ghost use Rattle.melt_model.specs.History.{made};
ghost use Rattle.melt_top.specs.Text.{with_digits, number_in, reply_line, sum_lines, reply_lines, end_line, halt_line};
ghost use Rattle.melt_top.specs.Text.{thread_text, thread_lines, slot_field, value_field, act_line, log_text};
ghost use Rattle.melt_top.specs.Text.{table_part, log_part, text};

use itoa::Buffer;
use melt_model::{Act, Entry, Halt, NoMemory, Reply, Report, Slot, ThreadEnd, ThreadReport, Value};
use melt_stats::table;
use melt_text::push_line;
use std::alloc::Global;
use std::mem;

/// How many replies are written in one go: room for them is looked for once.
const CHUNK: usize = 1024;

/// The most bytes that the line of a reply has: 20 digits, and the end of the line.
const MAX_LINE: usize = 21;

/// Which texts of a run are written.
#[derive(Clone, Copy, Debug, PartialEq, Eq)]
pub struct Texts {
    /// Counts and sums stand in the place of replies.
    pub quiet: bool,
    /// The table of the collections.
    pub table: bool,
    /// The history of the heap.
    pub log: bool,
}

/// Adds a word, and a number right after it.
fn push_numbered(out: &mut Vec<u8>, word: &[u8], number: u64) -> Result<(), NoMemory>
    ensures { OnOk result (out.new.items ≡ out.old.items ++ with_digits word.now number) }
{
    let mut buffer = Buffer::new();
    out.extend_from_slice(word)?;
    out.extend_from_slice(buffer.format(number).as_bytes())?;
    Ok(())
}

/// Adds bytes for which there is room.
// (inlined, so that those of a word stand in the code)
#[inline(always)]
fn push_bytes(out: &mut Vec<u8>, bytes: &[u8])
    requires { vec_len out.old + length bytes.now ≤ vec_capacity out.old }
    ensures items { out.new.items ≡ out.old.items ++ bytes.now }
    ensures capacity { vec_capacity out.new ≡ vec_capacity out.old }
{
    for byte in bytes {
        out.push_reserved(*byte);
    }
}

/// Adds the line of a number, for which there is room.
// (inlined, so that the place of the text is not written to memory)
#[inline(always)]
fn push_number_line(out: &mut Vec<u8>, number: u64)
    requires { vec_len out.old + MAX_LINE ≤ vec_capacity out.old }
    ensures items { out.new.items ≡ out.old.items ++ (with_digits [] number ++ 10 ∷ []) }
    ensures within { vec_len out.new ≤ vec_len out.old + MAX_LINE }
    ensures capacity { vec_capacity out.new ≡ vec_capacity out.old }
{
    let mut buffer = Buffer::new();
    push_bytes(out, buffer.format(number).as_bytes());
    out.push_reserved(b'\n');
}

/// Adds the line of a reply, for which there is room.
// (inlined for the same reason)
#[inline(always)]
fn push_reply(out: &mut Vec<u8>, reply: Reply)
    requires { vec_len out.old + MAX_LINE ≤ vec_capacity out.old }
    ensures items { out.new.items ≡ out.old.items ++ reply_line reply }
    ensures within { vec_len out.new ≤ vec_len out.old + MAX_LINE }
    ensures capacity { vec_capacity out.new ≡ vec_capacity out.old }
{
    match reply {
        Reply::Done => push_bytes(out, b"ok\n"),
        Reply::Null => push_bytes(out, b"null\n"),
        Reply::Ref => push_bytes(out, b"ref\n"),
        Reply::Num(number) => push_number_line(out, number),
        Reply::Yes => push_bytes(out, b"yes\n"),
        Reply::No => push_bytes(out, b"no\n"),
        Reply::Nil => push_bytes(out, b"nil\n"),
        Reply::Range => push_bytes(out, b"range\n"),
    }
}

/// Adds the lines of replies to a text that has room for them.
// (the text is owned, since the place of one that is behind a reference is read again after each byte; and the replies
// are taken from the front, since the place of one that is counted is computed anew each time)
fn with_lines(mut text: Vec<u8>, replies: &[Reply]) -> Vec<u8>
    requires { vec_len text + MAX_LINE * length replies.now ≤ vec_capacity text }
    ensures { result.items ≡ text.items ++ flat_map reply_line replies.now }
{
    let mut rest = replies;
    while let Some((reply, after)) = rest.split_first() {
        push_reply(&mut text, *reply);
        rest = after;
    }
    text
}

fn push_end(out: &mut Vec<u8>, end: ThreadEnd) -> Result<(), NoMemory>
    ensures { OnOk result (out.new.items ≡ out.old.items ++ end_line end) }
{
    match end {
        ThreadEnd::Done => push_line(out, b"end done", &[]),
        ThreadEnd::OutOfHeap { held, need } => {
            push_line(out, b"end out-of-heap", &[u64::from(held), u64::from(need)])
        }
        ThreadEnd::DiskFault => push_line(out, b"end disk-fault", &[]),
        ThreadEnd::Damaged { home, at, word } => {
            push_line(out, b"end damaged", &[u64::from(home), u64::from(at), word])
        }
        ThreadEnd::Halted => push_line(out, b"end halted", &[]),
    }
}

fn push_halt(out: &mut Vec<u8>, halt: Halt) -> Result<(), NoMemory>
    ensures { OnOk result (out.new.items ≡ out.old.items ++ halt_line (Some halt)) }
{
    match halt {
        Halt::DiskFull { end, need, limit } => push_line(
            out,
            b"halt disk-full",
            &[u64::from(end), u64::from(need), u64::from(limit)],
        ),
        Halt::DiskFault => push_line(out, b"halt disk-fault", &[]),
    }
}

fn push_each(out: &mut Vec<u8>, replies: &[Reply]) -> Result<(), NoMemory>
    ensures { OnOk result (out.new.items ≡ out.old.items ++ flat_map reply_line replies.now) }
{
    for chunk in replies.chunks(CHUNK) {
        out.reserve(chunk.len() * MAX_LINE)?;
        *out = with_lines(mem::try_take(out)?, chunk);
    }
    Ok(())
}

/// The number that a reply is, or 0 where it is none.
fn number_in(reply: Reply) -> u64
    ensures { result ≡ number_in reply }
{
    match reply {
        Reply::Num(number) => number,
        _ => 0,
    }
}

/// The sum of the replies that are numbers, modulo 2^64.
fn sum_of(replies: &[Reply]) -> u64
    ensures { result ≡ sum_by number_in replies.now % 2 ^ 64 }
{
    replies
        .iter()
        .fold(0u64, |sum, reply| sum.wrapping_add(number_in(*reply)))
}

fn push_sum(out: &mut Vec<u8>, replies: &[Reply]) -> Result<(), NoMemory>
    ensures { OnOk result (out.new.items ≡ out.old.items ++ sum_lines replies.now) }
{
    push_line(out, b"replies", &[replies.len() as u64])?;
    push_line(out, b"sum", &[sum_of(replies)])
}

fn push_replies(out: &mut Vec<u8>, replies: &[Reply], texts: Texts) -> Result<(), NoMemory>
    ensures { OnOk result (out.new.items ≡ out.old.items ++ reply_lines texts replies.now) }
{
    if texts.quiet {
        push_sum(out, replies)
    } else {
        push_each(out, replies)
    }
}

fn push_thread(
    out: &mut Vec<u8>,
    number: u64,
    report: &ThreadReport,
    texts: Texts,
) -> Result<(), NoMemory>
    ensures { OnOk result (out.new.items ≡ out.old.items ++ thread_text texts number report.now) }
{
    push_line(out, b"thread", &[number])?;
    push_replies(out, &report.replies.items, texts)?;
    push_end(out, report.end)
}

fn push_threads(out: &mut Vec<u8>, threads: &[ThreadReport], texts: Texts) -> Result<(), NoMemory>
    ensures { OnOk result (out.new.items ≡ out.old.items ++ thread_lines texts 0 threads.now) }
{
    for (number, thread) in threads.iter().enumerate() {
        push_thread(out, number as u64, thread, texts)?;
    }
    Ok(())
}

fn push_slot(out: &mut Vec<u8>, slot: Slot) -> Result<(), NoMemory>
    ensures { OnOk result (out.new.items ≡ out.old.items ++ slot_field slot) }
{
    match slot {
        Slot::Field(object, i) => {
            push_numbered(out, b" f ", object)?;
            push_numbered(out, b" ", u64::from(i))
        }
        Slot::Cell(object, j) => {
            push_numbered(out, b" n ", object)?;
            push_numbered(out, b" ", u64::from(j))
        }
        Slot::Global(g) => push_numbered(out, b" g ", u64::from(g)),
    }
}

fn push_value(out: &mut Vec<u8>, value: Value) -> Result<(), NoMemory>
    ensures { OnOk result (out.new.items ≡ out.old.items ++ value_field value) }
{
    match value {
        Value::Nil => {
            out.extend_from_slice(b" nil")?;
            Ok(())
        }
        Value::Ref(object) => push_numbered(out, b" ref ", object),
        Value::Num(number) => push_numbered(out, b" num ", number),
    }
}

/// Adds the slot and the value of a read or a write, and the end of the line.
fn push_access(out: &mut Vec<u8>, slot: Slot, value: Value) -> Result<(), NoMemory>
    ensures { OnOk result (out.new.items ≡ out.old.items ++ (slot_field slot ++ value_field value ++ 10 ∷ [])) }
{
    push_slot(out, slot)?;
    push_value(out, value)?;
    out.push(b'\n')?;
    Ok(())
}

/// Adds the line of an entry, when `count` objects had been made.
fn push_entry(out: &mut Vec<u8>, count: u64, entry: Entry) -> Result<(), NoMemory>
    ensures { OnOk result (out.new.items ≡ out.old.items ++ act_line entry.thread count entry.act) }
{
    let thread = u64::from(entry.thread);
    match entry.act {
        Act::Make { refs, nums } => push_line(
            out,
            b"make",
            &[thread, count, u64::from(refs), u64::from(nums)],
        ),
        Act::Read { slot, value } => {
            push_numbered(out, b"read ", thread)?;
            push_access(out, slot, value)
        }
        Act::Write { slot, value } => {
            push_numbered(out, b"write ", thread)?;
            push_access(out, slot, value)
        }
    }
}

/// How many objects an entry makes.
fn made_by(entry: Entry) -> u64
    ensures count { result ≡ made (entry ∷ []) }
    ensures one { result ≤ 1 }
{
    match entry.act {
        Act::Make { .. } => 1,
        Act::Read { .. } | Act::Write { .. } => 0,
    }
}

fn push_log(out: &mut Vec<u8>, log: &[Entry]) -> Result<(), NoMemory>
    ensures { OnOk result (out.new.items ≡ out.old.items ++ log_text log.now) }
{
    push_line(out, b"log", &[log.len() as u64])?;
    let mut count = 0;
    for entry in log {
        push_entry(out, count, *entry)?;
        count += made_by(*entry);
    }
    Ok(())
}

fn push_halt_part(out: &mut Vec<u8>, report: &Report) -> Result<(), NoMemory>
    ensures { OnOk result (out.new.items ≡ out.old.items ++ halt_line report.now.halt) }
{
    if let Some(halt) = report.halt {
        push_halt(out, halt)?;
    }
    Ok(())
}

fn push_table_part(
    alloc: Global,
    out: &mut Vec<u8>,
    report: &Report,
    texts: Texts,
) -> Result<(), NoMemory>
    ensures { OnOk result (out.new.items ≡ out.old.items
        ++ table_part (record { report = report.now; texts = texts })) }
{
    if texts.table {
        let rows = table(alloc, &report.journal)?;
        out.extend_from_slice(&rows)?;
    }
    Ok(())
}

fn push_log_part(out: &mut Vec<u8>, report: &Report, texts: Texts) -> Result<(), NoMemory>
    ensures { OnOk result (out.new.items ≡ out.old.items
        ++ log_part (record { report = report.now; texts = texts })) }
{
    if texts.log {
        push_log(out, &report.log.items)?;
    }
    Ok(())
}

/// The text of a report.
pub fn report_text(alloc: Global, report: &Report, texts: Texts) -> Result<Vec<u8>, NoMemory>
    ensures { IfOk result (λ out. out.items ≡ text (record { report = report.now; texts = texts })) }
{
    let mut out = Vec::new(alloc);
    push_threads(&mut out, &report.threads.items, texts)?;
    push_halt_part(&mut out, report)?;
    push_table_part(alloc, &mut out, report, texts)?;
    push_log_part(&mut out, report, texts)?;
    Ok(out)
}
