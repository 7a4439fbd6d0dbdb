//! The whole program, over any source and any sink.
ghost use Rattle.std.specs.Prelude.{◌≡◌, ◌⊎◌, Bool, true, map, string_bytes, IfErr, IfOk, IsSome, Ok, OnErr};
ghost use Rattle.melt_io.specs.Outside.{Rose};
ghost use Rattle.melt_safepoint.specs.Run.{CountsFaults, CountsLends, HasRun};
ghost use Rattle.melt_safepoint.specs.Shown.{shown_by};
ghost use Rattle.melt_safepoint.specs.Writes.{CountsWrites};
ghost use Rattle.melt_model.specs.Config.{InRanges};
ghost use Rattle.melt_text.specs.Printed.{line};
ghost use Rattle.melt_trace.specs.Refusal.{IsRefusedTrace};
ghost use Rattle.melt_trace.specs.Language.{script_of};
ghost use Rattle.melt_top.specs.Command.{HasRanges, meant};
ghost use Rattle.melt_top.specs.Text.{refused_text};
ghost use Rattle.melt_top.specs.Headline.{Due, InputDue, IsUsage, MadeNone, MadeTrace, ReadAFront, RunDue, TraceDue};
ghost use Rattle.melt_top.specs.Headline.{CanBeDone, IsBuilt, IsComplete, NothingFailed, Outcome, ReadAtMost};
ghost use Rattle.melt_top.specs.Headline.{change, disk_change, readers_of, stored_by};

use crate::command::{Command, Recipe, RunOptions, command_of};
use crate::status::{Status, status_for};
use crate::text::report_text;
use melt_disk::StaleSpace;
use melt_gen::{GenRefusal, generate};
use melt_io::{Gate, ReadRefusal, Sink, Source, StaleDisk, read_all, write_all};
use melt_model::{NoMemory, Report};
use melt_pool::run_threads;
use melt_scion::Heap;
use melt_step::run_schedule;
use melt_text::push_line;
use melt_trace::{MAX_BYTES, ParseRefusal, Trace, TraceError, parse, print};
use std::alloc::Global;
use std::thread::Threads;

/// A status, and the text that is to be written with it.
#[derive(Debug, Drop)]
struct Answer {
    status: Status,
    text: Vec<u8>,
}

impl Answer {
    /// One line.
    fn line(alloc: Global, status: Status, word: &[u8], numbers: &[u64]) -> Result<Answer, NoMemory>
        ensures { IfOk result (λ answer. (answer.status ≡ status) × (answer.text.items ≡ line word.now numbers.now)) }
    {
        let mut text = Vec::new(alloc);
        push_line(&mut text, word, numbers)?;
        Ok(Answer { status, text })
    }

    fn refused(alloc: Global, error: TraceError) -> Result<Answer, NoMemory>
        ensures { IfOk result (λ answer. (answer.status ≡ Status.Trace)
            × (answer.text.items ≡ refused_text error.line error.reason)) }
    {
        let numbers = [u64::from(error.line), u64::from(error.reason)];
        Answer::line(alloc, Status::Trace, b"error trace", &numbers)
    }
}

/// In which way a trace is run.
#[derive(Clone, Copy, Debug, PartialEq, Eq)]
pub enum Way {
    /// By the written order of its events.
    Written,
    /// By real threads.
    Running,
}

/// Runs a trace in a way. The history is stored where it is to be written, which is never that of real threads.
fn run_by<X: Threads + Sync, D: StaleDisk, G: Gate + Sync>(
    rt: &X,
    alloc: Global,
    way: Way,
    run: RunOptions,
    trace: &Trace,
    space: &mut StaleSpace<'_, D>,
    gate: &G,
) -> Result<(Report, Option<Heap>), NoMemory>
    requires ranges { InRanges run.config }
    requires limit { space.old.limit ≡ run.config.disk }
    requires end { space.old.end ≡ 1 }
    ensures has_run { IfOk result (λ done. (told : Bool) → (told ≡ true → IsSome (D.image space.old.disk.now))
        → HasRun told trace.now run.config (shown_by D.image space.new) done.0 done.1) }
    ensures same_disk { space.new.disk.ghost_name ≡ space.old.disk.ghost_name }
    ensures counts { IfOk result (λ done. CountsFaults done.0 (D.faults space.old.disk.now)
        (D.faults space.new.disk.now) (D.read_faults space.old.disk.now) (D.read_faults space.new.disk.now)) }
    ensures lends { IfOk result (λ done. CountsLends (readers_of way trace.now) trace.now done.0
        (D.lends space.old.disk.now) (D.lends space.new.disk.now)) }
    ensures writes { IfOk result (λ done. CountsWrites run.config done.0.halt done.0.journal
        (D.writes space.old.disk.now) (D.writes space.new.disk.now)) }
    ensures stored { IfOk result (λ done. done.0.log ≡ stored_by way run.texts done.0.history) }
{
    match way {
        Way::Written => run_schedule(alloc, trace, run.config, space, run.texts.log),
        Way::Running => run_threads(rt, alloc, trace, run.config, space, gate),
    }
}

/// What is due for a run of a trace, over a disk whose first words it does not read.
fn run_answer<X: Threads + Sync, D: StaleDisk, G: Gate + Sync>(
    rt: &X,
    alloc: Global,
    way: Way,
    run: RunOptions,
    trace: &Trace,
    disk: &mut D,
    gate: &G,
) -> Result<Answer, NoMemory>
    requires { InRanges run.config }
    ensures { IfOk result (λ answer. RunDue way trace.now run
        (disk_change D.image D.faults D.read_faults D.lends D.writes disk.old disk.new)
        answer.status answer.text.items) }
{
    let mut space = StaleSpace::new(disk, run.config.disk);
    let (report, _heap) = run_by(rt, alloc, way, run, trace, &mut space, gate)?;
    // What the run left of the disk is known once the space has handed it back.
    let _disk = space.into_disk();
    let text = report_text(alloc, &report, run.texts)?;
    Ok(Answer {
        status: status_for(&report),
        text,
    })
}

/// Parses a text, and lets go of its memory: a run needs the trace alone.
fn parse_text(alloc: Global, text: Vec<u8>) -> Result<Trace, ParseRefusal>
    ensures found { IfOk result (λ trace. script_of text.items ≡ Ok trace) }
    ensures refused { IfErr result (IsRefusedTrace text.items) }
{
    parse(alloc, &text)
}

/// What is due for the bytes of a trace.
fn trace_answer<X: Threads + Sync, D: StaleDisk, G: Gate + Sync>(
    rt: &X,
    alloc: Global,
    way: Way,
    run: RunOptions,
    bytes: Vec<u8>,
    disk: &mut D,
    gate: &G,
) -> Result<Answer, NoMemory>
    requires { InRanges run.config }
    ensures { IfOk result (λ answer. TraceDue way run bytes.items
        (disk_change D.image D.faults D.read_faults D.lends D.writes disk.old disk.new)
        answer.status answer.text.items) }
{
    match parse_text(alloc, bytes) {
        Ok(trace) => run_answer(rt, alloc, way, run, &trace, disk, gate),
        Err(ParseRefusal::Bad(error)) => Answer::refused(alloc, error),
        Err(ParseRefusal::NoMemory) => Err(NoMemory),
    }
}

/// What is due for the input of `step` and of `run`.
fn input_answer<X: Threads + Sync, S: Source, D: StaleDisk, G: Gate + Sync>(
    rt: &X,
    alloc: Global,
    way: Way,
    run: RunOptions,
    input: &mut S,
    disk: &mut D,
    gate: &G,
) -> Result<Answer, NoMemory>
    requires { InRanges run.config }
    ensures due { IfOk result (λ answer. InputDue way run
        (change S.left S.faults input.old input.new)
        (disk_change D.image D.faults D.read_faults D.lends D.writes disk.old disk.new)
        answer.status answer.text.items) }
    ensures read { ReadAFront
        (change S.left S.faults input.old input.new) }
{
    match read_all(alloc, input, MAX_BYTES) {
        Ok(bytes) => trace_answer(rt, alloc, way, run, bytes, disk, gate),
        Err(ReadRefusal::Fault) => Answer::line(alloc, Status::ReadFault, b"error read", &[]),
        Err(ReadRefusal::TooLong) => Answer::refused(alloc, TraceError::too_long()),
        Err(ReadRefusal::NoMemory) => Err(NoMemory),
    }
}

/// What is due for a recipe. Its trace is written in the canonical form.
fn gen_answer(alloc: Global, recipe: Recipe) -> Result<Answer, NoMemory>
    requires { HasRanges (Command.Gen recipe) }
    ensures { IfOk result (λ answer. MadeNone recipe answer.status answer.text.items
        ⊎ MadeTrace recipe answer.status answer.text.items) }
{
    match generate(alloc, recipe.kind, recipe.seed, recipe.size, recipe.threads) {
        Ok(trace) => Ok(Answer {
            status: Status::Done,
            text: print(alloc, &trace)?,
        }),
        Err(GenRefusal::TooMany) => Answer::line(alloc, Status::Usage, b"error usage", &[]),
        Err(GenRefusal::NoMemory) => Err(NoMemory),
    }
}

/// What is due for the words. Only `step` and `run` read.
fn answer_to<X: Threads + Sync, S: Source, D: StaleDisk, G: Gate + Sync>(
    rt: &X,
    alloc: Global,
    words: &[String],
    input: &mut S,
    disk: &mut D,
    gate: &G,
) -> Result<Answer, NoMemory>
    ensures due { IfOk result (λ answer. Due (meant (map string_bytes words.now))
        (change S.left S.faults input.old input.new)
        (disk_change D.image D.faults D.read_faults D.lends D.writes disk.old disk.new)
        answer.status answer.text.items) }
    ensures read { OnErr result (ReadAtMost (meant (map string_bytes words.now))
        (change S.left S.faults input.old input.new)) }
{
    match command_of(alloc, words)? {
        None => Answer::line(alloc, Status::Usage, b"error usage", &[]),
        Some(Command::Step(run)) => {
            input_answer(rt, alloc, Way::Written, run, input, disk, gate)
        }
        Some(Command::Threads(run)) => {
            input_answer(rt, alloc, Way::Running, run, input, disk, gate)
        }
        Some(Command::Gen(recipe)) => gen_answer(alloc, recipe),
    }
}

/// Runs the program on the words that stand after its name, and answers how it ended. What is written
/// is made whole before the first byte of it goes out.
pub fn melt<X: Threads + Sync, S: Source, K: Sink, D: StaleDisk, G: Gate + Sync>(
    rt: &X,
    alloc: Global,
    words: &[String],
    input: &mut S,
    out: &mut K,
    disk: &mut D,
    gate: &G,
) -> Status
    ensures headline { Outcome (meant (map string_bytes words.now))
        (change S.left S.faults input.old input.new)
        (disk_change D.image D.faults D.read_faults D.lends D.writes disk.old disk.new)
        (change K.written K.faults out.old out.new)
        result }
    // Each answer by itself. Want of memory alone has no cause.
    ensures usage { result ≡ Status.Usage → IsUsage (meant (map string_bytes words.now)) }
    ensures refused { IsUsage (meant (map string_bytes words.now)) →
        (result ≡ Status.Usage) ⊎ (result ≡ Status.WriteFault) ⊎ (result ≡ Status.NoMemory) }
    ensures read_fault { result ≡ Status.ReadFault → Rose (S.faults input.old) (S.faults input.new) }
    ensures write_fault { result ≡ Status.WriteFault → Rose (K.faults out.old) (K.faults out.new) }
    ensures disk_fault { result ≡ Status.DiskFault → Rose (D.faults disk.old) (D.faults disk.new)
        ⊎ Rose (D.read_faults disk.old) (D.read_faults disk.new) }
    ensures damaged { result ≡ Status.Damaged → IsSome (D.image disk.old) → ⊥ }
    ensures no_others { IsBuilt result }
    // And where nothing failed, what can be done is done.
    ensures complete { CanBeDone (meant (map string_bytes words.now)) (change S.left S.faults input.old input.new)
        → NothingFailed (change S.left S.faults input.old input.new)
        (disk_change D.image D.faults D.read_faults D.lends D.writes disk.old disk.new)
        (change K.written K.faults out.old out.new)
        → (result ≡ Status.NoMemory) ⊎ IsComplete (meant (map string_bytes words.now)) result }
{
    let Ok(answer) = answer_to(rt, alloc, words, input, disk, gate) else {
        return Status::NoMemory;
    };
    match write_all(out, &answer.text) {
        Ok(()) => answer.status,
        Err(_) => Status::WriteFault,
    }
}
