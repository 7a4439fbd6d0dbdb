//! The parser of whole traces.
ghost use Rattle.std.specs.Prelude.{◌≡◌, ◌<◌, length, Ok, IfOk, IfErr};
ghost use Rattle.melt_trace.specs.Language.{script_of};
ghost use Rattle.melt_trace.specs.Drafts.{place_of, IsSoundDraft, TakesLine};
ghost use Rattle.melt_trace.specs.Refusal.{IsRefusedTrace};

mod canonical;
mod draft;
mod fault;
mod fields;
mod line;
mod numbers;
mod operations;
mod words;

use crate::error::{ParseRefusal, TraceError};
use crate::language::Expected;
use crate::parser::canonical::canonical_operation;
use crate::parser::draft::Draft;
use crate::parser::fault::Fault;
use crate::parser::line::take_line;
use crate::reason::Reason;
use crate::trace::Trace;
use melt_text::next_line;
use std::alloc::Global;

/// The most bytes that a trace may have.
pub const MAX_BYTES: usize = 16_777_216;

/// Takes the first line, where there is a byte, and answers what stands after it.
#[inline(always)]
fn take_next<'a>(draft: &mut Draft, alloc: Global, bytes: &'a [u8]) -> Result<&'a [u8], Fault>
    requires sound { IsSoundDraft draft.old }
    requires some { 0 < length bytes.now }
    ensures { TakesLine (λ rest. rest.now) result bytes.now draft.old draft.new }
{
    // Only within a program: elsewhere the same text is out of place, and the other way has the reason.
    if matches!(draft.stage, Expected::Inside)
        && let Some((op, rest)) = canonical_operation(bytes, draft.globals)
    {
        draft.operation(op)?;
        return Ok(rest);
    }
    let (line, rest) = next_line(bytes);
    take_line(draft, alloc, line)?;
    Ok(rest)
}

/// What the lines of the bytes say.
fn read_lines(alloc: Global, bytes: &[u8]) -> Result<Draft, ParseRefusal>
    ensures found { IfOk result (λ draft. script_of bytes.now ≡ Ok (place_of draft).script) }
    ensures refused { IfErr result (IsRefusedTrace bytes.now) }
{
    // Before any line is looked at, so that what is wrong does not hang on where reading stopped.
    if bytes.len() > MAX_BYTES {
        return Err(ParseRefusal::Bad(TraceError::too_long()));
    }
    let mut draft = Draft::empty(alloc, Expected::Version, 0, 0);
    let mut rest = bytes;
    let mut line: u32 = 1;
    while !rest.is_empty() {
        rest = match take_next(&mut draft, alloc, rest) {
            Ok(after) => after,
            Err(Fault::Bad(reason)) => return Err(ParseRefusal::Bad(TraceError::at(line, reason))),
            Err(Fault::NoMemory) => return Err(ParseRefusal::NoMemory),
        };
        line += 1;
    }
    if matches!(draft.stage, Expected::Over) {
        Ok(draft)
    } else {
        Err(ParseRefusal::Bad(TraceError::at(line, Reason::EndsEarly)))
    }
}

/// The trace that the bytes are, or the first bad line and the reason. Takes at most `MAX_BYTES` of them.
pub fn parse(alloc: Global, bytes: &[u8]) -> Result<Trace, ParseRefusal>
    ensures found { IfOk result (λ trace. script_of bytes.now ≡ Ok trace) }
    ensures refused { IfErr result (IsRefusedTrace bytes.now) }
{
    let draft = read_lines(alloc, bytes)?;
    Ok(draft.into_trace())
}
