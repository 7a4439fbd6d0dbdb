//! One line in its place.
ghost use Rattle.std.specs.Prelude.{◌≡◌, ℕ, List, ◌∷◌, true};
ghost use Rattle.melt_trace.specs.Language.{after, after_fields, has_open, fits, fits_inside};
ghost use Rattle.melt_trace.specs.Parsing.{AreArguments, after_arguments};
ghost use Rattle.melt_trace.specs.Drafts.{place_of, IsSoundDraft, LeadsTo};

use crate::language::{Expected, Word};
use crate::parser::draft::Draft;
use crate::parser::fault::Fault;
use crate::parser::fields::{Arguments, other_fields};
use crate::parser::numbers::{Limits, heading, none, one, two};
use crate::parser::operations::operation;
use crate::parser::words::word;
use crate::reason::Reason;
use melt_text::{is_printable_line, next_field};
use std::alloc::Global;

const MAX_THREADS: u64 = 8;

const MAX_GLOBALS: u64 = 64;

/// Whether a block is open.
fn has_block(draft: &Draft) -> bool
    ensures { result ≡ has_open (place_of draft.now).blocks }
{
    !draft.blocks.is_empty()
}

/// Whether a line with this word may stand in a program that is open.
fn may_stand_inside(draft: &Draft, word: Word) -> bool
    ensures { result ≡ fits_inside word (place_of draft.now).blocks }
{
    match word {
        Word::End => has_block(draft),
        Word::Done => !has_block(draft),
        Word::Thread | Word::Order => false,
        _ => true,
    }
}

/// Whether a line with this word may stand here.
fn may_stand(draft: &Draft, word: Word) -> bool
    ensures { result ≡ fits draft.now.stage (place_of draft.now).blocks word }
{
    match draft.stage {
        Expected::Orders => matches!(word, Word::Order | Word::Thread),
        Expected::Between => matches!(word, Word::Thread),
        Expected::Inside => may_stand_inside(draft, word),
        _ => false,
    }
}

/// Takes a line with this word, which may stand here.
fn take_word(
    draft: &mut Draft,
    alloc: Global,
    word: Word,
    arguments: &Arguments<'_>,
) -> Result<(), Fault>
    requires sound { IsSoundDraft draft.old }
    requires fits { fits draft.old.stage (place_of draft.old).blocks word ≡ true }
    ensures { (fields : List (List ℕ)) → AreArguments arguments.now fields
        → LeadsTo result draft.new (after_arguments (place_of draft.old) word fields) }
{
    match word {
        Word::Repeat => {
            let times = one(arguments, Limits::COUNT)?;
            draft.repeat(times as u32)
        }
        Word::End => {
            none(arguments)?;
            draft.end()
        }
        Word::Done => {
            none(arguments)?;
            draft.done(alloc)
        }
        Word::Thread => {
            let _thread = one(arguments, Limits::only(draft.programs.len() as u64))?;
            let threads = draft.threads;
            draft.restart(Expected::Inside, threads);
            Ok(())
        }
        Word::Order => {
            let (thread, events) = two(arguments, Limits::thread(draft.threads), Limits::COUNT)?;
            draft.order(thread as u32, events as u32)
        }
        _ => {
            let op = operation(word, draft.globals, arguments)?;
            draft.operation(op)
        }
    }
}

/// Takes a line with these fields.
fn take_fields(
    draft: &mut Draft,
    alloc: Global,
    first: &[u8],
    arguments: &Arguments<'_>,
) -> Result<(), Fault>
    requires { IsSoundDraft draft.old }
    ensures { (fields : List (List ℕ)) → AreArguments arguments.now fields
        → LeadsTo result draft.new (after_fields (place_of draft.old) draft.old.stage (first.now ∷ fields)) }
{
    match draft.stage {
        Expected::Version => {
            let limits = Limits {
                low: 1,
                high: 1,
                reason: Reason::NoVersion,
            };
            let _version = heading(first, arguments, b"melt", limits)?;
            draft.restart(Expected::Threads, 0);
            Ok(())
        }
        Expected::Threads => {
            let limits = Limits {
                low: 1,
                high: MAX_THREADS,
                reason: Reason::NoThreads,
            };
            let threads = heading(first, arguments, b"threads", limits)?;
            draft.restart(Expected::Globals, threads as u32);
            Ok(())
        }
        Expected::Globals => {
            let limits = Limits {
                low: 0,
                high: MAX_GLOBALS,
                reason: Reason::NoGlobals,
            };
            let globals = heading(first, arguments, b"globals", limits)?;
            *draft = Draft::empty(alloc, Expected::Orders, draft.threads, globals as u32);
            Ok(())
        }
        _ => match word(first) {
            Some(word) if may_stand(draft, word) => take_word(draft, alloc, word, arguments),
            _ => Err(Fault::Bad(Reason::OutOfPlace)),
        },
    }
}

/// Takes a line.
pub fn take_line(draft: &mut Draft, alloc: Global, line: &[u8]) -> Result<(), Fault>
    requires { IsSoundDraft draft.old }
    ensures { LeadsTo result draft.new (after (place_of draft.old) line.now) }
{
    // Before comments are skipped: a byte that is no text is refused there too.
    if !is_printable_line(line) {
        return Err(Fault::Bad(Reason::BadByte));
    }
    match next_field(line) {
        None | Some(([b'#', ..], _)) => Ok(()),
        Some((first, rest)) => take_fields(draft, alloc, first, &other_fields(rest)),
    }
}
