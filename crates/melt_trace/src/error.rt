//! Why bytes are refused.
ghost use Rattle.std.specs.Prelude.{◌≡◌, Some};
ghost use Rattle.melt_trace.specs.Reasons.{number_of_reason};
ghost use Rattle.melt_trace.specs.Refusal.{trace_error_text, parse_refusal_text};
ghost use Rattle.melt_trace.specs.declared.error.ParseRefusal.TheVariants.{NoMemory};

use crate::reason::Reason;
use melt_model::NoMemory;
use std::alloc::AllocFailed;
use std::error::Error;
use std::fmt;

/// The first bad line of bytes that are no trace, and the number of the `Reason`. Lines are numbered from 1, and line 0
/// stands for the whole input.
#[derive(Clone, Copy, Debug, PartialEq, Eq)]
pub struct TraceError {
    pub line: u32,
    pub reason: u32,
}

impl TraceError {
    /// The whole input is refused, since it has more bytes than a trace may have.
    pub fn too_long() -> TraceError
        ensures { result ≡ record { line = 0; reason = 1 } }
    {
        TraceError::at(0, Reason::TooLong)
    }

    pub(crate) fn at(line: u32, reason: Reason) -> TraceError
        ensures { result ≡ record { line = line; reason = number_of_reason reason } }
    {
        TraceError {
            line,
            reason: reason.number(),
        }
    }
}

impl fmt::Display for TraceError {
    ghost output = { λ error. Some (trace_error_text error) };

    fn fmt<W: fmt::Write>(&self, f: &mut fmt::Formatter<W>) -> fmt::Result {
        let line = self.line;
        let number = self.reason;
        match Reason::of_number(number) {
            Some(reason) => write!(f, "line {line}, reason {number}: {reason}"),
            None => write!(f, "line {line}, reason {number}"),
        }
    }
}

impl Error for TraceError {}

/// Why bytes were not read: they are no trace, or an allocation was refused.
#[derive(Clone, Copy, Debug, PartialEq, Eq)]
pub enum ParseRefusal {
    Bad(TraceError),
    NoMemory,
}

impl fmt::Display for ParseRefusal {
    ghost output = { λ refusal. Some (parse_refusal_text refusal) };

    fn fmt<W: fmt::Write>(&self, f: &mut fmt::Formatter<W>) -> fmt::Result {
        match self {
            ParseRefusal::Bad(error) => write!(f, "{error}"),
            ParseRefusal::NoMemory => f.write_str("out of memory"),
        }
    }
}

impl Error for ParseRefusal {}

impl<T: Drop> From<AllocFailed<T>> for ParseRefusal {
    ghost from_gives = { λ _ refusal. refusal ≡ NoMemory };

    fn from(_error: AllocFailed<T>) -> ParseRefusal {
        ParseRefusal::NoMemory
    }
}

impl From<NoMemory> for ParseRefusal {
    ghost from_gives = { λ _ refusal. refusal ≡ NoMemory };

    fn from(_error: NoMemory) -> ParseRefusal {
        ParseRefusal::NoMemory
    }
}
