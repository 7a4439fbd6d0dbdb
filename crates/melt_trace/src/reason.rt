//! The reasons to refuse a trace.
ghost use Rattle.std.specs.Prelude.{◌≡◌, Some, IfSome};
ghost use Rattle.melt_trace.specs.declared.reason.Reason.{Reason};
ghost use Rattle.melt_trace.specs.Reasons.{number_of_reason, reason_of_number, reason_text};

use std::error::Error;
use std::fmt;

/// What is wrong with a line of a trace, or with the whole of it. Each has the number that `docs/TRACES.md` lists.
#[derive(Clone, Copy, Debug, PartialEq, Eq)]
pub enum Reason {
    TooLong = 1,
    BadByte,
    NoVersion,
    NoThreads,
    NoGlobals,
    OutOfPlace,
    FieldCount,
    NoNumber,
    NoRegister,
    OutOfRange,
    TooDeep,
    EmptyBlock,
    ManyOperations,
    EndsEarly,
}

impl Reason {
    /// From 1 to 14.
    pub fn number(self) -> u32
        ensures { result ≡ number_of_reason self }
    {
        self as u32
    }

    /// The reason that has this number.
    pub fn of_number(number: u32) -> Option<Reason>
        ensures value { result ≡ reason_of_number number }
        ensures number { IfSome result (λ reason. number_of_reason reason ≡ number) }
        ensures back { (reason : Reason) → number_of_reason reason ≡ number → result ≡ Some reason }
    {
        match number {
            1 => Some(Reason::TooLong),
            2 => Some(Reason::BadByte),
            3 => Some(Reason::NoVersion),
            4 => Some(Reason::NoThreads),
            5 => Some(Reason::NoGlobals),
            6 => Some(Reason::OutOfPlace),
            7 => Some(Reason::FieldCount),
            8 => Some(Reason::NoNumber),
            9 => Some(Reason::NoRegister),
            10 => Some(Reason::OutOfRange),
            11 => Some(Reason::TooDeep),
            12 => Some(Reason::EmptyBlock),
            13 => Some(Reason::ManyOperations),
            14 => Some(Reason::EndsEarly),
            _ => None,
        }
    }
}

impl fmt::Display for Reason {
    ghost output = { λ reason. Some (reason_text reason) };

    fn fmt<W: fmt::Write>(&self, f: &mut fmt::Formatter<W>) -> fmt::Result {
        f.write_str(match self {
            Reason::TooLong => "the trace has more than 16777216 bytes: make it shorter",
            Reason::BadByte => {
                "the line has a byte that may not stand in it: spaces and the visible characters of ASCII may"
            }
            Reason::NoVersion =>
                "the first line, blank lines and comments aside, has to be: melt 1",
            Reason::NoThreads => {
                "the second line, blank lines and comments aside, has to be: threads N, with N from 1 to 8"
            }
            Reason::NoGlobals => {
                "the third line, blank lines and comments aside, has to be: globals N, with N from 0 to 64"
            }
            Reason::OutOfPlace => {
                "the first field is no word of the language, or its line may not stand here: move it, or mend the word"
            }
            Reason::FieldCount =>
                "there is a field too few or too many for the first word of the line",
            Reason::NoNumber => {
                "a field has to be a number: digits, no sign, no leading zero, at most 18446744073709551615"
            }
            Reason::NoRegister => "a register is named above 15: name one from 0 to 15",
            Reason::OutOfRange =>
                "a number is out of its range: docs/TRACES.md has the range of each",
            Reason::TooDeep =>
                "a repeat stands in four open blocks: let blocks be at most four deep",
            Reason::EmptyBlock => {
                "the block that this end closes has no operation: put one into it, or take it out"
            }
            Reason::ManyOperations => {
                "by this done the operations, with each block written out, are more than 1048576: take some out"
            }
            Reason::EndsEarly =>
                "the trace ends before the done of its last thread: write what is missing",
        })
    }
}

impl Error for Reason {}
