//! The numbers of a line, each in its range.
ghost use Rattle.std.specs.Prelude.{◌≡◌, ◌≤◌, ◌-◌, ℕ, List, [], ◌∷◌, IfOk};
ghost use Rattle.melt_text.specs.Numbers.{number_of};
ghost use Rattle.melt_trace.specs.Language.{checked, numbers, from_to, global, heading};
ghost use Rattle.melt_trace.specs.Reasons.{number_of_reason};
ghost use Rattle.melt_trace.specs.Parsing.{AreArguments, Gives, range_of};

use crate::parser::fields::Arguments;
use crate::parser::words::is;
use crate::reason::Reason;
use melt_model::MAX_PARTS;
use melt_text::read_number;

/// What a number may be, and the reason to refuse another.
#[derive(Clone, Copy)]
pub struct Limits {
    pub low: u64,
    pub high: u64,
    pub reason: Reason,
}

impl Limits {
    pub const REGISTER: Limits = Limits {
        low: 0,
        high: 15,
        reason: Reason::NoRegister,
    };

    /// How many parts of a kind an object has.
    pub const PARTS: Limits = Limits {
        low: 0,
        high: MAX_PARTS as u64,
        reason: Reason::OutOfRange,
    };

    /// Which part of an object it is.
    pub const PART: Limits = Limits {
        low: 0,
        high: 63,
        reason: Reason::OutOfRange,
    };

    pub const WORD: Limits = Limits {
        low: 0,
        high: u64::MAX,
        reason: Reason::OutOfRange,
    };

    /// How often a block stands, and how many events a turn has.
    pub const COUNT: Limits = Limits {
        low: 1,
        high: 1_048_576,
        reason: Reason::OutOfRange,
    };

    /// This number alone.
    pub fn only(n: u64) -> Limits
        ensures { range_of result ≡ from_to n n }
    {
        Limits {
            low: n,
            high: n,
            reason: Reason::OutOfRange,
        }
    }

    /// One of so many threads.
    pub fn thread(threads: u32) -> Limits
        ensures range { range_of result ≡ from_to 0 (threads - 1) }
        ensures high { result.high ≤ threads }
    {
        Limits {
            low: 0,
            high: u64::from(threads.saturating_sub(1)),
            reason: Reason::OutOfRange,
        }
    }

    /// A global, of which there are this many.
    pub fn global(globals: u32) -> Limits
        ensures range { range_of result ≡ global globals }
        ensures high { result.high ≤ globals }
    {
        let (low, high) = match globals {
            // No number is in the range of no globals.
            0 => (1, 0),
            _ => (0, u64::from(globals) - 1),
        };
        Limits {
            low,
            high,
            reason: Reason::OutOfRange,
        }
    }
}

/// The number that the field spells, in its range.
fn number_in(limits: Limits, field: &[u8]) -> Result<u64, Reason>
    ensures value { Gives (λ n. n) result (checked (range_of limits) (number_of field.now)) }
    ensures within { IfOk result (λ n. (limits.low ≤ n) × (n ≤ limits.high)) }
{
    match read_number(field) {
        None => Err(Reason::NoNumber),
        Some(n) if limits.low <= n && n <= limits.high => Ok(n),
        Some(_) => Err(limits.reason),
    }
}

/// No numbers.
pub fn none(arguments: &Arguments<'_>) -> Result<(), Reason>
    ensures { (fields : List (List ℕ)) → AreArguments arguments.now fields
        → Gives (λ _. []) result (numbers [] fields) }
{
    match arguments {
        Arguments::None => Ok(()),
        _ => Err(Reason::FieldCount),
    }
}

/// One number.
pub fn one(arguments: &Arguments<'_>, a: Limits) -> Result<u64, Reason>
    ensures value { (fields : List (List ℕ)) → AreArguments arguments.now fields
        → Gives (λ x. x ∷ []) result (numbers (range_of a ∷ []) fields) }
    ensures within { IfOk result (λ x. (a.low ≤ x) × (x ≤ a.high)) }
{
    match arguments {
        Arguments::One(x) => number_in(a, x),
        _ => Err(Reason::FieldCount),
    }
}

/// Two numbers.
pub fn two(arguments: &Arguments<'_>, a: Limits, b: Limits) -> Result<(u64, u64), Reason>
    ensures value { (fields : List (List ℕ)) → AreArguments arguments.now fields
        → Gives (λ x. x.0 ∷ x.1 ∷ []) result (numbers (range_of a ∷ range_of b ∷ []) fields) }
    ensures within { IfOk result (λ x. (x.0 ≤ a.high) × (x.1 ≤ b.high)) }
{
    match arguments {
        Arguments::Two(x, y) => Ok((number_in(a, x)?, number_in(b, y)?)),
        _ => Err(Reason::FieldCount),
    }
}

/// Three numbers.
pub fn three(
    arguments: &Arguments<'_>,
    a: Limits,
    b: Limits,
    c: Limits,
) -> Result<(u64, u64, u64), Reason>
    ensures value { (fields : List (List ℕ)) → AreArguments arguments.now fields
        → Gives (λ x. x.0 ∷ x.1 ∷ x.2 ∷ []) result (numbers (range_of a ∷ range_of b ∷ range_of c ∷ []) fields) }
    ensures within { IfOk result (λ x. (x.0 ≤ a.high) × (x.1 ≤ b.high) × (x.2 ≤ c.high)) }
{
    match arguments {
        Arguments::Three(x, y, z) => Ok((number_in(a, x)?, number_in(b, y)?, number_in(c, z)?)),
        _ => Err(Reason::FieldCount),
    }
}

/// The number of one of the first three lines, which has this text before it.
pub fn heading(
    first: &[u8],
    arguments: &Arguments<'_>,
    text: &[u8],
    limits: Limits,
) -> Result<u64, Reason>
    ensures value { (fields : List (List ℕ)) → AreArguments arguments.now fields
        → Gives (λ n. n) result (heading text.now limits.low limits.high (number_of_reason limits.reason)
        (first.now ∷ fields)) }
    ensures within { IfOk result (λ n. (limits.low ≤ n) × (n ≤ limits.high)) }
{
    let Arguments::One(field) = arguments else {
        return Err(limits.reason);
    };
    if !is(first, text) {
        return Err(limits.reason);
    }
    match read_number(field) {
        Some(n) if limits.low <= n && n <= limits.high => Ok(n),
        _ => Err(limits.reason),
    }
}
