//! The numbers among the words after a command.
ghost use Rattle.std.specs.Prelude.{◌≡◌, None, Some, IfOk, OnErr};
ghost use Rattle.melt_text.specs.Numbers.{number_of};
ghost use Rattle.melt_bench.specs.Words.{within_word};

use anyhow::{Context, Result};
use melt_text::read_number;

/// The number that a text spells, if it is small enough.
pub fn number_in(text: &str) -> Option<u32>
    ensures { result ≡ within_word (number_of text.now) }
{
    u32::try_from(read_number(text.as_bytes())?).ok()
}

/// The number that a word spells which has to be one.
pub fn number(word: &str) -> Result<u32>
    ensures spelled { IfOk result (λ n. within_word (number_of word.now) ≡ Some n) }
    ensures refused { OnErr result (within_word (number_of word.now) ≡ None) }
{
    number_in(word).context(format_args!("{word:?} is no number below 2^32"))
}
