//! The fields of a line after its first one.
ghost use Rattle.melt_text.specs.Lines.{fields_of};
ghost use Rattle.melt_trace.specs.Parsing.{AreArguments};

use melt_text::next_field;

/// The fields of a line after its first one.
#[derive(Drop)]
pub enum Arguments<'a> {
    None,
    One(&'a [u8]),
    Two(&'a [u8], &'a [u8]),
    Three(&'a [u8], &'a [u8], &'a [u8]),
    /// Four or more: no line has so many.
    Many,
}

/// The fields of what stands after the first one of a line.
pub fn other_fields(bytes: &[u8]) -> Arguments<'_>
    ensures { AreArguments result (fields_of bytes.now) }
{
    let Some((first, rest)) = next_field(bytes) else {
        return Arguments::None;
    };
    let Some((second, rest)) = next_field(rest) else {
        return Arguments::One(first);
    };
    let Some((third, rest)) = next_field(rest) else {
        return Arguments::Two(first, second);
    };
    match next_field(rest) {
        None => Arguments::Three(first, second, third),
        Some(_) => Arguments::Many,
    }
}
