//! The words of a line.
ghost use Rattle.std.specs.Prelude.{◌≡◌};
ghost use Rattle.std.specs.Str.{bytes_eq};
ghost use Rattle.melt_trace.specs.Language.{word_of};

use crate::language::Word;

/// Whether the field is this text.
pub fn is(field: &[u8], text: &[u8]) -> bool
    ensures { result ≡ bytes_eq field.now text.now }
{
    field == text
}

/// The word that a line's first field is, if it is one.
pub fn word(field: &[u8]) -> Option<Word>
    ensures { result ≡ word_of field.now }
{
    if is(field, b"new") {
        Some(Word::New)
    } else if is(field, b"load") {
        Some(Word::Load)
    } else if is(field, b"store") {
        Some(Word::Store)
    } else if is(field, b"get") {
        Some(Word::Get)
    } else if is(field, b"put") {
        Some(Word::Put)
    } else if is(field, b"gload") {
        Some(Word::GLoad)
    } else if is(field, b"gstore") {
        Some(Word::GStore)
    } else if is(field, b"same") {
        Some(Word::Same)
    } else if is(field, b"copy") {
        Some(Word::Copy)
    } else if is(field, b"drop") {
        Some(Word::Drop)
    } else if is(field, b"collect") {
        Some(Word::Collect)
    } else if is(field, b"repeat") {
        Some(Word::Repeat)
    } else if is(field, b"end") {
        Some(Word::End)
    } else if is(field, b"done") {
        Some(Word::Done)
    } else if is(field, b"thread") {
        Some(Word::Thread)
    } else if is(field, b"order") {
        Some(Word::Order)
    } else {
        None
    }
}
