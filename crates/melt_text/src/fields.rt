//! The fields of a line.
ghost use Rattle.std.specs.Prelude.{◌≡◌, ◌==◌, not, [], ◌∷◌, position, MatchOption};
ghost use Rattle.std.specs.List.{list_all};
ghost use Rattle.melt_text.specs.Lines.{fields_of, is_printable};

use crate::lines::place;

/// Whether each byte is one from 32 to 126.
pub fn is_printable_line(bytes: &[u8]) -> bool
    ensures { result ≡ list_all is_printable bytes.now }
{
    // (each byte is looked at, so that many are at once)
    bytes
        .iter()
        .fold(true, |all, b| all & (32..=126).contains(b))
}

/// Where the first byte that is no space stands.
fn start(bytes: &[u8]) -> Option<usize>
    ensures { result ≡ position (λ b. not (b == 32)) bytes.now }
{
    for (place, byte) in bytes.iter().enumerate() {
        if *byte != b' ' {
            return Some(place);
        }
    }
    None
}

/// The first field, and what stands after it.
pub fn next_field(bytes: &[u8]) -> Option<(&[u8], &[u8])>
    ensures { MatchOption result (fields_of bytes.now ≡ []) (λ x. fields_of bytes.now ≡ x.0.now ∷ fields_of x.1.now) }
{
    let Some(start) = start(bytes) else {
        return None;
    };
    let field = &bytes[start..];
    match place(field, b' ') {
        Some(end) => Some((&field[..end], &field[end + 1..])),
        None => Some((field, &field[field.len()..])),
    }
}
