//! The lines of a text.
ghost use Rattle.std.specs.Prelude.{◌≡◌, ◌==◌, ◌<◌, ◌∷◌, length, position};
ghost use Rattle.melt_text.specs.Lines.{lines_of};

use memchr::memchr;

/// Where the first byte of this value stands.
pub(crate) fn place(bytes: &[u8], byte: u8) -> Option<usize>
    ensures { result ≡ position (λ b. b == byte) bytes.now }
{
    for (place, other) in bytes.iter().enumerate() {
        if *other == byte {
            return Some(place);
        }
    }
    None
}

/// The first line, where there is a byte, and what stands after it.
pub fn next_line(bytes: &[u8]) -> (&[u8], &[u8])
    requires { 0 < length bytes.now }
    ensures line { lines_of bytes.now ≡ result.0.now ∷ lines_of result.1.now }
    ensures shorter { length result.1.now < length bytes.now }
{
    // (other than a field, a line is mostly long enough to look at many bytes at once)
    match memchr(b'\n', bytes) {
        Some(end) => (&bytes[..end], &bytes[end + 1..]),
        None => (bytes, &bytes[bytes.len()..]),
    }
}
