//! The lines of operations as `print` writes them, which is what most lines are: found by their text alone.
//!
//! A canonical line needs no search for its end, no test of each byte and no cut into fields, since the text of an
//! operation settles all of these. So a function here answers only that bytes begin with such a text, and that its
//! numbers are in range; that the text is read as its operation is proved of the grammar. `None` refuses nothing: the
//! line may still be good, and is then read field by field.
ghost use Rattle.std.specs.Prelude.{◌≡◌, ◌+◌, ◌<◌, [], ◌∷◌, ◌++◌, IfSome};
ghost use Rattle.std.specs.Fmt.{decimal};
ghost use Rattle.melt_text.specs.Printed.{line};
ghost use Rattle.melt_trace.specs.Grammar.{op_line, InRange};

use melt_model::{MAX_PARTS, Op};

/// How many registers there are.
const REGISTERS: u32 = 16;

/// An object has fewer parts of a kind than this.
const COUNTS: u32 = MAX_PARTS as u32 + 1;

/// The place of a part is below this.
const PLACES: u32 = 64;

/// Ten times this number, and a digit more, is still a `u64`.
const MOST_TENS: u64 = u64::MAX / 10 - 1;

/// A digit's value, and what stands after it.
#[inline(always)]
fn digit(bytes: &[u8]) -> Option<(u8, &[u8])>
    ensures text { IfSome result (λ x. bytes.now ≡ (48 + x.0) ∷ x.1.now) }
    ensures low { IfSome result (λ x. x.0 < 10) }
{
    match bytes {
        [b, rest @ ..] if b.is_ascii_digit() => Some((b - b'0', rest)),
        _ => None,
    }
}

/// What stands after this byte.
#[inline(always)]
fn after_byte(bytes: &[u8], byte: u8) -> Option<&[u8]>
    ensures { IfSome result (λ rest. bytes.now ≡ byte ∷ rest.now) }
{
    match bytes {
        [b, rest @ ..] if *b == byte => Some(rest),
        _ => None,
    }
}

/// A space and a number of one or two digits, below this limit, and what stands after them.
#[inline(always)]
fn small(bytes: &[u8], limit: u32) -> Option<(u8, &[u8])>
    ensures text { IfSome result (λ x. bytes.now ≡ 32 ∷ (decimal x.0 ++ x.1.now)) }
    ensures low { IfSome result (λ x. x.0 < limit) }
{
    let (first, rest) = digit(after_byte(bytes, b' ')?)?;
    match digit(rest) {
        None if u32::from(first) < limit => Some((first, rest)),
        Some((second, rest)) if first > 0 && u32::from(10 * first + second) < limit => {
            Some((10 * first + second, rest))
        }
        _ => None,
    }
}

/// A space and a number, and what stands after them.
fn large(bytes: &[u8]) -> Option<(u64, &[u8])>
    ensures { IfSome result (λ x. bytes.now ≡ 32 ∷ (decimal x.0 ++ x.1.now)) }
{
    let (first, mut rest) = digit(after_byte(bytes, b' ')?)?;
    let mut n = u64::from(first);
    while let Some((next, others)) = digit(rest) {
        // A leading zero, or a digit more than 64 bits have: no canonical number. The other way finds what is wrong.
        if n == 0 || n > MOST_TENS {
            return None;
        }
        n = 10 * n + u64::from(next);
        rest = others;
    }
    Some((n, rest))
}

/// A line's last two numbers, below these limits, and what stands after the line.
#[inline(always)]
fn two(bytes: &[u8], a: u32, b: u32) -> Option<(u8, u8, &[u8])>
    ensures text { IfSome result (λ x. bytes.now ≡ line [] (x.0 ∷ x.1 ∷ []) ++ x.2.now) }
    ensures low { IfSome result (λ x. (x.0 < a) × (x.1 < b)) }
{
    let (x, rest) = small(bytes, a)?;
    let (y, rest) = small(rest, b)?;
    Some((x, y, after_byte(rest, b'\n')?))
}

/// Three numbers, below these limits, and what stands after their line.
#[inline(always)]
fn three(bytes: &[u8], a: u32, b: u32, c: u32) -> Option<(u8, u8, u8, &[u8])>
    ensures text { IfSome result (λ x. bytes.now ≡ line [] (x.0 ∷ x.1 ∷ x.2 ∷ []) ++ x.3.now) }
    ensures low { IfSome result (λ x. (x.0 < a) × (x.1 < b) × (x.2 < c)) }
{
    let (x, rest) = small(bytes, a)?;
    let (y, z, rest) = two(rest, b, c)?;
    Some((x, y, z, rest))
}

/// `canonical_operation`, for the words with two numbers or fewer.
#[inline(always)]
fn canonical_short(bytes: &[u8], globals: u32) -> Option<(Op, &[u8])>
    ensures text { IfSome result (λ x. bytes.now ≡ op_line x.0 ++ x.1.now) }
    ensures range { IfSome result (λ x. InRange globals x.0) }
{
    match bytes {
        [b'g', b'e', b't', rest @ ..] => {
            let (src, j, rest) = two(rest, REGISTERS, PLACES)?;
            Some((Op::Get { src, j }, rest))
        }
        [b'g', b'l', b'o', b'a', b'd', rest @ ..] => {
            let (dst, g, rest) = two(rest, REGISTERS, globals)?;
            Some((Op::GLoad { dst, g }, rest))
        }
        [b'g', b's', b't', b'o', b'r', b'e', rest @ ..] => {
            let (g, src, rest) = two(rest, globals, REGISTERS)?;
            Some((Op::GStore { g, src }, rest))
        }
        [b's', b'a', b'm', b'e', rest @ ..] => {
            let (a, b, rest) = two(rest, REGISTERS, REGISTERS)?;
            Some((Op::Same { a, b }, rest))
        }
        [b'c', b'o', b'p', b'y', rest @ ..] => {
            let (dst, src, rest) = two(rest, REGISTERS, REGISTERS)?;
            Some((Op::Copy { dst, src }, rest))
        }
        [b'd', b'r', b'o', b'p', rest @ ..] => {
            let (r, rest) = small(rest, REGISTERS)?;
            Some((Op::Drop { r }, after_byte(rest, b'\n')?))
        }
        [b'c', b'o', b'l', b'l', b'e', b'c', b't', b'\n', rest @ ..] => Some((Op::Collect, rest)),
        _ => None,
    }
}

/// The operation whose canonical line the bytes begin with, among this many globals, and what stands after the line.
#[inline(always)]
pub fn canonical_operation(bytes: &[u8], globals: u32) -> Option<(Op, &[u8])>
    ensures text { IfSome result (λ x. bytes.now ≡ op_line x.0 ++ x.1.now) }
    ensures range { IfSome result (λ x. InRange globals x.0) }
{
    match bytes {
        [b'p', b'u', b't', rest @ ..] => {
            let (obj, rest) = small(rest, REGISTERS)?;
            let (j, rest) = small(rest, PLACES)?;
            let (v, rest) = large(rest)?;
            Some((Op::Put { obj, j, v }, after_byte(rest, b'\n')?))
        }
        [b'n', b'e', b'w', rest @ ..] => {
            let (dst, refs, nums, rest) = three(rest, REGISTERS, COUNTS, COUNTS)?;
            Some((Op::New { dst, refs, nums }, rest))
        }
        [b'l', b'o', b'a', b'd', rest @ ..] => {
            let (dst, src, i, rest) = three(rest, REGISTERS, REGISTERS, PLACES)?;
            Some((Op::Load { dst, src, i }, rest))
        }
        [b's', b't', b'o', b'r', b'e', rest @ ..] => {
            let (obj, i, src, rest) = three(rest, REGISTERS, PLACES, REGISTERS)?;
            Some((Op::Store { obj, i, src }, rest))
        }
        _ => canonical_short(bytes, globals),
    }
}
