//! The numbers that fields spell.
ghost use Rattle.std.specs.Prelude.{◌≡◌, ◌+◌, ◌-◌, ◌*◌, ◌^◌, ◌<◌, if◌then◌else◌, None, IfSome, option_and_then};
ghost use Rattle.std.specs.Char.{is_ascii_digit};
ghost use Rattle.melt_text.specs.Numbers.{number_of, spelled_from, if_word};

/// The number that this digit makes of those before it.
fn with_digit(n: u64, b: u8) -> Option<u64>
    ensures value { result ≡ (if is_ascii_digit b then if_word (10 * n + (b - 48)) else None) }
    ensures small { IfSome result (λ x. x < 2 ^ 64) }
{
    if !b.is_ascii_digit() {
        return None;
    }
    n.checked_mul(10)?.checked_add(u64::from(b - b'0'))
}

fn digits(bytes: &[u8]) -> Option<u64>
    ensures { result ≡ option_and_then if_word (spelled_from 0 bytes.now) }
{
    let mut n: u64 = 0;
    for b in bytes {
        let Some(next) = with_digit(n, *b) else {
            return None;
        };
        n = next;
    }
    Some(n)
}

/// The number that a field spells: `0`, or decimal digits of which the first is not 0, below 2^64.
pub fn read_number(field: &[u8]) -> Option<u64>
    ensures { result ≡ number_of field.now }
{
    match field {
        [] | [b'0', _, ..] => None,
        _ => digits(field),
    }
}
