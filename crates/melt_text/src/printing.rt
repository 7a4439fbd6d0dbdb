//! Lines of a word and numbers.
ghost use Rattle.std.specs.Prelude.{◌≡◌, ◌++◌, ◌∷◌, OnOk};
ghost use Rattle.std.specs.Fmt.{decimal};
ghost use Rattle.melt_text.specs.Printed.{line};

use itoa::Buffer;
use melt_model::NoMemory;

fn push_number(out: &mut Vec<u8>, number: u64) -> Result<(), NoMemory>
    ensures { OnOk result (out.new.items ≡ out.old.items ++ (32 ∷ decimal number)) }
{
    let mut buffer = Buffer::new();
    out.push(b' ')?;
    out.extend_from_slice(buffer.format(number).as_bytes())?;
    Ok(())
}

/// Adds a line: a word, and numbers after it.
pub fn push_line(out: &mut Vec<u8>, word: &[u8], numbers: &[u64]) -> Result<(), NoMemory>
    ensures { OnOk result (out.new.items ≡ out.old.items ++ line word.now numbers.now) }
{
    out.extend_from_slice(word)?;
    for number in numbers {
        push_number(out, *number)?;
    }
    out.push(b'\n')?;
    Ok(())
}
