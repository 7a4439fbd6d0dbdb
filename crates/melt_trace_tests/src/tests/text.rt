use melt_same::same;
use melt_text::{is_printable_line, next_field, next_line, push_line, read_number};
use std::test::Fail;

#[test]
fn each_line_ends_where_a_newline_stands() -> Result<(), Fail> {
    let text = b"one\n\n two ".as_slice();
    let (first, rest) = next_line(text);
    same(first, b"one".as_slice())?;
    let (second, rest) = next_line(rest);
    same(second, b"".as_slice())?;
    let (third, rest) = next_line(rest);
    same((third, rest), (b" two ".as_slice(), b"".as_slice()))
}

#[test]
fn a_field_has_no_space() -> Result<(), Fail> {
    let line = b"  put 3 ".as_slice();
    let Some((first, rest)) = next_field(line) else {
        return Err(Fail::new(format_args!("no field")));
    };
    same((first, rest), (b"put".as_slice(), b"3 ".as_slice()))?;
    same(next_field(b"  "), None)
}

#[test]
fn a_number_has_one_spelling() -> Result<(), Fail> {
    same(read_number(b"18446744073709551615"), Some(u64::MAX))?;
    same(read_number(b"0"), Some(0))?;
    let refused = [
        b"".as_slice(),
        b"00",
        b"01",
        b"+1",
        b"1 ",
        b"18446744073709551616",
    ];
    for text in refused {
        same((text, read_number(text)), (text, None))?;
    }
    Ok(())
}

#[test]
fn a_line_is_a_word_and_numbers(rt: HostRuntime) -> Result<(), Fail> {
    let mut text = Vec::new(rt.alloc());
    push_line(&mut text, b"order", &[0, 7, u64::MAX])?;
    push_line(&mut text, b"done", &[])?;
    same(
        text.as_slice(),
        b"order 0 7 18446744073709551615\ndone\n".as_slice(),
    )?;
    same(is_printable_line(b" ~"), true)?;
    same(is_printable_line(b"\x1f"), false)?;
    same(is_printable_line(b"\x7f"), false)
}
