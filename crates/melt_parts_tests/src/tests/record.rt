use melt_record::{Damaged, Head, Kind, decode_head, decode_rest, encode_body, encode_stub};
use melt_same::same;
use melt_word::Shape;
use std::fmt::InlineText;
use std::test::Fail;

const SHAPE: Shape = Shape { refs: 0, nums: 1 };

fn damaged(at: u32, word: u64) -> Damaged {
    Damaged { home: 1, at, word }
}

#[test]
fn words_of_a_body() -> Result<(), Fail> {
    let mut out = [9; 3];
    encode_body(1, SHAPE, &[7], &mut out);
    let head = Head {
        shape: SHAPE,
        kind: Kind::Body,
    };
    let found = decode_head(1, 4, [4_295_032_833, 0]);
    same((out, found), ([4_295_032_833, 0, 7], Ok(head)))
}

#[test]
fn words_of_a_stub() -> Result<(), Fail> {
    let mut out = [7; 2];
    encode_stub(1, SHAPE, 1, &mut out);
    let head = Head {
        shape: SHAPE,
        kind: Kind::Stub { scion: 1 },
    };
    let found = decode_head(1, 4, [4_295_032_834, 1]);
    same((out, found), ([4_295_032_834, 1], Ok(head)))
}

#[test]
fn heads_that_are_refused() -> Result<(), Fail> {
    for (end, words, at) in [
        (3, [4_295_032_833, 0], 0),
        (4, [0, 0], 0),
        (4, [4_295_032_835, 0], 0),
        (100, [4_295_048_961, 0], 0),
        (100, [8_590_000_129, 0], 0),
        (4, [4_295_098_369, 0], 0),
        (4, [4_295_032_833, 5], 1),
        (4, [4_295_032_834, 0], 1),
    ] {
        let word = if at == 0 { words[0] } else { words[1] };
        let found = decode_head(1, end, words);
        same((word, found), (word, Err(damaged(at, word))))?;
    }
    Ok(())
}

#[test]
fn slots_of_a_body() -> Result<(), Fail> {
    let one_ref = Shape { refs: 1, nums: 0 };
    let shape = Shape { refs: 2, nums: 1 };
    let found = [
        decode_rest(1, 4, one_ref, &[4]),
        decode_rest(1, 4, shape, &[0, 15, 4]),
        decode_rest(1, 4, shape, &[7, 4, 0]),
        decode_rest(1, 4, shape, &[7, 19, 0]),
    ];
    let (first, second, third) = (damaged(2, 4), damaged(3, 4), damaged(3, 19));
    same(found, [Err(first), Ok(()), Err(second), Err(third)])
}

#[test]
fn text_of_damage() -> Result<(), Fail> {
    same(
        InlineText::<64>::of(damaged(3, 19)).as_str(),
        "record of home 1 is damaged at word 3: 19",
    )
}
