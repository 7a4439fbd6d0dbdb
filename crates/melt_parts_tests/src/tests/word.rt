ghost use Rattle.melt_word.specs.Words.{IsHeader};

use melt_same::same;
use melt_word::{
    BadHeader, BadHome, BadWord, Header, HomeWord, MAX_ADDRESS, Ref, Shape, cost, decode_header,
    decode_home, decode_ref, encode_header, encode_home, encode_ref, forwarded_to, held_word,
    reference_of, shape_of,
};
use std::fmt::InlineText;
use std::test::Fail;

#[test]
fn words_of_references() -> Result<(), Fail> {
    let encoded = [
        encode_ref(Ref::Null),
        encode_ref(Ref::Clean(1)),
        encode_ref(Ref::Stale(1)),
        encode_ref(Ref::Disk(1)),
    ];
    same(encoded, [0, 4, 5, 7])?;
    let decoded = [
        decode_ref(0),
        decode_ref(2),
        decode_ref(4),
        decode_ref(5),
        decode_ref(7),
    ];
    let (null, bad, clean) = (Ok(Ref::Null), Err(BadWord), Ok(Ref::Clean(1)));
    let (stale, disk) = (Ok(Ref::Stale(1)), Ok(Ref::Disk(1)));
    same(decoded, [null, bad, clean, stale, disk])?;
    let references = [
        reference_of(0),
        reference_of(4),
        reference_of(5),
        reference_of(17_179_869_183),
    ];
    let last = Ref::Disk(u32::MAX);
    same(references, [Ref::Null, Ref::Clean(1), Ref::Stale(1), last])
}

#[test]
fn words_of_registers() -> Result<(), Fail> {
    let words = [held_word(0), held_word(1), held_word(MAX_ADDRESS)];
    same(words, [0, 4, 4_294_967_292])
}

/// Fails where a header has another word, or the word is read otherwise.
fn same_header(header: Header, word: u64) -> Result<(), Fail>
    requires { IsHeader header }
{
    same(encode_header(header), word)?;
    same(decode_header(word), Ok(header))?;
    same(shape_of(word), header.shape)
}

#[test]
fn words_of_headers() -> Result<(), Fail> {
    let shape = Shape { refs: 0, nums: 1 };
    same(cost(shape), 3)?;
    for (stale, word) in [(false, 65_537), (true, 65_539)] {
        same_header(Header { shape, stale }, word)?;
    }
    let shape = Shape { refs: 62, nums: 62 };
    let header = Header { shape, stale: true };
    same_header(header, 4_079_107)?;
    let largest = encode_header(header);
    let forwarded = [
        forwarded_to(largest),
        forwarded_to(encode_ref(Ref::Clean(MAX_ADDRESS))),
    ];
    same(forwarded, [None, Some(MAX_ADDRESS)])
}

#[test]
fn words_of_homes() -> Result<(), Fail> {
    let home = Some(HomeWord { home: 1, scion: 1 });
    same([encode_home(None), encode_home(home)], [0, 4_294_967_300])?;
    let decoded = [decode_home(0), decode_home(4_294_967_300)];
    same(decoded, [Ok(None), Ok(home)])
}

#[test]
fn texts_of_errors() -> Result<(), Fail> {
    same(InlineText::<32>::of(BadWord).as_str(), "bad reference word")?;
    same(InlineText::<32>::of(BadHeader).as_str(), "bad header word")?;
    same(InlineText::<32>::of(BadHome).as_str(), "bad home word")
}
