//! Header words: the word of each object that holds its shape, and its cost.
ghost use Rattle.std.specs.Prelude.{◌≡◌, ◌≢◌, IfOk, OnErr};
ghost use Rattle.melt_word.specs.Words.{IsHeader, cost_of, header_word};
ghost use Rattle.melt_word.specs.declared.header.Header.{Header};

use melt_model::MAX_PARTS;
use thiserror::Error;

const CLEAN: u64 = 1;

const STALE: u64 = 3;

const BYTE_MASK: u64 = 0xff;

const REFS_SHIFT: u32 = 8;

const NUMS_SHIFT: u32 = 16;

/// How many reference slots and how many number words an object has, at most `MAX_PARTS` of each.
#[derive(Clone, Copy, Debug, PartialEq, Eq)]
pub struct Shape {
    pub refs: u8,
    pub nums: u8,
}

/// The header of an object: its shape, and whether the object is stale.
#[derive(Clone, Copy, Debug, PartialEq, Eq)]
pub struct Header {
    pub shape: Shape,
    pub stale: bool,
}

/// The word is that of no header: its lowest byte is neither 1 nor 3, or its shape has more than
/// `MAX_PARTS` of a kind.
#[derive(Clone, Copy, Debug, PartialEq, Eq, Error)]
#[error("bad header word")]
pub struct BadHeader;

/// The word of a header.
pub fn encode_header(header: Header) -> u64
    requires { IsHeader header }
    ensures { result ≡ header_word header }
{
    let Header { shape, stale } = header;
    let mark = if stale { STALE } else { CLEAN };
    mark | (u64::from(shape.refs) << REFS_SHIFT) | (u64::from(shape.nums) << NUMS_SHIFT)
}

/// The header that a word holds.
pub fn decode_header(word: u64) -> Result<Header, BadHeader>
    ensures ok { IfOk result (λ h. IsHeader h × (word ≡ header_word h)) }
    ensures err { OnErr result ((h : Header) → IsHeader h → word ≢ header_word h) }
{
    let stale = match word & BYTE_MASK {
        CLEAN => false,
        STALE => true,
        _ => return Err(BadHeader),
    };
    let refs = (word >> REFS_SHIFT) & BYTE_MASK;
    let nums = word >> NUMS_SHIFT;
    if refs > u64::from(MAX_PARTS) || nums > u64::from(MAX_PARTS) {
        return Err(BadHeader);
    }
    let shape = Shape {
        refs: refs as u8,
        nums: nums as u8,
    };
    Ok(Header { shape, stale })
}

/// The shape that a word tells which is known to be that of a header. Nothing is tested.
#[inline(always)]
pub fn shape_of(word: u64) -> Shape
    requires { (h : Header) × IsHeader h × (word ≡ header_word h) }
    ensures { (h : Header) → IsHeader h → word ≡ header_word h → result ≡ h.shape }
{
    Shape {
        refs: ((word >> REFS_SHIFT) & BYTE_MASK) as u8,
        nums: ((word >> NUMS_SHIFT) & BYTE_MASK) as u8,
    }
}

/// How many words an object of the shape takes: its header, its home word and its parts. From 2 to
/// 126 for a shape in range.
pub fn cost(shape: Shape) -> u32
    ensures { result ≡ cost_of shape }
{
    2 + u32::from(shape.refs) + u32::from(shape.nums)
}

/// A word holds one header at most.
pub fn one_header_per_word()
    ensures { (h k : Header) → IsHeader h → IsHeader k → header_word h ≡ header_word k → h ≡ k }
{}
