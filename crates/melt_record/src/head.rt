//! The head of a record: its first two words.
ghost use Rattle.std.specs.Prelude.{◌≡◌, ◌≢◌, ℕ, ◌+◌, ◌*◌, ◌%◌, ◌^◌, ◌<◌, ◌≤◌, ◌⊎◌, IfSome, IfNone, IfOk, IfErr};
ghost use Rattle.std.specs.Prelude.{slice_index};
ghost use Rattle.melt_word.specs.Words.{IsShape, cost_of};
ghost use Rattle.melt_word.specs.declared.header.Shape.{Shape};
ghost use Rattle.melt_record.specs.Records.{IsFirstWord, IsHead, IsHeadDamage, IsSecondWord, head_word, kind_number};
ghost use Rattle.melt_record.specs.declared.head.Head.{Head};
ghost use Rattle.melt_record.specs.declared.head.Kind.{Kind};

use crate::damage::Damaged;
use melt_word::{MAX_PARTS, MAX_SCION, Shape, cost};

/// How many words the head of a record takes.
pub(crate) const HEAD_WORDS: usize = 2;

pub(crate) const BODY: u64 = 1;

pub(crate) const STUB: u64 = 2;

const BYTE_MASK: u64 = 0xff;

const REFS_SHIFT: u32 = 8;

const NUMS_SHIFT: u32 = 16;

const NUMS_MASK: u64 = 0xffff;

const HOME_SHIFT: u32 = 32;

/// What a record holds.
#[derive(Clone, Copy, Debug, PartialEq, Eq)]
pub enum Kind {
    /// The object: its reference slots and its number words.
    Body,
    /// What is left of an object that came back. The scion is from 1 to `MAX_SCION`.
    Stub { scion: u32 },
}

/// The shape of the object that has its home at the record, and what the record holds.
#[derive(Clone, Copy, Debug, PartialEq, Eq)]
pub struct Head {
    pub shape: Shape,
    pub kind: Kind,
}

pub(crate) fn first_word(number: u64, home: u32, shape: Shape) -> u64
    requires kind { number < 256 }
    requires shape { IsShape shape }
    ensures { result ≡ head_word number shape home }
{
    let refs = u64::from(shape.refs) << REFS_SHIFT;
    let nums = u64::from(shape.nums) << NUMS_SHIFT;
    number | refs | nums | (u64::from(home) << HOME_SHIFT)
}

fn shape_of(home: u32, end: u32, word: u64) -> Option<Shape>
    ensures number { IfSome result (λ _. (word % 256 ≡ 1) ⊎ (word % 256 ≡ 2)) }
    ensures shape { IfSome result (λ shape. IsShape shape × (home + cost_of shape ≤ end)) }
    ensures word { IfSome result (λ shape. word ≡ head_word (word % 256) shape home) }
    ensures none { IfNone result ((k : Kind) (s : Shape) → ¬ IsFirstWord home end word k s) }
{
    let number = word & BYTE_MASK;
    let refs = (word >> REFS_SHIFT) & BYTE_MASK;
    let nums = (word >> NUMS_SHIFT) & NUMS_MASK;
    if (number != BODY && number != STUB) || word >> HOME_SHIFT != u64::from(home) {
        return None;
    }
    if refs > u64::from(MAX_PARTS) || nums > u64::from(MAX_PARTS) {
        return None;
    }
    let shape = Shape {
        refs: refs as u8,
        nums: nums as u8,
    };
    // A shape that is too large for the place would have the rest read past all homes, so it is damage here already.
    if u64::from(home) + u64::from(cost(shape)) > u64::from(end) {
        return None;
    }
    Some(shape)
}

fn kind_of(first: u64, second: u64) -> Option<Kind>
    ensures number { IfSome result (λ kind. kind_number kind ≡ first % 256) }
    ensures second { IfSome result (IsSecondWord second) }
    ensures none { IfNone result ((k : Kind) → kind_number k ≡ first % 256 → ¬ IsSecondWord second k) }
{
    match first & BYTE_MASK {
        BODY if second == 0 => Some(Kind::Body),
        STUB if second != 0 && second <= u64::from(MAX_SCION) => Some(Kind::Stub {
            scion: second as u32,
        }),
        _ => None,
    }
}

/// The head that the first two words of the record at `home` spell. `end` is the first word of the
/// disk past all homes. Damage is at place 0 where no record can begin with the first word there, and
/// else at place 1.
pub fn decode_head(home: u32, end: u32, words: [u64; 2]) -> Result<Head, Damaged>
    ensures ok { IfOk result (IsHead home end (slice_index words 0) (slice_index words 1)) }
    ensures err { IfErr result (IsHeadDamage home end (slice_index words 0) (slice_index words 1)) }
{
    let [first, second] = words;
    // The first word is looked at before the second, so that damage is told of the first place at which there is any.
    let Some(shape) = shape_of(home, end, first) else {
        return Err(Damaged {
            home,
            at: 0,
            word: first,
        });
    };
    let Some(kind) = kind_of(first, second) else {
        return Err(Damaged {
            home,
            at: 1,
            word: second,
        });
    };
    Ok(Head { shape, kind })
}

/// Two words spell one head at most, at one home.
pub fn one_head()
    ensures { (home end other until first second : ℕ) (head k : Head) →
        IsHead home end first second head → IsHead other until first second k →
        (home ≡ other) × (head ≡ k) }
{}
