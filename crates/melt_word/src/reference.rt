//! References: words with a number and a tag of two bits.
ghost use Rattle.std.specs.Prelude.{◌≡◌, ◌≢◌, ℕ, ◌+◌, ◌*◌, ◌^◌, ◌<◌, ◌↔◌, IsTrue, IfOk, OnErr, None, Some};
ghost use Rattle.melt_word.specs.Words.{IsAddress, IsDiskHome, StandsAsHeader, IsHeader, IsRef, header_word, ref_word};
ghost use Rattle.melt_word.specs.declared.header.Header.{Header};
ghost use Rattle.melt_word.specs.declared.reference.Ref.{Ref};
ghost use Rattle.melt_word.specs.declared.reference.Ref.TheVariants.{Clean};

use thiserror::Error;

/// The greatest address of an object in a space. The least is 1.
pub const MAX_ADDRESS: u32 = (1 << 30) - 1;

const TAG_BITS: u32 = 2;

const TAG_MASK: u64 = (1 << TAG_BITS) - 1;

const CLEAN: u64 = 0;

const STALE: u64 = 1;

const DISK: u64 = 3;

/// The bit that the word of each header has set.
const HEADER: u64 = 1;

/// What a reference slot of a space refers to.
#[derive(Clone, Copy, Debug, PartialEq, Eq)]
pub enum Ref {
    /// No object.
    Null,
    /// An object of the space, by its address from 1 to `MAX_ADDRESS`. The reference is clean.
    Clean(u32),
    /// An object of the space, by its address from 1 to `MAX_ADDRESS`. The reference is stale.
    Stale(u32),
    /// An object on disk, by its home from 1 to `u32::MAX`.
    Disk(u32),
}

/// The word is that of no reference: its tag is `0b10`, or its number is out of range for its tag.
#[derive(Clone, Copy, Debug, PartialEq, Eq, Error)]
#[error("bad reference word")]
pub struct BadWord;

fn tagged(number: u32, tag: u64) -> u64
    requires { tag < 4 }
    ensures { result ≡ 4 * number + tag }
{
    (u64::from(number) << TAG_BITS) | tag
}

fn is_address(number: u64) -> bool
    ensures { IsTrue result ↔ IsAddress number }
{
    number != 0 && number <= u64::from(MAX_ADDRESS)
}

fn is_disk_home(number: u64) -> bool
    ensures { IsTrue result ↔ IsDiskHome number }
{
    number != 0 && number <= u64::from(u32::MAX)
}

/// The word of a reference.
pub fn encode_ref(reference: Ref) -> u64
    requires { IsRef reference }
    ensures { result ≡ ref_word reference }
{
    match reference {
        Ref::Null => 0,
        Ref::Clean(address) => tagged(address, CLEAN),
        Ref::Stale(address) => tagged(address, STALE),
        Ref::Disk(home) => tagged(home, DISK),
    }
}

/// The word of what a register holds: a clean reference to the object at an address below 2^30, or none where the
/// address is 0.
pub fn held_word(address: u32) -> u64
    requires { address < 2 ^ 30 }
    ensures { result ≡ 4 * address }
{
    if address == 0 {
        encode_ref(Ref::Null)
    } else {
        encode_ref(Ref::Clean(address))
    }
}

/// The reference that a word holds.
pub fn decode_ref(word: u64) -> Result<Ref, BadWord>
    ensures ok { IfOk result (λ r. IsRef r × (word ≡ ref_word r)) }
    ensures err { OnErr result ((r : Ref) → IsRef r → word ≢ ref_word r) }
{
    if word == 0 {
        return Ok(Ref::Null);
    }
    let number = word >> TAG_BITS;
    match word & TAG_MASK {
        CLEAN if is_address(number) => Ok(Ref::Clean(number as u32)),
        STALE if is_address(number) => Ok(Ref::Stale(number as u32)),
        DISK if is_disk_home(number) => Ok(Ref::Disk(number as u32)),
        _ => Err(BadWord),
    }
}

/// The reference that a word holds which is known to hold one. Nothing is tested but its tag.
#[inline(always)]
pub fn reference_of(word: u64) -> Ref
    requires { (r : Ref) × IsRef r × (word ≡ ref_word r) }
    ensures in_range { IsRef result }
    ensures is { word ≡ ref_word result }
{
    if word == 0 {
        return Ref::Null;
    }
    // No range is tested: this stands on the fast path of each load, and that the word is of a reference is known.
    let number = (word >> TAG_BITS) as u32;
    match word & TAG_MASK {
        CLEAN => Ref::Clean(number),
        STALE => Ref::Stale(number),
        _ => Ref::Disk(number),
    }
}

/// The address to which an object has moved, where a clean reference to its copy stands in the place of its header; or
/// `None`, where the header stands there still. Nothing is tested but the lowest bit, which each header has set and no
/// clean reference has.
#[inline(always)]
pub fn forwarded_to(word: u64) -> Option<u32>
    requires { StandsAsHeader word }
    ensures stays { (h : Header) → IsHeader h → word ≡ header_word h → result ≡ None }
    ensures moves { (address : ℕ) → IsAddress address → word ≡ ref_word (Clean address) → result ≡ Some address }
{
    if word & HEADER == 0 {
        Some((word >> TAG_BITS) as u32)
    } else {
        None
    }
}

/// A word holds one reference at most.
pub fn one_ref_per_word()
    ensures { (r s : Ref) → IsRef r → IsRef s → ref_word r ≡ ref_word s → r ≡ s }
{}
