//! Reads all of a source, and writes all of a piece.
ghost use Rattle.std.specs.Prelude.{◌≡◌, ℕ, ◌+◌, ◌<◌, ◌≤◌, ◌↔◌, List, [], ◌++◌, Some, length, vec_len, true, false};
ghost use Rattle.std.specs.Prelude.{take, IfOk, IfSome, OnOk, OnErr, IsErrOf};
ghost use Rattle.melt_io.specs.Outside.{Rose, TakesFront, Appends};
ghost use Rattle.melt_io.specs.Whole.{TakesCount, refusal_text};
ghost use Rattle.melt_io.specs.declared.whole.ReadRefusal.TheVariants.{Fault, NoMemory};

use crate::outside::{Failed, Sink, Source};
use std::alloc::{AllocError, Global};
use std::error::Error;
use std::fmt;

/// How many bytes one read asks for at most.
const PIECE: usize = 65536;

/// Why a source was not read to its end.
#[derive(Clone, Copy, Debug, PartialEq, Eq)]
pub enum ReadRefusal {
    Fault,
    TooLong,
    NoMemory,
}

impl fmt::Display for ReadRefusal {
    ghost output = { λ refusal. Some (refusal_text refusal) };

    fn fmt<W: fmt::Write>(&self, f: &mut fmt::Formatter<W>) -> fmt::Result {
        f.write_str(match self {
            ReadRefusal::Fault => "the source failed",
            ReadRefusal::TooLong => "the source has more bytes than the limit",
            ReadRefusal::NoMemory => "no memory for the source's bytes",
        })
    }
}

impl Error for ReadRefusal {}

impl From<Failed> for ReadRefusal {
    ghost from_gives = { λ _ e. e ≡ Fault };

    fn from(_failed: Failed) -> ReadRefusal {
        ReadRefusal::Fault
    }
}

impl From<AllocError> for ReadRefusal {
    ghost from_gives = { λ _ e. e ≡ NoMemory };

    fn from(_error: AllocError) -> ReadRefusal {
        ReadRefusal::NoMemory
    }
}

/// Reads to the end, in pieces of 64 KiB, or of one byte past the limit where that is less. The limit is in bytes: no more than one byte past it
/// is taken. `TooLong` comes as soon as that byte was taken, `Fault` from the first read that fails,
/// and `NoMemory` where no memory is left for a piece or for the bytes.
pub fn read_all<S: Source>(alloc: Global, s: &mut S, limit: usize) -> Result<Vec<u8>, ReadRefusal>
    // At `Ok` all bytes were taken, and they are within the limit.
    ensures all { IfOk result (λ bytes. IfSome (S.left s.old) (λ left. bytes.items ≡ left)) }
    ensures ended { OnOk result (IfSome (S.left s.new) (λ left. left ≡ [])) }
    ensures within { IfOk result (λ bytes. length bytes.items ≤ limit) }

    // What was taken is a front, and it is longer than the limit, by one byte, only at `TooLong`.
    ensures front { (n : ℕ) × (n ≤ limit + 1) × TakesCount (S.left s.old) n (S.left s.new)
        × (IsErrOf result ReadRefusal.TooLong ↔ (n ≡ limit + 1)) }
    ensures fault { IsErrOf result ReadRefusal.Fault → Rose (S.faults s.old) (S.faults s.new) }
    ensures count { S.faults s.old ≤ S.faults s.new }
{
    // No literal length: the prover would compute the whole list out.
    let mut piece = vec![in alloc; 0; PIECE.min(limit.saturating_add(1))]?;
    let mut bytes = Vec::new(alloc);
    while read_more(s, &mut piece, &mut bytes, limit)? {}
    Ok(bytes)
}

/// Reads once, through the piece, and appends what was read. Answers whether the input may go on.
fn read_more<S: Source>(
    s: &mut S,
    piece: &mut [u8],
    bytes: &mut Vec<u8>,
    limit: usize,
) -> Result<bool, ReadRefusal>
    requires piece { 0 < length piece.old }
    requires room { vec_len bytes.old ≤ limit }

    ensures read { OnOk result ((front : List ℕ) × (bytes.new.items ≡ bytes.old.items ++ front)
        × TakesFront (S.left s.old) front (S.left s.new)) }
    ensures within { OnOk result (vec_len bytes.new ≤ limit) }
    ensures more { result ≡ Ok true → vec_len bytes.old < vec_len bytes.new }
    ensures ended { result ≡ Ok false → IfSome (S.left s.new) (λ left. left ≡ []) }

    ensures front { OnErr result ((n : ℕ) × (vec_len bytes.old + n ≤ limit + 1)
        × TakesCount (S.left s.old) n (S.left s.new) × (IsErrOf result ReadRefusal.TooLong
        ↔ (vec_len bytes.old + n ≡ limit + 1))) }
    ensures fault { IsErrOf result ReadRefusal.Fault → Rose (S.faults s.old) (S.faults s.new) }
    ensures count { S.faults s.old ≤ S.faults s.new }
{
    let room = limit - bytes.len();
    let end = piece.len().min(room.saturating_add(1));
    let taken = s.read(&mut piece[..end])?;
    if taken > room {
        return Err(ReadRefusal::TooLong);
    }
    bytes.extend_from_slice(&piece[..taken])?;
    Ok(taken > 0)
}

/// Writes all the bytes, by as many writes as the sink needs. Nothing is written where there are no
/// bytes. After an `Err` a front of the bytes has been written.
pub fn write_all<K: Sink>(k: &mut K, bytes: &[u8]) -> Result<(), Failed>
    ensures all { OnOk result (Appends (K.written k.old) bytes.now (K.written k.new)) }

    // What was appended before a failure is a proper front of the bytes.
    ensures part { OnErr result ((n : ℕ) × (n < length bytes.now)
        × Appends (K.written k.old) (take n bytes.now) (K.written k.new)) }
    ensures failed { OnErr result (Rose (K.faults k.old) (K.faults k.new)) }
    ensures count { K.faults k.old ≤ K.faults k.new }
{
    let mut at = 0;
    while at < bytes.len() {
        at += k.write(&bytes[at..])?;
    }
    Ok(())
}
