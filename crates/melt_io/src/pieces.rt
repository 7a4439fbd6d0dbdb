//! A source and a sink that pass bytes on in pieces, so that a program can be given its bytes in pieces of any size.
ghost use Rattle.std.specs.Prelude.{◌≡◌, ◌^◌, ◌<◌, ◌≤◌, [], length, take, drop, min, IfOk, IfSome, OnErr};
ghost use Rattle.melt_io.specs.Outside.{Appends, Rose, TakesFront};

use crate::outside::{Failed, Sink, Source};

/// Asks `inner` at each read for no more than `piece` bytes, and answers what that answered.
#[derive(Debug, Drop)]
pub struct PieceSource<S> {
    pub inner: S,
    pub piece: usize,
    ghost some: { 1 ≤ piece },
}

/// Passes no more than `piece` bytes on to `inner` at each write, and answers what that answered.
#[derive(Debug, Drop)]
pub struct PieceSink<K> {
    pub inner: K,
    pub piece: usize,
    ghost some: { 1 ≤ piece },
}

impl<S> PieceSource<S> {
    /// The bytes of this source, in pieces of at most so many.
    pub fn new(inner: S, piece: usize) -> PieceSource<S>
        requires { 1 ≤ piece }
        ensures inner { result.inner ≡ inner }
        ensures piece { result.piece ≡ piece }
    {
        PieceSource { inner, piece }
    }

    /// Hands the source back.
    pub fn into_inner(self) -> S
        ensures { result ≡ self.inner }
    {
        self.inner
    }
}

impl<K> PieceSink<K> {
    /// A sink that passes its bytes on to this one, in pieces of at most so many.
    pub fn new(inner: K, piece: usize) -> PieceSink<K>
        requires { 1 ≤ piece }
        ensures inner { result.inner ≡ inner }
        ensures piece { result.piece ≡ piece }
    {
        PieceSink { inner, piece }
    }

    /// Hands the sink back.
    pub fn into_inner(self) -> K
        ensures { result ≡ self.inner }
    {
        self.inner
    }
}

impl<S: Source> Source for PieceSource<S> {
    ghost left = { λ s. S.left s.inner };

    ghost faults = { λ s. S.faults s.inner };

    fn read(&mut self, buf: &mut [u8]) -> Result<usize, Failed>
        ensures within { IfOk result (λ n. n ≤ min self.old.piece (length buf.old)) }
        ensures taken { IfOk result (λ n. TakesFront (S.left self.old.inner) (take n buf.new)
            (S.left self.new.inner)) }
        ensures end { IfOk result (λ n. n ≡ 0 → 0 < length buf.old
            → IfSome (S.left self.old.inner) (λ bytes. bytes ≡ [])) }
        ensures failed { OnErr result (Rose (S.faults self.old.inner) (S.faults self.new.inner)) }
        ensures untouched { OnErr result (S.left self.new.inner ≡ S.left self.old.inner) }
        ensures count { S.faults self.old.inner ≤ S.faults self.new.inner }
        ensures word { S.faults self.new.inner < 2 ^ 64 }

        // What lies past the piece is not asked for.
        ensures rest { drop self.old.piece buf.new ≡ drop self.old.piece buf.old }
        ensures piece { self.new.piece ≡ self.old.piece }
    {
        let end = buf.len().min(self.piece);
        self.inner.read(&mut buf[..end])
    }
}

impl<K: Sink> Sink for PieceSink<K> {
    ghost written = { λ k. K.written k.inner };

    ghost faults = { λ k. K.faults k.inner };

    fn write(&mut self, piece: &[u8]) -> Result<usize, Failed>
        ensures within { IfOk result (λ n. n ≤ min self.old.piece (length piece.now)) }
        ensures some { IfOk result (λ n. 0 < length piece.now → 0 < n) }
        ensures appended { IfOk result (λ n. Appends (K.written self.old.inner) (take n piece.now)
            (K.written self.new.inner)) }
        ensures failed { OnErr result (Rose (K.faults self.old.inner) (K.faults self.new.inner)) }
        ensures untouched { OnErr result (K.written self.new.inner ≡ K.written self.old.inner) }
        ensures count { K.faults self.old.inner ≤ K.faults self.new.inner }
        ensures word { K.faults self.new.inner < 2 ^ 64 }

        ensures piece { self.new.piece ≡ self.old.piece }
    {
        let end = piece.len().min(self.piece);
        self.inner.write(&piece[..end])
    }
}
