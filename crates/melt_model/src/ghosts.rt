//! A value of any type that takes no bytes, for contracts alone.
ghost use Rattle.std.specs.Prelude.{◌≡◌};

use std::fmt;
use std::marker::{Model, PhantomData};

/// A value that contracts alone see. It takes no bytes, so no code can ask it for anything.
pub struct Ghost<T> {
    marker: PhantomData<T>,
    ghost value: { T },
}

impl<T> Model for Ghost<T> {
    ghost use base.Fml.{ftrue};

    ghost Value = { T };

    ghost coded = { T.code };

    ghost view = { λ g. g.value };

    // It says nothing of memory, so any value will do.
    ghost also_owns = { λ _. ftrue };
}

impl<T> Ghost<T> {
    /// A value that the proof of the caller picks. It can name what `from` shows and nothing else, so a caller that
    /// needs several things passes a tuple of them. The code reads none of it.
    pub fn pick<U>(from: &U) -> Ghost<T>
        ghost picked: { T }
        ensures { result ≡ picked }
    {
        let _ = from;
        Ghost {
            marker: PhantomData,
        }
    }

    /// A second one of the same value, for code that gives one away and keeps one.
    pub fn again(&self) -> Ghost<T>
        ensures { result ≡ self.now }
    {
        Ghost::pick(self)
    }
}

impl<T> Drop for Ghost<T> {
    fn drop(self) {
        let Self { marker: _ } = self;
    }
}

impl<T> fmt::Debug for Ghost<T> {
    fn fmt<W: fmt::Write>(&self, f: &mut fmt::Formatter<W>) -> fmt::Result {
        f.write_str("Ghost")
    }
}

unsafe impl<T> Send for Ghost<T> {}

unsafe impl<T> Sync for Ghost<T> {}
