//! The words of an epoch that has ended, which no thread steps on any more.
ghost use Rattle.std.specs.Prelude.{◌≡◌, ◌+◌, ◌<◌, ◌≤◌, length, take, drop, slice_index};

use atomic_table::Closed;
use std::alloc::Global;
use std::marker::Model;

/// The words of an epoch that has ended. They are copied to where they are to stand from then on, and `free` gives
/// their memory back.
pub struct EndedWords {
    pub(crate) closed: Closed<u64, Global>,
}

impl Model for EndedWords {
    ghost use Rattle.std.specs.Prelude.{List, ℕ, ◌≡◌};
    ghost use Rattle.std.specs.Slots.{slots_items, slots_len, IsFull};

    ghost Value = { List ℕ };

    ghost view = { λ w. slots_items w.closed.words };

    ghost invariant = { λ w. IsFull w.closed.words × (slots_len w.closed.slots ≡ 0) };
}

impl EndedWords {
    /// One of the words.
    pub fn word(&self, i: usize) -> u64
        requires { i < length self.now }
        ensures { result ≡ slice_index self.now i }
    {
        self.closed.word(i)
    }

    /// Copies as many words as there is room for, from a place on.
    pub fn copy(&self, from: usize, words: &mut [u64])
        requires { from + length words.old ≤ length self.now }
        ensures { words.new ≡ take (length words.old) (drop from self.now) }
    {
        let closed = &self.closed;
        for i in 0..words.len() {
            words[i] = closed.word(from + i);
        }
    }

    /// Gives the memory back.
    pub fn free(self) {
        let EndedWords { closed } = self;
        closed.free();
    }
}
