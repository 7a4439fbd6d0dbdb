//! Words that are copied, and headers after the move.
//!
//! The vector that is copied into has room for all words in use, and what is reached takes no more than these. So no
//! word that is put there looks for room.
ghost use Rattle.std.specs.Prelude.{◌≡◌, ◌+◌, ◌≤◌, ◌++◌, length};
ghost use Rattle.std.specs.Vec.{vec_capacity};
ghost use Rattle.melt_word.specs.Words.{IsHeader, IsShape, header_word};
ghost use Rattle.melt_word.specs.declared.header.Header.{Header};
ghost use Rattle.melt_copy.specs.Moving.{header_after};

use melt_model::{Phase, Steps};
use melt_word::{Header, Shape, encode_header};
use std::sync::ledger::Ledger;

/// Fewer words are put one by one. To copy them at once begins with a call, which takes as long as some of them.
const FEW: usize = 8;

/// Counts a step for each of the words, which are copied at once.
pub fn visit_words<L: Ledger>(words: &[u64], steps: &mut Steps<L>)
    ensures { steps.new ≡ steps.old + length words.now }
{
    for _word in words {
        steps.tick();
    }
}

/// Puts a few words after those that are there. There is room for them.
fn push_few(out: &mut Vec<u64>, words: &[u64])
    requires { length out.old.items + length words.now ≤ vec_capacity out.old }
    ensures items { out.new.items ≡ out.old.items ++ words.now }
    ensures capacity { vec_capacity out.old ≤ vec_capacity out.new }
{
    for word in words {
        out.push_reserved(*word);
    }
}

/// Puts words after those that are there, each as it is. There is room for them. Counts a step for each.
pub fn push_words<L: Ledger>(out: &mut Vec<u64>, words: &[u64], steps: &mut Steps<L>)
    requires { length out.old.items + length words.now ≤ vec_capacity out.old }
    ensures items { out.new.items ≡ out.old.items ++ words.now }
    ensures capacity { vec_capacity out.old ≤ vec_capacity out.new }
    ensures visits { steps.new ≡ steps.old + length words.now }
{
    visit_words(words, steps);
    if words.len() < FEW {
        push_few(out, words);
    } else if out.extend_from_slice(words).is_err() {
        // Where there is room, no memory is taken.
        unreachable!()
    }
}

/// The word of the header of an object after the move, by the word from before.
pub fn move_header(phase: Phase, held: bool, shape: Shape, word: u64) -> u64
    requires { IsShape shape }
    ensures { (header : Header) → IsHeader header → header.shape ≡ shape → word ≡ header_word header
        → result ≡ header_word (header_after phase held header) }
{
    match phase {
        // An object in a register has no stale bit, and so keeps its header.
        Phase::Mark | Phase::Move if !held => encode_header(Header { shape, stale: true }),
        _ => word,
    }
}
