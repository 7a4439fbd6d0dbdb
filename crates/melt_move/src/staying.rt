//! Copies what stays, with the marks of the phase.
//!
//! An object that stays keeps its home word. A reference to one that stays becomes stale, and one to an object that
//! leaves becomes that object's home.
//!
//! What stays takes no more words than are in use, and the vector that it is copied into has room for these. So a copy
//! takes no memory and cannot fail.
ghost use Rattle.std.specs.Prelude.{◌≡◌, ℕ, ◌+◌, ◌*◌, ◌<◌, ◌≤◌, [], length, slice_index};
ghost use Rattle.std.specs.Vec.{vec_capacity};
ghost use Rattle.melt_word.specs.Words.{IsRef, cost_of};
ghost use Rattle.melt_word.specs.declared.reference.Ref.TheVariants.{Disk, Stale};
ghost use Rattle.melt_space.specs.Space.{word_at};
ghost use Rattle.melt_scion.specs.State.{State};
ghost use Rattle.melt_scion.specs.Moves.{by_place};
ghost use Rattle.melt_copy.specs.Moving.{words_in};
ghost use Rattle.melt_copy.specs.Tracking.{Extends, goes, word_numbered};
ghost use Rattle.melt_move.specs.Plans.{HasRoom, IsDecision, home_by};
ghost use Rattle.melt_move.specs.Staying.{AreSources, Follows, IsSource, ObjectStays, StandIn, Stays, StaysAs};
ghost use Rattle.melt_move.specs.Staying.{WordsStay};

use crate::decision::Decision;
use melt_copy::{Relocation, move_header, push_words, visit_words};
use melt_model::{Phase, Steps};
use melt_space::Space;
use melt_word::{Ref, cost, encode_ref, reference_of};
use std::sync::ledger::Ledger;

/// A reference to an object that can be reached, as it stays: stale, or the home of an object that leaves.
fn refer_to(decision: &Decision, space: &Space, address: u32) -> Ref
    requires { (s : State) × Follows space.now s decision.now address }
    ensures in_range { IsRef result }
    ensures value { result ≡ by_place (goes decision.now.choice.stay address)
        (Stale (goes decision.now.choice.stay address)) (Disk (home_by (word_at space.now) decision.now address)) }
{
    match decision.choice.stay.forwarded(address) {
        0 => Ref::Disk(decision.home_of(space, address)),
        to => Ref::Stale(to),
    }
}

/// The word of a reference that can be reached, as it stays.
fn stays_as(decision: &Decision, space: &Space, word: u64) -> u64
    requires { (s : State) × IsSource space.now s decision.now word }
    ensures { (s : State) → IsSource space.now s decision.now word → StaysAs s decision.now word result }
{
    match reference_of(word) {
        Ref::Clean(address) | Ref::Stale(address) => encode_ref(refer_to(decision, space, address)),
        Ref::Null | Ref::Disk(_) => word,
    }
}

/// Puts the words of references, each as it stays, after those that are there. There is room for them.
#[inline(always)]
fn append_words<L: Ledger>(
    out: &mut Vec<u64>,
    decision: &Decision,
    space: &Space,
    words: &[u64],
    steps: &mut Steps<L>,
)
    requires capacity { length out.old.items + length words.now ≤ vec_capacity out.old }
    requires sources { (s : State) × AreSources space.now s decision.now words.now }
    ensures extends { Extends out.old.items out.new.items (length words.now) }
    ensures capacity { vec_capacity out.old ≤ vec_capacity out.new }
    ensures stay { (s : State) → AreSources space.now s decision.now words.now
        → (i : ℕ) → i < length words.now
        → StaysAs s decision.now (slice_index words.now i) (slice_index out.new.items (length out.old.items + i)) }
    ensures visits { steps.new ≤ steps.old + length words.now }
{
    for word in words {
        steps.tick();
        out.push_reserved(stays_as(decision, space, *word));
    }
}

/// Puts the words of references, each as it stays, into `out`, which is empty and has room for them.
pub fn copy_words<L: Ledger>(
    mut out: Vec<u64>,
    decision: &Decision,
    space: &Space,
    words: &[u64],
    steps: &mut Steps<L>,
) -> Vec<u64>
    requires empty { out.items ≡ [] }
    requires capacity { length words.now ≤ vec_capacity out }
    requires sources { (s : State) × AreSources space.now s decision.now words.now }
    ensures stay { (s : State) → AreSources space.now s decision.now words.now
        → WordsStay s decision.now words.now result.items }
    ensures visits { steps.new ≤ steps.old + length words.now }
{
    append_words(&mut out, decision, space, words, steps);
    out
}

/// Puts an object that stays after the words that are there. There is room for it.
#[inline(always)]
fn append_object<L: Ledger>(
    out: &mut Vec<u64>,
    decision: &Decision,
    space: &Space,
    m: Relocation,
    held: bool,
    steps: &mut Steps<L>,
)
    requires capacity { length out.old.items + cost_of m.shape ≤ vec_capacity out.old }
    requires stays { (s : State) × Stays space.now s decision.now m }
    ensures extends { Extends out.old.items out.new.items (cost_of m.shape) }
    ensures capacity { vec_capacity out.old ≤ vec_capacity out.new }
    ensures object { (s : State) → Stays space.now s decision.now m → m.to ≡ length out.old.items + 1
        → ObjectStays s decision.now held (word_numbered out.new.items) m }
    ensures visits { steps.new ≤ steps.old + cost_of m.shape }
{
    let object = space.words_at(m.from, cost(m.shape));
    // Before the slots stand the header and the home word.
    let numbers = 2 + m.shape.refs as usize;
    let header = move_header(Phase::Move, held, m.shape, object[0]);
    visit_words(&object[..2], steps);
    out.push_reserved(header);
    out.push_reserved(object[1]);
    append_words(out, decision, space, &object[2..numbers], steps);
    push_words(out, &object[numbers..], steps);
}

/// Puts the objects that stay into `out`, one after the other. It is empty, and has room for all words in use.
pub fn copy_staying<L: Ledger>(
    mut out: Vec<u64>,
    decision: &Decision,
    space: &Space,
    steps: &mut Steps<L>,
) -> Vec<u64>
    requires empty { out.items ≡ [] }
    requires capacity { space.now.used ≤ vec_capacity out }
    requires room { HasRoom decision.now }
    requires decided { (s : State) × IsDecision space.now s decision.now }
    ensures stand { (s : State) → IsDecision space.now s decision.now → StandIn s decision.now result.items }
    ensures visits { steps.new ≤ steps.old + 2 * words_in decision.now.choice.stay.moves.items }
{
    for (k, m) in decision.choice.stay.moves.iter().enumerate() {
        steps.tick();
        append_object(
            &mut out,
            decision,
            space,
            *m,
            k < decision.held_count,
            steps,
        );
    }
    out
}
