//! How an epoch begins and ends: its words are laid out from the parts of a heap and each mutator gets a seat; in the
//! end all seats are taken back, and the words are put where they came from.
ghost use Rattle.std.specs.Prelude.{◌≡◌, ◌+◌, ◌^◌, ◌<◌, ◌≤◌, length, map, All, IfOk, OnErr};
ghost use Rattle.melt_rule.specs.Rule.{first_view};
ghost use Rattle.melt_rule.specs.Seats.{IsSeat, MayGoOn, Sits, knows_of};
ghost use Rattle.melt_rule.specs.declared.began.Start.{Start};
ghost use Rattle.melt_epoch.specs.Ends.{HasEnded, HasJoined, HeapBegins, HistoryBegins, MayEnd, MutatorsBegin};
ghost use Rattle.melt_epoch.specs.Ends.{unseated, view_of};
ghost use Rattle.melt_epoch.specs.Gathering.{IsGiven, PutsBack, PutsFirst, gathered_all, words_of_heap};
ghost use Rattle.melt_epoch.specs.Mutators.{HasReader};

use crate::epoch::Epoch;
use crate::mutator::Mutator;
use melt_io::RecordReader;
use melt_model::{Ghost, NoMemory};
use melt_rule::{EndedWords, FREE_AT, GLOBALS_AT, Pass, Seated, Start, Words, leading_words};
use melt_scion::{GhostMaps, Heap};
use melt_space::Space;
use std::alloc::Global;

/// The words of a heap as those of an epoch: the leading words, the globals, the forwarding words, and the words of
/// the space.
fn lay_out(alloc: Global, heap: &Heap) -> Result<Vec<u64>, NoMemory>
    ensures { IfOk result (λ words. words.items ≡ words_of_heap heap.now) }
{
    let mut words = Vec::new(alloc);
    words.extend_from_slice(&leading_words(heap.space.used() as u64 + 1))?;
    words.extend_from_slice(&heap.globals.items)?;
    words.extend_from_slice(&heap.forward.items)?;
    words.extend_from_slice(heap.space.words_at(1, heap.space.words()))?;
    Ok(words)
}

/// Copies the words from a place on into the first ones of a space, so many of them.
fn put_words(ended: &EndedWords, from: usize, count: u32, space: &mut Space)
    requires words { from + count ≤ length ended.now }
    requires place { from < 2 ^ 62 }
    requires fits { count ≤ length space.old.list }
    ensures { PutsFirst space.old space.new ended.now from count }
{
    for k in 0..count {
        space.set_word(k + 1, ended.word(from + k as usize));
    }
}

/// Puts the words of an epoch that has ended back into the heap from which they came: of its space, those in use.
fn put_back(ended: &EndedWords, heap: &mut Heap)
    requires { length ended.now ≡ 16 + length heap.old.globals + length heap.old.forward + length heap.old.space.list }
    ensures { PutsBack heap.old heap.new ended.now }
{
    let forwards_at = GLOBALS_AT + heap.globals.items.len();
    let space_at = forwards_at + heap.forward.items.len();
    ended.copy(GLOBALS_AT, &mut heap.globals.items);
    ended.copy(forwards_at, &mut heap.forward.items);
    let size = heap.space.words();
    // A claim that ended past the last word moved the first free place there.
    let used = ended.word(FREE_AT).saturating_sub(1).min(size as u64) as u32;
    put_words(ended, space_at, used, &mut heap.space);
    heap.space.set_used(used);
}

/// Gives each mutator a seat: the first has the first one, from which those of the others come.
fn give_seats<R>(words: &Words, first: Seated, mutators: &mut [Mutator<R>])
    requires seat { IsSeat words.now first }
    requires first { knows_of first ≡ first_view words.now.start }
    requires some { 1 ≤ length mutators.old }
    requires threads { map (λ m. m.thread) mutators.old ≡ words.now.start.began.threads }
    ensures kept { map unseated mutators.new ≡ map unseated mutators.old }
    ensures given { All (IsGiven words.now) mutators.new }
{
    let mut first = first;
    for k in 1..mutators.len() {
        let seat = words.give_seat(&mut first);
        mutators[k].seat = Some(seat);
    }
    mutators[0].seat = Some(first);
}

/// Takes all seats back: that of the first mutator takes in the others.
fn take_seats<R>(words: &Words, mutators: &mut [Mutator<R>]) -> Seated
    requires all { MayEnd words.now mutators.old }
    ensures seat { Sits words.now result }
    ensures goes_on { MayGoOn (knows_of result) }
    ensures gathers { knows_of result ≡ gathered_all (map view_of mutators.old) }
    ensures left { mutators.new ≡ map unseated mutators.old }
{
    let Some(mut seat) = mutators[0].seat.take() else {
        unreachable!();
    };
    for k in 1..mutators.len() {
        let Some(other) = mutators[k].seat.take() else {
            unreachable!();
        };
        words.take_seat(&mut seat, other);
    }
    seat
}

impl Epoch {
    /// Begins an epoch on a heap and the history that led to it, and gives each mutator a seat.
    pub fn begin<R: RecordReader>(
        alloc: Global,
        heap: Heap,
        pass: Pass,
        end: u32,
        mutators: &mut [Mutator<R>],
    ) -> Result<Epoch, NoMemory>
        ghost start: { Start }
        requires heap { HeapBegins start.began heap end }
        requires history { HistoryBegins start heap pass }
        requires mutators { MutatorsBegin R.image start mutators.old }
        ensures start { IfOk result (λ epoch. epoch.words.start ≡ start) }
        ensures joined { IfOk result (λ epoch. All (HasJoined epoch.words) mutators.new) }
        ensures readers { IfOk result (λ epoch. All (HasReader R.image epoch.words) mutators.new) }
        ensures kept { map unseated mutators.new ≡ mutators.old }
        ensures refused { OnErr result (mutators.new ≡ mutators.old) }
    {
        let start: Ghost<Start> = Ghost::pick(&());
        Epoch::begin_with(alloc, &start, heap, pass, end, mutators)
    }

    /// The same, where the caller has at hand what the epoch begins with: a value that takes no bytes.
    pub fn begin_with<R: RecordReader>(
        alloc: Global,
        start: &Ghost<Start>,
        heap: Heap,
        pass: Pass,
        end: u32,
        mutators: &mut [Mutator<R>],
    ) -> Result<Epoch, NoMemory>
        requires heap { HeapBegins start.now.began heap end }
        requires history { HistoryBegins start.now heap pass }
        requires mutators { MutatorsBegin R.image start.now mutators.old }
        ensures start { IfOk result (λ epoch. epoch.words.start ≡ start.now) }
        ensures joined { IfOk result (λ epoch. All (HasJoined epoch.words) mutators.new) }
        ensures readers { IfOk result (λ epoch. All (HasReader R.image epoch.words) mutators.new) }
        ensures kept { map unseated mutators.new ≡ mutators.old }
        ensures refused { OnErr result (mutators.new ≡ mutators.old) }
    {
        let _ = pass;
        let laid = lay_out(alloc, &heap)?;
        let globals = heap.globals.items.len() as u8;
        let (words, seat) = Words::begin(alloc, &laid, heap.space.words(), globals, start)?;
        give_seats(&words, seat, mutators);
        Ok(Epoch { words, heap, end })
    }

    /// Ends the epoch: all seats are taken back, and the words stand in the heap again, with the history that led to
    /// them.
    pub fn finish<R>(self, mutators: &mut [Mutator<R>]) -> (Heap, Pass)
        requires { MayEnd self.words mutators.old }
        ensures left { mutators.new ≡ map unseated mutators.old }
        ensures ended { HasEnded self.words.start.began mutators.old result.0 result.1 }
    {
        let Epoch {
            words,
            mut heap,
            end: _,
        } = self;
        let seat = take_seats(&words, mutators);
        heap.maps = GhostMaps::pick(&(&words, &seat));
        let mut pass = Pass::new();
        // Before the seat is given up: only a seat that has taken in all others has seen all of the history.
        pass.note(&seat);
        let ended = words.close(seat);
        put_back(&ended, &mut heap);
        ended.free();
        (heap, pass)
    }
}
