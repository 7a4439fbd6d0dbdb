//! The copy of what stays, while it is made.
//!
//! The order is that of C. J. Cheney, "A Nonrecursive List Compacting Algorithm", Communications of the ACM 13 (1970).
//! An object that is found is copied at once, after those that were copied before, and a clean reference to the copy
//! takes the place of its old header: who meets it again reads there where it went. The copies are the queue: those
//! whose references were not moved yet stand after those that are done, each with its header. Once none is left, each
//! reference in the copy is to an object in it: what is reached was copied, and nothing else was.
//!
//! Objects lie apart from each other among the words in use. So of an object that is still to be found no word has
//! changed, and what is found takes no more words than were in use, for which there are words from the start. No
//! memory is taken.
ghost use Rattle.std.specs.Prelude.{◌≡◌, ◌≢◌, ℕ, ◌+◌, ◌*◌, ◌^◌, ◌<◌, ◌≤◌, ◌⊎◌, ◌++◌, [], Bool, drop, length, slice_get, slice_index};
ghost use Rattle.std.specs.Prelude.{take, Some};
ghost use Rattle.melt_word.specs.Words.{IsAddress, IsRef, cost_of};
ghost use Rattle.melt_scion.specs.Moves.{kept_tag};
ghost use Rattle.melt_scion.specs.Scions.{IsTable, scion_at};
ghost use Rattle.melt_copy.specs.declared.forwarding.Relocation.{Relocation};
ghost use Rattle.melt_copy.specs.Evacuating.{Collection, Evacuates, EvacuatesAt, EvacuatesFor, EvacuatesHeld};
ghost use Rattle.melt_copy.specs.Evacuating.{EvacuatesIn, EvacuatesNext, EvacuatesQueue, EvacuatesScions, EvacuatesSlots};
ghost use Rattle.melt_copy.specs.Evacuating.{EvacuatesThreads, FindsMore, FindsRegisters, FindsThreads, RegistersMove};
ghost use Rattle.melt_copy.specs.Evacuating.{ScansOne, ThreadsMove, place_of};
ghost use Rattle.melt_copy.specs.Moving.{WordMoves};
ghost use Rattle.melt_copy.specs.Tracking.{MovesScions};

use crate::copy::{move_header, visit_words};
use crate::forwarding::Relocation;
use crate::names::{Renaming, carry_name};
use melt_model::{Ghost, Phase, Steps};
use melt_scion::{Registers, ScionTable};
use melt_space::Space;
use melt_word::{Ref, cost, encode_ref, forwarded_to, reference_of, shape_of};
use std::collections::LinkedList;
use std::sync::ledger::Ledger;

/// The copies of the objects that were found, in a vector of as many words as are in use, or more.
#[derive(Drop)]
pub struct ToSpace {
    /// The words of the copies, from word 1 on, and after them words that have no meaning yet.
    pub words: Vec<u64>,
    /// How many words the copies are.
    pub next: usize,
    /// Which object was moved to which address, in the order of the copies, as contracts alone see it.
    pub moves: Ghost<LinkedList<Relocation>>,
    pub names: Option<Renaming>,
}

/// A clean reference to an address, as a collection of the phase leaves it.
#[inline(always)]
fn tagged(phase: Phase, address: u32) -> Ref
    requires { IsAddress address }
    ensures value { result ≡ kept_tag phase address }
    ensures in_range { IsRef result }
{
    match phase {
        Phase::Inactive => Ref::Clean(address),
        Phase::Mark | Phase::Move => Ref::Stale(address),
    }
}

impl ToSpace {
    /// A copy of no objects yet, into a vector whose words have no meaning.
    pub fn new(words: Vec<u64>, names: Option<Renaming>) -> ToSpace
        ensures words { result.words.items ≡ words.items }
        ensures next { result.next ≡ 0 }
        ensures moves { result.moves ≡ [] }
        ensures names { result.names ≡ names }
    {
        ToSpace {
            words,
            next: 0,
            moves: Ghost::pick(&()),
            names,
        }
    }

    /// Puts words after those of the copies, where others stand that have no meaning. Counts a step for each.
    #[inline(always)]
    fn put<L: Ledger>(&mut self, words: &[u64], steps: &mut Steps<L>)
        requires { self.old.next + length words.now ≤ length self.old.words.items }
        ensures words { self.new.words.items ≡ take self.old.next self.old.words.items
            ++ words.now ++ drop (self.old.next + length words.now) self.old.words.items }
        ensures next { self.new.next ≡ self.old.next + length words.now }
        ensures moves { self.new.moves ≡ self.old.moves }
        ensures names { self.new.names ≡ self.old.names }
        ensures visits { steps.new ≡ steps.old + length words.now }
    {
        visit_words(words, steps);
        let next = self.next + words.len();
        self.words[self.next..next].copy_from_slice(words);
        self.next = next;
    }

    /// Answers where the object at an address is now. Copies it, if it was not found before.
    #[inline(always)]
    fn evacuate<L: Ledger>(&mut self, space: &mut Space, address: u32, steps: &mut Steps<L>) -> u32
        requires { (c : Collection) × (done : ℕ) × EvacuatesAt c space.old self.old done address }
        ensures place { place_of self.new.moves address ≡ result }
        ensures found { IsAddress result }
        ensures more { FindsMore self.old.moves self.new.moves }
        ensures only { (k : ℕ) (m : Relocation) → slice_get self.new.moves k ≡ Some m
            → (slice_get self.old.moves k ≡ Some m) ⊎ (m.from ≡ address) }
        ensures evacuates { (c : Collection) (done : ℕ) → EvacuatesAt c space.old self.old done address
            → Evacuates c space.new self.new done }
        ensures visits { steps.new + self.old.next ≡ steps.old + self.new.next }
    {
        if let Some(to) = forwarded_to(space.word(address)) {
            return to;
        }
        let to = self.next as u32 + 1;
        let shape = space.shape(address);
        self.put(space.words_at(address, cost(shape)), steps);
        self.moves = Ghost::pick(&(&self.moves, address, to, shape));
        carry_name(&mut self.names, address, to);
        // The old header was copied already. From here on its place says where the object went.
        space.set_word(address, encode_ref(Ref::Clean(to)));
        to
    }

    /// The word of a reference after the move. Copies the object to which it refers, if that was not found before.
    #[inline(always)]
    fn move_word<L: Ledger>(
        &mut self,
        space: &mut Space,
        phase: Phase,
        word: u64,
        steps: &mut Steps<L>,
    ) -> u64
        requires { (c : Collection) × (done : ℕ) × EvacuatesFor c space.old self.old done word }
        ensures moves { WordMoves phase (place_of self.new.moves) word result }
        ensures more { FindsMore self.old.moves self.new.moves }
        ensures evacuates { (c : Collection) (done : ℕ) → EvacuatesFor c space.old self.old done word
            → Evacuates c space.new self.new done }
        ensures visits { steps.new + self.old.next ≡ steps.old + self.new.next }
    {
        match reference_of(word) {
            Ref::Clean(address) => {
                encode_ref(tagged(phase, self.evacuate(space, address, steps)))
            }
            Ref::Stale(address) => encode_ref(Ref::Stale(self.evacuate(space, address, steps))),
            Ref::Null | Ref::Disk(_) => word,
        }
    }

    /// Moves the references in the words of the copy after the first ones, so many of them.
    #[inline(always)]
    fn move_slots<L: Ledger>(
        &mut self,
        space: &mut Space,
        phase: Phase,
        first: usize,
        refs: u8,
        steps: &mut Steps<L>,
    )
        requires { (c : Collection) × EvacuatesSlots c phase space.old self.old first refs }
        ensures more { FindsMore self.old.moves self.new.moves }
        ensures evacuates { (c : Collection) → EvacuatesSlots c phase space.old self.old first refs
            → Evacuates c space.new self.new (first + refs) }
        ensures visits { steps.new + self.old.next ≤ steps.old + self.new.next + refs }
    {
        for place in first..first + refs as usize {
            steps.tick();
            let word = self.words[place];
            self.words[place] = self.move_word(space, phase, word, steps);
        }
    }

    /// Moves the references of the object whose copy begins after so many words, and answers after how many words the
    /// next one begins.
    #[inline(always)]
    fn scan_object<L: Ledger>(
        &mut self,
        space: &mut Space,
        phase: Phase,
        held: bool,
        done: usize,
        steps: &mut Steps<L>,
    ) -> usize
        requires { (c : Collection) × EvacuatesNext c phase held space.old self.old done }
        ensures more { FindsMore self.old.moves self.new.moves }
        ensures scans { (c : Collection) → (next : EvacuatesNext c phase held space.old self.old done)
            → ScansOne c space.new self.new done result next.move }
        ensures visits { steps.new + self.old.next + done + 2
            ≤ steps.old + self.new.next + result }
    {
        let header = self.words[done];
        let shape = shape_of(header);
        self.words[done] = move_header(phase, held, shape, header);
        self.move_slots(space, phase, done + 2, shape.refs, steps);
        done + cost(shape) as usize
    }

    /// Moves the references of all copies, and finds what they lead to. Registers hold the objects in the first words
    /// of the copy, so many of them.
    pub fn scan<L: Ledger>(
        &mut self,
        space: &mut Space,
        phase: Phase,
        held_words: usize,
        steps: &mut Steps<L>,
    )
        requires { (c : Collection) × EvacuatesQueue c phase held_words space.old self.old 0 }
        ensures more { FindsMore self.old.moves self.new.moves }
        ensures evacuates { (c : Collection) → EvacuatesQueue c phase held_words space.old self.old 0
            → Evacuates c space.new self.new (self.new.next) }
        ensures visits { steps.new + self.old.next ≤ steps.old + 2 * self.new.next }
    {
        let mut done = 0;
        // What was copied and not scanned yet is the queue, as in Cheney's collector.
        while done < self.next {
            steps.tick();
            done = self.scan_object(space, phase, done < held_words, done, steps);
        }
    }

    /// Copies the objects in the registers of a thread, which hold their new addresses then.
    fn evacuate_thread<L: Ledger>(
        &mut self,
        space: &mut Space,
        registers: &mut Registers,
        steps: &mut Steps<L>,
    )
        requires { (c : Collection) × EvacuatesHeld c space.old self.old (slice_index registers.old.regs) }
        ensures moves { RegistersMove self.new.moves (slice_index registers.old.regs) (slice_index registers.new.regs) }
        ensures finds { FindsRegisters self.old.moves self.new.moves (slice_index registers.old.regs) }
        ensures more { FindsMore self.old.moves self.new.moves }
        ensures evacuates { (c : Collection) → EvacuatesHeld c space.old self.old (slice_index registers.old.regs)
            → Evacuates c space.new self.new 0 }
        ensures visits { steps.new + self.old.next ≤ steps.old + self.new.next + 16 }
    {
        for address in registers.regs.iter_mut() {
            steps.tick();
            if *address != 0 {
                *address = self.evacuate(space, *address, steps);
            }
        }
    }

    /// Copies the objects in the registers of all threads.
    pub fn evacuate_held<L: Ledger>(
        &mut self,
        space: &mut Space,
        held: &mut [Registers],
        steps: &mut Steps<L>,
    )
        requires { (c : Collection) × EvacuatesThreads c space.old self.old held.old }
        ensures moves { ThreadsMove self.new.moves held.old held.new }
        ensures finds { FindsThreads self.old.moves self.new.moves held.old }
        ensures more { FindsMore self.old.moves self.new.moves }
        ensures evacuates { (c : Collection) → EvacuatesThreads c space.old self.old held.old
            → Evacuates c space.new self.new 0 }
        ensures visits { steps.new + self.old.next
            ≤ steps.old + self.new.next + 17 * length held.old }
    {
        for registers in held.iter_mut() {
            steps.tick();
            self.evacuate_thread(space, registers, steps);
        }
    }

    /// Copies the objects to which globals refer, and moves the references.
    pub fn move_globals<L: Ledger>(
        &mut self,
        space: &mut Space,
        phase: Phase,
        globals: &mut [u64],
        steps: &mut Steps<L>,
    )
        requires { (c : Collection) × EvacuatesIn c phase space.old self.old globals.old }
        ensures moves { (g : ℕ) → g < length globals.old
            → WordMoves phase (place_of self.new.moves) (slice_index globals.old g) (slice_index globals.new g) }
        ensures more { FindsMore self.old.moves self.new.moves }
        ensures evacuates { (c : Collection) → EvacuatesIn c phase space.old self.old globals.old
            → Evacuates c space.new self.new 0 }
        ensures visits { steps.new + self.old.next
            ≤ steps.old + self.new.next + length globals.old }
    {
        for word in globals.iter_mut() {
            steps.tick();
            *word = self.move_word(space, phase, *word, steps);
        }
    }

    /// Copies the objects of the live scions, which are those of the list, and gives these the new addresses.
    pub fn evacuate_scions<L: Ledger>(
        &mut self,
        space: &mut Space,
        scions: &mut ScionTable,
        live: &[u32],
        steps: &mut Steps<L>,
    )
        requires scions { (c : Collection) × EvacuatesScions c space.old self.old scions.old }
        requires live { live.now ≡ scions.old.live }
        requires table { IsTable scions.old }
        ensures moves { MovesScions (place_of self.new.moves) scions.old scions.new }
        ensures finds { (k : ℕ) (pair : ℕ × ℕ) → scion_at scions.old k ≡ Some pair
            → place_of self.new.moves pair.1 ≢ 0 }
        ensures more { FindsMore self.old.moves self.new.moves }
        ensures evacuates { (c : Collection) → EvacuatesScions c space.old self.old scions.old
            → Evacuates c space.new self.new 0 }
        ensures visits { steps.new + self.old.next
            ≤ steps.old + self.new.next + length live.now }
    {
        for scion in live {
            steps.tick();
            if let Some((_, address)) = scions.get(*scion) {
                scions.set_address(*scion, self.evacuate(space, address, steps));
            }
        }
    }
}
