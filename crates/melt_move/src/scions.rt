//! The scions of a collection.
//!
//! A scion goes with its object. Those of the objects that leave are freed first, so that their numbers are given
//! again; then each object that stays has its scion told where it is now, or, where it has a new home, is given a scion
//! and gets its Stub there.
ghost use Rattle.std.specs.Prelude.{◌≡◌, ◌≤◌, ◌+◌, ◌^◌, ◌<◌, ℕ, [], ◌∷◌, length, OnOk, OnErr, IfOk, MatchOption};
ghost use Rattle.melt_io.specs.Outside.{Rose, counted};
ghost use Rattle.melt_space.specs.Space.{IsWord, word_at};
ghost use Rattle.melt_scion.specs.Heaps.{Shows};
ghost use Rattle.melt_scion.specs.State.{State};
ghost use Rattle.melt_scion.specs.Scions.{IsTable};
ghost use Rattle.melt_copy.specs.Settling.{RisesBy};
ghost use Rattle.melt_move.specs.KeptDisk.{KeepsDisk};
ghost use Rattle.melt_move.specs.GivenScions.{AwaitScions, FreesScions, HaveScions, MayNameScion, NamesScion};
ghost use Rattle.melt_move.specs.GivenScions.{NamesScionsOf, WritesStubs, given_count};
ghost use Rattle.melt_move.specs.Plans.{IsDecision};
ghost use Rattle.melt_move.specs.ScionTurns.{AwaitsTurn, GivesScion, LiesAt, TakesTurn, WantsScion, WritesStub};

use crate::decision::Decision;
use crate::homes::NewHomes;
use melt_copy::Relocation;
use melt_disk::StaleSpace;
use melt_io::{Failed, StaleDisk};
use melt_model::Steps;
use melt_scion::{Heap, ScionTable};
use melt_space::Space;
use melt_word::{HomeWord, decode_home, encode_home};
use std::sync::ledger::Ledger;

/// The scion that the home word of the object at an address names, if the object has a home.
fn scion_of(space: &Space, address: u32) -> Option<u32>
    requires small { address + 1 < 2 ^ 32 }
    requires word { IsWord space.now (address + 1) }
    requires names { MayNameScion (word_at space.now) address }
    ensures { MatchOption result (word_at space.now (address + 1) ≡ 0)
        (λ scion. (home : ℕ) × NamesScion (word_at space.now) address home scion) }
{
    match decode_home(space.word(address + 1)) {
        Ok(Some(old)) => Some(old.scion),
        Ok(None) => None,
        Err(_) => unreachable!(),
    }
}

/// Frees the scions of the objects that leave.
pub fn free_scions<L: Ledger>(
    scions: &mut ScionTable,
    decision: &Decision,
    space: &Space,
    steps: &mut Steps<L>,
)
    requires decided { (s : State) × IsDecision space.now s decision.now × NamesScionsOf s scions.old }
    requires table { IsTable scions.old }
    ensures frees { FreesScions (word_at space.now) decision.now.choice.leaving.items scions.old scions.new }
    ensures visits { steps.new ≡ steps.old + length decision.now.choice.leaving.items }
{
    for d in &decision.choice.leaving {
        steps.tick();
        if let Some(scion) = scion_of(space, d.from) {
            scions.free(scion);
        }
    }
}

/// Gives the object a scion for its new home, writes its Stub there, and lets its home word name both.
///
/// After an `Err` the scion is live, and the home word does not name it.
fn give_scion<D: StaleDisk>(
    heap: &mut Heap,
    disk: &mut StaleSpace<'_, D>,
    m: Relocation,
    home: u32,
) -> Result<(), Failed>
    requires lies { LiesAt heap.old m }
    requires some { 1 ≤ home }
    requires wants { WantsScion heap.old m home disk.old.end }
    requires table { IsTable heap.old.scions }
    ensures gives { OnOk result (GivesScion m home heap.old heap.new) }
    ensures written { OnOk result ((image : ℕ → ℕ) → Shows (D.image disk.old.disk.now) image → (after : ℕ → ℕ)
        × Shows (D.image disk.new.disk.now) after × WritesStub heap.new m home disk.old.end image after) }
    ensures one_write { D.writes disk.new.disk.now ≡ counted (D.writes disk.old.disk.now) 1 }
    ensures failed { OnErr result (Rose (D.faults disk.old.disk.now) (D.faults disk.new.disk.now)) }
    ensures keeps { KeepsDisk D.image D.faults D.read_faults D.lends disk.old disk.new }
    ensures end { disk.new.end ≡ disk.old.end }
{
    // The scion is not freed where the write fails: the heap is given up then.
    let scion = heap.scions.add(home, m.to);
    disk.write_stub(home, m.shape, scion)?;
    let word = encode_home(Some(HomeWord { home, scion }));
    heap.space.set_word(m.to + 1, word);
    Ok(())
}

/// Tells the scion of an object that stays where the object is now, or gives the object one where it has a new home.
/// Answers how many Stubs were written.
fn update_scion<D: StaleDisk>(
    heap: &mut Heap,
    disk: &mut StaleSpace<'_, D>,
    homes: &NewHomes,
    m: Relocation,
) -> Result<u32, Failed>
    requires { AwaitsTurn heap.old homes.now m disk.old.end }
    ensures turn { OnOk result (TakesTurn homes.now m heap.old heap.new) }
    ensures written { OnOk result ((image : ℕ → ℕ) → Shows (D.image disk.old.disk.now) image → (after : ℕ → ℕ)
        × Shows (D.image disk.new.disk.now) after
        × WritesStubs homes.now (m ∷ []) heap.new disk.old.end image after) }
    ensures stubs { IfOk result (λ count. count ≡ given_count homes.now (m ∷ [])) }
    ensures one_write_each { IfOk result (λ count.
        RisesBy count (D.writes disk.old.disk.now) (D.writes disk.new.disk.now)) }
    ensures failed { OnErr result (Rose (D.faults disk.old.disk.now) (D.faults disk.new.disk.now)) }
    ensures keeps { KeepsDisk D.image D.faults D.read_faults D.lends disk.old disk.new }
    ensures end { disk.new.end ≡ disk.old.end }
{
    if let Some(scion) = scion_of(&heap.space, m.to) {
        heap.scions.set_address(scion, m.to);
        return Ok(0);
    }
    let home = homes.new_home(m.from);
    if home == 0 {
        return Ok(0);
    }
    give_scion(heap, disk, m, home)?;
    Ok(1)
}

/// Gives each object that stays and has a home its scion, with its new address, and writes the Stubs of new homes.
/// Answers how many these are.
pub fn give_scions<D: StaleDisk, L: Ledger>(
    heap: &mut Heap,
    disk: &mut StaleSpace<'_, D>,
    decision: &Decision,
    steps: &mut Steps<L>,
) -> Result<u32, Failed>
    requires { AwaitScions heap.old decision.now.homes decision.now.choice.stay.moves.items disk.old.end }
    ensures scions { OnOk result
        (HaveScions decision.now.homes decision.now.choice.stay.moves.items heap.old heap.new) }
    ensures written { OnOk result ((image : ℕ → ℕ) → Shows (D.image disk.old.disk.now) image → (after : ℕ → ℕ)
        × Shows (D.image disk.new.disk.now) after
        × WritesStubs decision.now.homes decision.now.choice.stay.moves.items heap.new disk.old.end image after) }
    ensures stubs { IfOk result (λ count. count ≡ given_count decision.now.homes decision.now.choice.stay.moves.items) }
    ensures few { IfOk result (λ count. count < 2 ^ 30) }
    ensures visits { steps.new ≤ steps.old + length decision.now.choice.stay.moves.items }
    ensures one_write_each { IfOk result (λ count.
        RisesBy count (D.writes disk.old.disk.now) (D.writes disk.new.disk.now)) }
    ensures failed { OnErr result (Rose (D.faults disk.old.disk.now) (D.faults disk.new.disk.now)) }
    ensures keeps { KeepsDisk D.image D.faults D.read_faults D.lends disk.old disk.new }
    ensures end { disk.new.end ≡ disk.old.end }
{
    let mut stubs = 0;
    for m in &decision.choice.stay.moves {
        steps.tick();
        stubs += update_scion(heap, disk, &decision.homes, *m)?;
    }
    Ok(stubs)
}
