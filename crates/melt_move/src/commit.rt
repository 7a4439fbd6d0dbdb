//! What changes once everything that is to stay was copied and the Bodies of all others were written.
//!
//! A new home is named while the names of addresses are still those from before, since that is where the number of its
//! object stands. Registers and names then go as in every collection.
ghost use Rattle.std.specs.Prelude.{◌≡◌, ◌≤◌, ◌+◌, ◌*◌, ◌^◌, ℕ, length};
ghost use Rattle.melt_copy.specs.Copied.{MayRename};
ghost use Rattle.melt_copy.specs.Tracking.{goes};
ghost use Rattle.melt_move.specs.Collecting.{IsPutBack};
ghost use Rattle.melt_scion.specs.HomeNames.{home_name};
ghost use Rattle.melt_scion.specs.Names.{name_at};
ghost use Rattle.melt_move.specs.NamedHomes.{HasSpare, NamesGiven, NamesHomesOf};
ghost use Rattle.melt_move.specs.Plans.{need_for};

use crate::decision::Decision;
use crate::homes::NewHomes;
use melt_copy::{forward_held, rename_all};
use melt_model::Steps;
use melt_scion::{AddressNames, GhostMaps, Globals, Heap, HomeNames, Names, Registers};
use melt_word::cost;
use std::sync::ledger::Ledger;

/// What is to stand in the place of the words, the globals and the names of a heap.
#[derive(Drop)]
pub struct Copied {
    pub words: Vec<u64>,
    pub globals: Vec<u64>,
    /// The numbers of the objects that stay, where the heap keeps names.
    pub numbers: Vec<Option<u32>>,
}

/// Gives each new home the number of its object, which stands at its old address still.
fn name_each<L: Ledger>(
    names: &mut HomeNames,
    addresses: &AddressNames,
    homes: &NewHomes,
    steps: &mut Steps<L>,
)
    requires spare { length homes.now.given.items ≤ names.old.spare }
    requires room { homes.now.first + need_for homes.now.given.items ≤ 2 ^ 32 }
    ensures names { NamesGiven homes.now (name_at addresses.now) (home_name names.old) (home_name names.new) }
    ensures visits { steps.new ≤ steps.old + length homes.now.given.items }
{
    // After the last home, this may be one more than a `u32` holds.
    let mut home = u64::from(homes.first);
    for g in &homes.given {
        steps.tick();
        if let Some(number) = addresses.get(g.from) {
            names.set(home as u32, number);
        }
        home += u64::from(cost(g.shape));
    }
}

/// Gives each new home the number of its object, where the heap keeps names, and else to contracts alone.
pub fn name_homes<L: Ledger>(
    names: &mut Option<Names>,
    maps: &mut GhostMaps,
    homes: &NewHomes,
    steps: &mut Steps<L>,
)
    requires spare { HasSpare homes.now names.old }
    requires room { homes.now.first + need_for homes.now.given.items ≤ 2 ^ 32 }
    ensures names { NamesHomesOf homes.now names.old maps.old names.new maps.new }
    ensures visits { steps.new ≤ steps.old + length homes.now.given.items }
{
    match names {
        Some(names) => name_each(&mut names.homes, &names.addresses, homes, steps),
        None => *maps = GhostMaps::pick(&(&*maps, homes)),
    }
}

/// Puts what was copied into the place of what was there.
pub fn put_back<L: Ledger>(
    heap: &mut Heap,
    held: &mut [Registers],
    decision: &Decision,
    copied: Copied,
    steps: &mut Steps<L>,
)
    requires fits { length copied.words.items ≤ length heap.old.space.list }
    requires nothing { goes decision.now.choice.stay 0 ≡ 0 }
    requires names { MayRename heap.old.space.used heap.old.names decision.now.choice.stay.moves.items
        copied.numbers.items }
    requires spare { HasSpare decision.now.homes heap.old.names }
    requires room { decision.now.homes.first + need_for decision.now.homes.given.items ≤ 2 ^ 32 }
    ensures put { IsPutBack heap.old heap.new held.old held.new decision.now copied }
    ensures visits { steps.new ≤ steps.old + 17 * length held.old + length decision.now.homes.given.items
        + length decision.now.choice.stay.moves.items }
{
    let used = heap.space.used();
    heap.space.replace(copied.words);
    heap.globals = Globals {
        items: copied.globals,
    };
    forward_held(&decision.choice.stay, held, steps);
    name_homes(&mut heap.names, &mut heap.maps, &decision.homes, steps);
    rename_all(
        &mut heap.names,
        &mut heap.maps,
        used,
        &decision.choice.stay.moves,
        &copied.numbers,
        steps,
    );
}
