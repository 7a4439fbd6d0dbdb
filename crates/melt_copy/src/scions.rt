//! Live scions are roots: a record on disk refers to the object of each, which may have no other reference to it.
//!
//! They are listed once, before the first object moves. A scion keeps its number and its home, so its record on disk
//! stays right, and only the address beside it is that of the object after the collection.
ghost use Rattle.std.specs.Prelude.{◌≡◌, ℕ, ◌+◌, ◌≤◌, length, IfOk, OnOk};
ghost use Rattle.melt_scion.specs.Scions.{IsTable};
ghost use Rattle.melt_scion.specs.State.{State};
ghost use Rattle.melt_copy.specs.Tracking.{FindsScions, Grows, Tracks, TracksScions};

use crate::forwarding::Forwarding;
use melt_model::{NoMemory, Steps};
use melt_scion::ScionTable;
use melt_space::Space;
use std::alloc::Global;
use std::sync::ledger::Ledger;

/// The live scions of a table.
pub fn live_scions<L: Ledger>(
    alloc: Global,
    scions: &ScionTable,
    steps: &mut Steps<L>,
) -> Result<Vec<u32>, NoMemory>
    ensures live { IfOk result (λ live. live.items ≡ scions.now.live) }
    ensures table { IsTable scions.now }
    ensures visits { steps.new ≤ steps.old + length scions.now.live }
{
    let mut live = Vec::new(alloc);
    let mut next = scions.first();
    while let Some(scion) = next {
        steps.tick();
        live.push(scion)?;
        next = scions.next(scion);
    }
    Ok(live)
}

/// Finds the objects of the live scions, which are those of the list.
pub fn find_scions<L: Ledger>(
    forwarding: &mut Forwarding,
    space: &Space,
    scions: &ScionTable,
    live: &[u32],
    steps: &mut Steps<L>,
) -> Result<(), NoMemory>
    requires tracks { (s : State) × TracksScions space.now s forwarding.old scions.now }
    requires live { live.now ≡ scions.now.live }
    requires table { IsTable scions.now }
    ensures finds { OnOk result (FindsScions forwarding.new scions.now) }
    ensures grows { Grows forwarding.old forwarding.new }
    ensures tracks { (s : State) → TracksScions space.now s forwarding.old scions.now
        → Tracks space.now s forwarding.new }
    ensures visits { steps.new ≤ steps.old + length live.now }
{
    for scion in live {
        steps.tick();
        if let Some((_, address)) = scions.get(*scion) {
            forwarding.find(space, address)?;
        }
    }
    Ok(())
}
