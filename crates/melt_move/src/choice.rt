//! Who stays, and who leaves.
//!
//! An object leaves where it has the stale bit and no register holds it. Those in registers were found first, so that
//! their number decides. What stays is found anew, by the same kind of table and list, and so gets its new place.
ghost use Rattle.std.specs.Prelude.{◌≡◌, ℕ, ◌+◌, ◌≤◌, length, IfOk};
ghost use Rattle.melt_scion.specs.State.{State};
ghost use Rattle.melt_word.specs.Words.{IsHeader, header_word};
ghost use Rattle.melt_word.specs.declared.header.Header.{Header};
ghost use Rattle.melt_space.specs.Space.{HasHeader, IsWord, word_at};
ghost use Rattle.melt_copy.specs.Reaching.{IsLiveSet};
ghost use Rattle.melt_move.specs.Plans.{IsChoice, IsSeen};

use melt_copy::{Forwarding, LiveSet};
use melt_model::{NoMemory, Steps};
use melt_space::Space;
use melt_word::{Shape, decode_header};
use std::alloc::Global;
use std::sync::ledger::Ledger;

/// An object that leaves the space: its address, and its shape.
#[derive(Clone, Copy)]
pub struct Departure {
    pub from: u32,
    pub shape: Shape,
}

/// Which of the objects that can be reached stay in the space, and where, and which leave.
#[derive(Drop)]
pub struct Choice {
    /// Those that stay, in the order in which they are to lie from word 1 on.
    pub stay: Forwarding,
    /// Those that leave, in the order in which they were found.
    pub leaving: Vec<Departure>,
}

/// Whether the object at an address has the stale bit.
fn is_stale(space: &Space, address: u32) -> bool
    requires word { IsWord space.now address }
    requires header { HasHeader space.now address }
    ensures { (h : Header) → IsHeader h → word_at space.now address ≡ header_word h → result ≡ h.stale }
{
    match decode_header(space.word(address)) {
        Ok(header) => header.stale,
        Err(_) => unreachable!(),
    }
}

/// Chooses among the objects that can be reached.
pub fn choose<L: Ledger>(
    alloc: Global,
    space: &Space,
    live: &LiveSet,
    steps: &mut Steps<L>,
) -> Result<Choice, NoMemory>
    requires { (s : State) × IsSeen space.now s × IsLiveSet s live.now }
    ensures chooses { IfOk result (λ choice. (s : State) → IsSeen space.now s → IsLiveSet s live.now
        → IsChoice s live.now choice) }
    ensures visits { steps.new ≤ steps.old + length live.now.forwarding.moves.items }
{
    let mut stay = Forwarding::new(alloc, space.used())?;
    let mut leaving = Vec::new(alloc);
    for (k, m) in live.forwarding.moves.iter().enumerate() {
        steps.tick();
        if k >= live.held_count && is_stale(space, m.from) {
            leaving.push(Departure {
                from: m.from,
                shape: m.shape,
            })?;
        } else {
            stay.find(space, m.from)?;
        }
    }
    Ok(Choice { stay, leaving })
}
