//! What changes once everything that is to stay was copied. None of it takes memory.
//!
//! A register holds 0 or the address of an object that was found, and the table of new addresses has 0 at 0. So each
//! register is looked up there, whatever it holds.
//!
//! The names of addresses lie apart from the words, and a heap may have none. An object may move to an address from
//! which another one is still to take its number away. So the numbers of all objects that stay are read before the
//! first change, in the order of the moves; then the names of the words in use are cleared, and each object gets its
//! number again where it stands now.
ghost use Rattle.std.specs.Prelude.{◌≡◌, ℕ, ◌+◌, ◌*◌, ◌<◌, ◌≤◌, length, map, slice_get, slice_index, Some, None, IfOk};
ghost use Rattle.melt_scion.specs.Heaps.{register_in};
ghost use Rattle.melt_scion.specs.Names.{name_at};
ghost use Rattle.melt_copy.specs.declared.forwarding.Relocation.{Relocation};
ghost use Rattle.melt_copy.specs.Moving.{name_after};
ghost use Rattle.melt_copy.specs.Tracking.{goes};

use crate::forwarding::{Forwarding, Relocation};
use melt_model::{NoMemory, Steps};
use melt_scion::{AddressNames, Registers};
use std::alloc::Global;
use std::sync::ledger::Ledger;

/// Puts the new addresses into the registers of one thread.
fn forward_thread<L: Ledger>(
    forwarding: &Forwarding,
    registers: &mut Registers,
    steps: &mut Steps<L>,
)
    requires { goes forwarding.now 0 ≡ 0 }
    ensures registers { (r : ℕ) → slice_index registers.new.regs r
        ≡ goes forwarding.now (slice_index registers.old.regs r) }
    ensures visits { steps.new ≡ steps.old + 16 }
{
    for address in registers.regs.iter_mut() {
        steps.tick();
        *address = forwarding.forwarded(*address);
    }
}

/// Puts the new addresses into the registers of all threads.
pub fn forward_held<L: Ledger>(
    forwarding: &Forwarding,
    held: &mut [Registers],
    steps: &mut Steps<L>,
)
    requires { goes forwarding.now 0 ≡ 0 }
    ensures registers { (t r : ℕ) → register_in held.new t r ≡ goes forwarding.now (register_in held.old t r) }
    ensures visits { steps.new ≡ steps.old + 17 * length held.old }
{
    for registers in held.iter_mut() {
        steps.tick();
        forward_thread(forwarding, registers, steps);
    }
}

/// The numbers of the objects that move, in the order of the moves.
pub fn numbers_of<L: Ledger>(
    alloc: Global,
    names: &AddressNames,
    moves: &[Relocation],
    steps: &mut Steps<L>,
) -> Result<Vec<Option<u32>>, NoMemory>
    ensures numbers { IfOk result (λ numbers.
        numbers.items ≡ map (λ (m : Relocation). name_at names.now m.from) moves.now) }
    ensures visits { steps.new ≤ steps.old + length moves.now }
{
    let mut numbers = Vec::with_capacity(alloc, moves.len())?;
    for m in moves {
        steps.tick();
        numbers.push_reserved(names.get(m.from));
    }
    Ok(numbers)
}

/// Gives the objects that moved their numbers at their new addresses, and takes all others away. `used` words were
/// in use; no object was after them.
pub fn rename<L: Ledger>(
    names: &mut AddressNames,
    used: u32,
    moves: &[Relocation],
    numbers: &[Option<u32>],
    steps: &mut Steps<L>,
)
    requires used { used ≤ length names.old }
    requires after { (k : ℕ) → used < k → name_at names.old k ≡ None }
    requires numbers { numbers.now ≡ map (λ (m : Relocation). name_at names.old m.from) moves.now }
    requires places { (k : ℕ) (m : Relocation) → slice_get moves.now k ≡ Some m → (1 ≤ m.to) × (m.to ≤ used) }
    requires apart { (i j : ℕ) (m n : Relocation) → slice_get moves.now i ≡ Some m → slice_get moves.now j ≡ Some n
        → m.to ≡ n.to → i ≡ j }
    ensures names { (k : ℕ) → name_at names.new k ≡ name_after (name_at names.old) moves.now k }
    ensures size { length names.new ≡ length names.old }
    ensures visits { steps.new ≤ steps.old + length moves.now }
{
    names.clear(used);
    for (m, number) in moves.iter().zip(numbers) {
        steps.tick();
        if let Some(number) = number {
            names.set(m.to, *number);
        }
    }
}
