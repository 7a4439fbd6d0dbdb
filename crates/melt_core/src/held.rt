//! The words of the objects that registers hold.
//!
//! They are counted anew and not kept from the last collection, which counted them too: a thread that ends at its
//! safepoint lets its registers hold nothing afterwards. Each register is compared with those before it, at most 8
//! times 16 of them, so that no memory is taken.
ghost use Rattle.std.specs.Prelude.{◌≡◌, ◌*◌, ◌/◌, ◌<◌, ◌↔◌, true, length, IsTrue};
ghost use Rattle.melt_model.specs.Alive.{CostsSum, Held, words_of};
ghost use Rattle.melt_scion.specs.Heaps.{OnDisk};
ghost use Rattle.melt_core.specs.Holdings.{AreSound, IsHeld, IsHeldBefore, IsSound, Takes, nth_register};
ghost use Rattle.melt_core.specs.Views.{Standing, View, registers_in, value, view};

use crate::machine::Core;
use melt_scion::Registers;
use melt_space::Space;
use melt_word::cost;

/// What a register holds, where those of all threads are counted in ascending order, 16 of each.
fn nth_register(held: &[Registers], k: u32) -> u32
    requires { k < 16 * length held.now }
    ensures value { result ≡ nth_register held.now k }
    ensures sixteen { length (registers_in held.now (k / 16)) ≡ 16 }
{
    let registers = &held[k as usize / 16];
    registers.regs[k as usize % 16]
}

/// Whether a register before this one holds the same.
fn is_held_before(held: &[Registers], k: u32) -> bool
    requires { k < 16 * length held.now }
    ensures { IsTrue result ↔ IsHeldBefore held.now k }
{
    let address = nth_register(held, k);
    for before in 0..k {
        if nth_register(held, before) == address {
            return true;
        }
    }
    false
}

/// How many words the object at an address takes, which some register holds.
fn words_at(space: &Space, address: u32) -> u32
    requires { (v : View) × (v.space ≡ space.now) × IsHeld v address }
    ensures { (v : View) → v.space ≡ space.now → Takes v address result }
{
    cost(space.shape(address))
}

/// How many words the objects of a space take that these registers hold, each counted once.
pub fn held_words(space: &Space, held: &[Registers]) -> u32
    requires { AreSound space.now held.now }
    ensures { (v : View) → v.space ≡ space.now → v.held ≡ held.now → (disk : OnDisk) → Standing true disk v
        → CostsSum (words_of v.log) (Held (value v)) result }
{
    let mut words = 0;
    for k in 0..16 * held.len() as u32 {
        let address = nth_register(held, k);
        if address != 0 && !is_held_before(held, k) {
            words += words_at(space, address);
        }
    }
    words
}

impl Core {
    /// How many words the objects take that registers hold, each counted once.
    pub fn held(&self) -> u32
        requires { IsSound (view self.now) }
        ensures { (disk : OnDisk) → Standing true disk (view self.now)
            → CostsSum (words_of (view self.now).log) (Held (value (view self.now))) result }
    {
        held_words(&self.heap.space, &self.rest.held)
    }
}
