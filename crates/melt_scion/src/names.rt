//! The names of addresses: which object stands at an address.
ghost use Rattle.std.specs.Prelude.{◌≡◌, ◌≤◌, ◌<◌, ◌^◌, ◌++◌, drop, false, length, replicate, slice_index_or, None};
ghost use Rattle.std.specs.Prelude.{IfOk};
ghost use Rattle.melt_scion.specs.Names.{Clears, SetsName, name_at};

use melt_model::NoMemory;
use std::alloc::Global;
use std::marker::Model;

/// A finite map from addresses to the numbers of the objects that start there.
#[derive(Drop)]
pub struct AddressNames {
    /// For each address from 1 on, whether an object starts there.
    named: Vec<bool>,
    /// The number of that object. Where none starts, it means nothing.
    numbers: Vec<u32>,
}

impl Model for AddressNames {
    ghost use Rattle.std.specs.Prelude.{List, Option, ℕ, ◌≡◌, length};
    ghost use Rattle.melt_scion.specs.Names.{names_of};

    ghost Value = { List (Option ℕ) };

    ghost view = { λ names. names_of names.named.items names.numbers.items };

    ghost invariant = { λ names. length names.named.items ≡ length names.numbers.items };
}

/// Whether an object starts at the address after an index.
fn is_named(named: &[bool], index: usize) -> bool
    ensures { result ≡ slice_index_or named.now index false }
{
    named.get(index).copied().unwrap_or(false)
}

/// Takes away the first names, so many of them.
fn forget(named: &mut [bool], count: usize)
    requires { count ≤ length named.old }
    ensures { named.new ≡ replicate count false ++ drop count named.old }
{
    named[..count].fill(false);
}

impl AddressNames {
    /// Names for the addresses from 1 to `words`, at most `MAX_ADDRESS`. No address has one.
    pub fn new(alloc: Global, words: u32) -> Result<AddressNames, NoMemory>
        requires { words < 2 ^ 30 }
        ensures { IfOk result (λ names. names ≡ replicate words None) }
    {
        let named = vec![in alloc; false; words as usize]?;
        let numbers = vec![in alloc; 0; words as usize]?;
        Ok(AddressNames { named, numbers })
    }

    /// The number of the object that starts at an address, if one does.
    pub fn get(&self, address: u32) -> Option<u32>
        ensures { result ≡ name_at self.now address }
    {
        let index = (address as usize).checked_sub(1)?;
        if is_named(&self.named, index) {
            Some(self.numbers[index])
        } else {
            None
        }
    }

    /// Says that the object of this number starts at an address, from 1 to the `words` that the names are for.
    pub fn set(&mut self, address: u32, number: u32)
        requires first { 1 ≤ address }
        requires last { address ≤ length self.old }
        ensures { SetsName self.old self.new address number }
    {
        let index = address as usize - 1;
        self.named[index] = true;
        self.numbers[index] = number;
    }

    /// Says that no object starts at an address from 1 to `last`, at most the `words` that the names are for.
    pub fn clear(&mut self, last: u32)
        requires { last ≤ length self.old }
        ensures { Clears self.old self.new last }
    {
        forget(&mut self.named, last as usize);
    }
}
