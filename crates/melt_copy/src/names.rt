//! The numbers of the objects of a heap that keeps names, while these move.
//!
//! An object may move to an address from which another one is still to take its number away. So the numbers at the new
//! addresses are a map of their own, which is made before the first object moves and takes the place of the old one in
//! the end.
ghost use Rattle.std.specs.Prelude.{◌≡◌, ◌^◌, ◌<◌, [], None, IfOk, OnErr, OnOk};
ghost use Rattle.melt_scion.specs.Heaps.{NamesMade};
ghost use Rattle.melt_copy.specs.Evacuating.{AreCarried, CarriesName, HasPlace};

use melt_model::NoMemory;
use melt_scion::{AddressNames, Names};
use std::alloc::Global;

/// The names of a heap, and the numbers of the objects that have moved, at their new addresses.
#[derive(Drop)]
pub struct Renaming {
    pub names: Names,
    pub moved: AddressNames,
}

/// Takes the names of a heap of so many words, if it keeps any, for objects that are to move.
pub fn take_names(
    alloc: Global,
    names: &mut Option<Names>,
    words: u32,
) -> Result<Option<Renaming>, NoMemory>
    requires words { words < 2 ^ 30 }
    requires made { NamesMade words names.old }
    ensures carried { IfOk result (λ renaming. AreCarried names.old renaming []) }
    ensures taken { OnOk result (names.new ≡ None) }
    ensures unchanged { OnErr result (names.new ≡ names.old) }
{
    if names.is_none() {
        return Ok(None);
    }
    let moved = AddressNames::new(alloc, words)?;
    match names.take() {
        Some(names) => Ok(Some(Renaming { names, moved })),
        None => Ok(None),
    }
}

/// Gives the number of the object at an address to its copy at another one, where the heap keeps names.
#[inline(always)]
pub fn carry_name(names: &mut Option<Renaming>, from: u32, to: u32)
    requires { HasPlace names.old to }
    ensures { CarriesName names.old names.new from to }
{
    if let Some(Renaming { names, moved }) = names {
        if let Some(number) = names.addresses.get(from) {
            moved.set(to, number);
        }
    }
}
