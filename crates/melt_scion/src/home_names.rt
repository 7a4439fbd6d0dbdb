//! The names of homes: which object has a home on disk.
//!
//! They stand in a hash map. A home is found there in about the same time however many there are, and a home is put
//! where room was made before without a call for memory. Two sorted vectors would move half of the homes for each new
//! one.
ghost use Rattle.std.specs.Prelude.{◌≡◌, ◌-◌, ◌≤◌, None, if◌then◌else◌, OnOk, OnErr};
ghost use Rattle.std.specs.Ordering.{nat_cmp};
ghost use Rattle.std.specs.FinMap.{empty, insert, remove, contains_key};
ghost use Rattle.melt_scion.specs.HomeNames.{home_name};

use melt_model::NoMemory;
use std::alloc::Global;
use std::collections::HashMap;
use std::marker::Model;

/// A finite map from homes to the numbers of the objects that have them.
#[derive(Drop)]
pub struct HomeNames {
    numbers: HashMap<u32, u32>,
    /// How many more homes were reserved. The map itself may have room for more than these.
    spare: u32,
}

impl Model for HomeNames {
    ghost use Rattle.std.specs.Prelude.{◌≤◌};
    ghost use Rattle.std.specs.FinMap.{from_entries};
    ghost use Rattle.std.specs.HashMap as hash;
    ghost use Rattle.melt_scion.specs.HomeNames.{NamedHomes, named_homes_code};

    ghost Value = { NamedHomes };

    ghost coded = { named_homes_code };

    ghost view = { λ homes. record { names = from_entries homes.numbers.entries; spare = homes.spare } };

    ghost invariant = { λ homes. homes.spare ≤ hash.spare homes.numbers };
}

impl HomeNames {
    /// No home has a name, and none is reserved.
    pub fn new(alloc: Global) -> HomeNames
        ensures names { result.names ≡ empty }
        ensures spare { result.spare ≡ 0 }
    {
        HomeNames {
            numbers: HashMap::new(alloc),
            spare: 0,
        }
    }

    /// Makes room for so many more homes at least.
    pub fn reserve(&mut self, more: u32) -> Result<(), NoMemory>
        ensures names { self.new.names ≡ self.old.names }
        ensures ok { OnOk result (more ≤ self.new.spare) }
        ensures kept { self.old.spare ≤ self.new.spare }
        ensures err { OnErr result (self.new.spare ≡ self.old.spare) }
    {
        self.numbers.reserve(more as usize)?;
        self.spare = self.spare.max(more);
        Ok(())
    }

    /// The number of the object that has a home, if one was set.
    pub fn get(&self, home: u32) -> Option<u32>
        ensures { result ≡ home_name self.now home }
    {
        self.numbers.get(&home).copied()
    }

    /// Says that the object of this number has a home. A home without a name takes one of the reserved places.
    pub fn set(&mut self, home: u32, number: u32)
        requires room { home_name self.old home ≡ None → 1 ≤ self.old.spare }
        ensures names { self.new.names ≡ insert self.old.names home number }
        ensures spare { self.new.spare
            ≡ (if contains_key self.old.names home then self.old.spare else self.old.spare - 1) }
    {
        if let Some(known) = self.numbers.get_mut(&home) {
            *known = number;
            return;
        }
        // There is room where a place is spare.
        let _added = self.numbers.insert(home, number);
        self.spare -= 1;
    }

    /// Says that no object has this home. Its place is not reserved anew.
    pub fn remove(&mut self, home: u32)
        ensures names { self.new.names ≡ remove self.old.names home }
        ensures spare { self.new.spare ≡ self.old.spare }
    {
        self.numbers.remove(&home);
    }
}
