//! A heap: its space, its scions, its globals and forwarding words, and the names of its objects.
//!
//! The scions of a heap and its forwarding words join it to a disk: a live scion says which object a record on disk
//! stands for, and a forwarding word which object came back from a home. Both are roots of what is on disk, so both go
//! with the heap from epoch to epoch. An object takes two words at least, and each live scion is that of another
//! object. So a table for half as many scions as there are words is never full.
ghost use Rattle.std.specs.Prelude.{◌<◌, ◌^◌, IfOk};
ghost use Rattle.melt_scion.specs.Heaps.{IsNewHeap};

use crate::home_names::HomeNames;
use crate::maps::GhostMaps;
use crate::names::AddressNames;
use crate::scions::ScionTable;
use melt_model::NoMemory;
use melt_space::Space;
use std::alloc::Global;
use std::fmt;
use std::marker::Model;

/// The words of all globals, each that of a reference.
#[derive(Drop)]
pub struct Globals {
    pub items: Vec<u64>,
}

impl Model for Globals {
    ghost use Rattle.std.specs.Prelude.{List, ℕ};

    ghost Value = { List ℕ };

    ghost view = { λ globals. globals.items.items };
}

/// The forwarding words: each is 0, or says at which address the object of a home is since it came back.
#[derive(Drop)]
pub struct Forwards {
    pub items: Vec<u64>,
}

impl Model for Forwards {
    ghost use Rattle.std.specs.Prelude.{List, ℕ};

    ghost Value = { List ℕ };

    ghost view = { λ forwards. forwards.items.items };
}

/// The numbers of the objects of a heap, by their addresses and by their homes.
#[derive(Drop)]
pub struct Names {
    pub addresses: AddressNames,
    pub homes: HomeNames,
}

/// A heap of fixed size. It has names where its history is stored, since that speaks of objects by their numbers. Where
/// it has none, `maps` says the same to contracts; where it has names, `maps` means nothing.
#[derive(Drop)]
pub struct Heap {
    pub space: Space,
    pub scions: ScionTable,
    pub globals: Globals,
    pub forward: Forwards,
    pub names: Option<Names>,
    pub maps: GhostMaps,
}

/// Shows that it is one. It has too many words to show them.
impl fmt::Debug for Heap {
    fn fmt<W: fmt::Write>(&self, f: &mut fmt::Formatter<W>) -> fmt::Result {
        f.write_str("Heap { .. }")
    }
}

impl Heap {
    /// A heap of so many words, at most `MAX_ADDRESS`, so many globals and so many forwarding words. It has no object
    /// and no scion; each global holds nothing, and each forwarding word is empty. It has names where `named` says so.
    pub fn new(
        alloc: Global,
        words: u32,
        globals: u32,
        forward: u32,
        named: bool,
    ) -> Result<Heap, NoMemory>
        requires { words < 2 ^ 30 }
        ensures { IfOk result (IsNewHeap words globals forward named) }
    {
        let names = if named {
            let addresses = AddressNames::new(alloc, words)?;
            let homes = HomeNames::new(alloc);
            Some(Names { addresses, homes })
        } else {
            None
        };
        Ok(Heap {
            space: Space::new(alloc, words)?,
            // An object has two words at least, so there is a scion for each that could be in use.
            scions: ScionTable::new(alloc, words / 2)?,
            globals: Globals {
                items: vec![in alloc; 0; globals as usize]?,
            },
            forward: Forwards {
                items: vec![in alloc; 0; forward as usize]?,
            },
            names,
            maps: GhostMaps::none(),
        })
    }
}
