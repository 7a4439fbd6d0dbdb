//! The table of scions: which home on disk each scion stands for, and at which address its object is.
//!
//! The numbers stand in two lists over links, those of no scion and those that are live. So a number is found, given and
//! freed in a few steps, and a walk meets live scions alone: the one that was given last comes first.
ghost use Rattle.std.specs.Prelude.{◌≡◌, ◌<◌, length, IfOk};
ghost use Rattle.melt_scion.specs.Scions.{IsLive, IsTable, Adds, Frees, SetsAddress, empty_table, scion_at, first_of};
ghost use Rattle.melt_scion.specs.Scions.{next_after};

use melt_links::Links;
use melt_model::NoMemory;
use std::alloc::Global;
use std::marker::Model;

/// The list of the numbers that are not live. The first is given next.
const UNUSED: u32 = 0;

/// The list of the live scions.
const LIVE: u32 = 1;

/// A finite map from scions to homes and addresses.
#[derive(Drop)]
pub struct ScionTable {
    /// For each number from 1 on, its home and its address, where it is live.
    pairs: Vec<Option<(u32, u32)>>,
    /// Node k is the number k + 1.
    links: Links,
}

impl Model for ScionTable {
    ghost use Rattle.melt_scion.specs.Scions.{Scions, IsKept, table_of};

    ghost Value = { Scions };

    ghost view = { λ table. table_of table.pairs.items table.links };

    ghost invariant = { λ table. IsKept table.pairs.items table.links };
}

impl ScionTable {
    /// A table for the scions from 1 to `n`. None is live.
    pub fn new(alloc: Global, n: u32) -> Result<ScionTable, NoMemory>
        ensures empty { IfOk result (λ table. table ≡ empty_table n) }
        ensures table { IfOk result IsTable }
    {
        let pairs = vec![in alloc; None; n as usize]?;
        let mut links = Links::new(alloc, n, 2)?;
        for pushed in 0..n {
            // From the highest on, since each goes to the front: so the lowest is given first.
            links.push_front(UNUSED, n - 1 - pushed);
        }
        Ok(ScionTable { pairs, links })
    }

    /// Makes a number live, with a home and an address: the one that was freed last among those that were freed and not
    /// given again, or else the lowest that was never given.
    pub fn add(&mut self, home: u32, address: u32) -> u32
        requires { length self.old.live < length self.old.pairs }
        ensures adds { Adds self.old self.new home address result }
        ensures table { IsTable self.new }
    {
        let node = self.links.first(UNUSED).unwrap();
        self.links.unlink(node);
        self.links.push_front(LIVE, node);
        self.pairs[node as usize] = Some((home, address));
        node + 1
    }

    /// Makes a live scion an unused number.
    pub fn free(&mut self, scion: u32)
        requires { IsLive self.old scion }
        ensures frees { Frees self.old self.new scion }
        ensures table { IsTable self.new }
    {
        let node = scion - 1;
        self.links.unlink(node);
        self.links.push_front(UNUSED, node);
        self.pairs[node as usize] = None;
    }

    /// The home and the address of a scion, if it is live.
    pub fn get(&self, scion: u32) -> Option<(u32, u32)>
        ensures pair { result ≡ scion_at self.now scion }
        ensures table { IsTable self.now }
    {
        let pairs = &self.pairs;
        let index = (scion as usize).checked_sub(1)?;
        pairs.get(index).copied().unwrap_or(None)
    }

    /// Gives a live scion another address.
    pub fn set_address(&mut self, scion: u32, address: u32)
        requires { IsLive self.old scion }
        ensures sets { SetsAddress self.old self.new scion address }
        ensures table { IsTable self.new }
    {
        let index = scion as usize - 1;
        if let Some((home, _)) = self.pairs[index] {
            self.pairs[index] = Some((home, address));
        }
    }

    /// The first scion of a walk over all that are live, if there is one.
    pub fn first(&self) -> Option<u32>
        ensures first { result ≡ first_of self.now.live }
        ensures table { IsTable self.now }
    {
        let node = self.links.first(LIVE)?;
        Some(node + 1)
    }

    /// The scion after a live one in such a walk, if there is one.
    pub fn next(&self, scion: u32) -> Option<u32>
        requires { IsLive self.now scion }
        ensures next { result ≡ next_after self.now.live scion }
        ensures table { IsTable self.now }
    {
        let node = self.links.next(scion - 1)?;
        Some(node + 1)
    }
}
