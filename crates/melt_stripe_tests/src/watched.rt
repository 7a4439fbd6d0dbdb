//! A disk that counts the readers which were lent and not given back.
use melt_io::{Failed, LendRefusal, StaleDisk};
use std::alloc::Global;

#[derive(Drop)]
pub struct Watched<D> {
    pub disk: D,
    pub out: u32,
}

impl<D: StaleDisk> StaleDisk for Watched<D> {
    type Reader = D::Reader;

    ghost image = { λ d. D.image d.disk };

    ghost faults = { λ d. D.faults d.disk };

    ghost read_faults = { λ d. D.read_faults d.disk };

    ghost lends = { λ d. D.lends d.disk };

    ghost writes = { λ d. D.writes d.disk };

    fn write_at(&mut self, at: u32, words: &[u64]) -> Result<(), Failed> {
        self.disk.write_at(at, words)
    }

    fn lend(&mut self, alloc: Global) -> Result<D::Reader, LendRefusal> {
        let reader = self.disk.lend(alloc)?;
        self.out = self.out.saturating_add(1);
        Ok(reader)
    }

    fn give_back(&mut self, reader: D::Reader) {
        self.out = self.out.saturating_sub(1);
        self.disk.give_back(reader);
    }
}
