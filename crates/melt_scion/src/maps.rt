//! The maps of a heap that keeps no names, for contracts alone.
ghost use Rattle.std.specs.Prelude.{◌≡◌};
ghost use Rattle.melt_scion.specs.GhostMaps.{NamePairs, no_pairs};

use melt_model::Ghost;
use std::collections::LinkedList;
use std::fmt;
use std::marker::Model;

/// Pairs of a key and the number of an object. No value of it is ever made.
type Pairs = LinkedList<(u32, u32)>;

/// The numbers of the objects of a heap, by their addresses and by their homes, as only contracts see them. It takes no
/// bytes, so no code can ask it for a number.
#[derive(Drop)]
pub struct GhostMaps {
    pairs: Ghost<(Pairs, Pairs)>,
}

impl Model for GhostMaps {
    ghost use Rattle.melt_scion.specs.GhostMaps.{NamePairs, name_pairs_code};

    ghost Value = { NamePairs };

    ghost coded = { name_pairs_code };

    ghost view = { λ maps. record { addresses = maps.pairs.0; homes = maps.pairs.1 } };
}

impl GhostMaps {
    /// No address and no home has a number.
    pub fn none() -> GhostMaps
        ensures { result ≡ no_pairs }
    {
        GhostMaps::pick(&())
    }

    /// Maps that the proof of the caller picks. It can name what `from` shows and nothing else, so a caller that needs
    /// several things passes a tuple of them. The code reads none of it.
    pub fn pick<T>(from: &T) -> GhostMaps
        ghost pairs: { NamePairs }
        ensures { result ≡ pairs }
    {
        GhostMaps {
            pairs: Ghost::pick(from),
        }
    }
}

impl fmt::Debug for GhostMaps {
    fn fmt<W: fmt::Write>(&self, f: &mut fmt::Formatter<W>) -> fmt::Result {
        f.write_str("GhostMaps")
    }
}
