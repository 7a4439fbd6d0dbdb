//! Spaces and heaps of given words.

ghost use Rattle.std.specs.Prelude.{◌≡◌, ◌<◌, ◌≤◌, ◌^◌, length, IfOk};
ghost use Rattle.melt_space.specs.Space.{AreWords};
ghost use Rattle.melt_copy_tests.specs.Built.{IsHeapOf, IsSpaceOf};

use melt_model::NoMemory;
use melt_scion::{AddressNames, Forwards, GhostMaps, Globals, Heap, HomeNames, Names, ScionTable};
use melt_space::Space;
use std::alloc::Global;

fn copy_of(alloc: Global, words: &[u64]) -> Result<Vec<u64>, NoMemory>
    ensures { IfOk result (λ copy. copy.items ≡ words.now) }
{
    let mut copy = Vec::new(alloc);
    copy.extend_from_slice(words)?;
    Ok(copy)
}

/// A space of so many words, of which these are in use.
pub fn space_of(alloc: Global, count: u32, words: &[u64]) -> Result<Space, NoMemory>
    requires small { count < 2 ^ 30 }
    requires fits { length words.now ≤ count }
    ensures { IfOk result (IsSpaceOf count words.now) }
{
    let used = copy_of(alloc, words)?;
    let mut space = Space::new(alloc, count)?;
    space.replace(used);
    Ok(space)
}

/// A heap of so many words, of which these are in use, with these globals and these forwarding words. The objects have
/// these numbers, and there is no scion.
pub fn heap_of(
    alloc: Global,
    count: u32,
    words: &[u64],
    addresses: AddressNames,
    globals: &[u64],
    forward: &[u64],
) -> Result<Heap, NoMemory>
    requires small { count < 2 ^ 30 }
    requires fits { length words.now ≤ count }
    ensures { IfOk result (IsHeapOf count words.now addresses globals.now forward.now) }
{
    let globals = copy_of(alloc, globals)?;
    let forward = copy_of(alloc, forward)?;
    let space = space_of(alloc, count, words)?;
    let scions = ScionTable::new(alloc, count / 2)?;
    let homes = HomeNames::new(alloc);
    Ok(Heap {
        space,
        scions,
        globals: Globals { items: globals },
        forward: Forwards { items: forward },
        names: Some(Names { addresses, homes }),
        maps: GhostMaps::none(),
    })
}

/// The words of a space that are in use.
pub fn used_words(space: &Space) -> &[u64]
    ensures { AreWords space.now 1 space.now.used result.now }
{
    space.words_at(1, space.used())
}
