ghost use Rattle.std.specs.Prelude.{◌≡◌, Some};
ghost use Rattle.melt_scion.specs.GhostMaps.{named, numbered};

use melt_same::same;
use melt_scion::GhostMaps;
use std::mem::size_of;
use std::test::Fail;

/// The object at an address has this number too.
fn with_number(maps: GhostMaps, address: u32, number: u32) -> GhostMaps
    ensures maps { result ≡ numbered maps address number }
    ensures here { named result.addresses address ≡ Some number }
{
    GhostMaps::pick(&(&maps, address, number))
}

/// Stands for code that hands a value to another thread, and lends it to one.
fn crosses<T: Send + Sync>(value: T) -> T {
    value
}

#[test]
fn maps_take_no_bytes_and_cross_threads(rt: HostRuntime) -> Result<(), Fail> {
    same(size_of::<GhostMaps>(), 0)?;
    let maps = crosses(with_number(GhostMaps::none(), 3, 7));
    let text = format!(in rt.alloc(); "{maps:?}")?;
    same(text.as_str(), "GhostMaps")
}
