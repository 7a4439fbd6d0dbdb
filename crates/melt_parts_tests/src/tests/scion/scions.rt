ghost use Rattle.std.specs.Prelude.{◌≡◌};
ghost use Rattle.melt_scion.specs.Scions.{empty_table};

use melt_same::same;
use melt_scion::ScionTable;
use std::test::Fail;

/// Gives all numbers of a table, frees two, and gives these again.
fn give_again(scions: &mut ScionTable) -> Result<(), Fail>
    requires { scions.old ≡ empty_table 3 }
{
    same(scions.get(1), None)?;
    same(scions.add(9, 5), 1)?;
    same(scions.add(8, 6), 2)?;
    same(scions.add(7, 1), 3)?;
    scions.free(2);
    scions.free(1);
    same(scions.add(4, 2), 1)?;
    same(scions.add(3, 4), 2)?;
    let found = [
        scions.get(0),
        scions.get(1),
        scions.get(2),
        scions.get(3),
        scions.get(4),
    ];
    same(
        found,
        [None, Some((4, 2)), Some((3, 4)), Some((7, 1)), None],
    )
}

#[test]
fn numbers_are_given_in_order_and_the_last_freed_first(rt: HostRuntime) -> Result<(), Fail> {
    let mut scions = ScionTable::new(rt.alloc(), 3)?;
    give_again(&mut scions)
}

/// Walks over the scions of a table of which one was freed.
fn walk_past_freed(scions: &mut ScionTable) -> Result<(), Fail>
    requires { scions.old ≡ empty_table 3 }
{
    same(scions.first(), None)?;
    same(scions.add(9, 5), 1)?;
    same(scions.add(8, 6), 2)?;
    same(scions.add(7, 1), 3)?;
    scions.free(2);
    let walk = [scions.first(), scions.next(3), scions.next(1)];
    same(walk, [Some(3), Some(1), None])?;
    same((scions.add(6, 2), scions.first()), (2, Some(2)))
}

#[test]
fn a_walk_passes_each_live_scion(rt: HostRuntime) -> Result<(), Fail> {
    let mut scions = ScionTable::new(rt.alloc(), 3)?;
    walk_past_freed(&mut scions)
}

/// Sets the address of one of two scions.
fn set_first(scions: &mut ScionTable) -> Result<(), Fail>
    requires { scions.old ≡ empty_table 2 }
{
    same(scions.add(9, 5), 1)?;
    same(scions.add(8, 6), 2)?;
    scions.set_address(1, 7);
    let found = [scions.get(1), scions.get(2)];
    let walk = [scions.first(), scions.next(2)];
    let wanted = [Some((9, 7)), Some((8, 6))];
    same((found, walk), (wanted, [Some(2), Some(1)]))
}

#[test]
fn an_address_is_set_and_the_home_stays(rt: HostRuntime) -> Result<(), Fail> {
    let mut scions = ScionTable::new(rt.alloc(), 2)?;
    set_first(&mut scions)
}
