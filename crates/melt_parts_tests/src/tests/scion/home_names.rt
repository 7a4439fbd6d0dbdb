use melt_same::same;
use melt_scion::HomeNames;
use std::test::Fail;

#[test]
fn a_home_has_the_name_that_was_set(rt: HostRuntime) -> Result<(), Fail> {
    let mut names = HomeNames::new(rt.alloc());
    let none = names.get(1);
    names.reserve(3)?;
    names.set(1, 7);
    names.set(4_294_967_295, 0);
    let found = [
        names.get(0),
        names.get(1),
        names.get(2),
        names.get(4_294_967_295),
    ];
    names.set(1, 8);
    let other = names.get(1);
    names.remove(1);
    names.remove(2);
    let left = [names.get(1), names.get(4_294_967_295)];
    let wanted = [None, Some(7), None, Some(0)];
    same(
        (none, found, other, left),
        (None, wanted, Some(8), [None, Some(0)]),
    )
}
