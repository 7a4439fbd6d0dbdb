mod home_names;
mod maps;
mod scions;

use melt_same::same;
use melt_scion::{AddressNames, Heap};
use std::alloc::Global;
use std::test::Fail;

/// Fails where an address has another name than is wanted.
fn same_names(names: &AddressNames, wanted: &[(u32, Option<u32>)]) -> Result<(), Fail> {
    for (address, want) in wanted {
        same((*address, names.get(*address)), (*address, *want))?;
    }
    Ok(())
}

#[test]
fn an_address_has_the_name_that_was_set(rt: HostRuntime) -> Result<(), Fail> {
    let mut names = AddressNames::new(rt.alloc(), 3)?;
    names.set(2, 7);
    names.set(3, 0);
    let wanted = [
        (0, None),
        (1, None),
        (2, Some(7)),
        (3, Some(0)),
        (4, None),
        (u32::MAX, None),
    ];
    same_names(&names, &wanted)?;
    names.set(2, 1);
    same(names.get(2), Some(1))
}

/// Fails where a heap is another than a new one of 5 words, 2 globals and 3 forwarding words.
fn same_new(heap: &Heap, named: bool) -> Result<(), Fail> {
    let sizes = (heap.space.words(), heap.space.used());
    same((sizes, heap.scions.first()), ((5, 0), None))?;
    let (globals, forward) = ([0; 2], [0; 3]);
    same(heap.globals.items.as_slice(), globals.as_slice())?;
    same(heap.forward.items.as_slice(), forward.as_slice())?;
    same(heap.names.is_some(), named)?;
    if let Some(names) = &heap.names {
        for address in 0..=6 {
            let found = (names.addresses.get(address), names.homes.get(address));
            same((address, found), (address, (None, None)))?;
        }
    }
    Ok(())
}

/// Makes a new heap, and compares it.
fn make_new(alloc: Global, named: bool) -> Result<(), Fail> {
    let heap = Heap::new(alloc, 5, 2, 3, named)?;
    same_new(&heap, named)
}

#[test]
fn a_new_heap_has_names_where_they_were_asked_for(rt: HostRuntime) -> Result<(), Fail> {
    make_new(rt.alloc(), false)?;
    make_new(rt.alloc(), true)
}

#[test]
fn the_first_names_are_cleared(rt: HostRuntime) -> Result<(), Fail> {
    let mut names = AddressNames::new(rt.alloc(), 4)?;
    names.set(1, 5);
    names.set(2, 6);
    names.set(3, 7);
    names.clear(0);
    same(names.get(1), Some(5))?;
    names.clear(2);
    let wanted = [(0, None), (1, None), (2, None), (3, Some(7)), (4, None)];
    same_names(&names, &wanted)
}
