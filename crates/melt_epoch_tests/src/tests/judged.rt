use self::Row::{Loads, Stores};
use super::judge::{Deed, PLACES, stand_in_an_order};
use melt_same::same;
use std::alloc::{AllocError, Global};
use std::test::Fail;

/// A store, or a load, of place 0 by a call that was made from the first time to the second.
fn deed(is_store: bool, value: u64, begun: u64, ended: u64) -> Deed {
    Deed {
        is_store,
        place: 0,
        value,
        begun,
        ended,
    }
}

pub(super) fn stores(value: u64, begun: u64, ended: u64) -> Deed {
    deed(true, value, begun, ended)
}

pub(super) fn loads(value: u64, begun: u64, ended: u64) -> Deed {
    deed(false, value, begun, ended)
}

/// Whether the calls of two threads stand in one order.
pub(super) fn is_legal(alloc: Global, first: &[Deed], second: &[Deed]) -> Result<bool, AllocError> {
    stand_in_an_order(alloc, &[first, second], [0; PLACES])
}

/// A store or a load as it stands in a table: the value, and when the call was made.
#[derive(Clone, Copy)]
enum Row {
    Stores(u64, u64, u64),
    Loads(u64, u64, u64),
}

impl Row {
    fn deed(self) -> Deed {
        match self {
            Row::Stores(value, begun, ended) => stores(value, begun, ended),
            Row::Loads(value, begun, ended) => loads(value, begun, ended),
        }
    }
}

/// What two threads did, and whether it stands in one order.
const ROWS: [([Row; 2], [Row; 2], bool); 8] = [
    (
        [Stores(1, 0, 9), Loads(1, 10, 19)],
        [Stores(2, 1, 8), Loads(2, 11, 18)],
        false,
    ),
    (
        [Stores(1, 0, 9), Loads(1, 10, 19)],
        [Stores(2, 1, 8), Loads(1, 11, 18)],
        true,
    ),
    (
        [Stores(1, 0, 9), Loads(1, 10, 19)],
        [Stores(2, 1, 18), Loads(2, 20, 21)],
        true,
    ),
    (
        [Stores(1, 0, 9), Loads(1, 10, 19)],
        [Loads(0, 1, 18), Loads(1, 20, 21)],
        true,
    ),
    (
        [Stores(1, 0, 9), Loads(1, 10, 19)],
        [Loads(0, 11, 18), Loads(1, 20, 21)],
        false,
    ),
    (
        [Stores(1, 0, 9), Loads(2, 10, 19)],
        [Stores(2, 11, 18), Loads(2, 20, 21)],
        true,
    ),
    (
        [Stores(1, 0, 9), Loads(2, 10, 12)],
        [Stores(2, 13, 18), Loads(2, 20, 21)],
        false,
    ),
    (
        [Stores(1, 0, 9), Loads(3, 10, 19)],
        [Stores(2, 11, 18), Loads(2, 20, 21)],
        false,
    ),
];

#[test]
fn an_order_is_found_where_there_is_one(rt: HostRuntime) -> Result<(), Fail> {
    for (at, ([a, b], [c, d], wanted)) in ROWS.iter().enumerate() {
        let first = [a.deed(), b.deed()];
        let second = [c.deed(), d.deed()];
        let is_found = is_legal(rt.alloc(), &first, &second);
        same((at, is_found), (at, Ok(*wanted)))?;
    }
    Ok(())
}
