use csv::{Reader, StringRecord};
use melt_model::{Journal, Journals, Phase};
use melt_same::same;
use melt_stats::table;
use std::alloc::Global;
use std::test::Fail;

/// The table of these collections.
fn table_of(alloc: Global, items: &[Journal]) -> Result<Vec<u8>, Fail> {
    let items = Vec::from_slice(alloc, items)?;
    Ok(table(alloc, &Journals { items })?)
}

#[test]
fn no_collection(rt: HostRuntime) -> Result<(), Fail> {
    let text = table_of(rt.alloc(), &[])?;
    let wanted = b"number,phase,held,live,bodies,stubs,end\n".as_slice();
    same(text.as_slice(), wanted)
}

#[test]
fn each_phase(rt: HostRuntime) -> Result<(), Fail> {
    let items = [
        Journal {
            phase: Phase::Inactive,
            held: 0,
            live: 4294967295,
            bodies: 0,
            stubs: 0,
            end: 1,
        },
        Journal {
            phase: Phase::Mark,
            held: 12,
            live: 345,
            bodies: 6,
            stubs: 70,
            end: 4294967295,
        },
        Journal {
            phase: Phase::Move,
            held: 4294967295,
            live: 4294967294,
            bodies: 4294967293,
            stubs: 4294967292,
            end: 4294967291,
        },
    ];
    let text = table_of(rt.alloc(), &items)?;
    let wanted = b"number,phase,held,live,bodies,stubs,end\n\
        1,inactive,0,4294967295,0,0,1\n\
        2,mark,12,345,6,70,4294967295\n\
        3,move,4294967295,4294967294,4294967293,4294967292,4294967291\n";
    same(text.as_slice(), wanted.as_slice())
}

/// What a reader of such tables finds in a row: the number in a column.
fn number_in(row: &StringRecord, column: usize) -> Option<u32> {
    row.get(column)?.parse().ok()
}

/// Fails where a row has another number than this one, or other numbers than its collection.
fn same_row(row: &StringRecord, number: u32, item: Option<&Journal>) -> Result<(), Fail> {
    let item = item.ok_or("there are more rows than collections")?;
    let got = [
        number_in(row, 0),
        number_in(row, 2),
        number_in(row, 3),
        number_in(row, 4),
        number_in(row, 5),
        number_in(row, 6),
    ];
    let want = [
        Some(number),
        Some(item.held),
        Some(item.live),
        Some(item.bodies),
        Some(item.stubs),
        Some(item.end),
    ];
    same(got, want)?;
    same(row.get(7).is_none(), true)
}

#[test]
fn a_reader_finds_the_numbers(rt: HostRuntime) -> Result<(), Fail> {
    let items = [
        Journal {
            phase: Phase::Inactive,
            held: 3,
            live: 20,
            bodies: 0,
            stubs: 4,
            end: 1,
        },
        Journal {
            phase: Phase::Move,
            held: 0,
            live: 4294967295,
            bodies: 17,
            stubs: 18,
            end: 268435456,
        },
    ];
    let text = table_of(rt.alloc(), &items)?;
    let mut count = 0u32;
    for row in Reader::from_reader(rt.alloc(), text.as_slice()).into_records() {
        let row = row?;
        let item = items.get(count as usize);
        count = count.wrapping_add(1);
        same_row(&row, count, item)?;
    }
    same(count, 2)
}
