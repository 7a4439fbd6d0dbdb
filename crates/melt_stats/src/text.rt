//! The table as comma-separated text: a line for each collection, after one that names the columns.
ghost use Rattle.std.specs.Prelude.{◌≡◌, ◌++◌, IfOk, OnOk, map};
ghost use Rattle.csv.specs.Writing.{default_writer, row_text};
ghost use Rattle.melt_stats.specs.Rows.{IsAtLine, written};
ghost use Rattle.melt_stats.specs.Table.{header, journal_line, phase_name, table_text};

use csv::Writer;
use itoa::Buffer;
use melt_model::{Journal, Journals, NoMemory, Phase};
use std::alloc::Global;

// All lines have the same number of fields and go into memory, so a write fails for want of it alone.
fn write_row(writer: &mut Writer<Vec<u8>>, fields: &[&[u8]]) -> Result<(), NoMemory>
    requires { IsAtLine writer.old }
    ensures at_line { OnOk result (IsAtLine writer.new) }
    ensures text { OnOk result (written writer.new ≡ written writer.old
        ++ row_text default_writer (map (λ field. field.now) fields.now)) }
{
    writer.write_fields(fields).map_err(|_| NoMemory)
}

fn write_header(writer: &mut Writer<Vec<u8>>) -> Result<(), NoMemory>
    requires { IsAtLine writer.old }
    ensures at_line { OnOk result (IsAtLine writer.new) }
    ensures text { OnOk result (written writer.new ≡ written writer.old ++ header) }
{
    write_row(
        writer,
        &[
            b"number", b"phase", b"held", b"live", b"bodies", b"stubs", b"end",
        ],
    )
}

fn name(phase: Phase) -> &'static [u8]
    ensures { result.now ≡ phase_name phase }
{
    match phase {
        Phase::Inactive => b"inactive",
        Phase::Mark => b"mark",
        Phase::Move => b"move",
    }
}

fn write_collection(
    writer: &mut Writer<Vec<u8>>,
    number: u64,
    collection: &Journal,
) -> Result<(), NoMemory>
    requires { IsAtLine writer.old }
    ensures at_line { OnOk result (IsAtLine writer.new) }
    ensures text { OnOk result (written writer.new ≡ written writer.old ++ journal_line number collection.now) }
{
    write_row(
        writer,
        &[
            Buffer::new().format(number).as_bytes(),
            name(collection.phase),
            Buffer::new().format(collection.held).as_bytes(),
            Buffer::new().format(collection.live).as_bytes(),
            Buffer::new().format(collection.bodies).as_bytes(),
            Buffer::new().format(collection.stubs).as_bytes(),
            Buffer::new().format(collection.end).as_bytes(),
        ],
    )
}

/// The table of the collections of a run: the names of the columns, and a line for each collection in the order of the
/// journal.
pub fn table(alloc: Global, journal: &Journals) -> Result<Vec<u8>, NoMemory>
    ensures { IfOk result (λ bytes. bytes.items ≡ table_text journal.now) }
{
    let mut writer = Writer::from_writer(Vec::new(alloc));
    write_header(&mut writer)?;
    for (index, collection) in journal.items.iter().enumerate() {
        write_collection(&mut writer, index as u64 + 1, collection)?;
    }
    writer.into_inner().map_err(|_| NoMemory)
}
