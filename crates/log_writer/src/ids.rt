// The ids of a removal, with commas between them. One that is counted and has no slot is 0.
ghost use Rattle.rules.specs.Layout.{read_snapshot_ids, read_schema_ids, read_spec_ids};
ghost use Rattle.file_rule.specs.Written.{number_text, items};
ghost use Rattle.file_text.specs.Puts.{Puts};

use file_tables::number::{of_schema, of_snapshot, of_spec};
use file_text::list::put_items;
use file_text::numbers::put_number;
use records::counters::{SchemaId, SnapshotId, SpecId};
use records::partition::SpecIds;
use records::schema::SchemaIds;
use records::snapshot::SnapshotIds;

pub fn put_snapshot_ids(buffer: &mut [u8], at: usize, t: SnapshotIds) -> usize
    ensures { Puts buffer.old at (items number_text (read_snapshot_ids t)) result buffer.new }
{
    put_items(
        buffer,
        at,
        &t.items,
        t.count,
        SnapshotId(0),
        |buffer, at, id| { put_number(buffer, at, true, b"", of_snapshot(id)) },
    )
}

pub fn put_schema_ids(buffer: &mut [u8], at: usize, t: SchemaIds) -> usize
    ensures { Puts buffer.old at (items number_text (read_schema_ids t)) result buffer.new }
{
    put_items(
        buffer,
        at,
        &t.items,
        t.count,
        SchemaId(0),
        |buffer, at, id| { put_number(buffer, at, true, b"", of_schema(id)) },
    )
}

pub fn put_spec_ids(buffer: &mut [u8], at: usize, t: SpecIds) -> usize
    ensures { Puts buffer.old at (items number_text (read_spec_ids t)) result buffer.new }
{
    put_items(buffer, at, &t.items, t.count, SpecId(0), |buffer, at, id| {
        put_number(buffer, at, true, b"", of_spec(id))
    })
}
