// A partition spec as it is offered, with the ids that its fields have.
ghost use Rattle.rules.specs.Layout.{read_partition_field, read_partition_spec};
ghost use Rattle.file_rule.specs.Written.{items};
ghost use Rattle.log_rule.specs.LogText.{partition_text, offered_spec_text};
ghost use Rattle.file_text.specs.Puts.{Puts};

use file_tables::number::{of_field, of_spec};
use file_tables::record::put_transform;
use file_text::bytes::put;
use file_text::list::put_items;
use file_text::numbers::put_number;
use file_text::texts::put_name;
use records::partition::{PartitionField, PartitionSpec};

fn put_field(buffer: &mut [u8], at: usize, f: PartitionField) -> usize
    ensures { Puts buffer.old at (partition_text (read_partition_field f)) result buffer.new }
{
    let at = put_number(buffer, at, true, b"{\"source-id\":", of_field(f.source_id));
    let at = put_number(
        buffer,
        at,
        f.has_id,
        b",\"field-id\":",
        of_field(f.field_id),
    );
    let at = put_name(buffer, at, b",\"name\":", f.name);
    let at = put(buffer, at, b",\"transform\":");
    let at = put_transform(buffer, at, f.transform, f.buckets);
    put(buffer, at, b"}")
}

fn put_fields(buffer: &mut [u8], at: usize, t: PartitionSpec) -> usize
    ensures { Puts buffer.old at (items partition_text (read_partition_spec t).fields) result buffer.new }
{
    put_items(
        buffer,
        at,
        &t.items,
        t.count,
        PartitionField::blank(),
        put_field,
    )
}

pub fn put_spec(buffer: &mut [u8], at: usize, s: PartitionSpec) -> usize
    ensures { Puts buffer.old at (offered_spec_text (read_partition_spec s)) result buffer.new }
{
    let at = put_number(buffer, at, true, b"{\"spec-id\":", of_spec(s.spec_id));
    let at = put(buffer, at, b",\"fields\":[");
    let at = put_fields(buffer, at, s);
    put(buffer, at, b"]}")
}
