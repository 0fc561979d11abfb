// The last partition id: that of the file, or the largest field id of all specs, at least 999.
ghost use Rattle.std.specs.Prelude.{◌≡◌, map, ◌+◌, ◌≤◌, pos};
ghost use Rattle.rules.specs.Words.{or_else, larger, highest};
ghost use Rattle.rules.specs.Register.{PartitionField};
ghost use Rattle.json_store.specs.Made.{each};
ghost use Rattle.file_rule.specs.Import.{largest_id};
ghost use Rattle.file_records.specs.Decoded.{count_at, item_at, maybe_narrow_at, spec_fields_at, spec_at, specs_in};

use crate::offsets;
use crate::offsets::{DEFAULT_SPEC_ID, LAST_PARTITION_ID, SINGLE_SPEC, SPEC};
use crate::record::{FIELD, field_id};
use crate::table::single_decides;
use crate::value::{Cells, count_of, is_there, narrow_number};
use records::capacities::{PARTITION_FIELDS, PARTITION_SPECS};
use records::counters::FieldId;

fn larger_id(a: FieldId, b: FieldId) -> FieldId
    ensures { result.0 ≡ larger a.0 b.0 }
{
    a.max(b)
}

// Of the fields of a list; 0 where there is none.
fn highest_id(bytes: &[u8], cells: &Cells, list: usize) -> FieldId
    requires { list + 65 ≤ 9047 }
    ensures { result.0 ≡ highest (map (λ (f : PartitionField). or_else f.id (pos 0)) (spec_fields_at bytes.now cells.now list)) }
{
    let mut highest = FieldId(0);
    for i in (0..count_of(cells, list, PARTITION_FIELDS)).rev() {
        highest = larger_id(field_id(bytes, cells, list + 3 + i * FIELD, i), highest);
    }
    highest
}

// Of all specs of the table, at least 999.
fn largest_listed(bytes: &[u8], cells: &Cells) -> FieldId
    ensures { result.0 ≡ largest_id (each (λ i. spec_at bytes.now cells.now (item_at 67 4517 i)) (count_at cells.now 16 4517)) }
{
    let mut highest = FieldId(999);
    for i in (0..count_of(cells, offsets::PARTITION_SPECS, PARTITION_SPECS)).rev() {
        let of_spec = highest_id(bytes, cells, offsets::PARTITION_SPECS + 3 + i * SPEC);
        highest = larger_id(of_spec, highest);
    }
    highest
}

fn largest_id(version: usize, bytes: &[u8], cells: &Cells) -> FieldId
    ensures { result.0 ≡ largest_id (specs_in bytes.now cells.now version) }
{
    if single_decides(version, cells, offsets::PARTITION_SPECS, DEFAULT_SPEC_ID) {
        return larger_id(highest_id(bytes, cells, SINGLE_SPEC), FieldId(999));
    }
    largest_listed(bytes, cells)
}

pub fn last_partition(version: usize, bytes: &[u8], cells: &Cells) -> FieldId
    ensures { result.0 ≡ or_else (maybe_narrow_at bytes.now cells.now 5592) (largest_id (specs_in bytes.now cells.now version)) }
{
    if is_there(cells, LAST_PARTITION_ID) {
        let z = narrow_number(bytes, cells, LAST_PARTITION_ID);
        return FieldId(z.0);
    }
    largest_id(version, bytes, cells)
}
