// The single fields in front of the tables.
ghost use Rattle.std.specs.Prelude.{◌≡◌};
ghost use Rattle.compare.specs.First.{first};
ghost use Rattle.compare.specs.Parts.{field_parts};

use crate::difference::{Difference, unless};
use crate::part;
use records::metadata::SingleFields;

pub fn compare_fields(a: SingleFields, b: SingleFields, later: Difference) -> Difference
    ensures { result ≡ first 1 (field_parts a b) later }
{
    let version = a.format_version == b.format_version;
    let uuid = a.table_uuid == b.table_uuid;
    let location = a.location == b.location;
    let updated = a.last_updated_ms == b.last_updated_ms;
    let sequence = a.last_sequence_number == b.last_sequence_number;
    let next_row = a.next_row_id == b.next_row_id;
    let column = a.last_column_id == b.last_column_id;
    let current = (a.has_current == b.has_current)
        & (a.current_snapshot_id == b.current_snapshot_id);
    let from_current = unless(current, part::CURRENT_SNAPSHOT, 0, later);
    let from_column = unless(column, part::LAST_COLUMN_ID, 0, from_current);
    let from_next_row = unless(next_row, part::NEXT_ROW_ID, 0, from_column);
    let from_sequence = unless(sequence, part::LAST_SEQUENCE_NUMBER, 0, from_next_row);
    let from_updated = unless(updated, part::LAST_UPDATED, 0, from_sequence);
    let from_location = unless(location, part::LOCATION, 0, from_updated);
    let from_uuid = unless(uuid, part::TABLE_UUID, 0, from_location);
    unless(version, part::FORMAT_VERSION, 0, from_uuid)
}
