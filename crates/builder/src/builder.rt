// The builder's own state beside the tables: single fields, the run's last update, the ids that it added last.
ghost use Rattle.std.specs.Prelude.{◌≡◌, cond, [], ◌≤◌, eqb};
ghost use Rattle.records.specs.Blanks.{no_fields_part};
ghost use Rattle.rules.specs.Words.{or_else};
ghost use Rattle.rules.specs.Capacities.{location_room};
ghost use Rattle.rules.specs.Register.{State};
ghost use Rattle.rules.specs.SingleUpdates.{assign_uuid, upgrade_format_version_checks, upgrade_format_version, set_location};
ghost use Rattle.rules.specs.Layout.{given, read_text};
ghost use Rattle.rules.specs.Kinds.{of_kind, with_fields_part, with_uuid, with_format_version, with_location, assign_uuid_kind, upgrade_format_version_kind, set_location_kind};
ghost use Rattle.builder.specs.Pieces.{fresh, laid_builder};
ghost use Rattle.builder.specs.Answers.{Answers};

use crate::checks::choose;
use crate::text::{same_text, trimmed};
use primitives::names::same_bytes;
use records::counters::{RowId, SchemaId, SortOrderId, SpecId, Time};
use records::metadata::SingleFields;
use records::replies::{ACCEPTED, VERSION_LOWERED};
use records::text::Text;

#[derive(Clone, Copy)]
pub struct TableMetadataBuilder {
    pub fields: SingleFields,
    pub has_own: bool,
    pub own: Time,
    pub has_schema: bool,
    pub last_added_schema_id: SchemaId,
    pub has_order: bool,
    pub last_added_order_id: SortOrderId,
    pub has_spec: bool,
    pub last_added_spec_id: SpecId,
}

// The number of the first failed check, whether the update took effect, and the state after it.
#[derive(Clone, Copy)]
pub struct Changed {
    pub number: u8,
    pub logs: bool,
    pub builder: TableMetadataBuilder,
}

// The location is the trimmed one, as it is logged.
#[derive(Clone, Copy)]
pub struct LocationSet {
    pub logs: bool,
    pub location: Text,
    pub builder: TableMetadataBuilder,
}

// Reaching version 3 sets the next row id to 0.
fn next_row_at(version: u8, next: RowId) -> RowId
    ensures { result ≡ cond (eqb version 3) (record { 0 = 0 }) next }
{
    if version == 3 { RowId(0) } else { next }
}

// The run's own last update, or the other time where it has none yet.
pub fn own_or(b: TableMetadataBuilder, other: Time) -> Time
    ensures { result.0 ≡ or_else (given b.has_own b.own.0) other.0 }
{
    if b.has_own { b.own } else { other }
}

impl TableMetadataBuilder {
    pub const LAST_ADDED: i32 = -1;

    pub fn new_from_metadata(previous: SingleFields) -> TableMetadataBuilder
        ensures { result ≡ fresh previous }
    {
        TableMetadataBuilder {
            fields: previous,
            has_own: false,
            own: Time(0),
            has_schema: false,
            last_added_schema_id: SchemaId(0),
            has_order: false,
            last_added_order_id: SortOrderId(0),
            has_spec: false,
            last_added_spec_id: SpecId(0),
        }
    }

    pub fn assign_uuid(self, uuid: [u8; 16]) -> Changed
        ensures { (st : State) → self ≡ laid_builder st → Answers [] st (assign_uuid uuid st) result.number result.logs result.builder (with_fields_part (with_uuid uuid no_fields_part) (of_kind assign_uuid_kind)) }
    {
        let same = same_bytes(&uuid, &self.fields.table_uuid);
        let mut builder = self;
        builder.fields.table_uuid = uuid;
        Changed {
            number: ACCEPTED,
            logs: !same,
            builder,
        }
    }

    pub fn upgrade_format_version(self, version: u8) -> Changed
        ensures { (st : State) → self ≡ laid_builder st → Answers (upgrade_format_version_checks version st) st (upgrade_format_version version st) result.number result.logs result.builder (with_fields_part (with_format_version version no_fields_part) (of_kind upgrade_format_version_kind)) }
    {
        let old = self.fields.format_version;
        let lowered = version < old;
        let mut builder = self;
        builder.fields.format_version = version;
        builder.fields.next_row_id = next_row_at(version, self.fields.next_row_id);
        Changed {
            number: choose(lowered, VERSION_LOWERED, ACCEPTED),
            logs: version != old,
            builder,
        }
    }

    pub fn set_location(self, location: Text) -> LocationSet
        requires len_le_location_room { self.fields.location.len ≤ location_room }
        requires len_le_location_room_2 { location.len ≤ location_room }
        ensures { (st : State) → self ≡ laid_builder st → Answers [] st (set_location (read_text location) st) 0 result.logs result.builder (with_fields_part (with_location result.location no_fields_part) (of_kind set_location_kind)) }
    {
        let location = trimmed(location);
        let same = same_text(location, self.fields.location);
        let mut builder = self;
        builder.fields.location = location;
        LocationSet {
            logs: !same,
            location,
            builder,
        }
    }
}
