// The spots of a published list of updates: the list, its updates, the members of each, down to the fields of schemas, sort orders and partition specs.
// A spot is a number, and says what value is to stand there. Each open list or object stands in one other only, so the spot of the innermost one says all.
ghost use Rattle.std.specs.Prelude.{◌≡◌};
ghost use Rattle.rules.specs.Words.{is_some};
ghost use Rattle.json_rule.specs.Defects.{listing_of, kind_of};
ghost use Rattle.json_members.specs.Spots.{shape_at, item_at, room_in, value_at, around_at};

// Kept: spots are numbers, as Spots of specs/ counts them and the slots of the judge hold them.
// Any JSON, passed over; or no spot.
pub const ANYTHING: usize = 0;

pub const UPDATES: usize = 1;

pub const UPDATE: usize = 2;

// The members of an update. Those of one action stand beside each other.
pub const ACTION: usize = 3;

pub const UUID: usize = 4;

pub const FORMAT_VERSION: usize = 5;

pub const LOCATION: usize = 6;

pub const SNAPSHOT: usize = 7;

pub const SNAPSHOT_IDS: usize = 8;

pub const REF_NAME: usize = 9;

pub const REF_TYPE: usize = 10;

pub const REF_SNAPSHOT_ID: usize = 11;

pub const MIN_SNAPSHOTS_TO_KEEP: usize = 12;

pub const MAX_SNAPSHOT_AGE_MS: usize = 13;

pub const MAX_REF_AGE_MS: usize = 14;

pub const SCHEMA: usize = 15;

pub const LAST_COLUMN_ID: usize = 16;

pub const CHOSEN_SCHEMA_ID: usize = 17;

pub const SCHEMA_IDS: usize = 18;

pub const SORT_ORDER: usize = 19;

pub const CHOSEN_ORDER_ID: usize = 20;

pub const SPEC: usize = 21;

pub const CHOSEN_SPEC_ID: usize = 22;

pub const SPEC_IDS: usize = 23;

// The elements of the three lists of ids.
pub const REMOVED_SNAPSHOT: usize = 24;

pub const REMOVED_SCHEMA: usize = 25;

pub const REMOVED_SPEC: usize = 26;

// The members of a snapshot.
pub const SNAPSHOT_ID: usize = 27;

pub const PARENT_SNAPSHOT_ID: usize = 28;

pub const SEQUENCE_NUMBER: usize = 29;

pub const TIMESTAMP_MS: usize = 30;

pub const FIRST_ROW_ID: usize = 31;

pub const ADDED_ROWS: usize = 32;

pub const MANIFEST_LIST: usize = 33;

pub const SUMMARY: usize = 34;

pub const SNAPSHOT_SCHEMA_ID: usize = 35;

// The members of a schema, the elements of its fields, and the members of a field.
pub const SCHEMA_TYPE: usize = 36;

pub const SCHEMA_ID: usize = 37;

pub const SCHEMA_FIELDS: usize = 38;

pub const FIELD: usize = 39;

pub const FIELD_ID: usize = 40;

pub const FIELD_NAME: usize = 41;

pub const FIELD_REQUIRED: usize = 42;

pub const FIELD_TYPE: usize = 43;

// The same of a sort order.
pub const ORDER_ID: usize = 44;

pub const ORDER_FIELDS: usize = 45;

pub const SORT_FIELD: usize = 46;

pub const SORT_TRANSFORM: usize = 47;

pub const SORT_SOURCE_ID: usize = 48;

pub const DIRECTION: usize = 49;

pub const NULL_ORDER: usize = 50;

// The same of a partition spec.
pub const SPEC_ID: usize = 51;

pub const SPEC_FIELDS: usize = 52;

pub const PARTITION_FIELD: usize = 53;

pub const PARTITION_SOURCE_ID: usize = 54;

pub const PARTITION_FIELD_ID: usize = 55;

pub const PARTITION_NAME: usize = 56;

pub const PARTITION_TRANSFORM: usize = 57;

// No spot is this or above.
pub const SPOTS: usize = 64;

// What the elements of a list are; `ANYTHING` where the spot is no list.
#[tactic(auto, unfolding(crate::specs::Spots::item_at))]
pub fn item_of(spot: usize) -> usize
    ensures { result ≡ item_at spot }
{
    match spot {
        UPDATES => UPDATE,
        SNAPSHOT_IDS => REMOVED_SNAPSHOT,
        SCHEMA_IDS => REMOVED_SCHEMA,
        SPEC_IDS => REMOVED_SPEC,
        SCHEMA_FIELDS => FIELD,
        ORDER_FIELDS => SORT_FIELD,
        SPEC_FIELDS => PARTITION_FIELD,
        _ => ANYTHING,
    }
}

// How many elements a list may have; 0 where the spot is no list.
pub fn room_of(spot: usize) -> usize
    ensures { result ≡ room_in (listing_of (shape_at spot)) }
{
    match spot {
        UPDATES => 64,
        SNAPSHOT_IDS | SCHEMA_IDS | SPEC_IDS => 16,
        SCHEMA_FIELDS => 32,
        ORDER_FIELDS | SPEC_FIELDS => 8,
        _ => 0,
    }
}

pub fn is_list(spot: usize) -> bool
    ensures { result ≡ is_some (listing_of (shape_at spot)) }
{
    item_of(spot) != ANYTHING
}

pub fn is_object(spot: usize) -> bool
    ensures { result ≡ is_some (kind_of (shape_at spot)) }
{
    match spot {
        UPDATE | SNAPSHOT | SCHEMA | SORT_ORDER | SPEC => true,
        FIELD | SORT_FIELD | PARTITION_FIELD => true,
        _ => false,
    }
}

// What the value of a member is: its own spot, but any JSON where it is passed over.
pub fn value_of(member: usize) -> usize
    ensures { result ≡ value_at member }
{
    match member {
        MANIFEST_LIST => ANYTHING,
        SUMMARY => ANYTHING,
        SNAPSHOT_SCHEMA_ID => ANYTHING,
        _ => member,
    }
}

// In which list or object one stands.
#[tactic(auto, unfolding(crate::specs::Spots::around_at))]
pub fn around(spot: usize) -> usize
    ensures { result ≡ around_at spot }
{
    match spot {
        UPDATE => UPDATES,
        SNAPSHOT | SCHEMA | SORT_ORDER | SPEC => UPDATE,
        SNAPSHOT_IDS | SCHEMA_IDS | SPEC_IDS => UPDATE,
        SCHEMA_FIELDS => SCHEMA,
        FIELD => SCHEMA_FIELDS,
        ORDER_FIELDS => SORT_ORDER,
        SORT_FIELD => ORDER_FIELDS,
        SPEC_FIELDS => SPEC,
        PARTITION_FIELD => SPEC_FIELDS,
        _ => ANYTHING,
    }
}
