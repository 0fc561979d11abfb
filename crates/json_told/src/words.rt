// Reasons in words.
use crate::reason::Reason;
use json_members::refusal::{NOT_JSON, NOT_PUBLISHED, OVER_CAPACITY};
use json_members::spot::{
    ACTION, ADDED_ROWS, ANYTHING, CHOSEN_ORDER_ID, CHOSEN_SCHEMA_ID, CHOSEN_SPEC_ID, DIRECTION,
    FIELD, FIELD_ID, FIELD_NAME, FIELD_REQUIRED, FIELD_TYPE, FIRST_ROW_ID, FORMAT_VERSION,
    LAST_COLUMN_ID, LOCATION, MAX_REF_AGE_MS, MAX_SNAPSHOT_AGE_MS, MIN_SNAPSHOTS_TO_KEEP,
    NULL_ORDER, ORDER_FIELDS, ORDER_ID, PARENT_SNAPSHOT_ID, PARTITION_FIELD, PARTITION_FIELD_ID,
    PARTITION_NAME, PARTITION_SOURCE_ID, PARTITION_TRANSFORM, REF_NAME, REF_SNAPSHOT_ID, REF_TYPE,
    REMOVED_SCHEMA, REMOVED_SNAPSHOT, REMOVED_SPEC, SCHEMA, SCHEMA_FIELDS, SCHEMA_ID, SCHEMA_IDS,
    SCHEMA_TYPE, SEQUENCE_NUMBER, SNAPSHOT, SNAPSHOT_ID, SNAPSHOT_IDS, SORT_FIELD, SORT_ORDER,
    SORT_SOURCE_ID, SORT_TRANSFORM, SPEC, SPEC_FIELDS, SPEC_ID, SPEC_IDS, TIMESTAMP_MS, UPDATE,
    UPDATES, UUID,
};

// The answer, where it was not seen in the part of the text that is held.
fn unseen(number: usize) -> &'static [u8] {
    match number {
        0..=NOT_JSON => b"not JSON; of so long a list no more is told",
        NOT_PUBLISHED => b"not what is published; of so long a list no more is told",
        OVER_CAPACITY => b"over a capacity; of so long a list no more is told",
        _ => b"",
    }
}

pub fn words_of(reason: Reason) -> &'static [u8] {
    match reason {
        Reason::Broken => b"not JSON: this byte can not stand here",
        Reason::Ended => b"not JSON: the text ends here",
        Reason::Unlisted => b"an unlisted action",
        Reason::Unknown => b"an unknown member",
        Reason::Repeated => b"a repeated member",
        Reason::OfAnotherAction => b"a member of another action",
        Reason::Missing(_) | Reason::MissingOfUpdate(_) => {
            b"a member is missing from this object, which must have "
        }
        Reason::Otherwise(_) => b"a value not of its published type or form: there should be ",
        Reason::OfField(_, _) => b"a schema not of optional longs and timestamps: ",
        Reason::Over(_) => b"over a capacity: there is room for ",
        Reason::Deep => b"nested past 16",
        Reason::Unseen(number) => unseen(number),
    }
}

// The value that is published at a spot.
fn value_at(spot: usize) -> &'static [u8] {
    match spot {
        UPDATES => b"a list of updates",
        UPDATE => b"an object, an update",
        ACTION | LOCATION | REF_NAME | FIELD_NAME | PARTITION_NAME => b"a text",
        UUID => b"a text of 8-4-4-4-12 hexadecimal digits",
        FORMAT_VERSION => b"a whole number from 0 to 255",
        SNAPSHOT => b"an object, a snapshot",
        SNAPSHOT_IDS => b"a list of snapshot ids",
        REF_TYPE => b"branch or tag",
        MIN_SNAPSHOTS_TO_KEEP | LAST_COLUMN_ID | CHOSEN_SCHEMA_ID | CHOSEN_SPEC_ID => {
            b"a whole number of 32 bits"
        }
        REMOVED_SCHEMA | REMOVED_SPEC | SCHEMA_ID | FIELD_ID => b"a whole number of 32 bits",
        SORT_SOURCE_ID | SPEC_ID | PARTITION_SOURCE_ID | PARTITION_FIELD_ID => {
            b"a whole number of 32 bits"
        }
        REF_SNAPSHOT_ID | MAX_SNAPSHOT_AGE_MS | MAX_REF_AGE_MS => b"a whole number of 64 bits",
        CHOSEN_ORDER_ID | REMOVED_SNAPSHOT | SNAPSHOT_ID => b"a whole number of 64 bits",
        PARENT_SNAPSHOT_ID | SEQUENCE_NUMBER | TIMESTAMP_MS | ORDER_ID => {
            b"a whole number of 64 bits"
        }
        FIRST_ROW_ID | ADDED_ROWS => b"a whole number of 64 bits, not below 0",
        SCHEMA => b"an object, a schema",
        SCHEMA_IDS => b"a list of schema ids",
        SORT_ORDER => b"an object, a sort order",
        SPEC => b"an object, a partition spec",
        SPEC_IDS => b"a list of spec ids",
        SCHEMA_TYPE => b"struct",
        SCHEMA_FIELDS => b"a list of fields",
        FIELD => b"an object, a field",
        FIELD_REQUIRED => b"false",
        FIELD_TYPE => b"long or timestamp",
        ORDER_FIELDS => b"a list of sort fields",
        SORT_FIELD => b"an object, a sort field",
        SORT_TRANSFORM => b"identity",
        DIRECTION => b"asc or desc",
        NULL_ORDER => b"nulls-first or nulls-last",
        SPEC_FIELDS => b"a list of partition fields",
        PARTITION_FIELD => b"an object, a partition field",
        PARTITION_TRANSFORM => b"identity, year, month, day or bucket[N]",
        _ => b"",
    }
}

// The members that an object must have.
fn members_of(spot: usize) -> &'static [u8] {
    match spot {
        SNAPSHOT => {
            b"snapshot-id and timestamp-ms, and first-row-id and added-rows both or neither"
        }
        SCHEMA => b"type and fields",
        SORT_ORDER => b"order-id and fields",
        SPEC => b"fields",
        FIELD => b"id, name, required and type",
        SORT_FIELD => b"transform, source-id, direction and null-order",
        PARTITION_FIELD => b"source-id, name and transform",
        _ => b"",
    }
}

// The members that an update must have of which this is the last.
fn members_up_to(last: usize) -> &'static [u8] {
    match last {
        ANYTHING => b"an action",
        UUID => b"uuid",
        FORMAT_VERSION => b"format-version",
        LOCATION => b"location",
        SNAPSHOT => b"snapshot",
        SNAPSHOT_IDS => b"snapshot-ids",
        REF_NAME => b"ref-name",
        REF_SNAPSHOT_ID => b"ref-name, type and snapshot-id",
        SCHEMA => b"schema",
        CHOSEN_SCHEMA_ID => b"schema-id",
        SCHEMA_IDS => b"schema-ids",
        SORT_ORDER => b"sort-order",
        CHOSEN_ORDER_ID => b"sort-order-id",
        SPEC => b"spec",
        CHOSEN_SPEC_ID => b"spec-id",
        SPEC_IDS => b"spec-ids",
        _ => b"",
    }
}

// How much there is room for at a spot.
fn room_at(spot: usize) -> &'static [u8] {
    match spot {
        UPDATES => b"64 updates",
        LOCATION => b"96 bytes",
        SNAPSHOT_IDS | SCHEMA_IDS | SPEC_IDS => b"16 ids",
        REF_NAME | FIELD_NAME | PARTITION_NAME => b"32 bytes",
        SCHEMA_FIELDS => b"32 fields",
        ORDER_FIELDS | SPEC_FIELDS => b"8 fields",
        _ => b"",
    }
}

// What is said behind the words of a reason.
pub fn detail_of(reason: Reason) -> &'static [u8] {
    match reason {
        Reason::Missing(spot) => members_of(spot),
        Reason::MissingOfUpdate(last) => members_up_to(last),
        Reason::Otherwise(spot) => value_at(spot),
        Reason::Over(spot) => room_at(spot),
        _ => b"",
    }
}
