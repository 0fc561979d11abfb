// Reasons in words.
use crate::judged::{LACKING, NOT_JSON, NOT_PUBLISHED, OVER_CAPACITY};
use crate::reason::Reason;
use file_members::spot::{
    ADDED_ROWS, BLOB_METADATA, CURRENT_SCHEMA_ID, CURRENT_SNAPSHOT_ID, DEFAULT_SORT_ORDER_ID,
    DEFAULT_SPEC_ID, DIRECTION, FIELD_ID, FIELD_NAME, FIELD_REQUIRED, FIELD_TYPE,
    FILE_TIMESTAMP_MS, FIRST_ROW_ID, FOOTER_SIZE, FORMAT_VERSION, LAST_COLUMN_ID,
    LAST_PARTITION_ID, LAST_SEQUENCE_NUMBER, LAST_UPDATED_MS, LOCATION, LOG_SNAPSHOT_ID,
    LOG_TIMESTAMP_MS, MANIFEST_LIST, MAX_REF_AGE_MS, MAX_SNAPSHOT_AGE_MS, METADATA_FILE,
    METADATA_LOG, MIN_SNAPSHOTS_TO_KEEP, NEXT_ROW_ID, NULL_ORDER, ORDER_FIELDS, ORDER_ID,
    PARENT_SNAPSHOT_ID, PARTITION_FIELD_ID, PARTITION_FILE_PATH, PARTITION_FILE_SIZE,
    PARTITION_FILE_SNAPSHOT_ID, PARTITION_NAME, PARTITION_SOURCE_ID, PARTITION_SPEC,
    PARTITION_SPECS, PARTITION_STATISTICS, PARTITION_TRANSFORM, REF_SNAPSHOT_ID, REF_TYPE, REFS,
    SCHEMA, SCHEMA_FIELDS, SCHEMA_ID, SCHEMA_TYPE, SCHEMAS, SEQUENCE_NUMBER, SNAPSHOT_ID,
    SNAPSHOT_LOG, SNAPSHOT_SCHEMA_ID, SNAPSHOTS, SORT_ORDERS, SORT_SOURCE_ID, SORT_TRANSFORM,
    SPEC_FIELDS, SPEC_ID, STATISTICS, STATISTICS_PATH, STATISTICS_SIZE, STATISTICS_SNAPSHOT_ID,
    SUMMARY, TABLE_UUID, TIMESTAMP_MS,
};
use file_members::want::{
    A_FIELD, A_FILE_ENTRY, A_LOG_ENTRY, A_PARTITION_FIELD, A_PARTITION_STATISTICS_FILE, A_REF,
    A_SCHEMA, A_SNAPSHOT, A_SORT_FIELD, A_SPEC, A_STATISTICS_FILE, AN_ORDER, THE_WHOLE_FILE,
};

// The answer, where going through the text did not show it.
fn unseen(number: usize) -> &'static [u8] {
    match number {
        NOT_JSON => b"not JSON",
        NOT_PUBLISHED => b"not what is published, as a name of refs that stands twice",
        OVER_CAPACITY => b"over a capacity",
        LACKING => b"a member is missing that is required there",
        _ => {
            b"what the file says is no well-formed metadata: two records have one key, one that is current, the default or named by a ref is not there, \
            or a number is below its least"
        }
    }
}

pub fn words_of(reason: Reason) -> &'static [u8] {
    match reason {
        Reason::Broken => b"not JSON: this byte can not stand here",
        Reason::Ended => b"not JSON: the text ends here",
        Reason::Unknown => b"an unknown member: there is no place for it",
        Reason::Repeated => b"a repeated member",
        Reason::Missing(_) => b"a member is missing that is required there: ",
        Reason::HalfARange => {
            b"a member is missing: first-row-id and added-rows stand both or neither"
        }
        Reason::Otherwise(_) => b"a value not of its published type or form: there should be ",
        Reason::OfField(_, _) => b"a schema not of optional longs and timestamps: ",
        Reason::OverText(_) | Reason::OverList(_) => b"over a capacity: there is room for ",
        Reason::Deep => b"nested past 16",
        Reason::Unseen(number) => unseen(number),
    }
}

// The name of a member.
pub fn name_of(spot: usize) -> &'static [u8] {
    match spot {
        FORMAT_VERSION => b"format-version",
        TABLE_UUID => b"table-uuid",
        LOCATION => b"location",
        LAST_SEQUENCE_NUMBER => b"last-sequence-number",
        LAST_UPDATED_MS => b"last-updated-ms",
        LAST_COLUMN_ID => b"last-column-id",
        SCHEMA => b"schema",
        SCHEMAS => b"schemas",
        CURRENT_SCHEMA_ID => b"current-schema-id",
        PARTITION_SPEC => b"partition-spec",
        PARTITION_SPECS => b"partition-specs",
        DEFAULT_SPEC_ID => b"default-spec-id",
        LAST_PARTITION_ID => b"last-partition-id",
        CURRENT_SNAPSHOT_ID => b"current-snapshot-id",
        SNAPSHOTS => b"snapshots",
        SNAPSHOT_LOG => b"snapshot-log",
        METADATA_LOG => b"metadata-log",
        SORT_ORDERS => b"sort-orders",
        DEFAULT_SORT_ORDER_ID => b"default-sort-order-id",
        REFS => b"refs",
        STATISTICS => b"statistics",
        PARTITION_STATISTICS => b"partition-statistics",
        NEXT_ROW_ID => b"next-row-id",
        SNAPSHOT_ID
        | REF_SNAPSHOT_ID
        | LOG_SNAPSHOT_ID
        | STATISTICS_SNAPSHOT_ID
        | PARTITION_FILE_SNAPSHOT_ID => b"snapshot-id",
        PARENT_SNAPSHOT_ID => b"parent-snapshot-id",
        SEQUENCE_NUMBER => b"sequence-number",
        TIMESTAMP_MS | LOG_TIMESTAMP_MS | FILE_TIMESTAMP_MS => b"timestamp-ms",
        FIRST_ROW_ID => b"first-row-id",
        ADDED_ROWS => b"added-rows",
        MANIFEST_LIST => b"manifest-list",
        SUMMARY => b"summary",
        SNAPSHOT_SCHEMA_ID | SCHEMA_ID => b"schema-id",
        SCHEMA_TYPE | FIELD_TYPE | REF_TYPE => b"type",
        SCHEMA_FIELDS | SPEC_FIELDS | ORDER_FIELDS => b"fields",
        FIELD_ID => b"id",
        FIELD_NAME | PARTITION_NAME => b"name",
        FIELD_REQUIRED => b"required",
        SPEC_ID => b"spec-id",
        PARTITION_SOURCE_ID | SORT_SOURCE_ID => b"source-id",
        PARTITION_FIELD_ID => b"field-id",
        PARTITION_TRANSFORM | SORT_TRANSFORM => b"transform",
        ORDER_ID => b"order-id",
        DIRECTION => b"direction",
        NULL_ORDER => b"null-order",
        MIN_SNAPSHOTS_TO_KEEP => b"min-snapshots-to-keep",
        MAX_SNAPSHOT_AGE_MS => b"max-snapshot-age-ms",
        MAX_REF_AGE_MS => b"max-ref-age-ms",
        METADATA_FILE => b"metadata-file",
        STATISTICS_PATH | PARTITION_FILE_PATH => b"statistics-path",
        STATISTICS_SIZE | PARTITION_FILE_SIZE => b"file-size-in-bytes",
        FOOTER_SIZE => b"file-footer-size-in-bytes",
        BLOB_METADATA => b"blob-metadata",
        _ => b"",
    }
}

// What is published for a want: a member or a record.
pub fn wanted(want: usize) -> &'static [u8] {
    match want {
        FORMAT_VERSION => b"a version, 1, 2 or 3",
        TABLE_UUID => b"a text of 8-4-4-4-12 hexadecimal digits",
        LOCATION
        | FIELD_NAME
        | PARTITION_NAME
        | METADATA_FILE
        | STATISTICS_PATH
        | PARTITION_FILE_PATH => b"a text",
        LAST_SEQUENCE_NUMBER
        | LAST_UPDATED_MS
        | DEFAULT_SORT_ORDER_ID
        | SNAPSHOT_ID
        | PARENT_SNAPSHOT_ID
        | SEQUENCE_NUMBER
        | TIMESTAMP_MS
        | ORDER_ID
        | REF_SNAPSHOT_ID
        | MAX_SNAPSHOT_AGE_MS
        | MAX_REF_AGE_MS
        | LOG_SNAPSHOT_ID
        | LOG_TIMESTAMP_MS
        | FILE_TIMESTAMP_MS
        | STATISTICS_SNAPSHOT_ID
        | STATISTICS_SIZE
        | PARTITION_FILE_SNAPSHOT_ID
        | PARTITION_FILE_SIZE => b"a whole number of 64 bits",
        LAST_COLUMN_ID
        | CURRENT_SCHEMA_ID
        | DEFAULT_SPEC_ID
        | LAST_PARTITION_ID
        | SCHEMA_ID
        | FIELD_ID
        | SPEC_ID
        | PARTITION_SOURCE_ID
        | PARTITION_FIELD_ID
        | SORT_SOURCE_ID
        | MIN_SNAPSHOTS_TO_KEEP => b"a whole number of 32 bits",
        SCHEMA | A_SCHEMA => b"an object, a schema",
        SCHEMAS => b"a list of schemas",
        PARTITION_SPEC | SPEC_FIELDS => b"a list of partition fields",
        PARTITION_SPECS => b"a list of partition specs",
        CURRENT_SNAPSHOT_ID => b"a whole number of 64 bits, or null",
        SNAPSHOTS => b"a list of snapshots",
        SNAPSHOT_LOG => b"a list of entries of the snapshot log",
        METADATA_LOG => b"a list of entries of the metadata log",
        SORT_ORDERS => b"a list of sort orders",
        REFS => b"an object of refs by their names",
        STATISTICS => b"a list of statistics files",
        PARTITION_STATISTICS => b"a list of partition statistics files",
        NEXT_ROW_ID | FIRST_ROW_ID | ADDED_ROWS => b"a whole number of 64 bits, not below 0",
        SCHEMA_TYPE => b"struct",
        SCHEMA_FIELDS => b"a list of fields",
        FIELD_REQUIRED => b"false",
        FIELD_TYPE => b"long or timestamp",
        PARTITION_TRANSFORM => b"identity, year, month, day or bucket[N]",
        ORDER_FIELDS => b"a list of sort fields",
        SORT_TRANSFORM => b"identity",
        DIRECTION => b"asc or desc",
        NULL_ORDER => b"nulls-first or nulls-last",
        REF_TYPE => b"branch or tag",
        THE_WHOLE_FILE => b"an object, the metadata",
        A_SNAPSHOT => b"an object, a snapshot",
        A_FIELD => b"an object, a field",
        A_SPEC => b"an object, a partition spec",
        A_PARTITION_FIELD => b"an object, a partition field",
        AN_ORDER => b"an object, a sort order",
        A_SORT_FIELD => b"an object, a sort field",
        A_REF => b"an object, a ref",
        A_LOG_ENTRY => b"an object, an entry of the snapshot log",
        A_FILE_ENTRY => b"an object, an entry of the metadata log",
        A_STATISTICS_FILE => b"an object, a statistics file",
        A_PARTITION_STATISTICS_FILE => b"an object, a partition statistics file",
        _ => b"",
    }
}
