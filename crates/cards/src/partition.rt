// A field of a partition spec as a card, and where partition specs are told.
use crate::card::{Card, wide};
use crate::record::name_text;
use records::metadata::TableMetadata;
use records::partition::{BUCKET, PartitionField};

// The last partition id where no field of a spec was given an id.
pub const UNPARTITIONED_LAST_ASSIGNED_ID: i32 = 999;

// source id, has_id, id, whether another stands before it, transform, number of buckets, whether that is told; name
pub fn partition_field(f: PartitionField, follows: bool) -> Card {
    let buckets = f.buckets.0;
    let numbers = Card::of_numbers(
        [
            wide(f.source_id.0),
            f.has_id as i64,
            wide(f.field_id.0),
            follows as i64,
            f.transform as i64,
            wide(buckets),
            (f.transform == BUCKET || buckets != 0) as i64,
            0,
        ],
        [0, 0],
    );
    numbers.with_text(name_text(f.name))
}

// People are told the specs but for the usual ones: spec 0 alone, without fields, which is the default, and no partition id given yet.
pub fn are_specs_told(metadata: TableMetadata) -> bool {
    let fields = metadata.fields;
    let specs = metadata.partition_specs;
    let first = specs.items[0];
    specs.count != 1
        || first.spec_id.0 != 0
        || first.count != 0
        || fields.default_spec_id.0 != 0
        || fields.last_partition_id.0 != UNPARTITIONED_LAST_ASSIGNED_ID
}
