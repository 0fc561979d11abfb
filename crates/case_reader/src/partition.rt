// Partition specs, what metadata has beside their table, which is the id of the default one and the last partition id, and the ids of a removal.
use crate::text::read_name;
use records::capacities::{PARTITION_FIELDS, PARTITION_SPECS, REMOVALS};
use records::counters::{Buckets, FieldId, SpecId};
use records::metadata::SingleFields;
use records::partition::{PartitionField, PartitionSpec, PartitionSpecs, SpecIds};
use tokens::field::{read_count, read_flag, read_i32, read_u8};
use tokens::input::Input;

// The table where none is given: spec 0 alone, without fields.
pub fn unpartitioned() -> PartitionSpecs {
    let mut table = PartitionSpecs::blank();
    table.count = 1;
    table
}

pub fn read_partition_field(input: &mut Input) -> PartitionField {
    let source_id = read_i32(input);
    let has_id = read_flag(input);
    let field_id = read_i32(input);
    let name = read_name(input);
    let transform = read_u8(input);
    let buckets = read_i32(input);
    PartitionField {
        source_id: FieldId(source_id),
        field_id: FieldId(field_id),
        buckets: Buckets(buckets),
        transform,
        has_id,
        name,
    }
}

fn read_spec(input: &mut Input) -> PartitionSpec {
    let mut spec = PartitionSpec::blank();
    let id = SpecId(read_i32(input));
    let count = read_count(input);
    for i in 0..count {
        if !input.is_good() {
            break;
        }
        let field = read_partition_field(input);
        if i < PARTITION_FIELDS {
            spec.items[i] = field;
        }
    }
    spec.spec_id = id;
    spec.count = count;
    spec
}

pub fn read_specs(input: &mut Input) -> PartitionSpecs {
    let mut table = PartitionSpecs::blank();
    let count = read_count(input);
    for i in 0..count {
        if !input.is_good() {
            break;
        }
        let spec = read_spec(input);
        if i < PARTITION_SPECS {
            table.items[i] = spec;
        }
    }
    table.count = count;
    table
}

// The single fields with those that stand behind the table.
pub fn read_spec_fields(mut fields: SingleFields, input: &mut Input) -> SingleFields {
    let default_spec_id = SpecId(read_i32(input));
    let last_partition_id = FieldId(read_i32(input));
    fields.default_spec_id = default_spec_id;
    fields.last_partition_id = last_partition_id;
    fields
}

pub fn read_spec_ids(input: &mut Input) -> SpecIds {
    let mut ids = SpecIds::blank();
    let count = read_count(input);
    for i in 0..count {
        if !input.is_good() {
            break;
        }
        let id = SpecId(read_i32(input));
        if i < REMOVALS {
            ids.items[i] = id;
        }
    }
    ids.count = count;
    ids
}
