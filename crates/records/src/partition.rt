// Partition specs: lists of fields, each a field of a schema and a transform of its values.
ghost use Rattle.std.specs.Prelude.{◌≡◌};
ghost use Rattle.records.specs.Blanks.{no_partition_field, no_partition_spec, no_partition_specs, no_offered_id, no_spec_offer, no_spec_ids};

use crate::capacities::{PARTITION_FIELDS, PARTITION_SPECS, REMOVALS};
use crate::counters::{Buckets, FieldId, SpecId};
use crate::text::Name;

// The transforms.
pub const IDENTITY: u8 = 1;

pub const YEAR: u8 = 2;

pub const MONTH: u8 = 3;

pub const DAY: u8 = 4;

pub const BUCKET: u8 = 5;

// The number of buckets is 0 where the transform is no bucket. A field that is held has an id; one that is offered may leave it out, and then 0 stands there.
#[derive(Clone, Copy, PartialEq, Eq)]
pub struct PartitionField {
    pub source_id: FieldId,
    pub field_id: FieldId,
    pub buckets: Buckets,
    pub transform: u8,
    pub has_id: bool,
    pub name: Name,
}

#[derive(Clone, Copy, PartialEq, Eq)]
pub struct PartitionSpec {
    pub spec_id: SpecId,
    pub items: [PartitionField; PARTITION_FIELDS],
    pub count: usize,
}

// Ascending by id.
#[derive(Clone, Copy, PartialEq, Eq)]
pub struct PartitionSpecs {
    pub items: [PartitionSpec; PARTITION_SPECS],
    pub count: usize,
}

// The id of an offered field. Where it is left out, 0 stands there; a 0 that is given is told from it by the flag.
#[derive(Clone, Copy, PartialEq, Eq)]
pub struct OfferedId {
    pub given: bool,
    pub id: FieldId,
}

// A spec as an update offers it: where its fields stand among the bytes that are lent to the run, how many they are, and the id of each.
#[derive(Clone, Copy, PartialEq, Eq)]
pub struct SpecOffer {
    pub spec_id: SpecId,
    pub at: usize,
    pub count: usize,
    pub ids: [OfferedId; PARTITION_FIELDS],
}

// The ids of a removal.
#[derive(Clone, Copy, PartialEq, Eq)]
pub struct SpecIds {
    pub items: [SpecId; REMOVALS],
    pub count: usize,
}

impl PartitionField {
    pub fn blank() -> PartitionField
        ensures { result ≡ no_partition_field }
    {
        let name = Name::blank();
        PartitionField {
            source_id: FieldId(0),
            field_id: FieldId(0),
            buckets: Buckets(0),
            transform: 0,
            has_id: false,
            name,
        }
    }
}

impl PartitionSpec {
    pub fn blank() -> PartitionSpec
        ensures { result ≡ no_partition_spec }
    {
        let none = PartitionField::blank();
        let items = [none; PARTITION_FIELDS];
        PartitionSpec {
            spec_id: SpecId(0),
            items,
            count: 0,
        }
    }
}

impl PartitionSpecs {
    pub fn blank() -> PartitionSpecs
        ensures { result ≡ no_partition_specs }
    {
        let none = PartitionSpec::blank();
        let items = [none; PARTITION_SPECS];
        PartitionSpecs { items, count: 0 }
    }
}

impl OfferedId {
    pub fn blank() -> OfferedId
        ensures { result ≡ no_offered_id }
    {
        OfferedId {
            given: false,
            id: FieldId(0),
        }
    }
}

impl SpecOffer {
    pub fn blank() -> SpecOffer
        ensures { result ≡ no_spec_offer }
    {
        let none = OfferedId::blank();
        let ids = [none; PARTITION_FIELDS];
        SpecOffer {
            spec_id: SpecId(0),
            at: 0,
            count: 0,
            ids,
        }
    }
}

impl SpecIds {
    pub fn blank() -> SpecIds
        ensures { result ≡ no_spec_ids }
    {
        let none = SpecId(0);
        let items = [none; REMOVALS];
        SpecIds { items, count: 0 }
    }
}
