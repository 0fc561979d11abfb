// Is a record as its place asks? A place that is used asks for a tidy record, in which what does not count is blank: the slots past a count,
// the bytes past a length, the number behind a flag that is not set. A place that is not used asks for the blank. So the rules, which read only
// what counts, read all that a record says.
// A record of numbers is blank if it is equal to the blank. Slots and bytes are looked at one and all, without a stop: such a scan is
// compiled to wide steps.
ghost use Rattle.std.specs.Prelude.{◌≡◌, cond, drop};
ghost use Rattle.rules.specs.Words.{all};
ghost use Rattle.rules.specs.Blanks.{is_zero, is_tidy_name, is_blank_name, is_tidy_text, is_blank_text, is_tidy_snapshot, is_blank_snapshot, is_tidy_snapshot_ids, is_blank_snapshot_ids, is_tidy_reference, is_blank_reference, is_tidy_schema_field, is_blank_schema_field, is_tidy_schema, is_blank_schema, is_blank_schema_offer, is_tidy_schema_ids, is_blank_schema_ids, is_tidy_sort_order, is_blank_sort_order, is_tidy_partition_field, is_blank_partition_field, is_tidy_partition_spec, is_blank_partition_spec, is_tidy_offered_id, is_blank_offered_id, is_tidy_spec_offer, is_blank_spec_offer, is_tidy_spec_ids, is_blank_spec_ids, is_tidy_statistics_file, is_blank_statistics_file};

use crate::slot::{Slot, blank_from, slots_fit};
use records::counters::{
    Age, Buckets, FieldId, FileSize, MinSnapshots, RowId, SchemaId, SnapshotId, SortOrderId, SpecId,
};
use records::partition::{OfferedId, PartitionField, PartitionSpec, SpecIds, SpecOffer};
use records::reference::SnapshotReference;
use records::schema::{Schema, SchemaField, SchemaIds, SchemaOffer};
use records::snapshot::{Snapshot, SnapshotIds};
use records::sort_order::{SortField, SortOrder};
use records::statistics::StatisticsFile;
use records::text::{Name, Text};

// Where the unused slots start: past the counted ones, or at the first.
fn unused_from(used: bool, count: usize) -> usize
    ensures { result ≡ cond used count 0 }
{
    if used {
        return count;
    }
    0
}

// ---- texts

// Every byte from a place on is 0.
pub fn zeros_from(bytes: &[u8], from: usize) -> bool
    ensures { result ≡ all is_zero (drop from bytes.now) }
{
    blank_from(bytes, from, 0)
}

pub fn name_fits(used: bool, t: Name) -> bool
    ensures { result ≡ cond used (is_tidy_name t) (is_blank_name t) }
{
    let from = unused_from(used, t.len);
    (used | (t.len == 0)) & zeros_from(&t.bytes, from)
}

// Of a text that is not used all bytes are asked, as many as a text has: such a scan is compiled to a few wide steps.
pub fn text_fits(used: bool, t: Text) -> bool
    ensures { result ≡ cond used (is_tidy_text t) (is_blank_text t) }
{
    if used {
        return zeros_from(&t.bytes, t.len);
    }
    (t.len == 0) & zeros_from(&t.bytes, 0)
}

// ---- snapshots and refs

pub fn snapshot_fits(used: bool, s: Snapshot) -> bool
    ensures { result ≡ cond used (is_tidy_snapshot s) (is_blank_snapshot s) }
{
    if used {
        return (s.has_parent | (s.parent_snapshot_id == SnapshotId(0)))
            & (s.has_rows | ((s.first_row_id == RowId(0)) & (s.added_rows == 0)));
    }
    s == Snapshot::blank()
}

pub fn snapshot_ids_fit(used: bool, t: SnapshotIds) -> bool
    ensures { result ≡ cond used (is_tidy_snapshot_ids t) (is_blank_snapshot_ids t) }
{
    let from = unused_from(used, t.count);
    (used | (t.count == 0)) & blank_from(&t.items, from, SnapshotId(0))
}

pub fn reference_fits(used: bool, r: SnapshotReference) -> bool
    ensures { result ≡ cond used (is_tidy_reference r) (is_blank_reference r) }
{
    if used {
        return (r.has_min | (r.min_snapshots_to_keep == MinSnapshots(0)))
            & (r.has_age | (r.max_snapshot_age_ms == Age(0)))
            & (r.has_ref_age | (r.max_ref_age_ms == Age(0)));
    }
    r == SnapshotReference::blank()
}

// ---- schemas

impl Slot for SchemaField {
    ghost used = { is_tidy_schema_field };

    ghost blank = { is_blank_schema_field };

    fn fits(&self, is_used: bool) -> bool {
        (is_used | ((self.id == FieldId(0)) & (self.field_type == 0)))
            & name_fits(is_used, self.name)
    }
}

pub fn schema_fits(used: bool, s: Schema) -> bool
    ensures { result ≡ cond used (is_tidy_schema s) (is_blank_schema s) }
{
    let from = unused_from(used, s.count);
    (used | ((s.schema_id == SchemaId(0)) & (s.count == 0))) & slots_fit(&s.items, from)
}

pub fn schema_offer_is_blank(o: SchemaOffer) -> bool
    ensures { result ≡ is_blank_schema_offer o }
{
    (o.schema_id == SchemaId(0)) & (o.at == 0) & (o.count == 0)
}

pub fn schema_ids_fit(used: bool, t: SchemaIds) -> bool
    ensures { result ≡ cond used (is_tidy_schema_ids t) (is_blank_schema_ids t) }
{
    let from = unused_from(used, t.count);
    (used | (t.count == 0)) & blank_from(&t.items, from, SchemaId(0))
}

// ---- sort orders

pub fn order_fits(used: bool, o: SortOrder) -> bool
    ensures { result ≡ cond used (is_tidy_sort_order o) (is_blank_sort_order o) }
{
    let from = unused_from(used, o.count);
    (used | ((o.order_id == SortOrderId(0)) & (o.count == 0)))
        & blank_from(&o.items, from, SortField::blank())
}

// ---- partition specs

impl Slot for PartitionField {
    ghost used = { is_tidy_partition_field };

    ghost blank = { is_blank_partition_field };

    // Without a branch: a scan that asks the same of each field is compiled to wide steps.
    fn fits(&self, is_used: bool) -> bool {
        let none = self.field_id == FieldId(0);
        let zeros = (self.source_id == FieldId(0))
            & none
            & (self.buckets == Buckets(0))
            & (self.transform == 0)
            & !self.has_id;
        (self.has_id | none) & (is_used | zeros) & name_fits(is_used, self.name)
    }
}

pub fn spec_fits(used: bool, s: PartitionSpec) -> bool
    ensures { result ≡ cond used (is_tidy_partition_spec s) (is_blank_partition_spec s) }
{
    let from = unused_from(used, s.count);
    (used | ((s.spec_id == SpecId(0)) & (s.count == 0))) & slots_fit(&s.items, from)
}

impl Slot for OfferedId {
    ghost used = { is_tidy_offered_id };

    ghost blank = { is_blank_offered_id };

    fn fits(&self, is_used: bool) -> bool {
        if is_used {
            return self.given | (self.id == FieldId(0));
        }
        !self.given & (self.id == FieldId(0))
    }
}

pub fn spec_offer_fits(used: bool, o: SpecOffer) -> bool
    ensures { result ≡ cond used (is_tidy_spec_offer o) (is_blank_spec_offer o) }
{
    let from = unused_from(used, o.count);
    (used | ((o.spec_id == SpecId(0)) & (o.at == 0) & (o.count == 0))) & slots_fit(&o.ids, from)
}

pub fn spec_ids_fit(used: bool, t: SpecIds) -> bool
    ensures { result ≡ cond used (is_tidy_spec_ids t) (is_blank_spec_ids t) }
{
    let from = unused_from(used, t.count);
    (used | (t.count == 0)) & blank_from(&t.items, from, SpecId(0))
}

// ---- statistics files

pub fn statistics_file_fits(used: bool, f: StatisticsFile) -> bool
    ensures { result ≡ cond used (is_tidy_statistics_file f) (is_blank_statistics_file f) }
{
    if used {
        return text_fits(true, f.statistics_path);
    }
    (f.snapshot_id == SnapshotId(0))
        & text_fits(false, f.statistics_path)
        & (f.file_size_in_bytes == FileSize(0))
}
