// Well-formed records: those of the tables and those of updates.
ghost use Rattle.std.specs.Prelude.{◌≡◌, true, not, ◌&&◌, ◌||◌, eqb};
ghost use Rattle.std.specs.Int.Signed.{non_neg};
ghost use Rattle.rules.specs.Words.{eq_z, all, if_some};
ghost use Rattle.rules.specs.Names.{is_main};
ghost use Rattle.rules.specs.Offices.{first_office, second_office};
ghost use Rattle.rules.specs.WellFormed.{at_least_one, snapshot_formed, reference_formed, schema_field_formed, schema_formed, sort_field_formed, offered_order_formed, order_formed, transform_formed, partition_field_formed, offered_spec_formed, spec_formed, statistics_file_formed, removal_formed, offered_ids_formed};
ghost use Rattle.rules.specs.Partitions.{is_time, is_redundant};
ghost use Rattle.rules.specs.Blanks.{is_tidy_schema, is_tidy_partition_spec};
ghost use Rattle.rules.specs.Layout.{read_name, read_snapshot, read_snapshot_ids, read_reference, read_schema_field, read_schema, read_schema_ids, read_sort_field, read_sort_order, read_partition_field, read_partition_spec, read_offered_id, read_spec_offer, read_spec_ids, read_statistics_file};
ghost use Rattle.equality.specs.Same.{same_name};

use crate::bounds::{
    age_formed, buckets_formed, field_id_formed, file_size_formed, min_formed, order_id_formed,
    partition_id_formed, schema_id_formed, sequence_formed, snapshot_id_formed, spec_id_formed,
};
use crate::slot::{Apart, Formed, counted_formed, each_apart};
use primitives::names::is_main;
use records::capacities::{NAME, SCHEMA_FIELDS, TEXT};
use records::counters::{Buckets, SchemaId, SnapshotId, SortOrderId, SpecId};
use records::partition::{
    BUCKET, DAY, IDENTITY, OfferedId, PartitionField, PartitionSpec, SpecIds, SpecOffer, YEAR,
};
use records::reference::SnapshotReference;
use records::run::{FIRST_OFFICE, SECOND_OFFICE};
use records::schema::{LONG, Schema, SchemaField, SchemaIds, TIMESTAMP};
use records::snapshot::{Snapshot, SnapshotIds};
use records::sort_order::{SortField, SortOrder};
use records::statistics::StatisticsFile;
use records::text::Name;

pub fn snapshot_formed(s: Snapshot) -> bool
    ensures { result ≡ snapshot_formed (read_snapshot s) }
{
    snapshot_id_formed(s.snapshot_id)
        & (!s.has_parent | snapshot_id_formed(s.parent_snapshot_id))
        & sequence_formed(s.sequence_number)
}

impl Formed for SnapshotId {
    ghost formed = { λ x. non_neg x.0 };

    fn is_formed(&self) -> bool {
        snapshot_id_formed(*self)
    }
}

pub fn snapshot_ids_formed(t: SnapshotIds) -> bool
    ensures { result ≡ removal_formed (read_snapshot_ids t) }
{
    counted_formed(&t.items, t.count)
}

pub fn reference_formed(r: SnapshotReference) -> bool
    ensures { result ≡ reference_formed (read_reference r) }
{
    snapshot_id_formed(r.snapshot_id)
        & ((r.kind == 1) | ((r.kind == 2) & !r.has_min & !r.has_age))
        & (min_formed(r.has_min, r.min_snapshots_to_keep)
            & age_formed(r.has_age, r.max_snapshot_age_ms)
            & age_formed(r.has_ref_age, r.max_ref_age_ms))
}

// The first office, or the second and the ref is not `main`. A name that is too long is none.
pub fn owner_formed(name: Name, owner: u8) -> bool
    ensures { result ≡ (eqb owner first_office || (eqb owner second_office && not (is_main (read_name name)))) }
{
    if (owner != SECOND_OFFICE) | (name.len > NAME) {
        return (owner == FIRST_OFFICE) | (owner == SECOND_OFFICE);
    }
    !is_main(&name.bytes[..name.len])
}

impl Formed for SchemaField {
    ghost formed = { λ f. schema_field_formed (read_schema_field f) };

    fn is_formed(&self) -> bool {
        field_id_formed(self.id)
            & ((self.field_type == LONG) | (self.field_type == TIMESTAMP))
            & (self.name.len <= NAME)
    }
}

// Lengths tell most names apart, and the bytes are looked at where they do not.
fn names_differ(x: Name, y: Name) -> bool
    ensures { result ≡ not (same_name x y) }
{
    (x.len != y.len) || (x != y)
}

// Neither the ids nor the names are the same.
impl Apart for SchemaField {
    ghost apart = { λ a b. not (eq_z a.id.0 b.id.0) && not (same_name a.name b.name) };

    fn is_apart(&self, other: &SchemaField) -> bool {
        (self.id != other.id) & names_differ(self.name, other.name)
    }
}

pub fn schema_formed(s: Schema) -> bool
    requires { is_tidy_schema s ≡ true }
    ensures { result ≡ schema_formed (read_schema s) }
{
    if s.count > SCHEMA_FIELDS {
        return false;
    }
    schema_id_formed(s.schema_id)
        & counted_formed(&s.items, s.count)
        & each_apart(&s.items[..s.count])
}

impl Formed for SchemaId {
    ghost formed = { λ x. non_neg x.0 };

    fn is_formed(&self) -> bool {
        schema_id_formed(*self)
    }
}

pub fn schema_ids_formed(t: SchemaIds) -> bool
    ensures { result ≡ removal_formed (read_schema_ids t) }
{
    counted_formed(&t.items, t.count)
}

impl Formed for SortField {
    ghost formed = { λ f. sort_field_formed (read_sort_field f) };

    fn is_formed(&self) -> bool {
        field_id_formed(self.source_id) & (self.direction <= 1) & (self.null_order <= 1)
    }
}

// An order that is offered.
pub fn offered_order_formed(o: SortOrder) -> bool
    ensures { result ≡ offered_order_formed (read_sort_order o) }
{
    order_id_formed(o.order_id) & counted_formed(&o.items, o.count)
}

// One that is held has no fields exactly if its id is 0.
pub fn order_formed(o: SortOrder) -> bool
    ensures { result ≡ order_formed (read_sort_order o) }
{
    offered_order_formed(o) & ((o.count == 0) == (o.order_id == SortOrderId(0)))
}

// A bucket has a number, and no other transform has one.
fn transform_formed(t: u8, n: Buckets) -> bool
    ensures { result ≡ transform_formed t n.0 }
{
    ((IDENTITY <= t) & (t <= DAY) & (n == Buckets(0))) | ((t == BUCKET) & buckets_formed(n))
}

impl Formed for PartitionField {
    ghost formed = { λ f. partition_field_formed (read_partition_field f) };

    fn is_formed(&self) -> bool {
        field_id_formed(self.source_id)
            & partition_id_formed(self.has_id, self.field_id)
            & transform_formed(self.transform, self.buckets)
            & (1 <= self.name.len)
            & (self.name.len <= NAME)
    }
}

// A spec that is offered.
pub fn offered_spec_formed(s: PartitionSpec) -> bool
    ensures { result ≡ offered_spec_formed (read_partition_spec s) }
{
    spec_id_formed(s.spec_id) & counted_formed(&s.items, s.count)
}

fn is_time(t: u8) -> bool
    ensures { result ≡ is_time t }
{
    (YEAR <= t) & (t <= DAY)
}

// Two fields of one source, with one transform or both with a time.
pub fn is_redundant(a: PartitionField, b: PartitionField) -> bool
    ensures { result ≡ is_redundant (read_partition_field a) (read_partition_field b) }
{
    (a.source_id == b.source_id)
        & (((a.transform == b.transform) & (a.buckets == b.buckets))
            | (is_time(a.transform) & is_time(b.transform)))
}

// Neither the names nor the ids are the same, and none of the two is redundant.
impl Apart for PartitionField {
    ghost apart = { λ a b. not (same_name a.name b.name) && not (eq_z a.field_id.0 b.field_id.0) && not (is_redundant (read_partition_field a) (read_partition_field b)) };

    fn is_apart(&self, other: &PartitionField) -> bool {
        names_differ(self.name, other.name)
            & (self.field_id != other.field_id)
            & !is_redundant(*self, *other)
    }
}

fn all_have_ids(fields: &[PartitionField]) -> bool
    ensures { result ≡ all (λ f. f.has_id) fields.now }
{
    for f in fields {
        if !f.has_id {
            return false;
        }
    }
    true
}

// One that is held: every field has an id, and each two of them differ.
pub fn spec_formed(s: PartitionSpec) -> bool
    requires { is_tidy_partition_spec s ≡ true }
    ensures { result ≡ spec_formed (read_partition_spec s) }
{
    if !offered_spec_formed(s) {
        return false;
    }
    let fields = &s.items[..s.count];
    all_have_ids(fields) & each_apart(fields)
}

impl Formed for OfferedId {
    ghost formed = { λ x. if_some at_least_one (read_offered_id x) };

    fn is_formed(&self) -> bool {
        partition_id_formed(self.given, self.id)
    }
}

// What is asked of an offered spec before its fields are read.
pub fn offered_ids_formed(o: SpecOffer) -> bool
    ensures { result ≡ offered_ids_formed (read_spec_offer o) }
{
    spec_id_formed(o.spec_id) & counted_formed(&o.ids, o.count)
}

impl Formed for SpecId {
    ghost formed = { λ x. non_neg x.0 };

    fn is_formed(&self) -> bool {
        spec_id_formed(*self)
    }
}

pub fn spec_ids_formed(t: SpecIds) -> bool
    ensures { result ≡ removal_formed (read_spec_ids t) }
{
    counted_formed(&t.items, t.count)
}

pub fn statistics_file_formed(f: StatisticsFile) -> bool
    ensures { result ≡ statistics_file_formed (read_statistics_file f) }
{
    snapshot_id_formed(f.snapshot_id)
        & (f.statistics_path.len <= TEXT)
        & file_size_formed(f.file_size_in_bytes)
}
