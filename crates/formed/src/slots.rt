// The slots of tables and logs: the counted ones are tidy and well formed, and the rest are blank.
// Kept: a function for each table, `snapshot_keys` to `statistics_keys`: the public contract of each, `Found`, says what is read of that table.
ghost use Rattle.std.specs.Prelude.{◌≡◌, ◌&&◌, leb, length};
ghost use Rattle.std.specs.Int.Signed.{non_neg};
ghost use Rattle.rules.specs.Words.{all};
ghost use Rattle.rules.specs.Capacities.{snapshot_room, ref_room, schema_room, sort_order_room, spec_room, statistics_room};
ghost use Rattle.rules.specs.WellFormed.{file_name_formed, snapshot_formed, ref_formed, schema_formed, order_formed, spec_formed, statistics_file_formed, snapshot_log_formed, metadata_log_formed};
ghost use Rattle.rules.specs.Blanks.{is_tidy_snapshot, is_blank_snapshot, is_tidy_snapshots, is_blank_log_entry, is_tidy_snapshot_log, is_tidy_ref, is_blank_ref, is_tidy_refs, is_tidy_schema, is_blank_schema, is_tidy_schemas, is_tidy_sort_order, is_blank_sort_order, is_tidy_sort_orders, is_tidy_partition_spec, is_blank_partition_spec, is_tidy_partition_specs, is_tidy_statistics_file, is_blank_statistics_file, is_tidy_statistics, is_tidy_metadata_log_entry, is_blank_metadata_log_entry, is_tidy_metadata_log};
ghost use Rattle.rules.specs.Layout.{read_text, read_snapshot, read_snapshots, read_snapshot_log, read_ref, read_refs, read_schema, read_schemas, read_sort_order, read_sort_orders, read_partition_spec, read_partition_specs, read_statistics_file, read_statistics, read_metadata_log};
ghost use Rattle.formed.specs.Found.{Found};

use crate::blanks::{
    name_fits, order_fits, reference_fits, schema_fits, snapshot_fits, spec_fits,
    statistics_file_fits, text_fits,
};
use crate::order::Keys;
use crate::record::{
    order_formed, owner_formed, reference_formed, schema_formed, snapshot_formed, spec_formed,
    statistics_file_formed,
};
use crate::slot::{Keyed, Slot, keys, slots_fit};
use records::capacities::{METADATA_LOG, NAME, REFS, SNAPSHOT_LOG, TEXT};
use records::counters::{SnapshotId, Time};
use records::metadata::{MetadataLog, MetadataLogEntry};
use records::partition::{PartitionSpec, PartitionSpecs};
use records::reference::{NamedRef, Refs};
use records::schema::{Schema, Schemas};
use records::snapshot::{Snapshot, SnapshotLog, SnapshotLogEntry, Snapshots};
use records::sort_order::{SortOrder, SortOrders};
use records::statistics::{StatisticsFile, StatisticsFiles};

// ---- snapshots

impl Slot for Snapshot {
    ghost used = { λ s. is_tidy_snapshot s && snapshot_formed (read_snapshot s) };

    ghost blank = { is_blank_snapshot };

    fn fits(&self, is_used: bool) -> bool {
        if is_used {
            return snapshot_fits(true, *self) & snapshot_formed(*self);
        }
        snapshot_fits(false, *self)
    }
}

impl Keyed for Snapshot {
    ghost key_of = { λ s. s.snapshot_id.0 };

    fn key(&self) -> i64 {
        self.snapshot_id.0
    }
}

pub fn snapshot_keys(t: Snapshots) -> Keys
    ensures { Found (is_tidy_snapshots t) snapshot_room snapshot_formed (λ x. x.id) (read_snapshots t) result }
{
    keys(&t.items, t.count)
}

// ---- refs

impl Slot for NamedRef {
    ghost used = { λ r. is_tidy_ref r && ref_formed (read_ref r) };

    ghost blank = { is_blank_ref };

    fn fits(&self, is_used: bool) -> bool {
        if is_used {
            return (name_fits(true, self.name) & reference_fits(true, self.reference))
                & ((self.name.len <= NAME)
                    & reference_formed(self.reference)
                    & owner_formed(self.name, self.owner));
        }
        name_fits(false, self.name) & reference_fits(false, self.reference) & (self.owner == 0)
    }
}

pub fn refs_filled(t: Refs) -> bool
    ensures { result ≡ (is_tidy_refs t && (leb (length (read_refs t)) ref_room && all ref_formed (read_refs t))) }
{
    (t.count <= REFS) & slots_fit(&t.items, t.count)
}

// ---- the logs

impl Slot for SnapshotLogEntry {
    ghost used = { λ e. non_neg e.snapshot_id.0 };

    ghost blank = { is_blank_log_entry };

    fn fits(&self, is_used: bool) -> bool {
        if is_used {
            return self.snapshot_id >= SnapshotId(0);
        }
        *self == SnapshotLogEntry::blank()
    }
}

pub fn snapshot_log_formed(t: SnapshotLog) -> bool
    ensures { result ≡ (is_tidy_snapshot_log t && snapshot_log_formed (read_snapshot_log t)) }
{
    (t.count <= SNAPSHOT_LOG) & slots_fit(&t.items, t.count)
}

impl Slot for MetadataLogEntry {
    ghost used = { λ e. is_tidy_metadata_log_entry e && file_name_formed (read_text e.metadata_file) };

    ghost blank = { is_blank_metadata_log_entry };

    fn fits(&self, is_used: bool) -> bool {
        if is_used {
            return text_fits(true, self.metadata_file) & (self.metadata_file.len <= TEXT);
        }
        text_fits(false, self.metadata_file) & (self.timestamp_ms == Time(0))
    }
}

pub fn metadata_log_formed(t: MetadataLog) -> bool
    ensures { result ≡ (is_tidy_metadata_log t && metadata_log_formed (read_metadata_log t)) }
{
    (t.count <= METADATA_LOG) & slots_fit(&t.items, t.count)
}

// ---- schemas

impl Slot for Schema {
    ghost used = { λ s. is_tidy_schema s && schema_formed (read_schema s) };

    ghost blank = { is_blank_schema };

    fn fits(&self, is_used: bool) -> bool {
        if !schema_fits(is_used, *self) {
            return false;
        }
        if is_used {
            return schema_formed(*self);
        }
        true
    }
}

impl Keyed for Schema {
    ghost key_of = { λ s. s.schema_id.0 };

    fn key(&self) -> i64 {
        i64::from(self.schema_id.0)
    }
}

pub fn schema_keys(t: Schemas) -> Keys
    ensures { Found (is_tidy_schemas t) schema_room schema_formed (λ x. x.id) (read_schemas t) result }
{
    keys(&t.items, t.count)
}

// ---- sort orders

impl Slot for SortOrder {
    ghost used = { λ o. is_tidy_sort_order o && order_formed (read_sort_order o) };

    ghost blank = { is_blank_sort_order };

    fn fits(&self, is_used: bool) -> bool {
        if is_used {
            return order_fits(true, *self) & order_formed(*self);
        }
        order_fits(false, *self)
    }
}

impl Keyed for SortOrder {
    ghost key_of = { λ o. o.order_id.0 };

    fn key(&self) -> i64 {
        self.order_id.0
    }
}

pub fn order_keys(t: SortOrders) -> Keys
    ensures { Found (is_tidy_sort_orders t) sort_order_room order_formed (λ x. x.id) (read_sort_orders t) result }
{
    keys(&t.items, t.count)
}

// ---- partition specs

impl Slot for PartitionSpec {
    ghost used = { λ s. is_tidy_partition_spec s && spec_formed (read_partition_spec s) };

    ghost blank = { is_blank_partition_spec };

    fn fits(&self, is_used: bool) -> bool {
        if !spec_fits(is_used, *self) {
            return false;
        }
        if is_used {
            return spec_formed(*self);
        }
        true
    }
}

impl Keyed for PartitionSpec {
    ghost key_of = { λ s. s.spec_id.0 };

    fn key(&self) -> i64 {
        i64::from(self.spec_id.0)
    }
}

pub fn spec_keys(t: PartitionSpecs) -> Keys
    ensures { Found (is_tidy_partition_specs t) spec_room spec_formed (λ x. x.id) (read_partition_specs t) result }
{
    keys(&t.items, t.count)
}

// ---- statistics files

impl Slot for StatisticsFile {
    ghost used = { λ f. is_tidy_statistics_file f && statistics_file_formed (read_statistics_file f) };

    ghost blank = { is_blank_statistics_file };

    fn fits(&self, is_used: bool) -> bool {
        if is_used {
            return statistics_file_fits(true, *self) & statistics_file_formed(*self);
        }
        statistics_file_fits(false, *self)
    }
}

impl Keyed for StatisticsFile {
    ghost key_of = { λ f. f.snapshot_id.0 };

    fn key(&self) -> i64 {
        self.snapshot_id.0
    }
}

pub fn statistics_keys(t: StatisticsFiles) -> Keys
    ensures { Found (is_tidy_statistics t) statistics_room statistics_file_formed (λ x. x.snapshot) (read_statistics t) result }
{
    keys(&t.items, t.count)
}
