// Each table looked at, one record after another. A slot that is counted and not there is blank.
ghost use Rattle.std.specs.Prelude.{◌≡◌, Bool};
ghost use Rattle.rules.specs.Words.{all};
ghost use Rattle.rules.specs.Layout.{counted, read_snapshots, read_refs, read_metadata_log, read_schema, read_schemas, read_partition_spec, read_partition_specs, read_statistics};
ghost use Rattle.file_rule.specs.Export.{schema_texts, spec_texts, file_path};
ghost use Rattle.file_shown.specs.Tests.{ref_named, owner_shown, entry_named, field_named, partition_named, sequence_zero, rows_none};

use crate::character::{name_is_utf8, text_is_utf8};
use records::counters::SequenceNumber;
use records::metadata::{MetadataLog, MetadataLogEntry};
use records::partition::{PartitionField, PartitionSpec, PartitionSpecs};
use records::reference::{NamedRef, Refs};
use records::schema::{Schema, SchemaField, Schemas};
use records::snapshot::{Snapshot, Snapshots};
use records::statistics::{StatisticsFile, StatisticsFiles};

// The test is true of each of so many slots; one that is counted and not there is blank.
pub fn all_items<T: Copy, F: Fn(&T) -> bool>(
    slots: &[T],
    count: usize,
    blank: T,
    is_fine: F,
) -> bool
    ghost test: { T → Bool }
    requires callable { F.IsAlwaysCallable is_fine }
    requires tests { (x : _) (r : _) → F.post is_fine x r → r ≡ test x.now }
    ensures { result ≡ all test (counted blank slots.now count) }
{
    for i in 0..count {
        if !is_fine(slots.get(i).unwrap_or(&blank)) {
            return false;
        }
    }
    true
}

pub fn refs_named(t: Refs) -> bool
    ensures { result ≡ all ref_named (read_refs t) }
{
    all_items(
        &t.items,
        t.count,
        NamedRef::blank(),
        |x| name_is_utf8(x.name),
    )
}

pub fn owners_shown(t: Refs) -> bool
    ensures { result ≡ all owner_shown (read_refs t) }
{
    all_items(&t.items, t.count, NamedRef::blank(), |x| x.owner == 1)
}

pub fn log_named(t: MetadataLog) -> bool
    ensures { result ≡ all entry_named (read_metadata_log t) }
{
    all_items(
        &t.items,
        t.count,
        MetadataLogEntry::blank(),
        |x| text_is_utf8(x.metadata_file),
    )
}

pub fn schema_named(t: Schema) -> bool
    ensures { result ≡ all field_named (read_schema t).fields }
{
    all_items(
        &t.items,
        t.count,
        SchemaField::blank(),
        |x| name_is_utf8(x.name),
    )
}

pub fn schemas_named(t: Schemas) -> bool
    ensures { result ≡ all schema_texts (read_schemas t) }
{
    all_items(&t.items, t.count, Schema::blank(), |x| schema_named(*x))
}

pub fn spec_named(t: PartitionSpec) -> bool
    ensures { result ≡ all partition_named (read_partition_spec t).fields }
{
    all_items(
        &t.items,
        t.count,
        PartitionField::blank(),
        |x| name_is_utf8(x.name),
    )
}

pub fn specs_named(t: PartitionSpecs) -> bool
    ensures { result ≡ all spec_texts (read_partition_specs t) }
{
    all_items(
        &t.items,
        t.count,
        PartitionSpec::blank(),
        |x| spec_named(*x),
    )
}

pub fn files_named(t: StatisticsFiles) -> bool
    ensures { result ≡ all file_path (read_statistics t) }
{
    all_items(
        &t.items,
        t.count,
        StatisticsFile::blank(),
        |x| text_is_utf8(x.statistics_path),
    )
}

pub fn sequences_zero(t: Snapshots) -> bool
    ensures { result ≡ all sequence_zero (read_snapshots t) }
{
    all_items(
        &t.items,
        t.count,
        Snapshot::blank(),
        |x| x.sequence_number == SequenceNumber(0),
    )
}

pub fn rows_none(t: Snapshots) -> bool
    ensures { result ≡ all rows_none (read_snapshots t) }
{
    all_items(&t.items, t.count, Snapshot::blank(), |x| !x.has_rows)
}
