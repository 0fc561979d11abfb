// The records, each as a JSON object.
ghost use Rattle.std.specs.Prelude.{[], ◌∷◌};
ghost use Rattle.std.proofs.Math.Option.{some};
ghost use Rattle.rules.specs.Layout.{read_snapshot, read_log_entry, read_reference, read_ref, read_schema_field, read_sort_field, read_partition_field, read_statistics_file, read_metadata_log_entry};
ghost use Rattle.file_rule.specs.Files.{rows_text, snapshot_text, log_entry_text, reference_text, ref_text, field_text, sort_field_text, transform_text, partition_field_text, statistics_text, file_entry_text};
ghost use Rattle.file_text.specs.Puts.{Puts, only_if};

use crate::number::{
    of_age, of_buckets, of_field, of_held_field, of_min, of_sequence, of_size, of_snapshot, of_time,
};
use file_text::bytes::{put, put_either};
use file_text::numbers::{put_natural, put_number};
use file_text::texts::{put_name, put_quoted, put_text};
use records::counters::{Buckets, RowId};
use records::metadata::MetadataLogEntry;
use records::partition::{DAY, IDENTITY, MONTH, PartitionField, YEAR};
use records::reference::{NamedRef, SnapshotReference};
use records::schema::{LONG, SchemaField};
use records::snapshot::{Snapshot, SnapshotLogEntry};
use records::sort_order::SortField;
use records::statistics::StatisticsFile;

// The kind of a ref that is a branch.
const BRANCH: u8 = 1;

fn put_rows(buffer: &mut [u8], at: usize, wanted: bool, first: RowId, added: u64) -> usize
    ensures { Puts buffer.old at (only_if wanted (rows_text (some (record { first = first; added = added })))) result buffer.new }
{
    let at = put_natural(buffer, at, wanted, b",\"first-row-id\":", first.0);
    put_natural(buffer, at, wanted, b",\"added-rows\":", added)
}

pub fn put_snapshot(buffer: &mut [u8], at: usize, version: u8, s: Snapshot) -> usize
    ensures { Puts buffer.old at (snapshot_text version (read_snapshot s)) result buffer.new }
{
    let at = put_number(
        buffer,
        at,
        true,
        b"{\"snapshot-id\":",
        of_snapshot(s.snapshot_id),
    );
    let at = put_number(
        buffer,
        at,
        s.has_parent,
        b",\"parent-snapshot-id\":",
        of_snapshot(s.parent_snapshot_id),
    );
    let at = put_number(
        buffer,
        at,
        version >= 2,
        b",\"sequence-number\":",
        of_sequence(s.sequence_number),
    );
    let at = put_number(
        buffer,
        at,
        true,
        b",\"timestamp-ms\":",
        of_time(s.timestamp_ms),
    );
    let at = put_rows(
        buffer,
        at,
        s.has_rows & (version >= 3),
        s.first_row_id,
        s.added_rows,
    );
    put(buffer, at, b"}")
}

pub fn put_log_entry(buffer: &mut [u8], at: usize, e: SnapshotLogEntry) -> usize
    ensures { Puts buffer.old at (log_entry_text (read_log_entry e)) result buffer.new }
{
    let at = put_number(
        buffer,
        at,
        true,
        b"{\"snapshot-id\":",
        of_snapshot(e.snapshot_id),
    );
    let at = put_number(
        buffer,
        at,
        true,
        b",\"timestamp-ms\":",
        of_time(e.timestamp_ms),
    );
    put(buffer, at, b"}")
}

pub fn put_file_entry(buffer: &mut [u8], at: usize, e: MetadataLogEntry) -> usize
    ensures { Puts buffer.old at (file_entry_text (read_metadata_log_entry e)) result buffer.new }
{
    let at = put_text(buffer, at, b"{\"metadata-file\":", e.metadata_file);
    let at = put_number(
        buffer,
        at,
        true,
        b",\"timestamp-ms\":",
        of_time(e.timestamp_ms),
    );
    put(buffer, at, b"}")
}

// With the colon in front.
fn put_reference(buffer: &mut [u8], at: usize, f: SnapshotReference) -> usize
    ensures { Puts buffer.old at (58 ∷ reference_text (read_reference f)) result buffer.new }
{
    let at = put_number(
        buffer,
        at,
        true,
        b":{\"snapshot-id\":",
        of_snapshot(f.snapshot_id),
    );
    let at = put_either(
        buffer,
        at,
        f.kind == BRANCH,
        b",\"type\":\"branch\"",
        b",\"type\":\"tag\"",
    );
    let at = put_number(
        buffer,
        at,
        f.has_min,
        b",\"min-snapshots-to-keep\":",
        of_min(f.min_snapshots_to_keep),
    );
    let at = put_number(
        buffer,
        at,
        f.has_age,
        b",\"max-snapshot-age-ms\":",
        of_age(f.max_snapshot_age_ms),
    );
    let at = put_number(
        buffer,
        at,
        f.has_ref_age,
        b",\"max-ref-age-ms\":",
        of_age(f.max_ref_age_ms),
    );
    put(buffer, at, b"}")
}

// A member of `refs`.
pub fn put_ref(buffer: &mut [u8], at: usize, x: NamedRef) -> usize
    ensures { Puts buffer.old at (ref_text (read_ref x)) result buffer.new }
{
    let at = put_quoted(buffer, at, &x.name.bytes, x.name.len);
    put_reference(buffer, at, x.reference)
}

pub fn put_field(buffer: &mut [u8], at: usize, f: SchemaField) -> usize
    ensures { Puts buffer.old at (field_text (read_schema_field f)) result buffer.new }
{
    let at = put_number(buffer, at, true, b"{\"id\":", of_field(f.id));
    let at = put_name(buffer, at, b",\"name\":", f.name);
    put_either(
        buffer,
        at,
        f.field_type == LONG,
        b",\"required\":false,\"type\":\"long\"}",
        b",\"required\":false,\"type\":\"timestamp\"}",
    )
}

#[tactic(auto, unfolding(file_rule::specs::Files::transform_text))]
pub fn put_transform(buffer: &mut [u8], at: usize, transform: u8, buckets: Buckets) -> usize
    ensures { Puts buffer.old at (transform_text transform buckets.0) result buffer.new }
{
    match transform {
        IDENTITY => put(buffer, at, b"\"identity\""),
        YEAR => put(buffer, at, b"\"year\""),
        MONTH => put(buffer, at, b"\"month\""),
        DAY => put(buffer, at, b"\"day\""),
        _ => {
            let at = put_number(buffer, at, true, b"\"bucket[", of_buckets(buckets));
            put(buffer, at, b"]\"")
        }
    }
}

pub fn put_partition_field(buffer: &mut [u8], at: usize, f: PartitionField) -> usize
    ensures { Puts buffer.old at (partition_field_text (read_partition_field f)) result buffer.new }
{
    let at = put_number(buffer, at, true, b"{\"source-id\":", of_field(f.source_id));
    let at = put_number(buffer, at, true, b",\"field-id\":", of_held_field(f));
    let at = put_name(buffer, at, b",\"name\":", f.name);
    let at = put(buffer, at, b",\"transform\":");
    let at = put_transform(buffer, at, f.transform, f.buckets);
    put(buffer, at, b"}")
}

pub fn put_sort_field(buffer: &mut [u8], at: usize, f: SortField) -> usize
    ensures { Puts buffer.old at (sort_field_text (read_sort_field f)) result buffer.new }
{
    let at = put_number(
        buffer,
        at,
        true,
        b"{\"transform\":\"identity\",\"source-id\":",
        of_field(f.source_id),
    );
    let at = put_either(
        buffer,
        at,
        f.direction == 0,
        b",\"direction\":\"asc\"",
        b",\"direction\":\"desc\"",
    );
    put_either(
        buffer,
        at,
        f.null_order == 0,
        b",\"null-order\":\"nulls-first\"}",
        b",\"null-order\":\"nulls-last\"}",
    )
}

// A statistics file.
pub fn put_file(buffer: &mut [u8], at: usize, f: StatisticsFile) -> usize
    ensures { Puts buffer.old at (statistics_text (read_statistics_file f)) result buffer.new }
{
    let at = put_number(
        buffer,
        at,
        true,
        b"{\"snapshot-id\":",
        of_snapshot(f.snapshot_id),
    );
    let at = put_text(buffer, at, b",\"statistics-path\":", f.statistics_path);
    let at = put_number(
        buffer,
        at,
        true,
        b",\"file-size-in-bytes\":",
        of_size(f.file_size_in_bytes),
    );
    put(buffer, at, b"}")
}
