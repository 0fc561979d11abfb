// Whether a metadata file can show what metadata holds: sequence numbers, row ids, owners, and texts that are UTF-8.
// Document 02 decides, requests (vii) and (xi), as the crate `file_rule` writes it in Export.
#![tactic(auto)]

pub mod character;
pub mod table;

ghost use Rattle.std.specs.Prelude.{◌≡◌, ◌&&◌, ◌||◌, leb, eqb, pos};
ghost use Rattle.rules.specs.Words.{all, eq_z};
ghost use Rattle.rules.specs.Layout.{read_snapshots, read_metadata};
ghost use Rattle.file_rule.specs.Export.{is_shown, texts_shown};
ghost use Rattle.file_shown.specs.Tests.{sequence_zero, rows_none};

use crate::character::text_is_utf8;
use crate::table::{
    files_named, log_named, owners_shown, refs_named, rows_none, schemas_named, sequences_zero,
    specs_named,
};
use records::counters::{RowId, SequenceNumber};
use records::metadata::TableMetadata;
use records::snapshot::Snapshots;

fn sequences_shown(version: u8, last: SequenceNumber, t: Snapshots) -> bool
    ensures { result ≡ (leb 2 version || (eq_z last.0 (pos 0) && all sequence_zero (read_snapshots t))) }
{
    if version >= 2 {
        return true;
    }
    last == SequenceNumber(0) && sequences_zero(t)
}

fn rows_shown(version: u8, next: RowId, t: Snapshots) -> bool
    ensures { result ≡ (leb 3 version || (eqb next.0 0 && all rows_none (read_snapshots t))) }
{
    if version >= 3 {
        return true;
    }
    next == RowId(0) && rows_none(t)
}

#[tactic(auto, unfolding(file_rule::specs::Export::texts_shown))]
fn texts_shown(m: TableMetadata) -> bool
    ensures { result ≡ texts_shown (read_metadata m) }
{
    text_is_utf8(m.fields.location)
        && refs_named(m.refs)
        && log_named(m.metadata_log)
        && schemas_named(m.schemas)
        && specs_named(m.partition_specs)
        && files_named(m.statistics)
        && files_named(m.partition_statistics)
}

#[tactic(auto, unfolding(file_rule::specs::Export::is_shown, file_rule::specs::Export::sequences_shown, file_rule::specs::Export::rows_shown, file_rule::specs::Export::owners_shown))]
pub fn is_shown(metadata: TableMetadata) -> bool
    ensures { result ≡ is_shown (read_metadata metadata) }
{
    let f = metadata.fields;
    sequences_shown(f.format_version, f.last_sequence_number, metadata.snapshots)
        && rows_shown(f.format_version, f.next_row_id, metadata.snapshots)
        && owners_shown(metadata.refs)
        && texts_shown(metadata)
}
