// The close of a run by itself, made again and again, to time it: of metadata as it is before the close, with nothing added and a removal logged.
// A refusal gives the number that a run with an empty list would give.
#![tactic(auto)]

ghost use Rattle.std.specs.Prelude.{◌≡◌, []};
ghost use Rattle.records.specs.Blanks.{no_updates};
ghost use Rattle.rules.specs.Layout.{read_snapshots};
ghost use Rattle.builder.specs.Pieces.{ids_of};
ghost use Rattle.start.specs.Start.{start_number};

use builder::builder::{TableMetadataBuilder, own_or};
use builder::facts::ids_of;
use close::close_number;
use close::files::{is_overfull, part, staying, surplus};
use close::history::close_log;
use formed::metadata::is_formed;
use primitives::limit::limit;
use records::metadata::{MetadataLog, SingleFields, TableMetadata};
use records::replies::ACCEPTED;
use records::run::{Answer, RunTerms, SECOND_OFFICE};
use records::snapshot::SnapshotLog;
use records::update::UpdateList;
use start::start_number;

// What the close of a run answers, but for the change log.
#[derive(Clone, Copy)]
struct Closed {
    number: u8,
    metadata: TableMetadata,
    expired: MetadataLog,
}

fn unchanged(number: u8, metadata: TableMetadata) -> Closed {
    let expired = MetadataLog::blank();
    Closed {
        number,
        metadata,
        expired,
    }
}

// The metadata with other single fields and logs.
fn ended(
    m: TableMetadata,
    fields: SingleFields,
    snapshot_log: SnapshotLog,
    metadata_log: MetadataLog,
) -> TableMetadata {
    let snapshots = m.snapshots;
    let refs = m.refs;
    let schemas = m.schemas;
    let sort_orders = m.sort_orders;
    let statistics = m.statistics;
    let partition_statistics = m.partition_statistics;
    let partition_specs = m.partition_specs;
    TableMetadata {
        fields,
        snapshots,
        refs,
        snapshot_log,
        metadata_log,
        schemas,
        sort_orders,
        statistics,
        partition_statistics,
        partition_specs,
    }
}

// The calls that `register::run` makes after its last update; it has the place of the current schema, which is looked up here. `none` stands for the
// ids that were added and for those to which `main` went. A removal is logged, of which the close of the second office is told nothing.
fn close_once(m: TableMetadata, ids: &[i64], none: &[i64], terms: RunTerms, text: &[u8]) -> Closed
    requires terms_value { start_number m no_updates terms ≡ 0 }
    requires ids_value { ids.now ≡ ids_of (read_snapshots m.snapshots) }
    requires none_value { none.now ≡ [] }
{
    let first = m.fields;
    let builder = TableMetadataBuilder::new_from_metadata(first);
    let removes = terms.office != SECOND_OFFICE;
    let history = close_log(m.snapshot_log, ids, first, none, none, removes);
    let most = limit(text);
    let stored = m.metadata_log.count;
    let gone = surplus(stored, terms.has_file, most);
    let overfull = is_overfull(stored, terms.has_file, gone);
    let schema = tables::schemas::get(m.schemas, first.current_schema_id);
    let number = close_number(
        history,
        first,
        m.refs,
        schema,
        m.sort_orders,
        m.partition_specs,
        overfull,
    );
    if number != ACCEPTED {
        return unchanged(number, m);
    }
    let expired = part(m.metadata_log, 0, gone);
    let metadata_log = staying(m.metadata_log, gone, terms, first.last_updated_ms);
    let updated = own_or(builder, terms.clock_ms);
    let mut fields = first;
    fields.last_updated_ms = updated;
    let metadata = ended(m, fields, history.log, metadata_log);
    Closed {
        number,
        metadata,
        expired,
    }
}

// The close as it is written: the answer of a run that changes nothing.
fn answer_of(closed: Closed) -> Answer {
    let number = closed.number;
    let metadata = closed.metadata;
    let changes = UpdateList::blank();
    let expired = closed.expired;
    Answer {
        number,
        place: 0,
        metadata,
        changes,
        expired,
    }
}

// The last close is written whole, so that nothing is left out of the others. Made no time, the metadata stays as it is.
fn close_times(times: u64, m: TableMetadata, terms: RunTerms, text: &[u8]) -> Closed
    requires { start_number m no_updates terms ≡ 0 }
{
    let held = m.snapshots.count;
    let ids = ids_of(m.snapshots);
    let none = [0i64; 1];
    let mut closed = unchanged(ACCEPTED, m);
    let mut left = times;
    while left > 0 {
        closed = close_once(m, &ids[..held], &none[..0], terms, text);
        left -= 1;
    }
    closed
}

fn close_of(times: u64, m: TableMetadata, terms: RunTerms, text: &[u8]) -> Closed {
    let number = start_number(is_formed(m), terms, 0, 0);
    if number != ACCEPTED {
        return unchanged(number, m);
    }
    close_times(times, m, terms, text)
}

pub fn close(times: u64, m: TableMetadata, terms: RunTerms, text: &[u8]) -> Answer {
    answer_of(close_of(times, m, terms, text))
}
