// The run: any metadata, any list of updates, any terms, limit text and offers get an answer.
// A refusal gives document 01's number and the place, the metadata that was given, no changes and no expired entries.
// Document 01 decides, as the crate `rules` writes it in Run and Answer.
#![tactic(auto)]

ghost use Rattle.std.specs.Prelude.{◌≡◌, cond, ◌+◌, ◌≤◌, ◌<◌};
ghost use Rattle.rules.specs.Answer.{answer};

use builder::builder::{TableMetadataBuilder, own_or};
use builder::decision::decided;
use builder::facts::{ids_of, is_last, last_time};
use builder::single;
use close::close_number;
use close::files::{is_overfull, part, staying, surplus};
use close::history::close_log;
use formed::metadata::is_formed;
use offices::{closing, is_others, is_shared, others_number};
use order_updates::family as order_family;
use partitions::names::{is_taken, meets_partition};
use primitives::limit::limit;
use records::metadata::TableMetadata;
use records::replies::{ACCEPTED, UPDATE_NOT_FORMED};
use records::run::{Answer, RunTerms, SECOND_OFFICE};
use records::update::{
    ADD_SCHEMA, ADD_SNAPSHOT, REMOVE_PARTITION_STATISTICS, REMOVE_REF, REMOVE_SCHEMAS,
    REMOVE_SNAPSHOTS, REMOVE_STATISTICS, SET_BRANCH_SNAPSHOT, SET_CURRENT_SCHEMA,
    SET_DEFAULT_SORT_ORDER, SET_LOCATION, SET_REF, TableUpdate, UpdateList,
};
use ref_updates::{commits_on_tag, main_entry, ref_target, refs_after, remove_ref, set_ref};
use schema_updates::keys::{current_place, has_size, keys_at_start, keys_of, with_key};
use schema_updates::{add_schema, new_schema, remove_schemas, set_current_schema};
use search::{position, position_ascending};
use snapshot_updates::{add_snapshot, remove_snapshots};
use spec_updates::family as spec_family;
use start::{refused, start_number, weight};
use statistics_updates::family as statistics_family;
use tables::names::is_main_name;
use tables::schemas::find_equal;

// The place after a decision is stored: the same one, if a branch commit has its second half to come.
fn after(place: usize, half: bool) -> usize
    requires { place < 64 }
    ensures { result ≡ cond half place (place + 1) }
{
    if half {
        return place;
    }
    place + 1
}

// A place of a table of 64: the one that was found, and the first where none was.
fn slot(spot: usize, held: usize) -> usize
    requires { held ≤ 64 }
    ensures { (result < 64) × (spot < held → result ≡ spot) }
{
    if spot < held {
        return spot;
    }
    0
}

// The loop decides an update, or one half of a branch commit, and in its next turn stores the decision. Entries, snapshots, their ids, the
// snapshot log and schemas are stored in place, since a table that is handed over is copied; so the ids and sizes of the schemas are beside their table.
pub fn run(
    metadata: TableMetadata,
    updates: UpdateList,
    terms: RunTerms,
    text: &[u8],
    offers: &[u8],
) -> Answer
    ensures { result ≡ answer metadata updates terms (record { text = text.entry.now; offers = offers.now }) }
{
    let listed = updates.count;
    let mut sum: usize = 0;
    let mut place: usize = 0;
    // Of the change log: how many entries it has, how many snapshots it adds, how often it sets `main`, whether it removes snapshots.
    let mut count: usize = 0;
    let mut adds: usize = 0;
    let mut mains: usize = 0;
    let mut removal = false;
    // `waits`: a decision is to be stored. `half`: a branch commit has added its snapshot, and its ref is still to be set; `begun` says so
    // of the turn before.
    let mut waits = false;
    let mut half = false;
    let mut begun = false;
    // The update at hand, the change log, and the decision on the update.
    let mut update = TableUpdate::blank();
    let mut entries = [update; 64];
    let mut builder = TableMetadataBuilder::new_from_metadata(metadata.fields);
    let mut decision = decided(UPDATE_NOT_FORMED, false, builder, update);
    let mut refs = metadata.refs;
    let mut orders = metadata.sort_orders;
    let mut statistics = metadata.statistics;
    let mut partition_statistics = metadata.partition_statistics;
    let mut specs = metadata.partition_specs;
    // The ids that the change log adds, and those to which it sets `main`.
    let mut added = [0i64; 64];
    let mut main_targets = [0i64; 64];
    let mut snapshots = metadata.snapshots;
    let mut ids = ids_of(snapshots);
    let mut log = metadata.snapshot_log;
    let mut last = last_time(log, terms.clock_ms);
    let mut schemas = metadata.schemas;
    // Whether an update can be the other office's.
    let shared = is_shared(terms.office, refs);
    while (place < listed) & (place < 64) {
        sum += weight(updates.items[place].kind);
        place += 1;
    }
    let mut number = start_number(is_formed(metadata), terms, listed, sum);
    let mut keys = keys_at_start(schemas, number);
    place = 0;
    while (number == ACCEPTED) & (waits | (place < listed)) {
        if waits {
            waits = false;
            number = decision.number;
            if number != ACCEPTED {
                continue;
            }
            place = after(place, half);
            if !decision.logs {
                continue;
            }
            builder = decision.builder;
            let entry = decision.entry;
            entries[count] = entry;
            count += 1;
            continue;
        }
        waits = true;
        begun = half;
        half = false;
        update = updates.items[place];
        let kind = update.kind;
        if !formed::update::is_formed(update) {
            decision = decided(UPDATE_NOT_FORMED, false, builder, update);
            continue;
        }
        let mut others = false;
        if shared {
            others = is_others(terms.office, refs, snapshots, log, update);
        }
        if others {
            let fits = offers::is_formed(update, offers);
            decision = decided(others_number(fits), false, builder, update);
            continue;
        }
        if kind <= SET_LOCATION {
            decision = single::decide(builder, update);
            continue;
        }
        if (kind == ADD_SNAPSHOT) | ((kind == SET_BRANCH_SNAPSHOT) & !begun) {
            let held = snapshots.count;
            let on_tag = commits_on_tag(refs, update);
            decision = add_snapshot(
                builder,
                on_tag,
                &ids[..held],
                log.count > 0,
                last,
                terms.tolerance_ms,
                update,
            );
            half = kind == SET_BRANCH_SNAPSHOT;
            if !decision.grows {
                continue;
            }
            let snapshot = update.snapshots.added;
            let id = snapshot.snapshot_id;
            let key = id.0;
            added[adds] = key;
            adds += 1;
            if is_last(&ids[..held], key) {
                snapshots.items[held] = snapshot;
                snapshots.count = held + 1;
                ids[held] = key;
                continue;
            }
            snapshots = tables::snapshots::put(snapshots, snapshot);
            ids = ids_of(snapshots);
            continue;
        }
        if (kind == SET_BRANCH_SNAPSHOT) | (kind == SET_REF) {
            let held = snapshots.count;
            let history = log.count;
            let id = ref_target(update);
            let key = id.0;
            let spot = position_ascending(&ids[..held], key);
            let at = slot(spot, held);
            let target = snapshots.items[at];
            let addition = position(&added[..adds], key);
            decision = set_ref(
                builder,
                refs,
                spot < held,
                addition < adds,
                target.timestamp_ms,
                history,
                terms.clock_ms,
                update,
            );
            refs = refs_after(refs, decision, terms.office);
            let main = is_main_name(update.refs.name);
            if !(decision.grows & main) {
                continue;
            }
            let entry = main_entry(decision);
            last = entry.timestamp_ms;
            log.items[history] = entry;
            log.count = history + 1;
            main_targets[mains] = key;
            mains += 1;
            continue;
        }
        if kind == REMOVE_SNAPSHOTS {
            decision = remove_snapshots(builder, snapshots, update);
            snapshots = tables::snapshots::without(snapshots, update.snapshots.removed);
            ids = ids_of(snapshots);
            let left = snapshots.count;
            refs = tables::refs::pointing(refs, &ids[..left]);
            removal = removal | decision.logs;
            continue;
        }
        if kind == REMOVE_REF {
            decision = remove_ref(builder, refs, update);
            refs = tables::refs::without(refs, update.refs.name);
            continue;
        }
        if kind == ADD_SCHEMA {
            let offered = offers::schema(update.schemas.added, offers);
            let mut taken = meets_partition(offered.schema, specs);
            if taken {
                taken = is_taken(offered.schema, schemas, specs);
            }
            let size = offered.schema.count;
            let mut equal = keys.count;
            if has_size(keys, size) {
                equal = find_equal(schemas, offered.schema);
            }
            decision = add_schema(builder, keys, equal, taken, offered, update);
            if !decision.grows {
                continue;
            }
            let schema = new_schema(offered, decision);
            let free = schemas.count;
            schemas.items[free] = schema;
            schemas.count = free + 1;
            keys = with_key(keys, schema.schema_id, size);
            continue;
        }
        if kind == SET_CURRENT_SCHEMA {
            decision = set_current_schema(builder, keys, update);
            continue;
        }
        if kind == REMOVE_SCHEMAS {
            decision = remove_schemas(builder, keys, update);
            schemas = tables::schemas::without(schemas, update.schemas.removed);
            keys = keys_of(schemas);
            continue;
        }
        if kind <= SET_DEFAULT_SORT_ORDER {
            let at = current_place(builder, keys);
            let schema = schemas.items[at];
            decision = order_family::decide(builder, schema, orders, update);
            orders = order_family::after(orders, update, decision);
            continue;
        }
        if kind <= REMOVE_STATISTICS {
            decision = statistics_family::decide(builder, statistics, update);
            statistics = statistics_family::after(statistics, update, decision);
            continue;
        }
        if kind <= REMOVE_PARTITION_STATISTICS {
            decision = statistics_family::decide(builder, partition_statistics, update);
            partition_statistics = statistics_family::after(partition_statistics, update, decision);
            continue;
        }
        let at = current_place(builder, keys);
        let schema = schemas.items[at];
        let made = spec_family::decide(builder, schema, specs, offers, update);
        decision = made.decision;
        specs = made.table;
    }
    if number != ACCEPTED {
        return refused(metadata, number, place);
    }
    let fields = builder.fields;
    let held = snapshots.count;
    adds = closing(terms.office, adds);
    mains = closing(terms.office, mains);
    removal = removal & (terms.office != SECOND_OFFICE);
    let history = close_log(
        log,
        &ids[..held],
        fields,
        &added[..adds],
        &main_targets[..mains],
        removal,
    );
    let most = limit(text);
    let stored = metadata.metadata_log.count;
    let gone = surplus(stored, terms.has_file, most);
    let overfull = is_overfull(stored, terms.has_file, gone);
    let at = current_place(builder, keys);
    let schema = schemas.items[at];
    number = close_number(history, fields, refs, schema, orders, specs, overfull);
    if number != ACCEPTED {
        return refused(metadata, number, listed);
    }
    let expired = part(metadata.metadata_log, 0, gone);
    let metadata_log = staying(
        metadata.metadata_log,
        gone,
        terms,
        metadata.fields.last_updated_ms,
    );
    let updated = own_or(builder, terms.clock_ms);
    let mut closed = fields;
    closed.last_updated_ms = updated;
    let snapshot_log = history.log;
    let ended = TableMetadata {
        fields: closed,
        snapshots,
        refs,
        snapshot_log,
        metadata_log,
        schemas,
        sort_orders: orders,
        statistics,
        partition_statistics,
        partition_specs: specs,
    };
    let changes = UpdateList {
        items: entries,
        count,
    };
    Answer {
        number: ACCEPTED,
        place: 0,
        metadata: ended,
        changes,
        expired,
    }
}
