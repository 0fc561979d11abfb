// Adding and removing snapshots: what these updates ask and do.
// Document 01, "Rules for each update", as the crate `rules` writes it in SnapshotUpdates.
#![tactic(auto)]

ghost use Rattle.std.specs.Prelude.{◌≡◌, true, ◌||◌, eqb, ℤ, pos};
ghost use Rattle.std.specs.Int.Signed.{lt_z, le_z};
ghost use Rattle.rules.specs.Words.{larger, or_else, some_with, ascending, first_of};
ghost use Rattle.rules.specs.Window.{is_before};
ghost use Rattle.rules.specs.Register.{State, AddSnapshot};
ghost use Rattle.rules.specs.WellFormed.{snapshot_below};
ghost use Rattle.rules.specs.Layout.{given, read_snapshot, read_snapshots, laid_snapshots, read_snapshot_ids, read_fields};
ghost use Rattle.rules.specs.Kinds.{add_snapshot_kind, set_branch_snapshot_kind, remove_snapshots_kind, is_tidy_update, laid_update};
ghost use Rattle.rules.specs.SnapshotUpdates.{too_low, next_row_after, add_snapshot_checks, add_snapshot};
ghost use Rattle.tables.specs.Laid.{LaidSnapshots, LaidSnapshotIds};
ghost use Rattle.builder.specs.Pieces.{laid_builder, ids_of, last_time};
ghost use Rattle.snapshot_updates.specs.Snapshots.{row_checks, SnapshotDecided, SnapshotsGone};

use builder::builder::{TableMetadataBuilder, own_or};
use builder::checks::choose;
use builder::decision::{Decision, decided};
use primitives::row_ids::check_rows;
use primitives::window::is_before;
use records::capacities::SNAPSHOTS;
use records::counters::{Age, RowId, Time};
use records::metadata::SingleFields;
use records::part::RefsPart;
use records::replies::{
    ACCEPTED, BEFORE_LAST_ENTRY, BEFORE_LAST_UPDATE, COMMIT_ON_TAG, NO_ROW_RANGE, SEQUENCE_TOO_LOW,
    SNAPSHOT_HELD, TABLE_FULL,
};
use records::snapshot::{Snapshot, Snapshots};
use records::update::{ADD_SNAPSHOT, TableUpdate};
use search::position_ascending;

fn too_low(f: SingleFields, s: Snapshot) -> bool
    ensures { result ≡ too_low (read_snapshot s) (read_fields f) }
{
    f.format_version != 1 && s.sequence_number <= f.last_sequence_number && s.has_parent
}

fn latest(b: TableMetadataBuilder) -> Time
    ensures { result.0 ≡ larger b.fields.last_updated_ms.0 (or_else (given b.has_own b.own.0) (pos 0)) }
{
    b.fields.last_updated_ms.max(own_or(b, Time(0)))
}

// More than the tolerance before the last entry, where there is one.
fn before_entry(has_last: bool, tolerance: Age, time: Time, entry: Time) -> bool
    ensures { result ≡ some_with (is_before tolerance.0 time.0) (given has_last entry.0) }
{
    has_last && is_before(tolerance, time, entry)
}

// The row checks at version 3: 10, then 9, then 11.
fn rows_number(f: SingleFields, s: Snapshot) -> u8
    ensures { result ≡ first_of (row_checks (read_snapshot s) (read_fields f)) }
{
    if f.format_version != 3 {
        return ACCEPTED;
    }
    if !s.has_rows {
        return NO_ROW_RANGE;
    }
    check_rows(f.next_row_id, s.first_row_id, s.added_rows).number
}

// The next row id after an addition that is not refused.
fn next_row_after(f: SingleFields, s: Snapshot) -> RowId
    ensures { first_of (row_checks (read_snapshot s) (read_fields f)) ≡ 0 → result ≡ next_row_after (read_snapshot s) (read_fields f) }
{
    if f.format_version != 3 {
        return f.next_row_id;
    }
    check_rows(f.next_row_id, s.first_row_id, s.added_rows).next
}

// The checks in document 01's order: 5; 6; 7; 8; at version 3 10, 9, 11; 19. The entry is the last of the snapshot log, where it has one.
fn add_snapshot_number(
    b: TableMetadataBuilder,
    ids: &[i64],
    has_last: bool,
    entry: Time,
    tolerance: Age,
    s: Snapshot,
) -> u8
    requires { ascending lt_z ids.now ≡ true }
    ensures { (st : State) → b ≡ laid_builder st → ids.now ≡ ids_of st.metadata.snapshots → given has_last entry.0 ≡ last_time st.metadata.snapshot_log → result ≡ first_of (add_snapshot_checks tolerance.0 (read_snapshot s) st) }
{
    let at = position_ascending(ids, s.snapshot_id.0);
    let low = too_low(b.fields, s);
    let early = before_entry(has_last, tolerance, s.timestamp_ms, entry);
    let late = is_before(tolerance, s.timestamp_ms, latest(b));
    let rows = rows_number(b.fields, s);
    let n19 = choose(ids.len() >= SNAPSHOTS, TABLE_FULL, ACCEPTED);
    let n10 = choose(rows != ACCEPTED, rows, n19);
    let n8 = choose(late, BEFORE_LAST_UPDATE, n10);
    let n7 = choose(early, BEFORE_LAST_ENTRY, n8);
    let n6 = choose(low, SEQUENCE_TOO_LOW, n7);
    choose(at < ids.len(), SNAPSHOT_HELD, n6)
}

// The builder after an addition that is not refused.
fn add_snapshot_builder(b: TableMetadataBuilder, s: Snapshot) -> TableMetadataBuilder
    ensures { (tolerance : ℤ) (st : State) → b ≡ laid_builder st → first_of (add_snapshot_checks tolerance (read_snapshot s) st) ≡ 0 → result ≡ laid_builder (add_snapshot (read_snapshot s) st) }
{
    let mut after = b;
    after.fields.last_sequence_number = s.sequence_number;
    after.fields.next_row_id = next_row_after(b.fields, s);
    after.has_own = true;
    after.own = s.timestamp_ms;
    after
}

// ---- the updates of a list

// The entry of a snapshot that is added, by itself or by a branch commit.
fn addition(u: TableUpdate) -> TableUpdate
    ensures { (eqb u.kind add_snapshot_kind || eqb u.kind set_branch_snapshot_kind) ≡ true → is_tidy_update u ≡ true → result ≡ laid_update (AddSnapshot (read_snapshot u.snapshots.added)) }
{
    let mut entry = u;
    entry.kind = ADD_SNAPSHOT;
    entry.refs = RefsPart::blank();
    entry
}

// An addition, or the first half of a branch commit, which is refused with 13 on a tag.
pub fn add_snapshot(
    b: TableMetadataBuilder,
    on_tag: bool,
    ids: &[i64],
    has_last: bool,
    entry: Time,
    tolerance: Age,
    u: TableUpdate,
) -> Decision
    requires u_value { is_tidy_update u ≡ true }
    requires set_branch_snapshot_kind_value { (eqb u.kind add_snapshot_kind || eqb u.kind set_branch_snapshot_kind) ≡ true }
    requires ids_value { ascending lt_z ids.now ≡ true }
    ensures { (st : State) → b ≡ laid_builder st → ids.now ≡ ids_of st.metadata.snapshots → given has_last entry.0 ≡ last_time st.metadata.snapshot_log → SnapshotDecided on_tag tolerance.0 (read_snapshot u.snapshots.added) st result }
{
    let fails = add_snapshot_number(b, ids, has_last, entry, tolerance, u.snapshots.added);
    let number = choose(on_tag, COMMIT_ON_TAG, fails);
    Decision {
        number,
        logs: true,
        grows: number == ACCEPTED,
        builder: add_snapshot_builder(b, u.snapshots.added),
        entry: addition(u),
    }
}

// Held ids go, and are logged if there are any.
pub fn remove_snapshots(b: TableMetadataBuilder, t: Snapshots, u: TableUpdate) -> Decision
    requires laid_snapshots { LaidSnapshots t }
    requires t_value { ascending snapshot_below (read_snapshots t) ≡ true }
    requires laid_snapshot_ids { LaidSnapshotIds u.snapshots.removed }
    requires u_value { is_tidy_update u ≡ true }
    requires kind_value { u.kind ≡ remove_snapshots_kind }
    ensures { (st : State) → b ≡ laid_builder st → t ≡ laid_snapshots st.metadata.snapshots → SnapshotsGone (read_snapshot_ids u.snapshots.removed) st result }
{
    let held = tables::snapshots::held(t, u.snapshots.removed);
    let mut entry = u;
    entry.snapshots.removed = held;
    decided(ACCEPTED, held.count > 0, b, entry)
}
