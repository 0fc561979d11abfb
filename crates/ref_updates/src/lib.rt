// Set ref, remove ref: what these updates ask and do.
// Document 01, "Rules for each update", as the crate `rules` writes it in RefUpdates.
#![tactic(auto)]

ghost use Rattle.std.specs.Prelude.{◌≡◌, true, false, cond, not, ◌&&◌, ◌||◌, List, [], ◌∷◌, ◌≤◌, ◌<◌, eqb, leb, ℤ, length};
ghost use Rattle.std.proofs.Math.Option.{Option, none, some};
ghost use Rattle.rules.specs.Words.{ascending, put, first_of};
ghost use Rattle.rules.specs.Capacities.{ref_room, snapshot_log_room, name_room};
ghost use Rattle.rules.specs.Replies.{snapshot_not_held, table_full};
ghost use Rattle.rules.specs.Register as plain;
ghost use Rattle.rules.specs.Register.{Terms, State, SetRef, with_current, with_own, on_fields};
ghost use Rattle.rules.specs.WellFormed.{ref_below};
ghost use Rattle.rules.specs.RefUpdates.{is_tag, as_main};
ghost use Rattle.rules.specs.Layout.{read_name, read_reference, laid_reference, read_refs, laid_refs};
ghost use Rattle.rules.specs.Kinds.{set_branch_snapshot_kind, set_ref_kind, remove_ref_kind, is_tidy_update, laid_update};
ghost use Rattle.tables.specs.Laid.{LaidName, LaidRefs, owned_ref};
ghost use Rattle.builder.specs.Pieces.{laid_builder};
ghost use Rattle.builder.specs.Answers.{Decides};
ghost use Rattle.ref_updates.specs.Refs.{wanted_ref, asked_ref, RefAsked, RefDecided, NewRef};

use builder::builder::{TableMetadataBuilder, own_or};
use builder::checks::{choose, is_full};
use builder::decision::{Decision, decided};
use equality::read::same_reference;
use records::capacities::{REFS, SNAPSHOT_LOG};
use records::counters::{SnapshotId, Time};
use records::part::SnapshotsPart;
use records::reference::{NamedRef, Refs, SnapshotReference};
use records::replies::{ACCEPTED, SNAPSHOT_NOT_HELD, TABLE_FULL};
use records::snapshot::SnapshotLogEntry;
use records::text::Name;
use records::update::{SET_BRANCH_SNAPSHOT, SET_REF, TableUpdate};
use tables::names::is_main_name;

// The kinds of a ref.
const BRANCH: u8 = 1;

const TAG: u8 = 2;

// `main`: current snapshot set, and the clock is the last update if none.
fn as_main(b: TableMetadataBuilder, clock: Time, id: SnapshotId) -> TableMetadataBuilder
    ensures { (st : State) → b ≡ laid_builder st → result ≡ laid_builder (as_main clock.0 id.0 st) }
{
    let mut after = b;
    after.fields.has_current = true;
    after.fields.current_snapshot_id = id;
    after.has_own = true;
    after.own = own_or(b, clock);
    after
}

fn is_tag(t: Refs, name: Name) -> bool
    requires laid_refs { LaidRefs t }
    requires laid_name { LaidName name }
    ensures { result ≡ is_tag (read_name name) (read_refs t) }
{
    let n = t.count;
    let i = tables::refs::find(t, name);
    if i >= n {
        return false;
    }
    let x = t.items[i];
    let r = x.reference;
    let k = r.kind;
    k == TAG
}

// The ref that an update asks for. A branch commit asks for a branch to its snapshot, with the retention of the old ref, if there is one.
fn wanted(u: TableUpdate, held: bool, old: NamedRef) -> SnapshotReference
    ensures { result ≡ wanted_ref u held old }
{
    if u.kind == SET_REF {
        return u.refs.reference;
    }
    if held {
        let mut kept = old.reference;
        kept.snapshot_id = u.snapshots.added.snapshot_id;
        return kept;
    }
    let mut branch = SnapshotReference::blank();
    branch.kind = BRANCH;
    branch.snapshot_id = u.snapshots.added.snapshot_id;
    branch
}

// 12, then 19 of the refs, then 19 of the snapshot log; an equal ref that is held already is not asked these.
fn set_ref_number(held: bool, is_named: bool, named: usize, main: bool, entries: usize) -> u8
    ensures { result ≡ first_of ((not held, snapshot_not_held) ∷ (not is_named && leb ref_room named, table_full) ∷ (main && leb snapshot_log_room entries, table_full) ∷ []) }
{
    let log_full = is_full(main, entries, SNAPSHOT_LOG);
    let refs_full = is_full(!is_named, named, REFS);
    let n19 = choose(log_full, TABLE_FULL, ACCEPTED);
    let m19 = choose(refs_full, TABLE_FULL, n19);
    choose(!held, SNAPSHOT_NOT_HELD, m19)
}

// The entry of a ref that is set, by itself or by a branch commit.
fn setting(u: TableUpdate, r: SnapshotReference) -> TableUpdate
    ensures { (eqb u.kind set_branch_snapshot_kind || eqb u.kind set_ref_kind) ≡ true → is_tidy_update u ≡ true → length (read_name u.refs.name) ≤ name_room → laid_reference (read_reference r) ≡ r → result ≡ laid_update (SetRef (read_name u.refs.name) (read_reference r)) }
{
    let mut entry = u;
    entry.kind = SET_REF;
    entry.snapshots = SnapshotsPart::blank();
    entry.refs.reference = r;
    entry
}

// What an update asks of the refs: whether the ref is held as it is to be, whether its name is, and the ref.
#[derive(Clone, Copy)]
pub struct AskedRef {
    pub same: bool,
    pub named: bool,
    pub reference: SnapshotReference,
}

fn asked_ref(t: Refs, u: TableUpdate) -> AskedRef
    requires laid_refs { LaidRefs t }
    requires laid_name { LaidName u.refs.name }
    requires reference_value { laid_reference (read_reference u.refs.reference) ≡ u.refs.reference }
    ensures { RefAsked t u result }
{
    let name = u.refs.name;
    let n = t.count;
    let at = tables::refs::find(t, name);
    let mut old = NamedRef::blank();
    if at < n {
        old = t.items[at];
    }
    let before = old.reference;
    let reference = wanted(u, at < n, old);
    let same = same_reference(before, reference);
    AskedRef {
        same: (at < n) & same,
        named: at < n,
        reference,
    }
}

// The time of a snapshot that the run added becomes the run's last update.
fn with_own(b: TableMetadataBuilder, is_added: bool, time: Time) -> TableMetadataBuilder
    ensures { (st : State) → b ≡ laid_builder st → result ≡ laid_builder (with_own (cond is_added (some time.0) st.own) st) }
{
    let mut c = b;
    if is_added {
        c.has_own = true;
        c.own = time;
        return c;
    }
    c
}

fn set_ref_builder(
    b: TableMetadataBuilder,
    is_added: bool,
    time: Time,
    main: bool,
    clock: Time,
    id: SnapshotId,
) -> TableMetadataBuilder
    ensures { (st : State) (own : Option ℤ) → b ≡ laid_builder st → cond is_added (some time.0) st.own ≡ own → result ≡ laid_builder (cond main (as_main clock.0 id.0 (with_own own st)) (with_own own st)) }
{
    let after = with_own(b, is_added, time);
    if main {
        return as_main(after, clock, id);
    }
    after
}

// ---- the updates of a list

// A branch commit whose branch is a tag.
pub fn commits_on_tag(t: Refs, u: TableUpdate) -> bool
    requires laid_refs { LaidRefs t }
    requires laid_name { u.kind ≡ set_branch_snapshot_kind → LaidName u.refs.name }
    ensures { result ≡ (eqb u.kind set_branch_snapshot_kind && is_tag (read_name u.refs.name) (read_refs t)) }
{
    u.kind == SET_BRANCH_SNAPSHOT && is_tag(t, u.refs.name)
}

// The snapshot to which the ref of an update, or of a branch commit, is set.
pub fn ref_target(u: TableUpdate) -> SnapshotId
    ensures { (l : List plain.NamedRef) → result.0 ≡ (asked_ref u l).snapshot }
{
    let k = u.kind;
    let x = u.snapshots.added;
    let y = u.refs.reference;
    if k == SET_REF {
        return y.snapshot_id;
    }
    x.snapshot_id
}

// `held` is of the snapshot, `time` is its time, `is_added` says that the run logged its addition; `entries` counts the snapshot log.
pub fn set_ref(
    b: TableMetadataBuilder,
    t: Refs,
    held: bool,
    is_added: bool,
    time: Time,
    entries: usize,
    clock: Time,
    u: TableUpdate,
) -> Decision
    requires laid_refs { LaidRefs t }
    requires laid_name { LaidName u.refs.name }
    requires reference_value { laid_reference (read_reference u.refs.reference) ≡ u.refs.reference }
    requires u_value { is_tidy_update u ≡ true }
    requires set_ref_kind_value { (eqb u.kind set_branch_snapshot_kind || eqb u.kind set_ref_kind) ≡ true }
    ensures { RefDecided b t held is_added time entries clock u result }
{
    let name = u.refs.name;
    let named = t.count;
    let asked = asked_ref(t, u);
    let reference = asked.reference;
    let id = reference.snapshot_id;
    let same = asked.same;
    let main = is_main_name(name);
    let fails = set_ref_number(held, asked.named, named, main, entries);
    let number = choose(same, ACCEPTED, fails);
    let c = set_ref_builder(b, is_added, time, main, clock, id);
    let e = setting(u, reference);
    Decision {
        number,
        logs: !same,
        grows: !same & (number == ACCEPTED),
        builder: c,
        entry: e,
    }
}

// The refs after a set ref that takes effect. A ref that is new is the office's.
pub fn refs_after(t: Refs, d: Decision, office: u8) -> Refs
    requires laid_refs { LaidRefs t }
    requires t_value { ascending ref_below (read_refs t) ≡ true }
    requires new_ref { d.grows ≡ true → NewRef t d.entry.refs }
    ensures { result ≡ cond d.grows (laid_refs (put ref_below (owned_ref office d.entry.refs (read_refs t)) (read_refs t))) t }
{
    if d.grows {
        return tables::refs::put(t, d.entry.refs, office);
    }
    t
}

// What the snapshot log gains where `main` is set.
pub fn main_entry(d: Decision) -> SnapshotLogEntry
    ensures { result ≡ record { snapshot_id = d.entry.refs.reference.snapshot_id; timestamp_ms = d.builder.own } }
{
    SnapshotLogEntry {
        snapshot_id: d.entry.refs.reference.snapshot_id,
        timestamp_ms: d.builder.own,
    }
}

// `main` clears the current snapshot and is logged even if absent; another absent one: nothing.
pub fn remove_ref(b: TableMetadataBuilder, t: Refs, u: TableUpdate) -> Decision
    requires laid_refs { LaidRefs t }
    requires laid_name { LaidName u.refs.name }
    requires u_value { is_tidy_update u ≡ true }
    requires kind_value { u.kind ≡ remove_ref_kind }
    ensures { (terms : Terms) (st : State) → b ≡ laid_builder st → t ≡ laid_refs st.metadata.refs → Decides terms u st result }
{
    let name = u.refs.name;
    let n = t.count;
    let main = is_main_name(name);
    let at = tables::refs::find(t, name);
    if main {
        let c = without_current(b);
        return decided(ACCEPTED, true, c, u);
    }
    decided(ACCEPTED, at < n, b, u)
}

// The current snapshot is cleared.
fn without_current(b: TableMetadataBuilder) -> TableMetadataBuilder
    ensures { (st : State) → b ≡ laid_builder st → result ≡ laid_builder (on_fields (with_current none) st) }
{
    let mut after = b;
    after.fields.has_current = false;
    after.fields.current_snapshot_id = SnapshotId(0);
    after
}
