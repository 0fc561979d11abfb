// Adding a spec.
ghost use Rattle.std.specs.Prelude.{◌≡◌, ◌<◌, true, cond, ◌||◌, [], ◌∷◌, ◌++◌};
ghost use Rattle.std.proofs.Math.IntN.{suc_ℤ};
ghost use Rattle.rules.specs.Words.{eq_z, highest as highestOf};
ghost use Rattle.rules.specs.Replies.{name_clash, source_misfit};
ghost use Rattle.rules.specs.Capacities.{spec_room, largest_spec_id};
ghost use Rattle.rules.specs.Partitions.{spec_ids};
ghost use Rattle.rules.specs.SpecUpdates.{reused_spec, is_clashing, is_repeating, is_misfit};
ghost use Rattle.rules.specs.Layout.{given, read_schema, read_partition_spec, read_partition_specs, laid_partition_specs};
ghost use Rattle.rules.specs.Kinds.{is_tidy_update, add_partition_spec_kind};
ghost use Rattle.tables.specs.Laid.{LaidSchema, LaidSpec, LaidSpecs};
ghost use Rattle.builder.specs.Added.{Numbered};
ghost use Rattle.spec_updates.specs.Additions.{Completed, SpecGrown, SpecDecided};

use crate::SpecsAnswer;
use builder::builder::TableMetadataBuilder;
use builder::checks::choose;
use builder::choice::reuse_or_create_new_id;
use builder::decision::decided;
use offers::OfferedSpec;
use partitions::columns::{is_clashing, is_misfit};
use partitions::fresh::{is_sequential, last_partition, number_fields};
use partitions::offer::logged_offer;
use partitions::repeats::is_repeating;
use partitions::reuse::reuse_partition_field_ids;
use records::capacities::PARTITION_SPECS;
use records::counters::{FieldId, SpecId};
use records::partition::{PartitionSpec, PartitionSpecs, SpecOffer};
use records::replies::{
    ACCEPTED, IDS_EXHAUSTED, IDS_NOT_SEQUENTIAL, NAME_CLASH, SOURCE_MISFIT, TABLE_FULL,
    UPDATE_NOT_FORMED,
};
use records::schema::Schema;
use records::update::TableUpdate;
use search::Key;
use tables::keys::{spec_id, spec_key};
use tables::partition_specs::{find_equal, ids_of};

const LARGEST: i64 = i32::MAX as i64;

// The id that an added spec gets: that of a held one with the same fields, if one is found, else the next, unless ids are exhausted.
#[derive(Clone, Copy)]
pub struct SpecNumbered {
    pub found: bool,
    pub exhausted: bool,
    pub is_last: bool,
    pub id: SpecId,
}

fn reuse_or_create_new_spec_id(
    t: PartitionSpecs,
    p: PartitionSpec,
    has_last: bool,
    last: SpecId,
) -> SpecNumbered
    requires laid_specs { LaidSpecs t }
    requires laid_spec { LaidSpec p }
    ensures { Numbered (reused_spec (read_partition_spec p) (read_partition_specs t)) (eq_z (highestOf (spec_ids (read_partition_specs t))) largest_spec_id) (suc_ℤ (highestOf (spec_ids (read_partition_specs t)))) (given has_last last.0) result.found result.exhausted result.is_last result.id.0 }
{
    let n = t.count;
    let ids = ids_of(t);
    let i = find_equal(t, p);
    let k = spec_key(last);
    let x = reuse_or_create_new_id(&ids[..n], i, Key(LARGEST), has_last, k);
    let id = spec_id(x.id);
    SpecNumbered {
        found: x.found,
        exhausted: x.exhausted,
        is_last: x.is_last,
        id,
    }
}

// 31, then 32, then the rest.
fn choose_misfit(p: PartitionSpec, s: Schema, rest: u8) -> u8
    requires laid_spec { LaidSpec p }
    requires laid_schema { LaidSchema s }
    ensures { result ≡ cond (is_clashing (read_schema s).fields (read_partition_spec p) || is_repeating (read_partition_spec p)) name_clash (cond (is_misfit (read_schema s).fields (read_partition_spec p)) source_misfit rest) }
{
    if is_clashing(p, s) || is_repeating(p) {
        return NAME_CLASH;
    }
    if is_misfit(p, s) {
        return SOURCE_MISFIT;
    }
    rest
}

// The checks of a new spec, and the spec with an id for each field, with the last partition id that it leads to.
#[derive(Clone, Copy)]
pub struct SpecCompleted {
    pub number: u8,
    pub last_partition_id: FieldId,
    pub spec: PartitionSpec,
}

// `over` says that there is no id for the spec, and `count` how many are held.
fn complete(p: PartitionSpec, last: FieldId, version: u8, over: bool, count: usize) -> SpecCompleted
    requires { LaidSpec p }
    ensures { Completed p last.0 version over count result }
{
    let x = number_fields(p, last);
    let spec = x.spec;
    let out = !is_sequential(spec);
    let full = choose(count >= PARTITION_SPECS, TABLE_FULL, ACCEPTED);
    let later = choose((version == 1) & out, IDS_NOT_SEQUENTIAL, full);
    let number = choose(over | x.exhausted, IDS_EXHAUSTED, later);
    let top = last_partition(last, spec);
    SpecCompleted {
        number,
        last_partition_id: top,
        spec,
    }
}

// The offer is the one to log, and where the table grows the spec the one to put at its end.
#[derive(Clone, Copy)]
pub struct SpecAdded {
    pub number: u8,
    pub logs: bool,
    pub grows: bool,
    pub offer: SpecOffer,
    pub spec: PartitionSpec,
    pub builder: TableMetadataBuilder,
}

// The spec has its given and reused ids. The schema is the current one.
fn spec_addition(
    b: TableMetadataBuilder,
    s: Schema,
    t: PartitionSpecs,
    p: PartitionSpec,
    o: SpecOffer,
) -> SpecAdded
    requires laid_schema { LaidSchema s }
    requires laid_specs { LaidSpecs t }
    requires laid_spec { LaidSpec p }
    ensures { SpecGrown b s t p o result }
{
    let n = t.count;
    let x = reuse_or_create_new_spec_id(t, p, b.has_spec, b.last_added_spec_id);
    let found = x.found;
    let id = x.id;
    let mut c = b;
    c.has_spec = true;
    c.last_added_spec_id = id;
    let mut q = p;
    q.spec_id = id;
    let offer = logged_offer(o, q);
    if found {
        let number = choose_misfit(p, s, ACCEPTED);
        return SpecAdded {
            number,
            logs: !x.is_last,
            grows: false,
            offer,
            spec: q,
            builder: c,
        };
    }
    let mut f = b.fields;
    let y = complete(q, f.last_partition_id, f.format_version, x.exhausted, n);
    let number = choose_misfit(p, s, y.number);
    let last = y.last_partition_id;
    let spec = y.spec;
    f.last_partition_id = last;
    c.fields = f;
    SpecAdded {
        number,
        logs: true,
        grows: number == ACCEPTED,
        offer,
        spec,
        builder: c,
    }
}

// A new spec is stored behind the last: its id is above all others.
fn specs_after(t: PartitionSpecs, grows: bool, p: PartitionSpec) -> PartitionSpecs
    requires laid_specs { LaidSpecs t }
    requires laid_spec { grows ≡ true → LaidSpec p × (t.count < spec_room) }
    ensures { result ≡ cond grows (laid_partition_specs (read_partition_specs t ++ (read_partition_spec p ∷ []))) t }
{
    if !grows {
        return t;
    }
    let mut table = t;
    table.items[t.count] = p;
    table.count = t.count + 1;
    table
}

// An offer that is not well formed is 3. The entry has the offer under the id of the spec, with the ids of its fields that are not fresh. The schema is the current
// one.
pub fn add_partition_spec(
    b: TableMetadataBuilder,
    s: Schema,
    t: PartitionSpecs,
    offered: OfferedSpec,
    u: TableUpdate,
) -> SpecsAnswer
    requires laid_schema { LaidSchema s }
    requires laid_specs { LaidSpecs t }
    requires laid_spec { LaidSpec offered.spec }
    requires u_value { is_tidy_update u ≡ true }
    requires kind_value { u.kind ≡ add_partition_spec_kind }
    ensures { SpecDecided b s t offered u result }
{
    if !offered.formed {
        let decision = decided(UPDATE_NOT_FORMED, false, b, u);
        return SpecsAnswer { decision, table: t };
    }
    let p = reuse_partition_field_ids(t, offered.spec);
    let mut part = u.partition_specs;
    let x = spec_addition(b, s, t, p, part.added);
    let c = x.builder;
    let offer = x.offer;
    part.added = offer;
    let mut e = u;
    e.partition_specs = part;
    let decision = decided(x.number, x.logs, c, e);
    let table = specs_after(t, x.grows, x.spec);
    SpecsAnswer { decision, table }
}
