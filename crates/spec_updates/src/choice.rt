// Choosing the default spec.
ghost use Rattle.std.specs.Prelude.{◌≡◌, true};
ghost use Rattle.records.specs.Blanks.{no_partition_specs_part};
ghost use Rattle.rules.specs.Words.{some_with, first};
ghost use Rattle.rules.specs.Register.{Terms, State};
ghost use Rattle.rules.specs.WellFormed.{has_spec};
ghost use Rattle.rules.specs.SpecUpdates.{is_misfit, set_default_partition_spec_checks, set_default_partition_spec};
ghost use Rattle.rules.specs.Layout.{read_schema, read_partition_specs, laid_partition_specs};
ghost use Rattle.rules.specs.Kinds.{is_tidy_update, of_kind, with_partition_specs_part, with_spec_id, set_default_partition_spec_kind};
ghost use Rattle.tables.specs.Laid.{LaidSchema, LaidSpecs};
ghost use Rattle.builder.specs.Pieces.{laid_builder, IsCurrent};
ghost use Rattle.builder.specs.Answers.{Answers, Decides};

use builder::builder::TableMetadataBuilder;
use builder::checks::choose;
use builder::choice::choose_id;
use builder::decision::{Decision, decided};
use partitions::columns::is_misfit;
use records::counters::SpecId;
use records::partition::PartitionSpecs;
use records::replies::{ACCEPTED, SOURCE_MISFIT};
use records::schema::Schema;
use records::update::TableUpdate;
use tables::keys::{spec_id, spec_key};
use tables::partition_specs::{get, holds, ids_of};

// The spec of the id is held, and has a field that has no source in the schema.
fn is_held_misfit(t: PartitionSpecs, s: Schema, id: SpecId) -> bool
    requires laid_specs { LaidSpecs t }
    requires laid_schema { LaidSchema s }
    ensures { result ≡ some_with (is_misfit (read_schema s).fields) (first (has_spec id.0) (read_partition_specs t)) }
{
    holds(t, id) && is_misfit(get(t, id), s)
}

// The id is the one to log.
#[derive(Clone, Copy)]
pub struct SpecSet {
    pub number: u8,
    pub logs: bool,
    pub spec_id: SpecId,
    pub builder: TableMetadataBuilder,
}

fn spec_choice(b: TableMetadataBuilder, s: Schema, t: PartitionSpecs, id: SpecId) -> SpecSet
    requires laid_schema { LaidSchema s }
    requires laid_specs { LaidSpecs t }
    ensures { (st : State) → b ≡ laid_builder st → IsCurrent st.metadata s → t ≡ laid_partition_specs st.metadata.specs → Answers (set_default_partition_spec_checks id.0 st) st (set_default_partition_spec id.0 st) result.number result.logs result.builder (with_partition_specs_part (with_spec_id result.spec_id no_partition_specs_part) (of_kind set_default_partition_spec_kind)) }
{
    let mut f = b.fields;
    let n = t.count;
    let ids = ids_of(t);
    let asked = spec_key(id);
    let last = spec_key(b.last_added_spec_id);
    let current = spec_key(f.default_spec_id);
    let x = choose_id(asked, b.has_spec, last, current, &ids[..n]);
    let chosen = spec_id(x.id);
    let logged = spec_id(x.logged);
    let misfit = is_held_misfit(t, s, chosen);
    let later = choose(!x.unchanged & misfit, SOURCE_MISFIT, ACCEPTED);
    let number = choose(x.number == ACCEPTED, later, x.number);
    f.default_spec_id = chosen;
    let mut c = b;
    c.fields = f;
    SpecSet {
        number,
        logs: !x.unchanged,
        spec_id: logged,
        builder: c,
    }
}

// The schema is the current one. The table stays as it is.
pub fn set_default_partition_spec(
    b: TableMetadataBuilder,
    s: Schema,
    t: PartitionSpecs,
    u: TableUpdate,
) -> Decision
    requires laid_schema { LaidSchema s }
    requires laid_specs { LaidSpecs t }
    requires u_value { is_tidy_update u ≡ true }
    requires kind_value { u.kind ≡ set_default_partition_spec_kind }
    ensures { (terms : Terms) (st : State) → b ≡ laid_builder st → IsCurrent st.metadata s → t ≡ laid_partition_specs st.metadata.specs → Decides terms u st result }
{
    let mut part = u.partition_specs;
    let x = spec_choice(b, s, t, part.chosen);
    let c = x.builder;
    let id = x.spec_id;
    part.chosen = id;
    let mut e = u;
    e.partition_specs = part;
    decided(x.number, x.logs, c, e)
}
