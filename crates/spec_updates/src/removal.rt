// Removing specs.
ghost use Rattle.std.specs.Prelude.{◌≡◌, true};
ghost use Rattle.rules.specs.Register.{Terms, State};
ghost use Rattle.rules.specs.WellFormed.{specs_formed, update_formed};
ghost use Rattle.rules.specs.Updates.{effect};
ghost use Rattle.rules.specs.Layout.{read_partition_specs, laid_partition_specs};
ghost use Rattle.rules.specs.Kinds.{is_tidy_update, read_kind, read_update, remove_partition_specs_kind};
ghost use Rattle.tables.specs.Laid.{LaidSpecs};
ghost use Rattle.builder.specs.Pieces.{laid_builder};
ghost use Rattle.builder.specs.Answers.{Decides};

use crate::SpecsAnswer;
use builder::builder::TableMetadataBuilder;
use builder::checks::choose;
use builder::decision::decided;
use records::partition::PartitionSpecs;
use records::replies::{ACCEPTED, DEFAULT_SPEC_REMOVED};
use records::update::TableUpdate;
use tables::ids::has_spec;
use tables::partition_specs::{held, without};

// The entry has the ids that were held; where none was, nothing is logged.
pub fn remove_partition_specs(
    b: TableMetadataBuilder,
    t: PartitionSpecs,
    u: TableUpdate,
) -> SpecsAnswer
    requires laid_specs { LaidSpecs t }
    requires t_value { specs_formed (read_partition_specs t) ≡ true }
    requires u_value { is_tidy_update u ≡ true }
    requires u_value_2 { update_formed (read_kind u) ≡ true }
    requires kind_value { u.kind ≡ remove_partition_specs_kind }
    ensures decides { (terms : Terms) (st : State) → b ≡ laid_builder st → t ≡ laid_partition_specs st.metadata.specs → Decides terms u st result.decision }
    ensures table_value { (terms : Terms) (st : State) → t ≡ laid_partition_specs st.metadata.specs → result.table ≡ laid_partition_specs (effect terms (read_update u) st).metadata.specs }
{
    let mut part = u.partition_specs;
    let named = part.removed;
    let f = b.fields;
    let current = f.default_spec_id;
    let removed = has_spec(named, current);
    let number = choose(removed, DEFAULT_SPEC_REMOVED, ACCEPTED);
    let logged = held(t, named);
    let n = logged.count;
    part.removed = logged;
    let mut e = u;
    e.partition_specs = part;
    let decision = decided(number, n > 0, b, e);
    let table = without(t, named);
    SpecsAnswer { decision, table }
}
