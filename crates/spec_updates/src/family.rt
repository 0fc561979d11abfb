// The updates of partition specs: which of them an update is.
ghost use Rattle.std.specs.Prelude.{◌≡◌, true, ◌≤◌};
ghost use Rattle.rules.specs.WellFormed.{specs_formed, update_formed};
ghost use Rattle.rules.specs.Layout.{read_partition_specs};
ghost use Rattle.rules.specs.Kinds.{is_tidy_update, read_kind, add_partition_spec_kind, remove_partition_specs_kind};
ghost use Rattle.tables.specs.Laid.{LaidSchema, LaidSpecs};
ghost use Rattle.spec_updates.specs.Family.{SpecsDecided};

use crate::SpecsAnswer;
use crate::addition::add_partition_spec;
use crate::choice::set_default_partition_spec;
use crate::removal::remove_partition_specs;
use builder::builder::TableMetadataBuilder;
use records::partition::PartitionSpecs;
use records::schema::Schema;
use records::update::{ADD_PARTITION_SPEC, SET_DEFAULT_PARTITION_SPEC, TableUpdate};

// The schema is the current one. What an update offers stands among the bytes.
pub fn decide(
    b: TableMetadataBuilder,
    s: Schema,
    t: PartitionSpecs,
    offers: &[u8],
    u: TableUpdate,
) -> SpecsAnswer
    requires laid_schema { LaidSchema s }
    requires laid_specs { LaidSpecs t }
    requires t_value { specs_formed (read_partition_specs t) ≡ true }
    requires u_value { is_tidy_update u ≡ true }
    requires u_value_2 { update_formed (read_kind u) ≡ true }
    requires add_partition_spec_kind_le_kind { (add_partition_spec_kind ≤ u.kind) × (u.kind ≤ remove_partition_specs_kind) }
    ensures { SpecsDecided b s t offers.now u result }
{
    let kind = u.kind;
    if kind == ADD_PARTITION_SPEC {
        let offered = offers::spec(u.partition_specs.added, offers);
        return add_partition_spec(b, s, t, offered, u);
    }
    if kind == SET_DEFAULT_PARTITION_SPEC {
        let decision = set_default_partition_spec(b, s, t, u);
        return SpecsAnswer { decision, table: t };
    }
    remove_partition_specs(b, t, u)
}
