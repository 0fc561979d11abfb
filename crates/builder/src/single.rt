// The updates of single fields: which of them an update is.
ghost use Rattle.std.specs.Prelude.{◌≡◌, true, ◌≤◌};
ghost use Rattle.rules.specs.Capacities.{location_room};
ghost use Rattle.rules.specs.Register.{Terms, State};
ghost use Rattle.rules.specs.WellFormed.{update_formed};
ghost use Rattle.rules.specs.Kinds.{is_tidy_update, read_kind, assign_uuid_kind, set_location_kind};
ghost use Rattle.builder.specs.Pieces.{laid_builder};
ghost use Rattle.builder.specs.Answers.{Decides};

use crate::builder::TableMetadataBuilder;
use crate::decision::{Decision, assign_uuid, set_location, upgrade_format_version};
use records::update::{ASSIGN_UUID, TableUpdate, UPGRADE_FORMAT_VERSION};

pub fn decide(b: TableMetadataBuilder, u: TableUpdate) -> Decision
    requires len_le_location_room { b.fields.location.len ≤ location_room }
    requires u_value { is_tidy_update u ≡ true }
    requires u_value_2 { update_formed (read_kind u) ≡ true }
    requires assign_uuid_kind_le_kind { (assign_uuid_kind ≤ u.kind) × (u.kind ≤ set_location_kind) }
    ensures { (terms : Terms) (st : State) → b ≡ laid_builder st → Decides terms u st result }
{
    match u.kind {
        ASSIGN_UUID => assign_uuid(b, u),
        UPGRADE_FORMAT_VERSION => upgrade_format_version(b, u),
        _ => set_location(b, u),
    }
}
