// What an update of a list comes to: a crate of the updates decides it, and the run stores it.
// The updates of uuid, version and location are decided here, by the builder's methods.
ghost use Rattle.std.specs.Prelude.{◌≡◌, true, false, ◌≤◌};
ghost use Rattle.rules.specs.Capacities.{location_room};
ghost use Rattle.rules.specs.Register.{Terms, State};
ghost use Rattle.rules.specs.WellFormed.{update_formed};
ghost use Rattle.rules.specs.Kinds.{is_tidy_update, read_kind, assign_uuid_kind, upgrade_format_version_kind, set_location_kind};
ghost use Rattle.builder.specs.Pieces.{laid_builder};
ghost use Rattle.builder.specs.Answers.{Decides};

use crate::builder::TableMetadataBuilder;
use records::replies::ACCEPTED;
use records::update::TableUpdate;

// The number is that of the first check that fails, and the rest counts only where it is 0. Then `logs` says that the update took effect: the
// builder and the entry are to be stored. `grows` says that the record of the entry is to be put into its table.
#[derive(Clone, Copy)]
pub struct Decision {
    pub number: u8,
    pub logs: bool,
    pub grows: bool,
    pub builder: TableMetadataBuilder,
    pub entry: TableUpdate,
}

pub fn decided(
    number: u8,
    logs: bool,
    builder: TableMetadataBuilder,
    entry: TableUpdate,
) -> Decision
    ensures { result ≡ record { number = number; logs = logs; grows = false; builder = builder; entry = entry } }
{
    Decision {
        number,
        logs,
        grows: false,
        builder,
        entry,
    }
}

pub fn assign_uuid(b: TableMetadataBuilder, u: TableUpdate) -> Decision
    requires u_value { is_tidy_update u ≡ true }
    requires kind_value { u.kind ≡ assign_uuid_kind }
    ensures { (terms : Terms) (st : State) → b ≡ laid_builder st → Decides terms u st result }
{
    let assigned = b.assign_uuid(u.fields.uuid);
    decided(assigned.number, assigned.logs, assigned.builder, u)
}

pub fn upgrade_format_version(b: TableMetadataBuilder, u: TableUpdate) -> Decision
    requires u_value { is_tidy_update u ≡ true }
    requires kind_value { u.kind ≡ upgrade_format_version_kind }
    ensures { (terms : Terms) (st : State) → b ≡ laid_builder st → Decides terms u st result }
{
    let upgraded = b.upgrade_format_version(u.fields.format_version);
    decided(upgraded.number, upgraded.logs, upgraded.builder, u)
}

// The location is logged trimmed.
pub fn set_location(b: TableMetadataBuilder, u: TableUpdate) -> Decision
    requires len_le_location_room { b.fields.location.len ≤ location_room }
    requires u_value { is_tidy_update u ≡ true }
    requires u_value_2 { update_formed (read_kind u) ≡ true }
    requires kind_value { u.kind ≡ set_location_kind }
    ensures { (terms : Terms) (st : State) → b ≡ laid_builder st → Decides terms u st result }
{
    let set = b.set_location(u.fields.location);
    let mut entry = u;
    entry.fields.location = set.location;
    decided(ACCEPTED, set.logs, set.builder, entry)
}
