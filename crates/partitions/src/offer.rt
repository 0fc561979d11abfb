// The offer of a spec, as it is logged.
ghost use Rattle.std.specs.Prelude.{◌≡◌};
ghost use Rattle.rules.specs.SpecUpdates.{spec_offered_as};
ghost use Rattle.rules.specs.Layout.{read_partition_spec, read_spec_offer, laid_spec_offer};
ghost use Rattle.tables.specs.Laid.{LaidSpec};

use crate::slots::fields_of;
use records::capacities::PARTITION_FIELDS;
use records::partition::{OfferedId, PartitionSpec, SpecOffer};

// The offer with the id of the spec and those of its fields, left out where a field has none.
pub fn logged_offer(o: SpecOffer, p: PartitionSpec) -> SpecOffer
    requires { LaidSpec p }
    ensures { result ≡ laid_spec_offer (spec_offered_as (read_partition_spec p) (read_spec_offer o)) }
{
    let fields = fields_of(&p);
    let mut ids = [OfferedId::blank(); PARTITION_FIELDS];
    for (i, field) in fields.iter().enumerate() {
        ids[i] = OfferedId {
            given: field.has_id,
            id: field.field_id,
        };
    }
    SpecOffer {
        spec_id: p.spec_id,
        at: o.at,
        count: p.count,
        ids,
    }
}
