// Whether a published list can carry a log: each update is well formed and has an action, its texts are UTF-8, and there are no more than a list may have.
ghost use Rattle.std.specs.Prelude.{◌≡◌};
ghost use Rattle.rules.specs.Words.{some_with};
ghost use Rattle.rules.specs.Register.Update.{AddSchema, AddPartitionSpec};
ghost use Rattle.rules.specs.Layout.{read_schema_offer, read_spec_offer};
ghost use Rattle.rules.specs.Kinds.{read_kind, read_update, read_updates};
ghost use Rattle.log_rule.specs.LogText.{sent_in, sent_texts, is_carried_update, is_carried};

use file_shown::character::{name_is_utf8, text_is_utf8};
use file_shown::table::{all_items, schema_named, spec_named};
use formed::update::is_formed;
use records::capacities::UPDATES;
use records::partition::SpecOffer;
use records::schema::SchemaOffer;
use records::update::{
    ADD_PARTITION_SPEC, ADD_SCHEMA, ADD_SNAPSHOT, ADD_SORT_ORDER, ASSIGN_UUID,
    REMOVE_PARTITION_SPECS, REMOVE_REF, REMOVE_SCHEMAS, REMOVE_SNAPSHOTS, SET_CURRENT_SCHEMA,
    SET_DEFAULT_PARTITION_SPEC, SET_DEFAULT_SORT_ORDER, SET_LOCATION, SET_REF, TableUpdate,
    UPGRADE_FORMAT_VERSION, UpdateList,
};

fn schema_carried(o: SchemaOffer, offers: &[u8]) -> bool
    ensures { result ≡ some_with sent_texts (sent_in offers.now (AddSchema (read_schema_offer o))) }
{
    let offered = offers::schema(o, offers);
    offered.formed & schema_named(offered.schema)
}

fn spec_carried(o: SpecOffer, offers: &[u8]) -> bool
    ensures { result ≡ some_with sent_texts (sent_in offers.now (AddPartitionSpec (read_spec_offer o))) }
{
    let offered = offers::spec(o, offers);
    offered.formed & spec_named(offered.spec)
}

// The kind has an action, and the texts that it uses are UTF-8.
fn kind_carried(u: TableUpdate, offers: &[u8]) -> bool
    ensures { result ≡ some_with sent_texts (sent_in offers.now (read_kind u)) }
{
    match u.kind {
        ASSIGN_UUID => true,
        UPGRADE_FORMAT_VERSION => true,
        SET_LOCATION => text_is_utf8(u.fields.location),
        ADD_SNAPSHOT => true,
        REMOVE_SNAPSHOTS => true,
        SET_REF => name_is_utf8(u.refs.name),
        REMOVE_REF => name_is_utf8(u.refs.name),
        ADD_SCHEMA => schema_carried(u.schemas.added, offers),
        SET_CURRENT_SCHEMA => true,
        REMOVE_SCHEMAS => true,
        ADD_SORT_ORDER => true,
        SET_DEFAULT_SORT_ORDER => true,
        ADD_PARTITION_SPEC => spec_carried(u.partition_specs.added, offers),
        SET_DEFAULT_PARTITION_SPEC => true,
        REMOVE_PARTITION_SPECS => true,
        _ => false,
    }
}

fn update_carried(u: TableUpdate, offers: &[u8]) -> bool
    ensures { result ≡ is_carried_update offers.now (read_update u) }
{
    is_formed(u) & kind_carried(u, offers)
}

pub fn is_carried(t: UpdateList, offers: &[u8]) -> bool
    ensures { result ≡ is_carried (read_updates t) offers.now }
{
    if t.count > UPDATES {
        return false;
    }
    all_items(
        &t.items,
        t.count,
        TableUpdate::blank(),
        |u| update_carried(*u, offers),
    )
}
