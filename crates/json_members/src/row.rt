// The rows of the actions: which members an update of each kind may have, and which it must have.
ghost use Rattle.std.specs.Prelude.{◌≡◌};
ghost use Rattle.json_members.specs.Rows.{alone as alone_at, span_of, is_foreign_at};

use crate::spot::{
    ACTION, CHOSEN_ORDER_ID, CHOSEN_SCHEMA_ID, CHOSEN_SPEC_ID, FORMAT_VERSION, LAST_COLUMN_ID,
    LOCATION, MAX_REF_AGE_MS, REF_NAME, REF_SNAPSHOT_ID, SCHEMA, SCHEMA_IDS, SNAPSHOT,
    SNAPSHOT_IDS, SORT_ORDER, SPEC, SPEC_IDS, UUID,
};
use records::update::{
    ADD_PARTITION_SPEC, ADD_SCHEMA, ADD_SNAPSHOT, ADD_SORT_ORDER, ASSIGN_UUID,
    REMOVE_PARTITION_SPECS, REMOVE_REF, REMOVE_SCHEMAS, REMOVE_SNAPSHOTS, SET_CURRENT_SCHEMA,
    SET_DEFAULT_PARTITION_SPEC, SET_DEFAULT_SORT_ORDER, SET_LOCATION, SET_REF,
    UPGRADE_FORMAT_VERSION,
};

// The first and the last member of a row: those between belong to it too. All from the first to `must` are required, the others optional.
#[derive(Clone, Copy)]
pub struct Row {
    pub first: usize,
    pub must: usize,
    pub last: usize,
}

fn alone(spot: usize) -> Row
    ensures { result ≡ alone_at spot }
{
    Row {
        first: spot,
        must: spot,
        last: spot,
    }
}

const SET_REF_ROW: Row = Row {
    first: REF_NAME,
    must: REF_SNAPSHOT_ID,
    last: MAX_REF_AGE_MS,
};

const ADD_SCHEMA_ROW: Row = Row {
    first: SCHEMA,
    must: SCHEMA,
    last: LAST_COLUMN_ID,
};

const EVERY_ROW: Row = Row {
    first: ACTION,
    must: 0,
    last: SPEC_IDS,
};

// The row of a kind. That of no kind has every member of an update and requires none.
#[tactic(auto, unfolding(crate::specs::Rows::span_of))]
pub fn row_of(kind: u8) -> Row
    ensures { result ≡ span_of kind }
{
    match kind {
        ASSIGN_UUID => alone(UUID),
        UPGRADE_FORMAT_VERSION => alone(FORMAT_VERSION),
        SET_LOCATION => alone(LOCATION),
        ADD_SNAPSHOT => alone(SNAPSHOT),
        REMOVE_SNAPSHOTS => alone(SNAPSHOT_IDS),
        SET_REF => SET_REF_ROW,
        REMOVE_REF => alone(REF_NAME),
        ADD_SCHEMA => ADD_SCHEMA_ROW,
        SET_CURRENT_SCHEMA => alone(CHOSEN_SCHEMA_ID),
        REMOVE_SCHEMAS => alone(SCHEMA_IDS),
        ADD_SORT_ORDER => alone(SORT_ORDER),
        SET_DEFAULT_SORT_ORDER => alone(CHOSEN_ORDER_ID),
        ADD_PARTITION_SPEC => alone(SPEC),
        SET_DEFAULT_PARTITION_SPEC => alone(CHOSEN_SPEC_ID),
        REMOVE_PARTITION_SPECS => alone(SPEC_IDS),
        _ => EVERY_ROW,
    }
}

// Whether a member of an update stands in another row only. The action stands in every row.
#[tactic(auto, unfolding(crate::specs::Rows::is_foreign_at))]
pub fn is_foreign(row: Row, spot: usize) -> bool
    ensures { result ≡ is_foreign_at row spot }
{
    if spot <= ACTION {
        return false;
    }
    if spot > SPEC_IDS {
        return false;
    }
    if spot < row.first {
        return true;
    }
    spot > row.last
}
