// Which members an open object has, and which it lacks.
ghost use Rattle.std.specs.Prelude.{◌≡◌};
ghost use Rattle.json_members.specs.Marks.{opening_update, opening, lacks_any, update_lacks, snapshot_lacks, lacks_either, partition_field_lacks, lacks_in};

use crate::row::row_of;
use crate::spot::{
    ACTION, ADDED_ROWS, FIELD, FIELD_ID, FIELD_TYPE, FIRST_ROW_ID, NULL_ORDER, ORDER_FIELDS,
    ORDER_ID, PARTITION_FIELD, PARTITION_NAME, PARTITION_SOURCE_ID, PARTITION_TRANSFORM, SCHEMA,
    SCHEMA_FIELDS, SCHEMA_TYPE, SNAPSHOT, SNAPSHOT_ID, SNAPSHOT_SCHEMA_ID, SORT_FIELD, SORT_ORDER,
    SORT_TRANSFORM, SPEC, SPEC_FIELDS, SPEC_ID, SPEC_IDS, TIMESTAMP_MS, UPDATE,
};
use crate::state::{Judge, KIND, forget, is_seen, kind_of};

// An update is opened: its action is not known.
fn open_update(judge: &mut Judge)
    ensures { judge.new ≡ opening_update judge.old }
{
    forget(judge, ACTION, SPEC_IDS);
    judge[KIND] = 0;
}

// An object is opened: none of its members was seen.
#[tactic(auto, unfolding(crate::specs::Marks::opening))]
pub fn open(judge: &mut Judge, object: usize)
    ensures { judge.new ≡ opening object judge.old }
{
    match object {
        UPDATE => open_update(judge),
        SNAPSHOT => forget(judge, SNAPSHOT_ID, SNAPSHOT_SCHEMA_ID),
        SCHEMA => forget(judge, SCHEMA_TYPE, SCHEMA_FIELDS),
        FIELD => forget(judge, FIELD_ID, FIELD_TYPE),
        SORT_ORDER => forget(judge, ORDER_ID, ORDER_FIELDS),
        SORT_FIELD => forget(judge, SORT_TRANSFORM, NULL_ORDER),
        SPEC => forget(judge, SPEC_ID, SPEC_FIELDS),
        PARTITION_FIELD => forget(judge, PARTITION_SOURCE_ID, PARTITION_TRANSFORM),
        _ => {}
    }
}

// Whether one of these was not seen.
fn lacks_any(judge: &Judge, from: usize, to: usize) -> bool
    ensures { result ≡ lacks_any from to judge.now }
{
    for spot in from..=to {
        if !is_seen(judge, spot) {
            return true;
        }
    }
    false
}

fn update_lacks(judge: &Judge) -> bool
    ensures { result ≡ update_lacks judge.now }
{
    if !is_seen(judge, ACTION) {
        return true;
    }
    let row = row_of(kind_of(judge));
    lacks_any(judge, row.first, row.must)
}

// A row range has both its numbers, or neither.
fn snapshot_lacks(judge: &Judge) -> bool
    ensures { result ≡ snapshot_lacks judge.now }
{
    if !is_seen(judge, SNAPSHOT_ID) {
        return true;
    }
    if !is_seen(judge, TIMESTAMP_MS) {
        return true;
    }
    is_seen(judge, FIRST_ROW_ID) != is_seen(judge, ADDED_ROWS)
}

fn lacks_either(judge: &Judge, one: usize, other: usize) -> bool
    ensures { result ≡ lacks_either one other judge.now }
{
    if !is_seen(judge, one) {
        return true;
    }
    !is_seen(judge, other)
}

fn partition_field_lacks(judge: &Judge) -> bool
    ensures { result ≡ partition_field_lacks judge.now }
{
    if !is_seen(judge, PARTITION_SOURCE_ID) {
        return true;
    }
    lacks_either(judge, PARTITION_NAME, PARTITION_TRANSFORM)
}

// An object is closed: whether it lacks a member that it must have. A list lacks none.
#[tactic(auto, unfolding(crate::specs::Marks::lacks_in))]
pub fn lacks(judge: &Judge, object: usize) -> bool
    ensures { result ≡ lacks_in object judge.now }
{
    match object {
        UPDATE => update_lacks(judge),
        SNAPSHOT => snapshot_lacks(judge),
        SCHEMA => lacks_either(judge, SCHEMA_TYPE, SCHEMA_FIELDS),
        FIELD => lacks_any(judge, FIELD_ID, FIELD_TYPE),
        SORT_ORDER => lacks_either(judge, ORDER_ID, ORDER_FIELDS),
        SORT_FIELD => lacks_any(judge, SORT_TRANSFORM, NULL_ORDER),
        SPEC => !is_seen(judge, SPEC_FIELDS),
        PARTITION_FIELD => partition_field_lacks(judge),
        _ => false,
    }
}
