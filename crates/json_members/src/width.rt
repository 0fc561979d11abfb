// Which numbers a spot holds.
ghost use Rattle.std.specs.Prelude.{◌≡◌};
ghost use Rattle.json_members.specs.Spots.{shape_at};
ghost use Rattle.json_members.specs.Widths.{width_of, has_number};

use crate::spot::{
    ADDED_ROWS, CHOSEN_ORDER_ID, CHOSEN_SCHEMA_ID, CHOSEN_SPEC_ID, FIELD_ID, FIRST_ROW_ID,
    FORMAT_VERSION, LAST_COLUMN_ID, MAX_REF_AGE_MS, MAX_SNAPSHOT_AGE_MS, MIN_SNAPSHOTS_TO_KEEP,
    ORDER_ID, PARENT_SNAPSHOT_ID, PARTITION_FIELD_ID, PARTITION_SOURCE_ID, REF_SNAPSHOT_ID,
    REMOVED_SCHEMA, REMOVED_SNAPSHOT, REMOVED_SPEC, SCHEMA_ID, SEQUENCE_NUMBER, SNAPSHOT_ID,
    SORT_SOURCE_ID, SPEC_ID, TIMESTAMP_MS,
};

// Kept: `width_of` of Widths (specs/) says the flag and the numbers, and the function here answers them.
// The largest number, and how far below 0 the least lies; `numbers` is false where the spot holds none.
#[derive(Clone, Copy)]
pub struct Width {
    pub numbers: bool,
    pub most: u64,
    pub below: u64,
}

const OF_NO_NUMBER: Width = Width {
    numbers: false,
    most: 0,
    below: 0,
};

const OF_U8: Width = Width {
    numbers: true,
    most: 255,
    below: 0,
};

const OF_I32: Width = Width {
    numbers: true,
    most: 2147483647,
    below: 2147483648,
};

const OF_I64: Width = Width {
    numbers: true,
    most: 9223372036854775807,
    below: 9223372036854775808,
};

const OF_U64: Width = Width {
    numbers: true,
    most: 18446744073709551615,
    below: 0,
};

pub fn width_of(spot: usize) -> Width
    ensures { result ≡ width_of (shape_at spot) }
{
    match spot {
        FORMAT_VERSION => OF_U8,
        MIN_SNAPSHOTS_TO_KEEP | LAST_COLUMN_ID | CHOSEN_SPEC_ID | REMOVED_SPEC => OF_I32,
        CHOSEN_SCHEMA_ID | REMOVED_SCHEMA | SCHEMA_ID | SPEC_ID => OF_I32,
        FIELD_ID | SORT_SOURCE_ID | PARTITION_SOURCE_ID => OF_I32,
        PARTITION_FIELD_ID => OF_I32,
        REF_SNAPSHOT_ID | MAX_SNAPSHOT_AGE_MS | REMOVED_SNAPSHOT | CHOSEN_ORDER_ID => OF_I64,
        MAX_REF_AGE_MS | ORDER_ID | SNAPSHOT_ID | SEQUENCE_NUMBER => OF_I64,
        PARENT_SNAPSHOT_ID | TIMESTAMP_MS => OF_I64,
        FIRST_ROW_ID => OF_U64,
        ADDED_ROWS => OF_U64,
        _ => OF_NO_NUMBER,
    }
}

// Whether an integer of this sign and magnitude is among them. `-0` is 0.
pub fn has(width: Width, negative: bool, magnitude: u64) -> bool
    ensures { result ≡ has_number width negative magnitude }
{
    if !width.numbers {
        return false;
    }
    if negative {
        return magnitude <= width.below;
    }
    magnitude <= width.most
}
