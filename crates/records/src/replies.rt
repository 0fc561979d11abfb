// The numbers of the replies, by the names that the rules give them in Replies. 1 is of a run's start, of a walk's lists,
// and of a snapshot log that counts above its slots.
pub const ACCEPTED: u8 = 0;

pub const START_NOT_FORMED: u8 = 1;

pub const LISTS_NOT_FORMED: u8 = 1;

pub const LIST_TOO_LONG: u8 = 2;

pub const UPDATE_NOT_FORMED: u8 = 3;

pub const VERSION_LOWERED: u8 = 4;

pub const SNAPSHOT_HELD: u8 = 5;

pub const SEQUENCE_TOO_LOW: u8 = 6;

pub const BEFORE_LAST_ENTRY: u8 = 7;

pub const BEFORE_LAST_UPDATE: u8 = 8;

pub const FIRST_ROW_BEHIND: u8 = 9;

pub const NO_ROW_RANGE: u8 = 10;

pub const ROWS_OVERFLOW: u8 = 11;

pub const SNAPSHOT_NOT_HELD: u8 = 12;

pub const COMMIT_ON_TAG: u8 = 13;

pub const NOTHING_ADDED: u8 = 14;

pub const UNKNOWN_ID: u8 = 15;

pub const CURRENT_SCHEMA_REMOVED: u8 = 16;

pub const FIELD_NOT_IN_SCHEMA: u8 = 17;

pub const IDS_EXHAUSTED: u8 = 18;

pub const TABLE_FULL: u8 = 19;

pub const DEFAULT_ORDER_UNFIT: u8 = 20;

pub const LOG_ENDS_ELSEWHERE: u8 = 21;

pub const MAIN_DISAGREES: u8 = 22;

pub const TOO_MANY_FILES: u8 = 23;

pub const MET_TWICE: u8 = 24;

pub const BUFFER_TOO_SHORT: u8 = 25;

pub const TOLERANCE_OUTSIDE: u8 = 26;

// Also where a partition field is redundant, or a field id stands twice in a spec.
pub const NAME_CLASH: u8 = 31;

pub const SOURCE_MISFIT: u8 = 32;

pub const IDS_NOT_SEQUENTIAL: u8 = 33;

pub const DEFAULT_SPEC_REMOVED: u8 = 34;

// What the update would touch is the other office's, or kept for the first.
pub const OTHERS_TO_CHANGE: u8 = 35;

pub const OFFICE_UNKNOWN: u8 = 39;
