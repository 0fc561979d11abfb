// What a run is given beside metadata, updates and the limit text, and what it answers.
use crate::counters::{Age, Time};
use crate::metadata::{MetadataLog, TableMetadata};
use crate::text::Text;
use crate::update::UpdateList;

// The tolerance of a run for which none is chosen, and the longest: document 02, request (v). In milliseconds.
pub const DEFAULT_TOLERANCE_MS: i64 = 60000;

pub const LONGEST_TOLERANCE_MS: i64 = 3600000;

// The offices that share a register: document 02, request (xi). `main` belongs to the first.
pub const FIRST_OFFICE: u8 = 1;

pub const SECOND_OFFICE: u8 = 2;

// The terms of a run. The office is the one whose run it is. The tolerance says how far an added snapshot's time may lie before the last entry and before the last update.
// The text that limits the metadata log has any length, so it is lent beside this.
#[derive(Clone, Copy, PartialEq, Eq)]
pub struct RunTerms {
    pub clock_ms: Time,
    pub tolerance_ms: Age,
    pub has_file: bool,
    pub file: Text,
    pub office: u8,
}

// The number is 0 for an accepted run; a refused one gives the metadata that it was given, no changes and no expired entries.
#[derive(Clone, Copy, PartialEq, Eq)]
pub struct Answer {
    pub number: u8,
    pub place: usize,
    pub metadata: TableMetadata,
    pub changes: UpdateList,
    pub expired: MetadataLog,
}
