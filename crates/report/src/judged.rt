// The line that a replayed log gets: whether it leads to the ending metadata, or what differs first, or the refusal.
use cards::card::{Card, counted};
use compare::difference::Difference;
use compare::part;
use plaintext::reply::say_refusal;
use plaintext::template::say_part;
use plaintext::text::say;
use records::capacities;
use records::counters::Age;
use records::run::{DEFAULT_TOLERANCE_MS, FIRST_OFFICE};
use tokens::output::Output;

// The number and the place of the run's answer, the fault of its start, where its metadata first differs from the ending one, and the
// tolerance and the office that it was given.
#[derive(Clone, Copy)]
pub struct Judged {
    pub number: u8,
    pub place: usize,
    pub fault: u8,
    pub difference: Difference,
    pub tolerance_ms: Age,
    pub office: u8,
}

// How many records a table has room for.
fn slots_of(part: u8) -> Option<usize> {
    match part {
        part::SNAPSHOTS => Some(capacities::SNAPSHOTS),
        part::REFS => Some(capacities::REFS),
        part::SNAPSHOT_LOG => Some(capacities::SNAPSHOT_LOG),
        part::METADATA_LOG => Some(capacities::METADATA_LOG),
        part::SCHEMAS => Some(capacities::SCHEMAS),
        part::SORT_ORDERS => Some(capacities::SORT_ORDERS),
        part::STATISTICS | part::PARTITION_STATISTICS => Some(capacities::STATISTICS),
        part::PARTITION_SPECS => Some(capacities::PARTITION_SPECS),
        _ => None,
    }
}

// Where nothing differs the part is 0.
fn words_of_part(part: u8) -> &'static [u8] {
    match part {
        0 => b"the log leads there",
        part::FORMAT_VERSION => b"differs: version",
        part::TABLE_UUID => b"differs: uuid",
        part::LOCATION => b"differs: location",
        part::LAST_UPDATED => b"differs: last update",
        part::LAST_SEQUENCE_NUMBER => b"differs: last sequence number",
        part::NEXT_ROW_ID => b"differs: next row id",
        part::LAST_COLUMN_ID => b"differs: last column id",
        part::CURRENT_SNAPSHOT => b"differs: current snapshot",
        part::SNAPSHOTS => b"differs: snapshots",
        part::REFS => b"differs: refs",
        part::SNAPSHOT_LOG => b"differs: snapshot log",
        part::METADATA_LOG => b"differs: metadata log",
        part::SCHEMAS => b"differs: schemas",
        part::CURRENT_SCHEMA => b"differs: current schema id",
        part::SORT_ORDERS => b"differs: sort orders",
        part::DEFAULT_SORT_ORDER => b"differs: default sort order id",
        part::STATISTICS => b"differs: statistics",
        part::PARTITION_STATISTICS => b"differs: partition statistics",
        part::PARTITION_SPECS => b"differs: partition specs",
        part::DEFAULT_SPEC => b"differs: default partition spec id",
        part::LAST_PARTITION_ID => b"differs: last partition id",
        _ => b"",
    }
}

// A single field has no place. A table has a record's position, counted from 0 as places are, or its count.
fn words_of_place(difference: Difference) -> &'static [u8] {
    match slots_of(difference.part) {
        None => b"",
        Some(slots) if difference.place == slots => b", count",
        Some(_) => b", record %0",
    }
}

// Of a run that is accepted.
fn say_difference(output: &mut Output, difference: Difference) {
    say(output, words_of_part(difference.part));
    let place = counted(difference.place, 0);
    say_part(output, words_of_place(difference), 0, 0, place);
}

// whether the tolerance is not the usual one, the tolerance, whether the office is not the first, the office
fn terms_card(tolerance: i64, office: u8) -> Card {
    Card::of_numbers(
        [
            (tolerance != DEFAULT_TOLERANCE_MS) as i64,
            tolerance,
            (office != FIRST_OFFICE) as i64,
            office as i64,
            0,
            0,
            0,
            0,
        ],
        [0, 0],
    )
}

// A tolerance is said if it is not the usual one, an office if it is not the first.
pub fn say_judged(output: &mut Output, judged: Judged) {
    if judged.number != 0 {
        say_refusal(output, judged.number, judged.place, judged.fault);
    } else {
        say_difference(output, judged.difference);
    }
    let terms = b"?0{| (tolerance #1 ms)}?2{| (office #3)}\n";
    let card = terms_card(judged.tolerance_ms.0, judged.office);
    say_part(output, terms, 0, 0, card);
}
