// What a run is given.
use crate::case::read_case;
use crate::limit_text::{LimitText, read_limit_text};
use crate::metadata::{read_metadata, read_metadata_of};
use crate::more::{Given, OFFICE, TOLERANCE, read_tag};
use crate::partition::{read_spec_fields, read_specs};
use crate::reference::read_owners;
use crate::schema::read_schemas;
use crate::statistics::read_statistics;
use crate::text::read_text;
use crate::update::read_updates;
use records::counters::{Age, Time};
use records::metadata::TableMetadata;
use records::run::{DEFAULT_TOLERANCE_MS, FIRST_OFFICE, RunTerms};
use records::text::Text;
use records::update::UpdateList;
use tokens::field::{read_count, read_flag, read_i64, read_u8};
use tokens::input::Input;
use tokens::wanted::Wanted;

// The text comes first: the checker looks for its length there, and not behind all of the metadata.
#[derive(Clone, Copy)]
pub struct Run {
    pub limit: LimitText,
    pub metadata: TableMetadata,
    pub terms: RunTerms,
    pub updates: UpdateList,
    pub given: Given,
}

// The kinds of a run case: as it is, and with more after its updates.
pub const RUN: u64 = 1;

pub const RUN_GIVEN_MORE: u64 = 9;

// A run of kind 1 may be written without its kind: it starts with the version of its metadata then, if that is one of these. A 1 is always
// the kind.
const VERSION_2: u64 = 2;

const VERSION_3: u64 = 3;

fn is_first_of_run(first: u64) -> bool {
    first == RUN || first == VERSION_2 || first == VERSION_3 || first == RUN_GIVEN_MORE
}

// The first number of the next run; 0 at the end of the input, between runs. An input has a run.
pub fn read_first_of_run(input: &mut Input) -> u64 {
    let first = read_case(input, Wanted::Run(RUN_GIVEN_MORE), RUN_GIVEN_MORE);
    if is_first_of_run(first) {
        return first;
    }
    if first != 0 || input.is_first() {
        input.spoil(Wanted::Run(RUN_GIVEN_MORE));
    }
    0
}

// The clock, a flag, and the file's name if it is set. The tolerance and the office come after the updates, and are the usual ones here.
fn read_terms(input: &mut Input) -> RunTerms {
    let clock_ms = Time(read_i64(input));
    let has_file = read_flag(input);
    let mut file = Text::blank();
    if has_file {
        file = read_text(input);
    }
    RunTerms {
        clock_ms,
        tolerance_ms: Age(DEFAULT_TOLERANCE_MS),
        has_file,
        file,
        office: FIRST_OFFICE,
    }
}

fn read_tolerance(input: &mut Input) -> Age {
    Age(read_i64(input))
}

// The terms with what this tag gives; other tags leave them.
fn read_given_terms(tag: u64, mut terms: RunTerms, input: &mut Input) -> RunTerms {
    match tag {
        TOLERANCE => terms.tolerance_ms = read_tolerance(input),
        OFFICE => terms.office = read_u8(input),
        _ => {}
    }
    terms
}

// Metadata with the tables that are given, which stand in the place of what it has, and with owners if they are.
pub fn read_given(given: Given, mut metadata: TableMetadata, input: &mut Input) -> TableMetadata {
    if given.statistics {
        metadata.statistics = read_statistics(input);
    }
    if given.partition_statistics {
        metadata.partition_statistics = read_statistics(input);
    }
    if given.schemas {
        metadata.schemas = read_schemas(true, input);
    }
    if given.partition_specs {
        metadata.partition_specs = read_specs(input);
        metadata.fields = read_spec_fields(metadata.fields, input);
    }
    if given.owners {
        metadata.refs = read_owners(metadata.refs, input);
    }
    metadata
}

// How many tags a run has after its updates.
fn read_count_of_tags(first: u64, input: &mut Input) -> usize {
    if first == RUN_GIVEN_MORE {
        return read_count(input);
    }
    0
}

fn read_version(first: u64, input: &mut Input) -> u8 {
    match first {
        VERSION_2 => 2,
        VERSION_3 => 3,
        _ => read_u8(input),
    }
}

// The run that starts with this number, which is read already. What its updates offer is put among the offers. What is given after them stands in
// place of what the metadata has; an unknown tag has no value.
pub fn read_run(first: u64, input: &mut Input, offers: &mut [u8]) -> Run {
    let version = read_version(first, input);
    let mut metadata = read_metadata_of(version, input);
    let mut terms = read_terms(input);
    let limit = read_limit_text(input);
    let updates = read_updates(input, offers);
    let count = read_count_of_tags(first, input);
    let mut given = Given::none();
    let mut last: u64 = 0;
    for _ in 0..count {
        if !input.is_good() {
            break;
        }
        last = read_tag(last, input);
        given = given.with(last);
        terms = read_given_terms(last, terms, input);
        metadata = read_given(Given::none().with(last), metadata, input);
    }
    Run {
        metadata,
        terms,
        limit,
        updates,
        given,
    }
}

// The metadata that a run is to lead to, as an answer has it: with each table that the run was given, and with owners if it was.
pub fn read_ending(given: Given, input: &mut Input) -> TableMetadata {
    let ending = read_metadata(input);
    read_given(given, ending, input)
}
