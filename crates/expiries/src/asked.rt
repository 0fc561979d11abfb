// What an expiry is given, as a case of kind 12 has it: metadata, a clock reading, three defaults, and behind them what a run may be given more.
use case_reader::case::read_case;
use case_reader::metadata::read_metadata;
use case_reader::more::{Given, OFFICE, TOLERANCE, read_tag};
use case_reader::run::read_given;
use expiry::policy::Policy;
use records::counters::{Age, MinSnapshots, Time};
use records::metadata::TableMetadata;
use records::run::{DEFAULT_TOLERANCE_MS, FIRST_OFFICE, RunTerms};
use records::text::Text;
use tokens::field::{read_count, read_i32, read_i64, read_u8};
use tokens::input::Input;
use tokens::wanted::Wanted;

#[derive(Clone, Copy)]
pub struct Asked {
    pub metadata: TableMetadata,
    pub policy: Policy,
    pub given: Given,
}

// The kind of an expiry among the cases.
pub const EXPIRY: u64 = 12;

// The kind of the next expiry; 0 at the end of the input, between expiries. An input has an expiry.
pub fn read_first_of_expiry(input: &mut Input) -> u64 {
    let first = read_case(input, Wanted::Expiry, EXPIRY);
    if first == EXPIRY {
        return first;
    }
    if first != 0 || input.is_first() {
        input.spoil(Wanted::Expiry);
    }
    0
}

// The clock and the defaults. The office comes behind them, and is the first here.
fn read_policy(input: &mut Input) -> Policy {
    Policy {
        clock_ms: Time(read_i64(input)),
        min_snapshots: MinSnapshots(read_i32(input)),
        max_snapshot_age_ms: Age(read_i64(input)),
        max_ref_age_ms: Age(read_i64(input)),
        office: FIRST_OFFICE,
    }
}

// The office with what this tag gives. A tolerance is read, and nothing looks at it: neither an expiry nor a run that adds no snapshot.
fn read_office(tag: u64, office: u8, input: &mut Input) -> u8 {
    match tag {
        TOLERANCE => {
            read_i64(input);
            office
        }
        OFFICE => read_u8(input),
        _ => office,
    }
}

// What stands behind the kind.
pub fn read_asked(input: &mut Input) -> Asked {
    let mut metadata = read_metadata(input);
    let mut policy = read_policy(input);
    let count = read_count(input);
    let mut given = Given::none();
    let mut office = FIRST_OFFICE;
    let mut last: u64 = 0;
    for _ in 0..count {
        if !input.is_good() {
            break;
        }
        last = read_tag(last, input);
        given = given.with(last);
        office = read_office(last, office, input);
        metadata = read_given(Given::none().with(last), metadata, input);
    }
    policy.office = office;
    Asked {
        metadata,
        policy,
        given,
    }
}

// The terms of a run of the list: the same clock and office, no file name, the usual tolerance.
pub fn terms_of(policy: Policy) -> RunTerms {
    RunTerms {
        clock_ms: policy.clock_ms,
        tolerance_ms: Age(DEFAULT_TOLERANCE_MS),
        has_file: false,
        file: Text::blank(),
        office: policy.office,
    }
}
