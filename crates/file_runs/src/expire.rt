// expire FILE --clock TIME ..: what goes and what stays of a metadata file, and the list for it.
use case_reader::more::Given;
use expiries::asked::{Asked, terms_of};
use expiries::told::{find, say_outcome, tell};
use expiry::expiring_updates;
use expiry::policy::Policy;
use file_commands::asked::{are_words, is_there, read_terms};
use file_commands::read::read_metadata_at;
use file_sheets::session::write_list;
use file_words::Command;
use file_words::option::{Switch, has, read_behind, say_no_value};
use file_words::terms::number_behind;
use json_store::numbers::{Whole, narrowed};
use plaintext::text::say;
use records::counters::{Age, MinSnapshots};
use records::metadata::TableMetadata;
use records::run::RunTerms;
use records::update::UpdateList;
use report::answer::fault_of;
use std::rt::HostRuntime;
use tokens::input::Input;
use tokens::output::Output;

// Where nothing is said: one snapshot, five days, and refs for ever, as the public document has them.
const ONE_SNAPSHOT: i64 = 1;

const FIVE_DAYS_MS: i64 = 432000000;

const FOR_EVER_MS: i64 = i64::MAX;

// What is kept where a branch or a ref says nothing.
#[derive(Clone, Copy)]
struct Kept {
    snapshots: i64,
    age_ms: i64,
    ref_age_ms: i64,
}

// The number behind an option; the option where its value is none.
fn number_of(rt: HostRuntime, line: &[u8], option: Switch, other: i64) -> Result<i64, Switch> {
    number_behind(rt, line, option, other).ok_or(option)
}

// Or the first of the three options whose value is no number.
fn kept_by(rt: HostRuntime, line: &[u8]) -> Result<Kept, Switch> {
    let snapshots = number_of(rt, line, Switch::MinSnapshots, ONE_SNAPSHOT)?;
    let age_ms = number_of(rt, line, Switch::MaxSnapshotAge, FIVE_DAYS_MS)?;
    let ref_age_ms = number_of(rt, line, Switch::MaxRefAge, FOR_EVER_MS)?;
    Ok(Kept {
        snapshots,
        age_ms,
        ref_age_ms,
    })
}

// A count that does not fit its field is 0, which the expiry refuses.
fn policy_of(kept: Kept, terms: RunTerms) -> Policy {
    Policy {
        clock_ms: terms.clock_ms,
        min_snapshots: MinSnapshots(narrowed(Whole(kept.snapshots)).0),
        max_snapshot_age_ms: Age(kept.age_ms),
        max_ref_age_ms: Age(kept.ref_age_ms),
        office: terms.office,
    }
}

// What the run of the list answers.
#[derive(Clone, Copy)]
struct Outcome {
    number: u8,
    place: usize,
}

fn outcome_of(m: TableMetadata, us: UpdateList, terms: RunTerms) -> Outcome {
    let answer = register::run(m, us, terms, b"", b"");
    Outcome {
        number: answer.number,
        place: answer.place,
    }
}

fn write_out(rt: HostRuntime, line: &[u8], list: UpdateList, output: &mut Output) {
    let mut name = io::buffer();
    let len = read_behind(rt, line, Switch::Out, &mut name);
    write_list(rt, &name[..len], list, output);
}

// The list is written where that is asked for. Whether there is one.
fn say_expired(
    rt: HostRuntime,
    line: &[u8],
    is_written: bool,
    metadata: TableMetadata,
    policy: Policy,
    output: &mut Output,
) -> bool {
    let terms = terms_of(policy);
    let expiry = expiring_updates(metadata, policy);
    let fault = fault_of(expiry.number, metadata, terms);
    let found = find(metadata, policy, expiry.number, fault);
    let given = Given::none();
    let asked = Asked {
        metadata,
        policy,
        given,
    };
    tell(output, 1, 1, asked, expiry, found);
    if expiry.number == 0 {
        let run = outcome_of(metadata, expiry.updates, terms);
        say_outcome(output, run.number, run.place);
        if is_written {
            write_out(rt, line, expiry.updates, output);
        }
    }
    expiry.number == 0
}

// What the words ask, where they are those of the command.
fn read_kept(rt: HostRuntime, line: &[u8], output: &mut Output) -> Option<Kept> {
    if !are_words(rt, line, Command::Expire, 1, 1, output) {
        return None;
    }
    match kept_by(rt, line) {
        Ok(kept) if is_there(rt, line, Switch::Clock, output) => Some(kept),
        Ok(_) => None,
        Err(option) => {
            say_no_value(rt, output, line, option);
            None
        }
    }
}

pub fn expire(rt: HostRuntime, line: &[u8], input: &mut Input, output: &mut Output) {
    let Some(kept) = read_kept(rt, line, output) else {
        return;
    };
    let Some(asked) = read_terms(rt, line, output) else {
        return;
    };
    let held = read_metadata_at(rt, line, 0, input, output);
    if held.number != 0 {
        return;
    }
    let policy = policy_of(kept, asked.terms);
    if has(rt, line, Switch::Out) {
        let is_made = say_expired(rt, line, true, held.metadata, policy, output);
        if !is_made {
            say(output, b"no file is written\n");
        }
    } else {
        say_expired(rt, line, false, held.metadata, policy, output);
    }
}
