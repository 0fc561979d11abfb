// The question of a replay and of an audit: two metadata, a stored log and the terms of its run.
use case_reader::limit_text::LimitText;
use file_commands::read::{read_list_at, read_metadata_at};
use file_words::option::{Switch, has};
use file_words::terms::Asked;
use named_files::metadata::Held;
use records::capacities::{METADATA_LOG, OFFERS};
use records::counters::Time;
use records::metadata::{MetadataLog, MetadataLogEntry, TableMetadata};
use records::run::RunTerms;
use records::update::UpdateList;
use report::answer::fault_of;
use report::judged::Judged;
use slot_bounds::lent;
use std::rt::HostRuntime;
use tokens::input::Input;
use tokens::output::Output;
use verdict::Verdict;

// The files, by their places among the words.
const LAST: usize = 0;

const LOG: usize = 1;

const THIS: usize = 2;

// What is found: the verdict, the terms that were asked with, and how many members of each metadata file are not held.
#[derive(Clone, Copy)]
pub struct Found {
    pub judged: Judged,
    pub terms: RunTerms,
    pub skipped: usize,
    pub skipped_then: usize,
}

// The last entry of a metadata log; a blank one where there is none.
fn last_entry(log: MetadataLog) -> MetadataLogEntry {
    if 0 < log.count && log.count <= METADATA_LOG {
        return log.items[log.count - 1];
    }
    MetadataLogEntry::blank()
}

// What is not given as words is read off this session's metadata: the clock is its last update; and where the last entry of its metadata log has the time of
// last session's last update, that is the file which was current.
fn with_read_off(
    rt: HostRuntime,
    line: &[u8],
    mut terms: RunTerms,
    start: Time,
    last_update: Time,
    log: MetadataLog,
) -> RunTerms {
    let entry = last_entry(log);
    if !has(rt, line, Switch::Clock) {
        terms.clock_ms = last_update;
    }
    if !has(rt, line, Switch::File) && log.count > 0 && entry.timestamp_ms.0 == start.0 {
        terms.has_file = true;
        terms.file = entry.metadata_file;
    }
    terms
}

fn judge(
    text: LimitText,
    m: TableMetadata,
    us: UpdateList,
    terms: RunTerms,
    offers: &[u8],
    ending: TableMetadata,
) -> Verdict {
    let bytes = text.bytes;
    let slots: &[u8] = &bytes;
    let len = lent(slots, text.len);
    verdict::judge(m, us, terms, &slots[..len], offers, ending)
}

fn judged_of(verdict: Verdict, fault: u8, terms: RunTerms) -> Judged {
    Judged {
        number: verdict.number,
        place: verdict.place,
        fault,
        difference: verdict.difference,
        tolerance_ms: terms.tolerance_ms,
        office: terms.office,
    }
}

// Nothing where one of the three files could not be read. They are read and judged in one place, and not handed on, so that less stack is needed.
pub fn find(
    rt: HostRuntime,
    line: &[u8],
    asked: Asked,
    offers: &mut [u8; OFFERS],
    input: &mut Input,
    output: &mut Output,
) -> Option<Found> {
    let start: Held = read_metadata_at(rt, line, LAST, input, output);
    if start.number != 0 {
        return None;
    }
    let ending: Held = read_metadata_at(rt, line, THIS, input, output);
    if ending.number != 0 {
        return None;
    }
    let listed = read_list_at(rt, line, LOG, offers, input, output);
    if listed.number != 0 {
        return None;
    }
    let slots: &[u8] = offers;
    let terms = with_read_off(
        rt,
        line,
        asked.terms,
        start.metadata.fields.last_updated_ms,
        ending.metadata.fields.last_updated_ms,
        ending.metadata.metadata_log,
    );
    let verdict = judge(
        asked.limit,
        start.metadata,
        listed.list,
        terms,
        slots,
        ending.metadata,
    );
    let fault = fault_of(verdict.number, start.metadata, terms);
    Some(Found {
        judged: judged_of(verdict, fault, terms),
        terms,
        skipped: start.skipped,
        skipped_then: ending.skipped,
    })
}
