// The files of a session: each is prepared, and where all are, each gets its name.
use crate::text::{Log, NAMES, ROOM, Sheet, put_expired, put_log, put_metadata};
use file_words::option::{Switch, has, read_behind};
use new_files::{Unmade, forget, place, prepare, say_outcome, take_back};
use plaintext::text::say;
use records::metadata::{MetadataLog, TableMetadata};
use records::update::UpdateList;
use slot_bounds::lent;
use std::rt::HostRuntime;
use tokens::output::Output;

// What became of each of the three files; nothing of one that nobody asked for.
#[derive(Clone, Copy)]
pub struct Session {
    pub log: Option<Sheet>,
    pub expired: Option<Sheet>,
    pub out: Option<Sheet>,
    pub is_json: bool,
}

impl Session {
    // Whether nothing went wrong with any of them.
    fn is_fine(&self) -> bool {
        is_fine(self.log) && is_fine(self.expired) && is_fine(self.out)
    }
}

// A text that is there, under a name.
fn prepare_text(rt: HostRuntime, name: &[u8], sheet: Sheet, slots: &[u8]) -> Sheet {
    let length = sheet?;
    let n = lent(slots, length);
    prepare(rt, name, &slots[..n])?;
    Ok(length)
}

// Metadata as a file that is to get this name.
pub fn prepare_metadata(rt: HostRuntime, name: &[u8], metadata: TableMetadata) -> Sheet {
    let mut slots = [0u8; ROOM];
    let sheet = put_metadata(metadata, &mut slots);
    prepare_text(rt, name, sheet, &slots)
}

// A list of updates, likewise.
fn prepare_list(rt: HostRuntime, name: &[u8], list: UpdateList, offers: &[u8]) -> Log {
    let mut slots = [0u8; ROOM];
    let mut log = put_log(list, offers, &mut slots);
    log.sheet = prepare_text(rt, name, log.sheet, &slots);
    log
}

fn prepare_names(rt: HostRuntime, name: &[u8], expired: MetadataLog) -> Sheet {
    let mut slots = [0u8; NAMES];
    let sheet = put_expired(expired, &mut slots);
    prepare_text(rt, name, sheet, &slots)
}

fn prepare_log(rt: HostRuntime, line: &[u8], changes: UpdateList, offers: &[u8]) -> Option<Log> {
    let mut name = io::buffer();
    if !has(rt, line, Switch::Log) {
        return None;
    }
    let len = read_behind(rt, line, Switch::Log, &mut name);
    Some(prepare_list(rt, &name[..len], changes, offers))
}

fn prepare_expired(rt: HostRuntime, line: &[u8], expired: MetadataLog) -> Option<Sheet> {
    let mut name = io::buffer();
    if !has(rt, line, Switch::Expired) {
        return None;
    }
    let len = read_behind(rt, line, Switch::Expired, &mut name);
    Some(prepare_names(rt, &name[..len], expired))
}

fn prepare_out(rt: HostRuntime, line: &[u8], metadata: TableMetadata) -> Option<Sheet> {
    let mut name = io::buffer();
    if !has(rt, line, Switch::Out) {
        return None;
    }
    let len = read_behind(rt, line, Switch::Out, &mut name);
    Some(prepare_metadata(rt, &name[..len], metadata))
}

// Whether nothing went wrong with a file.
fn is_fine(sheet: Option<Sheet>) -> bool {
    !matches!(sheet, Some(Err(_)))
}

// What is prepared gets its name, or is forgotten where it is not to.
fn place_behind_option(
    rt: HostRuntime,
    line: &[u8],
    option: Switch,
    sheet: Option<Sheet>,
    is_wanted: bool,
) -> Option<Sheet> {
    let mut name = io::buffer();
    let Some(Ok(length)) = sheet else {
        return sheet;
    };
    let len = read_behind(rt, line, option, &mut name);
    if !is_wanted {
        forget(rt, &name[..len]);
        return Some(Err(Unmade::Dropped));
    }
    Some(place(rt, &name[..len]).map(|_| length))
}

// What got its name loses it again.
fn take_back_behind(
    rt: HostRuntime,
    line: &[u8],
    option: Switch,
    sheet: Option<Sheet>,
) -> Option<Sheet> {
    let mut name = io::buffer();
    let Some(Ok(_)) = sheet else {
        return sheet;
    };
    let len = read_behind(rt, line, option, &mut name);
    take_back(rt, &name[..len]);
    Some(Err(Unmade::Dropped))
}

// The metadata comes last, so that where it is, all that belongs to it is.
fn place_all(rt: HostRuntime, line: &[u8], mut session: Session) -> Session {
    session.log = place_behind_option(rt, line, Switch::Log, session.log, session.is_fine());
    session.expired = place_behind_option(
        rt,
        line,
        Switch::Expired,
        session.expired,
        session.is_fine(),
    );
    session.out = place_behind_option(rt, line, Switch::Out, session.out, session.is_fine());
    session
}

fn take_back_all(rt: HostRuntime, line: &[u8], mut session: Session) -> Session {
    if session.is_fine() {
        return session;
    }
    session.log = take_back_behind(rt, line, Switch::Log, session.log);
    session.expired = take_back_behind(rt, line, Switch::Expired, session.expired);
    session.out = take_back_behind(rt, line, Switch::Out, session.out);
    session
}

fn say_behind(
    rt: HostRuntime,
    output: &mut Output,
    line: &[u8],
    option: Switch,
    sheet: Option<Sheet>,
) {
    let mut name = io::buffer();
    if let Some(made) = sheet {
        let len = read_behind(rt, line, option, &mut name);
        say_outcome(output, &name[..len], made);
    }
}

fn say_session(rt: HostRuntime, output: &mut Output, line: &[u8], session: Session) {
    if !session.is_json && matches!(session.log, Some(Ok(_))) {
        say(
            output,
            b"a list as JSON has neither statistics files nor texts that are not UTF-8: the log is written in the case format\n",
        );
    }
    say_behind(rt, output, line, Switch::Log, session.log);
    say_behind(rt, output, line, Switch::Expired, session.expired);
    say_behind(rt, output, line, Switch::Out, session.out);
}

// The files that a session asks for, and a line for each.
pub fn write_session(
    rt: HostRuntime,
    line: &[u8],
    metadata: TableMetadata,
    changes: UpdateList,
    expired: MetadataLog,
    offers: &[u8],
    output: &mut Output,
) {
    let log = prepare_log(rt, line, changes, offers);
    let names = prepare_expired(rt, line, expired);
    let out = prepare_out(rt, line, metadata);
    let prepared = Session {
        log: log.map(|log| log.sheet),
        expired: names,
        out,
        is_json: log.map_or(true, |log| log.is_json),
    };
    let placed = place_all(rt, line, prepared);
    let session = take_back_all(rt, line, placed);
    say_session(rt, output, line, session);
}

// A list of updates alone, as an expiry makes it: it offers nothing.
pub fn write_list(rt: HostRuntime, name: &[u8], list: UpdateList, output: &mut Output) {
    let log = prepare_list(rt, name, list, b"");
    write_prepared(rt, name, log.sheet, output);
}

// What is prepared alone.
pub fn write_prepared(rt: HostRuntime, name: &[u8], sheet: Sheet, output: &mut Output) {
    let made = sheet.and_then(|length| place(rt, name).map(|_| length));
    say_outcome(output, name, made);
}
