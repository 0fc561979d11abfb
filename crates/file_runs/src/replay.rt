// replay LAST LOG THIS ..: whether a stored log leads from last session's file to this session's.
use crate::question::find;
use file_commands::asked::{are_words, read_terms};
use file_words::Command;
use file_words::terms::Asked;
use records::capacities::OFFERS;
use report::judged::say_judged;
use std::rt::HostRuntime;
use tokens::input::Input;
use tokens::output::Output;

fn say_found(
    rt: HostRuntime,
    line: &[u8],
    asked: Asked,
    offers: &mut [u8; OFFERS],
    input: &mut Input,
    output: &mut Output,
) {
    if let Some(found) = find(rt, line, asked, offers, input, output) {
        say_judged(output, found.judged);
    }
}

pub fn replay(
    rt: HostRuntime,
    line: &[u8],
    offers: &mut [u8; OFFERS],
    input: &mut Input,
    output: &mut Output,
) {
    if are_words(rt, line, Command::Replay, 3, 3, output) {
        if let Some(asked) = read_terms(rt, line, output) {
            say_found(rt, line, asked, offers, input, output);
        }
    }
}
