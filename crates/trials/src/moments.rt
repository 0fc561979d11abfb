// Case 8: which snapshot was current at a time.
use case_reader::snapshot::read_snapshot_log;
use case_writer::snapshot::put_log_entry;
use moment::Moment;
use records::counters::Time;
use tokens::field::read_i64;
use tokens::input::Input;
use tokens::number::{put_count, put_flag, put_u8};
use tokens::output::Output;

fn put_moment(output: &mut Output, moment: Moment) {
    put_u8(output, moment.number);
    put_flag(output, moment.found);
    put_log_entry(output, moment.entry);
    put_count(output, moment.read);
}

pub fn current_at(input: &mut Input, output: &mut Output) {
    let log = read_snapshot_log(input);
    let time = Time(read_i64(input));
    if input.is_good() {
        put_moment(output, moment::current_at(log, time));
    }
}
