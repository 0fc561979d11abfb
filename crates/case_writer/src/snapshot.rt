// An entry of the snapshot log.
use crate::layout::put_card;
use cards::record::log_entry;
use records::snapshot::SnapshotLogEntry;
use tokens::output::Output;

pub fn put_log_entry(output: &mut Output, entry: SnapshotLogEntry) {
    put_card(output, b"ab", 0, log_entry(entry));
}
