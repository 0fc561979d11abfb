// Statistics files, of either table.
use crate::text::read_text;
use records::capacities::STATISTICS;
use records::counters::{FileSize, SnapshotId};
use records::statistics::{StatisticsFile, StatisticsFiles};
use tokens::field::{read_count, read_i64};
use tokens::input::Input;

pub fn read_statistics_file(input: &mut Input) -> StatisticsFile {
    let snapshot_id = read_i64(input);
    let statistics_path = read_text(input);
    let file_size_in_bytes = read_i64(input);
    StatisticsFile {
        snapshot_id: SnapshotId(snapshot_id),
        statistics_path,
        file_size_in_bytes: FileSize(file_size_in_bytes),
    }
}

pub fn read_statistics(input: &mut Input) -> StatisticsFiles {
    let mut table = StatisticsFiles::blank();
    let count = read_count(input);
    for i in 0..count {
        if !input.is_good() {
            break;
        }
        let file = read_statistics_file(input);
        if i < STATISTICS {
            table.items[i] = file;
        }
    }
    table.count = count;
    table
}
