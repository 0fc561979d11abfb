// Statistics files: the path and the size of the file that belongs to a snapshot. Statistics and partition statistics have a table each, of this one type.
ghost use Rattle.std.specs.Prelude.{◌≡◌};
ghost use Rattle.records.specs.Blanks.{no_statistics_file, no_statistics_files};

use crate::capacities::STATISTICS;
use crate::counters::{FileSize, SnapshotId};
use crate::text::Text;

#[derive(Clone, Copy, PartialEq, Eq)]
pub struct StatisticsFile {
    pub snapshot_id: SnapshotId,
    pub statistics_path: Text,
    pub file_size_in_bytes: FileSize,
}

// Ascending by snapshot id.
#[derive(Clone, Copy, PartialEq, Eq)]
pub struct StatisticsFiles {
    pub items: [StatisticsFile; STATISTICS],
    pub count: usize,
}

impl StatisticsFile {
    pub fn blank() -> StatisticsFile
        ensures { result ≡ no_statistics_file }
    {
        let statistics_path = Text::blank();
        StatisticsFile {
            snapshot_id: SnapshotId(0),
            statistics_path,
            file_size_in_bytes: FileSize(0),
        }
    }
}

impl StatisticsFiles {
    pub fn blank() -> StatisticsFiles
        ensures { result ≡ no_statistics_files }
    {
        let none = StatisticsFile::blank();
        let items = [none; STATISTICS];
        StatisticsFiles { items, count: 0 }
    }
}
