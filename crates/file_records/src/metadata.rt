// The whole metadata.
ghost use Rattle.std.specs.Prelude.{◌≡◌};
ghost use Rattle.rules.specs.Layout.{laid_metadata};
ghost use Rattle.file_records.specs.Decoded.{metadata_in};

use crate::fields::fields_of;
use crate::offsets::{PARTITION_STATISTICS, STATISTICS};
use crate::refs::refs;
use crate::table;
use crate::value::Cells;
use records::metadata::TableMetadata;

// What a file of a version holds, of which the cells are filled.
pub fn metadata_of(version: usize, bytes: &[u8], cells: &Cells) -> TableMetadata
    ensures { result ≡ laid_metadata (metadata_in bytes.now cells.now version) }
{
    let fields = fields_of(version, bytes, cells);
    let snapshots = table::snapshots(bytes, cells);
    let refs = refs(bytes, cells);
    let snapshot_log = table::snapshot_log(bytes, cells);
    let metadata_log = table::metadata_log(bytes, cells);
    let schemas = table::schemas(version, bytes, cells);
    let sort_orders = table::sort_orders(bytes, cells);
    let statistics = table::statistics(bytes, cells, STATISTICS);
    let partition_statistics = table::statistics(bytes, cells, PARTITION_STATISTICS);
    let partition_specs = table::partition_specs(version, bytes, cells);
    TableMetadata {
        fields,
        snapshots,
        refs,
        snapshot_log,
        metadata_log,
        schemas,
        sort_orders,
        statistics,
        partition_statistics,
        partition_specs,
    }
}
