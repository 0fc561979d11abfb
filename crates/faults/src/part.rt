// A part of metadata by itself.
ghost use Rattle.std.specs.Prelude.{◌≡◌, not, ◌&&◌, [], ◌∷◌, ◌+◌, ◌≤◌, leb, length, map};
ghost use Rattle.rules.specs.Words.{all, first_of};
ghost use Rattle.rules.specs.Capacities.{ref_room};
ghost use Rattle.rules.specs.WellFormed.{owner_formed};
ghost use Rattle.rules.specs.Layout.{read_ref, read_refs};
ghost use Rattle.faults.specs.Faults.{field_faults, snapshot_faults, ref_faults, snapshot_log_faults, metadata_log_faults, schema_faults, order_faults, spec_faults, statistics_faults};

use crate::fault;
use crate::pick::unless;
use formed::blanks::text_fits;
use formed::bounds::{last_partition_formed, sequence_formed};
use formed::metadata::refs_formed;
use formed::record::owner_formed;
use formed::slots::{
    metadata_log_formed, order_keys, refs_filled, schema_keys, snapshot_keys, snapshot_log_formed,
    spec_keys, statistics_keys,
};
use records::capacities;
use records::counters::SnapshotId;
use records::metadata::{MetadataLog, SingleFields};
use records::partition::PartitionSpecs;
use records::reference::{NamedRef, Refs};
use records::schema::Schemas;
use records::snapshot::{SnapshotLog, Snapshots};
use records::sort_order::SortOrders;
use records::statistics::StatisticsFiles;

pub fn fields_fault(f: SingleFields) -> u8
    ensures { result ≡ first_of (field_faults f) }
{
    let from_partition = unless(
        last_partition_formed(f.last_partition_id),
        fault::LAST_PARTITION_ID,
        fault::NONE,
    );
    let from_current = unless(
        f.has_current | (f.current_snapshot_id == SnapshotId(0)),
        fault::CURRENT_SNAPSHOT,
        from_partition,
    );
    let from_sequence = unless(
        sequence_formed(f.last_sequence_number),
        fault::LAST_SEQUENCE_NUMBER,
        from_current,
    );
    let from_location = unless(
        text_fits(true, f.location) & (f.location.len <= capacities::TEXT),
        fault::LOCATION,
        from_sequence,
    );
    unless(
        (1 <= f.format_version) & (f.format_version <= 3),
        fault::FORMAT_VERSION,
        from_location,
    )
}

fn log_fault(first: u8, fits: bool, filled: bool) -> u8
    requires { first ≤ 14 }
    ensures { result ≡ first_of ((not fits, first) ∷ (not filled, first + 1) ∷ []) }
{
    unless(fits, first, unless(filled, first + 1, fault::NONE))
}

fn table_fault(first: u8, fits: bool, filled: bool, ascends: bool) -> u8
    requires { first ≤ 28 }
    ensures { result ≡ first_of ((not fits, first) ∷ (not filled, first + 1) ∷ (not ascends, first + 2) ∷ []) }
{
    let from_order = unless(ascends, first + 2, fault::NONE);
    unless(fits, first, unless(filled, first + 1, from_order))
}

// A table that has room and whose slots passed is well formed exactly if its keys ascend.
pub fn snapshots_fault(t: Snapshots) -> u8
    ensures { result ≡ first_of (snapshot_faults t) }
{
    let k = snapshot_keys(t);
    table_fault(
        fault::SNAPSHOTS,
        t.count <= capacities::SNAPSHOTS,
        k.filled,
        k.formed,
    )
}

fn all_owned(refs: &[NamedRef]) -> bool
    ensures { result ≡ all owner_formed (map read_ref refs.now) }
{
    for held in refs {
        if !owner_formed(held.name, held.owner) {
            return false;
        }
    }
    true
}

// Each ref belongs to an office, and `main` to the first. A table that counts more than it has room for is not asked.
#[tactic(auto, using(crate::proofs::Picked::found))]
fn owners_formed(t: Refs) -> bool
    ensures { result ≡ not (leb (length (read_refs t)) ref_room && not (all owner_formed (read_refs t))) }
{
    t.count > capacities::REFS || all_owned(&t.items[..t.count])
}

pub fn refs_fault(t: Refs) -> u8
    ensures { result ≡ first_of (ref_faults t) }
{
    let from_table = table_fault(
        fault::REFS,
        t.count <= capacities::REFS,
        refs_filled(t),
        refs_formed(t),
    );
    unless(owners_formed(t), fault::REF_OWNER, from_table)
}

pub fn snapshot_log_fault(t: SnapshotLog) -> u8
    ensures { result ≡ first_of (snapshot_log_faults t) }
{
    log_fault(
        fault::SNAPSHOT_LOG,
        t.count <= capacities::SNAPSHOT_LOG,
        snapshot_log_formed(t),
    )
}

pub fn metadata_log_fault(t: MetadataLog) -> u8
    ensures { result ≡ first_of (metadata_log_faults t) }
{
    log_fault(
        fault::METADATA_LOG,
        t.count <= capacities::METADATA_LOG,
        metadata_log_formed(t),
    )
}

pub fn schemas_fault(t: Schemas) -> u8
    ensures { result ≡ first_of (schema_faults t) }
{
    let k = schema_keys(t);
    table_fault(
        fault::SCHEMAS,
        t.count <= capacities::SCHEMAS,
        k.filled,
        k.formed,
    )
}

pub fn orders_fault(t: SortOrders) -> u8
    ensures { result ≡ first_of (order_faults t) }
{
    let k = order_keys(t);
    table_fault(
        fault::SORT_ORDERS,
        t.count <= capacities::SORT_ORDERS,
        k.filled,
        k.formed,
    )
}

pub fn statistics_fault(first: u8, t: StatisticsFiles) -> u8
    requires { first ≤ 25 }
    ensures { result ≡ first_of (statistics_faults first t) }
{
    let k = statistics_keys(t);
    table_fault(first, t.count <= capacities::STATISTICS, k.filled, k.formed)
}

pub fn specs_fault(t: PartitionSpecs) -> u8
    ensures { result ≡ first_of (spec_faults t) }
{
    let k = spec_keys(t);
    table_fault(
        fault::PARTITION_SPECS,
        t.count <= capacities::PARTITION_SPECS,
        k.filled,
        k.formed,
    )
}
