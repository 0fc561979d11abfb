// Ids in their order, and looked for among the ids of the table or in a removal's list.
ghost use Rattle.std.specs.Prelude.{◌≡◌, ◌<◌, true, [], ◌∷◌, ◌++◌};
ghost use Rattle.std.specs.Int.Signed.{lt_z};
ghost use Rattle.rules.specs.Words.{ascending, is_in};
ghost use Rattle.rules.specs.Layout.{read_snapshot_ids, laid_snapshot_ids, read_schema_ids, laid_schema_ids, read_spec_ids, laid_spec_ids};
ghost use Rattle.tables.specs.Laid.{LaidSnapshotIds, LaidSchemaIds, LaidSpecIds};

use crate::keys::{schema_key, snapshot_key, spec_key};
use crate::runs::holds_key;
use records::counters::{SchemaId, SnapshotId, SpecId};
use records::partition::SpecIds;
use records::schema::SchemaIds;
use records::snapshot::SnapshotIds;
use search::position_ascending;

pub fn snapshot_below(a: SnapshotId, b: SnapshotId) -> bool
    ensures { result ≡ lt_z a.0 b.0 }
{
    a < b
}

// Among the ids of the table of snapshots, which ascend.
pub fn is_held(ids: &[i64], id: SnapshotId) -> bool
    requires { ascending lt_z ids.now ≡ true }
    ensures { result ≡ is_in ids.now id.0 }
{
    position_ascending(ids, id.0) < ids.len()
}

pub fn has_snapshot(ids: SnapshotIds, id: SnapshotId) -> bool
    requires { LaidSnapshotIds ids }
    ensures { result ≡ is_in (read_snapshot_ids ids) id.0 }
{
    holds_key(&ids.items[..ids.count], snapshot_key(id))
}

pub fn has_schema(ids: SchemaIds, id: SchemaId) -> bool
    requires { LaidSchemaIds ids }
    ensures { result ≡ is_in (read_schema_ids ids) id.0 }
{
    holds_key(&ids.items[..ids.count], schema_key(id))
}

pub fn has_spec(ids: SpecIds, id: SpecId) -> bool
    requires { LaidSpecIds ids }
    ensures { result ≡ is_in (read_spec_ids ids) id.0 }
{
    holds_key(&ids.items[..ids.count], spec_key(id))
}

// One id more.
pub fn push_snapshot(ids: SnapshotIds, id: SnapshotId) -> SnapshotIds
    requires laid_snapshot_ids { LaidSnapshotIds ids }
    requires count_bound { ids.count < 16 }
    ensures { result ≡ laid_snapshot_ids (read_snapshot_ids ids ++ (id.0 ∷ [])) }
{
    let mut longer = ids;
    longer.items[ids.count] = id;
    longer.count += 1;
    longer
}

pub fn push_schema(ids: SchemaIds, id: SchemaId) -> SchemaIds
    requires laid_schema_ids { LaidSchemaIds ids }
    requires count_bound { ids.count < 16 }
    ensures { result ≡ laid_schema_ids (read_schema_ids ids ++ (id.0 ∷ [])) }
{
    let mut longer = ids;
    longer.items[ids.count] = id;
    longer.count += 1;
    longer
}

pub fn push_spec(ids: SpecIds, id: SpecId) -> SpecIds
    requires laid_spec_ids { LaidSpecIds ids }
    requires count_bound { ids.count < 16 }
    ensures { result ≡ laid_spec_ids (read_spec_ids ids ++ (id.0 ∷ [])) }
{
    let mut longer = ids;
    longer.items[ids.count] = id;
    longer.count += 1;
    longer
}
