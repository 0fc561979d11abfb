// Ids of each table as keys, and back.
ghost use Rattle.std.specs.Prelude.{◌≡◌, negsuc};
ghost use Rattle.std.specs.Int.{w32};
ghost use Rattle.std.proofs.Common.{SFits};
ghost use Rattle.rules.specs.Words.{or_else};
ghost use Rattle.rules.specs.Layout.{read_snapshot};

use records::counters::{FieldId, SchemaId, SnapshotId, SortOrderId, SpecId};
use records::snapshot::Snapshot;
use search::Key;

pub fn snapshot_key(id: SnapshotId) -> Key
    ensures { result.0 ≡ id.0 }
{
    Key(id.0)
}

// -1 where there is no parent.
pub fn parent_key(s: Snapshot) -> Key
    ensures { result.0 ≡ or_else (read_snapshot s).parent (negsuc 0) }
{
    if s.has_parent {
        return snapshot_key(s.parent_snapshot_id);
    }
    Key(-1)
}

pub fn order_key(id: SortOrderId) -> Key
    ensures { result.0 ≡ id.0 }
{
    Key(id.0)
}

pub fn order_id(key: Key) -> SortOrderId
    ensures { result.0 ≡ key.0 }
{
    SortOrderId(key.0)
}

pub fn schema_key(id: SchemaId) -> Key
    ensures result_value { result.0 ≡ id.0 }
    ensures sfits { SFits w32 result.0 }
{
    Key(i64::from(id.0))
}

pub fn schema_id(key: Key) -> SchemaId
    requires { SFits w32 key.0 }
    ensures { result.0 ≡ key.0 }
{
    SchemaId(key.0 as i32)
}

pub fn spec_key(id: SpecId) -> Key
    ensures result_value { result.0 ≡ id.0 }
    ensures sfits { SFits w32 result.0 }
{
    Key(i64::from(id.0))
}

pub fn spec_id(key: Key) -> SpecId
    requires { SFits w32 key.0 }
    ensures { result.0 ≡ key.0 }
{
    SpecId(key.0 as i32)
}

pub fn field_key(id: FieldId) -> Key
    ensures result_value { result.0 ≡ id.0 }
    ensures sfits { SFits w32 result.0 }
{
    Key(i64::from(id.0))
}

pub fn field_id(key: Key) -> FieldId
    requires { SFits w32 key.0 }
    ensures { result.0 ≡ key.0 }
{
    FieldId(key.0 as i32)
}
