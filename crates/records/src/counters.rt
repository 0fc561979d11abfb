// Each counter and each kind of id is a type of its own, so that none passes for another.

// The position of a snapshot in the table's changes.
#[derive(Clone, Copy, PartialEq, Eq, PartialOrd, Ord)]
pub struct SequenceNumber(pub i64);

// The id of a row; the next one to be given out.
#[derive(Clone, Copy, PartialEq, Eq, PartialOrd, Ord)]
pub struct RowId(pub u64);

#[derive(Clone, Copy, PartialEq, Eq, PartialOrd, Ord)]
pub struct SnapshotId(pub i64);

#[derive(Clone, Copy, PartialEq, Eq, PartialOrd, Ord)]
pub struct SchemaId(pub i32);

#[derive(Clone, Copy, PartialEq, Eq, PartialOrd, Ord)]
pub struct FieldId(pub i32);

#[derive(Clone, Copy, PartialEq, Eq, PartialOrd, Ord)]
pub struct SortOrderId(pub i64);

#[derive(Clone, Copy, PartialEq, Eq, PartialOrd, Ord)]
pub struct SpecId(pub i32);

// How many buckets a partition has.
#[derive(Clone, Copy, PartialEq, Eq, PartialOrd, Ord)]
pub struct Buckets(pub i32);

// Milliseconds since 1970.
#[derive(Clone, Copy, PartialEq, Eq, PartialOrd, Ord)]
pub struct Time(pub i64);

// A span in milliseconds.
#[derive(Clone, Copy, PartialEq, Eq, PartialOrd, Ord)]
pub struct Age(pub i64);

// The size of a file, in bytes.
#[derive(Clone, Copy, PartialEq, Eq, PartialOrd, Ord)]
pub struct FileSize(pub i64);

// How many snapshots a branch keeps at least.
#[derive(Clone, Copy, PartialEq, Eq, PartialOrd, Ord)]
pub struct MinSnapshots(pub i32);
