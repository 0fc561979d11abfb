// An update: a kind, with the parts of every kind beside it. What of them the kind does not use is blank.
ghost use Rattle.std.specs.Prelude.{◌≡◌};
ghost use Rattle.records.specs.Blanks.{no_update, no_updates};

use crate::capacities::UPDATES;
use crate::part::{
    FieldsPart, PartitionSpecsPart, RefsPart, SchemasPart, SnapshotsPart, SortOrdersPart,
    StatisticsPart,
};

// The kinds, in the order of a table's life.
pub const ASSIGN_UUID: u8 = 1;

pub const UPGRADE_FORMAT_VERSION: u8 = 2;

pub const SET_LOCATION: u8 = 3;

pub const ADD_SNAPSHOT: u8 = 4;

pub const SET_BRANCH_SNAPSHOT: u8 = 5;

pub const REMOVE_SNAPSHOTS: u8 = 6;

pub const SET_REF: u8 = 7;

pub const REMOVE_REF: u8 = 8;

pub const ADD_SCHEMA: u8 = 9;

pub const SET_CURRENT_SCHEMA: u8 = 10;

pub const REMOVE_SCHEMAS: u8 = 11;

pub const ADD_SORT_ORDER: u8 = 12;

pub const SET_DEFAULT_SORT_ORDER: u8 = 13;

pub const SET_STATISTICS: u8 = 14;

pub const REMOVE_STATISTICS: u8 = 15;

pub const SET_PARTITION_STATISTICS: u8 = 16;

pub const REMOVE_PARTITION_STATISTICS: u8 = 17;

pub const ADD_PARTITION_SPEC: u8 = 18;

pub const SET_DEFAULT_PARTITION_SPEC: u8 = 19;

pub const REMOVE_PARTITION_SPECS: u8 = 20;

#[derive(Clone, Copy, PartialEq, Eq)]
pub struct TableUpdate {
    pub kind: u8,
    pub fields: FieldsPart,
    pub snapshots: SnapshotsPart,
    pub refs: RefsPart,
    pub schemas: SchemasPart,
    pub sort_orders: SortOrdersPart,
    pub statistics: StatisticsPart,
    pub partition_specs: PartitionSpecsPart,
}

// A list of updates, and the log of those that took effect.
#[derive(Clone, Copy, PartialEq, Eq)]
pub struct UpdateList {
    pub items: [TableUpdate; UPDATES],
    pub count: usize,
}

impl TableUpdate {
    pub fn blank() -> TableUpdate
        ensures { result ≡ no_update }
    {
        let fields = FieldsPart::blank();
        let snapshots = SnapshotsPart::blank();
        let refs = RefsPart::blank();
        let schemas = SchemasPart::blank();
        let sort_orders = SortOrdersPart::blank();
        let statistics = StatisticsPart::blank();
        let partition_specs = PartitionSpecsPart::blank();
        TableUpdate {
            kind: 0,
            fields,
            snapshots,
            refs,
            schemas,
            sort_orders,
            statistics,
            partition_specs,
        }
    }
}

impl UpdateList {
    pub fn blank() -> UpdateList
        ensures { result ≡ no_updates }
    {
        let none = TableUpdate::blank();
        let items = [none; UPDATES];
        UpdateList { items, count: 0 }
    }
}
